//! The calls of a session, read from a line.

use crate::arguments::{arguments_of, event_of, signature};
use crate::described::interface;
use crate::verb::Verb;
use crate::words::{Misread, Words};
use map::{DataMark, LocalId, Object};
use message::{Event, Message};
use protocol::argument::ArgumentType;
use protocol::interface::InterfaceBuf;
use std::alloc::Global;
use std::fmt;
use thiserror::Error;

/// The most places of a wire.
pub const PLACES: usize = 64;

/// The most cells of a place, for requests and for events each.
pub const CELLS: usize = 256;

/// What a line asks for.
#[derive(Drop)]
pub enum Call {
    /// a call to the session
    Session(Command),
    /// a look at the session's catalogue
    View(View),
    /// a wire, in place of the one that there is
    Make(Plan),
    /// a call to the wire that there is
    Wire(WireCall),
}

/// The wire that a script asks for.
#[derive(Clone, Copy)]
pub struct Plan {
    /// how many events the meter allows, where there is one
    pub own: Option<usize>,
    pub places: usize,
    /// the cells of each place
    pub requests: usize,
    pub events: usize,
}

impl fmt::Display for Plan {
    fn fmt<W: fmt::Write>(&self, f: &mut fmt::Formatter<W>) -> fmt::Result {
        match self.own {
            None => f.write_str("queue wire")?,
            Some(own) => write!(f, "metered wire of {own}")?,
        }
        write!(f, ": {} places, {} events each", self.places, self.events)
    }
}

/// A call to a wire at a place. It holds no reference, so that the script's lines can be lent to the wire beside it.
#[derive(Drop)]
pub enum WireCall {
    /// a request's sender and opcode, and its arguments, whose texts and arrays are parts of the line that the call is of
    Put(usize, u32, u16, Message),
    Break(usize),
    Events(usize),
    Head(usize),
    Read(usize, Vec<ArgumentType>),
    /// an event, or none where it has more arguments or bytes than an event can hold
    Write(usize, Option<Event>),
    Flush(usize),
    Open(usize),
}

/// A call to the session's objects, or one that makes or fills its catalogue.
#[derive(Drop)]
pub enum Command {
    Enter(u32, NewObject),
    Create(NewObject),
    Find(u32),
    Look(LocalId),
    Set(LocalId, u32),
    Remove(u32),
    Next(u32),
    Catalogue(u32),
    Fill(u32, InterfaceBuf),
}

/// What a catalogue is asked.
#[derive(Clone, Copy)]
pub enum View {
    Row(u32),
    Request(u32, u16),
    Event(u32, u16),
    Same(u32, u32),
    Admits(u32, u32),
}

/// An object that is to be entered; the session gives it its serial.
pub type NewObject = Object<DataMark>;

/// Why a line is no call.
#[derive(Clone, Copy, Debug, Error)]
pub enum Mistake {
    /// the first word is no call's
    // The words of `VERBS` once more: to join them with commas and an `or` takes more lines than the text.
    #[error("expected enter, create, find, look, set, remove, next, catalogue, fill, row, request, event, same, admits, wire, put, break, head, read, write, flush, open or events")]
    Verb,
    /// the words after it are not what that call takes
    #[error("expected {0}")]
    Usage(Verb),
    #[error("out of memory")]
    NoMemory,
}

/// The call of a line, or none where the line is empty or a comment.
pub fn read_call(heap: Global, line: &str) -> Result<Option<Call>, Mistake> {
    let mut words = Words::new(line);
    let Some((_, first)) = words.next() else {
        return Ok(None);
    };
    if first.starts_with('#') {
        return Ok(None);
    }
    let verb = first.parse::<Verb>()?;
    match arguments(heap, verb, &mut words) {
        Ok(call) => Ok(Some(call)),
        Err(Misread::Words) => Err(Mistake::Usage(verb)),
        Err(Misread::NoMemory) => Err(Mistake::NoMemory),
    }
}

// The call with its arguments.
fn arguments(heap: Global, verb: Verb, words: &mut Words<'_>) -> Result<Call, Misread> {
    let call = match verb {
        Verb::Enter => Call::Session(Command::Enter(words.number()?, new_object(words)?)),
        Verb::Create => Call::Session(Command::Create(new_object(words)?)),
        Verb::Find => Call::Session(Command::Find(words.number()?)),
        Verb::Look => Call::Session(Command::Look(local_id(words)?)),
        Verb::Set => Call::Session(Command::Set(local_id(words)?, words.number()?)),
        Verb::Remove => Call::Session(Command::Remove(words.number()?)),
        Verb::Next => Call::Session(Command::Next(words.number()?)),
        Verb::Catalogue => Call::Session(Command::Catalogue(words.number()?)),
        Verb::Fill => Call::Session(Command::Fill(words.number()?, interface(heap, words)?)),
        Verb::Row => Call::View(View::Row(words.number()?)),
        Verb::Request => Call::View(View::Request(words.number()?, words.opcode()?)),
        Verb::Event => Call::View(View::Event(words.number()?, words.opcode()?)),
        Verb::Same => Call::View(View::Same(words.number()?, words.number()?)),
        Verb::Admits => Call::View(View::Admits(words.number()?, words.number()?)),
        Verb::Wire => Call::Make(new_plan(words)?),
        Verb::Put => Call::Wire(put(words)?),
        Verb::Break => Call::Wire(WireCall::Break(words.place()?)),
        Verb::Head => Call::Wire(WireCall::Head(words.place()?)),
        Verb::Read => Call::Wire(read(heap, words)?),
        Verb::Write => return Ok(Call::Wire(write(words)?)),
        Verb::Flush => Call::Wire(WireCall::Flush(words.place()?)),
        Verb::Open => Call::Wire(WireCall::Open(words.place()?)),
        Verb::Events => Call::Wire(WireCall::Events(words.place()?)),
    };
    words.end()?;
    Ok(call)
}

fn new_plan(words: &mut Words<'_>) -> Result<Plan, Misread> {
    let own = match words.word()? {
        "queue" => None,
        "metered" => Some(words.place()?),
        _ => return Err(Misread::Words),
    };
    Ok(Plan {
        own,
        places: words.between(1, PLACES)?,
        requests: words.between(0, CELLS)?,
        events: words.between(0, CELLS)?,
    })
}

// A place, a sender and an opcode.
fn address(words: &mut Words<'_>) -> Result<(usize, u32, u16), Misread> {
    Ok((words.place()?, words.number()?, words.opcode()?))
}

// The kinds are kept only where nothing stands behind them.
fn read(heap: Global, words: &mut Words<'_>) -> Result<WireCall, Misread> {
    let (place, kinds) = (words.place()?, words.word()?);
    words.end()?;
    Ok(WireCall::Read(place, signature(heap, kinds)?))
}

fn put(words: &mut Words<'_>) -> Result<WireCall, Misread> {
    let (place, sender, opcode) = address(words)?;
    let message = arguments_of(words)?.ok_or(Misread::Words)?;
    Ok(WireCall::Put(place, sender, opcode, message))
}

// What is left of the line does not matter where the arguments are too many.
fn write(words: &mut Words<'_>) -> Result<WireCall, Misread> {
    let (place, sender, opcode) = address(words)?;
    let line = words.line().as_bytes();
    let event = arguments_of(words)?.and_then(|message| event_of(sender, opcode, message, line));
    Ok(WireCall::Write(place, event))
}

fn new_object(words: &mut Words<'_>) -> Result<NewObject, Misread> {
    Ok(NewObject {
        row: words.number()?,
        version: words.number()?,
        data: words.mark()?,
    })
}

fn local_id(words: &mut Words<'_>) -> Result<LocalId, Misread> {
    Ok(LocalId {
        id: words.number()?,
        serial: words.number()?,
        row: words.number()?,
    })
}
