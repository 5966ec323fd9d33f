//! An interface as a session writes it: `NAME VERSION`, and then for each message
//! `request` or `event`, `NAME SINCE plain|destructor CHILD KINDS`.

use crate::texts::Kind;
use crate::words::{Misread, Words, number_of};
use protocol::argument::ArgumentType;
use protocol::interface::{InterfaceBuf, MessageBuf};
use std::alloc::Global;

// The most messages that a line can describe. A row takes 16 of each direction; more are read, and the catalogue refuses them.
const MESSAGES: usize = 65_534;

/// The interface of the words that are left.
// Word by word, with no list of them: a line that is no call is then refused at its first mistake, however long it is.
pub fn interface(heap: Global, words: &mut Words<'_>) -> Result<InterfaceBuf, Misread> {
    let (name, version) = (words.word()?, words.number()?);
    let mut row = InterfaceBuf {
        name: Vec::from_slice(heap, name.as_bytes())?,
        version,
        requests: Vec::new(heap),
        events: Vec::new(heap),
    };
    // one turn more than messages, in which the line ends
    for _ in 0..=MESSAGES {
        let messages = match words.next() {
            None => return Ok(row),
            Some((_, "request")) => &mut row.requests,
            Some((_, "event")) => &mut row.events,
            Some(_) => return Err(Misread::Words),
        };
        messages.push(message(heap, words)?)?;
    }
    Err(Misread::Words)
}

fn message(heap: Global, words: &mut Words<'_>) -> Result<MessageBuf, Misread> {
    let (name, since) = (words.word()?, words.number()?);
    let is_destructor = is_destructor(words.word()?)?;
    let child_interface = child_of(words.word()?)?;
    let kinds = words.word()?;
    let mut message = MessageBuf {
        name: Vec::from_slice(heap, name.as_bytes())?,
        signature: Vec::new(heap),
        since,
        is_destructor,
        child_interface,
        arg_interfaces: Vec::new(heap),
    };
    if kinds != "-" {
        for kind in kinds.split(',') {
            add_kind(&mut message, kind)?;
        }
    }
    Ok(message)
}

// Whether a message ends its sender.
fn is_destructor(word: &str) -> Result<bool, Misread> {
    match word {
        "plain" => Ok(false),
        "destructor" => Ok(true),
        _ => Err(Misread::Words),
    }
}

// A row number, or `-` for none.
fn child_of(word: &str) -> Result<Option<u32>, Misread> {
    match word {
        "-" => Ok(None),
        row => Ok(Some(number_of(row)?)),
    }
}

// Adds an argument of a kind, with its row where it is an object. The kinds with no row are looked for first, since most are of these.
fn add_kind(message: &mut MessageBuf, word: &str) -> Result<(), Misread> {
    if let Ok(Kind(kind)) = word.parse() {
        if matches!(kind, ArgumentType::Object(_)) {
            return Err(Misread::Words);
        }
        return Ok(message.signature.push(kind)?);
    }
    let (name, row) = word.split_once(':').ok_or(Misread::Words)?;
    let Kind(kind) = name.parse()?;
    if !matches!(kind, ArgumentType::Object(_)) {
        return Err(Misread::Words);
    }
    let row = number_of(row)?;
    message.signature.push(kind)?;
    Ok(message.arg_interfaces.push(row)?)
}
