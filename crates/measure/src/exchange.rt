//! One exchange, over any wire: place 1 holds a request with a text, and is broken behind it.

use message::{Event, Message, Part};
use protocol::argument::{AllowNull, Argument, ArgumentType};
use std::fmt::Display;
use std::io;
use wire::queued::Request;
use wire::{BODY_BYTES, Wire};

// A message with one argument.
fn one(argument: Argument<u32, Part>) -> Message {
    let mut message = Message::new();
    message.copy_from(&[argument]);
    message
}

/// A request of object 2, opcode 5, with the body as its one text.
pub fn request(body: &[u8]) -> Request<'_> {
    let whole = Part {
        start: 0,
        len: body.len(),
    };
    Request {
        sender: 2,
        opcode: 5,
        message: one(Argument::Str(Some(whole))),
        body,
    }
}

// An event of object 2 with one argument.
fn event_with(argument: Argument<u32, Part>) -> Event {
    let mut event = Event::new(2, 0);
    event.message = one(argument);
    event
}

/// An event of object 2 with one number.
pub fn event(number: u32) -> Event {
    event_with(Argument::Uint(number))
}

// An event whose text is a zero.
fn zero_text() -> Event {
    event_with(Argument::Str(Some(Part { start: 0, len: 1 })))
}

// Says that a call was done, or why it was not.
fn say<E: Display + Drop>(
    rt: &HostRuntime,
    what: &str,
    done: &str,
    outcome: Result<(), E>,
) -> io::Result<()> {
    match outcome {
        Ok(()) => println!(rt; "{what}: {done}"),
        Err(error) => println!(rt; "{what}: {error}"),
    }
}

/// Reads, writes until the wire refuses, flushes and goes on.
pub fn run<W: Wire>(rt: &HostRuntime, wire: &mut W) -> io::Result<()> {
    reads(rt, wire)?;
    writes(rt, wire)?;
    wire.open(1);
    println!(rt; "head after open: {}", wire.head(1))
}

fn reads<W: Wire>(rt: &HostRuntime, wire: &mut W) -> io::Result<()> {
    let mut message = Message::new();
    let mut body = [0; BODY_BYTES];
    let number = [ArgumentType::Uint];
    let text = [ArgumentType::Str(AllowNull::No)];
    println!(rt; "head: {}", wire.head(1))?;
    let outcome = wire.read(1, &text, &mut message, &mut body[..8]);
    say(rt, "into 8 bytes", "read", outcome)?;
    let outcome = wire.read(1, &number, &mut message, &mut body);
    say(rt, "as a number", "read", outcome)?;
    let outcome = wire.read(1, &text, &mut message, &mut body);
    say(rt, "as a text", "read", outcome)?;
    let count = message.count;
    println!(rt; "arguments {count}, body begins {} {}", body[0], body[1])?;
    let outcome = wire.read(1, &text, &mut message, &mut body);
    say(rt, "again", "read", outcome)?;
    println!(rt; "head: {}", wire.head(1))?;
    println!(rt; "head of another place: {}", wire.head(0))
}

fn writes<W: Wire>(rt: &HostRuntime, wire: &mut W) -> io::Result<()> {
    say(rt, "a zero in a text", "taken", wire.write(1, &zero_text()))?;
    for number in 0..5 {
        say(rt, "event", "taken", wire.write(1, &event(number)))?;
    }
    println!(rt; "carried {}", wire.flush(1))?;
    say(rt, "after the flush", "taken", wire.write(1, &event(9)))?;
    say(rt, "at place 3", "taken", wire.write(3, &event(9)))?;
    println!(rt; "carried {}", wire.flush(1))
}
