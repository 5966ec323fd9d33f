//! Events, and which of them a wire takes.

ghost use Rattle.std.specs.Prelude.{◌≡◌, ◌≤◌, length, map};
ghost use Rattle.protocol.specs.Tallies.{all};
ghost use Rattle.message.specs.Events.{event_of, bare, sendable, total as total_of, weight as weight_of, clean as clean_of};
ghost use Rattle.message.specs.Meaning.{meaning};

use crate::{Message, Part, bytes_of};
use protocol::argument::Argument;

/// The most bytes of texts and arrays in an event.
pub const EVENT_BYTES: usize = 256;

/// An event. Its size is fixed, so that a wire can keep it in memory that was lent beforehand.
#[derive(Clone, Copy, Debug, PartialEq, Eq)]
pub struct Event {
    pub sender: u32,
    pub opcode: u16,
    pub message: Message,
    /// what the texts and arrays are parts of
    pub bytes: [u8; EVENT_BYTES],
}

impl Event {
    /// An event with no arguments.
    pub fn new(sender: u32, opcode: u16) -> Event
        ensures { result ≡ bare sender opcode }
    {
        Event {
            sender,
            opcode,
            message: Message::new(),
            bytes: [0; EVENT_BYTES],
        }
    }

    /// Whether a wire takes the event where its allowance lasts: its texts and arrays have at most 256 bytes together, and no
    /// text holds a zero.
    pub fn is_sendable(&self) -> bool
        ensures { result ≡ sendable (event_of self.now) }
    {
        let arguments = self.message.as_slice();
        total(arguments, &self.bytes) <= EVENT_BYTES && are_clean(arguments, &self.bytes)
    }
}

// How many bytes the arguments have together. This and the next three take the bytes beside their arguments: a struct of the two would be
// made in one line and taken apart in the next.
fn total(arguments: &[Argument<u32, Part>], bytes: &[u8]) -> usize
    requires few { length arguments.now ≤ 8 }
    requires short { length bytes.now ≤ 256 }
    ensures { result ≡ total_of (map (meaning bytes.now) arguments.now) }
{
    arguments
        .iter()
        .map(|argument| weight(*argument, bytes))
        .sum()
}

// Whether no argument is a text with a zero.
fn are_clean(arguments: &[Argument<u32, Part>], bytes: &[u8]) -> bool
    ensures { result ≡ all clean_of (map (meaning bytes.now) arguments.now) }
{
    arguments.iter().all(|argument| is_clean(*argument, bytes))
}

// How many bytes an argument has.
fn weight(argument: Argument<u32, Part>, bytes: &[u8]) -> usize
    ensures value { result ≡ weight_of (meaning bytes.now argument) }
    ensures within { result ≤ length bytes.now }
{
    match argument {
        Argument::Str(Some(part)) | Argument::Array(part) => bytes_of(bytes, part).len(),
        _ => 0,
    }
}

// Whether an argument is no text with a zero.
fn is_clean(argument: Argument<u32, Part>, bytes: &[u8]) -> bool
    ensures { result ≡ clean_of (meaning bytes.now argument) }
{
    match argument {
        Argument::Str(Some(part)) => bytes_of(bytes, part).iter().all(|byte| *byte > 0),
        _ => true,
    }
}
