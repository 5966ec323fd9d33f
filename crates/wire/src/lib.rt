//! Wires: what the engine reads requests from and writes events to, place by place.
//!
//! What a wire means stands in `specs/Line.antt`. Nothing in a call of a wire allocates: an event that found no memory would
//! be refused while its allowance lasts, which the meaning forbids.

#![tactic(auto)]

pub mod answers;
pub mod metered;
pub mod queued;

ghost use Rattle.std.specs.Prelude.{◌≡◌, ℕ, length};
ghost use Rattle.message.specs.Events.{event_of};
ghost use Rattle.queue.specs.Ring.{at_place};
ghost use Rattle.wire.specs.Line.{Line, head_of, reads, read_answer, read_after, message_after, body_after, Agrees, write_answer, written, carried, flushed, opened};
ghost use Rattle.wire.specs.Laws.{LineLaws};

use answers::{Head, ReadError, WriteError};
use message::{Event, Message};
use protocol::argument::ArgumentType;

/// The most bytes of a request's body, and the least of a buffer that is to take one.
pub const BODY_BYTES: usize = 4096;

/// A line for each place. Every call touches only the line of its own place.
pub trait Wire {
    ghost line: { Self → ℕ → Line };

    /// The sender and opcode of the first request that waits; else whether the line is broken.
    fn head(&self, place: usize) -> Head
        ensures { result ≡ head_of (line self.now place) };

    /// Takes the first request off the line, where it has the form of the signature: its arguments go to the message, and its
    /// body to the front of the buffer. At an error nothing changes.
    fn read(
        &mut self,
        place: usize,
        signature: &[ArgumentType],
        message: &mut Message,
        body: &mut [u8],
    ) -> Result<(), ReadError>
        ensures answer { result ≡ read_answer (length body.old) signature.now (line self.old place) }
        ensures message { message.new ≡ message_after (reads (length body.old) signature.now (line self.old place)) message.old }
        ensures body { body.new ≡ body_after (reads (length body.old) signature.now (line self.old place)) body.old }
        ensures lines { (p : ℕ) → line self.new p ≡ at_place place (read_after (length body.old) signature.now) (line self.old) p }
        ensures agrees { Agrees signature.now (reads (length body.old) signature.now (line self.old place)) };

    /// Puts an event last on the line, where the allowance lasts. At an error nothing changes.
    fn write(&mut self, place: usize, event: &Event) -> Result<(), WriteError>
        ensures answer { result ≡ write_answer (event_of event.now) (line self.old place) }
        ensures lines { (p : ℕ) → line self.new p ≡ at_place place (written (event_of event.now)) (line self.old) p };

    /// Carries the events of the line away, and says how many there were.
    fn flush(&mut self, place: usize) -> usize
        ensures answer { result ≡ carried (line self.old place) }
        ensures lines { (p : ℕ) → line self.new p ≡ at_place place flushed (line self.old) p };

    /// A fresh line.
    fn open(&mut self, place: usize)
        ensures { (p : ℕ) → line self.new p ≡ at_place place opened (line self.old) p };
}

/// What the calls do to a line, one after the other: the laws stand.
pub fn line_laws()
    ensures { LineLaws }
{}
