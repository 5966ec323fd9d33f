//! What goes over a wire: the arguments of a message, the body that its texts and arrays are parts of, and events.
//!
//! Everything has a fixed size, in memory of the caller's: nothing here allocates.

#![tactic(auto)]

mod copies;
mod event;
mod part;
mod reader;

ghost use Rattle.message.specs.Meaning.{said, overlaid, no_arguments};
ghost use Rattle.std.specs.Prelude.{◌≡◌, length};

pub use copies::lay;
pub use event::{EVENT_BYTES, Event};
use part::front_of;
pub use part::{Part, bytes_of};
pub use protocol::argument::ARGUMENTS;
use protocol::argument::Argument;
pub use reader::{Reader, reader_laws};

/// The first `count` arguments, of at most eight; texts and arrays are parts of a body that is kept beside them.
///
/// An array with its count, and no `Vec`: a wire's cells are lent memory, and nothing that goes over it allocates.
#[derive(Clone, Copy, Debug, PartialEq, Eq)]
pub struct Message {
    pub count: usize,
    pub arguments: [Argument<u32, Part>; ARGUMENTS],
}

impl Message {
    /// No arguments.
    pub fn new() -> Message
        ensures { result ≡ no_arguments }
    {
        Message {
            count: 0,
            arguments: [Argument::Uint(0); ARGUMENTS],
        }
    }

    /// The arguments that count.
    pub fn as_slice(&self) -> &[Argument<u32, Part>]
        ensures { result.now ≡ said self.now }
    {
        front_of(&self.arguments, self.count)
    }

    /// Takes over other arguments; those past their count stay as they are.
    pub fn copy_from(&mut self, arguments: &[Argument<u32, Part>])
        ensures { self.new ≡ record { count = length arguments.now; arguments = overlaid arguments.now self.old.arguments } }
    {
        lay(arguments, &mut self.arguments);
        self.count = arguments.len();
    }
}
