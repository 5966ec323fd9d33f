//! Reads the arguments of a message, one after the other.

ghost use Rattle.std.specs.Prelude.{◌≡◌};
ghost use Rattle.std.specs.Iterator.{YieldsFirstBy, item_count};
ghost use Rattle.message.specs.Meaning.{meaning, meanings};
ghost use Rattle.message.specs.Reading.{left, borrowed, ReaderLaws};

use crate::{Message, Part, bytes_of};
use protocol::argument::Argument;

/// What is left of a message to read. Texts and arrays come out as parts of the body that it holds.
// The message is held by value, as callers read over it: so what was read is counted, and no slice of the message is kept.
#[derive(Clone, Copy, Debug, PartialEq, Eq)]
pub struct Reader<'a> {
    message: Message,
    body: &'a [u8],
    index: usize,
}

impl<'a> Reader<'a> {
    /// A reader at the first argument.
    pub fn new(message: Message, body: &'a [u8]) -> Reader<'a>
        ensures { left result ≡ meanings body.now message }
    {
        Reader {
            message,
            body,
            index: 0,
        }
    }
}

impl<'a> Iterator for Reader<'a> {
    type Item = Argument<u32, &'a [u8]>;

    ghost next_gives = { YieldsFirstBy borrowed left };

    ghost remaining = { item_count left };

    /// The next argument; after the last there is none.
    fn next(&mut self) -> Option<Argument<u32, &'a [u8]>> {
        let argument = self.message.as_slice().get(self.index).copied()?;
        self.index += 1;
        Some(read_from(argument, self.body))
    }
}

// What an argument says beside a body.
fn read_from<'a>(argument: Argument<u32, Part>, body: &'a [u8]) -> Argument<u32, &'a [u8]>
    ensures { borrowed result ≡ meaning body.now argument }
{
    match argument {
        Argument::Int(x) => Argument::Int(x),
        Argument::Uint(x) => Argument::Uint(x),
        Argument::Fixed(x) => Argument::Fixed(x),
        Argument::Str(None) => Argument::Str(None),
        Argument::Str(Some(part)) => Argument::Str(Some(bytes_of(body, part))),
        Argument::Object(x) => Argument::Object(x),
        Argument::NewId(x) => Argument::NewId(x),
        Argument::Array(part) => Argument::Array(bytes_of(body, part)),
        Argument::Fd(x) => Argument::Fd(x),
    }
}

/// A reader gives every argument in order, and then none: the laws stand.
pub fn reader_laws()
    ensures { ReaderLaws }
{}
