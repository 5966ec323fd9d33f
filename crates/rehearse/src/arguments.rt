//! Arguments as a script writes and shows them: `int:-3`, `str:TEXT`, and `str` for a null text.

use crate::texts::{Kind, Name};
use crate::words::{Misread, Words, number_of};
use message::{Event, Message, Part, Reader, bytes_of, lay};
use protocol::argument::{Argument, ArgumentType};
use std::alloc::Global;
use std::fmt;

/// The arguments of the words that are left, or none where they are more than a message can hold. Texts and arrays are parts of
/// the line.
pub fn arguments_of(words: &mut Words<'_>) -> Result<Option<Message>, Misread> {
    let mut message = Message::new();
    for (index, (argument, (start, word))) in message
        .arguments
        .iter_mut()
        .zip(words.by_ref())
        .enumerate()
    {
        *argument = argument_of(start, word)?;
        // how many are read so far
        message.count = index + 1;
    }
    Ok(words.next().is_none().then_some(message))
}

// The argument of a word that starts at an index of the line.
fn argument_of(start: usize, word: &str) -> Result<Argument<u32, Part>, Misread> {
    let Some((kind, text)) = word.split_once(':') else {
        return match word {
            "str" => Ok(Argument::Str(None)),
            _ => Err(Misread::Words),
        };
    };
    let part = Part {
        start: start.saturating_add(kind.len()).saturating_add(1),
        len: text.len(),
    };
    match kind {
        "int" => Ok(Argument::Int(number_of(text)?)),
        "uint" => Ok(Argument::Uint(number_of(text)?)),
        "fixed" => Ok(Argument::Fixed(number_of(text)?)),
        "str" => Ok(Argument::Str(Some(part))),
        "object" => Ok(Argument::Object(number_of(text)?)),
        "new_id" => Ok(Argument::NewId(number_of(text)?)),
        "array" => Ok(Argument::Array(part)),
        "fd" => Ok(Argument::Fd(number_of(text)?)),
        _ => Err(Misread::Words),
    }
}

/// An event with arguments that are parts of a line, or none where it has no room for their bytes: they are copied, one after
/// the other.
pub fn event_of(sender: u32, opcode: u16, message: Message, line: &[u8]) -> Option<Event> {
    let mut event = Event::new(sender, opcode);
    event.message = message;
    let mut used: usize = 0;
    for argument in event.message.arguments.iter_mut() {
        if let Argument::Str(Some(part)) | Argument::Array(part) = argument {
            let text = bytes_of(line, *part);
            let end = used.checked_add(text.len())?;
            lay(text, event.bytes.get_mut(used..end)?);
            *part = Part {
                start: used,
                len: text.len(),
            };
            used = end;
        }
    }
    Some(event)
}

/// The kinds of a word, `-` or a list with commas. A wire knows no rows, so an object's kind is written without one.
pub fn signature(heap: Global, word: &str) -> Result<Vec<ArgumentType>, Misread> {
    let mut kinds = Vec::new(heap);
    if word != "-" {
        for name in word.split(',') {
            kinds.push(name.parse::<Kind>()?.0)?;
        }
    }
    Ok(kinds)
}

/// The arguments of a message beside its body, with a text between two.
#[derive(Clone, Copy)]
pub struct Arguments<'a> {
    pub message: Message,
    pub body: &'a [u8],
    pub between: &'static str,
}

impl<'a> fmt::Display for Arguments<'a> {
    fn fmt<W: fmt::Write>(&self, f: &mut fmt::Formatter<W>) -> fmt::Result {
        for (index, argument) in Reader::new(self.message, self.body).enumerate() {
            // the index only tells the first one apart: no flag or text is then kept from turn to turn
            if index > 0 {
                f.write_str(self.between)?;
            }
            write!(f, "{}", Shown(argument))?;
        }
        Ok(())
    }
}

// An argument as a script writes it.
#[derive(Clone, Copy)]
struct Shown<'a>(Argument<u32, &'a [u8]>);

impl<'a> fmt::Display for Shown<'a> {
    fn fmt<W: fmt::Write>(&self, f: &mut fmt::Formatter<W>) -> fmt::Result {
        match self.0 {
            Argument::Int(number) => write!(f, "int:{number}"),
            Argument::Uint(number) => write!(f, "uint:{number}"),
            Argument::Fixed(number) => write!(f, "fixed:{number}"),
            Argument::Str(None) => f.write_str("str"),
            Argument::Str(Some(text)) => write!(f, "str:{}", Name(text)),
            Argument::Object(id) => write!(f, "object:{id}"),
            Argument::NewId(id) => write!(f, "new_id:{id}"),
            Argument::Array(bytes) => write!(f, "array:{}", Name(bytes)),
            Argument::Fd(number) => write!(f, "fd:{number}"),
        }
    }
}
