//! The texts of answers.

use crate::words::Misread;
use map::DataMark;
use protocol::argument::{AllowNull, ArgumentType};
use protocol::refusal::Refusal;
use std::alloc::{AllocError, Global};
use std::fmt;
use std::str::FromStr;

/// What came of a call, or why nothing did.
pub fn said<T: fmt::Display + Drop, E: fmt::Display + Drop>(
    heap: Global,
    outcome: Result<T, E>,
) -> Result<String, AllocError> {
    match outcome {
        Ok(done) => done.to_string(heap),
        Err(error) => error.to_string(heap),
    }
}

/// A call that was refused, by its number and its text.
#[derive(Clone, Copy)]
pub struct Refused(pub Refusal);

impl fmt::Display for Refused {
    fn fmt<W: fmt::Write>(&self, f: &mut fmt::Formatter<W>) -> fmt::Result {
        let Refused(refusal) = self;
        write!(f, "refused {}: {refusal}", refusal.number())
    }
}

/// What is kept with an object.
#[derive(Clone, Copy)]
pub struct Mark(pub DataMark);

impl fmt::Display for Mark {
    fn fmt<W: fmt::Write>(&self, f: &mut fmt::Formatter<W>) -> fmt::Result {
        match self.0 {
            DataMark::Own => f.write_str("own"),
            DataMark::Awaited => f.write_str("awaited"),
            DataMark::Number(number) => write!(f, "{number}"),
        }
    }
}

/// A name, with `?` for each byte that is no printable ASCII.
#[derive(Clone, Copy)]
pub struct Name<'a>(pub &'a [u8]);

impl<'a> fmt::Display for Name<'a> {
    fn fmt<W: fmt::Write>(&self, f: &mut fmt::Formatter<W>) -> fmt::Result {
        for byte in self.0 {
            f.write_char(match byte {
                b' '..=b'~' => char::from(*byte),
                _ => '?',
            })?;
        }
        Ok(())
    }
}

/// A kind of argument.
#[derive(Clone, Copy)]
pub struct Kind(pub ArgumentType);

const KINDS: [(&str, ArgumentType); 10] = [
    ("int", ArgumentType::Int),
    ("uint", ArgumentType::Uint),
    ("fixed", ArgumentType::Fixed),
    ("str", ArgumentType::Str(AllowNull::No)),
    ("str?", ArgumentType::Str(AllowNull::Yes)),
    ("object", ArgumentType::Object(AllowNull::No)),
    ("object?", ArgumentType::Object(AllowNull::Yes)),
    ("new_id", ArgumentType::NewId),
    ("array", ArgumentType::Array),
    ("fd", ArgumentType::Fd),
];

impl fmt::Display for Kind {
    fn fmt<W: fmt::Write>(&self, f: &mut fmt::Formatter<W>) -> fmt::Result {
        match KINDS.iter().find(|(_, kind)| *kind == self.0) {
            Some((name, _)) => f.write_str(name),
            None => Ok(()),
        }
    }
}

impl FromStr for Kind {
    type Err = Misread;

    fn from_str(word: &str) -> Result<Kind, Misread> {
        match KINDS.iter().find(|(name, _)| *name == word) {
            Some((_, kind)) => Ok(Kind(*kind)),
            None => Err(Misread::Words),
        }
    }
}
