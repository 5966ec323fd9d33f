//! The words of a line, taken one after the other.

ghost use Rattle.std.specs.Prelude.{length};
ghost use Rattle.std.specs.Iterator.{at_most};

use map::DataMark;
use num_traits::Num;
use std::alloc::{AllocError, AllocFailed};

/// Why words are not read.
#[derive(Clone, Copy)]
pub enum Misread {
    /// they are not what was asked for
    Words,
    NoMemory,
}

// By hand, both: a derived conversion keeps the error that it comes from, and this one drops it.
impl From<AllocError> for Misread {
    fn from(_: AllocError) -> Misread {
        Misread::NoMemory
    }
}

impl<T: Drop> From<AllocFailed<T>> for Misread {
    fn from(_: AllocFailed<T>) -> Misread {
        Misread::NoMemory
    }
}

/// The words that are left of a line, each after the index at which it starts in the line.
#[derive(Drop)]
pub struct Words<'a> {
    line: &'a str,
    rest: &'a str,
}

impl<'a> Iterator for Words<'a> {
    type Item = (usize, &'a str);

    ghost remaining = { λ s. at_most (length s.rest.now) };

    fn next(&mut self) -> Option<(usize, &'a str)> {
        let rest = self.rest.trim_start();
        let word = rest.split_whitespace().next()?;
        let start = self.line.len().saturating_sub(rest.len());
        self.rest = rest.strip_prefix(word)?;
        Some((start, word))
    }
}

impl<'a> Words<'a> {
    pub fn new(line: &'a str) -> Words<'a> {
        Words { line, rest: line }
    }

    /// The line that the words are of.
    pub fn line(&self) -> &'a str {
        self.line
    }

    /// The next word.
    pub fn word(&mut self) -> Result<&'a str, Misread> {
        let (_, word) = self.next().ok_or(Misread::Words)?;
        Ok(word)
    }

    /// A number of 32 bits.
    pub fn number(&mut self) -> Result<u32, Misread> {
        number_of(self.word()?)
    }

    /// A number of 16 bits.
    pub fn opcode(&mut self) -> Result<u16, Misread> {
        u16::try_from(self.number()?).map_err(|_| Misread::Words)
    }

    /// The number of a place.
    pub fn place(&mut self) -> Result<usize, Misread> {
        Ok(self.number()? as usize)
    }

    /// A number of at least `least` and at most `most`.
    pub fn between(&mut self, least: usize, most: usize) -> Result<usize, Misread> {
        let number = self.place()?;
        if (least..=most).contains(&number) {
            Ok(number)
        } else {
            Err(Misread::Words)
        }
    }

    /// What is kept with an object: `own`, `awaited` or a number.
    pub fn mark(&mut self) -> Result<DataMark, Misread> {
        match self.word()? {
            "own" => Ok(DataMark::Own),
            "awaited" => Ok(DataMark::Awaited),
            word => Ok(DataMark::Number(number_of(word)?)),
        }
    }

    /// Nothing is left.
    pub fn end(&mut self) -> Result<(), Misread> {
        match self.next() {
            None => Ok(()),
            Some(_) => Err(Misread::Words),
        }
    }
}

/// A number in decimal, or in hexadecimal after `0x`.
pub fn number_of<N: Num>(word: &str) -> Result<N, Misread> {
    let (digits, radix) = match word.strip_prefix("0x") {
        Some(digits) => (digits, 16),
        None => (word, 10),
    };
    N::from_str_radix(digits, radix).map_err(|_| Misread::Words)
}
