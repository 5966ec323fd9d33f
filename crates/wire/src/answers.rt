//! The answers of a wire.

use std::fmt;
use thiserror::Error;

/// What a line's head tells.
// No Option or Result: one match tells all three states of a line, and none of them is a failure.
#[derive(Clone, Copy, PartialEq, Eq, Debug)]
pub enum Head {
    /// the sender and the opcode of the first request that waits
    Request(u32, u16),
    /// none waits, and the line is broken
    Broken,
    /// none waits
    Nothing,
}

// By hand: a derived text is for errors, and this is none.
impl fmt::Display for Head {
    fn fmt<W: fmt::Write>(&self, f: &mut fmt::Formatter<W>) -> fmt::Result {
        match *self {
            Head::Request(sender, opcode) => write!(f, "request {sender} {opcode}"),
            Head::Broken => f.write_str("broken"),
            Head::Nothing => f.write_str("nothing"),
        }
    }
}

/// Why nothing was read.
#[derive(Clone, Copy, PartialEq, Eq, Debug, Error)]
pub enum ReadError {
    /// the first request has not the form of the signature
    #[error("malformed")]
    Malformed,
    /// no request waits
    #[error("nothing")]
    Nothing,
    /// the buffer has fewer than 4,096 bytes
    #[error("short")]
    Short,
}

/// Why an event was not taken.
#[derive(Clone, Copy, PartialEq, Eq, Debug, Error)]
pub enum WriteError {
    /// the allowance is 0
    #[error("refused")]
    Refused,
    /// the event's texts and arrays have more than 256 bytes together, or a text holds a zero
    #[error("too large")]
    BadSize,
}
