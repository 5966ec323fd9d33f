//! The globals, and the roll of the registries that hear of them.

use crate::ids::ObjectId;
use places::Table;

/// How many globals there can be at a time. Fixed, since one that finds no place is refused by a number.
pub const GLOBALS: usize = 32;

/// How many registries the roll has. Fixed, since one that finds no place is a client's error.
pub const REGISTRIES: usize = 32;

/// A global.
#[derive(Clone, Copy, PartialEq, Eq, Debug)]
pub struct Global {
    pub serial: u32,
    /// the catalogue row of its interface
    pub row: u32,
    pub version: u32,
    /// the server's number for what answers a bind
    pub handler: u32,
    /// announced no more, though it can still be bound
    pub disabled: bool,
}

/// The globals in their places, and the registries in the order in which they were asked for.
#[derive(Drop)]
pub struct Registry {
    pub globals: Table<Global, GLOBALS>,
    /// the last serial that a global took
    pub last_serial: u32,
    /// the registries, with no gap before the last; of fixed size, since a full roll is an answer of the rules
    pub roll: [Option<ObjectId>; REGISTRIES],
}
