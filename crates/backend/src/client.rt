//! A client of the engine: its state, and the objects that it has.

use crate::ids::{ClientId, ObjectId};
use map::{DataMark, ObjectData, ObjectMap};
use places::Table;

/// How many clients there can be at a time. Fixed, since a client that finds no place is refused by a number.
pub const CLIENTS: usize = 8;

/// What a protocol error names.
#[derive(Clone, Copy, PartialEq, Eq, Debug)]
pub struct ProtocolError {
    pub code: u32,
    /// the id of the object that the error is about
    pub object: u32,
    /// the catalogue row of that object's interface
    pub row: u32,
}

/// Why a client was killed.
// No Option of an error: both cases are reasons, with names in the crate and in the rules.
#[derive(Clone, Copy, PartialEq, Eq, Debug)]
pub enum DisconnectReason {
    /// its line is broken, or a write to it was refused
    ConnectionClosed,
    ProtocolError(ProtocolError),
}

/// Where a client stands. A killed client stays in its place until it is tidied away.
#[derive(Clone, Copy, PartialEq, Eq, Debug)]
pub enum ClientState {
    Live,
    /// killed, and the reason is not told yet
    Untold(DisconnectReason),
    /// killed, and the reason is told
    Told,
}

/// A client.
#[derive(Drop)]
pub struct Client {
    pub serial: u32,
    /// the server's number for the client
    pub data: u32,
    pub state: ClientState,
    /// the last serial that an object took
    pub last_serial: u32,
    pub map: ObjectMap<ObjectData>,
}

/// The end of an object: its handle, and the data that it had.
#[derive(Clone, Copy, PartialEq, Eq, Debug)]
pub struct End {
    pub object: ObjectId,
    pub mark: DataMark,
}

/// The clients in their places.
#[derive(Drop)]
pub struct ClientStore {
    pub clients: Table<Client, CLIENTS>,
    /// the last serial that a client took
    pub last_serial: u32,
}

/// The reason of a client's end, with the client.
#[derive(Clone, Copy, PartialEq, Eq, Debug)]
pub struct Disconnected {
    pub client: ClientId,
    pub reason: DisconnectReason,
}
