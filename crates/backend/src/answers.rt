//! The answers of the calls. A call that is refused answers a `Refusal` in place of these, but for a settle, which hands the
//! ticket back. An answer shows every object that was entered, every end and every ticket.

use crate::client::{Disconnected, End};
use crate::faults::StepFault;
use crate::ids::{ClientId, ObjectId};
use crate::ticket::{MakingTicket, PlainTicket};
use map::DataMark;

/// What became of a request that broke the protocol: the client is told, and killed.
#[derive(Clone, Copy, PartialEq, Eq, Debug)]
pub struct StepError {
    pub fault: StepFault,
    /// the object that the request had entered before the fault
    pub entered: Option<ObjectId>,
    /// how many bytes of the text buffer the error's text has; the buffer is lent, so the answer holds no text
    pub text: usize,
}

/// What a step did.
#[derive(Drop)]
pub enum StepAnswer {
    /// no request waits
    Idle,
    /// the line is broken: the client is killed as closed
    Closed,
    /// a callback was entered, told that it is done, and ended
    Synced(End),
    /// a registry was entered, told of the globals, and put on the roll
    Registered(ObjectId),
    /// a request that makes no object
    Plain(PlainTicket),
    /// a request that makes one
    Making(MakingTicket),
    /// the request broke the protocol
    Failed(StepError),
}

/// What became of the child of a making ticket.
// No bool: the two cases have names in the rules.
#[derive(Clone, Copy, PartialEq, Eq, Debug)]
pub enum ChildAnswer {
    /// it has its data
    Set,
    /// it ended before
    Gone,
}

/// What the settling of a making ticket did.
#[derive(Clone, Copy, PartialEq, Eq, Debug)]
pub struct SettledMaking {
    /// the end of the sender of a destructor
    pub ended: Option<End>,
    pub child: ChildAnswer,
}

/// What became of an event. An event with the destructor mark ends its sender, whether or not the wire took it.
// No Result: a lost event is no failure of the call, which ends the sender all the same.
#[derive(Clone, Copy, PartialEq, Eq, Debug)]
pub enum SendAnswer {
    /// the wire took it
    Sent(Option<End>),
    /// the wire refused it: the client is killed as closed
    Lost(Option<End>),
    /// the client was killed before: nothing was done
    NotSent,
}

/// What an object is.
// No `Object<DataMark>`, which has the same parts: an answer names the mark, and the rules this answer.
#[derive(Clone, Copy, PartialEq, Eq, Debug)]
pub struct ObjectInfo {
    pub row: u32,
    pub version: u32,
    pub mark: DataMark,
}

/// What a post or a kill did.
// No bool: the two cases have names in the rules.
#[derive(Clone, Copy, PartialEq, Eq, Debug)]
pub enum KillAnswer {
    /// the client is killed for this reason, or as closed where the wire refused the error
    Killed,
    /// it was killed before: nothing was done
    NoEffect,
}

/// What a disabling did.
// No bool: the two cases have names in the rules.
#[derive(Clone, Copy, PartialEq, Eq, Debug)]
pub enum DisableAnswer {
    /// every registry of a client that is not killed was told
    Disabled,
    /// it was disabled before: nothing was done
    Already,
}

/// What a tidying did, at the lowest place of a killed client.
// No Option round the other cases: the four have names in the rules.
#[derive(Clone, Copy, PartialEq, Eq, Debug)]
pub enum TidyAnswer {
    /// the reason is told
    Reason(Disconnected),
    /// an object ended
    Ended(End),
    /// the client is gone
    Vacated(ClientId),
    /// no client is killed
    Nothing,
}
