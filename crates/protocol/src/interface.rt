//! Interfaces and their messages: as views of what someone else holds, and as values that own their parts.
//!
//! Two types of each, as `&str` and `String`: the core's constants need views, a catalogue that is filled needs owners.

ghost use Rattle.std.specs.Prelude.{◌≡◌};
ghost use Rattle.std.specs.Str.{bytes_eq};
ghost use Rattle.protocol.specs.Model.{said, said_buf};

use crate::argument::ArgumentType;

/// A request or an event.
#[derive(Clone, Copy, Debug, PartialEq, Eq)]
pub struct MessageDesc<'a> {
    pub name: &'a [u8],
    pub signature: &'a [ArgumentType],
    /// the lowest version of the interface that has the message
    pub since: u32,
    pub is_destructor: bool,
    /// the row of the object that the message makes
    pub child_interface: Option<u32>,
    /// the rows of its Object arguments, in order
    pub arg_interfaces: &'a [u32],
}

/// An interface whose messages lie in a slice.
#[derive(Clone, Copy, Debug, PartialEq, Eq)]
pub struct Interface<'a> {
    pub name: &'a [u8],
    pub version: u32,
    pub requests: &'a [MessageDesc<'a>],
    pub events: &'a [MessageDesc<'a>],
}

/// What a row says of its interface besides the messages.
#[derive(Clone, Copy, Debug, PartialEq, Eq)]
pub struct Heading<'a> {
    pub name: &'a [u8],
    pub version: u32,
}

/// A request or an event that owns its parts.
#[derive(Debug, Drop, PartialEq, Eq)]
pub struct MessageBuf {
    pub name: Vec<u8>,
    pub signature: Vec<ArgumentType>,
    pub since: u32,
    pub is_destructor: bool,
    pub child_interface: Option<u32>,
    pub arg_interfaces: Vec<u32>,
}

/// An interface that owns its parts.
#[derive(Debug, Drop, PartialEq, Eq)]
pub struct InterfaceBuf {
    pub name: Vec<u8>,
    pub version: u32,
    pub requests: Vec<MessageBuf>,
    pub events: Vec<MessageBuf>,
}

impl MessageBuf {
    /// The message as a view.
    pub fn desc<'s>(&'s self) -> MessageDesc<'s>
        ensures { said result ≡ said_buf self.now }
    {
        MessageDesc {
            name: self.name.as_slice(),
            signature: self.signature.as_slice(),
            since: self.since,
            is_destructor: self.is_destructor,
            child_interface: self.child_interface,
            arg_interfaces: self.arg_interfaces.as_slice(),
        }
    }
}

/// Whether two names are the same bytes.
// No more than `==`, but its callers then cite the rule for names by its name.
pub fn same_name(a: &[u8], b: &[u8]) -> bool
    ensures { result ≡ bytes_eq a.now b.now }
{
    a == b
}
