//! The core against wayland.xml.

use protocol::argument::{AllowNull, ArgumentType};
use protocol::catalogue::{Catalogue, Core};
use protocol::interface::{Heading, MessageDesc};

/// Whether a message is a request or an event.
#[derive(Clone, Copy)]
pub(crate) enum Direction {
    Request,
    Event,
}

/// A message as wayland.xml describes it.
#[derive(Clone, Copy)]
pub(crate) struct Described {
    pub row: u32,
    pub opcode: u16,
    pub direction: Direction,
    pub name: &'static [u8],
    pub destructor: bool,
    pub signature: &'static [ArgumentType],
    pub child: Option<u32>,
    pub rows: &'static [u32],
}

pub(crate) const NONE: Described = Described {
    row: 0,
    opcode: 0,
    direction: Direction::Request,
    name: b"",
    destructor: false,
    signature: &[],
    child: None,
    rows: &[],
};

/// Every message of wl_display, wl_registry and wl_callback in /usr/share/wayland/wayland.xml of Debian's
/// libwayland-dev 1.21.0-1; none has a `since`, so it is 1. An `object` with no interface has row 0. The new_id of
/// bind has no interface, so it goes over the wire as a string, a uint and a new_id.
const WAYLAND_XML: [Described; 8] = [
    Described {
        row: 1,
        name: b"sync",
        signature: &[ArgumentType::NewId],
        child: Some(3),
        ..NONE
    },
    Described {
        row: 1,
        opcode: 1,
        name: b"get_registry",
        signature: &[ArgumentType::NewId],
        child: Some(2),
        ..NONE
    },
    Described {
        row: 1,
        direction: Direction::Event,
        name: b"error",
        signature: &[
            ArgumentType::Object(AllowNull::No),
            ArgumentType::Uint,
            ArgumentType::Str(AllowNull::No),
        ],
        rows: &[0],
        ..NONE
    },
    Described {
        row: 1,
        opcode: 1,
        direction: Direction::Event,
        name: b"delete_id",
        signature: &[ArgumentType::Uint],
        ..NONE
    },
    Described {
        row: 2,
        name: b"bind",
        signature: &[
            ArgumentType::Uint,
            ArgumentType::Str(AllowNull::No),
            ArgumentType::Uint,
            ArgumentType::NewId,
        ],
        ..NONE
    },
    Described {
        row: 2,
        direction: Direction::Event,
        name: b"global",
        signature: &[
            ArgumentType::Uint,
            ArgumentType::Str(AllowNull::No),
            ArgumentType::Uint,
        ],
        ..NONE
    },
    Described {
        row: 2,
        opcode: 1,
        direction: Direction::Event,
        name: b"global_remove",
        signature: &[ArgumentType::Uint],
        ..NONE
    },
    Described {
        row: 3,
        direction: Direction::Event,
        name: b"done",
        destructor: true,
        signature: &[ArgumentType::Uint],
        ..NONE
    },
];

pub(crate) fn is_as_described(message: MessageDesc<'_>, described: Described) -> bool {
    message
        == MessageDesc {
            name: described.name,
            signature: described.signature,
            since: 1,
            is_destructor: described.destructor,
            child_interface: described.child,
            arg_interfaces: described.rows,
        }
}

fn core_has(described: Described) -> bool {
    let core = Core {};
    let message = match described.direction {
        Direction::Request => core.request(described.row, described.opcode),
        Direction::Event => core.event(described.row, described.opcode),
    };
    message.is_some_and(|message| is_as_described(message, described))
}

#[test]
fn core_is_that_of_wayland_xml(rt: HostRuntime) {
    for message in WAYLAND_XML {
        assert!(rt; core_has(message));
    }
}

// How many requests and events each row has: as many as the file has, and no more.
#[test]
fn core_has_no_other_message(rt: HostRuntime) {
    let core = Core {};
    for (row, requests, events) in [(0, 0, 0), (1, 2, 2), (2, 1, 2), (3, 0, 1), (4, 0, 0)] {
        assert!(rt; core.request(row, requests).is_none() && core.event(row, events).is_none());
    }
    assert!(rt; core.heading(4).is_none());
}

fn is_headed(row: u32, name: &[u8], version: u32) -> bool {
    (Core {}).heading(row).is_some_and(|heading| heading.name == name && heading.version == version)
}

#[test]
fn core_headings(rt: HostRuntime) {
    assert!(rt; is_headed(0, b"<anonymous>", 0));
    assert!(rt; is_headed(1, b"wl_display", 1));
    assert!(rt; is_headed(2, b"wl_registry", 1));
    assert!(rt; is_headed(3, b"wl_callback", 1));
}
