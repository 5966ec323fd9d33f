//! The interfaces that every catalogue begins with: `<anonymous>`, `wl_display`, `wl_registry` and `wl_callback`.
//! They are frozen in the protocol, and the only ones that the engine knows by itself.

ghost use Rattle.std.specs.Prelude.{◌≡◌};
ghost use Rattle.std.specs.Option.{option_map};
ghost use Rattle.std.specs.List.{slice_get};
ghost use Rattle.protocol.specs.CoreRows.{core_rows};
ghost use Rattle.protocol.specs.Model.{meant};

use crate::argument::{AllowNull, ArgumentType};
use crate::interface::{Interface, MessageDesc};

/// How many rows the core has.
pub const CORE_ROWS: u32 = 4;

const PLAIN: MessageDesc<'static> = MessageDesc {
    name: b"",
    signature: &[],
    since: 1,
    is_destructor: false,
    child_interface: None,
    arg_interfaces: &[],
};

const ANONYMOUS_INTERFACE: Interface<'static> = Interface {
    name: b"<anonymous>",
    version: 0,
    requests: &[],
    events: &[],
};

const WL_DISPLAY_INTERFACE: Interface<'static> = Interface {
    name: b"wl_display",
    version: 1,
    requests: &[
        MessageDesc {
            name: b"sync",
            signature: &[ArgumentType::NewId],
            child_interface: Some(3),
            ..PLAIN
        },
        MessageDesc {
            name: b"get_registry",
            signature: &[ArgumentType::NewId],
            child_interface: Some(2),
            ..PLAIN
        },
    ],
    events: &[
        MessageDesc {
            name: b"error",
            signature: &[
                ArgumentType::Object(AllowNull::No),
                ArgumentType::Uint,
                ArgumentType::Str(AllowNull::No),
            ],
            arg_interfaces: &[0],
            ..PLAIN
        },
        MessageDesc {
            name: b"delete_id",
            signature: &[ArgumentType::Uint],
            ..PLAIN
        },
    ],
};

const WL_REGISTRY_INTERFACE: Interface<'static> = Interface {
    name: b"wl_registry",
    version: 1,
    requests: &[MessageDesc {
        name: b"bind",
        signature: &[
            ArgumentType::Uint,
            ArgumentType::Str(AllowNull::No),
            ArgumentType::Uint,
            ArgumentType::NewId,
        ],
        ..PLAIN
    }],
    events: &[
        MessageDesc {
            name: b"global",
            signature: &[
                ArgumentType::Uint,
                ArgumentType::Str(AllowNull::No),
                ArgumentType::Uint,
            ],
            ..PLAIN
        },
        MessageDesc {
            name: b"global_remove",
            signature: &[ArgumentType::Uint],
            ..PLAIN
        },
    ],
};

const WL_CALLBACK_INTERFACE: Interface<'static> = Interface {
    name: b"wl_callback",
    version: 1,
    requests: &[],
    events: &[MessageDesc {
        name: b"done",
        signature: &[ArgumentType::Uint],
        is_destructor: true,
        ..PLAIN
    }],
};

/// The core, by row number.
// A static: a constant that holds references is made anew at each use, which took longer than the look-up.
pub(crate) static CORE: [Interface<'static>; CORE_ROWS as usize] = [
    ANONYMOUS_INTERFACE,
    WL_DISPLAY_INTERFACE,
    WL_REGISTRY_INTERFACE,
    WL_CALLBACK_INTERFACE,
];

/// The core interface of a row number, or none past the core.
pub(crate) fn core_interface(row: u32) -> Option<Interface<'static>>
    ensures { option_map meant result ≡ slice_get core_rows row }
{
    CORE.get(row as usize).copied()
}
