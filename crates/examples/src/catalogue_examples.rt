//! How a catalogue is made and filled, with every refusal on an example; kinds, signatures and the refusals' numbers.

use crate::core_examples::{Described, NONE, is_as_described};
use protocol::argument::{AllowNull, Argument, ArgumentType, check_for_signature};
use protocol::catalogue::{Catalogue, same_interface, same_interface_or_anonymous};
use protocol::filled::Filled;
use protocol::fills::CatalogueError;
use protocol::interface::{InterfaceBuf, MessageBuf};
use protocol::refusal::Refusal;
use std::alloc::{AllocError, Global};
use std::test::Fail;

#[test]
fn counts_of_rows(rt: HostRuntime) -> Result<(), Fail> {
    for rows in [0, 3, 65, 4_294_967_295] {
        match Filled::new(rt.alloc(), rows) {
            Err(CatalogueError::Refused(refusal)) => assert_eq!(rt; refusal.number(), 19),
            _ => return Err(Fail::new("made")),
        }
    }
    for rows in [4, 64] {
        let made = Filled::new(rt.alloc(), rows)?;
        assert!(rt; made.heading(rows).is_none());
    }
    Ok(())
}

// A row with `count` requests like the one described, and no events.
fn row(heap: Global, name: &[u8], count: u32, like: Described) -> Result<InterfaceBuf, AllocError> {
    Ok(InterfaceBuf {
        name: Vec::from_slice(heap, name)?,
        version: 2,
        requests: (0..count).map(|_| request(heap, like)).try_collect(heap)?,
        events: Vec::new(heap),
    })
}

fn request(heap: Global, like: Described) -> Result<MessageBuf, AllocError> {
    Ok(MessageBuf {
        name: Vec::from_slice(heap, like.name)?,
        signature: Vec::from_slice(heap, like.signature)?,
        since: 1,
        is_destructor: false,
        child_interface: like.child,
        arg_interfaces: Vec::from_slice(heap, like.rows)?,
    })
}

const CONFIRM: Described = Described {
    name: b"confirm",
    signature: &[ArgumentType::Object(AllowNull::Yes), ArgumentType::NewId],
    child: Some(5),
    rows: &[4],
    ..NONE
};

// A catalogue of 6 rows, of which 4 and 5 have the same name.
fn panels(heap: Global) -> Result<Filled, Fail> {
    let mut made = Filled::new(heap, 6)?;
    for (number, count) in [(4, 1), (5, 16)] {
        made.fill(number, row(heap, b"film_panel", count, CONFIRM)?)?;
    }
    Ok(made)
}

#[test]
fn a_row_is_filled(rt: HostRuntime) -> Result<(), Fail> {
    let made = panels(rt.alloc())?;
    let panel = made.heading(4).ok_or("row 4")?;
    assert!(rt; panel.name == b"film_panel".as_slice() && panel.version == 2);
    let confirm = made.request(4, 0).ok_or("request 0")?;
    assert!(rt; is_as_described(confirm, CONFIRM));
    assert!(rt; made.request(5, 15).is_some() && made.request(5, 16).is_none());
    Ok(())
}

// Rows with equal names are the same interface, row 0 admits all, and a row may be filled again.
#[test]
fn names_tell_interfaces(rt: HostRuntime) -> Result<(), Fail> {
    let mut made = panels(rt.alloc())?;
    assert!(rt; same_interface(&made, 4, 5) && !same_interface(&made, 4, 1));
    assert!(rt;
        same_interface_or_anonymous(&made, 0, 4) && !same_interface_or_anonymous(&made, 4, 0)
    );
    assert_eq!(rt;
        filled(&mut made, 5, row(rt.alloc(), b"film_lamp", 0, NONE)?),
        Ok(())
    );
    assert!(rt; !same_interface(&made, 4, 5));
    Ok(())
}

// Fills a row, or answers the number of the refusal.
fn filled(made: &mut Filled, number: u32, row: InterfaceBuf) -> Result<(), u8> {
    made.fill(number, row).map_err(|refusal| refusal.number())
}

#[test]
fn rows_that_cannot_be_filled(rt: HostRuntime) -> Result<(), Fail> {
    let mut made = panels(rt.alloc())?;
    for core in [0, 1, 2, 3] {
        assert_eq!(rt;
            filled(&mut made, core, row(rt.alloc(), b"film_lamp", 0, NONE)?),
            Err(19)
        );
    }
    assert_eq!(rt;
        filled(&mut made, 6, row(rt.alloc(), b"film_lamp", 0, NONE)?),
        Err(14)
    );
    Ok(())
}

#[test]
fn names_that_break_a_law(rt: HostRuntime) -> Result<(), Fail> {
    let mut made = panels(rt.alloc())?;
    for name in BAD_NAMES {
        assert_eq!(rt;
            filled(&mut made, 4, row(rt.alloc(), name, 0, NONE)?),
            Err(19)
        );
    }
    // nothing changed, and the longest name is taken
    assert!(rt; same_interface(&made, 4, 5));
    assert_eq!(rt;
        filled(&mut made, 4, row(rt.alloc(), LONGEST, 0, NONE)?),
        Ok(())
    );
    Ok(())
}

#[test]
fn messages_that_break_a_law(rt: HostRuntime) -> Result<(), Fail> {
    let mut made = panels(rt.alloc())?;
    for broken in BROKEN {
        assert_eq!(rt;
            filled(&mut made, 4, row(rt.alloc(), b"film_lamp", 1, broken)?),
            Err(19)
        );
    }
    assert_eq!(rt;
        filled(&mut made, 4, row(rt.alloc(), b"film_lamp", 17, CONFIRM)?),
        Err(19)
    );
    assert_eq!(rt;
        filled(&mut made, 4, row(rt.alloc(), b"film_lamp", 1, WIDEST)?),
        Ok(())
    );
    Ok(())
}

/// Empty, the four of the core, one with a zero, and one of 33 bytes.
const BAD_NAMES: [&[u8]; 7] = [
    b"",
    b"wl_display",
    b"wl_registry",
    b"wl_callback",
    b"<anonymous>",
    b"film\0panel",
    b"123456789012345678901234567890123",
];

const LONGEST: &[u8] = b"12345678901234567890123456789012";

/// A message with as many arguments as one may have.
const WIDEST: Described = Described {
    name: b"c",
    signature: &[ArgumentType::Int; 8],
    ..NONE
};

/// Messages, each of which breaks one law.
const BROKEN: [Described; 8] = [
    Described {
        name: b"",
        ..CONFIRM
    },
    Described {
        signature: &[ArgumentType::Int; 9],
        rows: &[],
        ..CONFIRM
    },
    Described {
        rows: &[],
        ..CONFIRM
    },
    Described {
        rows: &[4, 4],
        ..CONFIRM
    },
    Described {
        signature: &[ArgumentType::NewId, ArgumentType::NewId],
        rows: &[],
        ..CONFIRM
    },
    Described {
        child: None,
        ..CONFIRM
    },
    Described {
        child: Some(6),
        ..CONFIRM
    },
    Described {
        rows: &[6],
        ..CONFIRM
    },
];

#[test]
fn kinds_and_signatures(rt: HostRuntime) {
    let strict = ArgumentType::Str(AllowNull::No);
    assert!(rt; strict.same_type(ArgumentType::Str(AllowNull::Yes)));
    assert!(rt; !ArgumentType::Int.same_type(ArgumentType::Uint));
    let signature = [ArgumentType::Uint, strict];
    let null: [Argument<u32, u32>; 2] = [Argument::Uint(7), Argument::Str(None)];
    assert!(rt; check_for_signature(&signature, &null));
    assert!(rt; !check_for_signature(&signature, &null[0..1]));
    let other: [Argument<u32, u32>; 2] = [Argument::Uint(7), Argument::Array(1)];
    assert!(rt; !check_for_signature(&signature, &other));
}

#[test]
fn refusals_by_number(rt: HostRuntime) {
    for (refusal, number) in [
        (Refusal::BadSize, 1),
        (Refusal::NoRow, 14),
        (Refusal::NoVacancy, 16),
        (Refusal::BreaksLaw, 19),
    ] {
        assert_eq!(rt; refusal.number(), number);
    }
}
