//! Catalogues: what they answer, and the laws that code above may lean on.

ghost use Rattle.std.specs.Prelude.{◌≡◌, true, List, [], map, vec_len, refl};
ghost use Rattle.std.proofs.Common.{sym, subst};
ghost use Rattle.std.specs.Option.{option_map};
ghost use Rattle.protocol.specs.CoreRows.{core_rows};
ghost use Rattle.protocol.specs.Filling.{filled_rows};
ghost use Rattle.protocol.specs.Lawful.{Lawful};
ghost use Rattle.protocol.specs.Meaning.{heading_in, request_in, event_in, same_interface, admits_in};
ghost use Rattle.protocol.specs.Model.{RowModel, said, titled, meant_buf};
ghost use Rattle.protocol.specs.CoreLaws.{joined_lawful};
ghost use Rattle.protocol.specs.Tallies.{all};
ghost use Rattle.protocol.specs.RowTests.{may_stand};
ghost use Rattle.protocol.specs.Fillings.{rows_length};

use crate::core_interfaces::{CORE_ROWS, core_interface};
use crate::filled::Filled;
use crate::interface::{Heading, MessageBuf, MessageDesc, same_name};

/// The row number of `<anonymous>`, which admits every interface where an argument row is asked for.
pub const ANONYMOUS_ROW: u32 = 0;

/// A list of rows that keeps the laws. Every answer comes from that list, and is none exactly past an end.
pub trait Catalogue {
    ghost rows: { Self → List RowModel };

    // Two methods, and no direction passed as a value: that would be one more type and a match in each implementation.

    /// The name and version of a row.
    fn heading<'s>(&'s self, row: u32) -> Option<Heading<'s>>
        ensures { option_map titled result ≡ heading_in (rows self.now) row };

    /// The request of an opcode in a row.
    fn request<'s>(&'s self, row: u32, opcode: u16) -> Option<MessageDesc<'s>>
        ensures { option_map said result ≡ request_in (rows self.now) row opcode };

    /// The event of an opcode in a row.
    fn event<'s>(&'s self, row: u32, opcode: u16) -> Option<MessageDesc<'s>>
        ensures { option_map said result ≡ event_in (rows self.now) row opcode };

    ghost lawful: { (x : Self) → Lawful (rows x) };
}

/// `<anonymous>`, `wl_display`, `wl_registry` and `wl_callback`, and nothing else.
#[derive(Clone, Copy)]
pub struct Core {}

impl Catalogue for Core {
    ghost rows = { λ _. core_rows };

    ghost lawful = { λ x. joined_lawful [] refl };

    fn heading<'s>(&'s self, row: u32) -> Option<Heading<'s>> {
        let interface = core_interface(row)?;
        Some(Heading {
            name: interface.name,
            version: interface.version,
        })
    }

    fn request<'s>(&'s self, row: u32, opcode: u16) -> Option<MessageDesc<'s>> {
        let request = core_interface(row)?.requests.get(usize::from(opcode));
        request.copied()
    }

    fn event<'s>(&'s self, row: u32, opcode: u16) -> Option<MessageDesc<'s>> {
        let event = core_interface(row)?.events.get(usize::from(opcode));
        event.copied()
    }
}

impl Catalogue for Filled {
    ghost rows = { filled_rows };

    ghost lawful = { λ x.
        joined_lawful (map meant_buf x.later.items)
        (subst (λ n. all (may_stand n) (map meant_buf x.later.items) ≡ true) (sym (rows_length x.later.items (vec_len x.later) x.later.ok.0)) x.sound) };

    fn heading<'s>(&'s self, row: u32) -> Option<Heading<'s>> {
        if row < CORE_ROWS {
            return Core {}.heading(row);
        }
        let interface = self.later_row(row)?;
        Some(Heading {
            name: interface.name.as_slice(),
            version: interface.version,
        })
    }

    fn request<'s>(&'s self, row: u32, opcode: u16) -> Option<MessageDesc<'s>> {
        if row < CORE_ROWS {
            return Core {}.request(row, opcode);
        }
        let request = self.later_row(row)?.requests.get(usize::from(opcode));
        request.map(MessageBuf::desc)
    }

    fn event<'s>(&'s self, row: u32, opcode: u16) -> Option<MessageDesc<'s>> {
        if row < CORE_ROWS {
            return Core {}.event(row, opcode);
        }
        let event = self.later_row(row)?.events.get(usize::from(opcode));
        event.map(MessageBuf::desc)
    }
}

/// Whether two rows are the same interface, which they are where their names are the same bytes.
pub fn same_interface<C: Catalogue>(catalogue: &C, a: u32, b: u32) -> bool
    ensures { result ≡ same_interface (C.Catalogue.rows catalogue.now) a b }
{
    match (catalogue.heading(a), catalogue.heading(b)) {
        (Some(a), Some(b)) => same_name(a.name, b.name),
        _ => false,
    }
}

/// Whether an argument row admits an object of the given row.
pub fn same_interface_or_anonymous<C: Catalogue>(catalogue: &C, wanted: u32, given: u32) -> bool
    ensures { result ≡ admits_in (C.Catalogue.rows catalogue.now) wanted given }
{
    wanted == ANONYMOUS_ROW || same_interface(catalogue, wanted, given)
}

/// Every catalogue keeps the laws.
pub fn catalogue_laws<C: Catalogue>(catalogue: &C)
    ensures { Lawful (C.Catalogue.rows catalogue.now) }
{}
