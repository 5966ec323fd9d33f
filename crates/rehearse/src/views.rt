//! What a catalogue says, as text.

use crate::command::View;
use crate::texts::{Kind, Name, said};
use protocol::catalogue::{Catalogue, same_interface, same_interface_or_anonymous};
use protocol::interface::{Heading, MessageDesc};
use std::alloc::{AllocError, Global};
use std::fmt;

/// The answer to what a catalogue is asked.
pub fn view<C: Catalogue>(heap: Global, catalogue: &C, view: View) -> Result<String, AllocError> {
    match view {
        View::Row(row) => said(
            heap,
            catalogue
                .heading(row)
                .map(|heading| Titled { row, heading })
                .ok_or("none"),
        ),
        View::Request(row, opcode) => said(
            heap,
            catalogue.request(row, opcode).map(Described).ok_or("none"),
        ),
        View::Event(row, opcode) => said(
            heap,
            catalogue.event(row, opcode).map(Described).ok_or("none"),
        ),
        View::Same(a, b) => yes_or_no(heap, same_interface(catalogue, a, b)),
        View::Admits(wanted, given) => yes_or_no(
            heap,
            same_interface_or_anonymous(catalogue, wanted, given),
        ),
    }
}

fn yes_or_no(heap: Global, yes: bool) -> Result<String, AllocError> {
    String::from_str(heap, if yes { "yes" } else { "no" })
}

// A row's number, name and version.
#[derive(Clone, Copy)]
struct Titled<'a> {
    row: u32,
    heading: Heading<'a>,
}

impl<'a> fmt::Display for Titled<'a> {
    fn fmt<W: fmt::Write>(&self, f: &mut fmt::Formatter<W>) -> fmt::Result {
        let row = self.row;
        let Heading { name, version } = self.heading;
        write!(f, "row {row} {} version {version}", Name(name))
    }
}

// A message, with its child row, the kinds of its arguments and the rows of the objects among them.
#[derive(Clone, Copy)]
struct Described<'a>(MessageDesc<'a>);

impl<'a> fmt::Display for Described<'a> {
    fn fmt<W: fmt::Write>(&self, f: &mut fmt::Formatter<W>) -> fmt::Result {
        let Described(message) = self;
        write!(f, "{} since {}", Name(message.name), message.since)?;
        if message.is_destructor {
            f.write_str(" destructor")?;
        }
        if let Some(child) = message.child_interface {
            write!(f, " child {child}")?;
        }
        for kind in message.signature {
            write!(f, " {}", Kind(*kind))?;
        }
        for row in message.arg_interfaces {
            write!(f, " :{row}")?;
        }
        Ok(())
    }
}
