//! How a catalogue is made and filled.

ghost use Rattle.std.specs.Prelude.{◌≡◌, ◌-◌, ◌&&◌, map, replicate, IfOk, Some, nat_le};
ghost use Rattle.std.specs.Option.{option_map};
ghost use Rattle.std.specs.List.{slice_get};
ghost use Rattle.protocol.specs.CoreRows.{blank as blank_row};
ghost use Rattle.protocol.specs.Filling.{filled_rows, Made, fill_answer, fill_after, catalogue_text_of, FillLaws};
ghost use Rattle.protocol.specs.Model.{meant_buf};
ghost use Rattle.protocol.specs.RowTests.{may_stand};
ghost use Rattle.protocol.specs.declared.fills.CatalogueError.TheVariants.{Refused as RefusedBy, NoMemory};

use crate::core_interfaces::CORE_ROWS;
use crate::filled::Filled;
use crate::interface::InterfaceBuf;
use crate::laws::may_stand;
use crate::refusal::Refusal;
use std::alloc::{AllocError, Global};
use std::error::Error;
use std::fmt;

/// The most rows of a catalogue.
pub const MOST_ROWS: u32 = 64;

/// Why a catalogue was not made.
#[derive(Clone, Copy, Debug, PartialEq, Eq)]
pub enum CatalogueError {
    /// it was refused, and nothing was made
    Refused(Refusal),
    /// there was no memory for its rows
    NoMemory,
}

// By hand, both: `Made` names the error that `?` makes, and a derived `From` has no clause.
impl From<Refusal> for CatalogueError {
    ghost from_gives = { λ e r. r ≡ RefusedBy e };

    fn from(refusal: Refusal) -> CatalogueError {
        CatalogueError::Refused(refusal)
    }
}

impl From<AllocError> for CatalogueError {
    ghost from_gives = { λ _ r. r ≡ NoMemory };

    fn from(_: AllocError) -> CatalogueError {
        CatalogueError::NoMemory
    }
}

// By hand, as `Refusal`: the text is proved.
impl fmt::Display for CatalogueError {
    ghost output = { λ e. Some (catalogue_text_of e) };

    fn fmt<W: fmt::Write>(&self, f: &mut fmt::Formatter<W>) -> fmt::Result {
        match self {
            CatalogueError::Refused(refusal) => refusal.fmt(f),
            CatalogueError::NoMemory => f.write_str("out of memory"),
        }
    }
}

impl Error for CatalogueError {}

// A row that was not filled yet.
fn blank(heap: Global) -> Result<InterfaceBuf, AllocError>
    ensures { IfOk result (λ row. meant_buf row ≡ blank_row) }
{
    Ok(InterfaceBuf {
        name: Vec::from_slice(heap, b"<unset>")?,
        version: 0,
        requests: Vec::new(heap),
        events: Vec::new(heap),
    })
}

fn blanks(heap: Global, count: u32) -> Result<Vec<InterfaceBuf>, AllocError>
    ensures { IfOk result (λ v. map meant_buf v.items ≡ replicate count blank_row) }
{
    // a loop: what is collected from a closure that can fail is not known to the check
    let mut rows = Vec::new(heap);
    for _ in 0..count {
        rows.push(blank(heap)?)?;
    }
    Ok(rows)
}

// Rows 0 to 3 are never filled.
fn may_fill(number: u32, row: &InterfaceBuf, rows: u32) -> bool
    ensures { result ≡ (nat_le 4 number && may_stand rows (meant_buf row.now)) }
{
    number >= CORE_ROWS && may_stand(row, rows)
}

impl Filled {
    /// A catalogue of `rows` rows, 4 to 64: the core, and blank rows after it.
    pub fn new(heap: Global, rows: u32) -> Result<Filled, CatalogueError>
        ensures { Made rows result }
    {
        if rows < CORE_ROWS || rows > MOST_ROWS {
            return Err(CatalogueError::Refused(Refusal::BreaksLaw));
        }
        let later = blanks(heap, rows - CORE_ROWS)?;
        Ok(Filled { later })
    }

    /// Puts an interface in the place of the row of that number, which it may do as often as it likes before a session
    /// begins. A refusal changes nothing.
    pub fn fill(&mut self, number: u32, row: InterfaceBuf) -> Result<(), Refusal>
        ensures answer { result ≡ fill_answer (filled_rows self.old) number (meant_buf row) }
        ensures after { filled_rows self.new ≡ fill_after result (filled_rows self.old) number (meant_buf row) }
    {
        let rows = self.later.len() as u32 + CORE_ROWS;
        if number >= rows {
            return Err(Refusal::NoRow);
        }
        if !may_fill(number, &row, rows) {
            return Err(Refusal::BreaksLaw);
        }
        // by index: what a field's rows hold after a get_mut is not known to the check
        self.later[(number - CORE_ROWS) as usize] = row;
        Ok(())
    }

    /// The row of a number past the core.
    pub(crate) fn later_row(&self, number: u32) -> Option<&InterfaceBuf>
        ensures { option_map (λ x. meant_buf x.now) result ≡ slice_get (map meant_buf self.now.later.items) (number - 4) }
    {
        self.later.get(number.saturating_sub(CORE_ROWS) as usize)
    }
}

/// A filling is refused exactly where it would break a law: the laws stand.
pub fn fill_laws()
    ensures { FillLaws }
{}
