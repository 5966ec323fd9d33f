//! Why a call of the map did not do what it was asked.

ghost use Rattle.std.specs.Prelude.{◌≡◌, Some};
ghost use Rattle.map.specs.Map.{fault_of};
ghost use Rattle.map.specs.Texts.{text_of, invalid_text};

use places::PlaceFault;
use std::error::Error;
use std::fmt;

/// Why an object was not entered at an id.
#[derive(Clone, Copy, PartialEq, Eq, Debug)]
pub enum MapFault {
    /// the id is null
    Zero,
    /// the id is above the one after the highest ever used
    Beyond,
    /// the id names an object
    Taken,
    /// the half of the id has no more places
    Full,
}

/// The error of a name that names no object.
#[derive(Clone, Copy, PartialEq, Eq, Debug)]
pub struct InvalidId;

// By hand: the contract of an entry names the fault that `?` makes, and a derived `From` has no clause.
impl From<PlaceFault> for MapFault {
    ghost from_gives = { λ e r. r ≡ fault_of e };

    fn from(e: PlaceFault) -> MapFault {
        match e {
            PlaceFault::Beyond => MapFault::Beyond,
            PlaceFault::Taken => MapFault::Taken,
            PlaceFault::Full => MapFault::Full,
        }
    }
}

// By hand, both: a derived text has no clause, and these are proved.
impl fmt::Display for MapFault {
    ghost output = { λ e. Some (text_of e) };

    fn fmt<W: fmt::Write>(&self, f: &mut fmt::Formatter<W>) -> fmt::Result {
        f.write_str(match self {
            MapFault::Zero => "zero",
            MapFault::Beyond => "beyond",
            MapFault::Taken => "taken",
            MapFault::Full => "full",
        })
    }
}

impl Error for MapFault {}

impl fmt::Display for InvalidId {
    ghost output = { λ _. Some invalid_text };

    fn fmt<W: fmt::Write>(&self, f: &mut fmt::Formatter<W>) -> fmt::Result {
        f.write_str("invalid id")
    }
}

impl Error for InvalidId {}
