//! A table with its own places.

ghost use Rattle.std.specs.Prelude.{◌≡◌, ◌<◌, IfSome};
ghost use Rattle.std.specs.Option.{option_map};
ghost use Rattle.places.specs.Places.{at, entry_at, first_vacant, occupied_from};
ghost use Rattle.places.specs.Tables.{empty_table, entered_at, entered_new, replaced};

use super::{PlaceFault, enter_at, enter_new, first_occupied, holds, put};

/// A table of `N` places. The capacity is fixed, since *full* is an answer of the rules, and `len` is not how many
/// records there are, but how many places were ever used.
#[derive(Drop)]
pub struct Table<T, const N: usize> {
    pub places: [Option<T>; N],
    pub len: usize,
}

impl<T: Drop, const N: usize> Table<T, N> {
    /// A table where no place was ever used.
    pub fn new() -> Self
        ensures { result ≡ empty_table N }
    {
        Table {
            places: [const { None }; N],
            len: 0,
        }
    }

    /// What a place holds; past the capacity nothing.
    pub fn get(&self, index: usize) -> Option<&T>
        ensures { option_map (λ r. r.now) result ≡ at self.now.places index }
    {
        self.places.get(index)?.as_ref()
    }

    /// Fills anew or vacates an occupied place; any other stays as it is.
    pub fn replace(&mut self, index: usize, place: Option<T>)
        ensures { self.new ≡ replaced self.old index place }
    {
        if holds(&self.places, index) {
            put(&mut self.places, index, place);
        }
    }

    /// Enters a record at a named place, or leaves the table as it was.
    pub fn enter_at(&mut self, index: usize, item: T) -> Result<(), PlaceFault>
        ensures answer { result ≡ entry_at self.old.places self.old.len index }
        ensures after { self.new ≡ entered_at self.old index item }
    {
        enter_at(&mut self.places, &mut self.len, index, item)
    }

    /// Enters a record at the lowest vacant place, and answers where; or leaves a full table as it was.
    pub fn enter_new(&mut self, item: T) -> Option<usize>
        ensures answer { result ≡ first_vacant self.old.places self.old.len }
        ensures after { self.new ≡ entered_new self.old item }
        ensures within { IfSome result (λ i. i < N) }
    {
        enter_new(&mut self.places, &mut self.len, item)
    }

    /// The lowest occupied place at or above `from`.
    pub fn next(&self, from: usize) -> Option<usize>
        ensures answer { result ≡ occupied_from self.now.places from }
        ensures within { IfSome result (λ i. i < N) }
    {
        first_occupied(&self.places, from)
    }
}
