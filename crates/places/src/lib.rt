//! Tables of places: where a new record goes, and whether a record may be entered at a named place. Written once
//! for every kind of record, over lent places; [`Table`] is a table of its own places.

#![tactic(auto)]

ghost use Rattle.std.specs.Prelude.{not, position, ◌≡◌, ◌<◌, ◌≤◌, T as Holds, length, is_some, IfSome, Some, None, slice_set};
ghost use Rattle.places.specs.Places.{at, first_vacant, entry_at, grown, places_after, length_after, places_new, length_new, occupied_from};
ghost use Rattle.places.specs.Laws.{TableLaws};

mod table;

pub use table::Table;

/// Why a record was not entered at a named place.
#[derive(Clone, Copy, PartialEq, Eq, Debug)]
pub enum PlaceFault {
    /// the index is above the length
    Beyond,
    /// the place is occupied
    Taken,
    /// the index is the capacity
    Full,
}

// The places are lent, as the rules ask of a table of any kind, and so their length comes beside them; `Table` holds both.
// That an answer is a place of the table (`within`) is said of each answer, since no field holds it.

/// What a place holds; past the capacity nothing.
pub fn look_at<T: Copy>(places: &[Option<T>], index: usize) -> Option<T>
    ensures { result ≡ at places.now index }
{
    places.get(index).copied().flatten()
}

/// Fills or vacates a place; past the capacity nothing.
// Written by index: what is left behind a `get_mut` in generic code is not known to the proof.
pub fn put<T: Drop>(places: &mut [Option<T>], index: usize, place: Option<T>)
    ensures { places.new ≡ slice_set places.old index place }
{
    if index < places.len() {
        places[index] = place;
    }
}

/// Takes out what a place holds; past the capacity nothing.
// By index, as `put`.
pub fn take<T: Drop>(places: &mut [Option<T>], index: usize) -> Option<T>
    ensures answer { result ≡ at places.old index }
    ensures after { places.new ≡ slice_set places.old index None }
{
    if index < places.len() {
        places[index].take()
    } else {
        None
    }
}

// The first of these places that is vacant. This and the next function differ in the test alone: each is one call of the library's search.
fn vacant_among<T>(places: &[Option<T>]) -> Option<usize>
    ensures answer { result ≡ position (λ place. not (is_some place)) places.now }
    ensures within { IfSome result (λ i. i < length places.now) }
{
    places.iter().position(|place| place.is_none())
}

// The first of these places that is occupied.
fn occupied_among<T>(places: &[Option<T>]) -> Option<usize>
    ensures answer { result ≡ position (λ place. is_some place) places.now }
    ensures within { IfSome result (λ i. i < length places.now) }
{
    places.iter().position(|place| place.is_some())
}

/// The place of a new record, or none where the table is full.
pub fn first_vacant<T>(places: &[Option<T>], len: usize) -> Option<usize>
    ensures answer { result ≡ first_vacant places.now len }
    ensures within { IfSome result (λ i. (i < length places.now) × (i ≤ len)) }
{
    vacant_among(&places[..len.min(places.len())]).or_else(|| (len < places.len()).then_some(len))
}

/// Whether a record may be entered at a named place.
pub fn entry_at<T>(places: &[Option<T>], len: usize, index: usize) -> Result<(), PlaceFault>
    ensures { result ≡ entry_at places.now len index }
{
    if index > len {
        return Err(PlaceFault::Beyond);
    }
    match places.get(index) {
        None => Err(PlaceFault::Full),
        Some(Some(_)) => Err(PlaceFault::Taken),
        Some(None) => Ok(()),
    }
}

// Enters a record at a place of the table.
fn occupy<T: Drop>(places: &mut [Option<T>], len: &mut usize, index: usize, item: T)
    requires { index < length places.old }
    ensures places_after { places.new ≡ slice_set places.old index (Some item) }
    ensures length_after { len.new ≡ grown len.old index }
{
    places[index] = Some(item);
    *len = (*len).max(index + 1);
}

/// Enters a record at a named place, or leaves the table as it was.
pub fn enter_at<T: Drop>(
    places: &mut [Option<T>],
    len: &mut usize,
    index: usize,
    item: T,
) -> Result<(), PlaceFault>
    ensures answer { result ≡ entry_at places.old len.old index }
    ensures places_after { places.new ≡ places_after result places.old index item }
    ensures length_after { len.new ≡ length_after result len.old index }
{
    entry_at(places, *len, index)?;
    occupy(places, len, index, item);
    Ok(())
}

/// Enters a record at the lowest vacant place, and answers where; or leaves a full table as it was.
pub fn enter_new<T: Drop>(places: &mut [Option<T>], len: &mut usize, item: T) -> Option<usize>
    ensures answer { result ≡ first_vacant places.old len.old }
    ensures places_after { places.new ≡ places_new result places.old item }
    ensures length_after { len.new ≡ length_new result len.old }
    ensures within { IfSome result (λ i. i < length places.old) }
{
    let vacant = first_vacant(places, *len)?;
    occupy(places, len, vacant, item);
    Some(vacant)
}

/// The lowest occupied place at or above `from`.
pub fn first_occupied<T>(places: &[Option<T>], from: usize) -> Option<usize>
    ensures answer { result ≡ occupied_from places.now from }
    ensures within { IfSome result (λ i. i < length places.now) }
{
    let passed = occupied_among(places.get(from..)?)?;
    Some(from + passed)
}

/// Whether the table has the place, and it is occupied.
pub fn holds<T>(places: &[Option<T>], index: usize) -> bool
    ensures answer { result ≡ is_some (at places.now index) }
    ensures within { Holds result → index < length places.now }
{
    places.get(index).is_some_and(|place| place.is_some())
}

/// Every entry leaves its record where it says and nothing else changed, the length never falls, and the two searches
/// answer the lowest place: the laws of a table, for records of the kind `T`.
pub fn table_laws<T>()
    ensures { TableLaws T }
{}
