//! A row of queues in one slice, each in a part of its own.

ghost use Rattle.std.specs.Prelude.{◌≡◌, ℕ, ◌/◌, [], length as size, if◌then◌else◌, Ok, Err, nat_lt};
ghost use Rattle.queue.specs.Ring.{front, others, within_room, at_place};
ghost use Rattle.queue.specs.Rows.{items_at, room_at, given_room, seat, share};
ghost use Rattle.queue.specs.Spans.{Found};
ghost use Rattle.std.specs.Option.{option_map};
ghost use Rattle.std.specs.List.{slice_get};

use super::{Mark, Queues, Span};

impl<'a, T: Copy> Queues<'a, T> {
    /// Empty queues, one for each mark, with the cells divided evenly among them.
    ///
    /// Whatever the marks held before is gone: memory that served once may be lent
    /// again as it is. Cells that are left over by the division are not used.
    pub fn new(cells: &'a mut [T], marks: &'a mut [Mark]) -> Queues<'a, T>
        ensures items { (p : ℕ) → items_at result p ≡ [] }
        ensures rooms { (p : ℕ) → room_at result p ≡ given_room cells.old marks.old p }
        ensures lenders { (result.cells.ghost_name ≡ cells.entry.ghost_name) × (result.marks.ghost_name ≡ marks.entry.ghost_name) }
    {
        // what a lent mark held could name cells that were never filled
        marks.fill(Mark::new());
        Queues { cells, marks }
    }

    // The part of the cells that is the place's, where there is such a place and
    // its mark fits. Every method starts here, so none has to trust a mark.
    fn span(&self, place: usize) -> Option<Span>
        ensures value { option_map (λ s. s.mark) result ≡ seat (share self.now.cells.now self.now.marks.now) self.now.marks.now place }
        ensures found { Found (share self.now.cells.now self.now.marks.now) (size self.now.cells.now) (size self.now.marks.now) place result }
    {
        let mark = *self.marks.get(place)?;
        let width = self.cells.len() / self.marks.len();
        if !mark.fits(width) {
            return None;
        }
        let low = place * width;
        Some(Span {
            low,
            high: low + width,
            mark,
        })
    }

    /// How many items the place can hold: none where there is no such place.
    pub fn room(&self, place: usize) -> usize
        ensures { result ≡ room_at self.now place }
    {
        self.span(place).map_or(0, |span| span.high - span.low)
    }

    /// How many items wait at the place: none where there is no such place.
    pub fn len(&self, place: usize) -> usize
        ensures { result ≡ size (items_at self.now place) }
    {
        self.span(place).map_or(0, |span| span.mark.count)
    }

    /// The item that has waited longest at the place, which stays there.
    pub fn first(&self, place: usize) -> Option<T>
        ensures { result ≡ front (items_at self.now place) }
    {
        self.get(place, 0)
    }

    /// The item at the place that has `index` items before it, so that what waits
    /// can be looked through without taking it out.
    pub fn get(&self, place: usize, index: usize) -> Option<T>
        ensures { result ≡ slice_get (items_at self.now place) index }
    {
        let Span { low, high, mark } = self.span(place)?;
        mark.item(&self.cells[low..high], index).copied()
    }

    // Each change says that the rooms stay: a ghost field speaks of one state, and not of what a call keeps.

    /// The item goes last at the place. It comes back where the place is full or
    /// there is no such place, and then nothing has changed. No other place changes.
    pub fn push_back(&mut self, place: usize, item: T) -> Result<(), T>
        ensures result { result ≡ (if nat_lt (size (items_at self.old place)) (room_at self.old place) then Ok tt else Err item) }
        ensures items { (p : ℕ) → items_at self.new p ≡ at_place place (within_room (room_at self.old place) item) (items_at self.old) p }
        ensures rooms { (p : ℕ) → room_at self.new p ≡ room_at self.old p }
    {
        let Some(
            Span {
                low,
                high,
                mut mark,
            },
        ) = self.span(place)
        else {
            return Err(item);
        };
        let result = mark.push(&mut self.cells[low..high], item);
        self.marks[place] = mark;
        result
    }

    /// The item that has waited longest at the place, which leaves it. No other
    /// place changes.
    pub fn pop_front(&mut self, place: usize) -> Option<T>
        ensures result { result ≡ front (items_at self.old place) }
        ensures items { (p : ℕ) → items_at self.new p ≡ at_place place others (items_at self.old) p }
        ensures rooms { (p : ℕ) → room_at self.new p ≡ room_at self.old p }
    {
        let Span {
            low,
            high,
            mut mark,
        } = self.span(place)?;
        let result = mark.pop(&mut self.cells[low..high]);
        self.marks[place] = mark;
        result
    }

    /// Drops every item that waits at the place, as when its client is gone. No
    /// other place changes.
    pub fn clear(&mut self, place: usize)
        ensures items { (p : ℕ) → items_at self.new p ≡ at_place place (λ _. []) (items_at self.old) p }
        ensures rooms { (p : ℕ) → room_at self.new p ≡ room_at self.old p }
    {
        if self.span(place).is_some() {
            self.marks[place] = Mark::new();
        }
    }
}
