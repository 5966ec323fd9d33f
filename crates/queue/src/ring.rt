//! The ring that a mark makes of the cells that it is for.

ghost use Rattle.std.specs.Prelude.{◌≡◌, ◌<◌, length, if◌then◌else◌, Ok, Err, nat_lt};
ghost use Rattle.queue.specs.Marks.{Sound, sound, marked, fresh};
ghost use Rattle.queue.specs.Ring.{front, others, within_room, stepped};
ghost use Rattle.std.specs.Option.{option_map};
ghost use Rattle.std.specs.List.{slice_get};

use super::Mark;

// The cell that lies `index` steps after `head` in a ring of `room` cells.
// It compares first, since `head + index` need not fit a number.
fn step(room: usize, head: usize, index: usize) -> usize
    requires { (head < room) × (index < room) }
    ensures cell { result ≡ stepped room head index }
    ensures inside { result < room }
{
    let straight = room - head;
    if index < straight {
        head + index
    } else {
        index - straight
    }
}

// A mark alone is lent by callers and may be anything, so that it fits the cells is asked here, and is `Queue`'s invariant.
impl Mark {
    /// The mark of a queue with no items.
    pub fn new() -> Mark
        ensures { result ≡ fresh }
    {
        Mark { head: 0, count: 0 }
    }

    // Whether the mark fits that many cells: it counts no more items than there are
    // cells, and the first item's cell is one of them.
    pub(crate) fn fits(self, width: usize) -> bool
        ensures { result ≡ sound width self }
    {
        self.count <= width && (self.head < width || width == 0)
    }

    // The item that has `index` items before it. The index is tested by hand, since a ring is no slice that could be asked.
    pub(crate) fn item<'b, T>(self, cells: &'b [T], index: usize) -> Option<&'b T>
        requires { Sound (length cells.now) self }
        ensures { option_map (λ x. x.now) result ≡ slice_get (marked cells.now self) index }
    {
        if index >= self.count {
            return None;
        }
        Some(&cells[step(cells.len(), self.head, index)])
    }

    // The item goes last, or comes back where every cell is taken.
    pub(crate) fn push<T: Copy>(&mut self, cells: &mut [T], item: T) -> Result<(), T>
        requires { Sound (length cells.old) self.old }
        ensures sound { Sound (length cells.old) self.new }
        ensures result { result ≡ (if nat_lt (length (marked cells.old self.old)) (length cells.old) then Ok tt else Err item) }
        ensures items { marked cells.new self.new ≡ within_room (length cells.old) item (marked cells.old self.old) }
    {
        if self.count >= cells.len() {
            return Err(item);
        }
        cells[step(cells.len(), self.head, self.count)] = item;
        self.count += 1;
        Ok(())
    }

    // The first item, which leaves. The cells are only read, but come as `&mut`: were a part of a field's slice lent as `&`, the
    // check would not know afterwards that the slice is the same.
    pub(crate) fn pop<T: Copy>(&mut self, cells: &mut [T]) -> Option<T>
        requires { Sound (length cells.old) self.old }
        ensures sound { Sound (length cells.old) self.new }
        ensures result { result ≡ front (marked cells.old self.old) }
        ensures items { marked cells.new self.new ≡ others (marked cells.old self.old) }
    {
        let item = *self.item(cells, 0)?;
        let next = self.head + 1;
        self.head = if next < cells.len() { next } else { 0 };
        self.count -= 1;
        Some(item)
    }
}
