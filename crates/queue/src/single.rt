//! One queue, as a ring in one slice.

ghost use Rattle.std.specs.Prelude.{◌≡◌, [], length, if◌then◌else◌, Ok, Err, nat_lt};
ghost use Rattle.queue.specs.Items.{items, room};
ghost use Rattle.queue.specs.Ring.{front, others, within_room};
ghost use Rattle.std.specs.Option.{option_map};

use super::{Mark, Queue};

impl<'a, T: Copy> Queue<'a, T> {
    /// An empty queue in the cells. It can hold as many items as there are cells.
    pub fn new(cells: &'a mut [T]) -> Queue<'a, T>
        ensures items { items result ≡ [] }
        ensures room { room result ≡ length cells.old }
        ensures lender { result.cells.ghost_name ≡ cells.entry.ghost_name }
    {
        Queue {
            cells,
            mark: Mark::new(),
        }
    }

    /// How many items wait.
    pub fn len(&self) -> usize
        ensures { result ≡ length (items self.now) }
    {
        self.mark.count
    }

    /// The item that has waited longest, which stays where it is.
    pub fn first<'b>(&'b self) -> Option<&'b T>
        ensures { option_map (λ x. x.now) result ≡ front (items self.now) }
    {
        self.mark.item(self.cells, 0)
    }

    /// The item goes last. Where every cell is taken it comes back, and the queue
    /// is as it was.
    pub fn push_back(&mut self, item: T) -> Result<(), T>
        ensures result { result ≡ (if nat_lt (length (items self.old)) (room self.old) then Ok tt else Err item) }
        ensures items { items self.new ≡ within_room (room self.old) item (items self.old) }
        ensures room { room self.new ≡ room self.old }
        ensures lender { self.new.cells.ghost_name ≡ self.old.cells.ghost_name }
    {
        self.mark.push(self.cells, item)
    }

    /// The item that has waited longest, which leaves the queue.
    pub fn pop_front(&mut self) -> Option<T>
        ensures result { result ≡ front (items self.old) }
        ensures items { items self.new ≡ others (items self.old) }
        ensures room { room self.new ≡ room self.old }
        ensures lender { self.new.cells.ghost_name ≡ self.old.cells.ghost_name }
    {
        self.mark.pop(self.cells)
    }

    /// Ends the queue and hands the cells back, with what they hold.
    pub fn into_cells(self) -> &'a mut [T]
        ensures cells { result.now ≡ self.entry.cells.now }
        ensures lender { result.ghost_name ≡ self.entry.cells.ghost_name }
    {
        let Queue { cells, mark: _ } = self;
        cells
    }
}
