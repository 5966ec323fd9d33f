//! First-in, first-out queues in memory that the caller lends.
//!
//! A server has to keep what it cannot deliver at once, and it must not be
//! brought down by a client that never reads. So nothing here allocates: the
//! caller lends a slice of cells, a queue holds at most as many items as it has
//! cells, and an item that finds no room comes back to whoever pushed it.
//!
//! [`Queue`] is one queue in one slice. [`Queues`] is a row of queues, one for
//! each place, in one slice that is divided evenly among the places, so that a
//! place that is full takes nothing from the others.

#![tactic(auto)]

mod ring;
mod rows;
mod single;

ghost use Rattle.queue.specs.Laws.{QueueLaws};
ghost use Rattle.queue.specs.Marks.{Sound};
ghost use Rattle.std.specs.Prelude.{length};

/// Where the items of a queue lie in its cells: the cell of the first item, and
/// how many items there are.
///
/// A caller lends one for each place of [`Queues`], and what it holds then does
/// not matter.
#[derive(Clone, Copy)]
pub struct Mark {
    pub head: usize,
    pub count: usize,
}

/// One queue. Its items lie from the cell `head` of its mark on, and past the last
/// cell they go on at the first, so that no item moves while it waits.
// Lent cells with a mark beside them, and no VecDeque: nothing here may allocate.
// Methods say one by one that room and lender stay: a ghost field speaks of one state, and a model would hide the loan.
#[derive(Drop)]
pub struct Queue<'a, T> {
    cells: &'a mut [T],
    mark: Mark,
    ghost within: { Sound (length cells.now) mark },
}

/// A queue for each place. Every place has a mark of its own and the same share
/// of the cells.
// Lent cells with lent marks beside them, and no Vec of queues: nothing here may allocate.
#[derive(Drop)]
pub struct Queues<'a, T> {
    cells: &'a mut [T],
    marks: &'a mut [Mark],
}

// The part of the cells that is one place's, and its mark.
#[derive(Clone, Copy)]
struct Span {
    low: usize,
    high: usize,
    mark: Mark,
}

/// What holds of every queue, whatever its items are: they leave in the order in
/// which they came, a full queue refuses, and a push moves no item that waits.
pub fn queue_laws<T>()
    ensures { QueueLaws T }
{}
