//! The queue wire: requests and events in memory that the caller lends.

ghost use Rattle.std.specs.Prelude.{◌≡◌, ℕ, length, nat_lt};
ghost use Rattle.message.specs.Events.{event_of};
ghost use Rattle.queue.specs.Ring.{at_place};
ghost use Rattle.queue.specs.Rows.{given_room};
ghost use Rattle.std.specs.Option.{option_map};
ghost use Rattle.std.specs.List.{slice_get};
ghost use Rattle.wire.specs.QueuedLaws.{QueuedLaws};
ghost use Rattle.wire.specs.Queued.{queue_line, waiting as waiting_of, well_formed, fresh, vacant, admitted, received, broken as broken_line};

use crate::answers::{Head, ReadError, WriteError};
use crate::{BODY_BYTES, Wire};
use message::{ARGUMENTS, Event, Message, lay};
use protocol::argument::{ArgumentType, check_for_signature};
use protocol::refusal::Refusal;
use queue::{Mark, Queues};

/// A request. Its body may have any length, and stays where the caller keeps it until it is read.
#[derive(Clone, Copy)]
pub struct Request<'b> {
    pub sender: u32,
    pub opcode: u16,
    pub message: Message,
    pub body: &'b [u8],
}

/// What a caller lends to a queue wire: cells for the requests and the events of all places, and for each place a mark of the
/// requests that wait, one of the events that it took, and whether it is broken. What they hold does not matter.
// Lent memory, and no Vec: nothing in a call of a wire may allocate.
#[derive(Drop)]
pub struct Lent<'a, 'b> {
    pub requests: &'a mut [Request<'b>],
    pub waiting: &'a mut [Mark],
    pub events: &'a mut [Event],
    pub taken: &'a mut [Mark],
    pub broken: &'a mut [bool],
}

/// A line for each place. The memory is fixed: what a place takes before the next flush is the cells that it was given.
#[derive(Drop)]
pub struct QueueWire<'a, 'b> {
    requests: Queues<'a, Request<'b>>,
    events: Queues<'a, Event>,
    broken: &'a mut [bool],
}

impl<'a, 'b> QueueWire<'a, 'b> {
    /// Fresh lines, whatever the memory held: a place for each mark, with the cells divided evenly among them.
    pub fn new(lent: Lent<'a, 'b>) -> QueueWire<'a, 'b>
        ensures { (p : ℕ) → queue_line result p ≡ fresh (given_room lent.entry.events.now lent.entry.taken.now p) }
    {
        let Lent {
            requests,
            waiting,
            events,
            taken,
            broken,
        } = lent;
        broken.fill(false);
        QueueWire {
            requests: Queues::new(requests, waiting),
            events: Queues::new(events, taken),
            broken,
        }
    }

    /// Puts a request at the end of a place's line, or refuses it where no cell of the place is vacant.
    pub fn put(&mut self, place: usize, request: Request<'b>) -> Result<(), Refusal>
        ensures answer { result ≡ admitted (vacant self.old place) }
        ensures lines { (p : ℕ) → queue_line self.new p ≡ at_place place (received (vacant self.old place) (waiting_of request.entry)) (queue_line self.old) p }
    {
        self.requests
            .push_back(place, request)
            .map_err(|_| Refusal::NoVacancy)
    }

    /// Sets the broken mark of a place, or refuses it where there is no such place.
    pub fn set_broken(&mut self, place: usize) -> Result<(), Refusal>
        ensures answer { result ≡ admitted (nat_lt place (length self.old.broken.now)) }
        ensures lines { (p : ℕ) → queue_line self.new p ≡ at_place place (broken_line (nat_lt place (length self.old.broken.now))) (queue_line self.old) p }
    {
        // no get_mut: the check does not know what a field's slice holds after one
        if place >= self.broken.len() {
            return Err(Refusal::NoVacancy);
        }
        self.broken[place] = true;
        Ok(())
    }

    /// The event of an index among those that a place took since it was last flushed.
    pub fn event(&self, place: usize, index: usize) -> Option<Event>
        ensures { option_map event_of result ≡ slice_get (queue_line self.now place).events index }
    {
        self.events.get(place, index)
    }
}

// Whether a request has the form of a signature.
fn is_formed(request: &Request, signature: &[ArgumentType]) -> bool
    ensures { result ≡ well_formed request.now signature.now }
{
    let arguments = request.message.as_slice();
    request.body.len() <= BODY_BYTES
        && arguments.len() <= ARGUMENTS
        && check_for_signature(signature, arguments)
}

impl<'a, 'b> Wire for QueueWire<'a, 'b> {
    ghost line = { queue_line };

    fn head(&self, place: usize) -> Head {
        match self.requests.first(place) {
            Some(request) => Head::Request(request.sender, request.opcode),
            None if self.broken.get(place).copied().unwrap_or(false) => Head::Broken,
            None => Head::Nothing,
        }
    }

    fn read(
        &mut self,
        place: usize,
        signature: &[ArgumentType],
        message: &mut Message,
        body: &mut [u8],
    ) -> Result<(), ReadError> {
        if body.len() < BODY_BYTES {
            return Err(ReadError::Short);
        }
        let request = self.requests.first(place).ok_or(ReadError::Nothing)?;
        if !is_formed(&request, signature) {
            return Err(ReadError::Malformed);
        }
        let _ = self.requests.pop_front(place);
        message.copy_from(request.message.as_slice());
        lay(request.body, body);
        Ok(())
    }

    fn write(&mut self, place: usize, event: &Event) -> Result<(), WriteError> {
        if self.events.len(place) >= self.events.room(place) {
            return Err(WriteError::Refused);
        }
        if !event.is_sendable() {
            return Err(WriteError::BadSize);
        }
        let _ = self.events.push_back(place, *event);
        Ok(())
    }

    fn flush(&mut self, place: usize) -> usize {
        let carried = self.events.len(place);
        self.events.clear(place);
        carried
    }

    fn open(&mut self, place: usize) {
        self.requests.clear(place);
        self.events.clear(place);
        // no get_mut, as in `set_broken`
        if place < self.broken.len() {
            self.broken[place] = false;
        }
    }
}

/// What is put comes out, and only what is malformed is called so: the laws stand.
pub fn queued_laws()
    ensures { QueuedLaws }
{}
