//! Calls to a wire, and their answers.

use crate::arguments::Arguments;
use crate::command::{CELLS, WireCall};
use crate::texts::{Refused, said};
use message::{Event, Message};
use protocol::argument::ArgumentType;
use protocol::refusal::Refusal;
use std::alloc::{AllocError, Global};
use wire::answers::WriteError;
use wire::metered::MeteredWire;
use wire::queued::{QueueWire, Request};
use wire::{BODY_BYTES, Wire};

/// The other side of a wire: what comes in, and what waits to go out. The bodies of its requests live as long as `'b`.
// The calls are passed on one by one, since a method that lends the queue wire below by `&mut` gets no proof.
pub trait FarSide<'b> {
    fn put(&mut self, place: usize, request: Request<'b>) -> Result<(), Refusal>;

    fn set_broken(&mut self, place: usize) -> Result<(), Refusal>;

    /// The event of an index among those that wait at a place.
    fn event(&self, place: usize, index: usize) -> Option<Event>;
}

impl<'a, 'b> FarSide<'b> for QueueWire<'a, 'b> {
    fn put(&mut self, place: usize, request: Request<'b>) -> Result<(), Refusal> {
        QueueWire::put(self, place, request)
    }

    fn set_broken(&mut self, place: usize) -> Result<(), Refusal> {
        QueueWire::set_broken(self, place)
    }

    fn event(&self, place: usize, index: usize) -> Option<Event> {
        QueueWire::event(self, place, index)
    }
}

// The meter counts on the near side alone.
impl<'b, W: FarSide<'b>> FarSide<'b> for MeteredWire<W> {
    fn put(&mut self, place: usize, request: Request<'b>) -> Result<(), Refusal> {
        self.wire.put(place, request)
    }

    fn set_broken(&mut self, place: usize) -> Result<(), Refusal> {
        self.wire.set_broken(place)
    }

    fn event(&self, place: usize, index: usize) -> Option<Event> {
        self.wire.event(place, index)
    }
}

/// A wire, and where the arguments and the body of a request go that is read from it.
#[derive(Drop)]
pub struct Over<W> {
    heap: Global,
    wire: W,
    message: Message,
    body: Vec<u8>,
}

impl<W: Drop> Over<W> {
    pub fn new(heap: Global, wire: W) -> Result<Over<W>, AllocError> {
        Ok(Over {
            heap,
            wire,
            message: Message::new(),
            body: vec![in heap; 0; BODY_BYTES]?,
        })
    }
}

impl<'b, W: Wire + FarSide<'b>> Over<W> {
    /// Makes a call of a line, in which a request's texts and arrays stay, and says what came of it.
    pub fn perform(&mut self, line: &'b str, call: WireCall) -> Result<String, AllocError> {
        let heap = self.heap;
        match call {
            WireCall::Put(place, sender, opcode, message) => {
                let request = request(sender, opcode, message, line);
                let outcome = self.wire.put(place, request);
                said(heap, outcome.map(|()| "put").map_err(Refused))
            }
            WireCall::Break(place) => {
                let outcome = self.wire.set_broken(place);
                said(heap, outcome.map(|()| "broken").map_err(Refused))
            }
            WireCall::Events(place) => self.events(place),
            WireCall::Head(place) => self.wire.head(place).to_string(heap),
            WireCall::Read(place, kinds) => self.read(place, &kinds),
            WireCall::Write(place, event) => {
                let outcome = match event {
                    Some(event) => self.wire.write(place, &event),
                    None => Err(WriteError::BadSize),
                };
                said(heap, outcome.map(|()| "taken"))
            }
            WireCall::Flush(place) => {
                let carried = self.wire.flush(place);
                format!(in heap; "carried {carried}")
            }
            WireCall::Open(place) => {
                self.wire.open(place);
                String::from_str(heap, "opened")
            }
        }
    }

    fn read(&mut self, place: usize, kinds: &[ArgumentType]) -> Result<String, AllocError> {
        let outcome = self
            .wire
            .read(place, kinds, &mut self.message, &mut self.body);
        if let Err(error) = outcome {
            return error.to_string(self.heap);
        }
        if self.message.count == 0 {
            return String::from_str(self.heap, "read");
        }
        let arguments = Arguments {
            message: self.message,
            body: &self.body,
            between: " ",
        };
        format!(in self.heap; "read {arguments}")
    }

    fn events(&self, place: usize) -> Result<String, AllocError> {
        let mut text = String::new(self.heap);
        // one after the other, and in no list; no place has more of them than cells
        for index in 0..CELLS {
            let Some(event) = self.wire.event(place, index) else {
                break;
            };
            if index > 0 {
                text.push_str(" ")?;
            }
            let arguments = Arguments {
                message: event.message,
                body: &event.bytes,
                between: ", ",
            };
            write!(text, "{}.{}({arguments})", event.sender, event.opcode)?;
        }
        if text.is_empty() {
            text.push_str("none")?;
        }
        Ok(text)
    }
}

// A request whose texts and arrays are parts of a line.
fn request(sender: u32, opcode: u16, message: Message, line: &str) -> Request<'_> {
    Request {
        sender,
        opcode,
        message,
        body: line.as_bytes(),
    }
}
