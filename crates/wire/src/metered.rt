//! The metered wire: at most its own number of events between two flushes of a place, on any wire.

ghost use Rattle.std.specs.Prelude.{◌≡◌, ℕ, replicate};
ghost use Rattle.wire.specs.Metered.{metered};

use crate::Wire;
use crate::answers::{Head, ReadError, WriteError};
use message::{Event, Message};
use protocol::argument::ArgumentType;

/// How many places a metered wire has.
// Fixed memory, and no Vec: nothing in a call of a wire may allocate.
pub const METERED_PLACES: usize = 32;

/// A wire that lies on another. It counts, place by place, what is left until the next flush.
// No get_mut for the counts: the check does not know what a field's array holds after one.
#[derive(Drop)]
pub struct MeteredWire<W> {
    /// the wire below
    pub wire: W,
    own: usize,
    left: [usize; METERED_PLACES],
}

impl<W: Wire> MeteredWire<W> {
    /// A meter of `own` events on a wire, with nothing counted yet.
    pub fn new(wire: W, own: usize) -> MeteredWire<W>
        ensures below { result.wire ≡ wire }
        ensures lines { (p : ℕ) → metered result.own result.left (λ q. W.Wire.line result.wire q) p ≡ metered own (replicate 32 own) (λ q. W.Wire.line wire q) p }
    {
        MeteredWire {
            wire,
            own,
            left: [own; METERED_PLACES],
        }
    }
}

impl<W: Wire> Wire for MeteredWire<W> {
    ghost line = { λ m p. metered m.own m.left (λ q. W.Wire.line m.wire q) p };

    fn head(&self, place: usize) -> Head {
        if place >= METERED_PLACES {
            return Head::Nothing;
        }
        self.wire.head(place)
    }

    fn read(
        &mut self,
        place: usize,
        signature: &[ArgumentType],
        message: &mut Message,
        body: &mut [u8],
    ) -> Result<(), ReadError> {
        if body.len() < crate::BODY_BYTES {
            return Err(ReadError::Short);
        }
        if place >= METERED_PLACES {
            return Err(ReadError::Nothing);
        }
        self.wire.read(place, signature, message, body)
    }

    fn write(&mut self, place: usize, event: &Event) -> Result<(), WriteError> {
        if place >= METERED_PLACES || self.left[place] == 0 {
            return Err(WriteError::Refused);
        }
        self.wire.write(place, event)?;
        self.left[place] -= 1;
        Ok(())
    }

    fn flush(&mut self, place: usize) -> usize {
        if place >= METERED_PLACES {
            return 0;
        }
        self.left[place] = self.own;
        self.wire.flush(place)
    }

    fn open(&mut self, place: usize) {
        if place < METERED_PLACES {
            self.left[place] = self.own;
            self.wire.open(place);
        }
    }
}
