//! Tickets: a step hands one out for each request that the server has to answer, and a settle takes it back. A ticket that is let
//! go unsettled does not build, and neither does a plain ticket that is settled with data.

ghost use Rattle.std.specs.Prelude.{◌≡◌, true};
ghost use Rattle.backend.specs.declared.ticket.Outstanding.{Outstanding as OutstandingTicket};
ghost use Rattle.backend.specs.declared.ticket.Outstanding.TheVariants.{Plain, Making as MakingOut};
ghost use Rattle.backend.specs.Tickets.{same_ticket, unsettled, taken_answer, taken_after};

use crate::ids::{ClientId, GlobalId, ObjectId};
use map::DataMark;

/// What every ticket says of its request.
#[derive(Clone, Copy, PartialEq, Eq, Debug)]
pub struct Origin {
    pub client: ClientId,
    pub sender: ObjectId,
    /// the sender's data when the request was read
    pub data: DataMark,
    pub opcode: u16,
    /// the request ends its sender
    pub destructor: bool,
}

/// The global that a bind asked for, and what answers it.
#[derive(Clone, Copy, PartialEq, Eq, Debug)]
pub struct Bound {
    pub global: GlobalId,
    pub handler: u32,
}

/// What a ticket says of a request that makes an object: the child, which waits for its data, and the global of a bind.
#[derive(Clone, Copy, PartialEq, Eq, Debug)]
pub struct Making {
    pub origin: Origin,
    pub child: ObjectId,
    pub bound: Option<Bound>,
}

/// What is outstanding: at most one ticket.
// No Option round a type of two cases: that would be a second type, for what these three cases say.
#[derive(Clone, Copy, PartialEq, Eq, Debug)]
pub enum Outstanding {
    Nothing,
    Plain(Origin),
    Making(Making),
}

/// A request that a ticket can be of.
pub trait Request: Copy {
    ghost outstanding: { Self → OutstandingTicket };

    /// What is outstanding while the ticket is.
    fn outstanding(self) -> Outstanding
        ensures { result ≡ outstanding self };
}

impl Request for Origin {
    ghost outstanding = { λ origin. Plain origin };

    fn outstanding(self) -> Outstanding {
        Outstanding::Plain(self)
    }
}

impl Request for Making {
    ghost outstanding = { λ making. MakingOut making };

    fn outstanding(self) -> Outstanding {
        Outstanding::Making(self)
    }
}

/// A request that is to be answered.
pub struct Ticket<R: Copy> {
    pub request: R,
    // A flag, and no type without a drop, so that what refuses a ticket let go says what to do.
    spent: bool,
}

/// The ticket of a request that makes no object.
pub type PlainTicket = Ticket<Origin>;

/// The ticket of a request that makes one.
pub type MakingTicket = Ticket<Making>;

impl<R: Copy> Drop for Ticket<R> {
    fn drop(self)
        requires settle_it { self.spent ≡ true }
    {
        let Ticket {
            request: _,
            spent: _,
        } = self;
    }
}

impl Outstanding {
    /// Hands out a ticket.
    pub(crate) fn hand<R: Request>(&mut self, request: R) -> Ticket<R>
        ensures ticket { result ≡ unsettled request }
        ensures after { self.new ≡ R.outstanding request }
    {
        *self = request.outstanding();
        Ticket {
            request,
            spent: false,
        }
    }

    // Whether this is what is outstanding: all parts agree.
    #[tactic(auto, using(crate::proofs::Equal::tickets))]
    fn is(&self, other: Outstanding) -> bool
        ensures { result ≡ same_ticket self.now other }
    {
        *self == other
    }

    /// Takes a ticket back, where it is the one outstanding; else it comes back.
    pub fn take<R: Request>(&mut self, mut ticket: Ticket<R>) -> Result<R, Ticket<R>>
        ensures answer { result ≡ taken_answer self.old (R.outstanding ticket.request) ticket }
        ensures after { self.new ≡ taken_after self.old (R.outstanding ticket.request) }
    {
        if !self.is(ticket.request.outstanding()) {
            return Err(ticket);
        }
        *self = Outstanding::Nothing;
        ticket.spent = true;
        Ok(ticket.request)
    }
}

/// What is outstanding is equal exactly where all parts agree: the laws stand.
pub fn ticket_laws()
    ensures { (a b : OutstandingTicket) → ⟦<Outstanding as PartialEq>⟧.eq a b ≡ same_ticket a b }
{}
