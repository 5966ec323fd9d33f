//! The refusals of the public calls. Each leaves everything as it was.

ghost use Rattle.std.specs.Prelude.{◌≡◌, Some};
ghost use Rattle.protocol.specs.Refusals.{number_of, text_of, RefusalLaws};

use std::error::Error;
use std::fmt;

/// Why a call was refused. The order is that in which a call looks for them.
#[derive(Clone, Copy, Debug, PartialEq, Eq)]
pub enum Refusal {
    /// A text buffer is under 192 bytes, a body buffer under 4,096, an event's texts and arrays are together over 256,
    /// a posted text is over 192, or a text of either holds a zero.
    BadSize = 1,
    /// A step finds a ticket outstanding.
    TicketOutstanding = 2,
    /// The client handle names no client.
    NoClient = 3,
    /// The client of a step is killed.
    ClientKilled = 4,
    /// The object handle is not live.
    DeadObject = 5,
    /// `wl_display` may not be destroyed, nor `delete_id` be sent by hand.
    Reserved = 6,
    /// The opcode is not among the row's events, or the event is newer than the object's version.
    NoEvent = 7,
    /// The arguments differ from the signature in number or kind.
    BadSignature = 8,
    /// An argument belongs to another client.
    OtherClient = 9,
    /// An argument is not live.
    DeadArgument = 10,
    /// A new id that is not null has no child row.
    NoChild = 11,
    /// An argument is of another interface.
    WrongInterface = 12,
    /// A null object or text is not allowed, or a new id is null.
    NullArgument = 13,
    /// A row does not exist.
    NoRow = 14,
    /// A global's version is above its row's.
    VersionAbove = 15,
    /// No place, or cell for a request, is vacant.
    NoVacancy = 16,
    /// The global handle names no global.
    NoGlobal = 17,
    /// The ticket is not the one outstanding; it comes back.
    WrongTicket = 18,
    /// A filled row breaks a law, or a catalogue is asked for with fewer than 4 or more than 64 rows.
    BreaksLaw = 19,
}

impl Refusal {
    /// The number by which a refusal is known, 1 to 19.
    pub fn number(self) -> u8
        ensures { result ≡ number_of self }
    {
        self as u8
    }
}

// By hand: a derived text has no clause, and this one is proved.
impl fmt::Display for Refusal {
    ghost output = { λ r. Some (text_of r) };

    fn fmt<W: fmt::Write>(&self, f: &mut fmt::Formatter<W>) -> fmt::Result {
        f.write_str(match self {
            Refusal::BadSize => "a buffer is too small, or a text or an event too large",
            Refusal::TicketOutstanding => "a ticket is outstanding",
            Refusal::NoClient => "no such client",
            Refusal::ClientKilled => "the client is killed",
            Refusal::DeadObject => "the object is not live",
            Refusal::Reserved => "the display and its delete_id are the engine's",
            Refusal::NoEvent => "no such event at that version",
            Refusal::BadSignature => "the arguments differ from the signature",
            Refusal::OtherClient => "an argument belongs to another client",
            Refusal::DeadArgument => "an argument is not live",
            Refusal::NoChild => "a new id has no child row",
            Refusal::WrongInterface => "an argument is of another interface",
            Refusal::NullArgument => "null is not allowed",
            Refusal::NoRow => "no such row",
            Refusal::VersionAbove => "the version is above the row's",
            Refusal::NoVacancy => "no place is vacant",
            Refusal::NoGlobal => "no such global",
            Refusal::WrongTicket => "not the outstanding ticket",
            Refusal::BreaksLaw => "a law is broken",
        })
    }
}

impl Error for Refusal {}

/// The numbers are 1 to 19, each of one refusal: the laws stand.
pub fn refusal_laws()
    ensures { RefusalLaws }
{}
