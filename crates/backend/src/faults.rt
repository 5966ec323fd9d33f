//! How a request breaks the protocol: the map's reason inside the client's, that with the argument's index inside the step's.

ghost use Rattle.std.specs.Prelude.{◌≡◌};
ghost use Rattle.backend.specs.declared.faults.ClientFault.TheVariants.{Entry};
ghost use Rattle.backend.specs.declared.faults.StepFault.TheVariants.{Argument as AtArgument};
ghost use Rattle.backend.specs.Faults.{code_of, code_in, number_of_error};

use map::MapFault;

/// The codes of `wl_display.error` that the engine gives.
#[derive(Clone, Copy, PartialEq, Eq, Debug)]
pub enum DisplayError {
    InvalidObject = 0,
    InvalidMethod = 1,
    NoMemory = 2,
}

impl DisplayError {
    /// The number that goes over the wire.
    pub fn code(self) -> u32
        ensures { result ≡ number_of_error self }
    {
        self as u32
    }
}

/// What is wrong with one argument.
#[derive(Clone, Copy, PartialEq, Eq, Debug)]
pub enum ClientFault {
    /// a new id was not entered
    Entry(MapFault),
    /// there are as many registries as the roll has places
    RollFull,
    /// a text is null where that is not allowed
    NullText,
    /// the interface of a bind is null
    NullInterface,
    /// an object is null where that is not allowed
    NullObject,
    /// an object is not live
    UnknownId,
    /// an object is of another interface than the argument
    WrongInterface,
}

impl ClientFault {
    /// The error that the client is told.
    pub fn error(self) -> DisplayError
        ensures { result ≡ code_in self }
    {
        match self {
            ClientFault::Entry(MapFault::Full) | ClientFault::RollFull => DisplayError::NoMemory,
            ClientFault::Entry(_) => DisplayError::InvalidObject,
            ClientFault::NullText | ClientFault::NullInterface => DisplayError::InvalidMethod,
            ClientFault::NullObject | ClientFault::UnknownId | ClientFault::WrongInterface => {
                DisplayError::InvalidObject
            }
        }
    }
}

/// What is wrong with a request's arguments: the first that is at fault, counted from 0.
#[derive(Clone, Copy, PartialEq, Eq, Debug)]
pub struct ArgumentFault {
    pub index: u32,
    pub fault: ClientFault,
}

/// How a request broke the protocol.
#[derive(Clone, Copy, PartialEq, Eq, Debug)]
pub enum StepFault {
    /// its sender is not live
    UnknownSender,
    /// its opcode is not among those of the sender's interface
    UnknownOpcode,
    /// its arguments have not the form of the signature
    Malformed,
    /// it is newer than the sender's version
    TooNew,
    /// a bind asks for what the client may not have
    InvalidBinding,
    Argument(ArgumentFault),
}

impl StepFault {
    /// The error that the client is told.
    pub fn error(self) -> DisplayError
        ensures { result ≡ code_of self }
    {
        match self {
            StepFault::UnknownSender | StepFault::InvalidBinding => DisplayError::InvalidObject,
            StepFault::UnknownOpcode | StepFault::Malformed | StepFault::TooNew => {
                DisplayError::InvalidMethod
            }
            StepFault::Argument(at) => at.fault.error(),
        }
    }
}

// The two conversions are written by hand: a derived one does not say which fault a `?` makes.
impl From<MapFault> for ClientFault {
    ghost from_gives = { λ e r. r ≡ Entry e };

    fn from(e: MapFault) -> ClientFault {
        ClientFault::Entry(e)
    }
}

impl From<ArgumentFault> for StepFault {
    ghost from_gives = { λ e r. r ≡ AtArgument e };

    fn from(e: ArgumentFault) -> StepFault {
        StepFault::Argument(e)
    }
}
