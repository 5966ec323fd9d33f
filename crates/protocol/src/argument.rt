//! Kinds of arguments, and arguments.

ghost use Rattle.std.specs.Prelude.{◌≡◌};
ghost use Rattle.protocol.specs.Kinds.{same_type, unmarked, kind_of, agree};

/// The most arguments of a message.
pub const ARGUMENTS: usize = 8;

/// Whether an argument may be null.
#[derive(Clone, Copy, Debug, PartialEq, Eq)]
pub enum AllowNull {
    /// Null values are allowed.
    Yes,
    /// Null values are forbidden.
    No,
}

/// The kind of an argument.
#[derive(Clone, Copy, Debug, PartialEq, Eq)]
pub enum ArgumentType {
    /// a signed number
    Int,
    /// an unsigned number
    Uint,
    /// a signed number of 256ths
    Fixed,
    /// a text
    Str(AllowNull),
    /// the id of an object
    Object(AllowNull),
    /// the id of an object that the message makes
    NewId,
    /// bytes
    Array,
    /// a file descriptor
    Fd,
}

impl ArgumentType {
    /// Whether two kinds are the same but for the mark whether null is allowed.
    pub fn same_type(self, other: Self) -> bool
        ensures { result ≡ same_type self other }
    {
        self.unmarked() == other.unmarked()
    }

    // The kind with null allowed, where it may be allowed.
    fn unmarked(self) -> Self
        ensures { result ≡ unmarked self }
    {
        match self {
            ArgumentType::Str(_) => ArgumentType::Str(AllowNull::Yes),
            ArgumentType::Object(_) => ArgumentType::Object(AllowNull::Yes),
            kind => kind,
        }
    }
}

/// An argument of a message. `Id` names an object, and `Bytes` is where texts and arrays lie.
#[derive(Clone, Copy, Debug, PartialEq, Eq)]
pub enum Argument<Id, Bytes> {
    Int(i32),
    Uint(u32),
    Fixed(i32),
    Str(Option<Bytes>),
    Object(Id),
    NewId(Id),
    Array(Bytes),
    Fd(i32),
}

impl<Id, Bytes> Argument<Id, Bytes> {
    /// The kind of an argument. A text and an object are given as kinds that allow null.
    pub fn get_type(&self) -> ArgumentType
        ensures { result ≡ kind_of self.now }
    {
        match self {
            Argument::Int(_) => ArgumentType::Int,
            Argument::Uint(_) => ArgumentType::Uint,
            Argument::Fixed(_) => ArgumentType::Fixed,
            Argument::Str(_) => ArgumentType::Str(AllowNull::Yes),
            Argument::Object(_) => ArgumentType::Object(AllowNull::Yes),
            Argument::NewId(_) => ArgumentType::NewId,
            Argument::Array(_) => ArgumentType::Array,
            Argument::Fd(_) => ArgumentType::Fd,
        }
    }
}

/// Whether arguments agree with a signature in number and kind.
pub fn check_for_signature<Id, Bytes>(
    signature: &[ArgumentType],
    args: &[Argument<Id, Bytes>],
) -> bool
    ensures { result ≡ agree signature.now args.now }
{
    signature.len() == args.len()
        && signature
            .iter()
            .zip(args)
            .all(|(kind, arg)| arg.get_type().same_type(*kind))
}
