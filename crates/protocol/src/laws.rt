//! The laws of rows, tested.

ghost use Rattle.std.specs.Prelude.{◌≡◌, map, nat_lt};
ghost use Rattle.protocol.specs.Kinds.{is_object, is_new_id};
ghost use Rattle.protocol.specs.Model.{said, said_buf, meant_buf};
ghost use Rattle.protocol.specs.RowTests.{named, message_sound, row_sound, makes_named, is_fresh, may_stand};
ghost use Rattle.protocol.specs.Tallies.{all, count};

use crate::argument::{ARGUMENTS, ArgumentType};
use crate::core_interfaces::CORE;
use crate::interface::{InterfaceBuf, MessageBuf, MessageDesc, same_name};

/// The longest name.
const NAME_BYTES: usize = 32;
/// The most messages of one direction in a row.
const MESSAGES: usize = 16;

fn is_named(name: &[u8]) -> bool
    ensures { result ≡ named name.now }
{
    !name.is_empty() && name.len() <= NAME_BYTES && name.iter().all(|byte| *byte > 0)
}

// How many arguments are objects. This and the next function differ in the test alone, and each is one chain of the library's.
fn objects(signature: &[ArgumentType]) -> usize
    ensures { result ≡ count is_object signature.now }
{
    signature
        .iter()
        .filter(|kind| matches!(kind, ArgumentType::Object(_)))
        .count()
}

fn new_ids(signature: &[ArgumentType]) -> usize
    ensures { result ≡ count is_new_id signature.now }
{
    signature
        .iter()
        .filter(|kind| matches!(kind, ArgumentType::NewId))
        .count()
}

fn are_below(numbers: &[u32], rows: u32) -> bool
    ensures { result ≡ all (λ row. nat_lt row rows) numbers.now }
{
    numbers.iter().all(|row| *row < rows)
}

fn message_sound(message: MessageDesc<'_>, rows: u32) -> bool
    ensures { result ≡ message_sound rows (said message.entry) }
{
    is_named(message.name)
        && message.signature.len() <= ARGUMENTS
        && objects(message.signature) == message.arg_interfaces.len()
        && new_ids(message.signature) <= 1
        && are_below(message.arg_interfaces, rows)
        && message.child_interface.is_none_or(|row| row < rows)
}

fn makes_named(message: MessageDesc<'_>) -> bool
    ensures { result ≡ makes_named (said message.entry) }
{
    new_ids(message.signature) == 0 || message.child_interface.is_some()
}

fn messages_sound(messages: &[MessageBuf], rows: u32) -> bool
    ensures { result ≡ all (message_sound rows) (map said_buf messages.now) }
{
    messages
        .iter()
        .all(|message| message_sound(message.desc(), rows))
}

fn all_make_named(messages: &[MessageBuf]) -> bool
    ensures { result ≡ all makes_named (map said_buf messages.now) }
{
    messages.iter().all(|message| makes_named(message.desc()))
}

fn is_fresh(name: &[u8]) -> bool
    ensures { result ≡ is_fresh name.now }
{
    CORE.iter().all(|core| !same_name(core.name, name))
}

fn row_sound(row: &InterfaceBuf, rows: u32) -> bool
    ensures { result ≡ row_sound rows (meant_buf row.now) }
{
    is_named(&row.name)
        && row.requests.len() <= MESSAGES
        && row.events.len() <= MESSAGES
        && messages_sound(&row.requests, rows)
        && messages_sound(&row.events, rows)
}

/// Whether a row may stand past the core in a catalogue of so many rows.
pub(crate) fn may_stand(row: &InterfaceBuf, rows: u32) -> bool
    ensures { result ≡ may_stand rows (meant_buf row.now) }
{
    row_sound(row, rows) && all_make_named(&row.requests) && is_fresh(&row.name)
}
