//! What a call costs, by a loop over many.

ghost use Rattle.std.specs.Prelude.{◌≡◌};

use crate::exchange::event;
use message::Message;
use protocol::argument::{AllowNull, ArgumentType};
use std::time::{Duration, Instant};
use wire::answers::Head;
use wire::{BODY_BYTES, Wire};

const TURNS: u32 = 200_000;

fn each(whole: Duration) -> u128 {
    whole.as_nanos() / u128::from(TURNS)
}

/// Says on standard error how long a head, a read with the put before it, a write with its flush, and an open take on average.
pub fn time_calls<W: Wire, P: FnMut(&mut W)>(
    rt: &HostRuntime,
    wire: &mut W,
    name: &str,
    mut put: P,
) -> anyhow::Result<()>
    requires { P.IsAlwaysCallable put }
{
    let start = Instant::now(rt)?;
    // the answers are counted at changing places, so that the loop is not left out
    let broken = (0..TURNS)
        .filter(|turn| wire.head((turn & 3) as usize) == Head::Broken)
        .count();
    let heads = each(start.elapsed(rt)?);
    let mut message = Message::new();
    let mut body = [0; BODY_BYTES];
    let text = [ArgumentType::Str(AllowNull::No)];
    let start = Instant::now(rt)?;
    for _ in 0..TURNS {
        put(wire);
        let _ = wire.read(1, &text, &mut message, &mut body);
    }
    let reads = each(start.elapsed(rt)?);
    let sent = event(1);
    let start = Instant::now(rt)?;
    for _ in 0..TURNS {
        let _ = wire.write(1, &sent);
        let _ = wire.flush(1);
    }
    let writes = each(start.elapsed(rt)?);
    let start = Instant::now(rt)?;
    for _ in 0..TURNS {
        wire.open(1);
    }
    let opens = each(start.elapsed(rt)?);
    eprintln!(rt;
        "{name}: head {heads} ns ({broken} broken), put and read {reads} ns, write and flush {writes} ns, open {opens} ns"
    )?;
    Ok(())
}
