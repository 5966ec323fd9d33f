//! Drives each wire through the same exchange, and says on standard error what a call costs.
//!
//! What is printed on standard output is fixed by the rules of a wire, and is compared in the gate.

#![tactic(auto)]

mod exchange;
mod timing;

use exchange::request;
use message::Event;
use queue::Mark;
use wire::Wire;
use wire::metered::MeteredWire;
use wire::queued::{Lent, QueueWire};

// How many meters lie on the queue wire.
#[derive(Clone, Copy)]
enum Meters {
    None,
    One,
    Two,
}

// Runs the exchange over a wire, under a title, and times its calls, under a name. How a request is put is said beside, as the trait has
// only the server's side.
fn drive<W: Wire + Drop, P: FnMut(&mut W)>(
    rt: &HostRuntime,
    title: &str,
    name: &str,
    mut wire: W,
    put: P,
) -> anyhow::Result<()>
    requires { P.IsAlwaysCallable put }
{
    println!(rt; "{title}")?;
    exchange::run(rt, &mut wire)?;
    timing::time_calls(rt, &mut wire, name, put)
}

// A queue wire of 3 places with 2 request cells and 4 event cells each; place 1 holds a request, and is broken behind it. What it borrows
// lies in this call, and not in a struct, over whose arrays a wire gets no proof: nothing that this program does allocates.
fn over(rt: &HostRuntime, meters: Meters) -> anyhow::Result<()> {
    let mut requests = [request(b"lamp"); 6];
    let mut waiting = [Mark::new(); 3];
    let mut events = [Event::new(0, 0); 12];
    let mut taken = [Mark::new(); 3];
    let mut broken = [true; 3];
    let mut wire = QueueWire::new(Lent {
        requests: &mut requests,
        waiting: &mut waiting,
        events: &mut events,
        taken: &mut taken,
        broken: &mut broken,
    });
    let _ = wire.put(1, request(b"lamp"));
    let _ = wire.set_broken(1);
    match meters {
        Meters::None => drive(rt, "queue wire", "queue wire", wire, |wire| {
            let _ = wire.put(1, request(b"lamp"));
        }),
        Meters::One => drive(
            rt,
            "metered wire of 3 over a queue wire",
            "metered wire",
            MeteredWire::new(wire, 3),
            |wire| {
                let _ = wire.wire.put(1, request(b"lamp"));
            },
        ),
        Meters::Two => drive(
            rt,
            "metered wire of 3 over a metered wire of 2 over a queue wire",
            "two metered wires",
            MeteredWire::new(MeteredWire::new(wire, 2), 3),
            |wire| {
                let _ = wire.wire.wire.put(1, request(b"lamp"));
            },
        ),
    }
}

fn main(rt: HostRuntime) -> anyhow::Result<()> {
    over(&rt, Meters::None)?;
    over(&rt, Meters::One)?;
    over(&rt, Meters::Two)
}
