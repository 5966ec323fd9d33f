//! Runs a session script from standard input: one call a line in, one answer a line out.

#![tactic(auto)]

mod arguments;
mod command;
mod described;
mod lines;
mod session;
mod texts;
mod verb;
mod views;
mod wires;
mod words;

use std::io;

fn main(rt: HostRuntime) -> io::Result<()> {
    // a request's texts stay in its line until the request is read, so all lines are kept
    let mut script = Vec::new(rt.alloc());
    for line in rt.lines(rt.alloc()) {
        script.push(line?)?;
    }
    lines::run(&rt, &script)
}
