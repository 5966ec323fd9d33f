//! The lines of a script, one after the other. A wire lives from the line that makes it to the next one that makes a wire.

ghost use Rattle.std.specs.Prelude.{◌≡◌, ◌<◌, length};
ghost use Rattle.std.specs.declared.result.Result.TheVariants.{Ok};
ghost use Rattle.std.specs.declared.option.Option.TheVariants.{Some};
ghost use Rattle.rehearse.specs.declared.command.Plan.{Plan};

use crate::command::{Call, Mistake, Plan, WireCall, read_call};
use crate::session::Session;
use crate::wires::{FarSide, Over};
use message::{Event, Message};
use queue::Mark;
use std::alloc::AllocError;
use std::io;
use wire::Wire;
use wire::metered::MeteredWire;
use wire::queued::{Lent, QueueWire, Request};

/// A script that is run: the session, all lines, and those that are left.
#[derive(Drop)]
struct Script<'r, 'b> {
    rt: &'r HostRuntime,
    session: Session,
    whole: &'b [String],
    lines: &'b [String],
}

/// Answers every line.
pub fn run(rt: &HostRuntime, lines: &[String]) -> io::Result<()> {
    let heap = rt.alloc();
    let mut script = Script {
        rt,
        session: Session::new(heap),
        whole: lines,
        lines,
    };
    let first = script.answer(|_, _| String::from_str(heap, "no wire was made"))?;
    let Some(mut plan) = first else {
        return Ok(());
    };
    while let Some(next) = script.answer_over(plan)? {
        plan = next;
    }
    Ok(())
}

impl<'r, 'b> Script<'r, 'b> {
    // Answers the lines that are left, until one asks for a wire, which is taken too. A line that is no call changes nothing.
    fn answer<F: FnMut(&'b str, WireCall) -> Result<String, AllocError>>(
        &mut self,
        mut serve: F,
    ) -> io::Result<Option<Plan>>
        requires { F.IsAlwaysCallable serve }
        ensures { (p : Plan) → result ≡ Ok (Some p) → length self.new.lines.now < length self.old.lines.now }
    {
        let rt = self.rt;
        let heap = rt.alloc();
        while let Some((line, rest)) = self.lines.split_first() {
            self.lines = rest;
            let text = line.as_str();
            let answer = match read_call(heap, text) {
                Ok(None) => continue,
                Ok(Some(Call::Make(plan))) => return Ok(Some(plan)),
                Ok(Some(Call::Session(command))) => self.session.perform(command)?,
                Ok(Some(Call::View(view))) => self.session.view(view)?,
                Ok(Some(Call::Wire(call))) => serve(text, call)?,
                Err(Mistake::NoMemory) => return Err(AllocError.into()),
                Err(mistake) => {
                    // counted here, and not kept with each line, so that a long script takes no more memory than its lines
                    let number = self.whole.len().saturating_sub(rest.len());
                    format!(in heap; "line {number}: {mistake}")?
                }
            };
            println!(rt; "{answer}")?;
        }
        Ok(None)
    }

    // Answers them over a wire.
    fn answer_over(&mut self, plan: Plan) -> io::Result<Option<Plan>>
        ensures { (p : Plan) → result ≡ Ok (Some p) → length self.new.lines.now < length self.old.lines.now }
    {
        let mut memory = self.memory(plan)?;
        let wire = memory.wire();
        match plan.own {
            None => self.answer_on(plan, wire),
            Some(own) => self.answer_on(plan, MeteredWire::new(wire, own)),
        }
    }

    fn answer_on<W>(&mut self, plan: Plan, wire: W) -> io::Result<Option<Plan>>
    where
        W: Wire + FarSide<'b> + Drop,
        ensures { (p : Plan) → result ≡ Ok (Some p) → length self.new.lines.now < length self.old.lines.now }
    {
        let rt = self.rt;
        let mut over = Over::new(rt.alloc(), wire)?;
        println!(rt; "{plan}")?;
        self.answer(|line, call| over.perform(line, call))
    }

    // The memory of a wire. The bodies of its requests live as long as the lines.
    fn memory(&self, plan: Plan) -> Result<Memory<'b>, AllocError> {
        let heap = self.rt.alloc();
        let request = Request {
            sender: 0,
            opcode: 0,
            message: Message::new(),
            body: &[],
        };
        let mark = Mark::new();
        let places = plan.places;
        Ok(Memory {
            requests: vec![in heap; request; places.saturating_mul(plan.requests)]?,
            waiting: vec![in heap; mark; places]?,
            events: vec![in heap; Event::new(0, 0); places.saturating_mul(plan.events)]?,
            taken: vec![in heap; mark; places]?,
            broken: vec![in heap; false; places]?,
        })
    }
}

// What a queue wire borrows. `measure` has the like, in arrays of its own sizes: a crate for the two would be longer than both.
#[derive(Drop)]
struct Memory<'b> {
    requests: Vec<Request<'b>>,
    waiting: Vec<Mark>,
    events: Vec<Event>,
    taken: Vec<Mark>,
    broken: Vec<bool>,
}

impl<'b> Memory<'b> {
    fn wire(&mut self) -> QueueWire<'_, 'b> {
        QueueWire::new(Lent {
            requests: &mut self.requests,
            waiting: &mut self.waiting,
            events: &mut self.events,
            taken: &mut self.taken,
            broken: &mut self.broken,
        })
    }
}
