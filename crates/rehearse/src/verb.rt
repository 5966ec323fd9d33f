//! The first words of calls.

use crate::command::Mistake;
use std::fmt;
use std::str::FromStr;

/// What a call does.
#[derive(Clone, Copy, Debug)]
pub enum Verb {
    Enter,
    Create,
    Find,
    Look,
    Set,
    Remove,
    Next,
    Catalogue,
    Fill,
    Row,
    Request,
    Event,
    Same,
    Admits,
    Wire,
    Put,
    Break,
    Head,
    Read,
    Write,
    Flush,
    Open,
    Events,
}

const VERBS: [(&str, Verb); 23] = [
    ("enter", Verb::Enter),
    ("create", Verb::Create),
    ("find", Verb::Find),
    ("look", Verb::Look),
    ("set", Verb::Set),
    ("remove", Verb::Remove),
    ("next", Verb::Next),
    ("catalogue", Verb::Catalogue),
    ("fill", Verb::Fill),
    ("row", Verb::Row),
    ("request", Verb::Request),
    ("event", Verb::Event),
    ("same", Verb::Same),
    ("admits", Verb::Admits),
    ("wire", Verb::Wire),
    ("put", Verb::Put),
    ("break", Verb::Break),
    ("head", Verb::Head),
    ("read", Verb::Read),
    ("write", Verb::Write),
    ("flush", Verb::Flush),
    ("open", Verb::Open),
    ("events", Verb::Events),
];

impl FromStr for Verb {
    type Err = Mistake;

    fn from_str(word: &str) -> Result<Verb, Mistake> {
        match VERBS.iter().find(|(name, _)| *name == word) {
            Some((_, verb)) => Ok(*verb),
            None => Err(Mistake::Verb),
        }
    }
}

/// What the call takes.
impl fmt::Display for Verb {
    fn fmt<W: fmt::Write>(&self, f: &mut fmt::Formatter<W>) -> fmt::Result {
        f.write_str(match self {
            Verb::Enter => "enter ID ROW VERSION DATA, where DATA is own, awaited or a number",
            Verb::Create => "create ROW VERSION DATA, where DATA is own, awaited or a number",
            Verb::Find => "find ID",
            Verb::Look => "look ID SERIAL ROW",
            Verb::Set => "set ID SERIAL ROW NUMBER",
            Verb::Remove => "remove ID",
            Verb::Next => "next ID",
            Verb::Catalogue => "catalogue ROWS",
            Verb::Fill => {
                "fill ROW NAME VERSION, and for each message request or event NAME SINCE plain|destructor CHILD KINDS, where CHILD is a row or -, and KINDS is - or a list with commas of int, uint, fixed, str, str?, object:ROW, object?:ROW, new_id, array and fd"
            }
            Verb::Row => "row ROW",
            Verb::Request => "request ROW OPCODE",
            Verb::Event => "event ROW OPCODE",
            Verb::Same => "same ROW ROW",
            Verb::Admits => "admits WANTED GIVEN",
            Verb::Wire => {
                "wire queue PLACES REQUESTS EVENTS or wire metered OWN PLACES REQUESTS EVENTS, with 1 to 64 places, and 0 to 256 cells of each kind"
            }
            Verb::Put => {
                "put PLACE SENDER OPCODE ARG.., with at most 8 of int:N, uint:N, fixed:N, str:TEXT, str, object:ID, new_id:ID, array:TEXT and fd:N"
            }
            Verb::Break => "break PLACE",
            Verb::Head => "head PLACE",
            Verb::Read => {
                "read PLACE KINDS, where KINDS is - or a list with commas of int, uint, fixed, str, str?, object, object?, new_id, array and fd"
            }
            Verb::Write => {
                "write PLACE SENDER OPCODE ARG.., with int:N, uint:N, fixed:N, str:TEXT, str, object:ID, new_id:ID, array:TEXT and fd:N"
            }
            Verb::Flush => "flush PLACE",
            Verb::Open => "open PLACE",
            Verb::Events => "events PLACE",
        })
    }
}
