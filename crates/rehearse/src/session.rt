//! A session: one client's objects and a catalogue, call by call.

use crate::command::{Command, NewObject, View};
use crate::texts::{Mark, Refused, said};
use crate::views;
use map::{DataMark, LocalId, MapFault, Object, ObjectData, ObjectMap};
use protocol::catalogue::Core;
use protocol::filled::Filled;
use protocol::fills::CatalogueError;
use protocol::interface::InterfaceBuf;
use std::alloc::{AllocError, Global};
use std::fmt;

/// The state between two calls. Until a catalogue is made, rows are those of the core.
#[derive(Drop)]
pub struct Session {
    heap: Global,
    objects: ObjectMap<ObjectData>,
    last_serial: u32,
    catalogue: Option<Filled>,
}

impl Session {
    pub fn new(heap: Global) -> Session {
        Session {
            heap,
            objects: ObjectMap::new(),
            last_serial: 0,
            catalogue: None,
        }
    }

    /// Makes a call and says what came of it.
    pub fn perform(&mut self, command: Command) -> Result<String, AllocError> {
        match command {
            Command::Enter(id, object) => self.enter(id, object),
            Command::Create(object) => self.create(object),
            Command::Find(id) => said(
                self.heap,
                self.objects
                    .find(id)
                    .map(|object| Live { id, object })
                    .ok_or("none"),
            ),
            Command::Look(name) => self.look(name),
            Command::Set(name, number) => self.set(name, number),
            Command::Remove(id) => self.remove(id),
            Command::Next(id) => said(self.heap, self.objects.next(id).ok_or("none")),
            Command::Catalogue(rows) => self.make(rows),
            Command::Fill(number, row) => self.fill(number, row),
        }
    }

    /// What the catalogue that was made says, or else the core.
    pub fn view(&self, view: View) -> Result<String, AllocError> {
        match &self.catalogue {
            Some(made) => views::view(self.heap, made, view),
            None => views::view(self.heap, &Core {}, view),
        }
    }

    // Every entry that is tried takes a serial, as in the engine.
    fn next_serial(&mut self) -> u32 {
        self.last_serial = self.last_serial.wrapping_add(1);
        self.last_serial
    }

    fn enter(&mut self, id: u32, object: NewObject) -> Result<String, AllocError> {
        let serial = self.next_serial();
        match self.objects.insert_at(id, with_serial(object, serial)) {
            Ok(()) => format!(in self.heap; "entered {id} serial {serial}"),
            Err(fault) => format!(in self.heap; "not entered: {fault}"),
        }
    }

    fn create(&mut self, object: NewObject) -> Result<String, AllocError> {
        let serial = self.next_serial();
        match self.objects.server_insert_new(with_serial(object, serial)) {
            Some(id) => format!(in self.heap; "entered {id} serial {serial}"),
            None => format!(in self.heap; "not entered: {}", MapFault::Full),
        }
    }

    fn look(&self, name: LocalId) -> Result<String, AllocError> {
        let id = name.id;
        let found = self.objects.lookup(name);
        said(self.heap, found.map(|object| Live { id, object }))
    }

    fn set(&mut self, name: LocalId, number: u32) -> Result<String, AllocError> {
        let outcome = self.objects.set_mark(name, DataMark::Number(number));
        said(self.heap, outcome.map(|()| "set"))
    }

    fn remove(&mut self, id: u32) -> Result<String, AllocError> {
        let there = self.objects.find(id).is_some();
        self.objects.remove(id);
        if there {
            format!(in self.heap; "removed {id}")
        } else {
            String::from_str(self.heap, "none")
        }
    }

    fn make(&mut self, rows: u32) -> Result<String, AllocError> {
        match Filled::new(self.heap, rows) {
            Ok(made) => {
                self.catalogue = Some(made);
                format!(in self.heap; "catalogue of {rows} rows")
            }
            Err(CatalogueError::Refused(refusal)) => Refused(refusal).to_string(self.heap),
            Err(CatalogueError::NoMemory) => Err(AllocError),
        }
    }

    fn fill(&mut self, number: u32, row: InterfaceBuf) -> Result<String, AllocError> {
        let Some(catalogue) = &mut self.catalogue else {
            return String::from_str(self.heap, "no catalogue was made");
        };
        match catalogue.fill(number, row) {
            Ok(()) => format!(in self.heap; "filled {number}"),
            Err(refusal) => Refused(refusal).to_string(self.heap),
        }
    }
}

// A live object under its id.
#[derive(Clone, Copy)]
struct Live {
    id: u32,
    object: Object<ObjectData>,
}

impl fmt::Display for Live {
    fn fmt<W: fmt::Write>(&self, f: &mut fmt::Formatter<W>) -> fmt::Result {
        let id = self.id;
        let Object { row, version, data } = self.object;
        let serial = data.serial;
        let mark = Mark(data.mark);
        write!(
            f,
            "object {id} row {row} version {version} serial {serial} data {mark}"
        )
    }
}

fn with_serial(object: NewObject, serial: u32) -> Object<ObjectData> {
    Object {
        row: object.row,
        version: object.version,
        data: ObjectData {
            serial,
            mark: object.data,
        },
    }
}
