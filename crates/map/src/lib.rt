//! The objects of one client, by id, for any kind of data, and the names by which the server holds on to an object.

#![tactic(auto)]

ghost use Rattle.std.specs.Prelude.{◌≡◌};
ghost use Rattle.map.specs.Map.{data_after, data_answer, empty_map, find_in, insert_answer, inserted, new_after, new_answer, next_after, next_server, put_at, removed};

use places::Table;

mod fault;
mod named;

pub use fault::{InvalidId, MapFault};

/// The first id of the server's half: lower ids are the client's to give out.
pub const SERVER_ID_LIMIT: u32 = 0xFF00_0000;

/// How many places the client's half has.
pub const CLIENT_PLACES: usize = 64;

/// How many places the server's half has.
pub const SERVER_PLACES: usize = 32;

/// What is kept with an object.
#[derive(Clone, Copy, PartialEq, Eq, Debug)]
pub enum DataMark {
    /// the engine's own object, with no data of the server's
    Own,
    /// the server has not given its data yet
    Awaited,
    /// the server's number
    Number(u32),
}

/// What an engine keeps with each object: the serial tells apart the objects that had one id at different times.
#[derive(Clone, Copy, PartialEq, Eq, Debug)]
pub struct ObjectData {
    pub serial: u32,
    pub mark: DataMark,
}

/// A live object.
#[derive(Clone, Copy, PartialEq, Eq, Debug)]
pub struct Object<D> {
    /// the catalogue row of its interface
    pub row: u32,
    pub version: u32,
    pub data: D,
}

/// What names an object within its client: all three parts must agree, so that a name outlived by its id names nothing.
#[derive(Clone, Copy, PartialEq, Eq, Debug)]
pub struct LocalId {
    pub id: u32,
    pub serial: u32,
    /// the catalogue row of the interface
    pub row: u32,
}

/// The objects of one client. The id 0 is null; the other ids below the limit have the client's places, from 1 on,
/// and the rest the server's.
#[derive(Drop)]
pub struct ObjectMap<D> {
    client_objects: Table<Object<D>, CLIENT_PLACES>,
    server_objects: Table<Object<D>, SERVER_PLACES>,
}

impl<D: Copy> ObjectMap<D> {
    /// A map with no objects, where no id was ever used.
    pub fn new() -> Self
        ensures { result ≡ empty_map }
    {
        ObjectMap {
            client_objects: Table::new(),
            server_objects: Table::new(),
        }
    }

    /// The object that an id names.
    pub fn find(&self, id: u32) -> Option<Object<D>>
        ensures { result ≡ find_in self.now id }
    {
        if id == 0 {
            None
        } else if id < SERVER_ID_LIMIT {
            self.client_objects.get((id - 1) as usize).copied()
        } else {
            self.server_objects
                .get((id - SERVER_ID_LIMIT) as usize)
                .copied()
        }
    }

    /// Ends the object that an id names, if there is one.
    pub fn remove(&mut self, id: u32)
        ensures { self.new ≡ removed self.old id }
    {
        self.put(id, None);
    }

    /// Sets the data of the object that an id names.
    pub fn set_data(&mut self, id: u32, data: D) -> Result<(), InvalidId>
        ensures answer { result ≡ data_answer self.old id }
        ensures after { self.new ≡ data_after self.old id «data» }
    {
        let object = self.find(id).ok_or(InvalidId)?;
        self.put(id, Some(Object { data, ..object }));
        Ok(())
    }

    // Changes or vacates the place of an id that names an object.
    fn put(&mut self, id: u32, place: Option<Object<D>>)
        ensures { self.new ≡ put_at self.old id place }
    {
        if id == 0 {
            return;
        }
        if id < SERVER_ID_LIMIT {
            self.client_objects.replace((id - 1) as usize, place);
        } else {
            self.server_objects
                .replace((id - SERVER_ID_LIMIT) as usize, place);
        }
    }

    /// Enters an object at an id, or leaves the map as it was.
    pub fn insert_at(&mut self, id: u32, object: Object<D>) -> Result<(), MapFault>
        ensures answer { result ≡ insert_answer self.old id }
        ensures after { self.new ≡ inserted self.old id object }
    {
        if id == 0 {
            return Err(MapFault::Zero);
        }
        if id < SERVER_ID_LIMIT {
            self.client_objects.enter_at((id - 1) as usize, object)?;
        } else {
            self.server_objects
                .enter_at((id - SERVER_ID_LIMIT) as usize, object)?;
        }
        Ok(())
    }

    /// Enters an object at the lowest vacant place of the server's half, and answers its id; or leaves the map as it
    /// was, where that half is full.
    pub fn server_insert_new(&mut self, object: Object<D>) -> Option<u32>
        ensures answer { result ≡ new_answer self.old }
        ensures after { self.new ≡ new_after self.old object }
    {
        let index = self.server_objects.enter_new(object)?;
        Some(index as u32 + SERVER_ID_LIMIT)
    }

    /// The lowest live id above a given one.
    pub fn next(&self, id: u32) -> Option<u32>
        ensures { result ≡ next_after self.now id }
    {
        if id >= SERVER_ID_LIMIT {
            return self.next_server((id - SERVER_ID_LIMIT) as usize + 1);
        }
        match self.client_objects.next(id as usize) {
            Some(index) => Some(index as u32 + 1),
            None => self.next_server(0),
        }
    }

    // The lowest live id of the server's half whose place is at or above `from`.
    fn next_server(&self, from: usize) -> Option<u32>
        ensures { result ≡ next_server self.now from }
    {
        let place = self.server_objects.next(from)?;
        Some(place as u32 + SERVER_ID_LIMIT)
    }
}
