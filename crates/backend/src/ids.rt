//! Handles: what the server holds on to. Places and ids are used again, so every handle has a serial beside its number, and
//! names something only where all its parts agree.

ghost use Rattle.std.specs.Prelude.{◌≡◌};
ghost use Rattle.backend.specs.declared.ids.ClientId.{ClientId as Client};
ghost use Rattle.backend.specs.declared.ids.ObjectId.{ObjectId as Object};
ghost use Rattle.backend.specs.declared.ids.GlobalId.{GlobalId as Global};
ghost use Rattle.backend.specs.Ids.{local_of, same_client, same_object, same_global};

use map::LocalId;

/// A client: the place that it was given, and the serial of its admission.
#[derive(Clone, Copy, PartialEq, Eq, Debug)]
pub struct ClientId {
    pub place: u32,
    pub serial: u32,
}

/// An object of a client.
// The parts of a `LocalId`, written out: a handle's id, serial and row are read far more often than they are handed on together.
#[derive(Clone, Copy, PartialEq, Eq, Debug)]
pub struct ObjectId {
    pub client: ClientId,
    pub id: u32,
    pub serial: u32,
    /// the catalogue row of its interface
    pub row: u32,
}

/// A global: its name is its place + 1.
#[derive(Clone, Copy, PartialEq, Eq, Debug)]
pub struct GlobalId {
    pub name: u32,
    pub serial: u32,
}

impl ObjectId {
    /// What names the object within its client.
    pub fn local(self) -> LocalId
        ensures { result ≡ local_of self }
    {
        LocalId {
            id: self.id,
            serial: self.serial,
            row: self.row,
        }
    }
}

/// Two handles are equal exactly where all their parts agree: the laws stand.
pub fn handle_laws()
    ensures clients { (a b : Client) → ⟦<ClientId as PartialEq>⟧.eq a b ≡ same_client a b }
    ensures objects { (a b : Object) → ⟦<ObjectId as PartialEq>⟧.eq a b ≡ same_object a b }
    ensures globals { (a b : Global) → ⟦<GlobalId as PartialEq>⟧.eq a b ≡ same_global a b }
{}
