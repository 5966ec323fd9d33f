//! Objects by name: a look-up that asks for the serial and the interface row along with the id.

ghost use Rattle.std.specs.Prelude.{◌≡◌};
ghost use Rattle.map.specs.Named.{lookup_in, mark_after, mark_answer};

use super::{DataMark, InvalidId, LocalId, Object, ObjectData, ObjectMap};

impl ObjectMap<ObjectData> {
    /// The object that a name names: the id is live, under that serial and that interface row.
    pub fn lookup(&self, name: LocalId) -> Result<Object<ObjectData>, InvalidId>
        ensures { result ≡ lookup_in self.now name }
    {
        self.find(name.id)
            .filter(|found| found.data.serial == name.serial && found.row == name.row)
            .ok_or(InvalidId)
    }

    /// Sets the mark of the object that a name names, and keeps its serial, row and version.
    pub fn set_mark(&mut self, name: LocalId, mark: DataMark) -> Result<(), InvalidId>
        ensures answer { result ≡ mark_answer self.old name }
        ensures after { self.new ≡ mark_after self.old name mark }
    {
        let object = self.lookup(name)?;
        let data = ObjectData {
            mark,
            ..object.data
        };
        self.put(name.id, Some(Object { data, ..object }));
        Ok(())
    }
}
