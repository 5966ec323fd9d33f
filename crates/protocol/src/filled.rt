//! A catalogue that is filled row by row.

ghost use Rattle.std.specs.Prelude.{◌≡◌, ◌+◌, ◌≤◌, true, map, vec_len};
ghost use Rattle.protocol.specs.Model.{meant_buf};
ghost use Rattle.protocol.specs.RowTests.{may_stand};
ghost use Rattle.protocol.specs.Tallies.{all};

use crate::interface::InterfaceBuf;

/// The core, which is not stored, and up to 60 rows after it, each of which keeps the laws.
#[derive(Drop)]
pub struct Filled {
    pub(crate) later: Vec<InterfaceBuf>,
    ghost few: { vec_len later ≤ 60 },
    ghost sound: { all (may_stand (vec_len later + 4)) (map meant_buf later.items) ≡ true },
}
