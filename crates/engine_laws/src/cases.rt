//! Nine worked cases of what a step does, each at a client that was just admitted.

ghost use Rattle.engine_laws.specs.Cases.{CasesStand};

/// The worked cases stand, all of the same definitions.
pub fn cases_stand()
    ensures { CasesStand }
{}
