//! Slips that an engine like this invites.

ghost use Rattle.engine_laws.specs.Slips.{SlipsAreRuledOut};

/// No settle ends an object by its id alone, a new id does not move on in the argument rows, and an end lowers no length.
pub fn slips_are_ruled_out()
    ensures { SlipsAreRuledOut }
{}
