//! A refused call changes nothing.

ghost use Rattle.engine_laws.specs.Refused.{RefusalsChangeNothing};

/// A refusal leaves the engine, every line and the buffers of a step as they were.
pub fn refusals_change_nothing()
    ensures { RefusalsChangeNothing }
{}
