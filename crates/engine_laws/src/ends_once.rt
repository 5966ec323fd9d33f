//! Ends: each is told once.

ghost use Rattle.engine_laws.specs.EndsOnce.{EndsAreToldOnce};

/// An end is told exactly once, and its handle is dead after it.
pub fn ends_are_told_once()
    ensures { EndsAreToldOnce }
{}
