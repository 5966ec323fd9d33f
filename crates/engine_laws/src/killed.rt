//! Killed clients.

ghost use Rattle.engine_laws.specs.Killed.{KilledHearOnlyDeleteId, KilledStayKilled};

/// A client that is killed is told of numbers that may be used again, and of nothing else.
pub fn killed_clients_hear_only_delete_id()
    ensures { KilledHearOnlyDeleteId }
{}

/// A client that is killed stays killed for as long as it is there.
pub fn killed_clients_stay_killed()
    ensures { KilledStayKilled }
{}
