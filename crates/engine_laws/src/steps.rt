//! What a step does with the first request of its client's line.

ghost use Rattle.engine_laws.specs.Steps.{StepsAreNotIdle, SoundRequestsHandOut};

/// A step on a line with a request waiting is never idle.
pub fn steps_are_not_idle()
    ensures { StepsAreNotIdle }
{}

/// A request that breaks no rule gets a ticket, unless the engine answers it itself, and one ticket is outstanding at a time.
pub fn sound_requests_hand_out()
    ensures { SoundRequestsHandOut }
{}
