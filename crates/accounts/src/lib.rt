//! Theorems over what the engine's calls mean. A function here has a theorem for its contract and does nothing: a theorem is asked
//! for only where a contract names it.

#![tactic(auto)]

pub mod whole;

ghost use Rattle.accounts.specs.Whole.{AllTied};

/// What a call is said to have done is what its answer and the lines show.
pub fn deeds_are_shown()
    ensures { AllTied }
{}
