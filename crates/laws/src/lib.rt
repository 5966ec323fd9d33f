//! The laws of the object map, over its definitions. Each function here has a theorem for its contract and does nothing: a
//! theorem is asked for only where a contract names it. They stand apart from the map's code, so that a check of the code
//! does not prove them again.

#![tactic(auto)]

ghost use Rattle.laws.specs.Cases.{Cases};
ghost use Rattle.laws.specs.FindLaws.{FindLaws};
ghost use Rattle.laws.specs.LengthLaws.{LengthLaws};
ghost use Rattle.laws.specs.LookupLaws.{LookupLaws};
ghost use Rattle.laws.specs.NextLaws.{NextLaws};
ghost use Rattle.laws.specs.SizedLaws.{SizedLaws};

/// What is found after each operation, at the same and at another id.
pub fn find_laws<D>()
    ensures { FindLaws D }
{}

/// A name is good exactly while its id is live under its serial and row, and never again after the id is used anew.
pub fn lookup_laws()
    ensures { LookupLaws }
{}

/// `next` finds the live ids in rising order, each once, and passes none over.
pub fn next_laws<D>()
    ensures { NextLaws D }
{}

/// No operation makes a length fall.
pub fn lengths_never_fall<D>()
    ensures { LengthLaws D }
{}

/// A new map has its capacities and no used place above its lengths, and every operation keeps both.
pub fn sized<D>()
    ensures { SizedLaws D }
{}

/// The worked cases of an entry at an id stand.
pub fn cases_stand<D>()
    ensures { Cases D }
{}
