//! The whole-run theorem: after any list of calls, what was handed out and what is owed agree.

ghost use Rattle.accounts.specs.Told.{Telling};
ghost use Rattle.accounts.specs.Whole.{Whole, Promised};

/// After any list of up to 4,294,967,295 calls, objects, numbers and tickets agree.
pub fn accounts_agree()
    ensures { Whole }
{}

/// Whatever answers and leaves as a call's definition says keeps the accounts.
pub fn calls_keep_accounts()
    ensures { Promised }
{}

/// Histories that must not agree do not: the accounts say what they should.
pub fn accounts_tell()
    ensures { Telling }
{}
