//! The errors of steps that fail.

ghost use Rattle.engine_laws.specs.ErrorTexts.{TextsFit, FailuresAreTold};

/// The text of every fault of a step has at most 192 bytes, none of them zero.
pub fn texts_fit()
    ensures { TextsFit }
{}

/// The client is told the error of a step that fails, with that text, and is killed.
pub fn failures_are_told()
    ensures { FailuresAreTold }
{}
