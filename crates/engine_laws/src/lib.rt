//! Laws of what the engine's calls mean. A function here has a theorem for its contract and does nothing: a theorem is asked for only
//! where a contract names it. They stand apart from the definitions, so that a check of the engine's types does not prove them again.

#![tactic(auto)]

pub mod announced;
pub mod cases;
pub mod ends_once;
pub mod error_texts;
pub mod killed;
pub mod refused;
pub mod slips;
pub mod steps;
pub mod touched;
