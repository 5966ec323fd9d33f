//! The engine behind the screen: its types, and in `specs/` what each of its eighteen calls means.
//!
//! The calls themselves are not written yet. What is here is what they will be made of: handles, the state of clients and of
//! the registry, tickets, answers and faults, and the policies that say which globals a client sees.

#![tactic(auto)]

pub mod answers;
pub mod client;
pub mod faults;
pub mod ids;
pub mod policy;
pub mod registry;
pub mod state;
pub mod ticket;
