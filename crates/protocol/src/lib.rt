//! The vocabulary of the protocol: kinds of arguments, messages, interfaces, and catalogues of them.
//!
//! An interface is named by the number of its row in a catalogue. What a catalogue means is a list of rows; the
//! definitions stand in `specs/`, and every contract here is an equation with one of them.

#![tactic(auto)]

pub mod argument;
pub mod catalogue;
pub mod core_interfaces;
pub mod filled;
pub mod fills;
pub mod interface;
mod laws;
pub mod refusal;
