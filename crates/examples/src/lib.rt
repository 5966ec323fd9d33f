//! What the libraries do on examples. The tests stand in a crate of their own, since a crate with tests is proved twice.

#![tactic(auto)]

#[cfg(test)]
mod catalogue_examples;
#[cfg(test)]
mod core_examples;
#[cfg(test)]
mod map_examples;
#[cfg(test)]
mod queue_examples;
