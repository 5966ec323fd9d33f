//! The engine's record.

use crate::client::ClientStore;
use crate::registry::Registry;
use crate::ticket::Outstanding;

/// All that the engine holds. What waits on a line, and what was written to it, is the wire's.
#[derive(Drop)]
pub struct Engine {
    pub store: ClientStore,
    pub registry: Registry,
    pub outstanding: Outstanding,
}
