//! Policies: which globals a client sees. An answer never changes within a session.

ghost use Rattle.std.specs.Prelude.{◌≡◌, ℕ, Bool, true};
ghost use Rattle.backend.specs.declared.ids.ClientId.{ClientId};
ghost use Rattle.backend.specs.declared.ids.GlobalId.{GlobalId};
ghost use Rattle.backend.specs.Policies.{paired};

use crate::ids::{ClientId, GlobalId};

/// A fixed answer for client, client data, global and handler.
pub trait Policy {
    ghost shows: { Self → ClientId → ℕ → GlobalId → ℕ → Bool };

    /// Whether the client sees the global.
    fn can_view(&self, client: ClientId, data: u32, global: GlobalId, handler: u32) -> bool
        ensures { result ≡ shows self.now client «data» global handler };
}

/// Every client sees every global.
#[derive(Clone, Copy)]
pub struct ShowAll;

impl Policy for ShowAll {
    ghost shows = { λ _ _ _ _ _. true };

    fn can_view(&self, _client: ClientId, _data: u32, _global: GlobalId, _handler: u32) -> bool {
        true
    }
}

/// A client with this data sees the globals with this handler.
#[derive(Clone, Copy, PartialEq, Eq, Debug)]
pub struct Pair {
    pub data: u32,
    pub handler: u32,
}

/// A client sees the globals whose handler is listed with its data.
#[derive(Clone, Copy)]
pub struct ShowListed<'a> {
    pub pairs: &'a [Pair],
}

impl Policy for ShowListed<'_> {
    ghost shows = { λ s _ d _ h. paired s.pairs.now d h };

    fn can_view(&self, _client: ClientId, data: u32, _global: GlobalId, handler: u32) -> bool {
        self.pairs.contains(&Pair { data, handler })
    }
}
