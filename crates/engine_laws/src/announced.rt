//! Announcements.

ghost use Rattle.engine_laws.specs.Announced.{AnnouncementsGoByName, NewRegistryHearsGlobals, NewGlobalIsAnnounced, GoneGlobalIsRetracted};

/// The announcements of a table of globals are of exactly those that are enabled and shown, each once, by rising name.
pub fn announcements_go_by_name()
    ensures { AnnouncementsGoByName }
{}

/// A new registry is told of the globals that are enabled and shown to its client, each once, by rising name.
pub fn new_registry_hears_globals()
    ensures { NewRegistryHearsGlobals }
{}

/// A new global is announced to exactly the registries on the roll whose clients are not killed and are shown it.
pub fn new_global_is_announced()
    ensures { NewGlobalIsAnnounced }
{}

/// Exactly the registries on the roll whose clients are not killed hear, once, that a global is gone.
pub fn gone_global_is_retracted()
    ensures { GoneGlobalIsRetracted }
{}
