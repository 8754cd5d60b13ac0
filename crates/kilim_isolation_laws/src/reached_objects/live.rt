//! Live locals on the paths of accepted methods: laws about definitions, which no program calls to do work.

ghost use Rattle.kilim_isolation_laws.specs.reached_objects.live.Laws.{LiveBelowIsThere, LiveIsThere, NamedIsNoNumber};

/// A law, and no work: on each path of an accepted method a live local has a type, and what it names wasn't given away and can't
/// have moved.
pub fn live_is_there()
    ensures { LiveIsThere }
{}

/// A law, and no work: on each path of an accepted method a local that names a node is typed neither int nor long.
pub fn named_is_no_number()
    ensures { NamedIsNoNumber }
{}

/// A law, and no work: what is live at a handler is there where an instruction of its range raises.
pub fn live_below_is_there()
    ensures { LiveBelowIsThere }
{}
