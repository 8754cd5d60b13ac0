//! Woven code is well typed, and at most its weight long: laws, and no code that does work.

ghost use Rattle.kilim_weave_laws.specs.woven_types.Theorem.{WovenIsTyped};

/// A law, and no work: woven code is well typed, and at most its weight long.
pub fn woven_is_typed()
    ensures { WovenIsTyped }
{}
