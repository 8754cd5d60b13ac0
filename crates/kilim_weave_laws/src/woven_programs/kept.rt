//! Woven programs keep what every program keeps: laws, and no code that does work.

ghost use Rattle.kilim_weave_laws.specs.woven_programs.kept.Law.{WovenIsKept};

/// A law, and no work: the woven form of a kept, well-typed program is kept and well typed.
pub fn woven_is_kept()
    ensures { WovenIsKept }
{}
