//! What overriding methods of a woven program keep: laws, and no code that does work.

ghost use Rattle.kilim_weave_laws.specs.woven_programs.selects.Law.{WovenSelectsKeep};

/// A law, and no work: overriding methods agree with what they override, and no class that isn't abstract is left with an abstract method.
pub fn woven_selects_keep()
    ensures { WovenSelectsKeep }
{}
