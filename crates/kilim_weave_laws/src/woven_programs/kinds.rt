//! What the superclasses and kinds of a woven program keep: laws, and no code that does work.

ghost use Rattle.kilim_weave_laws.specs.woven_programs.kinds.Law.{WovenKindsKeep};

/// A law, and no work: no class is its own ancestor, none is a task and a message, and superclasses and fields fit their kinds.
pub fn woven_kinds_keep()
    ensures { WovenKindsKeep }
{}
