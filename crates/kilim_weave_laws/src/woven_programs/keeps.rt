//! What the woven form of a program keeps of what every program keeps: laws, and no code that does work.

ghost use Rattle.kilim_weave_laws.specs.woven_programs.keeps.Law.{WovenMethodsKeep};

/// A law, and no work: the code of each woven method is whole.
pub fn woven_methods_keep()
    ensures { WovenMethodsKeep }
{}
