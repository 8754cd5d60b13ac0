//! What the classes and members of a woven program keep: laws, and no code that does work.

ghost use Rattle.kilim_weave_laws.specs.woven_programs.classes.Law.{WovenClassesKeep};

/// A law, and no work: the built-in classes with `kilim/Fiber` come last, members are those of their classes, and names differ.
pub fn woven_classes_keep()
    ensures { WovenClassesKeep }
{}
