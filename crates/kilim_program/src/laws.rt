//! Laws about the definitions. No program calls them to do work.

ghost use Rattle.kilim_program.specs.Broken.{FactsAreBroken};
ghost use Rattle.kilim_program.specs.Examples.{BuiltInKeeps};

/// A law, and no work: the built-in classes alone are a program, in both forms.
pub fn built_in_keeps()
    ensures { BuiltInKeeps }
{}

/// A law, and no work: how long instructions are at the edges of their forms, and programs that break a fact.
pub fn facts_are_broken()
    ensures { FactsAreBroken }
{}
