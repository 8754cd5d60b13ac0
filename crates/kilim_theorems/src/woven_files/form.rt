//! The woven class file of a class file: definitions, and no code that does work.

ghost use Rattle.kilim_theorems.specs.woven_files.form.Examples.{ExamplesHold};

/// A law, and no work: the examples of `specs/Examples.antt`.
pub fn examples_hold()
    ensures { ExamplesHold }
{}
