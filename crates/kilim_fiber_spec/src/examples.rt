//! A pause of the woven machine and its rewinding, computed: examples, and no code that does work.

ghost use Rattle.kilim_fiber_spec.specs.examples.Examples.{ExamplesHold};

/// A law, and no work: the examples of `specs/Examples.antt`.
pub fn examples_hold()
    ensures { ExamplesHold }
{}
