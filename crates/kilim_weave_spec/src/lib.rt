//! The woven form of methods and programs, in which calls can pause: definitions, and no code that does work.
//!
//! `specs/Woven.antt` says how a method with pausable calls is woven, `specs/Form.antt` what the woven form of a program is,
//! `specs/Weight.antt` how long woven code may be. `specs/Samples.antt` and `specs/Examples.antt` have two small programs, woven.
#![tactic(auto)]

ghost use Rattle.kilim_weave_spec.specs.Examples.{ExamplesHold};

/// A law, and no work: the examples of `specs/Examples.antt`.
pub fn examples_hold()
    ensures { ExamplesHold }
{}
