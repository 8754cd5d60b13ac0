//! What it means that a program is well typed: definitions, and no code that does work (JVMS 4.10.1).
//!
//! `specs/Step.antt` says what an instruction makes of the types of locals and stack, `specs/Typed.antt` which methods and programs are
//! well typed and what the frame at each place is, `specs/Faults.antt` which type fault comes first, `specs/Paths.antt` where
//! control goes.
#![tactic(auto)]

mod flows;
mod shared;
mod typed;
mod verified;

ghost use Rattle.kilim_type_spec.specs.Examples.{ExamplesHold};
ghost use Rattle.kilim_type_spec.specs.Laws.{NoFaultIsWellTyped};

pub use flows::assignable;
pub use kilim_program::{Frame, VType};
pub use typed::Typed;
pub use verified::VerifiedFrame;

/// A law, and no work: the examples of `specs/Examples.antt`.
pub fn examples_hold()
    ensures { ExamplesHold }
{}

/// A law, and no work: a method without a type fault is well typed.
pub fn no_fault_is_well_typed()
    ensures { NoFaultIsWellTyped }
{}
