//! The woven machine beside the unwoven thread: definitions, and no code that does work.
//!
//! The laws about them stand in the crates above.
#![tactic(auto)]

pub mod alike;
pub mod examples;
pub mod fiber_kin;
pub mod lone;

ghost use Rattle.kilim_fiber_spec.specs.Law.{EndsStay};

/// A law, and no work: what is over stays as it is.
pub fn ends_stay()
    ensures { EndsStay }
{}
