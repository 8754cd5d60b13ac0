//! Types of slots.

ghost use Rattle.std.specs.Prelude.{◌≡◌};
ghost use Rattle.kilim_type_spec.specs.Step.{peek};

use kilim_program::VType;

#[tactic(auto, using(crate::proofs::Lists::peek_at, crate::proofs::Lists::peek_past))]
/// The type at a place of a list; Top past its end.
pub fn type_at(types: &[VType], at: usize) -> VType
    ensures { result ≡ peek types.now at }
{
    if at < types.len() {
        types[at]
    } else {
        VType::Top
    }
}
