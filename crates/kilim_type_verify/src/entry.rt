//! The frame with which a method begins.

ghost use Rattle.std.specs.Prelude.{◌≡◌, nat_le, sum_by};
ghost use Rattle.kilim_program.specs.Same.{argument_slots, type_slots};
ghost use Rattle.kilim_type_spec.specs.Typed.{entry};
ghost use Rattle.kilim_type_spec.specs.Faults.{entry_rule};

use crate::flows::flows_to;
use crate::place::{fails_unless, lesser};
use kilim_program::{Method, Program, Ty};
use kilim_type_step::{State, size, vtype};

const NO_FLOW: u8 = 1;

const NO_LOCAL: u8 = 6;

// Whether parameters take at most so many slots.
#[tactic(auto, using(crate::proofs::Begins::slots_on, crate::proofs::Begins::slots_pass, crate::proofs::Begins::slots_end))]
fn params_fit(params: &[Ty], most: u16) -> bool
    ensures { result ≡ nat_le (sum_by type_slots params.now) most }
{
    let mut left = most;
    for ty in params {
        let taken = size(vtype(*ty));
        if taken > left {
            return false;
        }
        left -= taken;
    }
    true
}

#[tactic(auto, using(crate::proofs::Begins::no_this, crate::proofs::Begins::this_first, crate::proofs::Begins::no_slot))]
fn arguments_fit(method: &Method) -> bool
    ensures { result ≡ nat_le (argument_slots method.now) method.now.max_locals }
{
    if method.is_static {
        return params_fit(method.params.as_slice(), method.max_locals);
    }
    if method.max_locals == 0 {
        return false;
    }
    params_fit(method.params.as_slice(), method.max_locals - 1)
}

/// The least rule that fails at a method's first place, before its first instruction.
pub fn entry_rule(program: &Program, method: &Method, first: u32, begins: &State) -> Option<u8>
    requires { begins.now ≡ entry method.now }
    ensures { result ≡ entry_rule program.now method.now first }
{
    let flow = fails_unless(flows_to(program, method, begins, first), NO_FLOW);
    let slots = fails_unless(arguments_fit(method), NO_LOCAL);
    lesser(flow, slots)
}
