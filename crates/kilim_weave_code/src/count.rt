//! How many pausable calls there are.

ghost use Rattle.std.specs.Prelude.{◌≡◌, option_copied, IfOk};
ghost use Rattle.kilim_weave_spec.specs.Weight.{calls_in};
ghost use Rattle.kilim_weave_spec.specs.Woven as form;

use crate::frames::entry_at;
use kilim_program::{Instr, Method, Program};
use kilim_units::{NoMemory, no_room};
use kilim_weave_pieces::pausable_callee;

fn one_more(callee: Option<&Method>, count: u32) -> Result<u32, NoMemory>
    ensures { IfOk result (λ n. n ≡ form.count (option_copied callee.entry) count) }
{
    match callee {
        None => Ok(count),
        Some(_) => match count.checked_add(1) {
            Some(more) => Ok(more),
            // room: 2^32 calls in a method
            None => Err(no_room()),
        },
    }
}

/// The number of pausable calls in some code. Want of memory comes only where there are 2^32 or more.
pub fn calls_in(program: &Program, code: &[(u32, Instr)]) -> Result<u32, NoMemory>
    ensures { IfOk result (λ n. n ≡ calls_in program.now code.now) }
{
    let mut count = 0u32;
    for at in 0..code.len() {
        let entry = entry_at(code, at);
        let callee = pausable_callee(program, &entry.1);
        let Ok(more) = one_more(callee, count) else {
            return Err(NoMemory);
        };
        count = more;
    }
    Ok(count)
}
