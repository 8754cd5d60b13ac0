//! Calls of methods that pause.

ghost use Rattle.std.specs.Prelude.{◌≡◌, option_copied};
ghost use Rattle.kilim_weave_file_spec.specs.Raw.{is_pausable_call, pauses};

use kilim_program::lookups::method_at;
use kilim_program::{Instr, Method, Program};

fn pauses(method: Option<&Method>) -> bool
    ensures { result ≡ pauses (option_copied method.entry) }
{
    match method {
        None => false,
        Some(found) => found.pausable,
    }
}

/// Whether an instruction calls a method that pauses.
pub fn is_pausable_call(program: &Program, instr: &Instr) -> bool
    ensures { result ≡ is_pausable_call program.now instr.now }
{
    match instr {
        Instr::Invokevirtual(id) | Instr::Invokespecial(id) | Instr::Invokestatic(id) => {
            pauses(method_at(program, *id))
        }
        _ => false,
    }
}
