//! A code array to bytes.

ghost use Rattle.std.specs.Prelude.{◌≡◌, IfOk};
ghost use Rattle.kilim_class_code.specs.Code.{code_text};
ghost use Rattle.kilim_class_code.specs.Exact.{BodyFits};

use crate::body::Body;
use crate::opcodes::write_instr;
use kilim_units::NoMemory;
use std::alloc::Global;

/// The bytes of a code array, in time linear in their number. Each instruction has a text at its place and stands
/// behind the one before; targets are places, and control doesn't go on past the end.
#[tactic(auto, unfolding(crate::specs::Code::code_text))]
pub fn encode(alloc: Global, body: &Body) -> Result<Vec<u8>, NoMemory>
    requires { BodyFits body.now.code }
    ensures { IfOk result (λ bytes. bytes.items ≡ code_text body.now.code) }
{
    let mut bytes = Vec::new(alloc);
    for (at, instr) in body.code.as_slice() {
        let Ok(()) = write_instr(instr, *at as usize, &mut bytes) else {
            return Err(NoMemory);
        };
    }
    Ok(bytes)
}
