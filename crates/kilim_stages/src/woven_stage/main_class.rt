//! The main class of a woven program.

ghost use Rattle.std.specs.Prelude.{IfOk};
ghost use Rattle.kilim_stages.specs.woven_stage.Stage.{IsWithMain};

use crate::woven_stage::WovenProgram;
use kilim_program::ClassId;
use kilim_program::main_class::fit_main;
use kilim_units::NoMemory;

/// The program as it is, with its main class: the first class of that name, if it is fit to be one. It is None where there is no such class,
/// and the program is let go. The error is want of memory.
pub fn with_main(
    program: WovenProgram,
    name: &[u16],
) -> Result<Option<(WovenProgram, ClassId)>, NoMemory>
    ensures { IfOk result (IsWithMain program name.now) }
{
    match fit_main(&program.plain, name) {
        Ok(Some(main)) => Ok(Some((program, main))),
        Ok(None) => {
            drop(program);
            Ok(None)
        }
        Err(_) => {
            drop(program);
            Err(NoMemory)
        }
    }
}
