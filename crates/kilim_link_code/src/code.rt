//! Code, linked.

ghost use Rattle.std.specs.Prelude.{◌≡◌, IfOk};
ghost use Rattle.kilim_link_spec.specs.Types.{each_of};
ghost use Rattle.kilim_link_spec.specs.Code.{placed_in};

use crate::instr::instr_in;
use kilim_class_code::opcodes::RawInstr;
use kilim_class_pool::Pool;
use kilim_link_world::World;
use kilim_program::Instr;
use kilim_units::{NoMemory, Seq};
use std::alloc::Global;

// An instruction with its place.
fn placed_in(
    alloc: Global,
    world: &World,
    pool: &Pool,
    placed: &(u32, RawInstr),
) -> Result<Option<(u32, Instr)>, NoMemory>
    ensures { IfOk result (λ found. found ≡ placed_in world.now pool.now placed.now) }
{
    match instr_in(alloc, world, pool, &placed.1) {
        Ok(Some(instr)) => Ok(Some((placed.0, instr))),
        Ok(None) => Ok(None),
        Err(fault) => Err(fault),
    }
}

/// The instructions of code in a program, each with its place in bytes; none where one of them isn't there, as
/// `instr_in` answers it (JVMS 4.7.3).
pub fn code_of(
    alloc: Global,
    world: &World,
    pool: &Pool,
    code: &[(u32, RawInstr)],
) -> Result<Option<Seq<(u32, Instr)>>, NoMemory>
    ensures { IfOk result (λ found. found ≡ each_of (placed_in world.now pool.now) code.now) }
{
    let mut instrs = Seq::new(alloc);
    for placed in code {
        match placed_in(alloc, world, pool, placed) {
            Ok(Some(instr)) => {
                let Ok(()) = instrs.push(instr) else {
                    return Err(NoMemory);
                };
            }
            Ok(None) => return Ok(None),
            Err(fault) => return Err(fault),
        }
    }
    Ok(Some(instrs))
}
