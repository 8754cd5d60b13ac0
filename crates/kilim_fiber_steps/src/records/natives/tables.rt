//! What is told by names, in tables by numbers.

ghost use Rattle.std.specs.Prelude.{◌≡◌, Some, IfOk, IfSome, slice_get};
ghost use Rattle.kilim_fiber_steps.specs.records.natives.Tables.{AreExecutes, AreNatives};

use crate::records::natives::executes::execute_of;
use crate::records::natives::{Native, native_of};
use kilim_program::{ClassId, MethodId, Program};
use kilim_units::NoMemory;
use std::alloc::Global;

/// Which built-in method each method is, where it is one that is handed out.
pub fn native_table(alloc: Global, program: &Program) -> Result<Vec<Option<Native>>, NoMemory>
    ensures { IfOk result (λ table. AreNatives program.now table.items) }
{
    let mut table = Vec::new(alloc);
    for at in 0..program.methods.len() {
        let Ok(number) = u32::try_from(at) else {
            return Ok(table);
        };
        let native = native_of(program, MethodId(number));
        let Ok(()) = table.push(native) else {
            return Err(NoMemory);
        };
    }
    Ok(table)
}

/// The built-in method that a method is, where the table has one.
#[inline(always)]
pub fn native_at(table: &[Option<Native>], method: MethodId) -> Option<Native>
    ensures { IfSome result (λ native. slice_get table.now method.0 ≡ Some (Some native)) }
{
    let at = method.0 as usize;
    if at < table.len() { table[at] } else { None }
}

/// The method `execute` that the objects of each class have.
pub fn execute_table(alloc: Global, program: &Program) -> Result<Vec<Option<MethodId>>, NoMemory>
    ensures { IfOk result (λ table. AreExecutes program.now table.items) }
{
    let mut table = Vec::new(alloc);
    for at in 0..program.classes.len() {
        let Ok(number) = u32::try_from(at) else {
            return Ok(table);
        };
        let method = execute_of(program, ClassId(number));
        let Ok(()) = table.push(method) else {
            return Err(NoMemory);
        };
    }
    Ok(table)
}

/// The method `execute` of a class's objects, where the table has one.
pub fn execute_at(table: &[Option<MethodId>], class: ClassId) -> Option<MethodId>
    ensures { IfSome result (λ method. slice_get table.now class.0 ≡ Some (Some method)) }
{
    let at = class.0 as usize;
    if at < table.len() { table[at] } else { None }
}
