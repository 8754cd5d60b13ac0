//! Methods without pausable calls, and which instructions count.

ghost use Rattle.std.specs.Prelude.{◌≡◌, suc, if◌then◌else◌, IfOk};
ghost use Rattle.kilim_program.specs.Same.{argument_slots};
ghost use Rattle.kilim_type_spec.specs.Typed.{has_code};
ghost use Rattle.kilim_weave_spec.specs.Form.{all_counted, has_calls, only_with_fiber};
ghost use Rattle.kilim_weave_spec.specs.Woven as form;

use crate::copy::with_head;
use crate::method::{head_with, number_of};
use crate::slots::{argument_slots, fiber_slot};
use kilim_program::{Method, Program};
use kilim_units::{NoMemory, Seq};
use kilim_weave_code::calls_in;
use std::alloc::Global;

/// All instructions of a method count.
pub fn all_counted(alloc: Global, method: &Method) -> Result<Seq<bool>, NoMemory>
    ensures { IfOk result (λ v. v ≡ all_counted method.now) }
{
    let mut all = Seq::new(alloc);
    let count = method.code.len();
    for _ in 0..count {
        let Ok(()) = all.push(true) else {
            return Err(NoMemory);
        };
    }
    Ok(all)
}

/// Whether a method has pausable calls. Want of memory comes only where there are 2^32 or more.
pub fn has_calls(program: &Program, method: &Method) -> Result<bool, NoMemory>
    ensures { IfOk result (λ b. b ≡ has_calls program.now method.now) }
{
    let code = method.code.as_slice();
    let calls = calls_in(program, code)?;
    Ok(0 < calls)
}

// The local slots of a method with the fiber as one argument more.
fn locals_of(method: &Method) -> Result<u16, NoMemory>
    ensures { IfOk result (λ n. n ≡ (if has_code method.now then form.larger method.now.max_locals (suc (argument_slots method.now)) else method.now.max_locals)) }
{
    if method.code.is_empty() {
        return Ok(method.max_locals);
    }
    let arguments = argument_slots(method)?;
    fiber_slot(method, arguments)
}

/// A pausable method without pausable calls: it has the fiber as one argument more.
pub fn extended(alloc: Global, program: &Program, method: &Method) -> Result<Method, NoMemory>
    ensures { IfOk result (λ w. w ≡ only_with_fiber program.now method.now) }
{
    let Ok(class) = number_of(program.classes.len()) else {
        return Err(NoMemory);
    };
    let Ok(locals) = locals_of(method) else {
        return Err(NoMemory);
    };
    let Ok(head) = head_with(method, class) else {
        return Err(NoMemory);
    };
    let Ok(mut woven) = with_head(alloc, method, head) else {
        return Err(NoMemory);
    };
    woven.max_locals = locals;
    Ok(woven)
}
