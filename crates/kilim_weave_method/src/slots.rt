//! Argument slots (JVMS 4.3.3).

ghost use Rattle.std.specs.Prelude.{◌≡◌, ◌<◌, ◌+◌, Some, suc, length, slice_get, sum_by, IfOk};
ghost use Rattle.kilim_program.specs.Same.{argument_slots, type_slots};
ghost use Rattle.kilim_weave_spec.specs.Woven.{fiber_slot, larger};

use kilim_program::{Base, Method, Ty};
use kilim_units::{NoMemory, no_room};

fn type_slots(ty: Ty) -> u16
    ensures { result ≡ type_slots ty }
{
    if ty.dims != 0 {
        return 1;
    }
    match ty.base {
        Base::Long => 2,
        Base::Class(_) | Base::Bool | Base::Byte | Base::Char | Base::Short | Base::Int => 1,
    }
}

fn type_at(types: &[Ty], at: usize) -> Ty
    requires { at < length types.now }
    ensures { slice_get types.now at ≡ Some result }
{
    types[at]
}

/// A sum. Want of memory comes only where it is 65,536 or more.
pub fn plus(a: u16, b: u16) -> Result<u16, NoMemory>
    ensures { IfOk result (λ n. n ≡ a + b) }
{
    match a.checked_add(b) {
        Some(sum) => Ok(sum),
        // room: 2^32 slots
        None => Err(no_room()),
    }
}

fn param_slots(params: &[Ty]) -> Result<u16, NoMemory>
    ensures { IfOk result (λ n. n ≡ sum_by type_slots params.now) }
{
    let mut sum = 0u16;
    for at in 0..params.len() {
        let ty = type_at(params, at);
        let slots = type_slots(ty);
        let more = plus(sum, slots)?;
        sum = more;
    }
    Ok(sum)
}

/// The argument slots of a method: a long takes two, `this` takes one. Want of memory comes only where they are 65,536 or more.
pub fn argument_slots(method: &Method) -> Result<u16, NoMemory>
    ensures { IfOk result (λ n. n ≡ argument_slots method.now) }
{
    let Ok(params) = param_slots(method.params.as_slice()) else {
        return Err(NoMemory);
    };
    let this: u16 = if method.is_static { 0 } else { 1 };
    let Ok(all) = plus(this, params) else {
        return Err(NoMemory);
    };
    Ok(all)
}

fn larger(a: u16, b: u16) -> u16
    ensures { result ≡ larger a b }
{
    if a < b { b } else { a }
}

/// The local of the fiber. Want of memory comes only where it is 65,536 or more.
pub fn fiber_slot(method: &Method, arguments: u16) -> Result<u16, NoMemory>
    requires { arguments ≡ argument_slots method.now }
    ensures { IfOk result (λ n. n ≡ fiber_slot method.now) }
{
    let behind = plus(arguments, 1)?;
    Ok(larger(method.max_locals, behind))
}
