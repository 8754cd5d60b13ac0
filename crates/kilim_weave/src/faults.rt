//! The first method that can't be woven.

ghost use Rattle.std.specs.Prelude.{◌≡◌, ◌<◌, ◌+◌, ◌*◌, ◌&&◌, nat_lt, Some, length, slice_get, IfOk};
ghost use Rattle.kilim_class_mutf8.specs.Spelling.{spelling};
ghost use Rattle.kilim_link_spec.specs.World.{method_descriptor};
ghost use Rattle.kilim_weave_spec.specs.Weight.{calls_in, switch_bytes, switches_bytes, weight};
ghost use Rattle.kilim_weave.specs.Faults.{fault_if, fault_of, fault_of_method, first_fault, is_full, weave_fault};

use crate::fault::WeaveFault;
use kilim_class_mutf8::write;
use kilim_program::lookups::method_at;
use kilim_program::{Class, Instr, Method, MethodId, Program};
use kilim_reports::method_descriptor;
use kilim_units::{NoMemory, no_room};
use kilim_weave_code::calls_in;
use kilim_weave_method::argument_slots;
use std::alloc::Global;

/// The greatest weight of a method with pausable calls.
const MOST_WEIGHT: u64 = 32_767;

/// The most argument slots of a pausable method.
const MOST_SLOTS: u16 = 254;

/// The most bytes of a pausable method's descriptor: the fiber's text has 13.
const MOST_BYTES: usize = 65_522;

// ---- the weight of a method

// A sum that is no u64, which no method has, would be answered as want of memory.
fn plus(a: u64, b: u64) -> Result<u64, NoMemory>
    ensures { IfOk result (λ n. n ≡ a + b) }
{
    match a.checked_add(b) {
        Some(n) => Ok(n),
        // room: a weight of 2^64
        None => Err(no_room()),
    }
}

fn times(a: u64, b: u64) -> Result<u64, NoMemory>
    ensures { IfOk result (λ n. n ≡ a * b) }
{
    match a.checked_mul(b) {
        Some(n) => Ok(n),
        // room: a weight of 2^64
        None => Err(no_room()),
    }
}

fn switch_bytes(instr: &Instr) -> u64
    ensures { result ≡ switch_bytes instr.now }
{
    match instr {
        Instr::Tableswitch(_, _, _) | Instr::Lookupswitch(_, _) => 3,
        _ => 0,
    }
}

fn switches_bytes(code: &[(u32, Instr)]) -> Result<u64, NoMemory>
    ensures { IfOk result (λ n. n ≡ switches_bytes code.now) }
{
    let mut sum = 0;
    for entry in code {
        sum = plus(sum, switch_bytes(&entry.1))?;
    }
    Ok(sum)
}

// The greatest length of a method's woven code.
fn weight(method: &Method, calls: u32) -> Result<u64, NoMemory>
    ensures { IfOk result (λ n. n ≡ method.now.code_length + (64 + (switches_bytes method.now.code + calls * (56 + 28 * (method.now.max_locals + method.now.max_stack))))) }
{
    let words = u64::from(method.max_locals) + u64::from(method.max_stack);
    let Ok(groups) = times(u64::from(calls), 56 + 28 * words) else {
        return Err(NoMemory);
    };
    let Ok(switches) = switches_bytes(method.code.as_slice()) else {
        return Err(NoMemory);
    };
    let Ok(rest) = plus(switches, groups) else {
        return Err(NoMemory);
    };
    let Ok(added) = plus(64, rest) else {
        return Err(NoMemory);
    };
    plus(u64::from(method.code_length), added)
}

// ---- the faults of a method

fn descriptor_length(alloc: Global, program: &Program, method: &Method) -> Result<usize, NoMemory>
    ensures { IfOk result (λ n. n ≡ length (spelling (method_descriptor program.now method.now))) }
{
    let Ok(text) = method_descriptor(alloc, program, method) else {
        return Err(NoMemory);
    };
    let mut bytes = Vec::new(alloc);
    let Ok(()) = write(&text, &mut bytes) else {
        return Err(NoMemory);
    };
    Ok(bytes.len())
}

// Whether the fiber has no place behind the arguments of a method.
fn is_full(alloc: Global, program: &Program, method: &Method) -> Result<bool, NoMemory>
    ensures { IfOk result (λ b. b ≡ is_full program.now method.now) }
{
    if !method.pausable {
        return Ok(false);
    }
    let Ok(slots) = argument_slots(method) else {
        return Err(NoMemory);
    };
    if MOST_SLOTS < slots {
        return Ok(true);
    }
    let Ok(bytes) = descriptor_length(alloc, program, method) else {
        return Err(NoMemory);
    };
    Ok(MOST_BYTES < bytes)
}

fn is_too_long(calls: u32, weight: u64) -> bool
    ensures { result ≡ (nat_lt 0 calls && nat_lt 32767 weight) }
{
    0 < calls && MOST_WEIGHT < weight
}

fn fault_if(is_too_long: bool, is_full: bool, id: MethodId, weight: u64) -> Option<WeaveFault>
    ensures { result ≡ fault_if is_too_long is_full id weight }
{
    if is_too_long {
        return Some(WeaveFault::TooLong(id, weight));
    }
    if is_full {
        return Some(WeaveFault::ArgumentsFull(id));
    }
    None
}

fn fault_of_method(
    alloc: Global,
    program: &Program,
    id: MethodId,
    method: &Method,
) -> Result<Option<WeaveFault>, NoMemory>
    ensures { IfOk result (λ o. o ≡ fault_of_method program.now id method.now) }
{
    let Ok(calls) = calls_in(program, method.code.as_slice()) else {
        return Err(NoMemory);
    };
    let Ok(weight) = weight(method, calls) else {
        return Err(NoMemory);
    };
    let too_long = is_too_long(calls, weight);
    let Ok(full) = is_full(alloc, program, method) else {
        return Err(NoMemory);
    };
    let fault = fault_if(too_long, full, id, weight);
    Ok(fault)
}

fn fault_of(alloc: Global, program: &Program, id: MethodId) -> Result<Option<WeaveFault>, NoMemory>
    ensures { IfOk result (λ o. o ≡ fault_of program.now id) }
{
    match method_at(program, id) {
        Some(method) => fault_of_method(alloc, program, id, method),
        None => Ok(None),
    }
}

// ---- the first of a program

fn id_at(ids: &[MethodId], at: usize) -> MethodId
    requires { at < length ids.now }
    ensures { slice_get ids.now at ≡ Some result }
{
    ids[at]
}

fn first_of(
    alloc: Global,
    program: &Program,
    ids: &[MethodId],
) -> Result<Option<WeaveFault>, NoMemory>
    ensures { IfOk result (λ o. o ≡ first_fault program.now ids.now) }
{
    for at in 0..ids.len() {
        let id = id_at(ids, at);
        match fault_of(alloc, program, id) {
            Ok(Some(found)) => return Ok(Some(found)),
            Ok(None) => {}
            Err(fault) => return Err(fault),
        }
    }
    Ok(None)
}

fn count_of(program: &Program) -> usize
    ensures { result ≡ length program.now.classes }
{
    program.classes.len()
}

fn class_at(program: &Program, at: usize) -> &Class
    requires { at < length program.now.classes }
    ensures { slice_get program.now.classes at ≡ Some result.now }
{
    program.classes.get(at)
}

// The first of a class.
fn first_in(alloc: Global, program: &Program, class: &Class) -> Result<Option<WeaveFault>, NoMemory>
    ensures { IfOk result (λ o. o ≡ first_fault program.now class.now.methods) }
{
    first_of(alloc, program, class.methods.as_slice())
}

/// The fault of the first method that can't be woven, by class and then by number: of both the lower.
pub fn weave_fault(alloc: Global, program: &Program) -> Result<Option<WeaveFault>, NoMemory>
    ensures { IfOk result (λ o. o ≡ weave_fault program.now) }
{
    let count = count_of(program);
    for at in 0..count {
        let class = class_at(program, at);
        match first_in(alloc, program, class) {
            Ok(Some(found)) => return Ok(Some(found)),
            Ok(None) => {}
            Err(fault) => return Err(fault),
        }
    }
    Ok(None)
}
