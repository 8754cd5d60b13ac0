//! Code that is none.

ghost use Rattle.std.specs.Prelude.{◌≡◌, IfOk, map};
ghost use Rattle.std.specs.List.{flat_map, filter_map};
ghost use Rattle.kilim_program.specs.declared.names.ClassId.{ClassId};
ghost use Rattle.kilim_link_mentions.specs.Decoded.{code_found};
ghost use Rattle.kilim_link_spec.specs.World.{World};
ghost use Rattle.kilim_link_spec.specs.Code.{index_in};
ghost use Rattle.kilim_link_spec.specs.Linked.{code_attribute, first_of};
ghost use Rattle.kilim_link_spec.specs.LeftOut.{decoded_in};
ghost use Rattle.kilim_link_spec.specs.Faults.{bad_index, code_fault, code_faults, code_broken};

use kilim_class_code::opcodes::{OpFault, RawInstr};
use kilim_class_code::{Body, CodeFault};
use kilim_class_file::{ClassFile, MemberInfo, MemberName};
use kilim_class_pool::Pool;
use kilim_link_mentions::{code_attribute, decoded, index_in, operand_at};
use kilim_link_spec::Problem;
use kilim_link_views::{member_descriptor, member_name};
use kilim_units::{NoMemory, Units};
use std::alloc::Global;

// A fault where the index of an instruction names no entry of a kind that the instruction takes.
fn bad_index(
    alloc: Global,
    pool: &Pool,
    at: u32,
    instr: &RawInstr,
) -> Result<Option<CodeFault>, NoMemory>
    ensures { IfOk result (λ found. found ≡ first_of (bad_index pool.now (at, instr.now) (index_in instr.now))) }
{
    let Some((number, index)) = index_in(instr) else {
        return Ok(None);
    };
    match operand_at(alloc, pool, number, index) {
        Ok(Some(operand)) => {
            drop(operand);
            Ok(None)
        }
        Ok(None) => Ok(Some(CodeFault::Op(OpFault::Unknown(number), at))),
        Err(fault) => Err(fault),
    }
}

// The first of them in code.
fn first_bad_index(
    alloc: Global,
    pool: &Pool,
    instrs: &[(u32, RawInstr)],
) -> Result<Option<CodeFault>, NoMemory>
    ensures { IfOk result (λ found. found ≡ first_of (flat_map (λ p. bad_index pool.now p (index_in p.1)) instrs.now)) }
{
    for placed in instrs {
        match bad_index(alloc, pool, placed.0, &placed.1) {
            Err(fault) => return Err(fault),
            Ok(Some(found)) => return Ok(Some(found)),
            Ok(None) => {}
        }
    }
    Ok(None)
}

// The fault of decoded code; a left-out instruction is none of this kind.
fn code_fault(
    alloc: Global,
    pool: &Pool,
    found: Result<Body, CodeFault>,
) -> Result<Option<CodeFault>, NoMemory>
    ensures { IfOk result (λ fault. fault ≡ code_fault pool.now (code_found found)) }
{
    match found {
        Ok(body) => first_bad_index(alloc, pool, body.code.as_slice()),
        Err(CodeFault::Op(OpFault::LeftOut(_), _)) => Ok(None),
        Err(fault) => Ok(Some(fault)),
    }
}

// The fault of the code of a method, where it has code and a fault.
fn method_fault(
    alloc: Global,
    pool: &Pool,
    method: &MemberInfo,
) -> Result<Option<CodeFault>, NoMemory>
    ensures { IfOk result (λ fault. fault ≡ first_of (filter_map (code_fault pool.now) (decoded_in (code_attribute method.now)))) }
{
    match code_attribute(method) {
        None => Ok(None),
        Some(code) => {
            let found = decoded(alloc, code.code.as_slice())?;
            code_fault(alloc, pool, found)
        }
    }
}

// The problem that tells it.
fn method_problem(
    alloc: Global,
    file: &ClassFile,
    method: &MemberInfo,
) -> Result<Option<Problem>, NoMemory>
    ensures { IfOk result (λ problem. problem ≡ first_of (code_faults file.now method.now)) }
{
    let Ok(found) = method_fault(alloc, &file.constant_pool, method) else {
        return Err(NoMemory);
    };
    let Some(fault) = found else {
        return Ok(None);
    };
    let Ok(name) = Units::from_slice(alloc, member_name(file, method)) else {
        return Err(NoMemory);
    };
    let Ok(descriptor) = Units::from_slice(alloc, member_descriptor(file, method)) else {
        return Err(NoMemory);
    };
    Ok(Some(Problem::Code(MemberName { name, descriptor }, fault)))
}

fn first_in_methods(
    alloc: Global,
    file: &ClassFile,
    methods: &[MemberInfo],
) -> Result<Option<Problem>, NoMemory>
    ensures { IfOk result (λ found. found ≡ first_of (flat_map (code_faults file.now) methods.now)) }
{
    for method in methods {
        match method_problem(alloc, file, method) {
            Err(fault) => return Err(fault),
            Ok(Some(found)) => return Ok(Some(found)),
            Ok(None) => {}
        }
    }
    Ok(None)
}

/// The first method whose bytes are no code, or have an index of what its instruction doesn't take (JVMS 4.9.1), with the
/// first fault of its code; none where each method's code is code. Code whose first fault is a part that is left out
/// isn't named here. Takes linear time.
#[tactic(auto, unfolding(kilim_link_spec::specs::Faults::code_broken))]
pub fn code_broken(alloc: Global, file: &ClassFile) -> Result<Option<Problem>, NoMemory>
    ensures { IfOk result (λ found. (w : World) → (c : ClassId) → found ≡ first_of (code_broken w file.now c)) }
{
    first_in_methods(alloc, file, file.methods.as_slice())
}
