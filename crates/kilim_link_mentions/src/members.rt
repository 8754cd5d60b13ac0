//! Members that code names.

ghost use Rattle.std.specs.Prelude.{◌≡◌, [], ◌∷◌, ◌++◌, IfOk, OnOk};
ghost use Rattle.std.specs.List.{flat_map};
ghost use Rattle.kilim_link_spec.specs.Mentions.{instrs_of, members_named, members_of_operand, operand_of};

use crate::code::instrs_of;
use crate::operands::operand_of;
use kilim_class_code::opcodes::RawInstr;
use kilim_class_file::{ClassFile, MemberInfo};
use kilim_class_pool::Pool;
use kilim_link_spec::{Member, Operand};
use kilim_units::{NoMemory, Seq};
use std::alloc::Global;

fn push_one(into: &mut Seq<Member>, member: Member) -> Result<(), NoMemory>
    ensures { OnOk result (into.new ≡ into.old ++ member ∷ []) }
{
    into.push(member)?;
    Ok(())
}

fn push_member(into: &mut Seq<Member>, operand: Option<Operand>) -> Result<(), NoMemory>
    ensures { OnOk result (into.new ≡ into.old ++ members_of_operand operand) }
{
    match operand {
        Some(Operand::AField(member)) => push_one(into, Member::Field(member)),
        Some(Operand::AMethod(member)) => push_one(into, Member::Method(member)),
        _ => Ok(()),
    }
}

fn push_members(
    alloc: Global,
    into: &mut Seq<Member>,
    pool: &Pool,
    instrs: &[(u32, RawInstr)],
) -> Result<(), NoMemory>
    ensures { OnOk result (into.new ≡ into.old ++ flat_map (λ p. members_of_operand (operand_of pool.now p.1)) instrs.now) }
{
    for (_, instr) in instrs {
        let Ok(operand) = operand_of(alloc, pool, instr) else {
            return Err(NoMemory);
        };
        let Ok(()) = push_member(into, operand) else {
            return Err(NoMemory);
        };
    }
    Ok(())
}

fn push_members_of(
    alloc: Global,
    into: &mut Seq<Member>,
    pool: &Pool,
    method: &MemberInfo,
) -> Result<(), NoMemory>
    ensures { OnOk result (into.new ≡ into.old ++ flat_map (λ p. members_of_operand (operand_of pool.now p.1)) (instrs_of method.now)) }
{
    let instrs = instrs_of(alloc, method)?;
    push_members(alloc, into, pool, instrs.as_slice())
}

fn push_members_of_each(
    alloc: Global,
    into: &mut Seq<Member>,
    pool: &Pool,
    methods: &[MemberInfo],
) -> Result<(), NoMemory>
    ensures { OnOk result (into.new ≡ into.old ++ flat_map (λ m. flat_map (λ p. members_of_operand (operand_of pool.now p.1)) (instrs_of m)) methods.now) }
{
    for method in methods {
        let Ok(()) = push_members_of(alloc, into, pool, method) else {
            return Err(NoMemory);
        };
    }
    Ok(())
}

/// The fields and methods that the code of a file names, in the order of its bytes: method by method, instruction by
/// instruction. Code that has a fault names none, nor does an index that names no entry of a kind that its instruction
/// takes (own).
#[tactic(auto, unfolding(kilim_link_spec::specs::Mentions::members_named))]
pub fn members_named(alloc: Global, file: &ClassFile) -> Result<Seq<Member>, NoMemory>
    ensures { IfOk result (λ members. members ≡ members_named file.now) }
{
    let mut members = Seq::new(alloc);
    let Ok(()) = push_members_of_each(
        alloc,
        &mut members,
        &file.constant_pool,
        file.methods.as_slice(),
    ) else {
        return Err(NoMemory);
    };
    Ok(members)
}
