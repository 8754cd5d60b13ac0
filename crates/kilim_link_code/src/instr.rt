//! Instructions, linked.

ghost use Rattle.std.specs.Prelude.{◌≡◌, Some, option_map, IfOk};
ghost use Rattle.kilim_program.specs.declared.instr.Instr.TheVariants.{Tableswitch, Lookupswitch, Newarray};
ghost use Rattle.kilim_link_spec.specs.Types.{each_of};
ghost use Rattle.kilim_link_spec.specs.Code.{row, jump_instrs, array_codes, applied, place_of, pair_in, operand_at, instr_with, instr_in};

use crate::named::instr_with;
use crate::places::{pairs_of, place_of, places_of};
use crate::tables::{array_code, jump_instr, local_instr, plain_instr};
use kilim_class_code::opcodes::RawInstr;
use kilim_class_pool::Pool;
use kilim_link_mentions::operand_at;
use kilim_link_world::World;
use kilim_program::Instr;
use kilim_units::{NoMemory, Seq};
use std::alloc::Global;

// A jump to a target.
fn jump(number: u8, to: &i64) -> Result<Option<Instr>, NoMemory>
    ensures { IfOk result (λ instr. instr ≡ applied (row jump_instrs number) (place_of to.now)) }
{
    match place_of(to) {
        Ok(Some(place)) => Ok(jump_instr(number, place)),
        Ok(None) => Ok(None),
        Err(fault) => Err(fault),
    }
}

// An array of a primitive type.
fn new_array(code: u8) -> Option<Instr>
    ensures { result ≡ option_map Newarray (row array_codes code) }
{
    match array_code(code) {
        Some(base) => Some(Instr::Newarray(base)),
        None => None,
    }
}

// A switch over places, where all are there.
fn table_of(default: Option<u32>, low: i32, targets: Option<Seq<u32>>) -> Option<Instr>
    ensures { result ≡ applied (option_map (λ to. Tableswitch to low) default) targets }
{
    let Some(default) = default else {
        return None;
    };
    match targets {
        Some(targets) => Some(Instr::Tableswitch(default, low, targets)),
        None => None,
    }
}

fn table_switch(
    alloc: Global,
    default: &i64,
    low: i32,
    targets: &[i64],
) -> Result<Option<Instr>, NoMemory>
    ensures { IfOk result (λ instr. instr ≡ applied (option_map (λ to. Tableswitch to low) (place_of default.now)) (each_of place_of targets.now)) }
{
    let Ok(first) = place_of(default) else {
        return Err(NoMemory);
    };
    let Ok(places) = places_of(alloc, targets) else {
        return Err(NoMemory);
    };
    Ok(table_of(first, low, places))
}

// A switch over matches with places, where all are there.
fn lookup_of(default: Option<u32>, pairs: Option<Seq<(i32, u32)>>) -> Option<Instr>
    ensures { result ≡ applied (option_map (λ to. λ each. Lookupswitch to each) default) pairs }
{
    let Some(default) = default else {
        return None;
    };
    match pairs {
        Some(pairs) => Some(Instr::Lookupswitch(default, pairs)),
        None => None,
    }
}

fn lookup_switch(
    alloc: Global,
    default: &i64,
    pairs: &[(i32, i64)],
) -> Result<Option<Instr>, NoMemory>
    ensures { IfOk result (λ instr. instr ≡ applied (option_map (λ to. λ each. Lookupswitch to each) (place_of default.now)) (each_of pair_in pairs.now)) }
{
    let Ok(first) = place_of(default) else {
        return Err(NoMemory);
    };
    let Ok(places) = pairs_of(alloc, pairs) else {
        return Err(NoMemory);
    };
    Ok(lookup_of(first, places))
}

// An instruction with what an index of the pool names.
fn indexed(
    alloc: Global,
    world: &World,
    pool: &Pool,
    number: u8,
    index: u16,
) -> Result<Option<Instr>, NoMemory>
    ensures { IfOk result (λ instr. instr ≡ instr_with world.now number (operand_at pool.now (number, index))) }
{
    let Ok(operand) = operand_at(alloc, pool, number, index) else {
        return Err(NoMemory);
    };
    instr_with(alloc, world, number, operand)
}

/// An instruction in a program (JVMS 6.5): a short form is the instruction of its long form, and an index is replaced by
/// what it names. None where it names nothing that is there, where a target stands before the code, or where no
/// instruction of the profile has this number. A target of 4,294,967,296 or more, which no code has, is answered as want
/// of memory.
#[tactic(auto, unfolding(kilim_link_spec::specs::Code::instr_in))]
pub fn instr_in(
    alloc: Global,
    world: &World,
    pool: &Pool,
    instr: &RawInstr,
) -> Result<Option<Instr>, NoMemory>
    ensures { IfOk result (λ found. found ≡ instr_in world.now pool.now instr.now) }
{
    match instr {
        RawInstr::Plain(number) => Ok(plain_instr(*number)),
        RawInstr::Byte(_, n) => Ok(Some(Instr::Bipush(*n))),
        RawInstr::Short(_, n) => Ok(Some(Instr::Sipush(*n))),
        RawInstr::Local(number, slot) => Ok(local_instr(*number, u16::from(*slot))),
        RawInstr::WideLocal(number, slot) => Ok(local_instr(*number, *slot)),
        RawInstr::Iinc(_, slot, n) => Ok(Some(Instr::Iinc(u16::from(*slot), i16::from(*n)))),
        RawInstr::WideIinc(_, slot, n) => Ok(Some(Instr::Iinc(*slot, *n))),
        RawInstr::Jump(number, to) | RawInstr::WideJump(number, to) => jump(*number, to),
        RawInstr::NewArray(_, code) => Ok(new_array(*code)),
        RawInstr::TableSwitch(_, default, low, targets) => {
            table_switch(alloc, default, *low, targets.as_slice())
        }
        RawInstr::LookupSwitch(_, default, pairs) => {
            lookup_switch(alloc, default, pairs.as_slice())
        }
        RawInstr::Constant(number, index) => {
            indexed(alloc, world, pool, *number, u16::from(*index))
        }
        RawInstr::Index(number, index) => indexed(alloc, world, pool, *number, *index),
    }
}
