//! An instruction to bytes.

ghost use Rattle.std.specs.Prelude.{◌≡◌, ◌++◌, ◌<◌, ◌^◌, ℕ, pos, ◌-ℤ◌, length, replicate, slice_get, Some, None, OnOk, OnErr, FitsSigned};
ghost use Rattle.std.specs.Int.{w8, w16, w32, w64};
ghost use Rattle.std.specs.List.{flat_map, AllByRecursion};
ghost use Rattle.kilim_class_grammar.specs.Spelling.{u1, u2, u4};
ghost use Rattle.kilim_class_code.specs.opcodes.Instr.{integer_text, target_text, TargetFits, PairsFit, padding_text, high_of, pair_text, table_text, lookup_text, number_of, operands_text, instr_text, InstrFits};

use crate::opcodes::instr::RawInstr;
use crate::opcodes::switches::padding;
use kilim_class_grammar::{push_u8, push_u16, push_u32};
use kilim_units::NoMemory;
use std::alloc::AllocError;

#[tactic(auto, unfolding(crate::specs::opcodes::Instr::integer_text))]
fn put_i8(into: &mut Vec<u8>, number: i8) -> Result<(), AllocError>
    ensures { OnOk result (into.new.items ≡ into.old.items ++ integer_text w8 number) }
{
    push_u8(into, number.cast_unsigned())
}

#[tactic(auto, unfolding(crate::specs::opcodes::Instr::integer_text))]
fn put_i16(into: &mut Vec<u8>, number: i16) -> Result<(), AllocError>
    ensures { OnOk result (into.new.items ≡ into.old.items ++ integer_text w16 number) }
{
    push_u16(into, number.cast_unsigned())
}

#[tactic(auto, unfolding(crate::specs::opcodes::Instr::integer_text))]
fn put_i32(into: &mut Vec<u8>, number: i32) -> Result<(), AllocError>
    ensures { OnOk result (into.new.items ≡ into.old.items ++ integer_text w32 number) }
{
    push_u32(into, number.cast_unsigned())
}

// The distance from an instruction's place to a target.
fn distance(at: usize, to: i64) -> i64
    requires { FitsSigned w64 (to -ℤ pos at) }
    ensures { result ≡ to -ℤ pos at }
{
    to.checked_sub_unsigned(at as u64).unwrap()
}

#[tactic(auto, unfolding(crate::specs::opcodes::Instr::target_text))]
fn put_near_target(into: &mut Vec<u8>, at: usize, to: i64) -> Result<(), AllocError>
    requires { TargetFits w16 at to }
    ensures { OnOk result (into.new.items ≡ into.old.items ++ target_text w16 at to) }
{
    put_i16(into, distance(at, to) as i16)
}

#[tactic(auto, unfolding(crate::specs::opcodes::Instr::target_text))]
fn put_target(into: &mut Vec<u8>, at: usize, to: i64) -> Result<(), AllocError>
    requires { TargetFits w32 at to }
    ensures { OnOk result (into.new.items ≡ into.old.items ++ target_text w32 at to) }
{
    put_i32(into, distance(at, to) as i32)
}

fn put_targets(into: &mut Vec<u8>, at: usize, targets: &[i64]) -> Result<(), AllocError>
    requires { AllByRecursion (TargetFits w32 at) targets.now }
    ensures { OnOk result (into.new.items ≡ into.old.items ++ flat_map (target_text w32 at) targets.now) }
{
    for to in targets {
        let Ok(()) = put_target(into, at, *to) else {
            return Err(AllocError);
        };
    }
    Ok(())
}

fn put_pair(into: &mut Vec<u8>, at: usize, pair: (i32, i64)) -> Result<(), AllocError>
    requires { TargetFits w32 at pair.1 }
    ensures { OnOk result (into.new.items ≡ into.old.items ++ pair_text at pair) }
{
    put_i32(into, pair.0)?;
    put_target(into, at, pair.1)
}

fn put_pairs(into: &mut Vec<u8>, at: usize, pairs: &[(i32, i64)]) -> Result<(), AllocError>
    requires { PairsFit at None pairs.now }
    ensures { OnOk result (into.new.items ≡ into.old.items ++ flat_map (pair_text at) pairs.now) }
{
    for pair in pairs {
        let Ok(()) = put_pair(into, at, *pair) else {
            return Err(AllocError);
        };
    }
    Ok(())
}

#[tactic(auto, unfolding(crate::specs::opcodes::Instr::padding_text))]
fn put_padding(into: &mut Vec<u8>, at: usize) -> Result<(), AllocError>
    ensures { OnOk result (into.new.items ≡ into.old.items ++ padding_text at) }
{
    for _ in 0..padding(at) {
        let Ok(()) = into.push(0) else {
            return Err(AllocError);
        };
    }
    Ok(())
}

// The match of the last of so many targets.
fn high_of(low: i32, targets: &[i64]) -> i32
    requires { FitsSigned w32 (high_of low targets.now) }
    ensures { result ≡ high_of low targets.now }
{
    (i64::from(low) + targets.len() as i64 - 1) as i32
}

// What stands before the targets.
fn put_table_head(
    into: &mut Vec<u8>,
    at: usize,
    default: i64,
    low: i32,
    high: i32,
) -> Result<(), AllocError>
    requires { TargetFits w32 at default }
    ensures { OnOk result (into.new.items ≡ into.old.items ++ (target_text w32 at default ++ (integer_text w32 low ++ integer_text w32 high))) }
{
    let Ok(()) = put_target(into, at, default) else {
        return Err(AllocError);
    };
    let Ok(()) = put_i32(into, low) else {
        return Err(AllocError);
    };
    put_i32(into, high)
}

fn put_table_switch(
    into: &mut Vec<u8>,
    at: usize,
    default: i64,
    low: i32,
    targets: &[i64],
) -> Result<(), AllocError>
    requires default { TargetFits w32 at default }
    requires high { FitsSigned w32 (high_of low targets.now) }
    requires targets { AllByRecursion (TargetFits w32 at) targets.now }
    ensures { OnOk result (into.new.items ≡ into.old.items ++ (padding_text at ++ table_text at default low targets.now)) }
{
    let Ok(()) = put_padding(into, at) else {
        return Err(AllocError);
    };
    let high = high_of(low, targets);
    let Ok(()) = put_table_head(into, at, default, low, high) else {
        return Err(AllocError);
    };
    put_targets(into, at, targets)
}

fn put_lookup_switch(
    into: &mut Vec<u8>,
    at: usize,
    default: i64,
    pairs: &[(i32, i64)],
) -> Result<(), AllocError>
    requires default { TargetFits w32 at default }
    requires count { length pairs.now < 2 ^ 31 }
    requires pairs { PairsFit at None pairs.now }
    ensures { OnOk result (into.new.items ≡ into.old.items ++ (padding_text at ++ lookup_text at default pairs.now)) }
{
    let Ok(()) = put_padding(into, at) else {
        return Err(AllocError);
    };
    let Ok(()) = put_target(into, at, default) else {
        return Err(AllocError);
    };
    let Ok(()) = push_u32(into, pairs.len() as u32) else {
        return Err(AllocError);
    };
    put_pairs(into, at, pairs)
}

fn put_iinc(into: &mut Vec<u8>, slot: u8, number: i8) -> Result<(), AllocError>
    ensures { OnOk result (into.new.items ≡ into.old.items ++ (u1 slot ++ integer_text w8 number)) }
{
    push_u8(into, slot)?;
    put_i8(into, number)
}

fn put_wide_local(into: &mut Vec<u8>, op: u8, slot: u16) -> Result<(), AllocError>
    ensures { OnOk result (into.new.items ≡ into.old.items ++ (u1 op ++ u2 slot)) }
{
    push_u8(into, op)?;
    push_u16(into, slot)
}

fn put_wide_iinc(into: &mut Vec<u8>, op: u8, slot: u16, number: i16) -> Result<(), AllocError>
    ensures { OnOk result (into.new.items ≡ into.old.items ++ (u1 op ++ (u2 slot ++ integer_text w16 number))) }
{
    let Ok(()) = push_u8(into, op) else {
        return Err(AllocError);
    };
    let Ok(()) = push_u16(into, slot) else {
        return Err(AllocError);
    };
    put_i16(into, number)
}

#[tactic(auto, unfolding(crate::specs::opcodes::Instr::number_of))]
fn number_of(instr: &RawInstr) -> u8
    ensures { result ≡ number_of instr.now }
{
    match instr {
        RawInstr::Plain(op)
        | RawInstr::Byte(op, _)
        | RawInstr::Short(op, _)
        | RawInstr::Local(op, _)
        | RawInstr::Constant(op, _)
        | RawInstr::Index(op, _)
        | RawInstr::Iinc(op, _, _)
        | RawInstr::Jump(op, _)
        | RawInstr::WideJump(op, _)
        | RawInstr::NewArray(op, _)
        | RawInstr::TableSwitch(op, _, _, _)
        | RawInstr::LookupSwitch(op, _, _) => *op,
        RawInstr::WideLocal(_, _) | RawInstr::WideIinc(_, _, _) => 196,
    }
}

fn put_operands(into: &mut Vec<u8>, instr: &RawInstr, at: usize) -> Result<(), AllocError>
    requires { InstrFits at instr.now }
    ensures { OnOk result (into.new.items ≡ into.old.items ++ operands_text at instr.now) }
{
    match instr {
        RawInstr::Plain(_) => Ok(()),
        RawInstr::Byte(_, number) => put_i8(into, *number),
        RawInstr::Short(_, number) => put_i16(into, *number),
        RawInstr::Local(_, byte) | RawInstr::Constant(_, byte) | RawInstr::NewArray(_, byte) => {
            push_u8(into, *byte)
        }
        RawInstr::Index(_, index) => push_u16(into, *index),
        RawInstr::Iinc(_, slot, number) => put_iinc(into, *slot, *number),
        RawInstr::Jump(_, to) => put_near_target(into, at, *to),
        RawInstr::WideJump(_, to) => put_target(into, at, *to),
        RawInstr::TableSwitch(_, default, low, targets) => {
            put_table_switch(into, at, *default, *low, targets.as_slice())
        }
        RawInstr::LookupSwitch(_, default, pairs) => {
            put_lookup_switch(into, at, *default, pairs.as_slice())
        }
        RawInstr::WideLocal(op, slot) => put_wide_local(into, *op, *slot),
        RawInstr::WideIinc(op, slot, number) => put_wide_iinc(into, *op, *slot, *number),
    }
}

fn put_instr(into: &mut Vec<u8>, instr: &RawInstr, at: usize) -> Result<(), AllocError>
    requires { InstrFits at instr.now }
    ensures { OnOk result (into.new.items ≡ into.old.items ++ instr_text at instr.now) }
{
    push_u8(into, number_of(instr))?;
    put_operands(into, instr, at)
}

/// Adds the text of an instruction at a place (JVMS 6.5) at the end, in time linear in its length. A switch is
/// padded from the code's start, and targets are written as distances from the place. For want of memory the
/// bytes stay as they were.
///
/// The number has to be one of this project's table, of the form of the variant (behind `wide`, of `iinc` or of
/// loads and stores of a local), and each operand and distance has to fit that form. In a `lookupswitch` the
/// matches increase; a `tableswitch` has a target at least, and the match of the last one is an `i32`.
pub fn write_instr(instr: &RawInstr, at: usize, into: &mut Vec<u8>) -> Result<(), NoMemory>
    requires { InstrFits at instr.now }
    ensures ok { OnOk result (into.new.items ≡ into.old.items ++ instr_text at instr.now) }
    ensures err { OnErr result (into.new.items ≡ into.old.items) }
{
    let mut text = Vec::new(*into.allocator());
    let Ok(()) = put_instr(&mut text, instr, at) else {
        return Err(NoMemory);
    };
    let Ok(()) = into.extend_from_slice(text.as_slice()) else {
        return Err(NoMemory);
    };
    Ok(())
}
