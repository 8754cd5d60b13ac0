//! The operands of switches.

ghost use Rattle.std.specs.Prelude.{◌≡◌, ◌≤ℤ◌, None, IfOk};
ghost use Rattle.std.specs.Int.{w32};
ghost use Rattle.kilim_class_grammar.specs.Reader.{Reads, ReadsUnless, both, many};
ghost use Rattle.kilim_class_code.specs.declared.opcodes.fault.OpFault.TheVariants.{Memory};
ghost use Rattle.kilim_class_code.specs.declared.opcodes.forms.OpForm.TheVariants as form;
ghost use Rattle.kilim_class_code.specs.opcodes.Instr.{padding};
ghost use Rattle.kilim_class_code.specs.opcodes.Reading.{target_at, zeros_at, range_at, targets_in, table_at, count_at, is_above, pair_at, pairs_at, lookup_at, operands_at};

use crate::opcodes::fault::OpFault;
use crate::opcodes::instr::RawInstr;
use crate::opcodes::reading::{i32_at, target_at};
use kilim_class_grammar::{u8_at, u32_at};
use kilim_units::Seq;
use std::alloc::Global;

/// How many bytes stand between the number of a switch at a place and its default, which begins at a multiple of
/// four from the code's start.
pub fn padding(at: usize) -> usize
    ensures { result ≡ padding at }
{
    3 - at % 4
}

// The bytes behind so many zeros.
#[tactic(auto, unfolding(crate::specs::opcodes::Reading::zeros_at))]
fn zeros_at(op: u8, count: usize, bytes: &[u8]) -> Result<&[u8], OpFault>
    ensures { Reads (λ x. x.now) result (zeros_at op count bytes.now) }
{
    let mut rest = bytes;
    for _ in 0..count {
        match u8_at(OpFault::Cut, rest) {
            Ok((zero, after)) => {
                if zero != 0 {
                    return Err(OpFault::Unknown(op));
                }
                rest = after;
            }
            Err(fault) => return Err(fault),
        }
    }
    Ok(rest)
}

#[tactic(auto, unfolding(crate::specs::opcodes::Reading::range_at))]
fn range_at(op: u8, bytes: &[u8]) -> Result<((i32, i32), &[u8]), OpFault>
    ensures read { Reads (λ x. (x.0, x.1.now)) result (range_at op bytes.now) }
    ensures ordered { IfOk result (λ x. x.0.0 ≤ℤ x.0.1) }
{
    match i32_at(bytes) {
        Ok((low, rest)) => match i32_at(rest) {
            Ok((high, rest)) => {
                if low <= high {
                    Ok(((low, high), rest))
                } else {
                    Err(OpFault::Unknown(op))
                }
            }
            Err(fault) => Err(fault),
        },
        Err(fault) => Err(fault),
    }
}

fn targets_at(
    alloc: Global,
    op: u8,
    at: usize,
    count: u64,
    bytes: &[u8],
) -> Result<(Seq<i64>, &[u8]), OpFault>
    ensures { ReadsUnless Memory (λ x. (x.0, x.1.now)) result (many (target_at op at w32) count bytes.now) }
{
    let mut targets = Seq::new(alloc);
    let mut rest = bytes;
    for _ in 0..count {
        match target_at(op, at, rest) {
            Ok((to, after)) => {
                let Ok(()) = targets.push(to) else {
                    return Err(OpFault::Memory);
                };
                rest = after;
            }
            Err(fault) => return Err(fault),
        }
    }
    Ok((targets, rest))
}

// How many numbers lie from the low to the high.
fn targets_in(low: i32, high: i32) -> u64
    requires { low ≤ℤ high }
    ensures { result ≡ targets_in (low, high) }
{
    u64::from(high.abs_diff(low)) + 1
}

// The default, the low and the high.
fn table_head_at(op: u8, at: usize, bytes: &[u8]) -> Result<((i64, (i32, i32)), &[u8]), OpFault>
    ensures read { Reads (λ x. (x.0, x.1.now)) result (both (target_at op at w32) (range_at op) bytes.now) }
    ensures ordered { IfOk result (λ x. x.0.1.0 ≤ℤ x.0.1.1) }
{
    match target_at(op, at, bytes) {
        Ok((default, rest)) => match range_at(op, rest) {
            Ok((range, rest)) => Ok(((default, range), rest)),
            Err(fault) => Err(fault),
        },
        Err(fault) => Err(fault),
    }
}

#[tactic(auto, unfolding(crate::specs::opcodes::Reading::table_at))]
fn table_at(alloc: Global, op: u8, at: usize, bytes: &[u8]) -> Result<(RawInstr, &[u8]), OpFault>
    ensures { ReadsUnless Memory (λ x. (x.0, x.1.now)) result (table_at op at bytes.now) }
{
    match table_head_at(op, at, bytes) {
        Ok(((default, (low, high)), rest)) => {
            match targets_at(alloc, op, at, targets_in(low, high), rest) {
                Ok((targets, rest)) => Ok((RawInstr::TableSwitch(op, default, low, targets), rest)),
                Err(fault) => Err(fault),
            }
        }
        Err(fault) => Err(fault),
    }
}

#[tactic(auto, unfolding(crate::specs::opcodes::Reading::operands_at))]
pub fn table_switch_at(
    alloc: Global,
    op: u8,
    at: usize,
    bytes: &[u8],
) -> Result<(RawInstr, &[u8]), OpFault>
    ensures { ReadsUnless Memory (λ x. (x.0, x.1.now)) result (operands_at at op form.TableSwitch bytes.now) }
{
    match zeros_at(op, padding(at), bytes) {
        Ok(rest) => table_at(alloc, op, at, rest),
        Err(fault) => Err(fault),
    }
}

#[tactic(auto, unfolding(crate::specs::opcodes::Reading::count_at))]
fn count_at(op: u8, bytes: &[u8]) -> Result<(u32, &[u8]), OpFault>
    ensures { Reads (λ x. (x.0, x.1.now)) result (count_at op bytes.now) }
{
    match u32_at(OpFault::Cut, bytes) {
        Ok((count, rest)) => {
            if count < 0x8000_0000 {
                Ok((count, rest))
            } else {
                Err(OpFault::Unknown(op))
            }
        }
        Err(fault) => Err(fault),
    }
}

fn is_above(least: Option<i32>, key: i32) -> bool
    ensures { result ≡ is_above least key }
{
    match least {
        Some(least) => least < key,
        None => true,
    }
}

#[tactic(auto, unfolding(crate::specs::opcodes::Reading::pair_at))]
fn pair_at(
    op: u8,
    at: usize,
    least: Option<i32>,
    bytes: &[u8],
) -> Result<((i32, i64), &[u8]), OpFault>
    ensures { Reads (λ x. (x.0, x.1.now)) result (pair_at op at least bytes.now) }
{
    match i32_at(bytes) {
        Ok((key, rest)) => {
            if !is_above(least, key) {
                return Err(OpFault::Unknown(op));
            }
            match target_at(op, at, rest) {
                Ok((to, rest)) => Ok(((key, to), rest)),
                Err(fault) => Err(fault),
            }
        }
        Err(fault) => Err(fault),
    }
}

fn pairs_at(
    alloc: Global,
    op: u8,
    at: usize,
    count: u32,
    bytes: &[u8],
) -> Result<(Seq<(i32, i64)>, &[u8]), OpFault>
    ensures { ReadsUnless Memory (λ x. (x.0, x.1.now)) result (pairs_at op at count None bytes.now) }
{
    let mut pairs = Seq::new(alloc);
    let mut least = None;
    let mut rest = bytes;
    for _ in 0..count {
        match pair_at(op, at, least, rest) {
            Ok((pair, after)) => {
                let Ok(()) = pairs.push(pair) else {
                    return Err(OpFault::Memory);
                };
                least = Some(pair.0);
                rest = after;
            }
            Err(fault) => return Err(fault),
        }
    }
    Ok((pairs, rest))
}

// The default and the count.
fn lookup_head_at(op: u8, at: usize, bytes: &[u8]) -> Result<((i64, u32), &[u8]), OpFault>
    ensures { Reads (λ x. (x.0, x.1.now)) result (both (target_at op at w32) (count_at op) bytes.now) }
{
    match target_at(op, at, bytes) {
        Ok((default, rest)) => match count_at(op, rest) {
            Ok((count, rest)) => Ok(((default, count), rest)),
            Err(fault) => Err(fault),
        },
        Err(fault) => Err(fault),
    }
}

#[tactic(auto, unfolding(crate::specs::opcodes::Reading::lookup_at))]
fn lookup_at(alloc: Global, op: u8, at: usize, bytes: &[u8]) -> Result<(RawInstr, &[u8]), OpFault>
    ensures { ReadsUnless Memory (λ x. (x.0, x.1.now)) result (lookup_at op at bytes.now) }
{
    match lookup_head_at(op, at, bytes) {
        Ok(((default, count), rest)) => match pairs_at(alloc, op, at, count, rest) {
            Ok((pairs, rest)) => Ok((RawInstr::LookupSwitch(op, default, pairs), rest)),
            Err(fault) => Err(fault),
        },
        Err(fault) => Err(fault),
    }
}

#[tactic(auto, unfolding(crate::specs::opcodes::Reading::operands_at))]
pub fn lookup_switch_at(
    alloc: Global,
    op: u8,
    at: usize,
    bytes: &[u8],
) -> Result<(RawInstr, &[u8]), OpFault>
    ensures { ReadsUnless Memory (λ x. (x.0, x.1.now)) result (operands_at at op form.LookupSwitch bytes.now) }
{
    match zeros_at(op, padding(at), bytes) {
        Ok(rest) => lookup_at(alloc, op, at, rest),
        Err(fault) => Err(fault),
    }
}
