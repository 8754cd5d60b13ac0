//! Code as bytes, where each instruction has a text at its place.

ghost use Rattle.std.specs.Prelude.{◌≡◌, ◌<◌, ◌^◌, ◌++◌, true, pos, ◌+ℤ◌, ◌-ℤ◌, length, Some, None, FitsSigned, IfOk, OnOk, slice_get};
ghost use Rattle.std.specs.Int.{w8, w16, w32};
ghost use Rattle.std.specs.List.{AllByRecursion};
ghost use Rattle.kilim_class_code.specs.Code.{code_text};
ghost use Rattle.kilim_class_code.specs.opcodes.Instr.{InstrFits, IsAbove, PairsFit, TargetFits, high_of, instr_text, is_array_code};
ghost use Rattle.kilim_class_code.specs.opcodes.Table.{form_of};

use kilim_class_code::opcodes::{OpForm, RawInstr, form, write_instr};
use kilim_units::{NoMemory, Seq, unmet};
use std::alloc::Global;

// A target whose distance has two bytes.
fn is_near(at: u32, to: i64) -> bool
    ensures { result ≡ true → TargetFits w16 at to }
{
    match to.checked_sub(i64::from(at)) {
        Some(distance) => -32_768 <= distance && distance <= 32_767,
        None => false,
    }
}

// A target whose distance has four bytes.
fn is_far(at: u32, to: i64) -> bool
    ensures { result ≡ true → TargetFits w32 at to }
{
    match to.checked_sub(i64::from(at)) {
        Some(distance) => -2_147_483_648 <= distance && distance <= 2_147_483_647,
        None => false,
    }
}

fn all_far(at: u32, targets: &[i64]) -> bool
    ensures { result ≡ true → AllByRecursion (TargetFits w32 at) targets.now }
{
    for to in targets {
        if !is_far(at, *to) {
            return false;
        }
    }
    true
}

fn pair_at(pairs: &[(i32, i64)], at: usize) -> &(i32, i64)
    requires { at < length pairs.now }
    ensures { slice_get pairs.now at ≡ Some result.now }
{
    &pairs[at]
}

// The match of a pair.
fn key_of(pair: &(i32, i64)) -> i32
    ensures key { result ≡ pair.now.0 }
    ensures range { FitsSigned w32 pair.now.0 }
{
    pair.0
}

// A match is above the one before.
fn is_above(least: &Option<i32>, pair: &(i32, i64)) -> bool
    ensures { result ≡ true → IsAbove least.now pair.now.0 }
{
    match least {
        None => true,
        Some(before) => *before < pair.0,
    }
}

fn has_far(at: u32, pair: &(i32, i64)) -> bool
    ensures { result ≡ true → TargetFits w32 at pair.now.1 }
{
    is_far(at, pair.1)
}

// Matches increase, each with a target that is far at most.
fn pairs_fit(place: u32, pairs: &[(i32, i64)]) -> bool
    ensures { result ≡ true → PairsFit place None pairs.now }
{
    let mut least: Option<i32> = None;
    for at in 0..pairs.len() {
        let pair = pair_at(pairs, at);
        let key = key_of(pair);
        if !is_above(&least, pair) {
            return false;
        }
        if !has_far(place, pair) {
            return false;
        }
        least = Some(key);
    }
    true
}

fn in_i8(n: &i8)
    ensures { FitsSigned w8 n.now }
{
    let _number = *n;
}

fn in_i16(n: &i16)
    ensures { FitsSigned w16 n.now }
{
    let _number = *n;
}

fn in_u8(n: &u8)
    ensures { n.now < 2 ^ 8 }
{
    let _number = *n;
}

fn in_u16(n: &u16)
    ensures { n.now < 2 ^ 16 }
{
    let _number = *n;
}

/// The most targets that a switch of a method's code has.
const MOST_TARGETS: usize = 65_535;

// The greatest match of a `tableswitch` is an int.
fn has_high(low: i32, count: usize) -> bool
    ensures { result ≡ true → (0 < count) × FitsSigned w32 ((low +ℤ pos count) -ℤ pos 1) }
{
    0 < count && count <= MOST_TARGETS && i64::from(low) + count as i64 - 1 <= 2_147_483_647
}

fn has_form(op: u8, wanted: OpForm) -> bool
    ensures { result ≡ true → form_of op ≡ Some wanted }
{
    form(op) == Some(wanted)
}

fn is_array_code(code: u8) -> bool
    ensures { result ≡ is_array_code code }
{
    code == 4 || code == 5 || (8 <= code && code <= 11)
}

fn switch_fits(at: u32, default: i64, low: i32, targets: &[i64]) -> bool
    ensures { result ≡ true →
        TargetFits w32 at default × FitsSigned w32 low × FitsSigned w32 (high_of low targets.now) × (0 < length targets.now) × AllByRecursion (TargetFits w32 at) targets.now }
{
    is_far(at, default) && has_high(low, targets.len()) && all_far(at, targets)
}

fn lookup_fits(at: u32, default: i64, pairs: &[(i32, i64)]) -> bool
    ensures { result ≡ true → TargetFits w32 at default × (length pairs.now < 2 ^ 31) × PairsFit at None pairs.now }
{
    is_far(at, default) && pairs.len() <= MOST_TARGETS && pairs_fit(at, pairs)
}

// An instruction has a text at a place.
#[tactic(auto, unfolding(kilim_class_code::specs::opcodes::Instr::InstrFits))]
fn fits(at: u32, instr: &RawInstr) -> bool
    ensures { result ≡ true → InstrFits at instr.now }
{
    match instr {
        RawInstr::Plain(op) => has_form(*op, OpForm::Plain),
        RawInstr::Byte(op, n) => {
            in_i8(n);
            has_form(*op, OpForm::Byte)
        }
        RawInstr::Short(op, n) => {
            in_i16(n);
            has_form(*op, OpForm::Short)
        }
        RawInstr::Local(op, slot) => {
            in_u8(slot);
            has_form(*op, OpForm::Local)
        }
        RawInstr::Constant(op, slot) => {
            in_u8(slot);
            has_form(*op, OpForm::Constant)
        }
        RawInstr::Index(op, index) => {
            in_u16(index);
            has_form(*op, OpForm::Index)
        }
        RawInstr::Iinc(op, slot, n) => {
            in_u8(slot);
            in_i8(n);
            has_form(*op, OpForm::Iinc)
        }
        RawInstr::Jump(op, to) => has_form(*op, OpForm::Jump) && is_near(at, *to),
        RawInstr::WideJump(op, to) => has_form(*op, OpForm::WideJump) && is_far(at, *to),
        RawInstr::NewArray(op, code) => has_form(*op, OpForm::NewArray) && is_array_code(*code),
        RawInstr::TableSwitch(op, default, low, targets) => {
            has_form(*op, OpForm::TableSwitch)
                && switch_fits(at, *default, *low, targets.as_slice())
        }
        RawInstr::LookupSwitch(op, default, pairs) => {
            has_form(*op, OpForm::LookupSwitch) && lookup_fits(at, *default, pairs.as_slice())
        }
        RawInstr::WideLocal(op, slot) => {
            in_u16(slot);
            has_form(*op, OpForm::Local)
        }
        RawInstr::WideIinc(op, slot, n) => {
            in_u16(slot);
            in_i16(n);
            has_form(*op, OpForm::Iinc)
        }
    }
}

// One instruction. None of woven code has no text; it would be answered as want of memory.
fn push_instr(into: &mut Vec<u8>, at: u32, instr: &RawInstr) -> Result<(), NoMemory>
    ensures { OnOk result (into.new.items ≡ into.old.items ++ instr_text at instr.now) }
{
    if !fits(at, instr) {
        // unmet: each instruction of a woven body has a text at its place
        return Err(unmet());
    }
    write_instr(instr, at as usize, into)
}

/// The bytes of code, each instruction at its place.
#[tactic(auto, unfolding(kilim_class_code::specs::Code::code_text))]
pub fn code_bytes(alloc: Global, code: &[(u32, RawInstr)]) -> Result<Seq<u8>, NoMemory>
    ensures { IfOk result (λ bytes. bytes ≡ code_text code.now) }
{
    let mut bytes = Vec::new(alloc);
    for (at, instr) in code {
        let Ok(()) = push_instr(&mut bytes, *at, instr) else {
            return Err(NoMemory);
        };
    }
    Ok(Seq::from_vec(bytes))
}
