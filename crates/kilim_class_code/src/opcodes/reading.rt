//! Bytes to an instruction.

ghost use Rattle.std.specs.Prelude.{◌≡◌, ◌⊎◌, ◌++◌, ◌<◌, ℕ, List, length, drop, Some, None, IfOk, IfErr, MatchResult};
ghost use Rattle.std.specs.Int.{w8, w16, w32};
ghost use Rattle.kilim_class_grammar.specs.Reader.{Reads, ReadsUnless, both, made, tested};
ghost use Rattle.kilim_class_code.specs.declared.opcodes.fault.OpFault.{OpFault};
ghost use Rattle.kilim_class_code.specs.declared.opcodes.fault.OpFault.TheVariants.{Memory};
ghost use Rattle.kilim_class_code.specs.declared.opcodes.instr.RawInstr.{RawInstr};
ghost use Rattle.kilim_class_code.specs.declared.opcodes.instr.RawInstr.TheVariants.{WideIinc};
ghost use Rattle.kilim_class_code.specs.declared.opcodes.forms.OpForm.TheVariants as form;
ghost use Rattle.kilim_class_code.specs.opcodes.Table.{form_of};
ghost use Rattle.kilim_class_code.specs.opcodes.Instr.{is_array_code, instr_text, InstrFits};
ghost use Rattle.kilim_class_code.specs.opcodes.Reading.{unsigned_at, integer_at, place_of, target_at, wide_operands_at, wide_at, operands_at, listed_at, instr_at};
ghost use Rattle.kilim_class_code.specs.opcodes.Exact.{Stands, HasFault, IsUnlessMemory};

use crate::opcodes::fault::OpFault;
use crate::opcodes::forms::{OpForm, form, unlisted};
use crate::opcodes::instr::RawInstr;
use crate::opcodes::switches::{lookup_switch_at, table_switch_at};
use kilim_class_grammar::{u8_at, u16_at, u32_at};
use std::alloc::Global;

pub fn i8_at(bytes: &[u8]) -> Result<(i8, &[u8]), OpFault>
    ensures { Reads (λ x. (x.0, x.1.now)) result (integer_at w8 bytes.now) }
{
    match u8_at(OpFault::Cut, bytes) {
        Ok((number, rest)) => Ok((number.cast_signed(), rest)),
        Err(fault) => Err(fault),
    }
}

pub fn i16_at(bytes: &[u8]) -> Result<(i16, &[u8]), OpFault>
    ensures { Reads (λ x. (x.0, x.1.now)) result (integer_at w16 bytes.now) }
{
    match u16_at(OpFault::Cut, bytes) {
        Ok((number, rest)) => Ok((number.cast_signed(), rest)),
        Err(fault) => Err(fault),
    }
}

pub fn i32_at(bytes: &[u8]) -> Result<(i32, &[u8]), OpFault>
    ensures { Reads (λ x. (x.0, x.1.now)) result (integer_at w32 bytes.now) }
{
    match u32_at(OpFault::Cut, bytes) {
        Ok((number, rest)) => Ok((number.cast_signed(), rest)),
        Err(fault) => Err(fault),
    }
}

// The place at this distance, if there is one.
fn place_at(at: usize, distance: i32) -> Option<i64>
    ensures { result ≡ place_of at distance }
{
    i64::from(distance).checked_add_unsigned(at as u64)
}

#[tactic(auto, unfolding(crate::specs::opcodes::Reading::target_at))]
fn near_target_at(op: u8, at: usize, bytes: &[u8]) -> Result<(i64, &[u8]), OpFault>
    ensures { Reads (λ x. (x.0, x.1.now)) result (target_at op at w16 bytes.now) }
{
    match i16_at(bytes) {
        Ok((distance, rest)) => match place_at(at, i32::from(distance)) {
            Some(to) => Ok((to, rest)),
            None => Err(OpFault::Unknown(op)),
        },
        Err(fault) => Err(fault),
    }
}

/// The target of four bytes of an instruction with this number at a place.
#[tactic(auto, unfolding(crate::specs::opcodes::Reading::target_at))]
pub fn target_at(op: u8, at: usize, bytes: &[u8]) -> Result<(i64, &[u8]), OpFault>
    ensures { Reads (λ x. (x.0, x.1.now)) result (target_at op at w32 bytes.now) }
{
    match i32_at(bytes) {
        Ok((distance, rest)) => match place_at(at, distance) {
            Some(to) => Ok((to, rest)),
            None => Err(OpFault::Unknown(op)),
        },
        Err(fault) => Err(fault),
    }
}

fn is_array_code(code: u8) -> bool
    ensures { result ≡ is_array_code code }
{
    code == 4 || code == 5 || code >= 8 && code <= 11
}

#[tactic(auto, unfolding(crate::specs::opcodes::Reading::operands_at))]
fn byte_at(op: u8, at: usize, bytes: &[u8]) -> Result<(RawInstr, &[u8]), OpFault>
    ensures { Reads (λ x. (x.0, x.1.now)) result (operands_at at op form.Byte bytes.now) }
{
    match i8_at(bytes) {
        Ok((number, rest)) => Ok((RawInstr::Byte(op, number), rest)),
        Err(fault) => Err(fault),
    }
}

#[tactic(auto, unfolding(crate::specs::opcodes::Reading::operands_at))]
fn short_at(op: u8, at: usize, bytes: &[u8]) -> Result<(RawInstr, &[u8]), OpFault>
    ensures { Reads (λ x. (x.0, x.1.now)) result (operands_at at op form.Short bytes.now) }
{
    match i16_at(bytes) {
        Ok((number, rest)) => Ok((RawInstr::Short(op, number), rest)),
        Err(fault) => Err(fault),
    }
}

#[tactic(auto, unfolding(crate::specs::opcodes::Reading::operands_at))]
fn local_at(op: u8, at: usize, bytes: &[u8]) -> Result<(RawInstr, &[u8]), OpFault>
    ensures { Reads (λ x. (x.0, x.1.now)) result (operands_at at op form.Local bytes.now) }
{
    match u8_at(OpFault::Cut, bytes) {
        Ok((slot, rest)) => Ok((RawInstr::Local(op, slot), rest)),
        Err(fault) => Err(fault),
    }
}

#[tactic(auto, unfolding(crate::specs::opcodes::Reading::operands_at))]
fn constant_at(op: u8, at: usize, bytes: &[u8]) -> Result<(RawInstr, &[u8]), OpFault>
    ensures { Reads (λ x. (x.0, x.1.now)) result (operands_at at op form.Constant bytes.now) }
{
    match u8_at(OpFault::Cut, bytes) {
        Ok((index, rest)) => Ok((RawInstr::Constant(op, index), rest)),
        Err(fault) => Err(fault),
    }
}

#[tactic(auto, unfolding(crate::specs::opcodes::Reading::operands_at))]
fn index_at(op: u8, at: usize, bytes: &[u8]) -> Result<(RawInstr, &[u8]), OpFault>
    ensures { Reads (λ x. (x.0, x.1.now)) result (operands_at at op form.Index bytes.now) }
{
    match u16_at(OpFault::Cut, bytes) {
        Ok((index, rest)) => Ok((RawInstr::Index(op, index), rest)),
        Err(fault) => Err(fault),
    }
}

#[tactic(auto, unfolding(crate::specs::opcodes::Reading::operands_at))]
fn iinc_at(op: u8, at: usize, bytes: &[u8]) -> Result<(RawInstr, &[u8]), OpFault>
    ensures { Reads (λ x. (x.0, x.1.now)) result (operands_at at op form.Iinc bytes.now) }
{
    match u8_at(OpFault::Cut, bytes) {
        Ok((slot, rest)) => match i8_at(rest) {
            Ok((number, rest)) => Ok((RawInstr::Iinc(op, slot, number), rest)),
            Err(fault) => Err(fault),
        },
        Err(fault) => Err(fault),
    }
}

#[tactic(auto, unfolding(crate::specs::opcodes::Reading::operands_at))]
fn jump_at(op: u8, at: usize, bytes: &[u8]) -> Result<(RawInstr, &[u8]), OpFault>
    ensures { Reads (λ x. (x.0, x.1.now)) result (operands_at at op form.Jump bytes.now) }
{
    match near_target_at(op, at, bytes) {
        Ok((to, rest)) => Ok((RawInstr::Jump(op, to), rest)),
        Err(fault) => Err(fault),
    }
}

#[tactic(auto, unfolding(crate::specs::opcodes::Reading::operands_at))]
fn wide_jump_at(op: u8, at: usize, bytes: &[u8]) -> Result<(RawInstr, &[u8]), OpFault>
    ensures { Reads (λ x. (x.0, x.1.now)) result (operands_at at op form.WideJump bytes.now) }
{
    match target_at(op, at, bytes) {
        Ok((to, rest)) => Ok((RawInstr::WideJump(op, to), rest)),
        Err(fault) => Err(fault),
    }
}

#[tactic(auto, unfolding(crate::specs::opcodes::Reading::operands_at))]
fn new_array_at(op: u8, at: usize, bytes: &[u8]) -> Result<(RawInstr, &[u8]), OpFault>
    ensures { Reads (λ x. (x.0, x.1.now)) result (operands_at at op form.NewArray bytes.now) }
{
    match u8_at(OpFault::Cut, bytes) {
        Ok((code, rest)) => {
            if is_array_code(code) {
                Ok((RawInstr::NewArray(op, code), rest))
            } else if code == 6 || code == 7 {
                Err(OpFault::LeftOut(op))
            } else {
                Err(OpFault::Unknown(op))
            }
        }
        Err(fault) => Err(fault),
    }
}

fn wide_iinc_at(op: u8, bytes: &[u8]) -> Result<(RawInstr, &[u8]), OpFault>
    ensures { Reads (λ x. (x.0, x.1.now)) result (made (λ x. WideIinc op x.0 x.1) (both (unsigned_at w16) (integer_at w16)) bytes.now) }
{
    match u16_at(OpFault::Cut, bytes) {
        Ok((slot, rest)) => match i16_at(rest) {
            Ok((number, rest)) => Ok((RawInstr::WideIinc(op, slot, number), rest)),
            Err(fault) => Err(fault),
        },
        Err(fault) => Err(fault),
    }
}

#[tactic(auto, unfolding(crate::specs::opcodes::Reading::wide_operands_at))]
fn wide_operands_at(
    op: u8,
    layout: Option<OpForm>,
    bytes: &[u8],
) -> Result<(RawInstr, &[u8]), OpFault>
    ensures { Reads (λ x. (x.0, x.1.now)) result (wide_operands_at op layout bytes.now) }
{
    match layout {
        Some(OpForm::Local) => match u16_at(OpFault::Cut, bytes) {
            Ok((slot, rest)) => Ok((RawInstr::WideLocal(op, slot), rest)),
            Err(fault) => Err(fault),
        },
        Some(OpForm::Iinc) => wide_iinc_at(op, bytes),
        _ => Err(OpFault::Unknown(196)),
    }
}

#[tactic(auto, unfolding(crate::specs::opcodes::Reading::wide_at))]
fn wide_at(bytes: &[u8]) -> Result<(RawInstr, &[u8]), OpFault>
    ensures { Reads (λ x. (x.0, x.1.now)) result (wide_at bytes.now) }
{
    match u8_at(OpFault::Cut, bytes) {
        Ok((op, rest)) => wide_operands_at(op, form(op), rest),
        Err(fault) => Err(fault),
    }
}

#[tactic(auto, unfolding(crate::specs::opcodes::Reading::operands_at))]
fn operands_at(
    alloc: Global,
    op: u8,
    layout: OpForm,
    at: usize,
    bytes: &[u8],
) -> Result<(RawInstr, &[u8]), OpFault>
    ensures { ReadsUnless Memory (λ x. (x.0, x.1.now)) result (operands_at at op layout bytes.now) }
{
    match layout {
        OpForm::Plain => Ok((RawInstr::Plain(op), bytes)),
        OpForm::Byte => byte_at(op, at, bytes),
        OpForm::Short => short_at(op, at, bytes),
        OpForm::Local => local_at(op, at, bytes),
        OpForm::Constant => constant_at(op, at, bytes),
        OpForm::Index => index_at(op, at, bytes),
        OpForm::Iinc => iinc_at(op, at, bytes),
        OpForm::Jump => jump_at(op, at, bytes),
        OpForm::WideJump => wide_jump_at(op, at, bytes),
        OpForm::NewArray => new_array_at(op, at, bytes),
        OpForm::TableSwitch => table_switch_at(alloc, op, at, bytes),
        OpForm::LookupSwitch => lookup_switch_at(alloc, op, at, bytes),
        OpForm::Wide => wide_at(bytes),
    }
}

// The instruction that begins at a place, with these bytes from there on, and the bytes behind it.
#[tactic(auto, unfolding(crate::specs::opcodes::Reading::instr_at))]
fn instr_at(alloc: Global, at: usize, bytes: &[u8]) -> Result<(RawInstr, &[u8]), OpFault>
    ensures { ReadsUnless Memory (λ x. (x.0, x.1.now)) result (instr_at at bytes.now) }
{
    match u8_at(OpFault::Cut, bytes) {
        Ok((op, rest)) => match form(op) {
            Some(layout) => operands_at(alloc, op, layout, at, rest),
            None => Err(unlisted(op)),
        },
        Err(fault) => Err(fault),
    }
}

/// The instruction that begins at a place of a code array (JVMS 6.5), and the place behind it, in bytes from the
/// code's start. A switch is padded from the code's start.
///
/// It answers `Ok` exactly for the text of an instruction. Else the fault is that of the first part that isn't
/// spelled: `Cut` where the code ends inside it; `LeftOut` or `Unknown` for a number that isn't listed, and
/// with the instruction's own number for operands that it doesn't take, which are: an element type other than
/// that of boolean, char, byte, short, int and long (float's and double's are left out), a padding that isn't
/// zero, a low above the high, a negative count, a match that isn't above the one before, a number behind `wide`
/// other than those of loads, stores and `iinc` on locals, and a target that is no i64.
pub fn read_instr(alloc: Global, code: &[u8], at: usize) -> Result<(RawInstr, usize), OpFault>
    requires { at < length code.now }
    // What is read is spelled so.
    ensures found { IfOk result (λ read. Stands code.now at read.0 read.1) }

    // What is spelled so is read.
    ensures only { (instr : RawInstr) (rest : List ℕ) → InstrFits at instr → drop at code.now ≡ instr_text at instr ++ rest → MatchResult result (λ read. read.0 ≡ instr) (λ e. e ≡ Memory) }

    // A fault is that of the first part that isn't spelled, and it is found.
    ensures fault { IfErr result (λ e. (e ≡ Memory) ⊎ HasFault code.now at e) }
    ensures first { (fault : OpFault) → HasFault code.now at fault → MatchResult result (λ read. ⊥) (IsUnlessMemory fault) }
{
    let (_, bytes) = code.split_at(at);
    match instr_at(alloc, at, bytes) {
        Ok((instr, rest)) => Ok((instr, code.len() - rest.len())),
        Err(fault) => Err(fault),
    }
}
