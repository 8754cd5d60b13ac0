//! Rule 12: declared frames fit their method; and frames as they are listed.

ghost use Rattle.std.specs.Prelude.{◌≡◌, ◌<◌, ℕ, Some, IfOk, length, slice_get, option_map};
ghost use Rattle.std.specs.List.{list_all, list_any};
ghost use Rattle.kilim_program.specs.Lengths.{is_code_place};
ghost use Rattle.kilim_type_spec.specs.Step.{is_top, is_long};
ghost use Rattle.kilim_type_spec.specs.Typed.{frame_fits, stands_at_new, halves, is_proper, listed};
ghost use Rattle.kilim_type_spec.specs.Faults.{frame_fault};
ghost use Rattle.kilim_type_verify.specs.Frames.{half_at, locals_fit, types_fit};

use crate::stated::entry_at;
use kilim_program::{Frame, Instr, Method, VType};
use kilim_type_spec::VerifiedFrame;
use kilim_type_step::{State, are_within, has_unset_this, is_constructor, made_at, type_at, vtype};
use std::alloc::{AllocError, Global};

/// The rule of declared frames.
pub const NO_FIT: u8 = 12;

/// The instruction of a number, with its place.
pub fn code_at(code: &[(u32, Instr)], at: usize) -> &(u32, Instr)
    requires { at < length code.now }
    ensures { slice_get code.now at ≡ Some result.now }
{
    &code[at]
}

#[tactic(auto, using(crate::proofs::Framed::place_here, crate::proofs::Framed::place_on))]
fn is_code_place(code: &[(u32, Instr)], at: u32) -> bool
    ensures { result ≡ is_code_place code.now at }
{
    for index in 0..code.len() {
        let entry = code_at(code, index);
        if entry.0 == at {
            return true;
        }
    }
    false
}

fn is_top(t: &VType) -> bool
    ensures { result ≡ is_top t.now }
{
    match t {
        VType::Top => true,
        VType::Int
        | VType::Long
        | VType::Null
        | VType::UninitThis
        | VType::Uninit(_)
        | VType::Object(_) => false,
    }
}

fn has_top(types: &[VType]) -> bool
    ensures { result ≡ list_any is_top types.now }
{
    for t in types {
        if is_top(t) {
            return true;
        }
    }
    false
}

// An uninitialized type's place holds a `new`.
fn stands_at_new(method: &Method, t: &VType) -> bool
    ensures { result ≡ stands_at_new method.now t.now }
{
    match t {
        VType::Uninit(at) => made_at(method.code.as_slice(), *at).is_some(),
        VType::Top
        | VType::Int
        | VType::Long
        | VType::Null
        | VType::UninitThis
        | VType::Object(_) => true,
    }
}

fn is_proper(t: &VType) -> bool
    ensures { result ≡ is_proper t.now }
{
    match t {
        VType::Object(ty) => match vtype(*ty) {
            VType::Object(_) => true,
            VType::Top
            | VType::Int
            | VType::Long
            | VType::Null
            | VType::UninitThis
            | VType::Uninit(_) => false,
        },
        VType::Top
        | VType::Int
        | VType::Long
        | VType::Null
        | VType::UninitThis
        | VType::Uninit(_) => true,
    }
}

fn all_at_new(method: &Method, types: &[VType]) -> bool
    ensures { result ≡ list_all (stands_at_new method.now) types.now }
{
    for t in types {
        if !stands_at_new(method, t) {
            return false;
        }
    }
    true
}

fn all_proper(types: &[VType]) -> bool
    ensures { result ≡ list_all is_proper types.now }
{
    for t in types {
        if !is_proper(t) {
            return false;
        }
    }
    true
}

fn is_long(t: VType) -> bool
    ensures { result ≡ is_long t }
{
    match t {
        VType::Long => true,
        VType::Top
        | VType::Int
        | VType::Null
        | VType::UninitThis
        | VType::Uninit(_)
        | VType::Object(_) => false,
    }
}

// A long has its second half behind it.
fn half_follows(types: &[VType], at: usize) -> bool
    requires { at < length types.now }
    ensures { result ≡ half_at types.now at }
{
    if !is_long(type_at(types, at)) {
        return true;
    }
    at + 1 < types.len() && is_top(&type_at(types, at + 1))
}

#[tactic(auto, using(crate::proofs::Framed::half_on, crate::proofs::Framed::half_fails))]
fn halves(types: &[VType]) -> bool
    ensures { result ≡ halves types.now }
{
    for at in 0..types.len() {
        if !half_follows(types, at) {
            return false;
        }
    }
    true
}

fn locals_fit(method: &Method, frame: &Frame) -> bool
    ensures { result ≡ locals_fit method.now frame.now }
{
    frame.locals.len() <= usize::from(method.max_locals)
        && are_within(frame.stack.as_slice(), method.max_stack)
        && !has_top(frame.stack.as_slice())
        && halves(frame.locals.as_slice())
}

fn types_fit(method: &Method, types: &[VType]) -> bool
    ensures { result ≡ types_fit method.now types.now }
{
    all_at_new(method, types)
        && all_proper(types)
        && (is_constructor(method) || !has_unset_this(types))
}

#[tactic(auto, using(crate::proofs::Framed::fits_in_parts))]
fn frame_fits(method: &Method, at: u32, frame: &Frame) -> bool
    ensures { result ≡ frame_fits method.now (at, frame.now) }
{
    is_code_place(method.code.as_slice(), at)
        && locals_fit(method, frame)
        && types_fit(method, frame.locals.as_slice())
        && types_fit(method, frame.stack.as_slice())
}

/// The place of the first declared frame that doesn't fit.
#[tactic(auto, using(crate::proofs::Framed::frame_fails, crate::proofs::Framed::frame_passes))]
pub fn frame_fault(method: &Method) -> Option<u32>
    ensures { option_map (λ (at : ℕ). (at, 12)) result ≡ frame_fault method.now method.now.frames }
{
    let frames = method.frames.as_slice();
    for index in 0..frames.len() {
        let entry = entry_at(frames, index);
        if !frame_fits(method, entry.0, &entry.1) {
            return Some(entry.0);
        }
    }
    None
}

#[tactic(auto, using(crate::proofs::Framed::listed_is))]
/// The frame of types, which shares with the one before it, if there is one, what is the same.
pub fn listed(
    alloc: Global,
    method: &Method,
    state: &State,
    before: Option<&VerifiedFrame>,
) -> Result<VerifiedFrame, AllocError>
    ensures { IfOk result (λ frame. frame ≡ listed method.now state.now) }
{
    let locals = state.locals();
    let stack = state.stack();
    let count = method.max_locals;
    match before {
        None => VerifiedFrame::new(alloc, locals, count, stack),
        Some(frame) => frame.next(alloc, locals, count, stack),
    }
}
