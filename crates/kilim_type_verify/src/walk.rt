//! A method's code, in order.

ghost use Rattle.std.specs.Prelude.{◌≡◌, ◌<◌, ◌+◌, ◌++◌, ◌∷◌, [], true, List, ℕ, length, drop, Some, None, IfOk, OnOk, option_map};
ghost use Rattle.kilim_program.specs.declared.instr.Instr.{Instr};
ghost use Rattle.kilim_program.specs.Program.{Program};
ghost use Rattle.kilim_program.specs.declared.class.Method.{Method};
ghost use Rattle.kilim_type_spec.specs.Typed.{arriving, declared, goes_on, has_code, listed};
ghost use Rattle.kilim_type_spec.specs.Faults.{comes_first, frame_fault};
ghost use Rattle.kilim_type_verify.specs.Places.{place_of};
ghost use Rattle.kilim_type_verify.specs.Walks.{VisitedUnder, CodeWalked, BodyWalked, MethodWalked};

use crate::entry::entry_rule;
use crate::frames::{NO_FIT, code_at, frame_fault, listed};
use crate::handlers::handler_rule;
use crate::place::{NO_FRAME, fails_unless, is_followed, lesser, step};
use kilim_program::{Instr, Method, Program};
use kilim_type_flow::ends_path;
use kilim_type_spec::VerifiedFrame;
use kilim_type_step::{State, declared_at, entry_state, state_of};
use kilim_units::NoMemory;
use std::alloc::{AllocError, Global};

/// What comes of an instruction.
#[derive(Drop)]
pub enum Visited {
    /// What flows on to the place behind it.
    Goes(Option<State>),
    /// The least rule that fails.
    Fails(u8),
}

/// What comes of a method.
#[derive(Drop)]
pub enum Walked {
    /// The frames at its instructions, in order.
    Frames(Vec<VerifiedFrame>),
    /// The place and the least rule of its first fault.
    Fault(u32, u8),
}

// The frame at a place: the one declared there, or else what flows there.
fn arrive(
    alloc: Global,
    method: &Method,
    at: u32,
    flow: Option<State>,
) -> Result<Option<State>, AllocError>
    ensures { IfOk result (λ s. s ≡ arriving flow (declared method.now at)) }
{
    match declared_at(method, at) {
        Some(frame) => {
            let Ok(state) = state_of(alloc, frame) else {
                return Err(AllocError);
            };
            Ok(Some(state))
        }
        None => Ok(flow),
    }
}

#[tactic(auto, using(crate::proofs::Walked::place_next, crate::proofs::Walked::place_past))]
fn place_behind(code: &[(u32, Instr)], index: usize) -> Option<u32>
    requires { index < length code.now }
    ensures { result ≡ place_of (drop (index + 1) code.now) }
{
    if index + 1 < code.len() {
        let entry = code_at(code, index + 1);
        Some(entry.0)
    } else {
        None
    }
}

// What flows on to the place behind an instruction.
fn goes_on(ends: bool, after: State) -> Option<State>
    ensures { result ≡ goes_on ends after }
{
    if ends { None } else { Some(after) }
}

fn push_listed(
    alloc: Global,
    method: &Method,
    state: &State,
    frames: &mut Vec<VerifiedFrame>,
) -> Result<(), AllocError>
    ensures { OnOk result (frames.new.items ≡ frames.old.items ++ listed method.now state.now ∷ []) }
{
    let Ok(frame) = listed(alloc, method, state, frames.last()) else {
        return Err(AllocError);
    };
    let Ok(()) = frames.push(frame) else {
        return Err(AllocError);
    };
    Ok(())
}

// An instruction under the frame there; the place behind it.
#[tactic(auto, using(crate::proofs::Walked::visited, crate::proofs::Walked::broken))]
fn visit_under(
    alloc: Global,
    program: &Program,
    method: &Method,
    entry: &(u32, Instr),
    behind: Option<u32>,
    pending: Option<u8>,
    state: State,
    frames: &mut Vec<VerifiedFrame>,
) -> Result<Visited, NoMemory>
    ensures { IfOk result (λ v. (es : List (ℕ × Instr)) → place_of es ≡ behind →
        VisitedUnder program.now method.now pending (Some state) entry.now es frames.old.items frames.new.items v) }
{
    let Ok(()) = push_listed(alloc, method, &state, frames) else {
        return Err(NoMemory);
    };
    let Ok(unhandled) = handler_rule(alloc, program, method, entry.0, &state) else {
        return Err(NoMemory);
    };
    let mut after = state;
    let Ok(found) = step(
        alloc, program, method, entry.0, &entry.1, behind, &mut after,
    ) else {
        return Err(NoMemory);
    };
    match lesser(pending, lesser(found, unhandled)) {
        Some(rule) => Ok(Visited::Fails(rule)),
        None => Ok(Visited::Goes(goes_on(ends_path(&entry.1), after))),
    }
}

// An instruction at which no frame stands, since an instruction before it has a fault.
#[tactic(auto, using(crate::proofs::Walked::nothing_goes, crate::proofs::Walked::nothing_fails))]
fn visit_unreached(
    alloc: Global,
    method: &Method,
    entry: &(u32, Instr),
    behind: Option<u32>,
    pending: Option<u8>,
    frames: &mut Vec<VerifiedFrame>,
) -> Result<Visited, NoMemory>
    ensures { IfOk result (λ v. (p : Program) (es : List (ℕ × Instr)) → place_of es ≡ behind →
        VisitedUnder p method.now pending None entry.now es frames.old.items frames.new.items v) }
{
    let none = State::new(Vec::new(alloc), Vec::new(alloc), false);
    let Ok(()) = push_listed(alloc, method, &none, frames) else {
        return Err(NoMemory);
    };
    let Ok(followed) = is_followed(alloc, method, &entry.1, behind) else {
        return Err(NoMemory);
    };
    match lesser(pending, fails_unless(followed, NO_FRAME)) {
        Some(rule) => Ok(Visited::Fails(rule)),
        None => Ok(Visited::Goes(None)),
    }
}

// An instruction, under what flows to it.
fn visit(
    alloc: Global,
    program: &Program,
    method: &Method,
    entry: &(u32, Instr),
    behind: Option<u32>,
    pending: Option<u8>,
    flow: Option<State>,
    frames: &mut Vec<VerifiedFrame>,
) -> Result<Visited, NoMemory>
    ensures { IfOk result (λ v. (es : List (ℕ × Instr)) → place_of es ≡ behind →
        VisitedUnder program.now method.now pending (arriving flow (declared method.now entry.now.0)) entry.now es frames.old.items frames.new.items v) }
{
    match arrive(alloc, method, entry.0, flow) {
        Ok(Some(state)) => {
            visit_under(
                alloc, program, method, entry, behind, pending, state, frames,
            )
        }
        Ok(None) => visit_unreached(alloc, method, entry, behind, pending, frames),
        Err(_) => Err(NoMemory),
    }
}

// The code of a method, under the frame with which it begins; the least rule that fails before it.
fn walk_code(
    alloc: Global,
    program: &Program,
    method: &Method,
    begins: State,
    first: Option<u8>,
) -> Result<Walked, NoMemory>
    ensures { IfOk result (λ walked. CodeWalked program.now method.now first (Some begins) walked) }
{
    let code = method.code.as_slice();
    let Ok(mut frames) = Vec::with_capacity(alloc, code.len()) else {
        return Err(NoMemory);
    };
    let mut flow = Some(begins);
    let mut pending = first;
    for index in 0..code.len() {
        let entry = code_at(code, index);
        let behind = place_behind(code, index);
        let Ok(visited) = visit(
            alloc,
            program,
            method,
            entry,
            behind,
            pending,
            flow,
            &mut frames,
        ) else {
            return Err(NoMemory);
        };
        match visited {
            Visited::Goes(next) => flow = next,
            Visited::Fails(rule) => return Ok(Walked::Fault(entry.0, rule)),
        }
        pending = None;
    }
    Ok(Walked::Frames(frames))
}

// The body of a method with code.
fn walk_body(alloc: Global, program: &Program, method: &Method) -> Result<Walked, NoMemory>
    ensures { IfOk result (λ walked. BodyWalked program.now method.now walked) }
{
    let code = method.code.as_slice();
    if code.is_empty() {
        return Ok(Walked::Frames(Vec::new(alloc)));
    }
    let entry = code_at(code, 0);
    let Ok(begins) = entry_state(alloc, method) else {
        return Err(NoMemory);
    };
    let first = entry_rule(program, method, entry.0, &begins);
    walk_code(alloc, program, method, begins, first)
}

fn comes_first(place: u32, rule: u8, at: u32, other: u8) -> bool
    ensures { result ≡ comes_first (place, rule) (at, other) }
{
    place < at || (place == at && rule <= other)
}

// Of what comes of a body, and the place of the first declared frame that doesn't fit, what comes first.
fn earlier(walked: Walked, unfit: Option<u32>) -> Walked
    ensures { (p : Program) (m : Method) → BodyWalked p m walked → option_map (λ (at : ℕ). (at, 12)) unfit ≡ frame_fault m m.frames → has_code m ≡ true → MethodWalked p m result }
{
    match unfit {
        None => walked,
        Some(at) => match walked {
            Walked::Frames(_) => Walked::Fault(at, NO_FIT),
            Walked::Fault(place, rule) => {
                if comes_first(place, rule, at, NO_FIT) {
                    Walked::Fault(place, rule)
                } else {
                    Walked::Fault(at, NO_FIT)
                }
            }
        },
    }
}

/// The frames of a method, or its first fault.
pub fn walk(alloc: Global, program: &Program, method: &Method) -> Result<Walked, NoMemory>
    ensures { IfOk result (λ walked. MethodWalked program.now method.now walked) }
{
    if method.code.is_empty() {
        return Ok(Walked::Frames(Vec::new(alloc)));
    }
    let Ok(walked) = walk_body(alloc, program, method) else {
        return Err(NoMemory);
    };
    let unfit = frame_fault(method);
    Ok(earlier(walked, unfit))
}
