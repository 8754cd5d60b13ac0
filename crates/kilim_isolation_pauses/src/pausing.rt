//! All calls of pausable methods, and the rules that they break.

ghost use Rattle.std.specs.Prelude.{◌≡◌, ◌++◌, IfOk, option_copied, slice_get};
ghost use Rattle.std.specs.List.{flat_map};
ghost use Rattle.kilim_isolation_pauses.specs.Answers.{IsGraph};
ghost use Rattle.kilim_isolation_pauses.specs.Pausing as spec;

use crate::call::{called_by, has_free_receiver, pauses, uninitialized_below};
use crate::report::Report;
use kilim_program::lookups::method_at;
use kilim_program::{Instr, Method, MethodId, Program};
use kilim_type_spec::{Typed, VerifiedFrame};
use kilim_units::{NoMemory, Seq};
use std::alloc::Global;

/// The number of the rule that a pausable method has no free receiver.
pub const FREE_RECEIVER: u8 = 8;
/// The number of the rule that a method that isn't pausable calls none that is.
pub const PAUSABLE_IN_PLAIN: u8 = 10;
/// The number of the rule that all is initialized at a call of a pausable method.
pub const UNINIT_ACROSS_PAUSE: u8 = 11;

/// The calls of pausable methods, by class, method and place.
#[derive(Drop)]
pub struct Pausables {
    pub calls: Seq<(MethodId, u32)>,
}

/// Why there are none.
#[derive(Drop)]
pub enum GraphFault {
    /// All reports of the rules 8, 10 and 11, in the order of class, method, place and rule; not empty.
    Rules(Seq<Report>),
    Memory,
}

fn push_if(
    alloc: Global,
    reports: &mut Seq<Report>,
    broken: bool,
    method: MethodId,
    pc: u32,
    rule: u8,
) -> Result<(), NoMemory>
    ensures { IfOk result (λ u. reports.new ≡ reports.old ++ spec.report_if broken method pc rule) }
{
    if broken {
        reports.push(Report {
            method,
            pc,
            rule,
            path: Seq::new(alloc),
        })?;
    }
    Ok(())
}

fn push_at(
    alloc: Global,
    reports: &mut Seq<Report>,
    program: &Program,
    id: MethodId,
    method: &Method,
    placed: &(u32, Instr),
    frame: &VerifiedFrame,
) -> Result<(), NoMemory>
    ensures { IfOk result (λ u. reports.new ≡ reports.old ++ spec.reports_at program.now id method.now placed.now frame.now) }
{
    let callee = called_by(program, &placed.1);
    let in_plain = !method.pausable && pauses(callee);
    push_if(alloc, reports, in_plain, id, placed.0, PAUSABLE_IN_PLAIN)?;
    let unset = uninitialized_below(alloc, frame, callee)?;
    push_if(alloc, reports, unset, id, placed.0, UNINIT_ACROSS_PAUSE)
}

fn push_along(
    alloc: Global,
    reports: &mut Seq<Report>,
    program: &Program,
    id: MethodId,
    method: &Method,
    frames: &[VerifiedFrame],
) -> Result<(), NoMemory>
    ensures { IfOk result (λ u. reports.new ≡ reports.old ++ spec.reports_along program.now id method.now method.now.code frames.now) }
{
    let code = method.code.as_slice();
    for at in 0..code.len().min(frames.len()) {
        push_at(alloc, reports, program, id, method, &code[at], &frames[at])?;
    }
    Ok(())
}

fn push_method(
    alloc: Global,
    reports: &mut Seq<Report>,
    program: &Program,
    id: MethodId,
    method: &Method,
    frames: &[VerifiedFrame],
) -> Result<(), NoMemory>
    ensures { IfOk result (λ u. reports.new ≡ reports.old ++ spec.method_reports program.now id method.now frames.now) }
{
    push_if(
        alloc,
        reports,
        has_free_receiver(method),
        id,
        0,
        FREE_RECEIVER,
    )?;
    push_along(alloc, reports, program, id, method, frames)
}

fn frames_at(typed: &Typed, id: MethodId) -> Option<&Seq<VerifiedFrame>>
    ensures { option_copied result ≡ slice_get typed.now.frames id.0 }
{
    typed.frames.as_slice().get(id.0 as usize)
}

fn push_reports(
    alloc: Global,
    reports: &mut Seq<Report>,
    typed: &Typed,
    id: MethodId,
) -> Result<(), NoMemory>
    ensures { IfOk result (λ u. reports.new ≡ reports.old ++ spec.reports_of typed.now id) }
{
    let Some(method) = method_at(&typed.program, id) else {
        return Ok(());
    };
    match frames_at(typed, id) {
        None => push_method(alloc, reports, &typed.program, id, method, &[]),
        Some(frames) => push_method(
            alloc,
            reports,
            &typed.program,
            id,
            method,
            frames.as_slice(),
        ),
    }
}

/// The reports of the rules 8, 10 and 11 of a method, in the order of place and rule.
pub fn method_reports(alloc: Global, typed: &Typed, id: MethodId) -> Result<Seq<Report>, NoMemory>
    ensures { IfOk result (λ reports. reports ≡ spec.reports_of typed.now id) }
{
    let mut reports = Seq::new(alloc);
    push_reports(alloc, &mut reports, typed, id)?;
    Ok(reports)
}

fn push_each(
    alloc: Global,
    reports: &mut Seq<Report>,
    typed: &Typed,
    ids: &[MethodId],
) -> Result<(), NoMemory>
    ensures { IfOk result (λ u. reports.new ≡ reports.old ++ flat_map (spec.reports_of typed.now) ids.now) }
{
    for id in ids {
        push_reports(alloc, reports, typed, *id)?;
    }
    Ok(())
}

/// All reports of the rules 8, 10 and 11, in the order of class, method, place and rule.
pub fn pausing_reports(alloc: Global, typed: &Typed) -> Result<Seq<Report>, NoMemory>
    ensures { IfOk result (λ reports. reports ≡ spec.pausing_reports typed.now) }
{
    let mut reports = Seq::new(alloc);
    for class in typed.program.classes.as_slice() {
        push_each(alloc, &mut reports, typed, class.methods.as_slice())?;
    }
    Ok(reports)
}

fn push_if_pausable(
    calls: &mut Seq<(MethodId, u32)>,
    program: &Program,
    id: MethodId,
    placed: &(u32, Instr),
) -> Result<(), NoMemory>
    ensures { IfOk result (λ u. calls.new ≡ calls.old ++ spec.call_if (spec.pauses (spec.called program.now placed.now.1)) id placed.now.0) }
{
    if pauses(called_by(program, &placed.1)) {
        calls.push((id, placed.0))?;
    }
    Ok(())
}

fn push_calls(
    calls: &mut Seq<(MethodId, u32)>,
    program: &Program,
    id: MethodId,
    code: &[(u32, Instr)],
) -> Result<(), NoMemory>
    ensures { IfOk result (λ u. calls.new ≡ calls.old ++ spec.calls_along program.now id code.now) }
{
    for placed in code {
        push_if_pausable(calls, program, id, placed)?;
    }
    Ok(())
}

fn push_calls_of(
    calls: &mut Seq<(MethodId, u32)>,
    program: &Program,
    id: MethodId,
) -> Result<(), NoMemory>
    ensures { IfOk result (λ u. calls.new ≡ calls.old ++ spec.calls_of program.now id) }
{
    match method_at(program, id) {
        None => Ok(()),
        Some(method) => push_calls(calls, program, id, method.code.as_slice()),
    }
}

fn push_calls_of_each(
    calls: &mut Seq<(MethodId, u32)>,
    program: &Program,
    ids: &[MethodId],
) -> Result<(), NoMemory>
    ensures { IfOk result (λ u. calls.new ≡ calls.old ++ flat_map (spec.calls_of program.now) ids.now) }
{
    for id in ids {
        push_calls_of(calls, program, *id)?;
    }
    Ok(())
}

/// The calls of pausable methods, by class, method and place.
pub fn pausable_calls(alloc: Global, program: &Program) -> Result<Pausables, NoMemory>
    ensures { IfOk result (λ pausables. pausables.calls ≡ spec.pausable_calls program.now) }
{
    let mut calls = Seq::new(alloc);
    for class in program.classes.as_slice() {
        push_calls_of_each(&mut calls, program, class.methods.as_slice())?;
    }
    Ok(Pausables { calls })
}

/// The calls of pausable methods, by class, method and place, where none of the rules 8, 10 and 11 is broken; else all
/// reports of these rules.
pub fn graph(alloc: Global, typed: &Typed) -> Result<Pausables, GraphFault>
    ensures { IsGraph typed.now result }
{
    let reports = match pausing_reports(alloc, typed) {
        Ok(reports) => reports,
        Err(NoMemory) => return Err(GraphFault::Memory),
    };
    if !reports.is_empty() {
        return Err(GraphFault::Rules(reports));
    }
    match pausable_calls(alloc, &typed.program) {
        Ok(pausables) => Ok(pausables),
        Err(NoMemory) => Err(GraphFault::Memory),
    }
}
