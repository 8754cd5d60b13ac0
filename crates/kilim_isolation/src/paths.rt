//! What the paths of a method give.

ghost use Rattle.std.specs.Prelude.{◌≡◌, ◌∷◌, ◌++◌, [], true, Ok, IfOk, map, option_copied, slice_get};
ghost use Rattle.kilim_program.specs.Names.{method_at};
ghost use Rattle.kilim_type_spec.specs.Typed.{has_code};
ghost use Rattle.kilim_isolation_pauses.specs.Pausing.{frames_at};
ghost use Rattle.kilim_isolation.specs.Faults as spec;
ghost use Rattle.kilim_isolation.specs.Tables.{IsTable, places_of};
ghost use Rattle.kilim_isolation.specs.Walks.{entry_graph, is_walkable, machine_of};
ghost use Rattle.kilim_isolation_paths.specs.Answer.{IsAnswer};

use crate::first::first_graph;
use crate::machine::Walk;
use crate::merge::push_report;
use crate::tables::{code_table, frame_table};
use crate::walk::whole;
use kilim_isolation_graph::Graph;
use kilim_isolation_paths::{Explored, Report as PathReport, explore};
use kilim_isolation_pauses::Report;
use kilim_program::lookups::method_at;
use kilim_program::{Method, MethodId, Program};
use kilim_type_spec::{Typed, VerifiedFrame};
use kilim_units::{NoMemory, Seq};
use std::alloc::Global;

/// The number of the rule that too many graphs come to one place.
pub const SHAPE_LIMIT: u8 = 12;

/// The number of the rule that a tree stays a tree.
pub const KIND_MIXED: u8 = 6;

// The report of a fault along the paths of a method behind those that are there.
fn push_shown(
    alloc: Global,
    id: MethodId,
    report: &PathReport,
    shown: &mut Seq<Report>,
) -> Result<(), NoMemory>
    ensures { IfOk result (λ u. shown.new ≡ shown.old ++ spec.report_of id report.now ∷ []) }
{
    push_report(
        alloc,
        shown,
        id,
        report.pc,
        report.rule,
        report.path.as_slice(),
    )
}

// The reports of faults along the paths of a method.
fn shown_faults(
    alloc: Global,
    id: MethodId,
    reports: &[PathReport],
) -> Result<Seq<Report>, NoMemory>
    ensures { IfOk result (λ shown. shown ≡ map (spec.report_of id) reports.now) }
{
    let mut shown = Seq::new(alloc);
    for report in reports {
        let Ok(()) = push_shown(alloc, id, report, &mut shown) else {
            return Err(NoMemory);
        };
    }
    Ok(shown)
}

// One report.
fn one_report(
    alloc: Global,
    id: MethodId,
    pc: u32,
    rule: u8,
    path: &[u32],
) -> Result<Seq<Report>, NoMemory>
    ensures { IfOk result (λ reports. reports ≡ record { method = id; pc = pc; rule = rule; path = path.now } ∷ []) }
{
    let mut reports = Seq::new(alloc);
    let Ok(()) = push_report(alloc, &mut reports, id, pc, rule, path) else {
        return Err(NoMemory);
    };
    Ok(reports)
}

fn shown(alloc: Global, id: MethodId, found: Explored) -> Result<Seq<Report>, NoMemory>
    ensures { IfOk result (λ reports. reports ≡ spec.shown id found) }
{
    match found {
        Explored::Faults(reports) => shown_faults(alloc, id, reports.as_slice()),
        Explored::Crowded(pc) => one_report(alloc, id, pc, SHAPE_LIMIT, &[]),
    }
}

// What the paths from a graph come to, by the tables of the places.
fn found_from(
    alloc: Global,
    program: &Program,
    method: &Method,
    code_at: &[usize],
    frames_at: &[usize],
    frames: &[VerifiedFrame],
    first: &Graph,
) -> Result<Explored, NoMemory>
    requires whole { is_walkable method.now ≡ true }
    requires coded { has_code method.now ≡ true }
    requires code { IsTable code_at.now (places_of method.now.code) method.now.code_length }
    requires declared { IsTable frames_at.now (places_of method.now.frames) method.now.code_length }
    ensures { IfOk result (λ found. IsAnswer (machine_of program.now method.now frames.now first.now) found) }
{
    let walk = Walk {
        alloc,
        program,
        method,
        code_at,
        frames_at,
        frames,
        first,
    };
    explore(alloc, &walk)
}

// The same, with the tables.
fn explored(
    alloc: Global,
    program: &Program,
    method: &Method,
    frames: &[VerifiedFrame],
    first: &Graph,
) -> Result<Explored, NoMemory>
    requires whole { is_walkable method.now ≡ true }
    requires coded { has_code method.now ≡ true }
    ensures { IfOk result (λ found. IsAnswer (machine_of program.now method.now frames.now first.now) found) }
{
    let Ok(code_at) = code_table(alloc, method) else {
        return Err(NoMemory);
    };
    let Ok(frames_at) = frame_table(alloc, method) else {
        return Err(NoMemory);
    };
    let found = found_from(alloc, program, method, &code_at, &frames_at, frames, first);
    drop(frames_at);
    drop(code_at);
    found
}

// What the paths of a method with code give that begins with a graph.
#[tactic(auto, using(crate::proofs::Begins::found_reports))]
fn walked_from(
    alloc: Global,
    program: &Program,
    id: MethodId,
    method: &Method,
    frames: &[VerifiedFrame],
    first: &Graph,
) -> Result<Seq<Report>, NoMemory>
    requires whole { is_walkable method.now ≡ true }
    requires coded { has_code method.now ≡ true }
    ensures { IfOk result (λ reports. spec.ArePathReports program.now id method.now frames.now (Ok first.now) reports) }
{
    let Ok(found) = explored(alloc, program, method, frames, first) else {
        return Err(NoMemory);
    };
    shown(alloc, id, found)
}

// What the paths of a method with code give.
#[tactic(auto, using(crate::proofs::Begins::begun_reports, crate::proofs::Begins::entry_reports))]
fn walked(
    alloc: Global,
    program: &Program,
    id: MethodId,
    method: &Method,
    frames: &[VerifiedFrame],
) -> Result<Seq<Report>, NoMemory>
    requires whole { is_walkable method.now ≡ true }
    requires coded { has_code method.now ≡ true }
    ensures { IfOk result (λ reports. spec.ArePathReports program.now id method.now frames.now (entry_graph program.now method.now) reports) }
{
    match first_graph(alloc, program, method) {
        Ok(Some(first)) => {
            let walked = walked_from(alloc, program, id, method, frames, &first);
            drop(first);
            walked
        }
        Ok(None) => one_report(alloc, id, 0, KIND_MIXED, &[0]),
        Err(NoMemory) => Err(NoMemory),
    }
}

fn frames_of(typed: &Typed, id: MethodId) -> Option<&Seq<VerifiedFrame>>
    ensures { option_copied result ≡ slice_get typed.now.frames id.0 }
{
    typed.frames.as_slice().get(id.0 as usize)
}

fn frames_at(typed: &Typed, id: MethodId) -> &[VerifiedFrame]
    ensures { result.now ≡ frames_at typed.now id }
{
    match frames_of(typed, id) {
        None => &[],
        Some(frames) => frames.as_slice(),
    }
}

/// What the paths of a method give; nothing where it has no code.
#[tactic(auto, using(crate::proofs::Begins::paths_none, crate::proofs::Begins::paths_empty, crate::proofs::Begins::paths_some))]
pub fn paths_of(alloc: Global, typed: &Typed, id: MethodId) -> Result<Seq<Report>, NoMemory>
    ensures { IfOk result (λ reports. spec.ArePathsOf typed.now.program id (frames_at typed.now id) (method_at typed.now.program id) reports) }
{
    let Some(method) = method_at(&typed.program, id) else {
        return Ok(Seq::new(alloc));
    };
    if method.code.is_empty() {
        return Ok(Seq::new(alloc));
    }
    whole(&typed.program, id, method);
    walked(alloc, &typed.program, id, method, frames_at(typed, id))
}
