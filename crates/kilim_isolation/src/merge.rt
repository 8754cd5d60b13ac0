//! Two lists of reports in one.

ghost use Rattle.std.specs.Prelude.{◌≡◌, ◌≤◌, ◌++◌, ◌∷◌, [], drop, length, IfOk, OnOk};
ghost use Rattle.kilim_isolation.specs.Faults as spec;

use kilim_isolation_pauses::Report;
use kilim_program::MethodId;
use kilim_units::{NoMemory, Seq};
use std::alloc::Global;

fn comes_before(a: &Report, b: &Report) -> bool
    ensures { result ≡ spec.comes_before a.now b.now }
{
    a.pc < b.pc || (a.pc == b.pc && a.rule < b.rule)
}

/// A report with a copy of its path behind those that are there.
pub fn push_report(
    alloc: Global,
    into: &mut Seq<Report>,
    method: MethodId,
    pc: u32,
    rule: u8,
    path: &[u32],
) -> Result<(), NoMemory>
    ensures { OnOk result (into.new ≡ into.old ++ record { method = method; pc = pc; rule = rule; path = path.now } ∷ []) }
{
    let Ok(path) = Vec::from_slice(alloc, path) else {
        return Err(NoMemory);
    };
    let Ok(()) = into.push(Report {
        method,
        pc,
        rule,
        path: Seq::from_vec(path),
    }) else {
        return Err(NoMemory);
    };
    Ok(())
}

// A report behind those that are there.
fn push_copy(alloc: Global, into: &mut Seq<Report>, report: &Report) -> Result<(), NoMemory>
    ensures { OnOk result (into.new ≡ into.old ++ report.now ∷ []) }
{
    push_report(
        alloc,
        into,
        report.method,
        report.pc,
        report.rule,
        report.path.as_slice(),
    )
}

/// The reports behind those that are there.
pub fn append(alloc: Global, into: &mut Seq<Report>, more: &[Report]) -> Result<(), NoMemory>
    ensures { IfOk result (λ u. into.new ≡ into.old ++ more.now) }
{
    for report in more {
        let Ok(()) = push_copy(alloc, into, report) else {
            return Err(NoMemory);
        };
    }
    Ok(())
}

// Those from a number on that come before a report, behind those that are there; the number of the first other one.
fn push_earlier(
    alloc: Global,
    report: &Report,
    others: &[Report],
    from: usize,
    into: &mut Seq<Report>,
) -> Result<usize, NoMemory>
    ensures pushed { IfOk result (λ at. into.new ≡ into.old ++ spec.earlier report.now (drop from others.now)) }
    ensures rest { IfOk result (λ at. drop at others.now ≡ spec.later report.now (drop from others.now)) }
{
    for at in from..others.len() {
        let other = &others[at];
        if !comes_before(other, report) {
            return Ok(at);
        }
        let Ok(()) = push_copy(alloc, into, other) else {
            return Err(NoMemory);
        };
    }
    Ok(from.max(others.len()))
}

// Both lists in one behind those that are there, each of the second before the first of the first list before which it comes.
fn push_merged(
    alloc: Global,
    into: &mut Seq<Report>,
    reports: &[Report],
    others: &[Report],
) -> Result<(), NoMemory>
    ensures { IfOk result (λ u. into.new ≡ into.old ++ spec.merged reports.now others.now) }
{
    let mut at = 0;
    for report in reports {
        let Ok(next) = push_earlier(alloc, report, others, at, into) else {
            return Err(NoMemory);
        };
        let Ok(()) = push_copy(alloc, into, report) else {
            return Err(NoMemory);
        };
        at = next;
    }
    append(alloc, into, &others[at.min(others.len())..])
}

/// Both lists in one, each of the second before the first of the first list before which it comes.
pub fn merged(alloc: Global, reports: &[Report], others: &[Report]) -> Result<Seq<Report>, NoMemory>
    ensures { IfOk result (λ all. all ≡ spec.merged reports.now others.now) }
{
    let mut all = Seq::new(alloc);
    let Ok(()) = push_merged(alloc, &mut all, reports, others) else {
        return Err(NoMemory);
    };
    Ok(all)
}
