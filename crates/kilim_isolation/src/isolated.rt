//! Programs that break no rule.

ghost use Rattle.kilim_isolation.specs.Checked.{IsChecked};
ghost use Rattle.kilim_isolation.specs.Judged.{IsJudged};

use crate::check::all_reports;
use kilim_isolation_pauses::{Pausables, Report, pausable_calls};
use kilim_program::Program;
use kilim_type_spec::Typed;
use kilim_type_step::discard;
use kilim_units::{NoMemory, Seq};
use std::alloc::Global;
use std::marker::Model;

/// A program that breaks no rule, with its pausable calls. Its type keeps that it breaks none (`KeepsIsolated`).
#[derive(Drop)]
pub struct Isolated {
    pub typed: Typed,
    pub pausables: Pausables,
}

impl Model for Isolated {
    ghost use Rattle.kilim_isolation.specs.IsolatedProgram as parts;

    ghost Value = { parts.IsolatedProgram };

    ghost view = { λ i. record { typed = i.typed; calls = i.pausables.calls } };

    ghost invariant = { λ i. parts.KeepsIsolated (record { typed = i.typed; calls = i.pausables.calls }) };
}

/// Why a program isn't accepted.
#[derive(Drop)]
pub enum CheckFault {
    /// The program, unchanged, and all its reports; not empty.
    Reports(Program, Seq<Report>),
    Memory,
}

/// Why a program has no pausable calls to go on with.
#[derive(Drop)]
pub enum Refused {
    /// All its reports; not empty.
    Reports(Seq<Report>),
    Memory,
}

// The pausable calls of a program that breaks no rule.
fn accepted(alloc: Global, typed: &Typed) -> Result<Pausables, Refused>
    ensures { IsJudged typed.now result }
{
    let reports = match all_reports(alloc, typed) {
        Ok(reports) => reports,
        Err(NoMemory) => return Err(Refused::Memory),
    };
    if !reports.is_empty() {
        return Err(Refused::Reports(reports));
    }
    drop(reports);
    match pausable_calls(alloc, &typed.program) {
        Ok(pausables) => Ok(pausables),
        Err(NoMemory) => Err(Refused::Memory),
    }
}

/// The program with its pausable calls where it breaks no rule, else all reports.
pub fn check_program(alloc: Global, typed: Typed) -> Result<Isolated, CheckFault>
    ensures { IsChecked typed result }
{
    match accepted(alloc, &typed) {
        Ok(pausables) => Ok(Isolated { typed, pausables }),
        Err(Refused::Reports(reports)) => Err(CheckFault::Reports(typed.program, reports)),
        Err(Refused::Memory) => {
            discard(typed.program);
            Err(CheckFault::Memory)
        }
    }
}
