//! Whole runs.

ghost use Rattle.std.specs.Prelude.{◌≤◌, IfOk};
ghost use Rattle.kilim_run.specs.Runs.{IsJournalOf, setting_of};
ghost use Rattle.kilim_fiber_laws.specs.Served.{CanServe};

use crate::named::{named_alone, named_with};
use kilim_fiber_body::Code;
use kilim_isolation_laws::at_rest::readable::runs_are_readable;
use kilim_outside::Gate;
use kilim_program::{ClassId, Program};
use kilim_run_journal::{Entry, journal_fits};
use kilim_run_model::one_heap::moved_is_whole;
use kilim_run_state::Limits;
use kilim_units::NoMemory;
use kilim_weave::Woven;
use std::alloc::Global;
use std::marker::Brand;
use std::sync::Wait;
use std::thread::Threads;

// The journal of a run of the code by one worker.
fn journal_alone<G: Gate>(
    alloc: Global,
    code: &Code,
    main: ClassId,
    limits: &Limits,
    gate: &G,
) -> Result<Vec<Entry>, NoMemory>
    requires served { CanServe (setting_of code.now.plain main limits.now) code.now.program code.now.counted }
    ensures { IfOk result (λ es. IsJournalOf (setting_of code.now.plain main limits.now) es.items) }
{
    moved_is_whole();
    runs_are_readable();
    let Ok(entries) = named_alone::<Brand, G>(alloc, code, main, limits, gate) else {
        return Err(NoMemory);
    };
    journal_fits(entries.as_slice());
    Ok(entries)
}

// The same by so many workers.
fn journal_by<R: Threads + Wait + Sync, G: Gate>(
    rt: &R,
    alloc: Global,
    code: &Code,
    main: ClassId,
    limits: &Limits,
    workers: usize,
    gate: &G,
) -> Result<Vec<Entry>, NoMemory>
    requires workers { (1 ≤ workers) × (workers ≤ 16) }
    requires served { CanServe (setting_of code.now.plain main limits.now) code.now.program code.now.counted }
    ensures { IfOk result (λ es. IsJournalOf (setting_of code.now.plain main limits.now) es.items) }
{
    moved_is_whole();
    runs_are_readable();
    let Ok(entries) = named_with::<Brand, R, G>(rt, alloc, code, main, limits, workers, gate) else {
        return Err(NoMemory);
    };
    journal_fits(entries.as_slice());
    Ok(entries)
}

/// Runs the program with the main class by its woven form and one worker, the caller: it takes no runtime and waits for nobody. The
/// error is want of memory alone.
pub fn run_alone<G: Gate>(
    alloc: Global,
    plain: Program,
    woven: Woven,
    main: ClassId,
    limits: &Limits,
    gate: &G,
) -> Result<Vec<Entry>, NoMemory>
    requires { CanServe (setting_of plain main limits.now) woven.program woven.counted }
    ensures { IfOk result (λ es. IsJournalOf (setting_of plain main limits.now) es.items) }
{
    let Ok(code) = Code::new(alloc, plain, woven.program, woven.counted) else {
        return Err(NoMemory);
    };
    let ran = journal_alone(alloc, &code, main, limits, gate);
    code.end();
    ran
}

// The same by so many workers.
fn run_by<R: Threads + Wait + Sync, G: Gate>(
    rt: &R,
    alloc: Global,
    plain: Program,
    woven: Woven,
    main: ClassId,
    limits: &Limits,
    workers: usize,
    gate: &G,
) -> Result<Vec<Entry>, NoMemory>
    requires workers { (1 ≤ workers) × (workers ≤ 16) }
    requires served { CanServe (setting_of plain main limits.now) woven.program woven.counted }
    ensures { IfOk result (λ es. IsJournalOf (setting_of plain main limits.now) es.items) }
{
    let Ok(code) = Code::new(alloc, plain, woven.program, woven.counted) else {
        return Err(NoMemory);
    };
    let ran = journal_by(rt, alloc, &code, main, limits, workers, gate);
    code.end();
    ran
}

/// Runs the program with the main class by its woven form and so many workers, from 2 to 16; another number is that of one. It may
/// wait. The error is want of memory alone.
pub fn run_with<R: Threads + Wait + Sync, G: Gate>(
    rt: &R,
    alloc: Global,
    plain: Program,
    woven: Woven,
    main: ClassId,
    limits: &Limits,
    workers: u64,
    gate: &G,
) -> Result<Vec<Entry>, NoMemory>
    requires { CanServe (setting_of plain main limits.now) woven.program woven.counted }
    ensures { IfOk result (λ es. IsJournalOf (setting_of plain main limits.now) es.items) }
{
    if workers < 2 || workers > 16 {
        return run_alone(alloc, plain, woven, main, limits, gate);
    }
    run_by(
        rt,
        alloc,
        plain,
        woven,
        main,
        limits,
        workers as usize,
        gate,
    )
}
