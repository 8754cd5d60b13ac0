//! Runs that are stopped, and go on.

ghost use Rattle.std.specs.Prelude.{◌≤◌, IfOk};
ghost use Rattle.kilim_fiber_laws.specs.Served.{CanServe};
ghost use Rattle.kilim_run.specs.Runs.{IsCourseOf, IsResumed, ResumedFits, setting_of};

use crate::named::{named_resumed, named_resumed_with, named_some};
use kilim_fiber_body::Code;
use kilim_isolation_laws::at_rest::readable::{entries_are_readable, runs_are_readable};
use kilim_outside::Gate;
use kilim_program::{ClassId, Program};
use kilim_run_follow::Resumed;
use kilim_run_journal::{Entry, journal_fits};
use kilim_run_model::one_heap::moved_is_whole;
use kilim_run_state::Limits;
use kilim_units::NoMemory;
use kilim_weave::Woven;
use std::alloc::Global;
use std::marker::Brand;
use std::sync::Wait;
use std::thread::Threads;

// The journal of a run of the code by one worker, stopped where it has so many entries.
fn journal_until<G: Gate>(
    alloc: Global,
    code: &Code,
    main: ClassId,
    limits: &Limits,
    entries: u64,
    gate: &G,
) -> Result<Vec<Entry>, NoMemory>
    requires served { CanServe (setting_of code.now.plain main limits.now) code.now.program code.now.counted }
    ensures { IfOk result (λ es. IsCourseOf (setting_of code.now.plain main limits.now) entries es.items) }
{
    entries_are_readable();
    let Ok(journal) = named_some::<Brand, G>(alloc, code, main, limits, entries, gate) else {
        return Err(NoMemory);
    };
    journal_fits(journal.as_slice());
    Ok(journal)
}

// What a journal is, once it is said that its numbers are in their ranges.
fn with_fits(resumed: &Resumed)
    ensures { ResumedFits resumed.now }
{
    match resumed {
        Resumed::Journal(entries) => journal_fits(entries.as_slice()),
        Resumed::Differs(_) => {}
    }
}

// Goes on from a journal, by one worker.
fn resumed_alone<G: Gate>(
    alloc: Global,
    code: &Code,
    main: ClassId,
    limits: &Limits,
    journal: &[Entry],
    gate: &G,
) -> Result<Resumed, NoMemory>
    requires served { CanServe (setting_of code.now.plain main limits.now) code.now.program code.now.counted }
    ensures { IfOk result (IsResumed (setting_of code.now.plain main limits.now) journal.now) }
{
    moved_is_whole();
    runs_are_readable();
    let Ok(resumed) = named_resumed::<Brand, G>(alloc, code, main, limits, journal, gate) else {
        return Err(NoMemory);
    };
    with_fits(&resumed);
    Ok(resumed)
}

// The same by so many workers.
fn resumed_by<R: Threads + Wait + Sync, G: Gate>(
    rt: &R,
    alloc: Global,
    code: &Code,
    main: ClassId,
    limits: &Limits,
    journal: &[Entry],
    workers: usize,
    gate: &G,
) -> Result<Resumed, NoMemory>
    requires workers { (1 ≤ workers) × (workers ≤ 16) }
    requires served { CanServe (setting_of code.now.plain main limits.now) code.now.program code.now.counted }
    ensures { IfOk result (IsResumed (setting_of code.now.plain main limits.now) journal.now) }
{
    moved_is_whole();
    runs_are_readable();
    let ran = named_resumed_with::<Brand, R, G>(
        rt, alloc, code, main, limits, journal, workers, gate,
    );
    let Ok(resumed) = ran else {
        return Err(NoMemory);
    };
    with_fits(&resumed);
    Ok(resumed)
}

/// Runs the program with the main class by its woven form and one worker, the caller, until no fiber is lent and the journal has so many
/// entries, or the run is at rest: the journal as it is then, without who waits. The error is want of memory alone.
pub fn run_until<G: Gate>(
    alloc: Global,
    plain: Program,
    woven: Woven,
    main: ClassId,
    limits: &Limits,
    entries: u64,
    gate: &G,
) -> Result<Vec<Entry>, NoMemory>
    requires { CanServe (setting_of plain main limits.now) woven.program woven.counted }
    ensures { IfOk result (λ es. IsCourseOf (setting_of plain main limits.now) entries es.items) }
{
    let Ok(code) = Code::new(alloc, plain, woven.program, woven.counted) else {
        return Err(NoMemory);
    };
    let ran = journal_until(alloc, &code, main, limits, entries, gate);
    code.end();
    ran
}

/// Goes on from a journal by one worker, the caller: it takes no runtime and waits for nobody. The journal of the whole run comes of it, which
/// begins with the given one; or the line of the first entry that can't come. The error is want of memory alone.
pub fn resume_alone<G: Gate>(
    alloc: Global,
    plain: Program,
    woven: Woven,
    main: ClassId,
    limits: &Limits,
    journal: &[Entry],
    gate: &G,
) -> Result<Resumed, NoMemory>
    requires { CanServe (setting_of plain main limits.now) woven.program woven.counted }
    ensures { IfOk result (IsResumed (setting_of plain main limits.now) journal.now) }
{
    let Ok(code) = Code::new(alloc, plain, woven.program, woven.counted) else {
        return Err(NoMemory);
    };
    let ran = resumed_alone(alloc, &code, main, limits, journal, gate);
    code.end();
    ran
}

// The same by so many workers.
fn resume_by<R: Threads + Wait + Sync, G: Gate>(
    rt: &R,
    alloc: Global,
    plain: Program,
    woven: Woven,
    main: ClassId,
    limits: &Limits,
    journal: &[Entry],
    workers: usize,
    gate: &G,
) -> Result<Resumed, NoMemory>
    requires workers { (1 ≤ workers) × (workers ≤ 16) }
    requires served { CanServe (setting_of plain main limits.now) woven.program woven.counted }
    ensures { IfOk result (IsResumed (setting_of plain main limits.now) journal.now) }
{
    let Ok(code) = Code::new(alloc, plain, woven.program, woven.counted) else {
        return Err(NoMemory);
    };
    let ran = resumed_by(rt, alloc, &code, main, limits, journal, workers, gate);
    code.end();
    ran
}

/// The same by so many workers, from 2 to 16; another number is that of one. It may wait.
pub fn resume_with<R: Threads + Wait + Sync, G: Gate>(
    rt: &R,
    alloc: Global,
    plain: Program,
    woven: Woven,
    main: ClassId,
    limits: &Limits,
    journal: &[Entry],
    workers: u64,
    gate: &G,
) -> Result<Resumed, NoMemory>
    requires { CanServe (setting_of plain main limits.now) woven.program woven.counted }
    ensures { IfOk result (IsResumed (setting_of plain main limits.now) journal.now) }
{
    if workers < 2 || workers > 16 {
        return resume_alone(alloc, plain, woven, main, limits, journal, gate);
    }
    resume_by(
        rt,
        alloc,
        plain,
        woven,
        main,
        limits,
        journal,
        workers as usize,
        gate,
    )
}
