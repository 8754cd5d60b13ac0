//! Runs of the code of a named woven program.

ghost use Rattle.std.specs.Prelude.{◌≤◌, IfOk};
ghost use Rattle.kilim_run_board.specs.Seen.{MovedWhole};
ghost use Rattle.kilim_fiber.specs.named.Named.{ServesNamed};
ghost use Rattle.kilim_run.specs.Runs.{IsStopped};
ghost use Rattle.kilim_run_follow.specs.Resuming.{WentOn};
ghost use Rattle.kilim_run_model.specs.State.{Setting};
ghost use Rattle.kilim_run_workers.specs.one_worker.Pool.{IsOf};

use kilim_fiber::named::{Named, Woven};
use kilim_fiber_body::Code;
use kilim_outside::Gate;
use kilim_program::ClassId;
use kilim_run_board::boxed::Boxed;
use kilim_run_follow::{Resumed, resume_one, resume_pool};
use kilim_run_journal::Entry;
use kilim_run_state::Limits;
use kilim_run_workers::one_worker::{run_one, run_some};
use kilim_run_workers::run_pool;
use kilim_units::NoMemory;
use std::alloc::Global;
use std::sync::Wait;
use std::thread::Threads;

/// A run by one worker, of the woven program that `K` names.
pub fn named_alone<K: Woven, G: Gate>(
    alloc: Global,
    code: &Code,
    main: ClassId,
    limits: &Limits,
    gate: &G,
) -> Result<Vec<Entry>, NoMemory>
    requires some { (set : Setting) × IsOf (ServesNamed K.program K.counted) code.now main limits.now set }
    ensures { (set : Setting) → IsOf (ServesNamed K.program K.counted) code.now main limits.now set → IfOk result (λ es. MovedWhole set es.items) }
{
    run_one::<Boxed<Named<K>>, G>(alloc, code, main, limits, gate)
}

/// The same by so many workers.
pub fn named_with<K: Woven + Send, R: Threads + Wait + Sync, G: Gate>(
    rt: &R,
    alloc: Global,
    code: &Code,
    main: ClassId,
    limits: &Limits,
    workers: usize,
    gate: &G,
) -> Result<Vec<Entry>, NoMemory>
    requires workers { (1 ≤ workers) × (workers ≤ 16) }
    requires some { (set : Setting) × IsOf (ServesNamed K.program K.counted) code.now main limits.now set }
    ensures { (set : Setting) → IsOf (ServesNamed K.program K.counted) code.now main limits.now set → IfOk result (λ es. MovedWhole set es.items) }
{
    run_pool::<Boxed<Named<K>>, R, G>(rt, alloc, code, main, limits, workers, gate)
}

/// A run by one worker that is stopped where it has so many entries and no fiber is lent.
pub fn named_some<K: Woven, G: Gate>(
    alloc: Global,
    code: &Code,
    main: ClassId,
    limits: &Limits,
    entries: u64,
    gate: &G,
) -> Result<Vec<Entry>, NoMemory>
    requires some { (set : Setting) × IsOf (ServesNamed K.program K.counted) code.now main limits.now set }
    ensures { (set : Setting) → IsOf (ServesNamed K.program K.counted) code.now main limits.now set → IfOk result (λ es. IsStopped set entries es.items) }
{
    run_some::<Boxed<Named<K>>, G>(alloc, code, main, limits, entries, gate)
}

/// Follows a journal, and goes on by one worker.
pub fn named_resumed<K: Woven, G: Gate>(
    alloc: Global,
    code: &Code,
    main: ClassId,
    limits: &Limits,
    journal: &[Entry],
    gate: &G,
) -> Result<Resumed, NoMemory>
    requires some { (set : Setting) × IsOf (ServesNamed K.program K.counted) code.now main limits.now set }
    ensures { IfOk result (WentOn (IsOf (ServesNamed K.program K.counted) code.now main limits.now) journal.now) }
{
    resume_one::<Boxed<Named<K>>, G>(alloc, code, main, limits, journal, gate)
}

/// The same by so many workers.
pub fn named_resumed_with<K: Woven + Send, R: Threads + Wait + Sync, G: Gate>(
    rt: &R,
    alloc: Global,
    code: &Code,
    main: ClassId,
    limits: &Limits,
    journal: &[Entry],
    workers: usize,
    gate: &G,
) -> Result<Resumed, NoMemory>
    requires workers { (1 ≤ workers) × (workers ≤ 16) }
    requires some { (set : Setting) × IsOf (ServesNamed K.program K.counted) code.now main limits.now set }
    ensures { IfOk result (WentOn (IsOf (ServesNamed K.program K.counted) code.now main limits.now) journal.now) }
{
    resume_pool::<Boxed<Named<K>>, R, G>(rt, alloc, code, main, limits, journal, workers, gate)
}
