//! A run goes on from a journal.

ghost use Rattle.std.specs.Prelude.{◌≤◌, IfOk};
ghost use Rattle.kilim_run_follow.specs.Resuming.{WentOn};
ghost use Rattle.kilim_run_model.specs.State.{Setting};
ghost use Rattle.kilim_run_workers.specs.one_worker.Pool.{IsOf};

use crate::following::{Followed, follow};
use kilim_outside::Gate;
use kilim_program::ClassId;
use kilim_run_board::fibers::Fibers;
use kilim_run_journal::Entry;
use kilim_run_state::Limits;
use kilim_run_workers::go_on;
use kilim_run_workers::one_worker::go_on_one;
use kilim_units::NoMemory;
use std::alloc::Global;
use std::sync::Wait;
use std::thread::Threads;

/// What going on from a journal comes to.
#[derive(Drop)]
pub enum Resumed {
    /// The journal of the run, from its first entry on.
    Journal(Vec<Entry>),
    /// The line of the first entry that can't come, from 1 on.
    Differs(usize),
}

/// Follows a journal, and goes on by one worker, the caller.
pub fn resume_one<F: Fibers, G: Gate>(
    alloc: Global,
    code: &F::Code,
    main: ClassId,
    limits: &Limits,
    journal: &[Entry],
    gate: &G,
) -> Result<Resumed, NoMemory>
    requires some { (set : Setting) × IsOf F.serves code.now main limits.now set }
    ensures { IfOk result (WentOn (IsOf F.serves code.now main limits.now) journal.now) }
{
    let Ok(followed) = follow::<F>(alloc, code, main, limits, journal, 1) else {
        return Err(NoMemory);
    };
    match followed {
        Followed::Board(board) => {
            let Ok(entries) = go_on_one(code, main, limits, board, gate) else {
                return Err(NoMemory);
            };
            Ok(Resumed::Journal(entries))
        }
        Followed::Differs(line) => Ok(Resumed::Differs(line)),
    }
}

/// The same by so many workers. It may wait.
pub fn resume_pool<F: Fibers + Send, R: Threads + Wait + Sync, G: Gate>(
    rt: &R,
    alloc: Global,
    code: &F::Code,
    main: ClassId,
    limits: &Limits,
    journal: &[Entry],
    workers: usize,
    gate: &G,
) -> Result<Resumed, NoMemory>
where
    F::Code: Sync,
    requires workers { (1 ≤ workers) × (workers ≤ 16) }
    requires some { (set : Setting) × IsOf F.serves code.now main limits.now set }
    ensures { IfOk result (WentOn (IsOf F.serves code.now main limits.now) journal.now) }
{
    let Ok(followed) = follow::<F>(alloc, code, main, limits, journal, workers) else {
        return Err(NoMemory);
    };
    match followed {
        Followed::Board(board) => {
            let went = go_on(rt, alloc, code, main, limits, board, workers, gate);
            let Ok(entries) = went else {
                return Err(NoMemory);
            };
            Ok(Resumed::Journal(entries))
        }
        Followed::Differs(line) => Ok(Resumed::Differs(line)),
    }
}
