//! One entry more.

ghost use Rattle.std.specs.Prelude.{◌≡◌, ◌++◌, ◌∷◌, [], ◌≢◌, true, false, IfOk, List};
ghost use Rattle.kilim_run_board.specs.Seen.{seen};
ghost use Rattle.kilim_run_follow.specs.Follow.{IsFollowing};
ghost use Rattle.kilim_run_follow.specs.Steps.{MakesNext, FollowsEntry};
ghost use Rattle.kilim_run_journal.specs.declared.entry.Entry.{Entry as Event};
ghost use Rattle.kilim_run_model.specs.State.{Setting};
ghost use Rattle.kilim_run_workers.specs.one_worker.Pool.{IsOf, IsLending, IsCalm, WaitsAt};

use crate::lending::{lend_task, settle_at};
use kilim_program::ClassId;
use kilim_run_board::Board;
use kilim_run_board::fibers::Fibers;
use kilim_run_journal::Entry;
use kilim_run_same::same_entry;
use kilim_run_state::Limits;
use kilim_run_workers::one_worker::{Next, advance};
use kilim_units::NoMemory;

// Runs a lent fiber on to its next entry, and gives it back, at this place among those that are ready. It makes none where it would have to
// wait.
fn make_entry<F: Fibers>(
    board: &mut Board<F>,
    fiber: F,
    at: usize,
    code: &F::Code,
    limits: &Limits,
    main: ClassId,
) -> Result<bool, NoMemory>
    requires some { (set : Setting) × IsOf F.serves code.now main limits.now set }
    requires lending { IsLending F.task_of F.course_of F.holds (IsOf F.serves code.now main limits.now) board.old fiber }
    requires calm { IsCalm F.refused (seen board.old) }
    requires waits { WaitsAt F.refused board.old fiber }
    requires alone { board.old.parked.items ≡ [] }
    ensures { IfOk result (MakesNext F.task_of F.course_of F.holds F.refused (IsOf F.serves code.now main limits.now) (F.task_of fiber) board.old.journal.items board.new) }
{
    let before = board.journal.len();
    let mut fiber = fiber;
    loop {
        let Ok(next) = advance(board, &mut fiber, code, limits, main) else {
            return Err(NoMemory);
        };
        match next {
            Next::Rests(waits) => {
                match waits {
                    None => {}
                    Some(_) => {
                        drop(fiber);
                        return Ok(false);
                    }
                }
            }
            Next::Over => {
                drop(fiber);
                return Ok(true);
            }
            Next::On => {
                if board.journal.len() > before {
                    board.give_back(0, fiber, None);
                    return match settle_at(board, at) {
                        Ok(()) => Ok(true),
                        Err(fault) => Err(fault),
                    };
                }
            }
        }
    }
}

// Whether the last entry of a journal is this one.
fn ends_with(journal: &[Entry], entry: &Entry) -> bool
    ensures yes { result ≡ true → (before : List Event) × (journal.now ≡ before ++ entry.now ∷ []) }
    ensures no { result ≡ false → (before : List Event) → journal.now ≢ before ++ entry.now ∷ [] }
{
    match journal.last() {
        Some(last) => same_entry(last, entry),
        None => false,
    }
}

/// Has the task of an entry make its next one, and answers whether it is this one. Where it isn't, no state follows with that entry.
pub fn follow_entry<F: Fibers>(
    board: &mut Board<F>,
    entry: &Entry,
    code: &F::Code,
    limits: &Limits,
    main: ClassId,
) -> Result<bool, NoMemory>
    requires some { (set : Setting) × IsOf F.serves code.now main limits.now set }
    requires following { IsFollowing F.task_of F.course_of F.holds F.refused (IsOf F.serves code.now main limits.now) board.old }
    ensures { IfOk result (FollowsEntry F.task_of F.course_of F.holds F.refused (IsOf F.serves code.now main limits.now) board.old.journal.items entry.now board.new) }
{
    let Some((fiber, at)) = lend_task(board, entry.task) else {
        return Ok(false);
    };
    match make_entry(board, fiber, at, code, limits, main) {
        Ok(true) => Ok(ends_with(board.journal.as_slice(), entry)),
        Ok(false) => Ok(false),
        Err(fault) => Err(fault),
    }
}
