//! Following a journal.

ghost use Rattle.std.specs.Prelude.{◌≡◌, ◌≤◌, ◌∷◌, [], None, OnOk, IfOk, replicate};
ghost use Rattle.kilim_run_board.specs.Board.{BoardStands};
ghost use Rattle.kilim_run_board.specs.Seen.{seen, IsRoomy};
ghost use Rattle.kilim_run_follow.specs.Follow.{FollowedAs, HasFollowed, IsFollowing};
ghost use Rattle.kilim_run_follow.specs.Lending.{Widens};
ghost use Rattle.kilim_run_follow.specs.Steps.{FollowsAll, HasGoneOn};
ghost use Rattle.kilim_run_model.specs.State.{Setting};
ghost use Rattle.kilim_run_workers.specs.one_worker.Pool.{IsCalm, IsOf, IsResting};

use crate::lending::lend_task;
use crate::steps::follow_entry;
use kilim_program::ClassId;
use kilim_run_board::Board;
use kilim_run_board::fibers::Fibers;
use kilim_run_journal::Entry;
use kilim_run_state::Limits;
use kilim_run_workers::one_worker::run_fiber;
use kilim_units::NoMemory;
use std::alloc::Global;

/// What following a journal comes to.
#[derive(Drop)]
pub enum Followed<F> {
    /// The board from which the run goes on.
    Board(Board<F>),
    /// The line of the first entry that can't come, from 1 on.
    Differs(usize),
}

// Has each entry made by its task, up to the first that can't come: its line.
fn follow_all<F: Fibers>(
    board: &mut Board<F>,
    journal: &[Entry],
    code: &F::Code,
    limits: &Limits,
    main: ClassId,
) -> Result<Option<usize>, NoMemory>
    requires some { (set : Setting) × IsOf F.serves code.now main limits.now set }
    requires following { IsFollowing F.task_of F.course_of F.holds F.refused (IsOf F.serves code.now main limits.now) board.old }
    requires none { board.old.journal.items ≡ [] }
    ensures { IfOk result (FollowsAll F.task_of F.course_of F.holds F.refused (IsOf F.serves code.now main limits.now) journal.now board.new) }
{
    for at in 0..journal.len() {
        match follow_entry(board, &journal[at], code, limits, main) {
            Ok(true) => {}
            Ok(false) => return Ok(Some(at + 1)),
            Err(fault) => return Err(fault),
        }
    }
    Ok(None)
}

// Runs each fiber that is ready on to its next rest or its end, by the numbers of their tasks.
fn go_on_a_little<F: Fibers>(
    board: &mut Board<F>,
    code: &F::Code,
    limits: &Limits,
    main: ClassId,
) -> Result<(), NoMemory>
    requires some { (set : Setting) × IsOf F.serves code.now main limits.now set }
    requires resting { IsResting F.task_of F.course_of F.holds (IsOf F.serves code.now main limits.now) board.old }
    requires calm { IsCalm F.refused (seen board.old) }
    ensures { OnOk result (HasGoneOn F.task_of F.course_of F.holds F.refused (IsOf F.serves code.now main limits.now) board.old.journal.items board.new) }
{
    for task in 0..board.tasks {
        match lend_task(board, task) {
            None => {}
            Some((fiber, _)) => {
                let Ok(()) = run_fiber(board, fiber, code, limits, main) else {
                    return Err(NoMemory);
                };
            }
        }
    }
    Ok(())
}

// Gives the board so many seats, which are empty.
fn widen<F: Fibers>(board: &mut Board<F>, seats: usize) -> Result<(), NoMemory>
    requires free { board.old.cells.items ≡ None ∷ [] }
    requires some { 1 ≤ seats }
    requires roomy { IsRoomy board.old }
    ensures wide { OnOk result (Widens (seen board.old) (seen board.new) seats) }
    ensures stands { (set : Setting) → BoardStands F.task_of F.course_of F.holds set (seen board.old) → OnOk result (BoardStands F.task_of F.course_of F.holds set (seen board.new)) }
    ensures roomy { OnOk result (IsRoomy board.new) }
{
    match board.cells.resize(seats, None) {
        Ok(()) => Ok(()),
        Err(_) => Err(NoMemory),
    }
}

// The board of a run that followed a journal, with so many seats.
fn make_board<F: Fibers>(
    board: Board<F>,
    seats: usize,
    code: &F::Code,
    limits: &Limits,
    main: ClassId,
) -> Result<Board<F>, NoMemory>
    requires some { (set : Setting) × IsOf F.serves code.now main limits.now set }
    requires following { IsFollowing F.task_of F.course_of F.holds F.refused (IsOf F.serves code.now main limits.now) board }
    requires seats { 1 ≤ seats }
    ensures { IfOk result (HasFollowed F.task_of F.course_of F.holds F.refused (IsOf F.serves code.now main limits.now) board.journal.items seats) }
{
    let mut board = board;
    let Ok(()) = go_on_a_little(&mut board, code, limits, main) else {
        drop(board);
        return Err(NoMemory);
    };
    match widen(&mut board, seats) {
        Ok(()) => Ok(board),
        Err(fault) => {
            drop(board);
            Err(fault)
        }
    }
}

/// Follows a journal: each entry is made by its task, run by its fiber. Where all come, each task that hasn't ended is run on to its next rest
/// or its end, by increasing number, and the board has so many seats; else the line of the first entry that can't come. The error is want of
/// memory alone.
pub fn follow<F: Fibers>(
    alloc: Global,
    code: &F::Code,
    main: ClassId,
    limits: &Limits,
    journal: &[Entry],
    seats: usize,
) -> Result<Followed<F>, NoMemory>
    requires some { (set : Setting) × IsOf F.serves code.now main limits.now set }
    requires seats { 1 ≤ seats }
    ensures { IfOk result (FollowedAs F.task_of F.course_of F.holds F.refused (IsOf F.serves code.now main limits.now) journal.now seats) }
{
    let Ok(fiber) = F::boot(alloc, code, main) else {
        return Err(NoMemory);
    };
    let mut board = match Board::new(alloc, fiber, 1) {
        Ok(board) => board,
        Err(_) => return Err(NoMemory),
    };
    match follow_all(&mut board, journal, code, limits, main) {
        Ok(None) => match make_board(board, seats, code, limits, main) {
            Ok(board) => Ok(Followed::Board(board)),
            Err(fault) => Err(fault),
        },
        Ok(Some(line)) => {
            drop(board);
            Ok(Followed::Differs(line))
        }
        Err(fault) => {
            drop(board);
            Err(fault)
        }
    }
}
