//! The fiber of a task, among those that are ready.

ghost use Rattle.std.specs.Prelude.{◌≡◌, ◌≢◌, ◌≤◌, [], ◌∷◌, None, length, OnOk, IfSome, IfNone};
ghost use Rattle.std.specs.List.{All};
ghost use Rattle.kilim_run_board.specs.Board.{BoardStands};
ghost use Rattle.kilim_run_board.specs.Seen.{seen, IsRoomy, CourseAt};
ghost use Rattle.kilim_run_board.specs.fibers.Fibers.{StandsFor};
ghost use Rattle.kilim_run_follow.specs.Lending.{IsPlaceOf, LendsTask, Reorders, TakesOut};
ghost use Rattle.std.specs.VecDeque.{deque_capacity};
ghost use Rattle.kilim_run_model.specs.State.{Setting};

use kilim_run_board::Board;
use kilim_run_board::fibers::Fibers;
use kilim_units::NoMemory;
use std::collections::VecDeque;

// The task of the fiber at a place.
fn task_at<F: Fibers>(ready: &VecDeque<F>, at: usize) -> Option<u32>
    ensures some { IfSome result (λ t. IsPlaceOf F.task_of ready.now.items t at) }
    ensures none { IfNone result (length ready.now.items ≤ at) }
{
    match ready.get(at) {
        Some(fiber) => Some(fiber.task()),
        None => None,
    }
}

// The place of a task's fiber, where the fibers stand by the numbers of their tasks: the half in which it may be is halved.
fn place_by_halves<F: Fibers>(ready: &VecDeque<F>, task: u32) -> Option<usize>
    ensures { IfSome result (IsPlaceOf F.task_of ready.now.items task) }
{
    let mut low = 0usize;
    let mut high = ready.len();
    while low < high {
        let middle = low + (high - low) / 2;
        let Some(there) = task_at(ready, middle) else {
            return None;
        };
        if there == task {
            return Some(middle);
        }
        if there < task {
            low = middle + 1;
        } else {
            high = middle;
        }
    }
    None
}

// The place of a task's fiber, in whatever order they stand.
fn place_anywhere<F: Fibers>(ready: &VecDeque<F>, task: u32) -> Option<usize>
    ensures some { IfSome result (IsPlaceOf F.task_of ready.now.items task) }
    ensures none { IfNone result (All (λ f. F.task_of f ≢ task) ready.now.items) }
{
    for at in 0..ready.len() {
        if task_at(ready, at) == Some(task) {
            return Some(at);
        }
    }
    None
}

// The place of a task's fiber. The fibers stand by the numbers of their tasks while a journal is followed, so the first search finds it.
fn place_of<F: Fibers>(ready: &VecDeque<F>, task: u32) -> Option<usize>
    ensures some { IfSome result (IsPlaceOf F.task_of ready.now.items task) }
    ensures none { IfNone result (All (λ f. F.task_of f ≢ task) ready.now.items) }
{
    match place_by_halves(ready, task) {
        Some(at) => Some(at),
        None => place_anywhere(ready, task),
    }
}

// Takes the fiber of a task out, with the place where it stood.
fn take_out<F: Fibers>(ready: &mut VecDeque<F>, task: u32) -> Option<(F, usize)>
    ensures some { IfSome result (λ r. TakesOut F.task_of ready.old.items ready.new.items task r.0) }
    ensures none { IfNone result (All (λ f. F.task_of f ≢ task) ready.old.items) }
    ensures same { IfNone result (ready.new ≡ ready.old) }
    ensures room { deque_capacity ready.new ≡ deque_capacity ready.old }
{
    let at = place_of(ready, task)?;
    let fiber = ready.remove(at)?;
    Some((fiber, at))
}

/// Lends the fiber of a task to the one seat, and answers the place where it stood among those that are ready; nothing where it isn't among
/// them, and then the board is as before.
pub fn lend_task<F: Fibers>(board: &mut Board<F>, task: u32) -> Option<(F, usize)>
    requires free { board.old.cells.items ≡ None ∷ [] }
    requires roomy { IsRoomy board.old }
    ensures lent { IfSome result (λ r. LendsTask F.task_of (seen board.old) (seen board.new) task r.0) }
    ensures none { IfNone result (All (λ f. F.task_of f ≢ task) board.old.ready.items) }
    ensures same { IfNone result (board.new ≡ board.old) }
    ensures stands { (set : Setting) → BoardStands F.task_of F.course_of F.holds set (seen board.old) → IfSome result (λ r. BoardStands F.task_of F.course_of F.holds set (seen board.new) × StandsFor F.task_of F.course_of F.holds set r.0 × CourseAt (seen board.new) (F.task_of r.0) (F.course_of r.0)) }
    ensures roomy { IsRoomy board.new }
{
    match take_out(&mut board.ready, task) {
        Some((fiber, at)) => {
            board.cells[0] = Some(task);
            Some((fiber, at))
        }
        None => None,
    }
}

/// Puts the last fiber that is ready at this place, if there are so many. The error is want of memory.
pub fn settle_at<F: Fibers>(board: &mut Board<F>, at: usize) -> Result<(), NoMemory>
    requires { IsRoomy board.old }
    ensures order { OnOk result (Reorders (seen board.old) (seen board.new)) }
    ensures stands { (set : Setting) → BoardStands F.task_of F.course_of F.holds set (seen board.old) → OnOk result (BoardStands F.task_of F.course_of F.holds set (seen board.new)) }
    ensures roomy { OnOk result (IsRoomy board.new) }
{
    let Some(fiber) = board.ready.pop_back() else {
        return Ok(());
    };
    let at = at.min(board.ready.len());
    let Ok(()) = board.ready.insert(at, fiber) else {
        return Err(NoMemory);
    };
    Ok(())
}
