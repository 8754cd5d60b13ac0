//! Steps of a thread, one after the other.

ghost use Rattle.std.specs.Prelude.{◌≡◌, ◌<◌, ◌≤◌, ◌∷◌, Some, true, false, IfOk, OnOk};
ghost use Rattle.kilim_program.specs.Names.{method_at};
ghost use Rattle.kilim_run_machine.specs.Effect.{Effect};
ghost use Rattle.kilim_run_state.specs.Machine.{Objects};
ghost use Rattle.kilim_run_machine.specs.Moves.{move_by};
ghost use Rattle.kilim_run_state.specs.declared.frames.frame.Frame.{Frame as AFrame};
ghost use Rattle.kilim_run_state.specs.frames.Calls.{activation, below_of, calls_of};
ghost use Rattle.kilim_run_rows.specs.Outcome.{Shows};
ghost use Rattle.kilim_run_interp.specs.Run.{IsFine};
ghost use Rattle.kilim_run_interp.specs.Step.{AreRoomy, CanSettle};
ghost use Rattle.kilim_replay_thread.specs.Thread.{Does, HasRun, IsSafe, RunsAreQuiet, Settles, IsShown, is_asked, is_plain};

use kilim_program::lookups::{code_rises, fetch, method_at};
use kilim_program::{ClassId, Method, MethodId, Program};
use kilim_run_interp::instruction::act;
use kilim_run_interp::{Stepped, await_answer, settle};
use kilim_run_rows::Moved;
use kilim_run_state::frames::Frames;
use kilim_run_state::{EndCause, Heap};
use kilim_units::{NoMemory, unmet};
use std::alloc::Global;

/// What ended a thread's steps. Where the frames wait for an answer, nothing else was changed.
#[derive(Clone, Copy)]
pub enum Halted {
    /// It has done as many instructions as it may.
    Spent,
    /// It wants a new mailbox.
    NewBox,
    /// It calls a built-in method that is handed out. The arguments are the operands that the frames tell.
    Asks(MethodId),
    /// The last frame returns.
    Returned,
    /// Something is wrong with a value. Nothing was changed but the operands of the top frame.
    Raised(EndCause),
    /// An object of that class is thrown. Where nothing catches it, the task ends with the cause. Nothing was changed but the operands of
    /// the top frame.
    Thrown(u32, ClassId, EndCause),
    /// The task ends.
    Ended(EndCause),
}

/// How many steps were made, and what ended them.
#[derive(Clone, Copy)]
pub struct Ran {
    pub steps: u64,
    pub halted: Halted,
}

// What came of one instruction.
#[derive(Clone, Copy)]
enum One {
    // The frame goes on.
    Goes,
    // It isn't settled yet; with the place behind it.
    Leaves(Moved, u32),
    // There was no memory.
    Lost,
    // A new object has another name than the next.
    Renamed,
}

// One instruction of the top frame. A new object has the next name.
fn do_one(
    alloc: Global,
    program: &Program,
    own: &Method,
    frames: &mut Frames,
    heap: &mut Heap,
    next: &mut u32,
) -> One
    requires own { method_at program.now frames.old.top.method ≡ Some own.now }
    requires fine { IsFine program.now (activation frames.old.top) (below_of frames.old) heap.old }
    requires roomy { AreRoomy program.now frames.old }
    ensures roomy { AreRoomy program.now frames.new }
    ensures does { Does program.now own.now frames.old heap.old next.old result frames.new heap.new next.new }
{
    code_rises(program, frames.top.method, own);
    let found = fetch(own.code.as_slice(), own.code_length, frames.top.pc, 0);
    let behind = found.1;
    let moved = act(alloc, found.0, program, own, behind, &mut frames.top, heap);
    match moved {
        Moved::Next => {
            frames.top.pc = behind;
            One::Goes
        }
        Moved::Made(name) => {
            if name != *next || name == u32::MAX {
                return One::Renamed;
            }
            *next = name + 1;
            frames.top.pc = behind;
            One::Goes
        }
        Moved::Jump(to) => {
            frames.top.pc = to;
            One::Goes
        }
        Moved::NoMemory => One::Lost,
        _ => One::Leaves(moved, behind),
    }
}

// Settles what came of an instruction other than the call of a built-in method that is handed out.
fn settled(
    alloc: Global,
    program: &Program,
    own: &Method,
    moved: Moved,
    next: u32,
    frames: &mut Frames,
) -> Result<Option<Halted>, NoMemory>
    requires can { CanSettle program.now moved frames.old }
    requires plain { is_plain moved ≡ true }
    requires other { is_asked moved ≡ false }
    requires shown { IsShown own.now next moved frames.old.top }
    requires roomy { AreRoomy program.now frames.old }
    ensures roomy { OnOk result (AreRoomy program.now frames.new) }
    ensures settles { (e : Effect) (before : AFrame) (h k : Objects) → Shows own.now e next moved before frames.old.top h k → before.method ≡ frames.old.top.method → IfOk result (λ halted. Settles (move_by program.now e (activation before) (below_of frames.old)) halted (activation before ∷ below_of frames.old) frames.new h k) }
{
    let Ok(stepped) = settle(alloc, program, own, moved, next, frames) else {
        return Err(NoMemory);
    };
    match stepped {
        Stepped::Went => Ok(None),
        Stepped::NewBox => Ok(Some(Halted::NewBox)),
        Stepped::Returned => Ok(Some(Halted::Returned)),
        Stepped::Raised(cause) => Ok(Some(Halted::Raised(cause))),
        Stepped::Thrown(object, class, cause) => Ok(Some(Halted::Thrown(object, class, cause))),
        Stepped::Ended(cause) => Ok(Some(Halted::Ended(cause))),
        Stepped::AtNative(_) => unreachable!(),
    }
}

// Settles what came of an instruction: what halts the thread, or nothing where it goes on.
fn go_on(
    alloc: Global,
    program: &Program,
    own: &Method,
    moved: Moved,
    next: u32,
    frames: &mut Frames,
) -> Result<Option<Halted>, NoMemory>
    requires can { CanSettle program.now moved frames.old }
    requires plain { is_plain moved ≡ true }
    requires shown { IsShown own.now next moved frames.old.top }
    requires roomy { AreRoomy program.now frames.old }
    ensures roomy { OnOk result (AreRoomy program.now frames.new) }
    ensures settles { (e : Effect) (before : AFrame) (h k : Objects) → Shows own.now e next moved before frames.old.top h k → before.method ≡ frames.old.top.method → IfOk result (λ halted. Settles (move_by program.now e (activation before) (below_of frames.old)) halted (activation before ∷ below_of frames.old) frames.new h k) }
{
    match moved {
        Moved::Asked(id, count) => {
            await_answer(count, next, frames);
            Ok(Some(Halted::Asks(id)))
        }
        _ => settled(alloc, program, own, moved, next, frames),
    }
}

/// Steps of a thread as long as it goes on, at most so many. Each new object has the next name. The error is want of memory.
pub fn run_thread(
    alloc: Global,
    program: &Program,
    frames: &mut Frames,
    heap: &mut Heap,
    next: &mut u32,
    limit: u64,
) -> Result<Ran, NoMemory>
    requires safe { IsSafe program.now limit (calls_of frames.old) heap.old next.old }
    requires roomy { AreRoomy program.now frames.old }
    ensures roomy { OnOk result (AreRoomy program.now frames.new) }
    ensures run { IfOk result (λ ran. HasRun program.now limit (calls_of frames.old) heap.old next.old ran.steps ran.halted frames.new heap.new next.new) }
{
    let mut left = limit;
    'steps: while left > 0 {
        let Some(own) = method_at(program, frames.top.method) else {
            unreachable!()
        };
        match do_one(alloc, program, own, frames, heap, next) {
            One::Goes => {
                left -= 1;
            }
            One::Lost => return Err(NoMemory),
            // unmet: a heap from which nothing is removed gives a new object the next place, and has no 2^32 objects
            One::Renamed => return Err(unmet()),
            One::Leaves(moved, behind) => {
                let Ok(halted) = go_on(alloc, program, own, moved, behind, frames) else {
                    return Err(NoMemory);
                };
                match halted {
                    Some(halted) => {
                        return Ok(Ran {
                            steps: limit - left,
                            halted,
                        });
                    }
                    None => {
                        left -= 1;
                    }
                }
            }
        }
    }
    Ok(Ran {
        steps: limit - left,
        halted: Halted::Spent,
    })
}

/// A law, and no work: such steps are moves of a thread without an action.
pub fn runs_are_quiet()
    ensures { RunsAreQuiet }
{}
