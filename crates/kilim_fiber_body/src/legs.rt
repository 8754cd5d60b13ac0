//! A body runs up to the next thing that it wants.

ghost use Rattle.std.specs.Prelude.{◌≡◌, ◌≤◌, ◌<◌, ◌^◌, ◌&&◌, true, IfOk, OnOk};
ghost use Rattle.kilim_fiber_body.specs.Body.{standing_at, HasFrames, RoomyIn};
ghost use Rattle.kilim_fiber_body.specs.Comes.{HasRoomFor};
ghost use Rattle.kilim_fiber_body.specs.Legs.{HasGone};
ghost use Rattle.kilim_fiber_body.specs.Reach.{IsReadyOn, HasReached, IsWanting, Reaches};
ghost use Rattle.kilim_fiber_body.specs.Steps.{setting_of};

use crate::asks::ask;
use crate::body::{Body, Came, leave, open, rewind};
use crate::code::Code;
use kilim_fiber_steps::{Halted, run_counted};
use kilim_program::ClassId;
use kilim_run_state::{EndCause, Limits};
use kilim_units::{NoMemory, no_room, unmet};
use std::alloc::Global;

/// More legs than a machine ever does.
const MOST_LEGS: u64 = u64::MAX;

// Whether an instruction counts, by its mark.
fn counts_by(mark: bool, live: bool) -> bool
    ensures { result ≡ (mark && live) }
{
    mark && live
}

// Instructions one after the other, as long as they are no matter of others: whether the next one counts, and what ended them.
fn go(
    alloc: Global,
    code: &Code,
    limits: &Limits,
    main: ClassId,
    task: u32,
    body: &mut Body,
) -> Result<(bool, Halted), NoMemory>
    requires frames { HasFrames body.old.frames }
    requires ready { IsReadyOn (setting_of code.now limits.now main) code.now.program code.now.counted task (standing_at 0 body.old) }
    requires roomy { RoomyIn code.now.program body.old.frames }
    requires most { body.old.count ≤ limits.now.steps }
    ensures gone { IfOk result (λ gone. HasGone (setting_of code.now limits.now main) code.now.program code.now.counted task (standing_at 0 body.old) body.new gone.0 gone.1) }
    ensures frames { OnOk result (HasFrames body.new.frames) }
    ensures roomy { OnOk result (RoomyIn code.now.program body.new.frames) }
    ensures counted { OnOk result (body.old.count ≤ body.new.count) }
{
    let _ = (main, task);
    let Some(frames) = &mut body.frames else {
        unreachable!()
    };
    let Ok(ran) = run_counted(
        alloc,
        &code.program,
        &code.counted,
        &code.places,
        code.natives(),
        code.reached(),
        frames,
        &mut body.records,
        &mut body.heap,
        limits.steps - body.count,
    ) else {
        return Err(NoMemory);
    };
    body.count += ran.steps;
    let live = !body.records.is_rewinding();
    Ok((counts_by(ran.mark, live), ran.halted))
}

// Instructions one after the other, and what the one asks for that ends them.
fn leg(
    alloc: Global,
    code: &Code,
    limits: &Limits,
    main: ClassId,
    task: u32,
    body: &mut Body,
) -> Result<Came, NoMemory>
    requires ready { IsReadyOn (setting_of code.now limits.now main) code.now.program code.now.counted task (standing_at 0 body.old) }
    requires roomy { RoomyIn code.now.program body.old.frames }
    requires most { body.old.count ≤ limits.now.steps }
    ensures reached { IfOk result (λ came. HasReached (setting_of code.now limits.now main) code.now.program code.now.counted task (standing_at 0 body.old) body.new came) }
    ensures room { IfOk result (λ came. HasRoomFor code.now.program body.new came) }
    ensures roomy { OnOk result (RoomyIn code.now.program body.new.frames) }
    ensures counted { OnOk result (body.old.count ≤ body.new.count) }
{
    let Some(_) = &body.frames else {
        return rewind(alloc, code, body);
    };
    let Ok(gone) = go(alloc, code, limits, main, task, body) else {
        return Err(NoMemory);
    };
    if body.count == u64::MAX {
        // room: 2^64 - 1 instructions of a task
        return Err(no_room());
    }
    match gone.1 {
        Halted::Stops => Ok(Came::On),
        Halted::Spent => Ok(Came::Ends(EndCause::Spent)),
        Halted::NewBox => Ok(open(&code.program, task, gone.0, body)),
        Halted::Asks(method) => ask(alloc, code, limits, method, body),
        Halted::Returned => leave(alloc, &code.program, main, body),
        Halted::Ended(cause) => Ok(Came::Ends(cause)),
    }
}

/// Runs up to the next thing that it wants. No more instructions are counted than the task may do.
pub fn reach(
    alloc: Global,
    code: &Code,
    limits: &Limits,
    main: ClassId,
    task: u32,
    body: &mut Body,
) -> Result<Came, NoMemory>
    requires ready { IsReadyOn (setting_of code.now limits.now main) code.now.program code.now.counted task (standing_at 0 body.old) }
    requires roomy { RoomyIn code.now.program body.old.frames }
    requires most { body.old.count ≤ limits.now.steps }
    ensures reaches { IfOk result (λ came. Reaches (setting_of code.now limits.now main) code.now.program code.now.counted task (standing_at 0 body.old) body.new came) }
    ensures wanting { IfOk result (λ came. IsWanting came ≡ true) }
    ensures room { IfOk result (λ came. HasRoomFor code.now.program body.new came) }
    ensures roomy { OnOk result (RoomyIn code.now.program body.new.frames) }
    ensures counted { OnOk result (body.old.count ≤ body.new.count) }
    ensures most { OnOk result (body.new.count ≤ limits.now.steps) }
    ensures limit { OnOk result (limits.now.steps < 2 ^ 64) }
{
    for _ in 0..MOST_LEGS {
        let Ok(came) = leg(alloc, code, limits, main, task, body) else {
            return Err(NoMemory);
        };
        if body.count > limits.steps {
            drop(came);
            // unmet: a counted instruction is done only below the limit
            return Err(unmet());
        }
        match came {
            Came::On => {}
            came => return Ok(came),
        }
    }
    // unmet: in 67,108,864 steps a fiber comes to something that counts
    Err(unmet())
}
