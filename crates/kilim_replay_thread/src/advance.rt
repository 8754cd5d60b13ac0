//! A task runs up to its next action, which isn't done.

ghost use Rattle.std.specs.Prelude.{◌≡◌, ◌<◌, ◌≤◌, ◌+◌, ◌-◌, ◌^◌, ◌==◌, ℕ, false, None, IfOk, OnOk};
ghost use Rattle.kilim_program.specs.Members.{execute_of};
ghost use Rattle.kilim_run_model.specs.State.{Setting, begun_on};
ghost use Rattle.kilim_run_model.specs.Lone.{opens_next, finish_next};
ghost use Rattle.kilim_replay_laws.specs.shared.Runs.{CanGo};
ghost use Rattle.kilim_replay_thread.specs.Comes.{Comes, HasRoomFor, HasRunOn, IsNear, IsOther};
ghost use Rattle.kilim_replay_thread.specs.Live.{HasFrames, RoomIn, RoomyIn, answered_in, calls_in, kept_for, lone_at};
ghost use Rattle.kilim_replay_thread.specs.Reach.{IsComing, Reaches, setting_of};
ghost use Rattle.kilim_replay_thread.specs.Thread.{IsSafe};

use crate::asks::ask;
use crate::begin::begun_on;
use crate::pass::give;
use crate::raising::{raise_on, throw_on};
use crate::runs::{Halted, run_thread};
use crate::task::{Came, Live, World};
use kilim_fiber_steps::records::natives::execute_of;
use kilim_program::{BoxName, ClassId, Program, Value};
use kilim_run_state::{EndCause, Limits};
use kilim_units::NoMemory;
use std::alloc::Global;

/// The most mailboxes that a task makes.
const MOST_BOXES: u32 = 1000;

// Many instructions at once, and what ended them.
fn run_on(
    alloc: Global,
    program: &Program,
    steps: u64,
    world: &mut World,
    live: &mut Live,
) -> Result<Halted, NoMemory>
    requires frames { HasFrames live.old.frames }
    requires roomy { RoomyIn program.now live.old.frames }
    requires few { live.old.done < steps }
    requires safe { IsSafe program.now (steps - live.old.done) (calls_in live.old.frames) world.old.heap world.old.next }
    ensures roomy { OnOk result (RoomyIn program.now live.new.frames) }
    ensures run { IfOk result (λ halted. HasRunOn program.now steps world.old live.old world.new live.new halted) }
{
    let Some(frames) = &mut live.frames else {
        unreachable!()
    };
    let left = steps - live.done;
    let Ok(ran) = run_thread(
        alloc,
        program,
        frames,
        &mut world.heap,
        &mut world.next,
        left,
    ) else {
        return Err(NoMemory);
    };
    live.done += ran.steps;
    Ok(ran.halted)
}

// A new mailbox.
fn open(program: &Program, task: u32, world: &World, live: &mut Live) -> Came
    requires roomy { RoomyIn program.now live.old.frames }
    requires room { RoomIn program.now live.old.frames }
    requires counts { live.old.done + 1 < 2 ^ 64 }
    ensures comes { Comes task (opens_next task (lone_at task world.now live.old) (answered_in live.old.frames) live.old.done live.old.boxes) world.now live.old world.now live.new result }
    ensures other { IsOther result }
    ensures roomy { RoomyIn program.now live.new.frames }
    ensures counted { IsNear live.old.done live.new.done }
    ensures room { HasRoomFor program.now world.now live.new result }
{
    let _ = world;
    if live.boxes >= MOST_BOXES {
        return Came::Ends(EndCause::Boxes);
    }
    let Some(frames) = &mut live.frames else {
        unreachable!()
    };
    let name = BoxName {
        task,
        number: live.boxes,
    };
    give(program, frames, Value::Box(name));
    live.boxes += 1;
    live.done += 1;
    Came::On
}

// The object that the task keeps.
fn kept_for(task: u32, kept: Option<u32>) -> Option<u32>
    ensures { result ≡ kept_for task kept }
{
    if task == 0 { kept } else { None }
}

// The last frame returns: the task is done, or the `execute` of task 0 begins.
fn leave(
    alloc: Global,
    program: &Program,
    main: ClassId,
    task: u32,
    world: &mut World,
    live: &mut Live,
) -> Result<Came, NoMemory>
    requires roomy { RoomyIn program.now live.old.frames }
    requires counts { live.old.done + 1 < 2 ^ 64 }
    requires begins { (n : ℕ) → begun_on program.now (execute_of program.now main) n ≡ None → ⊥ }
    ensures comes { (set : Setting) → set.program ≡ program.now → set.main ≡ main → IfOk result (λ came. Comes task (finish_next set (lone_at task world.old live.old) live.old.done live.old.boxes (kept_for task world.old.kept)) world.old live.old world.new live.new came) }
    ensures other { IfOk result IsOther }
    ensures roomy { OnOk result (RoomyIn program.now live.new.frames) }
    ensures counted { OnOk result (IsNear live.old.done live.new.done) }
    ensures room { IfOk result (λ came. HasRoomFor program.now world.new live.new came) }
    ensures kept { OnOk result ((task == 0) ≡ false → world.new.kept ≡ world.old.kept) }
{
    let Some(name) = kept_for(task, world.kept) else {
        return Ok(Came::Ends(EndCause::Done));
    };
    let Ok(begun) = begun_on(alloc, program, execute_of(program, main), name) else {
        return Err(NoMemory);
    };
    match begun {
        None => Ok(Came::Ends(EndCause::Done)),
        Some(frames) => {
            live.frames = Some(frames);
            live.done += 1;
            world.kept = None;
            Ok(Came::On)
        }
    }
}

// Runs up to an instruction that is no matter of one frame, and comes to what it asks for.
fn advance(
    alloc: Global,
    program: &Program,
    main: ClassId,
    limits: &Limits,
    task: u32,
    world: &mut World,
    live: &mut Live,
) -> Result<Came, NoMemory>
    requires can { CanGo (setting_of program.now main limits.now) task (lone_at task world.old live.old) }
    requires roomy { RoomyIn program.now live.old.frames }
    ensures reaches { IfOk result (λ came. Reaches (setting_of program.now main limits.now) task (lone_at task world.old live.old) live.old.done world.new live.new came) }
    ensures room { IfOk result (λ came. HasRoomFor program.now world.new live.new came) }
    ensures roomy { OnOk result (RoomyIn program.now live.new.frames) }
    ensures kept { OnOk result ((task == 0) ≡ false → world.new.kept ≡ world.old.kept) }
{
    if live.done >= limits.steps {
        return Ok(Came::Ends(EndCause::Spent));
    }
    if live.frames.is_none() {
        return Ok(Came::Ends(EndCause::Done));
    }
    let Ok(halted) = run_on(alloc, program, limits.steps, world, live) else {
        return Err(NoMemory);
    };
    match halted {
        Halted::Spent => Ok(Came::Ends(EndCause::Spent)),
        Halted::NewBox => Ok(open(program, task, world, live)),
        Halted::Asks(method) => ask(alloc, program, limits, method, task, world, live),
        Halted::Returned => leave(alloc, program, main, task, world, live),
        Halted::Raised(cause) => raise_on(alloc, program, cause, task, world, live),
        Halted::Thrown(object, class, cause) => {
            throw_on(alloc, program, object, class, cause, task, world, live)
        }
        Halted::Ended(cause) => Ok(Came::Ends(cause)),
    }
}

/// A task that hasn't ended runs up to its next action. It stands right before it then, but for an end, which is the next move of where it
/// came to.
pub fn reach(
    alloc: Global,
    program: &Program,
    main: ClassId,
    limits: &Limits,
    task: u32,
    world: &mut World,
    live: &mut Live,
) -> Result<Came, NoMemory>
    requires can { CanGo (setting_of program.now main limits.now) task (lone_at task world.old live.old) }
    requires roomy { RoomyIn program.now live.old.frames }
    ensures reaches { IfOk result (λ came. Reaches (setting_of program.now main limits.now) task (lone_at task world.old live.old) live.old.done world.new live.new came) }
    ensures coming { IfOk result IsComing }
    ensures room { IfOk result (λ came. HasRoomFor program.now world.new live.new came) }
    ensures roomy { OnOk result (RoomyIn program.now live.new.frames) }
    ensures kept { OnOk result ((task == 0) ≡ false → world.new.kept ≡ world.old.kept) }
{
    loop {
        let Ok(came) = advance(alloc, program, main, limits, task, world, live) else {
            return Err(NoMemory);
        };
        match came {
            Came::On => {}
            came => return Ok(came),
        }
    }
}
