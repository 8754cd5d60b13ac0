//! A state of a replay, and what a task does next in it.

ghost use Rattle.std.specs.Prelude.{◌≡◌, ◌≢◌, ◌<◌, ◌+◌, ◌^◌, ◌⊎◌, [], length, slice_set, slice_get, Some, IfOk, OnOk};
ghost use Rattle.kilim_run_model.specs.State.{Setting, State, execute_frames};
ghost use Rattle.kilim_run_model.specs.Lone.{Next, pushed_on};
ghost use Rattle.kilim_run_model.specs.Turn.{moved_by};
ghost use Rattle.kilim_run_state.specs.Words.{IsThere};
ghost use Rattle.kilim_replay_thread.specs.Comes.{CanBegin, HasRoomFor};
ghost use Rattle.kilim_replay_thread.specs.Live.{HasFrames, RoomIn, RoomyIn, behind_in, calls_in};
ghost use Rattle.kilim_replay.specs.Mailboxes.{mail_of};
ghost use Rattle.kilim_replay.specs.Machine.{AreRoomyTasks, CanDo, HasBounded, HasEnded, HasFoundNone, HasPrinted, HasPut, HasStarted, HasTaken, IsDone, IsNextOf, StandsAt, Views};
ghost use Rattle.kilim_replay.specs.declared.machine.Task.TheVariants as a_task;

use crate::mailboxes::Mailboxes;
use kilim_program::{BoxName, Program, Value};
use kilim_replay_thread::{Came, Live, World, go_on, go_on_with, task_frames};
use kilim_run_journal::Act;
use kilim_run_state::{EndCause, Shape};
use kilim_units::{NoMemory, no_room};
use std::alloc::Global;
use std::mem::replace;

/// The most tasks.
const MOST_TASKS: usize = 10_000;

/// A task.
#[derive(Drop)]
pub enum Task {
    Live(Live),
    Ended(EndCause),
}

/// A state of a replay.
#[derive(Drop)]
pub struct Machine {
    pub world: World,
    pub tasks: Vec<Task>,
    pub mailboxes: Mailboxes,
}

/// Another task in the place of one, which comes out.
pub fn exchange(tasks: &mut Vec<Task>, at: usize, task: Task) -> Task
    requires { at < length tasks.old.items }
    ensures was { slice_get tasks.old.items at ≡ Some result }
    ensures tasks { tasks.new.items ≡ slice_set tasks.old.items at task }
{
    replace(&mut tasks[at], task)
}

/// A task stands so.
pub fn put_back(tasks: &mut Vec<Task>, at: usize, live: Live)
    requires { at < length tasks.old.items }
    ensures { tasks.new.items ≡ slice_set tasks.old.items at (a_task.Live live) }
{
    let _ = exchange(tasks, at, Task::Live(live));
}

// A task goes on behind a method without a result.
fn pass(program: &Program, task: u32, mut live: Live, tasks: &mut Vec<Task>)
    requires task { task < length tasks.old.items }
    requires frames { HasFrames live.frames }
    requires roomy { RoomyIn program.now live.frames }
    requires counts { live.done + 1 < 2 ^ 64 }
    requires all { AreRoomyTasks program.now tasks.old.items }
    ensures stands { StandsAt task (behind_in live) tasks.old.items tasks.new.items }
    ensures all { AreRoomyTasks program.now tasks.new.items }
{
    go_on(program, &mut live);
    put_back(tasks, task as usize, live);
}

// A task goes on behind a method with a result.
fn pass_with(program: &Program, task: u32, mut live: Live, value: Value, tasks: &mut Vec<Task>)
    requires task { task < length tasks.old.items }
    requires room { RoomIn program.now live.frames }
    requires roomy { RoomyIn program.now live.frames }
    requires counts { live.done + 1 < 2 ^ 64 }
    requires all { AreRoomyTasks program.now tasks.old.items }
    ensures stands { StandsAt task (pushed_on value (behind_in live)) tasks.old.items tasks.new.items }
    ensures all { AreRoomyTasks program.now tasks.new.items }
{
    go_on_with(program, &mut live, value);
    put_back(tasks, task as usize, live);
}

// A message is put.
fn put(
    program: &Program,
    task: u32,
    name: BoxName,
    root: u32,
    shape: Shape,
    live: Live,
    machine: &mut Machine,
) -> Result<Act, NoMemory>
    requires task { task < length machine.old.tasks.items }
    requires frames { HasFrames live.frames }
    requires roomy { RoomyIn program.now live.frames }
    requires counts { live.done + 1 < 2 ^ 64 }
    requires all { AreRoomyTasks program.now machine.old.tasks.items }
    ensures put { IfOk result (HasPut task name root shape live machine.old machine.new) }
    ensures all { OnOk result (AreRoomyTasks program.now machine.new.tasks.items) }
{
    let Ok(number) = machine.mailboxes.put(name, root) else {
        return Err(NoMemory);
    };
    pass(program, task, live, &mut machine.tasks);
    Ok(Act::Put(name, number, shape))
}

// A mailbox gets a bound.
fn bound(
    program: &Program,
    task: u32,
    name: BoxName,
    most: u32,
    live: Live,
    machine: &mut Machine,
) -> Result<Act, NoMemory>
    requires task { task < length machine.old.tasks.items }
    requires frames { HasFrames live.frames }
    requires roomy { RoomyIn program.now live.frames }
    requires counts { live.done + 1 < 2 ^ 64 }
    requires all { AreRoomyTasks program.now machine.old.tasks.items }
    ensures bounded { IfOk result (HasBounded task name most live machine.old machine.new) }
    ensures all { OnOk result (AreRoomyTasks program.now machine.new.tasks.items) }
{
    let Ok(()) = machine.mailboxes.bound(name, most) else {
        return Err(NoMemory);
    };
    pass(program, task, live, &mut machine.tasks);
    Ok(Act::Bound(name, most))
}

// A message is taken out of a mailbox where one waits.
fn receive(program: &Program, task: u32, name: BoxName, live: Live, machine: &mut Machine) -> Act
    requires task { task < length machine.old.tasks.items }
    requires some { (mail_of machine.old.mailboxes name).queue ≢ [] }
    requires room { RoomIn program.now live.frames }
    requires roomy { RoomyIn program.now live.frames }
    requires counts { live.done + 1 < 2 ^ 64 }
    requires all { AreRoomyTasks program.now machine.old.tasks.items }
    ensures taken { HasTaken task name live machine.old machine.new result }
    ensures all { AreRoomyTasks program.now machine.new.tasks.items }
{
    match machine.mailboxes.take(name) {
        Some((number, root)) => {
            pass_with(program, task, live, Value::Ref(root), &mut machine.tasks);
            Act::Take(name, number)
        }
        None => unreachable!(),
    }
}

// A mailbox is asked for a message without waiting.
fn probe(program: &Program, task: u32, name: BoxName, live: Live, machine: &mut Machine) -> Act
    requires task { task < length machine.old.tasks.items }
    requires room { RoomIn program.now live.frames }
    requires roomy { RoomyIn program.now live.frames }
    requires counts { live.done + 1 < 2 ^ 64 }
    requires all { AreRoomyTasks program.now machine.old.tasks.items }
    ensures probed { HasTaken task name live machine.old machine.new result ⊎ HasFoundNone task name live machine.old machine.new result }
    ensures all { AreRoomyTasks program.now machine.new.tasks.items }
{
    match machine.mailboxes.take(name) {
        Some((number, root)) => {
            pass_with(program, task, live, Value::Ref(root), &mut machine.tasks);
            Act::Take(name, number)
        }
        None => {
            pass_with(program, task, live, Value::Null, &mut machine.tasks);
            Act::Empty(name)
        }
    }
}

// A value is printed.
fn print(program: &Program, task: u32, shape: Shape, live: Live, machine: &mut Machine) -> Act
    requires task { task < length machine.old.tasks.items }
    requires frames { HasFrames live.frames }
    requires roomy { RoomyIn program.now live.frames }
    requires counts { live.done + 1 < 2 ^ 64 }
    requires all { AreRoomyTasks program.now machine.old.tasks.items }
    ensures printed { HasPrinted task shape live machine.old machine.new result }
    ensures all { AreRoomyTasks program.now machine.new.tasks.items }
{
    pass(program, task, live, &mut machine.tasks);
    Act::Print(shape)
}

// A task is over. Task 0 keeps nothing any more.
fn end(task: u32, cause: EndCause, machine: &mut Machine) -> Act
    requires { task < length machine.old.tasks.items }
    ensures { HasEnded task cause machine.old machine.new result }
{
    let _ = exchange(&mut machine.tasks, task as usize, Task::Ended(cause));
    if task == 0 {
        machine.world.kept = None;
    }
    Act::End(cause)
}

// A task that begins on an object.
fn begun(alloc: Global, program: &Program, world: &World, root: u32) -> Result<Live, NoMemory>
    requires there { IsThere world.now.heap root }
    requires begins { CanBegin program.now world.now.heap root }
    ensures frames { IfOk result (λ live. execute_frames program.now world.now.heap root ≡ Some (calls_in live.frames)) }
    ensures none { IfOk result (λ live. (live.done ≡ 0) × (live.boxes ≡ 0)) }
    ensures roomy { IfOk result (λ live. RoomyIn program.now live.frames) }
{
    let Ok(frames) = task_frames(alloc, program, &world.heap, root) else {
        return Err(NoMemory);
    };
    Ok(Live {
        frames,
        done: 0,
        boxes: 0,
    })
}

// A task is started where there is room for one more.
fn start_one(
    alloc: Global,
    program: &Program,
    task: u32,
    root: u32,
    shape: Shape,
    live: Live,
    machine: &mut Machine,
) -> Result<Act, NoMemory>
    requires task { task < length machine.old.tasks.items }
    requires frames { HasFrames live.frames }
    requires there { IsThere machine.old.world.heap root }
    requires begins { CanBegin program.now machine.old.world.heap root }
    requires roomy { RoomyIn program.now live.frames }
    requires all { AreRoomyTasks program.now machine.old.tasks.items }
    requires counts { live.done + 1 < 2 ^ 64 }
    ensures started { IfOk result (HasStarted program.now task root shape live machine.old machine.new) }
    ensures all { OnOk result (AreRoomyTasks program.now machine.new.tasks.items) }
{
    let Ok(number) = u32::try_from(machine.tasks.len()) else {
        // room: the number of a task
        return Err(no_room());
    };
    let Ok(first) = begun(alloc, program, &machine.world, root) else {
        return Err(NoMemory);
    };
    pass(program, task, live, &mut machine.tasks);
    let Ok(()) = machine.tasks.push(Task::Live(first)) else {
        return Err(NoMemory);
    };
    Ok(Act::Start(number, shape))
}

/// Does what a task comes to, and answers the action. The task's place holds another one meanwhile.
pub fn perform(
    alloc: Global,
    program: &Program,
    task: u32,
    came: Came,
    live: Live,
    machine: &mut Machine,
) -> Result<Act, NoMemory>
    requires task { task < length machine.old.tasks.items }
    requires can { CanDo machine.old.mailboxes live.done came }
    requires room { HasRoomFor program.now machine.old.world live came }
    requires roomy { RoomyIn program.now live.frames }
    requires all { AreRoomyTasks program.now machine.old.tasks.items }
    ensures done { (set : Setting) (s : State) (n : Next) → set.program ≡ program.now → Views machine.old.world (slice_set machine.old.tasks.items task (a_task.Live live)) machine.old.mailboxes s → IsNextOf task machine.old.world live came n → IfOk result (λ act. IsDone (moved_by set s task n) machine.new act) }
    ensures all { OnOk result (AreRoomyTasks program.now machine.new.tasks.items) }
{
    match came {
        Came::Puts(name, root, shape) => {
            if machine.mailboxes.is_full(name) {
                Ok(end(task, EndCause::Full, machine))
            } else {
                put(program, task, name, root, shape, live, machine)
            }
        }
        Came::PutsWaiting(name, root, shape) => {
            put(program, task, name, root, shape, live, machine)
        }
        Came::TooLarge(_, _) => Ok(end(task, EndCause::Large, machine)),
        Came::Bounds(name, most) => bound(program, task, name, most, live, machine),
        Came::Takes(name) => Ok(receive(program, task, name, live, machine)),
        Came::Probes(name) => Ok(probe(program, task, name, live, machine)),
        Came::Starts(root, shape) => {
            if machine.tasks.len() < MOST_TASKS {
                start_one(alloc, program, task, root, shape, live, machine)
            } else {
                Ok(end(task, EndCause::Tasks, machine))
            }
        }
        Came::Prints(shape) => Ok(print(program, task, shape, live, machine)),
        Came::Ends(cause) => Ok(end(task, cause, machine)),
        Came::On => unreachable!(),
    }
}
