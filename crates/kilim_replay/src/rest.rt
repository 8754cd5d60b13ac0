//! Who waits where all entries are replayed.

ghost use Rattle.std.specs.Prelude.{◌≡◌, ◌<◌, length, IfOk, OnOk};
ghost use Rattle.std.specs.List.{AllByRecursion};
ghost use Rattle.kilim_run_model.specs.State.{State};
ghost use Rattle.kilim_replay_laws.specs.Verdicts.{DifferAt};
ghost use Rattle.kilim_replay_laws.specs.shared.Runs.{CanGo};
ghost use Rattle.kilim_replay_thread.specs.Live.{RoomyIn, lone_at};
ghost use Rattle.kilim_replay_thread.specs.Reach.{setting_of};
ghost use Rattle.kilim_replay.specs.Machine.{AreRoomyTasks, IsAt};
ghost use Rattle.kilim_replay.specs.Rest.{AsksAll, AsksOne, HasCome, HasRested, HasSettled, IsFirstDifference, IsFrom, IsShownFor, standing_of};

use crate::machine::{Machine, Task, exchange};
use crate::mailboxes::Mailboxes;
use kilim_program::{BoxName, ClassId, Program};
use kilim_replay_thread::{Came, Live, World, reach};
use kilim_run_journal::{Act, Entry};
use kilim_run_same::same_entry;
use kilim_run_state::{EndCause, Heap, Limits};
use kilim_run_trees::shape_at;
use kilim_units::{NoMemory, no_room};
use std::alloc::Global;

/// Where a task stands once it has made all moves before its next action.
#[derive(Drop)]
pub enum Standing {
    /// It has ended.
    Over,
    /// At a `get` of this mailbox.
    Takes(BoxName),
    /// At a put that waits into this mailbox, of the object of that name.
    Puts(BoxName, u32),
    /// At something else, for which it never waits.
    Goes,
}

/// What a task does then.
#[derive(Clone, Copy)]
pub enum Settled {
    /// It waits at this mailbox.
    Waits(BoxName),
    /// It has something to do.
    Goes,
    /// It has ended.
    Over,
}

/// What all tasks do then.
#[derive(Drop)]
pub enum Rested {
    /// The first task that has something to do.
    Goes(u32),
    /// None has, and these are the entries of those that wait.
    Waits(Vec<Entry>),
}

// Where a task stands that comes to that.
fn stand(came: &Came) -> Standing
    ensures { result ≡ standing_of came.now }
{
    match came {
        Came::Takes(name) => Standing::Takes(*name),
        Came::PutsWaiting(name, root, _) => Standing::Puts(*name, *root),
        Came::TooLarge(name, root) => Standing::Puts(*name, *root),
        _ => Standing::Goes,
    }
}

// Where a task that hasn't ended comes to stand. Its frames aren't needed any more.
fn settle_live(
    alloc: Global,
    program: &Program,
    main: ClassId,
    limits: &Limits,
    task: u32,
    mut live: Live,
    world: &mut World,
) -> Result<Standing, NoMemory>
    requires can { CanGo (setting_of program.now main limits.now) task (lone_at task world.old live) }
    requires roomy { RoomyIn program.now live.frames }
    ensures come { IfOk result (λ standing. HasCome (setting_of program.now main limits.now) task (lone_at task world.old live) world.new standing) }
{
    let Ok(came) = reach(alloc, program, main, limits, task, world, &mut live) else {
        return Err(NoMemory);
    };
    Ok(stand(&came))
}

// Where a task comes to stand. Its place holds another one from then on.
fn settle_task(
    alloc: Global,
    program: &Program,
    main: ClassId,
    limits: &Limits,
    task: u32,
    machine: &mut Machine,
) -> Result<Standing, NoMemory>
    requires task { task < length machine.old.tasks.items }
    requires some { (s : State) × IsFrom (setting_of program.now main limits.now) task machine.old s }
    requires all { AreRoomyTasks program.now machine.old.tasks.items }
    ensures settled { (s : State) → IsFrom (setting_of program.now main limits.now) task machine.old s → IfOk result (HasSettled (setting_of program.now main limits.now) s task machine.new) }
    ensures all { OnOk result (AreRoomyTasks program.now machine.new.tasks.items) }
    ensures tasks { OnOk result (length machine.new.tasks.items ≡ length machine.old.tasks.items) }
{
    match exchange(
        &mut machine.tasks,
        task as usize,
        Task::Ended(EndCause::Done),
    ) {
        Task::Live(live) => settle_live(
            alloc,
            program,
            main,
            limits,
            task,
            live,
            &mut machine.world,
        ),
        Task::Ended(_) => Ok(Standing::Over),
    }
}

// What a task does that stands so. A tree that it would put is looked at only now, since other tasks may have changed it.
fn ask_one(
    alloc: Global,
    program: &Program,
    standing: &Standing,
    heap: &Heap,
    mailboxes: &Mailboxes,
) -> Result<Settled, NoMemory>
    requires shown { IsShownFor program.now heap.now standing.now }
    ensures asks { IfOk result (AsksOne program.now heap.now mailboxes.now standing.now) }
{
    match standing {
        Standing::Over => Ok(Settled::Over),
        Standing::Goes => Ok(Settled::Goes),
        Standing::Takes(name) => {
            if mailboxes.is_empty(*name) {
                Ok(Settled::Waits(*name))
            } else {
                Ok(Settled::Goes)
            }
        }
        Standing::Puts(name, root) => {
            if !mailboxes.is_full(*name) {
                return Ok(Settled::Goes);
            }
            match shape_at(alloc, program, heap, *root) {
                Ok(Some(_)) => Ok(Settled::Waits(*name)),
                Ok(None) => Ok(Settled::Goes),
                Err(fault) => Err(fault),
            }
        }
    }
}

// What all tasks do that stand so, one after the other, up to the first that has something to do.
fn ask_all(
    alloc: Global,
    program: &Program,
    standings: &[Standing],
    heap: &Heap,
    mailboxes: &Mailboxes,
) -> Result<Rested, NoMemory>
    requires shown { AllByRecursion (IsShownFor program.now heap.now) standings.now }
    ensures asks { IfOk result (AsksAll program.now heap.now mailboxes.now standings.now) }
{
    let mut waits = Vec::new(alloc);
    for at in 0..standings.len() {
        let Ok(task) = u32::try_from(at) else {
            // room: the number of a task
            return Err(no_room());
        };
        let Ok(settled) = ask_one(alloc, program, &standings[at], heap, mailboxes) else {
            return Err(NoMemory);
        };
        match settled {
            Settled::Goes => return Ok(Rested::Goes(task)),
            Settled::Over => {}
            Settled::Waits(name) => {
                let Ok(()) = waits.push(Entry {
                    task,
                    act: Act::Wait(name),
                }) else {
                    return Err(NoMemory);
                };
            }
        }
    }
    Ok(Rested::Waits(waits))
}

/// What all tasks do once each has made all moves before its next action: all move first, one after the other, and are asked then.
pub fn settle_all(
    alloc: Global,
    program: &Program,
    main: ClassId,
    limits: &Limits,
    machine: &mut Machine,
) -> Result<Rested, NoMemory>
    requires some { (s : State) × IsAt (setting_of program.now main limits.now) machine.old s }
    requires all { AreRoomyTasks program.now machine.old.tasks.items }
    ensures rested { (s : State) → IsAt (setting_of program.now main limits.now) machine.old s → IfOk result (HasRested (setting_of program.now main limits.now) s) }
{
    let mut standings = Vec::new(alloc);
    for at in 0..machine.tasks.len() {
        let Ok(task) = u32::try_from(at) else {
            // room: the number of a task
            return Err(no_room());
        };
        let Ok(standing) = settle_task(alloc, program, main, limits, task, machine) else {
            return Err(NoMemory);
        };
        let Ok(()) = standings.push(standing) else {
            return Err(NoMemory);
        };
    }
    ask_all(
        alloc,
        program,
        standings.as_slice(),
        &machine.world.heap,
        &machine.mailboxes,
    )
}

/// How many entries two lists have in common in front, if they differ.
pub fn first_difference(a: &[Entry], b: &[Entry]) -> Option<usize>
    ensures { IsFirstDifference a.now b.now result }
{
    let mut at = 0;
    while at < a.len() && at < b.len() {
        if !same_entry(&a[at], &b[at]) {
            return Some(at);
        }
        at += 1;
    }
    if a.len() == b.len() { None } else { Some(at) }
}
