//! The entries of a journal, one after the other.

ghost use Rattle.std.specs.Prelude.{◌≡◌, ◌<◌, ◌==◌, length, slice_set, slice_get, Some, IfOk, OnOk};
ghost use Rattle.kilim_run_model.specs.State.{State, first_state};
ghost use Rattle.kilim_run_model.specs.Runs.{Replays};
ghost use Rattle.kilim_replay_laws.specs.shared.Runs.{IsTypedRun};
ghost use Rattle.kilim_replay_thread.specs.Live.{RoomyIn};
ghost use Rattle.kilim_replay_thread.specs.Reach.{setting_of};
ghost use Rattle.kilim_replay.specs.Machine.{AreRoomyTasks, IsAt, Views};
ghost use Rattle.kilim_replay.specs.Fold.{HasFolded, HasStepped, IsStoppedBy, waits_with};
ghost use Rattle.kilim_replay.specs.declared.machine.Task.TheVariants as a_task;

use crate::kept::steps_fit;
use crate::machine::{Machine, Task, exchange, perform};
use crate::mailboxes::Mailboxes;
use kilim_program::{ClassId, Program};
use kilim_replay_laws::Verdict;
use kilim_replay_thread::{Came, Live, reach};
use kilim_run_journal::{Act, Entry};
use kilim_run_same::same_act;
use kilim_run_state::{EndCause, Limits};
use kilim_units::NoMemory;
use std::alloc::Global;

/// What comes of an entry.
#[derive(Drop)]
pub enum Step {
    /// It is what its task does next, which is done.
    Same,
    /// Its task isn't there.
    Absent,
    /// Its task has ended.
    Ended,
    /// Its task has to wait.
    Waits,
    /// Its task does this instead.
    Made(Act),
}

/// Whether a task that comes to that has to wait.
pub fn has_to_wait(came: &Came, mailboxes: &Mailboxes) -> bool
    ensures { result ≡ waits_with mailboxes.now came.now }
{
    match came {
        Came::Takes(name) => mailboxes.is_empty(*name),
        Came::PutsWaiting(name, _, _) => mailboxes.is_full(*name),
        _ => false,
    }
}

// What comes of an entry of a task that hasn't ended. Its place holds another one meanwhile.
fn step_live(
    alloc: Global,
    program: &Program,
    main: ClassId,
    limits: &Limits,
    entry: &Entry,
    mut live: Live,
    machine: &mut Machine,
) -> Result<Step, NoMemory>
    requires task { entry.now.task < length machine.old.tasks.items }
    requires some { (s : State) × IsTypedRun (setting_of program.now main limits.now) s × Views machine.old.world (slice_set machine.old.tasks.items entry.now.task (a_task.Live live)) machine.old.mailboxes s }
    requires roomy { RoomyIn program.now live.frames }
    requires all { AreRoomyTasks program.now machine.old.tasks.items }
    ensures stepped { (s : State) → IsTypedRun (setting_of program.now main limits.now) s → Views machine.old.world (slice_set machine.old.tasks.items entry.now.task (a_task.Live live)) machine.old.mailboxes s → IfOk result (HasStepped (setting_of program.now main limits.now) s entry.now machine.new) }
    ensures all { OnOk result (AreRoomyTasks program.now machine.new.tasks.items) }
{
    steps_fit(limits);
    let Ok(came) = reach(
        alloc,
        program,
        main,
        limits,
        entry.task,
        &mut machine.world,
        &mut live,
    ) else {
        return Err(NoMemory);
    };
    if has_to_wait(&came, &machine.mailboxes) {
        return Ok(Step::Waits);
    }
    let Ok(act) = perform(alloc, program, entry.task, came, live, machine) else {
        return Err(NoMemory);
    };
    if same_act(&act, &entry.act) {
        Ok(Step::Same)
    } else {
        Ok(Step::Made(act))
    }
}

// What comes of an entry.
fn do_entry(
    alloc: Global,
    program: &Program,
    main: ClassId,
    limits: &Limits,
    entry: &Entry,
    machine: &mut Machine,
) -> Result<Step, NoMemory>
    requires some { (s : State) × IsAt (setting_of program.now main limits.now) machine.old s }
    requires all { AreRoomyTasks program.now machine.old.tasks.items }
    ensures stepped { (s : State) → IsAt (setting_of program.now main limits.now) machine.old s → IfOk result (HasStepped (setting_of program.now main limits.now) s entry.now machine.new) }
    ensures all { OnOk result (AreRoomyTasks program.now machine.new.tasks.items) }
{
    let at = entry.task as usize;
    if at >= machine.tasks.len() {
        return Ok(Step::Absent);
    }
    match exchange(&mut machine.tasks, at, Task::Ended(EndCause::Done)) {
        Task::Live(live) => step_live(alloc, program, main, limits, entry, live, machine),
        Task::Ended(_) => Ok(Step::Ended),
    }
}

// The verdict where an entry isn't what its task does next: its line, and the task.
fn stopped_by(step: Step, line: usize, task: u32) -> Option<Verdict>
    ensures { IsStoppedBy step line task result }
{
    match step {
        Step::Same => None,
        Step::Absent => Some(Verdict::Absent(line)),
        Step::Ended => Some(Verdict::Ended(line)),
        Step::Waits => Some(Verdict::Waits(line)),
        Step::Made(act) => Some(Verdict::Made(line, Entry { task, act })),
    }
}

/// Entries one after the other, up to the first that isn't what its task does next.
pub fn fold(
    alloc: Global,
    program: &Program,
    main: ClassId,
    limits: &Limits,
    entries: &[Entry],
    machine: &mut Machine,
) -> Result<Option<Verdict>, NoMemory>
    requires first { IsAt (setting_of program.now main limits.now) machine.old (first_state (setting_of program.now main limits.now)) }
    requires all { AreRoomyTasks program.now machine.old.tasks.items }
    ensures folded { IfOk result (HasFolded (setting_of program.now main limits.now) entries.now machine.new) }
    ensures all { OnOk result (AreRoomyTasks program.now machine.new.tasks.items) }
{
    for (at, entry) in entries.iter().enumerate() {
        let Ok(step) = do_entry(alloc, program, main, limits, entry, machine) else {
            return Err(NoMemory);
        };
        if let Some(verdict) = stopped_by(step, at + 1, entry.task) {
            return Ok(Some(verdict));
        }
    }
    Ok(None)
}
