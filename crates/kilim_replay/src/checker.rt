//! The verdict of a journal.

ghost use Rattle.std.specs.Prelude.{◌≡◌, ◌≤◌, true, length, take, drop, IfOk};
ghost use Rattle.kilim_program.specs.Members.{is_fit_main};
ghost use Rattle.kilim_program.specs.declared.class.Form.TheVariants.{Plain};
ghost use Rattle.kilim_run_model.specs.State.{State, first_state};
ghost use Rattle.kilim_run_model.specs.Runs.{Replays};
ghost use Rattle.kilim_replay_laws.specs.Verdicts.{IsVerdict, acts_in, is_wait, waits_in};
ghost use Rattle.kilim_replay_thread.specs.Reach.{setting_of};
ghost use Rattle.kilim_replay.specs.Machine.{AreRoomyTasks, IsAt};
ghost use Rattle.kilim_replay.specs.Check.{BeginsAs, IsClosed};
ghost use Rattle.kilim_replay.specs.Fold.{IsReadableVerdict};

use crate::fold::fold;
use crate::kept::{keeps_program, keeps_typed};
use crate::machine::{Machine, Task};
use crate::mailboxes::Mailboxes;
use crate::rest::{Rested, first_difference, settle_all};
use kilim_program::{ClassId, Program};
use kilim_replay_laws::Verdict;
use kilim_replay_thread::first_world;
use kilim_run_journal::{Act, Entry};
use kilim_run_state::Limits;
use kilim_type_spec::Typed;
use kilim_units::{NoMemory, no_room};
use std::alloc::Global;

fn is_wait(act: &Act) -> bool
    ensures { result ≡ is_wait act.now }
{
    matches!(act, Act::Wait(_))
}

// How many entries stand before the first that says who waits.
fn count_acts(journal: &[Entry]) -> usize
    ensures within { result ≤ length journal.now }
    ensures acts { take result journal.now ≡ acts_in journal.now }
    ensures waits { drop result journal.now ≡ waits_in journal.now }
{
    for (at, entry) in journal.iter().enumerate() {
        if is_wait(&entry.act) {
            return at;
        }
    }
    journal.len()
}

// The state in which a replay begins.
fn begin(alloc: Global, program: &Program, main: ClassId) -> Result<Machine, NoMemory>
    requires { is_fit_main program.now main ≡ true }
    ensures all { IfOk result (λ machine. AreRoomyTasks program.now machine.tasks.items) }
    ensures first { IfOk result (λ machine. BeginsAs program.now main machine) }
{
    let Ok((world, live)) = first_world(alloc, program, main) else {
        return Err(NoMemory);
    };
    let mut tasks = Vec::new(alloc);
    let Ok(()) = tasks.push(Task::Live(live)) else {
        return Err(NoMemory);
    };
    Ok(Machine {
        world,
        tasks,
        mailboxes: Mailboxes::new(alloc),
    })
}

// The verdict where all entries are replayed.
fn close(
    alloc: Global,
    program: &Program,
    main: ClassId,
    limits: &Limits,
    acts: usize,
    waits: &[Entry],
    machine: &mut Machine,
) -> Result<Verdict, NoMemory>
    requires some { (s : State) × IsAt (setting_of program.now main limits.now) machine.old s }
    requires all { AreRoomyTasks program.now machine.old.tasks.items }
    ensures closed { (s : State) → IsAt (setting_of program.now main limits.now) machine.old s → IfOk result (IsClosed (setting_of program.now main limits.now) s acts waits.now) }
{
    let Some(behind) = acts.checked_add(1) else {
        // room: the number of a line
        return Err(no_room());
    };
    let Ok(rested) = settle_all(alloc, program, main, limits, machine) else {
        return Err(NoMemory);
    };
    match rested {
        Rested::Goes(task) => Ok(Verdict::Goes(behind, task)),
        Rested::Waits(entries) => match first_difference(waits, entries.as_slice()) {
            None => Ok(Verdict::Whole),
            Some(common) => match behind.checked_add(common) {
                Some(line) => Ok(Verdict::Rest(line)),
                // room: the number of a line
                None => Err(no_room()),
            },
        },
    }
}

/// The verdict of a journal, against the program and its main class: it is replayed by the unwoven threads over one heap, from which
/// nothing is removed. The isolation rules aren't asked. The error is want of memory.
pub fn check(
    alloc: Global,
    typed: &Typed,
    main: ClassId,
    limits: &Limits,
    journal: &[Entry],
) -> Result<Verdict, NoMemory>
    requires plain { typed.now.program.form ≡ Plain }
    requires fit { is_fit_main typed.now.program main ≡ true }
    ensures verdict { IfOk result (λ verdict. IsVerdict (setting_of typed.now.program main limits.now) journal.now verdict) }
    ensures readable { IfOk result IsReadableVerdict }
{
    keeps_typed(typed);
    keeps_program(typed);
    let program = &typed.program;
    let Ok(mut machine) = begin(alloc, program, main) else {
        return Err(NoMemory);
    };
    let acts = count_acts(journal);
    let Ok(folded) = fold(alloc, program, main, limits, &journal[..acts], &mut machine) else {
        return Err(NoMemory);
    };
    match folded {
        Some(verdict) => Ok(verdict),
        None => close(
            alloc,
            program,
            main,
            limits,
            acts,
            &journal[acts..],
            &mut machine,
        ),
    }
}
