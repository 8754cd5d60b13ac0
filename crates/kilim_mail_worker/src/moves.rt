//! What a worker does with its tasks under its turns.

ghost use Rattle.std.specs.Prelude.{◌≡◌, ◌++◌, [], OnOk, IfOk};
ghost use Rattle.std.specs.List.{AllByRecursion};
ghost use Rattle.kilim_run_model.specs.State.{Setting};
ghost use Rattle.kilim_run_board.specs.fibers.Fibers.{IsNewCourse, StandsFor, NewCourse};
ghost use Rattle.kilim_run_board.specs.fibers.Wishes.{ToStart};
ghost use Rattle.kilim_mail_ledger.specs.Ledger.{items_of};
ghost use Rattle.kilim_mail_notes.specs.Histories.{trace_of};
ghost use Rattle.kilim_mail_register.specs.Register.{born_of, IsStarted};
ghost use Rattle.kilim_mail_ready.specs.Ready.{BodyStands};
ghost use Rattle.kilim_mail_group.specs.Group.{AskMeets, BodyAsks, CameStands, bodies_items, came_items};
ghost use Rattle.kilim_mail_group.specs.Steps.{MaybeStands};
ghost use Rattle.kilim_mail_worker.specs.Turns.{HasPasses, KeepsPasses, Works, GivesAway, IsBirth, StartedStands, maybe_items};

use crate::inside::Inside;
use crate::own::Own;
use crate::turns::{Turns, group_place, ready_place, register_place};
use crate::under::{act_under, line_up_under, start_under};
use kilim_mail_crew::Worker;
use kilim_mail_group::{Ask, Came};
use kilim_mail_notes::History;
use kilim_mail_ready::Body;
use kilim_mail_register::Started;
use kilim_program::BoxName;
use kilim_run_board::fibers::{Answer, Fibers};
use kilim_run_state::Shape;
use kilim_run_workers::Run;
use kilim_units::NoMemory;
use std::sync::Wait;

/// A task is ready, behind the others.
pub fn line_up<F: Fibers, K: Run, R: Wait>(
    rt: &R,
    turns: &Turns<F, K>,
    worker: &mut Worker<Own>,
    body: Body<F>,
) -> Result<(), NoMemory>
    requires has { HasPasses turns.now worker.old }
    requires stands { (set : Setting) → K.of set → BodyStands F.task_of F.course_of F.holds F.asked set body }
    ensures passes { KeepsPasses turns.now worker.old worker.new }
    ensures gives { OnOk result (GivesAway K.of turns.now worker.old worker.new (items_of (trace_of body.history))) }
{
    let at = ready_place(turns);
    line_up_under(rt, &turns.ready, &mut worker.passes[at], body)
}

// So are these tasks.
fn line_up_all<F: Fibers, K: Run, R: Wait>(
    rt: &R,
    turns: &Turns<F, K>,
    worker: &mut Worker<Own>,
    bodies: Vec<Body<F>>,
) -> Result<(), NoMemory>
    requires has { HasPasses turns.now worker.old }
    requires stand { (set : Setting) → K.of set → AllByRecursion (BodyStands F.task_of F.course_of F.holds F.asked set) bodies.items }
    ensures passes { KeepsPasses turns.now worker.old worker.new }
    ensures gives { OnOk result (GivesAway K.of turns.now worker.old worker.new (bodies_items bodies.items)) }
{
    for body in bodies {
        match line_up(rt, turns, worker, body) {
            Ok(()) => {}
            Err(fault) => return Err(fault),
        }
    }
    Ok(())
}

// What a task in hand asks of a mailbox, under its turn.
fn act_there<F: Fibers, K: Run, R: Wait, I: Inside>(
    rt: &R,
    turns: &Turns<F, K>,
    worker: &mut Worker<Own>,
    name: BoxName,
    body: Body<F>,
    ask: Ask,
    inside: &I,
) -> Result<Came<F>, NoMemory>
    requires some { (set : Setting) × K.of set }
    requires has { HasPasses turns.now worker.old }
    requires works { Works K.of turns.now worker.old (items_of (trace_of body.history)) }
    requires meets { (set : Setting) → K.of set → AskMeets F.task_of F.course_of F.asked set name body ask }
    ensures passes { KeepsPasses turns.now worker.old worker.new }
    ensures works { IfOk result (λ c. Works K.of turns.now worker.new (came_items c)) }
    ensures came { IfOk result (λ c. (set : Setting) → K.of set → CameStands F.task_of F.course_of F.holds F.asked set c) }
{
    let at = group_place(turns, name);
    act_under(
        rt,
        &turns.groups[at],
        &mut worker.passes[at],
        at,
        name,
        body,
        ask,
        inside,
    )
}

// What came of it: those that it woke are ready. The task, where it goes on.
fn settle<F: Fibers, K: Run, R: Wait>(
    rt: &R,
    turns: &Turns<F, K>,
    worker: &mut Worker<Own>,
    came: Came<F>,
) -> Result<Option<Body<F>>, NoMemory>
    requires has { HasPasses turns.now worker.old }
    requires works { Works K.of turns.now worker.old (came_items came) }
    requires came { (set : Setting) → K.of set → CameStands F.task_of F.course_of F.holds F.asked set came }
    ensures passes { KeepsPasses turns.now worker.old worker.new }
    ensures works { IfOk result (λ o. Works K.of turns.now worker.new (maybe_items o)) }
    ensures stands { IfOk result (λ o. (set : Setting) → K.of set → MaybeStands F.task_of F.course_of F.holds F.asked set o) }
{
    match came {
        Came::Goes(body, woken) => match line_up_all(rt, turns, worker, woken) {
            Ok(()) => Ok(Some(body)),
            Err(fault) => Err(fault),
        },
        Came::Over(body) => {
            worker.own.bury(&body.history);
            Ok(None)
        }
        Came::Waits => Ok(None),
    }
}

/// What a task in hand asks of a mailbox. The task, where it goes on; those that it woke are ready.
pub fn act<F: Fibers, K: Run, R: Wait, I: Inside>(
    rt: &R,
    turns: &Turns<F, K>,
    worker: &mut Worker<Own>,
    name: BoxName,
    body: Body<F>,
    ask: Ask,
    inside: &I,
) -> Result<Option<Body<F>>, NoMemory>
    requires some { (set : Setting) × K.of set }
    requires has { HasPasses turns.now worker.old }
    requires works { Works K.of turns.now worker.old (items_of (trace_of body.history)) }
    requires meets { (set : Setting) → K.of set → AskMeets F.task_of F.course_of F.asked set name body ask }
    ensures passes { KeepsPasses turns.now worker.old worker.new }
    ensures works { IfOk result (λ o. Works K.of turns.now worker.new (maybe_items o)) }
    ensures stands { IfOk result (λ o. (set : Setting) → K.of set → MaybeStands F.task_of F.course_of F.holds F.asked set o) }
{
    match act_there(rt, turns, worker, name, body, ask, inside) {
        Ok(came) => settle(rt, turns, worker, came),
        Err(fault) => Err(fault),
    }
}

// A start by a task in hand, under the register's turn.
fn start_there<F: Fibers, K: Run, R: Wait>(
    rt: &R,
    turns: &Turns<F, K>,
    worker: &mut Worker<Own>,
    history: &mut History,
    clock: u64,
    shape: Shape,
) -> Result<Started, NoMemory>
    requires has { HasPasses turns.now worker.old }
    requires works { Works K.of turns.now worker.old (items_of (trace_of history.old)) }
    ensures passes { KeepsPasses turns.now worker.old worker.new }
    ensures works { IfOk result (λ s. Works K.of turns.now worker.new (items_of (trace_of history.new) ++ born_of s)) }
    ensures started { IfOk result (λ s. IsStarted (trace_of history.old) clock shape (trace_of history.new) s) }
{
    let at = register_place(turns);
    start_under(
        rt,
        &turns.register,
        &mut worker.passes[at],
        history,
        clock,
        shape,
    )
}

// A task that was started.
fn born<F: Fibers, K: Run>(new: F, number: u32, stamp: u64, history: History) -> Body<F>
    requires course { IsNewCourse (F.course_of new) }
    requires none { F.count_of new ≡ 0 }
    requires stands { (set : Setting) → K.of set → StandsFor F.task_of F.course_of F.holds set new }
    requires history { trace_of history ≡ record { task = number; stamp = stamp; beginning = (F.course_of new).beginning; past = [] } }
    ensures history { result.history ≡ history }
    ensures stands { (set : Setting) → K.of set → BodyStands F.task_of F.course_of F.holds F.asked set result }
{
    let mut new = new;
    new.number(number);
    Body {
        fiber: new,
        clock: stamp,
        pending: None,
        history,
    }
}

// What came of a start: the task that was started is ready. The task in hand, where it goes on.
fn settle_start<F: Fibers, K: Run, R: Wait>(
    rt: &R,
    turns: &Turns<F, K>,
    worker: &mut Worker<Own>,
    body: Body<F>,
    new: F,
    started: Started,
) -> Result<Option<Body<F>>, NoMemory>
    requires has { HasPasses turns.now worker.old }
    requires works { Works K.of turns.now worker.old (items_of (trace_of body.history) ++ born_of started) }
    requires none { F.count_of new ≡ 0 }
    requires new { IsNewCourse (F.course_of new) }
    requires stands { (set : Setting) → K.of set → StandsFor F.task_of F.course_of F.holds set new }
    requires started { (set : Setting) → K.of set → StartedStands F.task_of F.course_of F.holds F.asked set body started }
    requires birth { IsBirth (F.course_of new).beginning started }
    ensures passes { KeepsPasses turns.now worker.old worker.new }
    ensures works { IfOk result (λ o. Works K.of turns.now worker.new (maybe_items o)) }
    ensures body { IfOk result (λ o. (set : Setting) → K.of set → MaybeStands F.task_of F.course_of F.holds F.asked set o) }
{
    match started {
        Started::Task(number, stamp, history) => {
            let body = Body {
                fiber: body.fiber,
                clock: stamp,
                pending: Some(Answer::Started(number)),
                history: body.history,
            };
            match line_up(rt, turns, worker, born::<F, K>(new, number, stamp, history)) {
                Ok(()) => Ok(Some(body)),
                Err(fault) => Err(fault),
            }
        }
        Started::OutOfTasks(_) => {
            worker.own.bury(&body.history);
            Ok(None)
        }
    }
}

/// A task in hand starts another one, which is ready then. The task, where it goes on.
pub fn start<F: Fibers, K: Run, R: Wait>(
    rt: &R,
    turns: &Turns<F, K>,
    worker: &mut Worker<Own>,
    body: Body<F>,
    new: F,
    shape: Shape,
) -> Result<Option<Body<F>>, NoMemory>
    requires has { HasPasses turns.now worker.old }
    requires works { Works K.of turns.now worker.old (items_of (trace_of body.history)) }
    requires asks { (set : Setting) → K.of set → BodyAsks F.task_of F.course_of F.asked set body (ToStart shape) }
    requires none { F.count_of new ≡ 0 }
    requires course { NewCourse F.course_of new shape }
    requires stands { (set : Setting) → K.of set → StandsFor F.task_of F.course_of F.holds set new }
    ensures passes { KeepsPasses turns.now worker.old worker.new }
    ensures works { IfOk result (λ o. Works K.of turns.now worker.new (maybe_items o)) }
    ensures body { IfOk result (λ o. (set : Setting) → K.of set → MaybeStands F.task_of F.course_of F.holds F.asked set o) }
{
    let mut body = body;
    match start_there(rt, turns, worker, &mut body.history, body.clock, shape) {
        Ok(started) => settle_start(rt, turns, worker, body, new, started),
        Err(fault) => Err(fault),
    }
}
