//! A worker runs tasks, one after the other.

ghost use Rattle.std.specs.Prelude.{◌≡◌, true, []};
ghost use Rattle.kilim_run_model.specs.State.{Setting};
ghost use Rattle.kilim_mail_ready.specs.Ready.{LentStands};
ghost use Rattle.kilim_mail_worker.specs.Turns.{HasPasses, KeepsPasses, Works, MayWork, HasWorked, lent_items};

use crate::inside::Inside;
use crate::own::Own;
use crate::tasks::run_task;
use crate::turns::{Turns, ready_place};
use crate::under::{lend_under, stop_under};
use kilim_mail_crew::Worker;
use kilim_mail_ready::Lent;
use kilim_outside::Gate;
use kilim_run_board::fibers::Fibers;
use kilim_run_state::Limits;
use kilim_run_workers::Run;
use std::sync::Wait;

// The next task that is ready, if there is one.
fn lend<F: Fibers, K: Run, R: Wait>(
    rt: &R,
    turns: &Turns<F, K>,
    worker: &mut Worker<Own>,
) -> Lent<F>
    requires has { HasPasses turns.now worker.old }
    requires works { Works K.of turns.now worker.old [] }
    ensures passes { KeepsPasses turns.now worker.old worker.new }
    ensures works { Works K.of turns.now worker.new (lent_items result) }
    ensures stands { (set : Setting) → K.of set → LentStands F.task_of F.course_of F.holds F.asked set result }
{
    let at = ready_place(turns);
    lend_under(rt, &turns.ready, &mut worker.passes[at])
}

// Memory is wanting: the run is stopped.
fn give_up<F: Fibers, K: Run, R: Wait>(rt: &R, turns: &Turns<F, K>, worker: &mut Worker<Own>)
    requires has { HasPasses turns.now worker.old }
    ensures passes { KeepsPasses turns.now worker.old worker.new }
    ensures failed { worker.new.own.failed ≡ true }
{
    let at = ready_place(turns);
    stop_under(rt, &turns.ready, &mut worker.passes[at]);
    worker.own.failed = true;
}

// Waits a short while.
fn rest<F: Fibers, K: Run, R: Wait>(rt: &R, turns: &Turns<F, K>, worker: &mut Worker<Own>)
    requires has { HasPasses turns.now worker.old }
    ensures passes { KeepsPasses turns.now worker.old worker.new }
    ensures works { Works K.of turns.now worker.old [] → Works K.of turns.now worker.new [] }
{
    let at = ready_place(turns);
    turns.ready.rest(rt, &mut worker.passes[at]);
}

// Runs the next task that is ready, or waits a short while for one. Whether there may be more to do.
fn work_once<F: Fibers, K: Run, R: Wait, G: Gate, I: Inside>(
    rt: &R,
    turns: &Turns<F, K>,
    worker: &mut Worker<Own>,
    code: &F::Code,
    limits: &Limits,
    gate: &G,
    inside: &I,
) -> bool
    requires may { MayWork F.serves K.of code.now limits.now turns.now worker.old }
    ensures worked { HasWorked K.of turns.now worker.old worker.new }
    ensures more { result ≡ true → Works K.of turns.now worker.new [] }
{
    match lend(rt, turns, worker) {
        Lent::Task(body) => {
            gate.pass(body.fiber.task(), body.fiber.records());
            match run_task(rt, turns, worker, body, code, limits, inside) {
                Ok(()) => true,
                Err(_) => {
                    give_up(rt, turns, worker);
                    false
                }
            }
        }
        Lent::Idle => {
            rest(rt, turns, worker);
            true
        }
        Lent::Quiet => false,
        Lent::Stopped => false,
    }
}

/// Runs tasks until none is ready and no worker has one, or the run is stopped.
pub fn work<F: Fibers, K: Run, R: Wait, G: Gate, I: Inside>(
    rt: &R,
    turns: &Turns<F, K>,
    worker: &mut Worker<Own>,
    code: &F::Code,
    limits: &Limits,
    gate: &G,
    inside: &I,
)
    requires may { MayWork F.serves K.of code.now limits.now turns.now worker.old }
    ensures { HasWorked K.of turns.now worker.old worker.new }
{
    for _ in rt.forever() {
        if !work_once(rt, turns, worker, code, limits, gate, inside) {
            return;
        }
    }
    unreachable!()
}
