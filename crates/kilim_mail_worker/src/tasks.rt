//! A worker runs a task until it has ended, waits or rests.

ghost use Rattle.std.specs.Prelude.{◌≡◌, None, Some, [], OnOk, IfOk};
ghost use Rattle.kilim_run_model.specs.State.{Setting};
ghost use Rattle.kilim_run_board.specs.fibers.Fibers.{StartsAtNone};
ghost use Rattle.kilim_run_workers.specs.Runs.{RunsOn};
ghost use Rattle.kilim_mail_ledger.specs.Ledger.{items_of};
ghost use Rattle.kilim_mail_notes.specs.Histories.{trace_of};
ghost use Rattle.kilim_mail_ready.specs.Ready.{BodyStands};
ghost use Rattle.kilim_mail_group.specs.Steps.{MaybeStands};
ghost use Rattle.kilim_mail_worker.specs.Turns.{HasPasses, KeepsPasses, Works, BodyWants, maybe_items};

use crate::alone::{end, print};
use crate::inside::Inside;
use crate::moves::{act, line_up, start};
use crate::own::Own;
use crate::turns::Turns;
use kilim_mail_crew::Worker;
use kilim_mail_group::Ask;
use kilim_mail_ready::Body;
use kilim_run_board::fibers::{Answer, Fibers, Wants};
use kilim_run_state::Limits;
use kilim_run_workers::Run;
use kilim_units::NoMemory;
use std::sync::Wait;

// A task in hand is answered what it asked.
fn answer<F: Fibers, K: Run>(
    body: Body<F>,
    code: &F::Code,
    answer: Answer,
) -> Result<Body<F>, NoMemory>
    requires some { (set : Setting) × K.of set }
    requires serves { (set : Setting) → K.of set → F.serves set code.now }
    requires none { body.pending ≡ None }
    requires stands { (set : Setting) → K.of set → BodyStands F.task_of F.course_of F.holds F.asked set (record { fiber = body.fiber; clock = body.clock; pending = Some answer; history = body.history }) }
    ensures history { IfOk result (λ b. b.history ≡ body.history) }
    ensures stands { IfOk result (λ b. (set : Setting) → K.of set → BodyStands F.task_of F.course_of F.holds F.asked set b) }
{
    let mut body = body;
    match body.fiber.answer(code, answer) {
        Ok(()) => Ok(body),
        Err(fault) => Err(fault),
    }
}

// Runs a task in hand up to the next thing that it wants, without a turn.
fn resume<F: Fibers, K: Run>(
    body: &mut Body<F>,
    code: &F::Code,
    limits: &Limits,
) -> Result<Wants<F>, NoMemory>
    requires some { (set : Setting) × K.of set }
    requires run { RunsOn F.serves K.of code.now limits.now }
    requires none { body.old.pending ≡ None }
    requires stands { (set : Setting) → K.of set → BodyStands F.task_of F.course_of F.holds F.asked set body.old }
    ensures history { OnOk result (body.new.history ≡ body.old.history) }
    ensures wants { IfOk result (λ w. (set : Setting) → K.of set → BodyWants F.task_of F.course_of F.holds F.asked set body.new w) }
    ensures none { IfOk result (λ w. StartsAtNone F.count_of w) }
{
    body.fiber.resume(code, limits)
}

// A task in hand rests, and is ready behind the others.
fn rest_here<F: Fibers, K: Run, R: Wait>(
    rt: &R,
    turns: &Turns<F, K>,
    worker: &mut Worker<Own>,
    body: Body<F>,
) -> Result<Option<Body<F>>, NoMemory>
    requires has { HasPasses turns.now worker.old }
    requires works { Works K.of turns.now worker.old (items_of (trace_of body.history)) }
    requires stands { (set : Setting) → K.of set → BodyStands F.task_of F.course_of F.holds F.asked set body }
    ensures passes { KeepsPasses turns.now worker.old worker.new }
    ensures works { IfOk result (λ o. Works K.of turns.now worker.new (maybe_items o)) }
    ensures body { IfOk result (λ o. (set : Setting) → K.of set → MaybeStands F.task_of F.course_of F.holds F.asked set o) }
{
    match line_up(rt, turns, worker, body) {
        Ok(()) => Ok(None),
        Err(fault) => Err(fault),
    }
}

// Does what a task in hand wants. The task, where it goes on.
fn grant<F: Fibers, K: Run, R: Wait, I: Inside>(
    rt: &R,
    turns: &Turns<F, K>,
    worker: &mut Worker<Own>,
    body: Body<F>,
    wants: Wants<F>,
    inside: &I,
) -> Result<Option<Body<F>>, NoMemory>
    requires some { (set : Setting) × K.of set }
    requires has { HasPasses turns.now worker.old }
    requires works { Works K.of turns.now worker.old (items_of (trace_of body.history)) }
    requires wants { (set : Setting) → K.of set → BodyWants F.task_of F.course_of F.holds F.asked set body wants }
    requires none { StartsAtNone F.count_of wants }
    ensures passes { KeepsPasses turns.now worker.old worker.new }
    ensures works { IfOk result (λ o. Works K.of turns.now worker.new (maybe_items o)) }
    ensures body { IfOk result (λ o. (set : Setting) → K.of set → MaybeStands F.task_of F.course_of F.holds F.asked set o) }
{
    match wants {
        Wants::Put(name, tree, shape) => act(
            rt,
            turns,
            worker,
            name,
            body,
            Ask::Put(tree, shape),
            inside,
        ),
        Wants::PutWait(name, tree, shape) => act(
            rt,
            turns,
            worker,
            name,
            body,
            Ask::PutWait(tree, shape),
            inside,
        ),
        Wants::Bound(name, most) => act(rt, turns, worker, name, body, Ask::Bound(most), inside),
        Wants::Take(name) => act(rt, turns, worker, name, body, Ask::Take, inside),
        Wants::Probe(name) => act(rt, turns, worker, name, body, Ask::Probe, inside),
        Wants::Start(new, shape) => start(rt, turns, worker, body, new, shape),
        Wants::Print(shape) => match print::<F, K>(&mut worker.own, body, shape) {
            Ok(body) => Ok(Some(body)),
            Err(fault) => Err(fault),
        },
        Wants::Rest(_) => rest_here(rt, turns, worker, body),
        Wants::End(cause) => match end::<F, K>(&mut worker.own, body, cause) {
            Ok(()) => Ok(None),
            Err(fault) => Err(fault),
        },
    }
}

// Runs a task in hand up to the next thing that it wants, and does that. The task, where it goes on.
fn advance<F: Fibers, K: Run, R: Wait, I: Inside>(
    rt: &R,
    turns: &Turns<F, K>,
    worker: &mut Worker<Own>,
    body: Body<F>,
    code: &F::Code,
    limits: &Limits,
    inside: &I,
) -> Result<Option<Body<F>>, NoMemory>
    requires some { (set : Setting) × K.of set }
    requires run { RunsOn F.serves K.of code.now limits.now }
    requires has { HasPasses turns.now worker.old }
    requires works { Works K.of turns.now worker.old (items_of (trace_of body.history)) }
    requires none { body.pending ≡ None }
    requires stands { (set : Setting) → K.of set → BodyStands F.task_of F.course_of F.holds F.asked set body }
    ensures passes { KeepsPasses turns.now worker.old worker.new }
    ensures works { IfOk result (λ o. Works K.of turns.now worker.new (maybe_items o)) }
    ensures body { IfOk result (λ o. (set : Setting) → K.of set → MaybeStands F.task_of F.course_of F.holds F.asked set o) }
{
    let mut body = body;
    match resume::<F, K>(&mut body, code, limits) {
        Ok(wants) => grant(rt, turns, worker, body, wants, inside),
        Err(fault) => Err(fault),
    }
}

// Answers a task in hand, where it has an answer, or runs it. The task, where it goes on.
fn step<F: Fibers, K: Run, R: Wait, I: Inside>(
    rt: &R,
    turns: &Turns<F, K>,
    worker: &mut Worker<Own>,
    body: Body<F>,
    code: &F::Code,
    limits: &Limits,
    inside: &I,
) -> Result<Option<Body<F>>, NoMemory>
    requires some { (set : Setting) × K.of set }
    requires run { RunsOn F.serves K.of code.now limits.now }
    requires has { HasPasses turns.now worker.old }
    requires works { Works K.of turns.now worker.old (items_of (trace_of body.history)) }
    requires stands { (set : Setting) → K.of set → BodyStands F.task_of F.course_of F.holds F.asked set body }
    ensures passes { KeepsPasses turns.now worker.old worker.new }
    ensures works { IfOk result (λ o. Works K.of turns.now worker.new (maybe_items o)) }
    ensures body { IfOk result (λ o. (set : Setting) → K.of set → MaybeStands F.task_of F.course_of F.holds F.asked set o) }
{
    let mut body = body;
    match std::mem::replace(&mut body.pending, None) {
        Some(pending) => match answer::<F, K>(body, code, pending) {
            Ok(body) => Ok(Some(body)),
            Err(fault) => Err(fault),
        },
        None => advance(rt, turns, worker, body, code, limits, inside),
    }
}

/// Runs a task until it has ended, waits or rests.
pub fn run_task<F: Fibers, K: Run, R: Wait, I: Inside>(
    rt: &R,
    turns: &Turns<F, K>,
    worker: &mut Worker<Own>,
    body: Body<F>,
    code: &F::Code,
    limits: &Limits,
    inside: &I,
) -> Result<(), NoMemory>
    requires some { (set : Setting) × K.of set }
    requires run { RunsOn F.serves K.of code.now limits.now }
    requires has { HasPasses turns.now worker.old }
    requires works { Works K.of turns.now worker.old (items_of (trace_of body.history)) }
    requires stands { (set : Setting) → K.of set → BodyStands F.task_of F.course_of F.holds F.asked set body }
    ensures passes { KeepsPasses turns.now worker.old worker.new }
    ensures works { OnOk result (Works K.of turns.now worker.new []) }
{
    let mut body = body;
    for _ in rt.forever() {
        match step(rt, turns, worker, body, code, limits, inside) {
            Ok(Some(next)) => body = next,
            Ok(None) => return Ok(()),
            Err(fault) => return Err(fault),
        }
    }
    unreachable!()
}
