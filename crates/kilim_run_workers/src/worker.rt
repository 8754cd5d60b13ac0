//! One worker.

ghost use Rattle.std.specs.Prelude.{◌≡◌, ℕ, [], Option, Some, None, IfOk, OnErr};
ghost use Rattle.kilim_run_model.specs.State.{Setting};
ghost use Rattle.kilim_run_board.specs.fibers.Fibers.{StartsAtNone};
ghost use Rattle.kilim_run_board.specs.Seen.{wish_in};
ghost use Rattle.kilim_run_turn.specs.Turns.{seat_of, shows, IsPassOf};
ghost use Rattle.kilim_run_workers.specs.Codes.{board_cells, lent_numbers};
ghost use Rattle.kilim_run_workers.specs.Runs.{fiber_numbers, AllStand, AllRest, AllMeet, IsTaken, ActedAs, RunsOn, NextIs};
ghost use Rattle.kilim_run_workers.specs.Workers.{MayWork, HasWorked};
ghost use Rattle.kilim_run_model.specs.Course.{Course};

use crate::one_worker::Next;
use crate::run::{Run, RunBoard};
use kilim_outside::Gate;
use kilim_run_board::fibers::{Fibers, Wants};
use kilim_run_board::{Acted, Lent};
use kilim_run_model::Waits;
use kilim_run_state::Limits;
use kilim_run_turn::{Pass, Turn};
use kilim_units::NoMemory;
use std::sync::Wait;

// Wakes a worker that rests, where there is more to do than this one does next.
fn call_if<F: Fibers, K: Run>(turn: &Turn<RunBoard<F, K>>, more: bool) {
    if more {
        turn.ring();
    }
}

// Lends a fiber to the pass's seat.
fn take_one<F: Fibers, K: Run, R: Wait>(
    rt: &R,
    turn: &Turn<RunBoard<F, K>>,
    pass: &mut Pass,
) -> Lent<F>
    requires some { (set : Setting) × K.of set }
    requires pass { IsPassOf board_cells turn.now pass.old }
    requires free { shows pass.old ≡ [] }
    ensures pass { IsPassOf board_cells turn.now pass.new }
    ensures seat { seat_of pass.new ≡ seat_of pass.old }
    ensures taken { IsTaken F.task_of F.course_of F.holds K.of (shows pass.new) result }
{
    let mut held = turn.enter(rt, pass);
    let lent = held.value.lend(pass.seat());
    let left = held.value.ready();
    turn.leave(pass, held);
    call_if(turn, left >= 1);
    lent
}

// Gives the fiber back that is lent to the pass's seat.
fn hand_back<F: Fibers, K: Run, R: Wait>(
    rt: &R,
    turn: &Turn<RunBoard<F, K>>,
    pass: &mut Pass,
    fiber: F,
    waits: Option<Waits>,
)
    requires pass { IsPassOf board_cells turn.now pass.old }
    requires lent { shows pass.old ≡ fiber_numbers F.task_of F.course_of fiber }
    requires rests { AllRest F.task_of F.course_of F.holds K.of fiber waits }
    ensures pass { IsPassOf board_cells turn.now pass.new }
    ensures seat { seat_of pass.new ≡ seat_of pass.old }
    ensures empty { shows pass.new ≡ [] }
{
    let mut held = turn.enter(rt, pass);
    held.value.give_back(pass.seat(), fiber, waits);
    let ready = held.value.ready();
    turn.leave(pass, held);
    call_if(turn, ready >= 2);
}

// Stops the board, for want of memory.
fn quit<F: Fibers, K: Run, R: Wait>(rt: &R, turn: &Turn<RunBoard<F, K>>, pass: &mut Pass)
    requires pass { IsPassOf board_cells turn.now pass.old }
    requires lent { (t : ℕ) × (c : Course) × (shows pass.old ≡ lent_numbers t c) }
    ensures pass { IsPassOf board_cells turn.now pass.new }
    ensures seat { seat_of pass.new ≡ seat_of pass.old }
    ensures empty { shows pass.new ≡ [] }
{
    let mut held = turn.enter(rt, pass);
    held.value.stop(pass.seat());
    turn.leave(pass, held);
}

// The act of the fiber that is lent to the pass's seat.
fn act<F: Fibers, K: Run, R: Wait>(
    rt: &R,
    turn: &Turn<RunBoard<F, K>>,
    pass: &mut Pass,
    fiber: &F,
    wants: Wants<F>,
) -> Result<Acted, NoMemory>
    requires some { (set : Setting) × K.of set }
    requires pass { IsPassOf board_cells turn.now pass.old }
    requires lent { shows pass.old ≡ fiber_numbers F.task_of F.course_of fiber.now }
    requires meets { AllMeet F.task_of F.course_of F.holds K.of fiber.now wants }
    requires none { StartsAtNone F.count_of wants }
    ensures pass { IsPassOf board_cells turn.now pass.new }
    ensures seat { seat_of pass.new ≡ seat_of pass.old }
    ensures refused { OnErr result (shows pass.new ≡ fiber_numbers F.task_of F.course_of fiber.now) }
    ensures acted { IfOk result (λ a. ActedAs K.of (F.task_of fiber.now) (F.course_of fiber.now) (shows pass.new) (wish_in wants) a) }
{
    let mut held = turn.enter(rt, pass);
    let acted = held.value.act(pass.seat(), fiber, wants);
    let ready = held.value.ready();
    turn.leave(pass, held);
    call_if(turn, ready >= 2);
    acted
}

// Runs a lent fiber up to the next thing that it wants, without the turn, and does that. For want of memory its seat has the fiber's task.
fn advance<F: Fibers, K: Run, R: Wait>(
    rt: &R,
    turn: &Turn<RunBoard<F, K>>,
    pass: &mut Pass,
    fiber: &mut F,
    code: &F::Code,
    limits: &Limits,
) -> Result<Next, NoMemory>
    requires some { (set : Setting) × K.of set }
    requires run { RunsOn F.serves K.of code.now limits.now }
    requires pass { IsPassOf board_cells turn.now pass.old }
    requires lent { shows pass.old ≡ fiber_numbers F.task_of F.course_of fiber.old }
    requires stands { AllStand F.task_of F.course_of F.holds K.of fiber.old }
    ensures pass { IsPassOf board_cells turn.now pass.new }
    ensures seat { seat_of pass.new ≡ seat_of pass.old }
    ensures next { IfOk result (λ next. NextIs F.task_of F.course_of F.holds K.of (shows pass.new) fiber.new next) }
    ensures refused { OnErr result ((t : ℕ) × (c : Course) × (shows pass.new ≡ lent_numbers t c)) }
{
    let Ok(wants) = fiber.resume(code, limits) else {
        return Err(NoMemory);
    };
    match wants {
        Wants::Rest(waits) => Ok(Next::Rests(waits)),
        Wants::End(cause) => match act(rt, turn, pass, fiber, Wants::End(cause)) {
            Ok(_) => Ok(Next::Over),
            Err(fault) => Err(fault),
        },
        wants => {
            let acted = match act(rt, turn, pass, fiber, wants) {
                Ok(acted) => acted,
                Err(fault) => return Err(fault),
            };
            match acted {
                Acted::Answer(answer) => match fiber.answer(code, answer) {
                    Ok(()) => Ok(Next::On),
                    Err(fault) => Err(fault),
                },
                Acted::OutOfTasks => Ok(Next::Over),
                Acted::OutOfRoom => Ok(Next::Over),
            }
        }
    }
}

// Runs a lent fiber until it rests or ends, or the board is stopped.
fn run_fiber<F: Fibers, K: Run, R: Wait>(
    rt: &R,
    turn: &Turn<RunBoard<F, K>>,
    pass: &mut Pass,
    fiber: F,
    code: &F::Code,
    limits: &Limits,
)
    requires some { (set : Setting) × K.of set }
    requires run { RunsOn F.serves K.of code.now limits.now }
    requires pass { IsPassOf board_cells turn.now pass.old }
    requires lent { shows pass.old ≡ fiber_numbers F.task_of F.course_of fiber }
    requires stands { AllStand F.task_of F.course_of F.holds K.of fiber }
    ensures pass { IsPassOf board_cells turn.now pass.new }
    ensures seat { seat_of pass.new ≡ seat_of pass.old }
    ensures empty { shows pass.new ≡ [] }
{
    let mut fiber = fiber;
    for _ in rt.forever() {
        match advance(rt, turn, pass, &mut fiber, code, limits) {
            Ok(Next::On) => {}
            Ok(Next::Over) => return,
            Ok(Next::Rests(waits)) => {
                hand_back(rt, turn, pass, fiber, waits);
                return;
            }
            Err(_) => {
                quit(rt, turn, pass);
                return;
            }
        }
    }
    unreachable!()
}

// Runs the next fiber that is ready, or waits a short while for one. Whether there may be more to do.
fn work_once<F: Fibers, K: Run, R: Wait, G: Gate>(
    rt: &R,
    turn: &Turn<RunBoard<F, K>>,
    pass: &mut Pass,
    code: &F::Code,
    limits: &Limits,
    gate: &G,
) -> bool
    requires may { MayWork turn.now F.serves K.of code.now limits.now pass.old }
    ensures { HasWorked turn.now pass.old pass.new }
{
    match take_one(rt, turn, pass) {
        Lent::Fiber(fiber) => {
            gate.pass(fiber.task(), fiber.records());
            run_fiber(rt, turn, pass, fiber, code, limits);
            true
        }
        Lent::Idle => {
            turn.rest(rt, pass);
            true
        }
        Lent::Quiet => false,
        Lent::Stopped => false,
    }
}

/// Runs fibers until none is ready and none is lent, or the board is stopped.
pub fn run_worker<F: Fibers, K: Run, R: Wait, G: Gate>(
    rt: &R,
    turn: &Turn<RunBoard<F, K>>,
    pass: &mut Pass,
    code: &F::Code,
    limits: &Limits,
    gate: &G,
)
    requires may { MayWork turn.now F.serves K.of code.now limits.now pass.old }
    ensures { HasWorked turn.now pass.old pass.new }
{
    for _ in rt.forever() {
        if !work_once(rt, turn, pass, code, limits, gate) {
            return;
        }
    }
    unreachable!()
}
