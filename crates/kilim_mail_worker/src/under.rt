//! One call under one turn: the turn is taken, the call made, and the turn given back.

ghost use Rattle.std.specs.Prelude.{◌≡◌, ℕ, [], ◌++◌, OnOk, IfOk};
ghost use Rattle.kilim_run_model.specs.State.{Setting};
ghost use Rattle.kilim_run_turn.specs.Turns.{seat_of, shows, IsPassOf};
ghost use Rattle.kilim_mail_ledger.specs.Ledger.{items_of};
ghost use Rattle.kilim_mail_ledger.specs.Mailboxes.{turn_of};
ghost use Rattle.kilim_mail_notes.specs.Histories.{trace_of};
ghost use Rattle.kilim_mail_notes.specs.Notes.{Accounts, IsNamed};
ghost use Rattle.kilim_mail_register.specs.Register.{register_cells, born_of, IsStarted};
ghost use Rattle.kilim_mail_ready.specs.Ready.{ready_cells, BodyStands, LentAs, LentStands};
ghost use Rattle.kilim_mail_group.specs.Group.{group_cells, AskMeets, CameStands, came_items};

use crate::inside::Inside;
use kilim_mail_group::{Ask, Came, Group};
use kilim_mail_notes::History;
use kilim_mail_ready::{Body, Lent, Ready};
use kilim_mail_register::{Register, Started};
use kilim_program::BoxName;
use kilim_run_board::fibers::Fibers;
use kilim_run_state::Shape;
use kilim_run_turn::{Pass, Turn};
use kilim_run_workers::Run;
use kilim_units::NoMemory;
use std::sync::Wait;

/// What a task asks of a mailbox, under its turn, whose number is told while it is held.
pub fn act_under<F: Fibers, K: Run, R: Wait, I: Inside>(
    rt: &R,
    turn: &Turn<Group<F, K>>,
    pass: &mut Pass,
    number: usize,
    name: BoxName,
    body: Body<F>,
    ask: Ask,
    inside: &I,
) -> Result<Came<F>, NoMemory>
    requires some { (set : Setting) × K.of set }
    requires pass { IsPassOf group_cells turn.now pass.old }
    requires mine { (turns : ℕ) × IsNamed (turn_of turns name) turns (shows pass.old) }
    requires meets { (set : Setting) → K.of set → AskMeets F.task_of F.course_of F.asked set name body ask }
    ensures pass { IsPassOf group_cells turn.now pass.new }
    ensures seat { seat_of pass.new ≡ seat_of pass.old }
    ensures accounts { IfOk result (λ c. Accounts (shows pass.old) (shows pass.new) (items_of (trace_of body.history)) (came_items c)) }
    ensures came { IfOk result (λ c. (set : Setting) → K.of set → CameStands F.task_of F.course_of F.holds F.asked set c) }
{
    let mut held = turn.enter(rt, pass);
    inside.at(number);
    let came = held.value.act(pass.seat(), name, body, ask);
    turn.leave(pass, held);
    came
}

/// A start, under the register's turn.
pub fn start_under<R: Wait>(
    rt: &R,
    turn: &Turn<Register>,
    pass: &mut Pass,
    history: &mut History,
    clock: u64,
    shape: Shape,
) -> Result<Started, NoMemory>
    requires pass { IsPassOf register_cells turn.now pass.old }
    ensures pass { IsPassOf register_cells turn.now pass.new }
    ensures seat { seat_of pass.new ≡ seat_of pass.old }
    ensures accounts { IfOk result (λ s. Accounts (shows pass.old) (shows pass.new) (items_of (trace_of history.old)) (items_of (trace_of history.new) ++ born_of s)) }
    ensures started { IfOk result (λ s. IsStarted (trace_of history.old) clock shape (trace_of history.new) s) }
{
    let mut held = turn.enter(rt, pass);
    let started = held.value.start(pass.seat(), history, clock, shape);
    turn.leave(pass, held);
    started
}

/// The next task, under the ready turn, for a worker that has none in hand.
pub fn lend_under<F: Fibers, K: Run, R: Wait>(
    rt: &R,
    turn: &Turn<Ready<F, K>>,
    pass: &mut Pass,
) -> Lent<F>
    requires pass { IsPassOf ready_cells turn.now pass.old }
    ensures pass { IsPassOf ready_cells turn.now pass.new }
    ensures seat { seat_of pass.new ≡ seat_of pass.old }
    ensures accounts { LentAs (shows pass.old) (shows pass.new) result }
    ensures stands { (set : Setting) → K.of set → LentStands F.task_of F.course_of F.holds F.asked set result }
{
    let mut held = turn.enter(rt, pass);
    let lent = held.value.lend(pass.seat());
    turn.leave(pass, held);
    lent
}

/// A task is ready, behind the others.
pub fn line_up_under<F: Fibers, K: Run, R: Wait>(
    rt: &R,
    turn: &Turn<Ready<F, K>>,
    pass: &mut Pass,
    body: Body<F>,
) -> Result<(), NoMemory>
    requires pass { IsPassOf ready_cells turn.now pass.old }
    requires stands { (set : Setting) → K.of set → BodyStands F.task_of F.course_of F.holds F.asked set body }
    ensures pass { IsPassOf ready_cells turn.now pass.new }
    ensures seat { seat_of pass.new ≡ seat_of pass.old }
    ensures accounts { OnOk result (Accounts (shows pass.old) (shows pass.new) (items_of (trace_of body.history)) []) }
{
    let mut held = turn.enter(rt, pass);
    let lined = held.value.line_up(pass.seat(), body);
    turn.leave(pass, held);
    lined
}

/// The run is stopped.
pub fn stop_under<F: Fibers, K: Run, R: Wait>(rt: &R, turn: &Turn<Ready<F, K>>, pass: &mut Pass)
    requires pass { IsPassOf ready_cells turn.now pass.old }
    ensures pass { IsPassOf ready_cells turn.now pass.new }
    ensures seat { seat_of pass.new ≡ seat_of pass.old }
    ensures same { shows pass.new ≡ shows pass.old }
{
    let mut held = turn.enter(rt, pass);
    held.value.stop(pass.seat());
    turn.leave(pass, held);
}
