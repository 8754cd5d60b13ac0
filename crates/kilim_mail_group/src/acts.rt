//! What comes of what a task asks of a mailbox.

ghost use Rattle.std.specs.Prelude.{◌≡◌, ◌<◌, ◌==◌, ℕ, true, false, OnOk, IfOk, length};
ghost use Rattle.kilim_run_model.specs.State.{Setting, is_full};
ghost use Rattle.kilim_run_turn.specs.Views.{cell_at};
ghost use Rattle.kilim_run_turn.specs.Turns.{KeepsOthers};
ghost use Rattle.kilim_run_board.specs.fibers.Wishes.{IsMessage, ToPut, ToPutWait, ToBound, ToTake, ToProbe};
ghost use Rattle.kilim_mail_ledger.specs.Ledger.{items_of};
ghost use Rattle.kilim_mail_ledger.specs.Mailboxes.{turn_of};
ghost use Rattle.kilim_mail_notes.specs.Histories.{trace_of};
ghost use Rattle.kilim_mail_notes.specs.Notes.{ledger_cells, Accounts};
ghost use Rattle.kilim_mail_ready.specs.Ready.{BodyStands};
ghost use Rattle.kilim_mail_posts.specs.Posts.{box_at};
ghost use Rattle.kilim_mail_group.specs.Group.{BodyAsks, BoxesStand, GroupStands, OthersWait, AskMeets, CameStands, came_items};
ghost use Rattle.kilim_mail_group.specs.Steps.{Acts};

use crate::boxes::{Ask, Boxes, Came, Sleeper};
use crate::steps::{bound, end_full, find_empty, put_in, take_out};
use crate::waiting::{serve, wait};
use kilim_mail_ready::Body;
use kilim_program::BoxName;
use kilim_run_board::fibers::Fibers;
use kilim_run_model::Waits;
use kilim_run_state::Shape;
use kilim_run_trees::Tree;
use kilim_run_workers::Run;
use kilim_units::NoMemory;

// A task has acted on a mailbox: it goes on, and so do those there that needn't wait any longer.
fn go_on<F: Fibers, K: Run>(
    boxes: &mut Boxes<F>,
    seat: usize,
    name: BoxName,
    body: Body<F>,
) -> Result<Came<F>, NoMemory>
    requires some { (set : Setting) × K.of set }
    requires there { seat < boxes.old.ledger.seats }
    requires mine { turn_of boxes.old.turns name ≡ boxes.old.number }
    requires stands { BoxesStand F.task_of F.course_of F.asked K.of boxes.old }
    requires rest { OthersWait name (box_at boxes.old.posts) boxes.old.parked.items }
    requires body { (set : Setting) → K.of set → BodyStands F.task_of F.course_of F.holds F.asked set body }
    ensures others { KeepsOthers seat (ledger_cells boxes.old.ledger) (ledger_cells boxes.new.ledger) }
    ensures stands { OnOk result (GroupStands F.task_of F.course_of F.asked K.of boxes.new) }
    ensures accounts { IfOk result (λ c. Accounts (cell_at (ledger_cells boxes.old.ledger) seat) (cell_at (ledger_cells boxes.new.ledger) seat) (items_of (trace_of body.history)) (came_items c)) }
    ensures came { IfOk result (λ c. (set : Setting) → K.of set → CameStands F.task_of F.course_of F.holds F.asked set c) }
{
    match serve::<F, K>(boxes, seat, name) {
        Ok(woken) => Ok(Came::Goes(body, woken)),
        Err(fault) => Err(fault),
    }
}

// A put, or the end of the task where the mailbox is full.
fn put_or_end<F: Fibers, K: Run>(
    boxes: &mut Boxes<F>,
    seat: usize,
    name: BoxName,
    body: Body<F>,
    tree: Tree,
    shape: Shape,
) -> Result<Came<F>, NoMemory>
    requires some { (set : Setting) × K.of set }
    requires there { seat < boxes.old.ledger.seats }
    requires mine { turn_of boxes.old.turns name ≡ boxes.old.number }
    requires stands { GroupStands F.task_of F.course_of F.asked K.of boxes.old }
    requires asks { (set : Setting) → K.of set → BodyAsks F.task_of F.course_of F.asked set body (ToPut name shape) }
    requires message { (set : Setting) → K.of set → IsMessage set.program tree shape }
    ensures others { KeepsOthers seat (ledger_cells boxes.old.ledger) (ledger_cells boxes.new.ledger) }
    ensures stands { OnOk result (GroupStands F.task_of F.course_of F.asked K.of boxes.new) }
    ensures accounts { IfOk result (λ c. Accounts (cell_at (ledger_cells boxes.old.ledger) seat) (cell_at (ledger_cells boxes.new.ledger) seat) (items_of (trace_of body.history)) (came_items c)) }
    ensures came { IfOk result (λ c. (set : Setting) → K.of set → CameStands F.task_of F.course_of F.holds F.asked set c) }
{
    if boxes.posts.is_full(name) {
        drop(tree);
        match end_full::<F, K>(boxes, seat, name, body, shape) {
            Ok(body) => Ok(Came::Over(body)),
            Err(fault) => Err(fault),
        }
    } else {
        match put_in::<F, K>(boxes, seat, name, body, tree, shape) {
            Ok(body) => go_on::<F, K>(boxes, seat, name, body),
            Err(fault) => Err(fault),
        }
    }
}

// A put that waits where the mailbox is full.
fn put_or_wait<F: Fibers, K: Run>(
    boxes: &mut Boxes<F>,
    seat: usize,
    name: BoxName,
    body: Body<F>,
    tree: Tree,
    shape: Shape,
) -> Result<Came<F>, NoMemory>
    requires some { (set : Setting) × K.of set }
    requires there { seat < boxes.old.ledger.seats }
    requires mine { turn_of boxes.old.turns name ≡ boxes.old.number }
    requires stands { GroupStands F.task_of F.course_of F.asked K.of boxes.old }
    requires asks { (set : Setting) → K.of set → BodyAsks F.task_of F.course_of F.asked set body (ToPutWait name shape) }
    requires message { (set : Setting) → K.of set → IsMessage set.program tree shape }
    ensures others { KeepsOthers seat (ledger_cells boxes.old.ledger) (ledger_cells boxes.new.ledger) }
    ensures stands { OnOk result (GroupStands F.task_of F.course_of F.asked K.of boxes.new) }
    ensures accounts { IfOk result (λ c. Accounts (cell_at (ledger_cells boxes.old.ledger) seat) (cell_at (ledger_cells boxes.new.ledger) seat) (items_of (trace_of body.history)) (came_items c)) }
    ensures came { IfOk result (λ c. (set : Setting) → K.of set → CameStands F.task_of F.course_of F.holds F.asked set c) }
{
    if boxes.posts.is_full(name) {
        let sleeper = Sleeper {
            body,
            message: Some((tree, shape)),
        };
        match wait::<F, K>(boxes, seat, Waits::Put(name), sleeper) {
            Ok(()) => Ok(Came::Waits),
            Err(fault) => Err(fault),
        }
    } else {
        match put_in::<F, K>(boxes, seat, name, body, tree, shape) {
            Ok(body) => go_on::<F, K>(boxes, seat, name, body),
            Err(fault) => Err(fault),
        }
    }
}

// A take that waits where the mailbox is empty.
fn take_or_wait<F: Fibers, K: Run>(
    boxes: &mut Boxes<F>,
    seat: usize,
    name: BoxName,
    body: Body<F>,
) -> Result<Came<F>, NoMemory>
    requires some { (set : Setting) × K.of set }
    requires there { seat < boxes.old.ledger.seats }
    requires mine { turn_of boxes.old.turns name ≡ boxes.old.number }
    requires stands { GroupStands F.task_of F.course_of F.asked K.of boxes.old }
    requires asks { (set : Setting) → K.of set → BodyAsks F.task_of F.course_of F.asked set body (ToTake name) }
    ensures others { KeepsOthers seat (ledger_cells boxes.old.ledger) (ledger_cells boxes.new.ledger) }
    ensures stands { OnOk result (GroupStands F.task_of F.course_of F.asked K.of boxes.new) }
    ensures accounts { IfOk result (λ c. Accounts (cell_at (ledger_cells boxes.old.ledger) seat) (cell_at (ledger_cells boxes.new.ledger) seat) (items_of (trace_of body.history)) (came_items c)) }
    ensures came { IfOk result (λ c. (set : Setting) → K.of set → CameStands F.task_of F.course_of F.holds F.asked set c) }
{
    if boxes.posts.is_empty(name) {
        let sleeper = Sleeper {
            body,
            message: None,
        };
        match wait::<F, K>(boxes, seat, Waits::Take(name), sleeper) {
            Ok(()) => Ok(Came::Waits),
            Err(fault) => Err(fault),
        }
    } else {
        match take_out::<F, K>(boxes, seat, name, body) {
            Ok(body) => go_on::<F, K>(boxes, seat, name, body),
            Err(fault) => Err(fault),
        }
    }
}

// A message is taken, or the mailbox is found empty.
fn take_or_find<F: Fibers, K: Run>(
    boxes: &mut Boxes<F>,
    seat: usize,
    name: BoxName,
    body: Body<F>,
) -> Result<Body<F>, NoMemory>
    requires there { seat < boxes.old.ledger.seats }
    requires mine { turn_of boxes.old.turns name ≡ boxes.old.number }
    requires stands { BoxesStand F.task_of F.course_of F.asked K.of boxes.old }
    requires asks { (set : Setting) → K.of set → BodyAsks F.task_of F.course_of F.asked set body (ToProbe name) }
    ensures others { KeepsOthers seat (ledger_cells boxes.old.ledger) (ledger_cells boxes.new.ledger) }
    ensures acts { IfOk result (λ b. Acts F.task_of F.course_of F.asked K.of seat name boxes.old boxes.new (items_of (trace_of body.history)) (items_of (trace_of b.history))) }
    ensures body { IfOk result (λ b. (set : Setting) → K.of set → BodyStands F.task_of F.course_of F.holds F.asked set b) }
{
    if boxes.posts.is_empty(name) {
        find_empty::<F, K>(boxes, seat, name, body)
    } else {
        take_out::<F, K>(boxes, seat, name, body)
    }
}

// A take that doesn't wait.
fn take_or_not<F: Fibers, K: Run>(
    boxes: &mut Boxes<F>,
    seat: usize,
    name: BoxName,
    body: Body<F>,
) -> Result<Came<F>, NoMemory>
    requires some { (set : Setting) × K.of set }
    requires there { seat < boxes.old.ledger.seats }
    requires mine { turn_of boxes.old.turns name ≡ boxes.old.number }
    requires stands { GroupStands F.task_of F.course_of F.asked K.of boxes.old }
    requires asks { (set : Setting) → K.of set → BodyAsks F.task_of F.course_of F.asked set body (ToProbe name) }
    ensures others { KeepsOthers seat (ledger_cells boxes.old.ledger) (ledger_cells boxes.new.ledger) }
    ensures stands { OnOk result (GroupStands F.task_of F.course_of F.asked K.of boxes.new) }
    ensures accounts { IfOk result (λ c. Accounts (cell_at (ledger_cells boxes.old.ledger) seat) (cell_at (ledger_cells boxes.new.ledger) seat) (items_of (trace_of body.history)) (came_items c)) }
    ensures came { IfOk result (λ c. (set : Setting) → K.of set → CameStands F.task_of F.course_of F.holds F.asked set c) }
{
    match take_or_find::<F, K>(boxes, seat, name, body) {
        Ok(body) => go_on::<F, K>(boxes, seat, name, body),
        Err(fault) => Err(fault),
    }
}

// A bound.
fn bound_it<F: Fibers, K: Run>(
    boxes: &mut Boxes<F>,
    seat: usize,
    name: BoxName,
    body: Body<F>,
    most: u32,
) -> Result<Came<F>, NoMemory>
    requires some { (set : Setting) × K.of set }
    requires there { seat < boxes.old.ledger.seats }
    requires mine { turn_of boxes.old.turns name ≡ boxes.old.number }
    requires stands { GroupStands F.task_of F.course_of F.asked K.of boxes.old }
    requires asks { (set : Setting) → K.of set → BodyAsks F.task_of F.course_of F.asked set body (ToBound name most) }
    ensures others { KeepsOthers seat (ledger_cells boxes.old.ledger) (ledger_cells boxes.new.ledger) }
    ensures stands { OnOk result (GroupStands F.task_of F.course_of F.asked K.of boxes.new) }
    ensures accounts { IfOk result (λ c. Accounts (cell_at (ledger_cells boxes.old.ledger) seat) (cell_at (ledger_cells boxes.new.ledger) seat) (items_of (trace_of body.history)) (came_items c)) }
    ensures came { IfOk result (λ c. (set : Setting) → K.of set → CameStands F.task_of F.course_of F.holds F.asked set c) }
{
    match bound::<F, K>(boxes, seat, name, body, most) {
        Ok(body) => go_on::<F, K>(boxes, seat, name, body),
        Err(fault) => Err(fault),
    }
}

/// What a task asks of a mailbox, by that seat. After want of memory nothing is known of the mailboxes.
pub fn act<F: Fibers, K: Run>(
    boxes: &mut Boxes<F>,
    seat: usize,
    name: BoxName,
    body: Body<F>,
    ask: Ask,
) -> Result<Came<F>, NoMemory>
    requires some { (set : Setting) × K.of set }
    requires there { seat < boxes.old.ledger.seats }
    requires mine { turn_of boxes.old.turns name ≡ boxes.old.number }
    requires stands { GroupStands F.task_of F.course_of F.asked K.of boxes.old }
    requires meets { (set : Setting) → K.of set → AskMeets F.task_of F.course_of F.asked set name body ask }
    ensures others { KeepsOthers seat (ledger_cells boxes.old.ledger) (ledger_cells boxes.new.ledger) }
    ensures stands { OnOk result (GroupStands F.task_of F.course_of F.asked K.of boxes.new) }
    ensures accounts { IfOk result (λ c. Accounts (cell_at (ledger_cells boxes.old.ledger) seat) (cell_at (ledger_cells boxes.new.ledger) seat) (items_of (trace_of body.history)) (came_items c)) }
    ensures came { IfOk result (λ c. (set : Setting) → K.of set → CameStands F.task_of F.course_of F.holds F.asked set c) }
{
    match ask {
        Ask::Put(tree, shape) => put_or_end::<F, K>(boxes, seat, name, body, tree, shape),
        Ask::PutWait(tree, shape) => put_or_wait::<F, K>(boxes, seat, name, body, tree, shape),
        Ask::Take => take_or_wait::<F, K>(boxes, seat, name, body),
        Ask::Probe => take_or_not::<F, K>(boxes, seat, name, body),
        Ask::Bound(most) => bound_it::<F, K>(boxes, seat, name, body, most),
    }
}
