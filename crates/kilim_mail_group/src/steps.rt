//! Acts of a task in hand on a mailbox.

ghost use Rattle.std.specs.Prelude.{◌≡◌, ◌<◌, ◌==◌, ℕ, true, false, OnOk, IfOk, length};
ghost use Rattle.kilim_run_model.specs.State.{Setting, is_full};
ghost use Rattle.kilim_run_model.specs.Course.{has_ended};
ghost use Rattle.kilim_run_turn.specs.Turns.{KeepsOthers};
ghost use Rattle.kilim_run_board.specs.fibers.Wishes.{ToPut, ToProbe, ToBound};
ghost use Rattle.kilim_mail_ledger.specs.Ledger.{items_of, trace_course, IsTrace};
ghost use Rattle.kilim_mail_ledger.specs.Mailboxes.{turn_of};
ghost use Rattle.kilim_mail_notes.specs.Histories.{dated_of, trace_of};
ghost use Rattle.kilim_mail_notes.specs.Notes.{ledger_cells};
ghost use Rattle.kilim_mail_ready.specs.Ready.{BodyStands};
ghost use Rattle.kilim_mail_posts.specs.Posts.{box_at};
ghost use Rattle.kilim_mail_group.specs.Group.{AllWait, BodyAsks, BoxesStand};
ghost use Rattle.kilim_mail_group.specs.Steps.{IsDeed, IsNoted, Acts, MayPut, MayTake};

use crate::boxes::Boxes;
use kilim_mail_notes::{Did, Mark};
use kilim_mail_ready::Body;
use kilim_mail_register::next_stamp;
use kilim_mail_shard::Message;
use kilim_mail_stamps::Stamped;
use kilim_program::BoxName;
use kilim_run_board::fibers::{Answer, Fibers};
use kilim_run_journal::{Act, Entry};
use kilim_run_state::{EndCause, Shape};
use kilim_run_trees::Tree;
use kilim_run_workers::Run;
use kilim_units::NoMemory;
use std::snapshot::Snapshot;

// One entry more of a task in hand: in its history, in what the seat did, and among the entries.
fn note<F: Drop>(
    boxes: &mut Boxes<F>,
    seat: usize,
    body: &mut Body<F>,
    mark: Mark,
    act: Act,
) -> Result<(), NoMemory>
    requires there { seat < boxes.old.ledger.seats }
    requires deed { IsDeed (dated_of mark) act }
    ensures others { KeepsOthers seat (ledger_cells boxes.old.ledger) (ledger_cells boxes.new.ledger) }
    ensures noted { OnOk result (IsNoted seat boxes.old boxes.new body.old body.new (dated_of mark) act) }
{
    let Ok(()) = boxes.log.reserve(1) else {
        drop(act);
        return Err(NoMemory);
    };
    let task = body.history.task;
    boxes.ledger.made(seat, task, &mark);
    body.history.note(&mark);
    body.clock = mark.stamp;
    boxes.log.push_reserved(Stamped {
        stamp: mark.stamp,
        full: mark.full,
        entry: Entry { task, act },
    });
    Ok(())
}

/// The task puts its message into a mailbox that isn't full, and has that for its answer.
pub fn put_in<F: Fibers, K: Run>(
    boxes: &mut Boxes<F>,
    seat: usize,
    name: BoxName,
    body: Body<F>,
    tree: Tree,
    shape: Shape,
) -> Result<Body<F>, NoMemory>
    requires there { seat < boxes.old.ledger.seats }
    requires mine { turn_of boxes.old.turns name ≡ boxes.old.number }
    requires free { is_full (box_at boxes.old.posts name).mail ≡ false }
    requires stands { BoxesStand F.task_of F.course_of F.asked K.of boxes.old }
    requires may { (set : Setting) → K.of set → MayPut F.task_of F.course_of F.asked set name body tree shape }
    ensures others { KeepsOthers seat (ledger_cells boxes.old.ledger) (ledger_cells boxes.new.ledger) }
    ensures acts { IfOk result (λ b. Acts F.task_of F.course_of F.asked K.of seat name boxes.old boxes.new (items_of (trace_of body.history)) (items_of (trace_of b.history))) }
    ensures body { IfOk result (λ b. (set : Setting) → K.of set → BodyStands F.task_of F.course_of F.holds F.asked set b) }
{
    let mut body = body;
    let Ok(stamp) = next_stamp(body.clock, boxes.posts.clock(name)) else {
        return Err(NoMemory);
    };
    let Ok(()) = boxes.posts.reserve(name) else {
        return Err(NoMemory);
    };
    let number = boxes.posts.put(name, stamp, tree, &shape);
    let mark = Mark {
        stamp,
        full: None,
        did: Did::Put(name, number, Snapshot::of(&shape)),
    };
    let Ok(()) = note(boxes, seat, &mut body, mark, Act::Put(name, number, shape)) else {
        return Err(NoMemory);
    };
    body.pending = Some(Answer::Sent(number));
    Ok(body)
}

/// The task takes the first message of a mailbox that isn't empty, and has it for its answer.
pub fn take_out<F: Fibers, K: Run>(
    boxes: &mut Boxes<F>,
    seat: usize,
    name: BoxName,
    body: Body<F>,
) -> Result<Body<F>, NoMemory>
    requires there { seat < boxes.old.ledger.seats }
    requires mine { turn_of boxes.old.turns name ≡ boxes.old.number }
    requires message { (length (box_at boxes.old.posts name).mail.queue == 0) ≡ false }
    requires stands { BoxesStand F.task_of F.course_of F.asked K.of boxes.old }
    requires may { (set : Setting) → K.of set → MayTake F.task_of F.course_of F.asked set name body }
    ensures others { KeepsOthers seat (ledger_cells boxes.old.ledger) (ledger_cells boxes.new.ledger) }
    ensures acts { IfOk result (λ b. Acts F.task_of F.course_of F.asked K.of seat name boxes.old boxes.new (items_of (trace_of body.history)) (items_of (trace_of b.history))) }
    ensures body { IfOk result (λ b. (set : Setting) → K.of set → BodyStands F.task_of F.course_of F.holds F.asked set b) }
{
    let mut body = body;
    let Ok(stamp) = next_stamp(body.clock, boxes.posts.clock(name)) else {
        return Err(NoMemory);
    };
    match boxes.posts.take(name, stamp) {
        Some(message) => {
            let Message {
                number,
                tree,
                shape,
            } = message;
            let mark = Mark {
                stamp,
                full: None,
                did: Did::Take(name, number, shape),
            };
            let Ok(()) = note(boxes, seat, &mut body, mark, Act::Take(name, number)) else {
                return Err(NoMemory);
            };
            body.pending = Some(Answer::Message(tree, number));
            Ok(body)
        }
        None => unreachable!(),
    }
}

/// The task finds a mailbox empty, and has that for its answer.
pub fn find_empty<F: Fibers, K: Run>(
    boxes: &mut Boxes<F>,
    seat: usize,
    name: BoxName,
    body: Body<F>,
) -> Result<Body<F>, NoMemory>
    requires there { seat < boxes.old.ledger.seats }
    requires mine { turn_of boxes.old.turns name ≡ boxes.old.number }
    requires empty { (length (box_at boxes.old.posts name).mail.queue == 0) ≡ true }
    requires stands { BoxesStand F.task_of F.course_of F.asked K.of boxes.old }
    requires may { (set : Setting) → K.of set → BodyAsks F.task_of F.course_of F.asked set body (ToProbe name) }
    ensures others { KeepsOthers seat (ledger_cells boxes.old.ledger) (ledger_cells boxes.new.ledger) }
    ensures acts { IfOk result (λ b. Acts F.task_of F.course_of F.asked K.of seat name boxes.old boxes.new (items_of (trace_of body.history)) (items_of (trace_of b.history))) }
    ensures body { IfOk result (λ b. (set : Setting) → K.of set → BodyStands F.task_of F.course_of F.holds F.asked set b) }
{
    let mut body = body;
    let Ok(stamp) = next_stamp(body.clock, boxes.posts.clock(name)) else {
        return Err(NoMemory);
    };
    let Ok(()) = boxes.posts.reserve(name) else {
        return Err(NoMemory);
    };
    boxes.posts.mark(name, stamp);
    let mark = Mark {
        stamp,
        full: None,
        did: Did::Empty(name),
    };
    let Ok(()) = note(boxes, seat, &mut body, mark, Act::Empty(name)) else {
        return Err(NoMemory);
    };
    body.pending = Some(Answer::Nothing);
    Ok(body)
}

/// The task bounds a mailbox, and has that for its answer.
pub fn bound<F: Fibers, K: Run>(
    boxes: &mut Boxes<F>,
    seat: usize,
    name: BoxName,
    body: Body<F>,
    most: u32,
) -> Result<Body<F>, NoMemory>
    requires there { seat < boxes.old.ledger.seats }
    requires mine { turn_of boxes.old.turns name ≡ boxes.old.number }
    requires stands { BoxesStand F.task_of F.course_of F.asked K.of boxes.old }
    requires may { (set : Setting) → K.of set → BodyAsks F.task_of F.course_of F.asked set body (ToBound name most) }
    ensures others { KeepsOthers seat (ledger_cells boxes.old.ledger) (ledger_cells boxes.new.ledger) }
    ensures acts { IfOk result (λ b. Acts F.task_of F.course_of F.asked K.of seat name boxes.old boxes.new (items_of (trace_of body.history)) (items_of (trace_of b.history))) }
    ensures body { IfOk result (λ b. (set : Setting) → K.of set → BodyStands F.task_of F.course_of F.holds F.asked set b) }
{
    let mut body = body;
    let Ok(stamp) = next_stamp(body.clock, boxes.posts.clock(name)) else {
        return Err(NoMemory);
    };
    let Ok(()) = boxes.posts.reserve(name) else {
        return Err(NoMemory);
    };
    boxes.posts.bound(name, stamp, most);
    let mark = Mark {
        stamp,
        full: None,
        did: Did::Bound(name, most),
    };
    let Ok(()) = note(boxes, seat, &mut body, mark, Act::Bound(name, most)) else {
        return Err(NoMemory);
    };
    body.pending = Some(Answer::Done);
    Ok(body)
}

/// The task ends, since it puts into a mailbox that is full.
pub fn end_full<F: Fibers, K: Run>(
    boxes: &mut Boxes<F>,
    seat: usize,
    name: BoxName,
    body: Body<F>,
    shape: Shape,
) -> Result<Body<F>, NoMemory>
    requires there { seat < boxes.old.ledger.seats }
    requires mine { turn_of boxes.old.turns name ≡ boxes.old.number }
    requires full { is_full (box_at boxes.old.posts name).mail ≡ true }
    requires stands { BoxesStand F.task_of F.course_of F.asked K.of boxes.old }
    requires may { (set : Setting) → K.of set → BodyAsks F.task_of F.course_of F.asked set body (ToPut name shape) }
    ensures others { KeepsOthers seat (ledger_cells boxes.old.ledger) (ledger_cells boxes.new.ledger) }
    ensures acts { IfOk result (λ b. Acts F.task_of F.course_of F.asked K.of seat name boxes.old boxes.new (items_of (trace_of body.history)) (items_of (trace_of b.history))) }
    ensures rest { OnOk result (AllWait (box_at boxes.old.posts) boxes.old.parked.items → AllWait (box_at boxes.new.posts) boxes.new.parked.items) }
    ensures trace { IfOk result (λ b. (set : Setting) → K.of set → IsTrace set (trace_of b.history)) }
    ensures over { IfOk result (λ b. (set : Setting) → K.of set → has_ended (trace_course (trace_of b.history)) ≡ true) }
{
    drop(shape);
    let mut body = body;
    let Ok(stamp) = next_stamp(body.clock, boxes.posts.clock(name)) else {
        return Err(NoMemory);
    };
    let Ok(()) = boxes.posts.reserve(name) else {
        return Err(NoMemory);
    };
    boxes.posts.mark(name, stamp);
    let mark = Mark {
        stamp,
        full: Some(name),
        did: Did::End(EndCause::Full),
    };
    let Ok(()) = note(boxes, seat, &mut body, mark, Act::End(EndCause::Full)) else {
        return Err(NoMemory);
    };
    Ok(body)
}
