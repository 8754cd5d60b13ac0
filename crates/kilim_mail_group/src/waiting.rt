//! Who waits at a mailbox, and is served.

ghost use Rattle.std.specs.Prelude.{◌≡◌, ◌<◌, ◌==◌, ℕ, true, false, [], None, OnOk, IfOk, IfSome, IfNone, length};
ghost use Rattle.std.specs.List.{AllByRecursion};
ghost use Rattle.kilim_run_model.specs.State.{Setting, is_full};
ghost use Rattle.kilim_run_turn.specs.Views.{cell_at};
ghost use Rattle.kilim_run_turn.specs.Turns.{KeepsOthers};
ghost use Rattle.kilim_run_board.specs.Board.{box_of};
ghost use Rattle.kilim_run_board.specs.waiting.Parked.{woken};
ghost use Rattle.kilim_run_model.specs.declared.waits.Waits.TheVariants as wait;
ghost use Rattle.kilim_mail_ledger.specs.Closing.{HasToWait};
ghost use Rattle.kilim_mail_ledger.specs.Ledger.{items_of};
ghost use Rattle.kilim_mail_ledger.specs.Mailboxes.{turn_of};
ghost use Rattle.kilim_mail_notes.specs.Histories.{trace_of};
ghost use Rattle.kilim_mail_notes.specs.Notes.{ledger_cells, Accounts};
ghost use Rattle.kilim_mail_ready.specs.Ready.{BodyStands};
ghost use Rattle.kilim_mail_posts.specs.Posts.{box_at};
ghost use Rattle.kilim_mail_group.specs.Group.{BoxesStand, GroupStands, SleeperAsks, OthersWait, AllWait, bodies_items};
ghost use Rattle.kilim_mail_group.specs.Steps.{Acts, Wakes, IsSame, ServedFor, ServedOf, ServedAt, MaybeStands};

use crate::boxes::{Boxes, Sleeper};
use crate::steps::{put_in, take_out};
use kilim_mail_ready::Body;
use kilim_program::BoxName;
use kilim_run_board::Waiter;
use kilim_run_board::fibers::Fibers;
use kilim_run_model::Waits;
use kilim_run_workers::Run;
use kilim_units::{NoMemory, no_room};

// The first task that waits for this goes, into the hands of that seat.
fn wake_up<F: Drop>(boxes: &mut Boxes<F>, seat: usize, waits: Waits) -> Option<Waiter<Sleeper<F>>>
    requires there { seat < boxes.old.ledger.seats }
    requires many { boxes.old.many ≡ length boxes.old.parked.items }
    ensures others { KeepsOthers seat (ledger_cells boxes.old.ledger) (ledger_cells boxes.new.ledger) }
    ensures some { IfSome result (λ w. Wakes seat boxes.old boxes.new waits w) }
    ensures none { IfNone result (woken waits boxes.old.parked.items ≡ None) }
    ensures same { IfNone result (IsSame boxes.old boxes.new) }
{
    match boxes.parked.wake(waits) {
        Some(waiter) => {
            boxes.many -= 1;
            boxes.ledger.went(seat, &waiter.fiber.body.history);
            Some(waiter)
        }
        None => None,
    }
}

// The first task that waits to take takes the first message of a mailbox that isn't empty.
fn hand_over<F: Fibers, K: Run>(
    boxes: &mut Boxes<F>,
    seat: usize,
    name: BoxName,
) -> Result<Option<Body<F>>, NoMemory>
    requires there { seat < boxes.old.ledger.seats }
    requires mine { turn_of boxes.old.turns name ≡ boxes.old.number }
    requires message { (length (box_at boxes.old.posts name).mail.queue == 0) ≡ false }
    requires stands { BoxesStand F.task_of F.course_of F.asked K.of boxes.old }
    ensures others { KeepsOthers seat (ledger_cells boxes.old.ledger) (ledger_cells boxes.new.ledger) }
    ensures served { IfOk result (λ o. ServedFor F.task_of F.course_of F.asked K.of seat name (wait.Take name) boxes.old boxes.new o) }
    ensures body { IfOk result (λ o. (set : Setting) → K.of set → MaybeStands F.task_of F.course_of F.holds F.asked set o) }
{
    match wake_up(boxes, seat, Waits::Take(name)) {
        Some(waiter) => {
            let Sleeper { body, message } = waiter.fiber;
            drop(message);
            match take_out::<F, K>(boxes, seat, name, body) {
                Ok(body) => Ok(Some(body)),
                Err(fault) => Err(fault),
            }
        }
        None => Ok(None),
    }
}

// The first task that waits to put puts its message into a mailbox that isn't full.
fn make_way<F: Fibers, K: Run>(
    boxes: &mut Boxes<F>,
    seat: usize,
    name: BoxName,
) -> Result<Option<Body<F>>, NoMemory>
    requires some { (set : Setting) × K.of set }
    requires there { seat < boxes.old.ledger.seats }
    requires mine { turn_of boxes.old.turns name ≡ boxes.old.number }
    requires free { is_full (box_at boxes.old.posts name).mail ≡ false }
    requires stands { BoxesStand F.task_of F.course_of F.asked K.of boxes.old }
    ensures others { KeepsOthers seat (ledger_cells boxes.old.ledger) (ledger_cells boxes.new.ledger) }
    ensures served { IfOk result (λ o. ServedFor F.task_of F.course_of F.asked K.of seat name (wait.Put name) boxes.old boxes.new o) }
    ensures body { IfOk result (λ o. (set : Setting) → K.of set → MaybeStands F.task_of F.course_of F.holds F.asked set o) }
{
    match wake_up(boxes, seat, Waits::Put(name)) {
        Some(waiter) => {
            let Sleeper { body, message } = waiter.fiber;
            match message {
                Some((tree, shape)) => {
                    match put_in::<F, K>(boxes, seat, name, body, tree, shape) {
                        Ok(body) => Ok(Some(body)),
                        Err(fault) => Err(fault),
                    }
                }
                None => unreachable!(),
            }
        }
        None => Ok(None),
    }
}

// The first task that waits to take does so where a message is there, or nobody.
fn serve_taker<F: Fibers, K: Run>(
    boxes: &mut Boxes<F>,
    seat: usize,
    name: BoxName,
) -> Result<Option<Body<F>>, NoMemory>
    requires there { seat < boxes.old.ledger.seats }
    requires mine { turn_of boxes.old.turns name ≡ boxes.old.number }
    requires stands { BoxesStand F.task_of F.course_of F.asked K.of boxes.old }
    ensures others { KeepsOthers seat (ledger_cells boxes.old.ledger) (ledger_cells boxes.new.ledger) }
    ensures served { IfOk result (λ o. ServedOf F.task_of F.course_of F.asked K.of seat name (wait.Take name) boxes.old boxes.new o) }
    ensures body { IfOk result (λ o. (set : Setting) → K.of set → MaybeStands F.task_of F.course_of F.holds F.asked set o) }
{
    if boxes.posts.is_empty(name) {
        Ok(None)
    } else {
        hand_over::<F, K>(boxes, seat, name)
    }
}

// The first task that waits to put does so where there is room, or nobody.
fn serve_putter<F: Fibers, K: Run>(
    boxes: &mut Boxes<F>,
    seat: usize,
    name: BoxName,
) -> Result<Option<Body<F>>, NoMemory>
    requires some { (set : Setting) × K.of set }
    requires there { seat < boxes.old.ledger.seats }
    requires mine { turn_of boxes.old.turns name ≡ boxes.old.number }
    requires stands { BoxesStand F.task_of F.course_of F.asked K.of boxes.old }
    ensures others { KeepsOthers seat (ledger_cells boxes.old.ledger) (ledger_cells boxes.new.ledger) }
    ensures served { IfOk result (λ o. ServedOf F.task_of F.course_of F.asked K.of seat name (wait.Put name) boxes.old boxes.new o) }
    ensures body { IfOk result (λ o. (set : Setting) → K.of set → MaybeStands F.task_of F.course_of F.holds F.asked set o) }
{
    if boxes.posts.is_full(name) {
        Ok(None)
    } else {
        make_way::<F, K>(boxes, seat, name)
    }
}

// One task that waits at a mailbox, and needn't, does what it waits for.
fn serve_one<F: Fibers, K: Run>(
    boxes: &mut Boxes<F>,
    seat: usize,
    name: BoxName,
) -> Result<Option<Body<F>>, NoMemory>
    requires some { (set : Setting) × K.of set }
    requires there { seat < boxes.old.ledger.seats }
    requires mine { turn_of boxes.old.turns name ≡ boxes.old.number }
    requires stands { BoxesStand F.task_of F.course_of F.asked K.of boxes.old }
    ensures others { KeepsOthers seat (ledger_cells boxes.old.ledger) (ledger_cells boxes.new.ledger) }
    ensures served { IfOk result (λ o. ServedAt F.task_of F.course_of F.asked K.of seat name boxes.old boxes.new o) }
    ensures body { IfOk result (λ o. (set : Setting) → K.of set → MaybeStands F.task_of F.course_of F.holds F.asked set o) }
{
    match serve_taker::<F, K>(boxes, seat, name) {
        Ok(Some(body)) => Ok(Some(body)),
        Ok(None) => serve_putter::<F, K>(boxes, seat, name),
        Err(fault) => Err(fault),
    }
}

/// All tasks that wait at a mailbox, and needn't, do what they wait for, in order: those that go on then.
pub fn serve<F: Fibers, K: Run>(
    boxes: &mut Boxes<F>,
    seat: usize,
    name: BoxName,
) -> Result<Vec<Body<F>>, NoMemory>
    requires some { (set : Setting) × K.of set }
    requires there { seat < boxes.old.ledger.seats }
    requires mine { turn_of boxes.old.turns name ≡ boxes.old.number }
    requires stands { BoxesStand F.task_of F.course_of F.asked K.of boxes.old }
    ensures others { KeepsOthers seat (ledger_cells boxes.old.ledger) (ledger_cells boxes.new.ledger) }
    ensures acts { IfOk result (λ bs. Acts F.task_of F.course_of F.asked K.of seat name boxes.old boxes.new [] (bodies_items bs.items)) }
    ensures bodies { IfOk result (λ bs. (set : Setting) → K.of set → AllByRecursion (BodyStands F.task_of F.course_of F.holds F.asked set) bs.items) }
    ensures rest { OnOk result (OthersWait name (box_at boxes.old.posts) boxes.old.parked.items → AllWait (box_at boxes.new.posts) boxes.new.parked.items) }
{
    let mut woken = Vec::new(boxes.posts.alloc);
    loop {
        match serve_one::<F, K>(boxes, seat, name) {
            Ok(Some(body)) => {
                let Ok(()) = woken.push(body) else {
                    return Err(NoMemory);
                };
            }
            Ok(None) => return Ok(woken),
            Err(fault) => return Err(fault),
        }
    }
}

/// A task waits, behind the others that wait for the same.
pub fn wait<F: Fibers, K: Run>(
    boxes: &mut Boxes<F>,
    seat: usize,
    waits: Waits,
    sleeper: Sleeper<F>,
) -> Result<(), NoMemory>
    requires there { seat < boxes.old.ledger.seats }
    requires mine { turn_of boxes.old.turns (box_of waits) ≡ boxes.old.number }
    requires stands { GroupStands F.task_of F.course_of F.asked K.of boxes.old }
    requires asks { (set : Setting) → K.of set → SleeperAsks F.task_of F.course_of F.asked set waits sleeper }
    requires waits { HasToWait waits (box_at boxes.old.posts (box_of waits)).mail }
    ensures others { KeepsOthers seat (ledger_cells boxes.old.ledger) (ledger_cells boxes.new.ledger) }
    ensures stands { OnOk result (GroupStands F.task_of F.course_of F.asked K.of boxes.new) }
    ensures accounts { OnOk result (Accounts (cell_at (ledger_cells boxes.old.ledger) seat) (cell_at (ledger_cells boxes.new.ledger) seat) (items_of (trace_of sleeper.body.history)) []) }
{
    let Some(more) = boxes.many.checked_add(1) else {
        // room: 2^64 tasks that wait
        return Err(no_room());
    };
    let Ok(()) = boxes.parked.make_places(waits, 1) else {
        return Err(NoMemory);
    };
    let Ok(()) = boxes.parked.reserve(more) else {
        return Err(NoMemory);
    };
    boxes.ledger.came(seat, &sleeper.body.history);
    boxes.parked.park(waits, sleeper);
    boxes.many = more;
    Ok(())
}
