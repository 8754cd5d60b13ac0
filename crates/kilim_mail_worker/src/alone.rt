//! What a task in hand does without a turn: it prints, or ends by itself.

ghost use Rattle.std.specs.Prelude.{◌≡◌, [], OnOk, IfOk};
ghost use Rattle.kilim_run_model.specs.State.{Setting};
ghost use Rattle.kilim_run_model.specs.Course.{plain};
ghost use Rattle.kilim_run_board.specs.fibers.Wishes.{ToPrint};
ghost use Rattle.kilim_mail_ledger.specs.Ledger.{items_of};
ghost use Rattle.kilim_mail_notes.specs.Histories.{deed_of, trace_of};
ghost use Rattle.kilim_mail_ready.specs.Ready.{BodyStands};
ghost use Rattle.kilim_mail_group.specs.Group.{BodyAsks};
ghost use Rattle.kilim_mail_worker.specs.Own.{NotesAlone, MadeAlone, BodyEnds};

use crate::own::Own;
use kilim_mail_notes::{Did, Mark};
use kilim_mail_ready::Body;
use kilim_mail_register::next_stamp;
use kilim_mail_stamps::Stamped;
use kilim_run_board::fibers::{Answer, Fibers};
use kilim_run_journal::{Act, Entry};
use kilim_run_state::{EndCause, Shape};
use kilim_run_workers::Run;
use kilim_units::NoMemory;
use std::snapshot::Snapshot;

// An entry of a task in hand that needs no turn.
fn note<F: Drop>(own: &mut Own, body: &mut Body<F>, did: Did, act: Act) -> Result<(), NoMemory>
    requires deed { deed_of did ≡ plain act }
    ensures noted { OnOk result (NotesAlone own.old own.new body.old body.new act) }
{
    let Ok(()) = own.log.reserve(1) else {
        drop(act);
        return Err(NoMemory);
    };
    let Ok(stamp) = next_stamp(body.clock, body.clock) else {
        drop(act);
        return Err(NoMemory);
    };
    let task = body.history.task;
    let mark = Mark {
        stamp,
        full: None,
        did,
    };
    body.history.note(&mark);
    body.clock = stamp;
    own.log.push_reserved(Stamped {
        stamp,
        full: None,
        entry: Entry { task, act },
    });
    Ok(())
}

/// A task in hand prints, and has that for its answer.
pub fn print<F: Fibers, K: Run>(
    own: &mut Own,
    body: Body<F>,
    shape: Shape,
) -> Result<Body<F>, NoMemory>
    requires asks { (set : Setting) → K.of set → BodyAsks F.task_of F.course_of F.asked set body (ToPrint shape) }
    ensures made { IfOk result (λ b. MadeAlone K.of own.old own.new (items_of (trace_of body.history)) (items_of (trace_of b.history))) }
    ensures body { IfOk result (λ b. (set : Setting) → K.of set → BodyStands F.task_of F.course_of F.holds F.asked set b) }
{
    let mut body = body;
    let did = Did::Print(Snapshot::of(&shape));
    let Ok(()) = note(own, &mut body, did, Act::Print(shape)) else {
        return Err(NoMemory);
    };
    body.pending = Some(Answer::Done);
    Ok(body)
}

/// A task in hand ends by itself.
pub fn end<F: Fibers, K: Run>(own: &mut Own, body: Body<F>, cause: EndCause) -> Result<(), NoMemory>
    requires some { (set : Setting) × K.of set }
    requires ends { (set : Setting) → K.of set → BodyEnds set body cause }
    ensures made { OnOk result (MadeAlone K.of own.old own.new (items_of (trace_of body.history)) []) }
{
    let mut body = body;
    let Ok(()) = note(own, &mut body, Did::End(cause), Act::End(cause)) else {
        return Err(NoMemory);
    };
    own.bury(&body.history);
    Ok(())
}
