//! The value that lies under a mailbox turn.

ghost use Rattle.std.specs.Prelude.{◌≡◌, ◌<◌, ℕ, false, IfOk, length};
ghost use Rattle.kilim_run_model.specs.State.{Setting};
ghost use Rattle.kilim_run_turn.specs.Views.{cell_at};
ghost use Rattle.kilim_run_turn.specs.Turns.{KeepsOthers};
ghost use Rattle.kilim_mail_ledger.specs.Ledger.{items_of};
ghost use Rattle.kilim_mail_ledger.specs.Mailboxes.{turn_of};
ghost use Rattle.kilim_mail_notes.specs.Histories.{trace_of};
ghost use Rattle.kilim_mail_notes.specs.Notes.{AllNamed, IsNamed, Accounts};
ghost use Rattle.kilim_mail_group.specs.Group.{GroupStands, AskMeets, CameStands, came_items, group_cells};

use crate::acts::act;
use crate::boxes::{Ask, Boxes, Came};
use kilim_mail_notes::Ledger;
use kilim_mail_posts::Posts;
use kilim_mail_ready::Body;
use kilim_program::BoxName;
use kilim_run_board::Parked;
use kilim_run_board::fibers::Fibers;
use kilim_run_turn::Cells;
use kilim_run_workers::Run;
use kilim_units::NoMemory;
use std::alloc::Global;
use std::marker::{Model, PhantomData};

/// The mailboxes of one turn, of the run that `K` names, and the tasks that wait at them: each asks for what it waits for in every setting of
/// the run. Where memory was wanting in the midst of an act nothing is known of them.
#[derive(Drop)]
pub struct Group<F: Fibers, K: Run> {
    boxes: Boxes<F>,
    of: PhantomData<K>,
}

impl<F: Fibers, K: Run> Model for Group<F, K> {
    ghost use Rattle.std.specs.Prelude.{◌≡◌, false};
    ghost use Rattle.kilim_mail_group.specs.declared.boxes.Boxes.{Boxes};
    ghost use Rattle.kilim_mail_group.specs.Group.{GroupStands};
    ghost use Rattle.kilim_mail_notes.specs.contracts.notes.Notes as notes;
    ghost use Rattle.kilim_mail_notes.specs.contracts.histories.Past as past;
    ghost use Rattle.std.specs.Coded.{codes};
    ghost use Rattle.std_collections.specs.Layout.BTreeMap.{btree_map_code};

    ghost Value = { Boxes F };

    ghost coded = { Prim.hlevel (codes, btree_map_code, notes.the_row.coded, past.the_row.coded, F.code) };

    ghost view = { λ g. g.boxes };

    ghost invariant = { λ g. g.boxes.failed ≡ false → GroupStands F.task_of F.course_of F.asked K.of g.boxes };
}

impl<F: Fibers, K: Run> Cells for Group<F, K> {
    ghost cells = { λ g. group_cells g };

    fn seats(&self) -> usize {
        self.boxes.ledger.seats
    }
}

impl<F: Fibers, K: Run> Group<F, K> {
    /// No mailbox was named, and nobody waits. Takes no memory.
    pub fn new(alloc: Global, seats: usize, number: usize, turns: usize) -> Self
        ensures seats { length (group_cells result) ≡ seats }
        ensures named { AllNamed number turns (group_cells result) }
    {
        Group {
            boxes: Boxes {
                number,
                turns,
                ledger: Ledger::named(seats, number, turns),
                log: Vec::new(alloc),
                posts: Posts::new(alloc),
                parked: Parked::new(alloc),
                many: 0,
                failed: false,
            },
            of: PhantomData,
        }
    }

    /// What lies here, once its turn is closed.
    pub fn into_boxes(self) -> Boxes<F>
        ensures same { result ≡ self }
        ensures stands { result.failed ≡ false → GroupStands F.task_of F.course_of F.asked K.of result }
    {
        let Group { boxes, .. } = self;
        boxes
    }

    /// What a task asks of a mailbox of this turn: it goes on, has ended or waits. The error is want of memory, and all later calls answer it
    /// then.
    pub fn act(
        &mut self,
        seat: usize,
        name: BoxName,
        body: Body<F>,
        ask: Ask,
    ) -> Result<Came<F>, NoMemory>
        requires some { (set : Setting) × K.of set }
        requires there { seat < length (group_cells self.old) }
        requires mine { (turns : ℕ) × IsNamed (turn_of turns name) turns (cell_at (group_cells self.old) seat) }
        requires meets { (set : Setting) → K.of set → AskMeets F.task_of F.course_of F.asked set name body ask }
        ensures others { KeepsOthers seat (group_cells self.old) (group_cells self.new) }
        ensures accounts { IfOk result (λ c. Accounts (cell_at (group_cells self.old) seat) (cell_at (group_cells self.new) seat) (items_of (trace_of body.history)) (came_items c)) }
        ensures came { IfOk result (λ c. (set : Setting) → K.of set → CameStands F.task_of F.course_of F.holds F.asked set c) }
    {
        if self.boxes.failed {
            drop(ask);
            drop(body);
            return Err(NoMemory);
        }
        match act::<F, K>(&mut self.boxes, seat, name, body, ask) {
            Ok(came) => Ok(came),
            Err(fault) => {
                self.boxes.failed = true;
                Err(fault)
            }
        }
    }
}
