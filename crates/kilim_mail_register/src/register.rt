//! The register of starts: how many tasks there are, and the entries of their starts.

ghost use Rattle.std.specs.Prelude.{◌≡◌, ◌<◌, ◌≤◌, ◌+◌, ℕ, List, [], ◌∷◌, ◌++◌, None, OnOk, IfOk, length};
ghost use Rattle.std.specs.Vec.{vec_capacity};
ghost use Rattle.kilim_run_state.specs.declared.value.Token.{Token};
ghost use Rattle.kilim_run_model.specs.Course.{plain};
ghost use Rattle.kilim_run_model.specs.Turn.{task_limit};
ghost use Rattle.kilim_run_turn.specs.Views.{cell_at};
ghost use Rattle.kilim_run_turn.specs.Turns.{KeepsOthers};
ghost use Rattle.kilim_mail_stamps.specs.Merging.{weigh};
ghost use Rattle.kilim_mail_ledger.specs.declared.items.Item.{Item};
ghost use Rattle.kilim_mail_ledger.specs.Ledger.{items_of};
ghost use Rattle.kilim_mail_ledger.specs.Goings.{longer};
ghost use Rattle.kilim_mail_notes.specs.Histories.{deed_of, trace_of};
ghost use Rattle.kilim_mail_notes.specs.Notes.{ledger_cells, made_items, Accounts, Balances};
ghost use Rattle.kilim_mail_register.specs.Register.{RegisterStands, register_cells, born_of, IsStarted};

use crate::stamp::next_stamp;
use kilim_mail_notes::{Did, History, Ledger, Mark};
use kilim_mail_stamps::Stamped;
use kilim_run_journal::{Act, Entry};
use kilim_run_state::{EndCause, Shape};
use kilim_run_turn::Cells;
use kilim_units::NoMemory;
use std::alloc::Global;
use std::marker::Model;
use std::snapshot::Snapshot;

/// The most tasks.
pub const TASK_LIMIT: u32 = 10000;

/// What the register keeps.
#[derive(Drop)]
pub struct Starts {
    /// What each seat did here.
    pub ledger: Ledger,
    /// How many tasks there are.
    pub tasks: u32,
    /// The last stamp.
    pub clock: u64,
    /// The entries of the starts, and of ends for want of tasks.
    pub log: Vec<Stamped>,
}

/// The register: what it keeps, and its entries are a run of it.
#[derive(Drop)]
pub struct Register {
    starts: Starts,
}

impl Model for Register {
    ghost use Rattle.kilim_mail_register.specs.declared.register.Starts.{Starts};
    ghost use Rattle.kilim_mail_register.specs.contracts.register.Starts as kept;
    ghost use Rattle.kilim_mail_register.specs.Register.{RegisterStands};

    ghost Value = { Starts };

    ghost coded = { kept.the_row.coded };

    ghost view = { λ r. r.starts };

    ghost invariant = { λ r. RegisterStands r.starts };
}

impl Cells for Register {
    ghost cells = { λ r. register_cells r };

    fn seats(&self) -> usize {
        self.starts.ledger.seats
    }
}

/// What a start came to.
#[derive(Drop)]
pub enum Started {
    /// A task was started: its number, the stamp, and its history.
    Task(u32, u64, History),
    /// There are 10,000 tasks: the task that was to start one has ended, with that stamp.
    OutOfTasks(u64),
}

// One entry more, for which there is room.
fn add_entry(
    starts: &mut Starts,
    seat: usize,
    history: &mut History,
    stamp: u64,
    did: Did,
    act: Act,
)
    requires there { seat < starts.old.ledger.seats }
    requires room { length starts.old.log.items < vec_capacity starts.old.log }
    requires same { deed_of did ≡ plain act }
    ensures log { starts.new.log.items ≡ starts.old.log.items ++ record { stamp = stamp; full = None; entry = record { task = history.old.task; act = act } } ∷ [] }
    ensures tasks { starts.new.tasks ≡ starts.old.tasks }
    ensures clock { starts.new.clock ≡ stamp }
    ensures history { trace_of history.new ≡ longer (trace_of history.old) (record { stamp = stamp; full = None; deed = plain act }) }
    ensures others { KeepsOthers seat (ledger_cells starts.old.ledger) (ledger_cells starts.new.ledger) }
    ensures accounts { (before after : List Item) → ((h : Item → ℕ) → weigh h after ≡ weigh h before + weigh h (made_items history.old.task (record { stamp = stamp; full = None; deed = plain act }))) → Accounts (cell_at (ledger_cells starts.old.ledger) seat) (cell_at (ledger_cells starts.new.ledger) seat) before after }
    ensures balances { (held made made' : List Item) → Balances starts.old.ledger held made → ((h : Item → ℕ) → weigh h made' ≡ weigh h made + weigh h (made_items history.old.task (record { stamp = stamp; full = None; deed = plain act }))) → Balances starts.new.ledger held made' }
{
    let task = history.task;
    let mark = Mark {
        stamp,
        full: None,
        did,
    };
    starts.ledger.made(seat, task, &mark);
    history.note(&mark);
    starts.clock = stamp;
    starts.log.push_reserved(Stamped {
        stamp,
        full: None,
        entry: Entry { task, act },
    });
}

// Makes room for one entry more.
fn reserve(starts: &mut Starts) -> Result<(), NoMemory>
    ensures room { OnOk result (length starts.new.log.items < vec_capacity starts.new.log) }
    ensures ledger { starts.new.ledger ≡ starts.old.ledger }
    ensures tasks { starts.new.tasks ≡ starts.old.tasks }
    ensures clock { starts.new.clock ≡ starts.old.clock }
    ensures stands { RegisterStands starts.old → RegisterStands starts.new }
{
    let Ok(()) = starts.log.reserve(1) else {
        return Err(NoMemory);
    };
    Ok(())
}

// A task is started: there are fewer than 10,000.
fn begin(
    starts: &mut Starts,
    seat: usize,
    history: &mut History,
    stamp: u64,
    shape: Shape,
) -> Started
    requires there { seat < starts.old.ledger.seats }
    requires room { length starts.old.log.items < vec_capacity starts.old.log }
    requires later { starts.old.clock < stamp }
    requires few { starts.old.tasks < task_limit }
    ensures others { KeepsOthers seat (ledger_cells starts.old.ledger) (ledger_cells starts.new.ledger) }
    ensures accounts { Accounts (cell_at (ledger_cells starts.old.ledger) seat) (cell_at (ledger_cells starts.new.ledger) seat) (items_of (trace_of history.old)) (items_of (trace_of history.new) ++ born_of result) }
    ensures started { (clock : ℕ) → clock < stamp → IsStarted (trace_of history.old) clock shape (trace_of history.new) result }
    ensures stands { RegisterStands starts.old → RegisterStands starts.new }
{
    let number = starts.tasks;
    let (born, shape) = History::begun(number, stamp, shape);
    let did = Did::Start(number, Snapshot::of(&shape));
    add_entry(starts, seat, history, stamp, did, Act::Start(number, shape));
    starts.tasks = number + 1;
    Started::Task(number, stamp, born)
}

// A task that was to start another one ends: there are 10,000.
fn refuse(starts: &mut Starts, seat: usize, history: &mut History, stamp: u64) -> Started
    requires there { seat < starts.old.ledger.seats }
    requires room { length starts.old.log.items < vec_capacity starts.old.log }
    requires later { starts.old.clock < stamp }
    requires many { starts.old.tasks ≡ task_limit }
    ensures others { KeepsOthers seat (ledger_cells starts.old.ledger) (ledger_cells starts.new.ledger) }
    ensures accounts { Accounts (cell_at (ledger_cells starts.old.ledger) seat) (cell_at (ledger_cells starts.new.ledger) seat) (items_of (trace_of history.old)) (items_of (trace_of history.new) ++ born_of result) }
    ensures started { (clock : ℕ) (shape : List Token) → clock < stamp → IsStarted (trace_of history.old) clock shape (trace_of history.new) result }
    ensures stands { RegisterStands starts.old → RegisterStands starts.new }
{
    add_entry(
        starts,
        seat,
        history,
        stamp,
        Did::End(EndCause::Tasks),
        Act::End(EndCause::Tasks),
    );
    Started::OutOfTasks(stamp)
}

impl Register {
    /// One task, and nothing was started.
    pub fn new(alloc: Global, seats: usize) -> Register
        ensures seats { length (register_cells result) ≡ seats }
        ensures tasks { result.tasks ≡ 1 }
        ensures none { result.log.items ≡ [] }
    {
        Register {
            starts: Starts {
                ledger: Ledger::new(seats),
                tasks: 1,
                clock: 0,
                log: Vec::new(alloc),
            },
        }
    }

    /// What the register keeps, once its turn is closed.
    pub fn into_starts(self) -> Starts
        ensures same { result ≡ self }
        ensures stands { RegisterStands result }
    {
        let Register { starts } = self;
        starts
    }

    /// A task whose clock is told starts another one, with an object of that shape; or it ends, where 10,000 tasks are there.
    ///
    /// The error is want of memory.
    pub fn start(
        &mut self,
        seat: usize,
        history: &mut History,
        clock: u64,
        shape: Shape,
    ) -> Result<Started, NoMemory>
        requires there { seat < length (register_cells self.old) }
        ensures others { KeepsOthers seat (register_cells self.old) (register_cells self.new) }
        ensures accounts { IfOk result (λ s. Accounts (cell_at (register_cells self.old) seat) (cell_at (register_cells self.new) seat) (items_of (trace_of history.old)) (items_of (trace_of history.new) ++ born_of s)) }
        ensures started { IfOk result (λ s. IsStarted (trace_of history.old) clock shape (trace_of history.new) s) }
    {
        let Ok(()) = reserve(&mut self.starts) else {
            drop(shape);
            return Err(NoMemory);
        };
        let Ok(stamp) = next_stamp(clock, self.starts.clock) else {
            drop(shape);
            return Err(NoMemory);
        };
        if self.starts.tasks < TASK_LIMIT {
            Ok(begin(&mut self.starts, seat, history, stamp, shape))
        } else {
            drop(shape);
            Ok(refuse(&mut self.starts, seat, history, stamp))
        }
    }
}
