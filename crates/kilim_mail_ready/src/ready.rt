//! The tasks that are ready, and which workers have one in hand.

ghost use Rattle.std.specs.Prelude.{◌≡◌, ◌<◌, ℕ, false, true, List, [], ◌∷◌, ◌++◌, IfOk, IfSome, IfNone, OnOk, MatchOption, length};
ghost use Rattle.std.specs.VecDeque.{deque_capacity};
ghost use Rattle.kilim_run_model.specs.State.{Setting};
ghost use Rattle.kilim_run_model.specs.declared.deed.Beginning.TheVariants.{Boot};
ghost use Rattle.kilim_run_turn.specs.Views.{cell_at};
ghost use Rattle.kilim_run_turn.specs.Turns.{KeepsOthers};
ghost use Rattle.kilim_mail_ledger.specs.declared.items.Item.{Item};
ghost use Rattle.kilim_mail_ledger.specs.Ledger.{items_of};
ghost use Rattle.kilim_mail_notes.specs.Histories.{trace_of};
ghost use Rattle.kilim_mail_notes.specs.Notes.{ledger_cells, Accounts, Balances};
ghost use Rattle.kilim_mail_ready.specs.Ready.{held, BodyStands, QueueStands, TakesFirst, AddsLast, ready_cells, LentAs, LentStands};

use crate::body::Body;
use kilim_mail_notes::Ledger;
use kilim_run_board::fibers::Fibers;
use kilim_run_turn::Cells;
use kilim_run_workers::Run;
use kilim_units::NoMemory;
use std::alloc::Global;
use std::collections::VecDeque;
use std::marker::{Model, PhantomData};

/// What lies under the ready turn.
#[derive(Drop)]
pub struct Queue<F> {
    /// What each seat did here.
    pub ledger: Ledger,
    /// The tasks that are ready, the first to be lent in front.
    pub bodies: VecDeque<Body<F>>,
    /// Whether the worker of each seat has tasks in hand. No clause speaks of it: it decides when workers stop, and what a run
    /// answers doesn't rest on that.
    pub lent: Vec<bool>,
    /// Whether the run was stopped.
    pub stopped: bool,
}

/// The tasks that are ready, of the run that `K` names: each stands for its history in every setting of the run.
#[derive(Drop)]
pub struct Ready<F: Fibers, K: Run> {
    queue: Queue<F>,
    of: PhantomData<K>,
}

impl<F: Fibers, K: Run> Model for Ready<F, K> {
    ghost use Rattle.kilim_mail_ready.specs.declared.ready.Queue.{Queue};
    ghost use Rattle.kilim_mail_ready.specs.Ready.{QueueStands};
    ghost use Rattle.kilim_mail_notes.specs.contracts.notes.Notes as notes;
    ghost use Rattle.kilim_mail_notes.specs.contracts.histories.Past as past;
    ghost use Rattle.std.specs.Coded.{codes};

    ghost Value = { Queue F };

    ghost coded = { Prim.hlevel (codes, notes.the_row.coded, past.the_row.coded, F.code) };

    ghost view = { λ r. r.queue };

    ghost invariant = { λ r. QueueStands F.task_of F.course_of F.holds F.asked K.of r.queue };
}

impl<F: Fibers, K: Run> Cells for Ready<F, K> {
    ghost cells = { λ r. ready_cells r };

    fn seats(&self) -> usize {
        self.queue.ledger.seats
    }
}

/// What `lend` answers.
#[derive(Drop)]
pub enum Lent<F> {
    /// A task.
    Task(Body<F>),
    /// None is ready, and a worker has one in hand.
    Idle,
    /// None is ready, and no worker has one in hand.
    Quiet,
    /// The run was stopped.
    Stopped,
}

// Whether no worker has a task in hand.
fn is_none_lent(lent: &[bool]) -> bool {
    for is_lent in lent {
        if *is_lent {
            return false;
        }
    }
    true
}

// Whether a worker has tasks in hand.
fn mark(lent: &mut Vec<bool>, seat: usize, is_lent: bool) {
    if seat < lent.len() {
        lent[seat] = is_lent;
    }
}

// The first task goes.
fn take_first<F: Drop>(queue: &mut Queue<F>, seat: usize) -> Option<Body<F>>
    requires there { seat < queue.old.ledger.seats }
    ensures some { IfSome result (λ b. TakesFirst seat queue.old queue.new b) }
    ensures ledger { IfNone result (queue.new.ledger ≡ queue.old.ledger) }
    ensures bodies { IfNone result (queue.new.bodies.items ≡ queue.old.bodies.items) }
{
    match pop_first(&mut queue.bodies) {
        Some(body) => {
            queue.ledger.went(seat, &body.history);
            Some(body)
        }
        None => None,
    }
}

// One more behind the others; there is room.
fn push_last<T: Drop>(items: &mut VecDeque<T>, item: T)
    requires { length items.old.items < deque_capacity items.old }
    ensures { items.new.items ≡ items.old.items ++ item ∷ [] }
{
    match items.push_back(item) {
        Ok(()) => {}
        Err(_) => unreachable!(),
    }
}

// The first leaves the others.
fn pop_first<T: Drop>(items: &mut VecDeque<T>) -> Option<T>
    ensures { MatchOption result (items.new.items ≡ items.old.items) (λ x. items.old.items ≡ x ∷ items.new.items) }
{
    items.pop_front()
}

// A task comes, behind the others.
fn add_last<F: Fibers, K: Run>(
    queue: &mut Queue<F>,
    seat: usize,
    body: Body<F>,
) -> Result<(), NoMemory>
    requires there { seat < queue.old.ledger.seats }
    ensures added { OnOk result (AddsLast seat queue.old queue.new body) }
    ensures others { KeepsOthers seat (ready_cells queue.old) (ready_cells queue.new) }
    ensures stands { QueueStands F.task_of F.course_of F.holds F.asked K.of queue.old → ((set : Setting) → K.of set → BodyStands F.task_of F.course_of F.holds F.asked set body) → QueueStands F.task_of F.course_of F.holds F.asked K.of queue.new }
{
    let Ok(()) = queue.bodies.reserve(1) else {
        drop(body);
        return Err(NoMemory);
    };
    queue.ledger.came(seat, &body.history);
    push_last(&mut queue.bodies, body);
    Ok(())
}

// The next task for a seat.
fn lend_next<F: Fibers, K: Run>(queue: &mut Queue<F>, seat: usize) -> Lent<F>
    requires there { seat < queue.old.ledger.seats }
    ensures others { KeepsOthers seat (ready_cells queue.old) (ready_cells queue.new) }
    ensures accounts { LentAs (cell_at (ready_cells queue.old) seat) (cell_at (ready_cells queue.new) seat) result }
    ensures queue { QueueStands F.task_of F.course_of F.holds F.asked K.of queue.old → QueueStands F.task_of F.course_of F.holds F.asked K.of queue.new }
    ensures stands { QueueStands F.task_of F.course_of F.holds F.asked K.of queue.old → (set : Setting) → K.of set → LentStands F.task_of F.course_of F.holds F.asked set result }
{
    mark(&mut queue.lent, seat, false);
    if queue.stopped {
        return Lent::Stopped;
    }
    match take_first(queue, seat) {
        Some(body) => {
            mark(&mut queue.lent, seat, true);
            Lent::Task(body)
        }
        None => {
            if is_none_lent(queue.lent.as_slice()) {
                Lent::Quiet
            } else {
                Lent::Idle
            }
        }
    }
}

// No worker has a task in hand.
fn none_lent(alloc: Global, seats: usize) -> Result<Vec<bool>, NoMemory> {
    let mut lent = Vec::new(alloc);
    for _ in 0..seats {
        let Ok(()) = lent.push(false) else {
            return Err(NoMemory);
        };
    }
    Ok(lent)
}

// Task 0 alone.
fn first_queue<F: Fibers, K: Run>(
    alloc: Global,
    seats: usize,
    body: Body<F>,
) -> Result<Queue<F>, NoMemory>
    requires first { trace_of body.history ≡ record { task = 0; stamp = 0; beginning = Boot; past = [] } }
    requires stands { (set : Setting) → K.of set → BodyStands F.task_of F.course_of F.holds F.asked set body }
    ensures stands { IfOk result (λ q. QueueStands F.task_of F.course_of F.holds F.asked K.of q) }
    ensures seats { IfOk result (λ q. length (ready_cells q) ≡ seats) }
{
    let ledger = Ledger::new(seats);
    let mut bodies = VecDeque::new(alloc);
    let Ok(()) = bodies.reserve(1) else {
        drop(body);
        return Err(NoMemory);
    };
    push_last(&mut bodies, body);
    let Ok(lent) = none_lent(alloc, seats) else {
        return Err(NoMemory);
    };
    Ok(Queue {
        ledger,
        bodies,
        lent,
        stopped: false,
    })
}

impl<F: Fibers, K: Run> Ready<F, K> {
    /// Task 0 is ready, which did nothing yet, and no worker has a task in hand. The error is want of memory.
    pub fn new(alloc: Global, seats: usize, body: Body<F>) -> Result<Self, NoMemory>
        requires first { trace_of body.history ≡ record { task = 0; stamp = 0; beginning = Boot; past = [] } }
        requires stands { (set : Setting) → K.of set → BodyStands F.task_of F.course_of F.holds F.asked set body }
        ensures { IfOk result (λ r. length (ready_cells r) ≡ seats) }
    {
        let Ok(queue) = first_queue::<F, K>(alloc, seats, body) else {
            return Err(NoMemory);
        };
        Ok(Ready {
            queue,
            of: PhantomData,
        })
    }

    /// What lies here, once its turn is closed.
    pub fn into_queue(self) -> Queue<F>
        ensures same { result ≡ self }
        ensures stands { QueueStands F.task_of F.course_of F.holds F.asked K.of result }
    {
        let Ready { queue, .. } = self;
        queue
    }

    /// The next task for a seat whose worker has none in hand. Takes no memory.
    pub fn lend(&mut self, seat: usize) -> Lent<F>
        requires there { seat < length (ready_cells self.old) }
        ensures others { KeepsOthers seat (ready_cells self.old) (ready_cells self.new) }
        ensures accounts { LentAs (cell_at (ready_cells self.old) seat) (cell_at (ready_cells self.new) seat) result }
        ensures stands { (set : Setting) → K.of set → LentStands F.task_of F.course_of F.holds F.asked set result }
    {
        lend_next::<F, K>(&mut self.queue, seat)
    }

    /// A task is ready, behind the others. The error is want of memory.
    pub fn line_up(&mut self, seat: usize, body: Body<F>) -> Result<(), NoMemory>
        requires there { seat < length (ready_cells self.old) }
        requires stands { (set : Setting) → K.of set → BodyStands F.task_of F.course_of F.holds F.asked set body }
        ensures others { KeepsOthers seat (ready_cells self.old) (ready_cells self.new) }
        ensures accounts { OnOk result (Accounts (cell_at (ready_cells self.old) seat) (cell_at (ready_cells self.new) seat) (items_of (trace_of body.history)) []) }
    {
        add_last::<F, K>(&mut self.queue, seat, body)
    }

    /// Stops the run: `lend` answers `Stopped` from then on. Takes no memory.
    pub fn stop(&mut self, seat: usize)
        requires there { seat < length (ready_cells self.old) }
        ensures { ready_cells self.new ≡ ready_cells self.old }
    {
        mark(&mut self.queue.lent, seat, false);
        self.queue.stopped = true;
    }
}
