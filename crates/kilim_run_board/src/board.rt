//! The board: where each task is, what waits in the mailboxes, and the journal.

ghost use Rattle.std.specs.Prelude.{◌≡◌, ◌≢◌, ◌<◌, ◌≤◌, ◌+◌, ℕ, true, false, Some, None, OnOk, IfOk, IfErr, IfNone, IfSome, List, [], ◌∷◌, ◌++◌, length, slice_get, slice_set, slice_index_or, replicate};
ghost use Rattle.std.specs.Vec.{vec_capacity};
ghost use Rattle.std.specs.VecDeque.{deque_capacity};
ghost use Rattle.kilim_run_model.specs.State.{Setting, is_full};
ghost use Rattle.kilim_run_model.specs.Turn.{task_limit};
ghost use Rattle.kilim_run_model.specs.Course.{Course};
ghost use Rattle.kilim_run_model.specs.declared.deed.Beginning.TheVariants.{Boot, Begun};
ghost use Rattle.kilim_run_board.specs.fibers.Fibers.{StandsFor};
ghost use Rattle.kilim_run_board.specs.declared.fibers.Wants.TheVariants as wanted;
ghost use Rattle.kilim_run_board.specs.waiting.Mailboxes.{HasRoom};
ghost use Rattle.kilim_run_board.specs.Board.{BoardStands, lent_of, box_of, closing, AreBoxes, IsQuiet, Stops, PutsMessage, BoundsMailbox, Notes, EndsTask, StartsTask};
ghost use Rattle.kilim_run_board.specs.Seen.{seen, IsRoomy, IsUnbounded, MayBound, LendAnswers, GiveAnswers, TakeAnswers, IsNumbered, ActAnswers, ProbeAnswers, RoomFor, IsActable, SameBoard, CourseAt, ActMeets, IsAnswered, wish_in, LentStands, RestsAs, IsNewBoard, MovedWhole};

use crate::fibers::{Answer, Fibers, Wants};
use crate::waiting::{Mailboxes, Parked, Waiter, line_up, note, wake};
use kilim_program::BoxName;
use kilim_run_journal::{Act, Entry};
use kilim_run_model::Waits;
use kilim_run_state::{EndCause, Shape};
use kilim_run_trees::Tree;
use kilim_units::{NoMemory, Seq};
use std::alloc::Global;
use std::collections::VecDeque;

/// The board of tasks.
#[derive(Drop)]
pub struct Board<F> {
    /// What was done, in its order.
    pub journal: Vec<Entry>,
    /// How many tasks there are.
    pub tasks: u32,
    /// The fibers that are ready, the first to be lent first.
    pub ready: VecDeque<F>,
    /// The fibers that wait at a mailbox.
    pub parked: Parked<F>,
    /// The mailboxes that an act has named.
    pub mailboxes: Mailboxes,
    /// The task that is lent to each seat.
    pub cells: Vec<Option<u32>>,
    /// Whether it was stopped.
    pub stopped: bool,
}

/// What `lend` answers.
#[derive(Drop)]
pub enum Lent<F> {
    /// A fiber.
    Fiber(F),
    /// No fiber is ready, and one is lent.
    Idle,
    /// No fiber is ready, and none is lent.
    Quiet,
    /// The board was stopped.
    Stopped,
}

/// What `act` answers.
#[derive(Drop)]
pub enum Acted {
    /// What the fiber is answered; after an end it is `Done`, and nobody asks.
    Answer(Answer),
    /// A start where 10,000 tasks are there: the task has ended.
    OutOfTasks,
    /// A put into a mailbox that is full: the task has ended.
    OutOfRoom,
}

// Whether no fiber is lent.
fn is_none_lent(cells: &[Option<u32>]) -> bool
    ensures yes { result ≡ true → lent_of cells.now ≡ [] }
    ensures no { result ≡ false → lent_of cells.now ≢ [] }
{
    for cell in cells {
        match cell {
            Some(_) => return false,
            None => {}
        }
    }
    true
}

impl<F: Fibers> Board<F> {
    /// Lends the first fiber that is ready to a seat whose cell is empty, and notes its task there. With every other answer the
    /// board is as before: it was stopped, or no fiber is ready and one is lent, or none is. Takes no memory.
    pub fn lend(&mut self, seat: usize) -> Lent<F>
        requires free { slice_get self.old.cells.items seat ≡ Some None }
        requires roomy { IsRoomy self.old }
        ensures roomy { IsRoomy self.new }
        ensures effect { LendAnswers F.task_of (seen self.old) seat (seen self.new) result }
        ensures stands { (set : Setting) → BoardStands F.task_of F.course_of F.holds set (seen self.old) → BoardStands F.task_of F.course_of F.holds set (seen self.new) × LentStands F.task_of F.course_of F.holds set (seen self.new) result }
    {
        if self.stopped {
            return Lent::Stopped;
        }
        match self.ready.pop_front() {
            Some(fiber) => {
                self.cells[seat] = Some(fiber.task());
                Lent::Fiber(fiber)
            }
            None => {
                if is_none_lent(self.cells.as_slice()) {
                    Lent::Quiet
                } else {
                    Lent::Idle
                }
            }
        }
    }

    /// Takes back a fiber that rests from its seat, whose cell is empty then. The fiber is parked where it waits for a message and the
    /// mailbox is empty, or for room and the mailbox is full; else it is ready, behind the others. Takes no memory.
    pub fn give_back(&mut self, seat: usize, fiber: F, waits: Option<Waits>)
        requires lent { slice_get self.old.cells.items seat ≡ Some (Some (F.task_of fiber)) }
        requires roomy { IsRoomy self.old }
        ensures effect { GiveAnswers (seen self.old) seat (seen self.new) fiber waits }
        ensures stands { (set : Setting) → BoardStands F.task_of F.course_of F.holds set (seen self.old) → RestsAs F.task_of F.course_of F.holds set fiber waits → CourseAt (seen self.old) (F.task_of fiber) (F.course_of fiber) → BoardStands F.task_of F.course_of F.holds set (seen self.new) }
        ensures roomy { IsRoomy self.new }
    {
        self.cells[seat] = None;
        match waits {
            Some(waits) => {
                if self.mailboxes.has_to_wait(waits) {
                    self.parked.park(waits, fiber);
                } else {
                    line_up(&mut self.ready, fiber);
                }
            }
            None => line_up(&mut self.ready, fiber),
        }
    }

    /// Empties a seat's cell, and stops the board: `lend` answers `Stopped` from then on. Takes no memory.
    pub fn stop(&mut self, seat: usize)
        requires there { seat < length self.old.cells.items }
        requires roomy { IsRoomy self.old }
        ensures effect { Stops (seen self.old) seat (seen self.new) }
        ensures stands { (set : Setting) (t : ℕ) → slice_get self.old.cells.items seat ≡ Some (Some t) → BoardStands F.task_of F.course_of F.holds set (seen self.old) → BoardStands F.task_of F.course_of F.holds set (seen self.new) }
        ensures roomy { IsRoomy self.new }
    {
        self.cells[seat] = None;
        self.stopped = true;
    }

    // A put into a mailbox that isn't full.
    fn put(&mut self, task: u32, mailbox: BoxName, tree: Tree, shape: Shape) -> u64
        requires roomy { IsRoomy self.old }
        requires journal { length self.old.journal.items < vec_capacity self.old.journal }
        requires room { HasRoom self.old.mailboxes mailbox }
        requires free { is_full ((seen self.old).mails mailbox) ≡ false }
        ensures number { result ≡ ((seen self.old).mails mailbox).puts }
        ensures effect { PutsMessage (seen self.old) task (seen self.new) mailbox tree shape }
        ensures roomy { IsRoomy self.new }
    {
        let number = self.mailboxes.put_message(mailbox, tree);
        note(&mut self.journal, task, Act::Put(mailbox, number, shape));
        wake(&mut self.ready, &mut self.parked, Waits::Take(mailbox));
        number
    }

    // A take, where a message is there.
    fn take(&mut self, task: u32, mailbox: BoxName) -> Option<(u64, Tree)>
        requires roomy { IsRoomy self.old }
        requires journal { length self.old.journal.items < vec_capacity self.old.journal }
        ensures effect { TakeAnswers (seen self.old) task (seen self.new) mailbox result }
        ensures none { IfNone result (vec_capacity self.new.journal ≡ vec_capacity self.old.journal) }
        ensures roomy { IsRoomy self.new }
    {
        match self.mailboxes.take_message(mailbox) {
            Some((number, tree)) => {
                note(&mut self.journal, task, Act::Take(mailbox, number));
                wake(&mut self.ready, &mut self.parked, Waits::Put(mailbox));
                Some((number, tree))
            }
            None => None,
        }
    }

    // An act that changes the journal alone.
    fn say(&mut self, task: u32, act: Act)
        requires roomy { IsRoomy self.old }
        requires journal { length self.old.journal.items < vec_capacity self.old.journal }
        ensures effect { Notes (seen self.old) task (seen self.new) act }
        ensures roomy { IsRoomy self.new }
    {
        note(&mut self.journal, task, act);
    }

    // A bound.
    fn bound(&mut self, task: u32, mailbox: BoxName, most: u32)
        requires roomy { IsRoomy self.old }
        requires room { (length self.old.journal.items < vec_capacity self.old.journal) × HasRoom self.old.mailboxes mailbox }
        requires unbounded { IsUnbounded (seen self.old) mailbox most }
        ensures effect { BoundsMailbox (seen self.old) task (seen self.new) mailbox most }
        ensures roomy { IsRoomy self.new }
    {
        self.mailboxes.bound(mailbox, most);
        note(&mut self.journal, task, Act::Bound(mailbox, most));
    }

    // An end.
    fn end(&mut self, seat: usize, task: u32, cause: EndCause)
        requires lent { slice_get self.old.cells.items seat ≡ Some (Some task) }
        requires roomy { IsRoomy self.old }
        requires journal { length self.old.journal.items < vec_capacity self.old.journal }
        ensures effect { EndsTask (seen self.old) seat task (seen self.new) cause }
        ensures roomy { IsRoomy self.new }
    {
        note(&mut self.journal, task, Act::End(cause));
        self.cells[seat] = None;
    }

    // A start, below 10,000 tasks.
    fn start(&mut self, task: u32, fiber: F, shape: Shape)
        requires numbered { F.task_of fiber ≡ self.old.tasks }
        requires few { self.old.tasks < task_limit }
        requires roomy { IsRoomy self.old }
        requires journal { length self.old.journal.items < vec_capacity self.old.journal }
        requires ready { self.old.tasks + 1 ≤ deque_capacity self.old.ready }
        requires parked { self.old.tasks + 1 ≤ self.old.parked.room }
        ensures effect { StartsTask (seen self.old) task (seen self.new) fiber shape }
        ensures roomy { IsRoomy self.new }
    {
        note(&mut self.journal, task, Act::Start(self.tasks, shape));
        line_up(&mut self.ready, fiber);
        self.tasks += 1;
    }

    /// Makes room for one act, and for the new fiber of a start. Nothing else changes, also for want of memory, the only error.
    pub fn reserve(&mut self, wants: &Wants<F>) -> Result<(), NoMemory>
        requires roomy { IsRoomy self.old }
        ensures same { SameBoard (seen self.old) (seen self.new) }
        ensures room { OnOk result (RoomFor self.new wants.now) }
        ensures stands { (set : Setting) → BoardStands F.task_of F.course_of F.holds set (seen self.old) → BoardStands F.task_of F.course_of F.holds set (seen self.new) }
        ensures roomy { IsRoomy self.new }
    {
        let Ok(()) = self.journal.reserve(1) else {
            return Err(NoMemory);
        };
        match wants {
            Wants::Put(mailbox, _, _) => self.mailboxes.reserve_message(*mailbox),
            Wants::PutWait(mailbox, _, _) => {
                let Ok(()) = self.mailboxes.reserve_message(*mailbox) else {
                    return Err(NoMemory);
                };
                self.parked
                    .make_places(Waits::Put(*mailbox), self.cells.len())
            }
            Wants::Bound(mailbox, _) => self.mailboxes.reserve_message(*mailbox),
            Wants::Start(_, _) => {
                let more = self.tasks as usize + 1;
                let Ok(()) = self.ready.reserve(more) else {
                    return Err(NoMemory);
                };
                self.parked.reserve(more)
            }
            Wants::Take(mailbox) => self
                .parked
                .make_places(Waits::Take(*mailbox), self.cells.len()),
            _ => Ok(()),
        }
    }

    /// The act of the task that is lent to the seat, for which there is room: one entry of the journal, but none for a take on an
    /// empty mailbox, which is answered `Nothing`, and none for a put that waits on a full one, which is answered `Full`. A start where 10,000 tasks are there is the task's end, `OutOfTasks`, and so is
    /// a put into a full mailbox, `OutOfRoom`; an end empties the cell. Takes no memory.
    pub fn act(&mut self, seat: usize, wants: Wants<F>) -> Acted
        requires lent { (t : ℕ) × (slice_get self.old.cells.items seat ≡ Some (Some t)) }
        requires roomy { IsRoomy self.old }
        requires room { RoomFor self.old wants }
        requires acts { IsActable F.course_of F.count_of wants }
        requires bounds { MayBound (seen self.old) wants }
        ensures effect { (t : ℕ) → slice_get self.old.cells.items seat ≡ Some (Some t) → ActAnswers (IsNumbered F.task_of F.course_of F.count_of F.refused F.holds) (seen self.old) seat t (seen self.new) wants result }
        ensures stands { (set : Setting) (t : ℕ) (c : Course) → slice_get self.old.cells.items seat ≡ Some (Some t) → CourseAt (seen self.old) t c → ActMeets F.task_of F.course_of F.holds set t c wants → BoardStands F.task_of F.course_of F.holds set (seen self.old) →
            BoardStands F.task_of F.course_of F.holds set (seen self.new) × IsAnswered set (seen self.new) t c (wish_in wants) result }
        ensures roomy { IsRoomy self.new }
    {
        match self.cells[seat] {
            Some(task) => self.act_for(seat, task, wants),
            None => unreachable!(),
        }
    }

    // The act of a task that is lent to the seat.
    fn act_for(&mut self, seat: usize, task: u32, wants: Wants<F>) -> Acted
        requires lent { slice_get self.old.cells.items seat ≡ Some (Some task) }
        requires roomy { IsRoomy self.old }
        requires room { RoomFor self.old wants }
        requires acts { IsActable F.course_of F.count_of wants }
        requires bounds { MayBound (seen self.old) wants }
        ensures effect { ActAnswers (IsNumbered F.task_of F.course_of F.count_of F.refused F.holds) (seen self.old) seat task (seen self.new) wants result }
        ensures roomy { IsRoomy self.new }
    {
        match wants {
            Wants::Put(mailbox, tree, shape) => self.put_or_end(seat, task, mailbox, tree, shape),
            Wants::PutWait(mailbox, tree, shape) => {
                self.put_or_wait(seat, task, mailbox, tree, shape)
            }
            Wants::Bound(mailbox, most) => {
                self.bound(task, mailbox, most);
                Acted::Answer(Answer::Done)
            }
            Wants::Take(mailbox) => match self.take(task, mailbox) {
                Some((number, tree)) => Acted::Answer(Answer::Message(tree, number)),
                None => Acted::Answer(Answer::Nothing),
            },
            Wants::Probe(mailbox) => self.probe(task, mailbox),
            Wants::Start(fiber, shape) => self.start_or_end(seat, task, fiber, shape),
            Wants::Print(shape) => {
                self.say(task, Act::Print(shape));
                Acted::Answer(Answer::Done)
            }
            Wants::Rest(_) => unreachable!(),
            Wants::End(cause) => {
                self.end(seat, task, cause);
                Acted::Answer(Answer::Done)
            }
        }
    }

    // A put, or the end of the task where the mailbox is full.
    fn put_or_end(
        &mut self,
        seat: usize,
        task: u32,
        mailbox: BoxName,
        tree: Tree,
        shape: Shape,
    ) -> Acted
        requires lent { slice_get self.old.cells.items seat ≡ Some (Some task) }
        requires roomy { IsRoomy self.old }
        requires room { (length self.old.journal.items < vec_capacity self.old.journal) × HasRoom self.old.mailboxes mailbox }
        ensures effect { ActAnswers (IsNumbered F.task_of F.course_of F.count_of F.refused F.holds) (seen self.old) seat task (seen self.new) (wanted.Put mailbox tree shape) result }
        ensures roomy { IsRoomy self.new }
    {
        if self.mailboxes.is_full(mailbox) {
            self.end(seat, task, EndCause::Full);
            Acted::OutOfRoom
        } else {
            Acted::Answer(Answer::Sent(self.put(task, mailbox, tree, shape)))
        }
    }

    // A put that waits, where the mailbox is full, with its message.
    fn put_or_wait(
        &mut self,
        seat: usize,
        task: u32,
        mailbox: BoxName,
        tree: Tree,
        shape: Shape,
    ) -> Acted
        requires roomy { IsRoomy self.old }
        requires room { (length self.old.journal.items < vec_capacity self.old.journal) × HasRoom self.old.mailboxes mailbox }
        ensures effect { ActAnswers (IsNumbered F.task_of F.course_of F.count_of F.refused F.holds) (seen self.old) seat task (seen self.new) (wanted.PutWait mailbox tree shape) result }
        ensures roomy { IsRoomy self.new }
    {
        let _ = seat;
        if self.mailboxes.is_full(mailbox) {
            Acted::Answer(Answer::Full(tree, shape))
        } else {
            Acted::Answer(Answer::Sent(self.put(task, mailbox, tree, shape)))
        }
    }

    // A take that doesn't wait.
    fn probe(&mut self, task: u32, mailbox: BoxName) -> Acted
        requires roomy { IsRoomy self.old }
        requires journal { length self.old.journal.items < vec_capacity self.old.journal }
        ensures effect { ProbeAnswers (seen self.old) task (seen self.new) mailbox result }
        ensures roomy { IsRoomy self.new }
    {
        match self.take(task, mailbox) {
            Some((number, tree)) => Acted::Answer(Answer::Message(tree, number)),
            None => {
                self.say(task, Act::Empty(mailbox));
                Acted::Answer(Answer::Nothing)
            }
        }
    }

    // A start, or the end of the task where 10,000 tasks are there.
    fn start_or_end(&mut self, seat: usize, task: u32, mut fiber: F, shape: Shape) -> Acted
        requires lent { slice_get self.old.cells.items seat ≡ Some (Some task) }
        requires roomy { IsRoomy self.old }
        requires room { (length self.old.journal.items < vec_capacity self.old.journal) × (self.old.tasks + 1 ≤ deque_capacity self.old.ready) × (self.old.tasks + 1 ≤ self.old.parked.room) }
        requires begun { (F.course_of fiber ≡ record { beginning = Begun shape; deeds = [] }) × (F.count_of fiber ≡ 0) }
        ensures effect { ActAnswers (IsNumbered F.task_of F.course_of F.count_of F.refused F.holds) (seen self.old) seat task (seen self.new) (wanted.Start fiber shape) result }
        ensures roomy { IsRoomy self.new }
    {
        let number = self.tasks;
        if number < 10_000 {
            fiber.number(number);
            self.start(task, fiber, shape);
            Acted::Answer(Answer::Started(number))
        } else {
            self.end(seat, task, EndCause::Tasks);
            Acted::OutOfTasks
        }
    }

    /// The journal with an entry for each task that is parked, by increasing number. Where `lend` would answer `Quiet` it is that of
    /// a whole run. The only error is want of memory.
    pub fn finish(self) -> Result<Vec<Entry>, NoMemory>
        ensures entries { IfOk result (λ es. es.items ≡ self.journal.items ++ closing F.task_of self.parked.items 0 self.tasks) }
        ensures rest { (set : Setting) → BoardStands F.task_of F.course_of F.holds set (seen self) → self.stopped ≡ false → IsQuiet (seen self) → IfOk result (λ es. MovedWhole set es.items) }
    {
        let Board {
            journal,
            tasks,
            ready,
            parked,
            mailboxes,
            cells,
            stopped: _,
        } = self;
        let alloc = mailboxes.alloc;
        drop(ready);
        drop(mailboxes);
        drop(cells);
        match parked.into_list() {
            Ok(waiters) => with_waits(journal, alloc, waiters.as_slice(), tasks),
            Err(fault) => Err(fault),
        }
    }
}

// A journal with an entry for each of so many tasks that is parked, by increasing number.
fn with_waits<F: Fibers>(
    journal: Vec<Entry>,
    alloc: Global,
    waiters: &[Waiter<F>],
    tasks: u32,
) -> Result<Vec<Entry>, NoMemory>
    ensures { IfOk result (λ es. es.items ≡ journal.items ++ closing F.task_of waiters.now 0 tasks) }
{
    let Ok(boxes) = parked_boxes(alloc, waiters, tasks as usize) else {
        return Err(NoMemory);
    };
    let mut entries = Seq::from_vec(journal);
    for t in 0..tasks {
        match parked_at(&boxes, t) {
            Some(mailbox) => {
                let act = Act::Wait(mailbox);
                let Ok(()) = entries.push(Entry { task: t, act }) else {
                    return Err(NoMemory);
                };
            }
            None => {}
        }
    }
    Ok(entries.into_vec())
}

// The mailbox at which there is to wait.
fn box_of(waits: Waits) -> BoxName
    ensures { result ≡ box_of waits }
{
    match waits {
        Waits::Take(mailbox) => mailbox,
        Waits::Put(mailbox) => mailbox,
    }
}

// The mailbox of a task, where it is one of those that are asked for.
fn set_box(boxes: &mut Vec<Option<BoxName>>, task: u32, mailbox: BoxName)
    ensures { boxes.new.items ≡ slice_set boxes.old.items task (Some mailbox) }
{
    let at = task as usize;
    if at < boxes.len() {
        boxes[at] = Some(mailbox);
    }
}

// The mailboxes at which so many tasks are parked. The last waiter comes first, so that the first one counts.
fn parked_boxes<F: Fibers>(
    alloc: Global,
    waiters: &[Waiter<F>],
    tasks: usize,
) -> Result<Vec<Option<BoxName>>, NoMemory>
    ensures { IfOk result (λ boxes. AreBoxes F.task_of waiters.now tasks boxes.items) }
{
    let mut boxes = Vec::new(alloc);
    let Ok(()) = boxes.resize(tasks, None) else {
        return Err(NoMemory);
    };
    let mut left = waiters.len();
    while left > 0 {
        left -= 1;
        let waiter = &waiters[left];
        set_box(&mut boxes, waiter.fiber.task(), box_of(waiter.waits));
    }
    Ok(boxes)
}

// The mailbox at which a task is parked.
fn parked_at(boxes: &Vec<Option<BoxName>>, t: u32) -> Option<BoxName>
    requires { t < length boxes.now.items }
    ensures { result ≡ slice_index_or boxes.now.items t None }
{
    boxes[t as usize]
}

// Makes room for the first fiber, and so many cells, which are empty.
fn furnish<F: Fibers>(board: &mut Board<F>, seats: usize) -> Result<(), NoMemory>
    requires { board.old.cells.items ≡ [] }
    ensures same { (board.new.journal.items ≡ board.old.journal.items) × (board.new.tasks ≡ board.old.tasks) × (board.new.ready.items ≡ board.old.ready.items) × (board.new.parked.items ≡ board.old.parked.items) × (board.new.mailboxes ≡ board.old.mailboxes) × (board.new.stopped ≡ board.old.stopped) }
    ensures room { OnOk result ((board.new.cells.items ≡ replicate seats None) × (1 ≤ deque_capacity board.new.ready) × (1 ≤ board.new.parked.room)) }
{
    let Ok(()) = board.cells.resize(seats, None) else {
        return Err(NoMemory);
    };
    let Ok(()) = board.ready.reserve(1) else {
        return Err(NoMemory);
    };
    board.parked.reserve(1)
}

// A board without fibers.
fn bare<F: Fibers>(alloc: Global, seats: usize) -> Result<Board<F>, NoMemory>
    ensures { IfOk result (λ b. (b.journal.items ≡ []) × (b.tasks ≡ 1) × (b.ready.items ≡ []) × (b.parked.items ≡ []) × (b.mailboxes.by_name.entries ≡ []) × (b.cells.items ≡ replicate seats None) × (b.stopped ≡ false) × (1 ≤ deque_capacity b.ready) × (1 ≤ b.parked.room)) }
{
    let mut board = Board {
        journal: Vec::new(alloc),
        tasks: 1,
        ready: VecDeque::new(alloc),
        parked: Parked::new(alloc),
        mailboxes: Mailboxes::new(alloc),
        cells: Vec::new(alloc),
        stopped: false,
    };
    match furnish(&mut board, seats) {
        Ok(()) => Ok(board),
        Err(fault) => {
            drop(board);
            Err(fault)
        }
    }
}

impl<F: Fibers> Board<F> {
    /// A board with the fiber of task 0, which is ready, and so many seats, from 1 to 16, whose cells are empty. For want of memory
    /// the fiber is handed back.
    pub fn new(alloc: Global, main: F, seats: usize) -> Result<Self, F>
        requires some { 1 ≤ seats }
        requires few { seats ≤ 16 }
        ensures board { IfOk result (λ b. IsNewBoard (seen b) main seats) }
        ensures roomy { IfOk result (λ b. IsRoomy b) }
        ensures back { IfErr result (λ f. f ≡ main) }
        ensures stands { (set : Setting) → F.task_of main ≡ 0 → F.course_of main ≡ record { beginning = Boot; deeds = [] } → StandsFor F.task_of F.course_of F.holds set main → IfOk result (λ b. BoardStands F.task_of F.course_of F.holds set (seen b)) }
    {
        match bare(alloc, seats) {
            Ok(mut board) => {
                line_up(&mut board.ready, main);
                Ok(board)
            }
            Err(_) => Err(main),
        }
    }
}
