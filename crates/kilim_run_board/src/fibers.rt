//! What the board and the runner know of a fiber: a task that runs on a heap of its own.

ghost use Rattle.std.specs.Prelude.{◌≡◌, ◌<◌, ◌≤◌, ℕ, Bool, true, Option, Some, None, OnOk, IfOk, List, []};
ghost use Rattle.kilim_run_model.specs.declared.waits.Waits.{Waits};
ghost use Rattle.kilim_run_model.specs.State.{Setting};
ghost use Rattle.kilim_run_model.specs.Lone.{Lone};
ghost use Rattle.kilim_run_model.specs.Course.{Course};
ghost use Rattle.kilim_run_model.specs.declared.deed.Deed.{Deed};
ghost use Rattle.kilim_run_model.specs.declared.deed.Beginning.TheVariants.{Boot};
ghost use Rattle.kilim_run_board.specs.fibers.Wishes.{Wish};
ghost use Rattle.kilim_run_board.specs.fibers.Fibers.{IsOfRun, StandsFor, Asks, Resumed, Fits, course_after, CanAnswer, CanRun, RestsRightly, CountsRightly, StartsFresh, StartsAtNone, IsNewCourse};

use kilim_program::{BoxName, ClassId};
use kilim_run_model::Waits;
use kilim_run_state::{EndCause, Limits, Shape};
use kilim_run_trees::Tree;
use kilim_units::NoMemory;
use std::alloc::Global;

/// What a fiber wants. An answer follows each of these but `Rest` and `End`.
#[derive(Drop)]
pub enum Wants<F> {
    /// A message is put into a mailbox: its tree and its shape. The answer is `Sent`.
    Put(BoxName, Tree, Shape),
    /// The same, but it waits while the mailbox is full. The answer is `Sent`, or `Full`, and then the fiber rests at that mailbox.
    PutWait(BoxName, Tree, Shape),
    /// A mailbox that is new gets a bound. The answer is `Done`.
    Bound(BoxName, u32),
    /// A message is taken out of a mailbox. The answer is `Message`, or `Nothing`, and then the fiber rests at that mailbox.
    Take(BoxName),
    /// A message is taken, or null where there is none. The answer is `Message` or `Nothing`.
    Probe(BoxName),
    /// A task is started: its fiber, newly begun, and the shape of the task object. The answer is `Started`.
    Start(F, Shape),
    /// A value is printed. The answer is `Done`.
    Print(Shape),
    /// The fiber rests: where it waits at a mailbox, or since it yielded.
    Rest(Option<Waits>),
    /// The task ends.
    End(EndCause),
}

/// What a fiber is answered.
#[derive(Drop)]
pub enum Answer {
    /// What was printed is noted, or the mailbox has the bound.
    Done,
    /// The message was put under this number.
    Sent(u64),
    /// The mailbox is full: the message that was to be put comes back, with its shape.
    Full(Tree, Shape),
    /// A message, and the number under which it was put.
    Message(Tree, u64),
    /// The mailbox is empty.
    Nothing,
    /// The task was started under this number.
    Started(u32),
}

/// A fiber: a task that runs on a heap of its own, as far as the board and the runner know it.
pub trait Fibers: Sized + Drop {
    /// What its calls read the program from.
    type Code;

    /// Its task's number.
    ghost task_of: { Self → ℕ };
    /// What its task began with and did.
    ghost course_of: { Self → Course };
    /// Its heap and its frames, or what it keeps of them where it rests, are those of the thread, some moves without an
    /// action further.
    ghost holds: { Setting → Self → Lone → Type 0 };
    /// The same right before the thread's next action, but for the tree that it handed out.
    ghost asked: { Setting → Self → Lone → Type 0 };
    /// The code is that of the setting's program, which was accepted.
    ghost serves: { Setting → Self.Code → Type 0 };
    /// How many instructions it has counted.
    ghost count_of: { Self → ℕ };
    /// What it waits for: its take was just answered nothing, or its put that the mailbox is full.
    ghost refused: { Self → Option Waits };
    /// It is newly begun, or rests.
    ghost rests: { Self → Bool };

    /// The fiber of task 0: it begins with the constructor of the main class, on a new object.
    fn boot(alloc: Global, code: &Self::Code, main: ClassId) -> Result<Self, NoMemory>
        requires { (set : Setting) × IsOfRun serves code.now main set }
        ensures task { IfOk result (λ f. task_of f ≡ 0) }
        ensures course { IfOk result (λ f. course_of f ≡ record { beginning = Boot; deeds = [] }) }
        ensures rests { IfOk result (λ f. rests f ≡ true) }
        ensures refused { IfOk result (λ f. refused f ≡ None) }
        ensures stands { (set : Setting) → IsOfRun serves code.now main set → IfOk result (λ f. StandsFor task_of course_of holds set f) };

    /// Runs up to the next thing that it wants. After want of memory it may only be dropped.
    fn resume(&mut self, code: &Self::Code, limits: &Limits) -> Result<Wants<Self>, NoMemory>
        requires { CanRun task_of course_of holds serves code.now limits.now self.old }
        ensures task { OnOk result (task_of self.new ≡ task_of self.old) }
        ensures course { OnOk result (course_of self.new ≡ course_of self.old) }
        ensures wants { (set : Setting) → serves set code.now → set.limits ≡ limits.now → StandsFor task_of course_of holds set self.old → IfOk result (λ w. Resumed task_of course_of holds asked set self.new w) }
        ensures rest { IfOk result (λ w. RestsRightly (rests self.new) (refused self.old) (count_of self.old) (count_of self.new) w) }
        ensures refused { OnOk result (refused self.new ≡ None) }
        ensures fresh { IfOk result (λ w. StartsFresh rests refused w) }
        ensures none { IfOk result (λ w. StartsAtNone count_of w) }
        ensures counted { OnOk result (count_of self.old ≤ count_of self.new) }
        ensures bounded { OnOk result (count_of self.new ≤ limits.now.steps) };

    /// Answers what it wanted last. After want of memory it may only be dropped.
    fn answer(&mut self, code: &Self::Code, answer: Answer) -> Result<(), NoMemory>
        requires { CanAnswer task_of course_of asked serves code.now self.old answer }
        ensures task { OnOk result (task_of self.new ≡ task_of self.old) }
        ensures goes { (set : Setting) (wish : Wish) (deed : Option Deed) → serves set code.now → Asks task_of course_of asked set self.old wish → Fits set.program wish answer deed →
            OnOk result ((course_of self.new ≡ course_after (course_of self.old) deed) × StandsFor task_of course_of holds set self.new × CountsRightly wish (count_of self.old) (count_of self.new) (refused self.new) deed × (count_of self.new ≤ set.limits.steps)) };

    /// Gives a newly begun fiber its task's number, which is 0 until then.
    fn number(&mut self, task: u32)
        requires course { IsNewCourse (course_of self.old) }
        requires none { count_of self.old ≡ 0 }
        ensures task { task_of self.new ≡ task }
        ensures course { course_of self.new ≡ course_of self.old }
        ensures count { count_of self.new ≡ count_of self.old }
        ensures refused { refused self.new ≡ refused self.old }
        ensures rests { rests self.new ≡ rests self.old }
        ensures stands { (set : Setting) → StandsFor task_of course_of holds set self.old → StandsFor task_of course_of holds set self.new };

    /// Its task's number.
    fn task(&self) -> u32
        ensures { result ≡ task_of self.now };

    /// How many records it keeps while it rests, one for each frame and the leaf's. It is told to a gate, and no clause speaks of it.
    fn records(&self) -> usize;
}
