//! What a task began with and did, with the stamps. Only clauses read it: it takes no memory.

ghost use Rattle.std.specs.Prelude.{◌≡◌, []};
ghost use Rattle.kilim_run_model.specs.declared.deed.Beginning.TheVariants.{Boot, Begun};
ghost use Rattle.kilim_mail_notes.specs.Histories.{dated_of, past_of, trace_of};
ghost use Rattle.kilim_mail_ledger.specs.Goings.{longer};

use kilim_program::BoxName;
use kilim_run_model::Beginning;
use kilim_run_state::{EndCause, Shape};
use std::snapshot::Snapshot;

/// A deed. A shape is known of it, and not kept.
#[derive(Drop)]
pub enum Did {
    /// A message of that shape was put under this number.
    Put(BoxName, u64, Snapshot<Shape>),
    /// The message of that number, of that shape, was taken.
    Take(BoxName, u64, Snapshot<Shape>),
    /// The mailbox was empty.
    Empty(BoxName),
    /// The mailbox got a bound.
    Bound(BoxName, u32),
    /// A task of that number was started, with an object of that shape.
    Start(u32, Snapshot<Shape>),
    /// A value of that shape was printed.
    Print(Snapshot<Shape>),
    /// The task ended.
    End(EndCause),
}

/// A deed, with its stamp.
#[derive(Drop)]
pub struct Mark {
    /// The stamp of its entry.
    pub stamp: u64,
    /// Where it is an end at a full mailbox: that mailbox.
    pub full: Option<BoxName>,
    /// What was done.
    pub did: Did,
}

/// What a task did, the last in front.
#[derive(Drop)]
pub enum Past {
    /// Nothing yet.
    Nothing,
    /// This, after the others.
    After(Snapshot<Past>, Snapshot<Mark>),
}

/// The history of a task.
#[derive(Drop)]
pub struct History {
    /// Its number.
    pub task: u32,
    /// The stamp of its start, 0 of task 0.
    pub stamp: u64,
    /// What it began with.
    pub beginning: Snapshot<Beginning>,
    /// What it did.
    pub past: Snapshot<Past>,
}

// It did nothing yet.
fn no_past() -> Snapshot<Past>
    ensures { past_of result.value ≡ [] }
{
    let nothing = Past::Nothing;
    Snapshot::of(&nothing)
}

impl History {
    /// That of task 0, which did nothing yet.
    pub fn boot() -> History
        ensures { trace_of result ≡ record { task = 0; stamp = 0; beginning = Boot; past = [] } }
    {
        let beginning = Beginning::Boot;
        History {
            task: 0,
            stamp: 0,
            beginning: Snapshot::of(&beginning),
            past: no_past(),
        }
    }

    /// That of a task that was started with an object of that shape, and did nothing yet. The shape comes back.
    pub fn begun(task: u32, stamp: u64, shape: Shape) -> (History, Shape)
        ensures history { trace_of result.0 ≡ record { task = task; stamp = stamp; beginning = Begun shape; past = [] } }
        ensures shape { result.1 ≡ shape }
    {
        let beginning = Beginning::Begun(shape);
        let history = History {
            task,
            stamp,
            beginning: Snapshot::of(&beginning),
            past: no_past(),
        };
        match beginning {
            Beginning::Begun(shape) => (history, shape),
            Beginning::Boot => unreachable!(),
        }
    }

    /// The task did one thing more.
    pub fn note(&mut self, mark: &Mark)
        ensures { trace_of self.new ≡ longer (trace_of self.old) (dated_of mark.now) }
    {
        let before = std::mem::replace(&mut self.past, no_past());
        let after = Past::After(before, Snapshot::of(mark));
        self.past = Snapshot::of(&after);
    }
}
