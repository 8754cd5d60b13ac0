//! What a worker has of its own.

ghost use Rattle.std.specs.Prelude.{◌≡◌, false, [], ◌∷◌, ◌++◌};
ghost use Rattle.kilim_mail_notes.specs.Histories.{trace_of};
ghost use Rattle.kilim_mail_worker.specs.Own.{buried, graves_of};

use kilim_mail_notes::History;
use kilim_mail_stamps::Stamped;
use std::alloc::Global;
use std::snapshot::Snapshot;

/// The histories of tasks that ended, the last in front. Only clauses read it: it takes no memory.
#[derive(Drop)]
pub enum Graves {
    /// None.
    Nothing,
    /// This, after the others.
    After(Snapshot<Graves>, Snapshot<History>),
}

/// The entries that a worker made without a turn, and the tasks that ended in its hands.
#[derive(Drop)]
pub struct Own {
    /// The entries.
    pub log: Vec<Stamped>,
    /// The tasks.
    pub graves: Snapshot<Graves>,
    /// Whether memory was wanting while it had a task in hand. Nothing is known of the others then.
    pub failed: bool,
}

// No task.
fn no_graves() -> Snapshot<Graves>
    ensures { graves_of result.value ≡ [] }
{
    let nothing = Graves::Nothing;
    Snapshot::of(&nothing)
}

impl Own {
    /// No entries, and no task. Takes no memory.
    pub fn new(alloc: Global) -> Own
        ensures log { result.log.items ≡ [] }
        ensures graves { buried result ≡ [] }
        ensures failed { result.failed ≡ false }
    {
        Own {
            log: Vec::new(alloc),
            graves: no_graves(),
            failed: false,
        }
    }

    /// A task has ended.
    pub fn bury(&mut self, history: &History)
        ensures log { self.new.log.items ≡ self.old.log.items }
        ensures graves { buried self.new ≡ buried self.old ++ trace_of history.now ∷ [] }
    {
        let before = std::mem::replace(&mut self.graves, no_graves());
        let after = Graves::After(before, Snapshot::of(history));
        self.graves = Snapshot::of(&after);
    }
}
