//! What each seat of a turn brought, took and made. Only clauses read it: it takes no memory.

ghost use Rattle.std.specs.Prelude.{◌≡◌, ◌<◌, ◌+◌, ℕ, List, [], ◌∷◌, ◌++◌, length};
ghost use Rattle.kilim_run_turn.specs.Views.{cell_at};
ghost use Rattle.kilim_run_turn.specs.Turns.{KeepsOthers};
ghost use Rattle.kilim_mail_stamps.specs.Merging.{weigh};
ghost use Rattle.kilim_mail_ledger.specs.declared.items.Item.{Item};
ghost use Rattle.kilim_mail_ledger.specs.Ledger.{items_of};
ghost use Rattle.kilim_mail_notes.specs.Histories.{dated_of, trace_of};
ghost use Rattle.kilim_mail_notes.specs.Notes.{Came, Went, Made, moved_by, notes_of, moves_in, ledger_cells, made_items, AllNamed, Accounts, Balances};

use crate::histories::{History, Mark};
use std::snapshot::Snapshot;

/// What a seat did.
#[derive(Drop)]
pub enum Note {
    /// A task with that history came.
    Came(usize, Snapshot<History>),
    /// A task with that history went.
    Went(usize, Snapshot<History>),
    /// An entry of the task of that number was made.
    Made(usize, u32, Snapshot<Mark>),
}

/// Notes, the last in front.
#[derive(Drop)]
pub enum Notes {
    /// None yet.
    Nothing,
    /// None yet, of so many seats of the turn of that number, of so many.
    Named(usize, usize, usize),
    /// This, after the others.
    After(Snapshot<Notes>, Note),
}

/// What all seats did.
#[derive(Drop)]
pub struct Ledger {
    /// How many seats there are.
    pub seats: usize,
    /// What they did.
    pub notes: Snapshot<Notes>,
}

// No notes.
fn no_notes() -> Snapshot<Notes>
    ensures { notes_of result.value ≡ [] }
{
    let nothing = Notes::Nothing;
    Snapshot::of(&nothing)
}

// One note more.
fn add(notes: &mut Snapshot<Notes>, note: Note)
    ensures { notes_of notes.new.value ≡ notes_of notes.old.value ++ moved_by note ∷ [] }
{
    let before = std::mem::replace(notes, no_notes());
    let after = Notes::After(before, note);
    *notes = Snapshot::of(&after);
}

impl Ledger {
    /// So many seats, which did nothing.
    pub fn new(seats: usize) -> Ledger
        ensures seats { result.seats ≡ seats }
        ensures none { moves_in result ≡ [] }
        ensures cells { length (ledger_cells result) ≡ seats }
    {
        Ledger {
            seats,
            notes: no_notes(),
        }
    }

    /// So many seats of the turn of that number, of so many turns, which did nothing.
    pub fn named(seats: usize, number: usize, turns: usize) -> Ledger
        ensures seats { result.seats ≡ seats }
        ensures cells { length (ledger_cells result) ≡ seats }
        ensures named { AllNamed number turns (ledger_cells result) }
        ensures balances { Balances result [] [] }
    {
        let named = Notes::Named(seats, number, turns);
        Ledger {
            seats,
            notes: Snapshot::of(&named),
        }
    }

    /// A task came, by that seat.
    pub fn came(&mut self, seat: usize, history: &History)
        requires there { seat < self.old.seats }
        ensures seats { self.new.seats ≡ self.old.seats }
        ensures others { KeepsOthers seat (ledger_cells self.old) (ledger_cells self.new) }
        ensures accounts { Accounts (cell_at (ledger_cells self.old) seat) (cell_at (ledger_cells self.new) seat) (items_of (trace_of history.now)) [] }
        ensures balances { (held held' made : List Item) → Balances self.old held made → ((h : Item → ℕ) → weigh h held' ≡ weigh h held + weigh h (items_of (trace_of history.now))) → Balances self.new held' made }
    {
        add(&mut self.notes, Note::Came(seat, Snapshot::of(history)));
    }

    /// A task went, by that seat.
    pub fn went(&mut self, seat: usize, history: &History)
        requires there { seat < self.old.seats }
        ensures seats { self.new.seats ≡ self.old.seats }
        ensures others { KeepsOthers seat (ledger_cells self.old) (ledger_cells self.new) }
        ensures accounts { Accounts (cell_at (ledger_cells self.old) seat) (cell_at (ledger_cells self.new) seat) [] (items_of (trace_of history.now)) }
        ensures balances { (held held' made : List Item) → Balances self.old held made → ((h : Item → ℕ) → weigh h held ≡ weigh h held' + weigh h (items_of (trace_of history.now))) → Balances self.new held' made }
    {
        add(&mut self.notes, Note::Went(seat, Snapshot::of(history)));
    }

    /// An entry of a task was made, by that seat.
    pub fn made(&mut self, seat: usize, task: u32, mark: &Mark)
        requires there { seat < self.old.seats }
        ensures seats { self.new.seats ≡ self.old.seats }
        ensures others { KeepsOthers seat (ledger_cells self.old) (ledger_cells self.new) }
        ensures accounts { (before after : List Item) → ((h : Item → ℕ) → weigh h after ≡ weigh h before + weigh h (made_items task (dated_of mark.now))) → Accounts (cell_at (ledger_cells self.old) seat) (cell_at (ledger_cells self.new) seat) before after }
        ensures balances { (held made made' : List Item) → Balances self.old held made → ((h : Item → ℕ) → weigh h made' ≡ weigh h made + weigh h (made_items task (dated_of mark.now))) → Balances self.new held made' }
    {
        add(&mut self.notes, Note::Made(seat, task, Snapshot::of(mark)));
    }
}
