//! The states that were found.

ghost use Rattle.std.specs.Prelude.{◌≡◌, ◌<◌, ◌≤◌, ◌++◌, ◌∷◌, [], ℕ, List, Option, Result, length, slice_get, IsTrue, ◌↔◌, IfOk, OnOk, OnErr, IfSome};
ghost use Rattle.std.specs.List.{AllByRecursion, AllZip};
ghost use Rattle.kilim_isolation_paths.specs.Paths.{Has};
ghost use Rattle.kilim_isolation_paths.specs.Search.{states_at, IsAt};
ghost use Rattle.kilim_isolation_paths.specs.Stored.{positions};

use crate::held::{Held, Shelves};
use crate::machine::State;
use kilim_units::NoMemory;
use std::alloc::Global;
use std::marker::Model;

/// A state that reached a place, and the entry from which it came.
#[derive(Drop)]
pub struct Reached<S> {
    pub place: u32,
    pub state: S,
    pub from: usize,
}

/// The entries, and for each place which of them stand there. Those of the same state share it.
#[derive(Drop)]
pub struct Store<S: State> {
    entries: Vec<Reached<Held<S>>>,
    rows: Vec<Vec<usize>>,
    shelves: Shelves<S>,
    // from so many bytes of states on some are forgotten
    most: usize,
    has_forgotten: bool,
}

impl<S: State> Model for Store<S> {
    ghost use Rattle.std.specs.Prelude.{length};
    ghost use Rattle.kilim_isolation_paths.specs.Stored.{Stored, AreRows};

    ghost Value = { Stored S };

    ghost view = { λ s. record { entries = s.entries.items; size = length s.rows.items } };

    ghost invariant = { λ s. AreRows s.entries.items s.rows.items };
}

impl<S: State> Store<S> {
    /// A store for so many places, and from how many bytes of states on some are forgotten.
    pub fn new(alloc: Global, size: usize, most: usize) -> Result<Store<S>, NoMemory>
        ensures { IfOk result (λ s. s ≡ record { entries = []; size = size }) }
    {
        let mut rows = Vec::new(alloc);
        for _ in 0..size {
            let Ok(()) = rows.push(Vec::new(alloc)) else {
                return Err(NoMemory);
            };
        }
        let Ok(shelves) = Shelves::new(alloc, size) else {
            return Err(NoMemory);
        };
        Ok(Store {
            entries: Vec::new(alloc),
            rows,
            shelves,
            most,
            has_forgotten: false,
        })
    }

    pub fn len(&self) -> usize
        ensures { result ≡ length self.now.entries }
    {
        self.entries.len()
    }

    pub fn get(&self, at: usize) -> &Reached<Held<S>>
        requires { at < length self.now.entries }
        ensures { IsAt self.now.entries at result.now }
    {
        &self.entries[at]
    }

    /// Where the entries of the place stand.
    pub fn row(&self, place: u32) -> &[usize]
        requires { place < self.now.size }
        ensures { result.now ≡ positions place 0 self.now.entries }
    {
        &self.rows[place as usize]
    }

    /// Whether the state was found at the place. Want of memory where one was forgotten that may be it.
    pub fn has(&self, place: u32, state: &S) -> Result<bool, NoMemory>
        requires { place < self.now.size }
        ensures { IfOk result (λ there. IsTrue there ↔ Has (states_at place self.now.entries) state.now) }
    {
        for k in self.row(place) {
            let Ok(same) = self.get(*k).state.is(state) else {
                return Err(NoMemory);
            };
            if same {
                return Ok(true);
            }
        }
        Ok(false)
    }

    /// How many states were found at the place.
    pub fn count(&self, place: u32) -> usize
        requires { place < self.now.size }
        ensures { result ≡ length (states_at place self.now.entries) }
    {
        self.row(place).len()
    }

    pub fn push(&mut self, place: u32, state: S, from: usize) -> Result<(), NoMemory>
        requires { place < self.old.size }
        ensures ok { OnOk result (self.new ≡ record self.old { entries = self.old.entries ++ record { place = place; state = state; from = from } ∷ [] }) }
        ensures err { OnErr result (self.new ≡ self.old) }
    {
        let Ok(state) = self.shelves.held(state) else {
            return Err(NoMemory);
        };
        let at = self.entries.len();
        let Ok(()) = self.entries.push(Reached { place, state, from }) else {
            return Err(NoMemory);
        };
        match self.rows[place as usize].push(at) {
            Ok(()) => Ok(()),
            Err(_) => {
                self.entries.truncate(at);
                Err(NoMemory)
            }
        }
    }

    /// The allocator.
    pub fn alloc(&self) -> Global {
        self.shelves.alloc()
    }

    /// Whether the states take much memory.
    pub fn is_heavy(&self) -> bool {
        self.shelves.are_heavy(self.most)
    }

    /// Whether states were forgotten.
    pub fn has_forgotten(&self) -> bool {
        self.has_forgotten
    }

    /// Forgets the states of the first so many entries, but those at places where flows meet.
    pub fn forget(&mut self, meets: &[bool], count: usize)
        ensures { self.new ≡ self.old }
    {
        self.has_forgotten = true;
        self.shelves.empty();
        forget_all(&mut self.entries, meets, count);
    }
}

// Forgets the state of an entry, unless flows meet at its place.
fn forget<S: State>(entry: &mut Reached<Held<S>>, meets: &[bool])
    ensures { entry.new ≡ entry.old }
{
    if let Some(true) = meets.get(entry.place as usize) {
        return;
    }
    entry.state.forget();
}

fn forget_all<S: State>(entries: &mut Vec<Reached<Held<S>>>, meets: &[bool], count: usize)
    ensures { entries.new.items ≡ entries.old.items }
{
    for at in 0..count.min(entries.len()) {
        forget(&mut entries[at], meets);
    }
}
