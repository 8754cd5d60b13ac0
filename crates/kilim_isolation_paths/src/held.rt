//! States that entries share.

ghost use Rattle.std.specs.Prelude.{◌≡◌, ◌↔◌, IsTrue, IfOk, IfSome, Some, slice_get};

use crate::machine::State;
use kilim_units::{NoMemory, no_room};
use std::alloc::Global;
use std::marker::Model;
use std::snapshot::Snapshot;
use std::sync::Arc;

/// A state, which several entries may share. It may be forgotten, so that its memory can be used again; contracts see it still.
#[derive(Drop)]
pub struct Held<S: State> {
    state: Option<Arc<S, Global>>,
    mark: u64,
    seen: Snapshot<S>,
}

impl<S: State> Model for Held<S> {
    ghost use Rattle.std.specs.Prelude.{◌≡◌, IfSome};

    ghost Value = { S };

    ghost view = { λ h. h.seen.value };

    ghost invariant = { λ h. IfSome h.state (λ a. a.value ≡ h.seen.value) × (h.mark ≡ S.marks h.seen.value) };
}

fn inner<S: State>(state: &Arc<S, Global>) -> &S
    ensures { result.now ≡ state.now.value }
{
    state
}

// A state on a shelf: it isn't forgotten there, and entries may share it.
#[derive(Drop)]
struct Shelved<S: State> {
    state: Arc<S, Global>,
    mark: u64,
}

impl<S: State> Model for Shelved<S> {
    ghost use Rattle.std.specs.Prelude.{◌≡◌};

    ghost Value = { S };

    ghost view = { λ s. s.state.value };

    ghost invariant = { λ s. s.mark ≡ S.marks s.state.value };
}

impl<S: State> Shelved<S> {
    fn new(alloc: Global, state: S) -> Result<Shelved<S>, NoMemory>
        ensures { IfOk result (λ shelved. shelved ≡ state) }
    {
        let mark = state.mark();
        let Ok(state) = Arc::new(alloc, state) else {
            return Err(NoMemory);
        };
        Ok(Shelved { state, mark })
    }

    // Whether it is this state.
    fn is(&self, state: &S) -> bool
        ensures { IsTrue result ↔ (self.now ≡ state.now) }
    {
        self.mark == state.mark() && inner(&self.state).is_same(state)
    }

    // The same, for an entry.
    fn share(&self) -> Result<Held<S>, NoMemory>
        ensures { IfOk result (λ held. held ≡ self.now) }
    {
        let Ok(again) = Arc::try_clone(&self.state) else {
            return Err(NoMemory);
        };
        let seen = Snapshot::of(inner(&self.state));
        Ok(Held {
            state: Some(again),
            mark: self.mark,
            seen,
        })
    }
}

impl<S: State> Held<S> {
    /// The state, unless it is forgotten.
    pub fn value(&self) -> Option<&S>
        ensures { IfSome result (λ state. state.now ≡ self.now) }
    {
        match &self.state {
            Some(state) => Some(inner(state)),
            None => None,
        }
    }

    /// Whether it is this state. Want of memory where it is forgotten, and has the same mark.
    pub fn is(&self, state: &S) -> Result<bool, NoMemory>
        ensures { IfOk result (λ same. IsTrue same ↔ (self.now ≡ state.now)) }
    {
        if self.mark != state.mark() {
            return Ok(false);
        }
        match &self.state {
            Some(own) => Ok(inner(own).is_same(state)),
            // room: a quarter of a gigabyte of states; the search then begins once more
            None => Err(no_room()),
        }
    }

    /// Forgets the state.
    pub fn forget(&mut self)
        ensures { self.new ≡ self.old }
    {
        self.state = None;
    }
}

/// States, on shelves by their marks. No answer depends on which are there.
#[derive(Drop)]
pub struct Shelves<S: State> {
    alloc: Global,
    shelves: Vec<Vec<Shelved<S>>>,
    weight: usize,
}

// Where a state stands on a shelf.
fn find<S: State>(shelf: &[Shelved<S>], state: &S) -> Option<usize>
    ensures { IfSome result (λ at. slice_get shelf.now at ≡ Some state.now) }
{
    for (at, shelved) in shelf.iter().enumerate() {
        if shelved.is(state) {
            return Some(at);
        }
    }
    None
}

// The state, which is put on a shelf too.
fn put_on<S: State>(
    alloc: Global,
    shelf: &mut Vec<Shelved<S>>,
    state: S,
) -> Result<Held<S>, NoMemory>
    ensures { IfOk result (λ held. held ≡ state) }
{
    let Ok(shelved) = Shelved::new(alloc, state) else {
        return Err(NoMemory);
    };
    let Ok(held) = shelved.share() else {
        return Err(NoMemory);
    };
    let Ok(()) = shelf.push(shelved) else {
        return Err(NoMemory);
    };
    Ok(held)
}

impl<S: State> Shelves<S> {
    /// So many shelves, on which nothing stands.
    pub fn new(alloc: Global, count: usize) -> Result<Shelves<S>, NoMemory> {
        let Ok(mut shelves) = Vec::with_capacity(alloc, count) else {
            return Err(NoMemory);
        };
        for _ in 0..count {
            let Ok(()) = shelves.push(Vec::new(alloc)) else {
                return Err(NoMemory);
            };
        }
        Ok(Shelves {
            alloc,
            shelves,
            weight: 0,
        })
    }

    /// The allocator.
    pub fn alloc(&self) -> Global {
        self.alloc
    }

    /// Whether the states that were put there since the shelves were emptied have more than so many bytes.
    pub fn are_heavy(&self, most: usize) -> bool {
        self.weight > most
    }

    /// The state, shared with those that are the same.
    pub fn held(&mut self, state: S) -> Result<Held<S>, NoMemory>
        ensures { IfOk result (λ held. held ≡ state) }
    {
        let count = self.shelves.len();
        if count == 0 {
            let Ok(alone) = Shelved::new(self.alloc, state) else {
                return Err(NoMemory);
            };
            return alone.share();
        }
        let at = (state.mark() % count as u64) as usize;
        let shelf = &mut self.shelves[at];
        if let Some(number) = find(shelf.as_slice(), &state) {
            return shelf[number].share();
        }
        self.weight = self.weight.saturating_add(state.weight());
        let shelf = &mut self.shelves[at];
        put_on(self.alloc, shelf, state)
    }

    /// Nothing is on the shelves.
    pub fn empty(&mut self) {
        for shelf in self.shelves.iter_mut() {
            shelf.clear();
        }
        self.weight = 0;
    }
}
