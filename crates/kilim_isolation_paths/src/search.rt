//! The search over all paths.

ghost use Rattle.std.specs.Prelude.{◌≡◌, ◌<◌, ◌≤◌, ◌++◌, ◌∷◌, [], ℕ, List, Option, Result, length, slice_get, IsTrue, ◌↔◌, IfOk, OnOk, OnErr, IfSome};
ghost use Rattle.std.specs.List.{AllByRecursion, AllZip};
ghost use Rattle.kilim_isolation_paths.specs.Paths.{Has, target};
ghost use Rattle.kilim_isolation_paths.specs.Search.{Good, Took, Visited, Searched, IsAt};
ghost use Rattle.kilim_isolation_paths.specs.declared.store.Reached.{Reached};

use crate::found::{Found, note};
use crate::held::Held;
use crate::machine::{Exit, Moves};
use crate::meeting::meets_of;
use crate::store::{Reached, Store};
use kilim_units::{NoMemory, unmet};

/// At most so many different states may reach a place.
pub const MOST_STATES: usize = 256;

// The step of an entry.
fn step<M: Moves>(
    machine: &M,
    entry: &Reached<Held<M::State>>,
    exit: Exit,
) -> Result<Result<M::State, u8>, NoMemory>
    requires fits { M.fits machine.now entry.now.place entry.now.state }
    requires exit { Has ((M.means machine.now).exits entry.now.place) exit }
    ensures step { IfOk result (λ r. r ≡ (M.means machine.now).moves entry.now.place entry.now.state exit) }
    ensures fits { IfOk result (λ r. IfOk r (λ t. IfSome (target exit) (λ q. M.fits machine.now q t))) }
{
    match entry.state.value() {
        Some(state) => machine.step(entry.place, state, exit),
        // unmet: only states of entries whose steps were taken in are forgotten
        None => Err(unmet()),
    }
}

/// Takes in one step of an entry.
fn take<M: Moves>(
    machine: &M,
    store: &mut Store<M::State>,
    found: &mut Vec<Found>,
    at: usize,
    exit: Exit,
) -> Result<Option<u32>, NoMemory>
    requires good { Good (M.means machine.now) (M.fits machine.now) store.old found.old.items }
    requires at { at < length store.old.entries }
    requires exit { (e : Reached M.State) → IsAt store.old.entries at e → Has ((M.means machine.now).exits e.place) exit }
    requires inside { IfSome (target exit) (λ q. q < store.old.size) }
    ensures { IfOk result (Took (M.means machine.now) (M.fits machine.now) store.old store.new found.old.items found.new.items at exit) }
{
    let entry = store.get(at);
    let place = entry.place;
    let Ok(stepped) = step(machine, entry, exit) else {
        return Err(NoMemory);
    };
    match stepped {
        Err(rule) => {
            let new = Found {
                pc: place,
                rule,
                at,
            };
            match note(found, new) {
                Ok(()) => Ok(None),
                Err(fault) => Err(fault),
            }
        }
        Ok(state) => {
            let Some(to) = exit.target() else {
                return Ok(None);
            };
            let Ok(is_there) = store.has(to, &state) else {
                return Err(NoMemory);
            };
            if is_there {
                return Ok(None);
            }
            let Ok(()) = store.push(to, state, at) else {
                return Err(NoMemory);
            };
            Ok(if store.count(to) > MOST_STATES {
                Some(to)
            } else {
                None
            })
        }
    }
}

// Takes in all steps of an entry.
fn visit_all<M: Moves>(
    machine: &M,
    store: &mut Store<M::State>,
    found: &mut Vec<Found>,
    at: usize,
) -> Result<Option<u32>, NoMemory>
    requires good { Good (M.means machine.now) (M.fits machine.now) store.old found.old.items }
    requires at { at < length store.old.entries }
    ensures { IfOk result (Visited (M.means machine.now) (M.fits machine.now) store.old store.new found.old.items found.new.items at) }
{
    let place = store.get(at).place;
    let Ok(exits) = machine.exits(place) else {
        return Err(NoMemory);
    };
    for exit in exits.as_slice() {
        let Ok(full) = take(machine, store, found, at, *exit) else {
            return Err(NoMemory);
        };
        if full.is_some() {
            return Ok(full);
        }
    }
    Ok(None)
}

// Where the states take much memory, those of entries whose steps were taken in are forgotten, but where flows meet.
fn sweep<M: Moves>(machine: &M, store: &mut Store<M::State>, at: usize) -> Result<(), NoMemory>
    ensures { store.new ≡ store.old }
{
    if !store.is_heavy() {
        return Ok(());
    }
    let Ok(meets) = meets_of(store.alloc(), machine) else {
        return Err(NoMemory);
    };
    store.forget(&meets, at);
    Ok(())
}

/// Takes in all steps of an entry.
fn visit<M: Moves>(
    machine: &M,
    store: &mut Store<M::State>,
    found: &mut Vec<Found>,
    at: usize,
) -> Result<Option<u32>, NoMemory>
    requires good { Good (M.means machine.now) (M.fits machine.now) store.old found.old.items }
    requires at { at < length store.old.entries }
    ensures { IfOk result (Visited (M.means machine.now) (M.fits machine.now) store.old store.new found.old.items found.new.items at) }
{
    let Ok(()) = sweep(machine, store, at) else {
        return Err(NoMemory);
    };
    visit_all(machine, store, found, at)
}

/// Takes in all steps of all entries.
pub fn search<M: Moves>(
    machine: &M,
    store: &mut Store<M::State>,
    found: &mut Vec<Found>,
) -> Result<Option<u32>, NoMemory>
    requires { Good (M.means machine.now) (M.fits machine.now) store.old found.old.items }
    ensures { IfOk result (Searched (M.means machine.now) (M.fits machine.now) store.new found.new.items) }
{
    let mut at = 0;
    while at < store.len() {
        let Ok(full) = visit(machine, store, found, at) else {
            return Err(NoMemory);
        };
        if full.is_some() {
            return Ok(full);
        }
        at += 1;
    }
    Ok(None)
}
