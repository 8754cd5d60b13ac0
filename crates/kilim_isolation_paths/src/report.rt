//! Reports, and the call that makes them.

ghost use Rattle.std.specs.Prelude.{◌≡◌, ◌<◌, ◌≤◌, ◌++◌, ◌∷◌, [], ℕ, List, Option, Result, length, slice_get, IsTrue, ◌↔◌, IfOk, OnOk, OnErr, IfSome};
ghost use Rattle.std.specs.List.{AllByRecursion, AllZip};
ghost use Rattle.kilim_isolation_paths.specs.Paths.{Machine, Has, ArrivesBy};
ghost use Rattle.kilim_isolation_paths.specs.Search.{AreLinked, Good, IsFound, IsAt, IsReportOf};
ghost use Rattle.kilim_isolation_paths.specs.Answer.{IsAnswer};
ghost use Rattle.kilim_isolation_paths.specs.declared.store.Reached.{Reached};

use crate::found::Found;
use crate::machine::{Moves, State};
use crate::search::search;
use crate::store::Store;
use kilim_units::{NoMemory, Seq};
use std::alloc::Global;

/// A rule that is broken at a place, and a path that breaks it.
#[derive(Drop)]
pub struct Report {
    pub pc: u32,
    pub rule: u8,
    pub path: Seq<u32>,
}

// So many bytes of states are much.
const MUCH: usize = 1 << 28;

/// What the exploration answers.
#[derive(Drop)]
pub enum Explored {
    Faults(Seq<Report>),
    Crowded(u32),
}

/// The path by which an entry was reached.
fn path_to<S: State>(alloc: Global, store: &Store<S>, at: usize) -> Result<Seq<u32>, NoMemory>
    requires linked { (m : Machine S) × AreLinked m store.now.entries }
    requires at { at < length store.now.entries }
    ensures { IfOk result (λ path. (m : Machine S) (e : Reached S) → AreLinked m store.now.entries → IsAt store.now.entries at e → ArrivesBy m path e.place e.state) }
{
    let mut path = Vec::new(alloc);
    let mut k = at;
    let Ok(()) = path.push(store.get(k).place) else {
        return Err(NoMemory);
    };
    while k > 0 {
        k = store.get(k).from;
        let Ok(()) = path.push(store.get(k).place) else {
            return Err(NoMemory);
        };
    }
    path.reverse();
    Ok(Seq::from_vec(path))
}

/// A report for each fault.
fn reports<S: State>(
    alloc: Global,
    store: &Store<S>,
    found: &[Found],
) -> Result<Seq<Report>, NoMemory>
    requires linked { (m : Machine S) × AreLinked m store.now.entries }
    requires found { (m : Machine S) × AllByRecursion (IsFound m store.now.entries) found.now }
    ensures { IfOk result (λ rs. (m : Machine S) → AreLinked m store.now.entries → AllByRecursion (IsFound m store.now.entries) found.now → AllZip (IsReportOf m) found.now rs) }
{
    let mut reports = Seq::new(alloc);
    for fault in found {
        let Ok(path) = path_to(alloc, store, fault.at) else {
            return Err(NoMemory);
        };
        let report = Report {
            pc: fault.pc,
            rule: fault.rule,
            path,
        };
        let Ok(()) = reports.push(report) else {
            return Err(NoMemory);
        };
    }
    Ok(reports)
}

// The store where only the entry was reached.
fn started<M: Moves>(alloc: Global, machine: &M, most: usize) -> Result<Store<M::State>, NoMemory>
    ensures { IfOk result (λ store. Good (M.means machine.now) (M.fits machine.now) store []) }
{
    let Ok(entry) = machine.entry() else {
        return Err(NoMemory);
    };
    let Ok(mut store) = Store::new(alloc, machine.size(), most) else {
        return Err(NoMemory);
    };
    let Ok(()) = store.push(0, entry, 0) else {
        return Err(NoMemory);
    };
    Ok(store)
}

// What the search from there answers.
fn answer<M: Moves>(
    alloc: Global,
    machine: &M,
    store: &mut Store<M::State>,
    found: &mut Vec<Found>,
) -> Result<Explored, NoMemory>
    requires { Good (M.means machine.now) (M.fits machine.now) store.old found.old.items }
    ensures { IfOk result (λ answer. IsAnswer (M.means machine.now) answer) }
{
    let Ok(full) = search(machine, store, found) else {
        return Err(NoMemory);
    };
    if let Some(place) = full {
        return Ok(Explored::Crowded(place));
    }
    match reports(alloc, store, found.as_slice()) {
        Ok(reports) => Ok(Explored::Faults(reports)),
        Err(fault) => Err(fault),
    }
}

// The same, and whether states were forgotten, which is so from so many bytes of states on.
fn explore_within<M: Moves>(
    alloc: Global,
    machine: &M,
    most: usize,
) -> (Result<Explored, NoMemory>, bool)
    ensures { IfOk result.0 (λ answer. IsAnswer (M.means machine.now) answer) }
{
    let Ok(mut store) = started(alloc, machine, most) else {
        return (Err(NoMemory), false);
    };
    let mut found = Vec::new(alloc);
    let answered = answer(alloc, machine, &mut store, &mut found);
    (answered, store.has_forgotten())
}

/// Exactly the faults of all paths, or a place that more than 256 states reach. Where the states take much memory, those of straight code
/// are forgotten; where one of them is asked for again, the search begins once more, and forgets none.
pub fn explore<M: Moves>(alloc: Global, machine: &M) -> Result<Explored, NoMemory>
    ensures { IfOk result (λ answer. IsAnswer (M.means machine.now) answer) }
{
    let (first, has_forgotten) = explore_within(alloc, machine, MUCH);
    if first.is_ok() || !has_forgotten {
        return first;
    }
    drop(first);
    let (second, _) = explore_within(alloc, machine, usize::MAX);
    second
}
