//! Where one local is live: a search from the instructions that read it, against the flow.

ghost use Rattle.std.specs.Prelude.{◌≡◌, ◌<◌, ℕ, true, false, [], replicate, length, get_or, set, if◌then◌else◌, IfOk, OnOk};
ghost use Rattle.kilim_program.specs.lookups.Places.{Rising};
ghost use Rattle.kilim_type_spec.specs.Typed.{Among, reads, writes};
ghost use Rattle.kilim_type_flow.specs.Marks.{AreBefore, EachBelow, Grown, IsColumn, Marks, Opens, ReadsMarked, caught_tos, flow_tos, is_marked};

use crate::before::{entry_of, number_at};
use crate::slots::{slot_read, writes};
use kilim_program::{Instr, Method};
use kilim_units::{NoMemory, Seq};
use std::alloc::Global;

fn is_marked(marks: &[bool], place: u32) -> bool
    ensures { result ≡ is_marked marks.now place }
{
    match marks.get(place as usize) {
        Some(mark) => *mark,
        None => false,
    }
}

// So many places with the same mark.
fn marked_places(alloc: Global, size: usize, all: bool) -> Result<Vec<bool>, NoMemory>
    ensures { IfOk result (λ marks. marks.items ≡ replicate size all) }
{
    let mut marks = Vec::new(alloc);
    for _ in 0..size {
        let Ok(()) = marks.push(all) else {
            return Err(NoMemory);
        };
    }
    Ok(marks)
}

/// Marks a place, where there is one.
pub fn mark(marks: &mut Vec<bool>, place: u32)
    ensures { marks.new.items ≡ set marks.old.items place true }
{
    let at = place as usize;
    if at < marks.len() {
        marks[at] = true;
    }
}

// Marks a place that isn't marked yet, and notes that it waits.
fn visit(marks: &mut Vec<bool>, work: &mut Vec<u32>, place: u32) -> Result<(), NoMemory>
    requires { place < length marks.old.items }
    ensures grown { OnOk result (Grown (λ x. x ≡ place) marks.old.items work.old.items marks.new.items work.new.items) }
    ensures marked { OnOk result (is_marked marks.new.items place ≡ true) }
{
    if is_marked(marks, place) {
        return Ok(());
    }
    mark(marks, place);
    let Ok(()) = work.push(place) else {
        return Err(NoMemory);
    };
    Ok(())
}

// The same where the instruction at a place is open.
fn visit_open(
    passing: &[bool],
    marks: &mut Vec<bool>,
    work: &mut Vec<u32>,
    place: u32,
) -> Result<(), NoMemory>
    requires { place < length marks.old.items }
    ensures grown { OnOk result (Grown (λ x. (x ≡ place) × (is_marked passing.now x ≡ true)) marks.old.items work.old.items marks.new.items work.new.items) }
    ensures marked { OnOk result (is_marked passing.now place ≡ true → is_marked marks.new.items place ≡ true) }
{
    if is_marked(passing, place) {
        let Ok(()) = visit(marks, work, place) else {
            return Err(NoMemory);
        };
        return Ok(());
    }
    Ok(())
}

fn reads(instr: &Instr, local: u16) -> bool
    ensures { result ≡ reads instr.now local }
{
    match slot_read(instr) {
        Some(slot) => slot == local,
        None => false,
    }
}

// The same where an instruction reads a local.
fn visit_read(
    entry: &(u32, Instr),
    local: u16,
    marks: &mut Vec<bool>,
    work: &mut Vec<u32>,
) -> Result<(), NoMemory>
    requires { entry.now.0 < length marks.old.items }
    ensures grown { OnOk result (Grown (λ x. (x ≡ entry.now.0) × (reads entry.now.1 local ≡ true)) marks.old.items work.old.items marks.new.items work.new.items) }
    ensures marked { OnOk result (reads entry.now.1 local ≡ true → is_marked marks.new.items entry.now.0 ≡ true) }
{
    if reads(&entry.1, local) {
        let Ok(()) = visit(marks, work, entry.0) else {
            return Err(NoMemory);
        };
        return Ok(());
    }
    Ok(())
}

// Marks the place of an instruction that doesn't write a local.
fn mark_open(marks: &mut Vec<bool>, entry: &(u32, Instr), local: u16)
    ensures { marks.new.items ≡ (if writes entry.now.1 local then marks.old.items else set marks.old.items entry.now.0 true) }
{
    if writes(&entry.1, local) {
        return;
    }
    mark(marks, entry.0);
}

// The places whose instructions don't write a local.
fn open_places(
    alloc: Global,
    method: &Method,
    size: usize,
    local: u16,
) -> Result<Vec<bool>, NoMemory>
    requires rising { Rising method.now.code }
    requires below { EachBelow size method.now.code }
    ensures { IfOk result (λ marks. Opens method.now local (length method.now.code) marks.items) }
{
    let Ok(mut marks) = marked_places(alloc, size, false) else {
        return Err(NoMemory);
    };
    for at in 0..method.code.len() {
        let entry = entry_of(method, at);
        mark_open(&mut marks, entry, local);
    }
    Ok(marks)
}

// Marks the places whose instructions read a local.
fn start(
    method: &Method,
    local: u16,
    marks: &mut Vec<bool>,
    work: &mut Vec<u32>,
) -> Result<(), NoMemory>
    requires rising { Rising method.now.code }
    requires below { EachBelow (length marks.old.items) method.now.code }
    requires marks { Marks method.now local marks.old.items work.old.items }
    ensures same { OnOk result (length marks.new.items ≡ length marks.old.items) }
    ensures marks { OnOk result (Marks method.now local marks.new.items work.new.items) }
    ensures reads { OnOk result (ReadsMarked method.now local (length method.now.code) marks.new.items) }
{
    for at in 0..method.code.len() {
        let entry = entry_of(method, at);
        let Ok(()) = visit_read(entry, local, marks, work) else {
            return Err(NoMemory);
        };
    }
    Ok(())
}

// Visits those of some places that are open.
fn spread(
    befores: &[u32],
    passing: &[bool],
    marks: &mut Vec<bool>,
    work: &mut Vec<u32>,
) -> Result<(), NoMemory>
    requires { (x : ℕ) → Among befores.now x → x < length marks.old.items }
    ensures grown { OnOk result (Grown (λ x. Among befores.now x × (is_marked passing.now x ≡ true)) marks.old.items work.old.items marks.new.items work.new.items) }
    ensures all { OnOk result ((x : ℕ) → Among befores.now x → is_marked passing.now x ≡ true → is_marked marks.new.items x ≡ true) }
{
    for at in 0..befores.len() {
        let place = number_at(befores, at);
        let Ok(()) = visit_open(passing, marks, work, place) else {
            return Err(NoMemory);
        };
    }
    Ok(())
}

// Visits all of some places, which are open.
fn spread_range(
    range: &[u32],
    everywhere: &[bool],
    marks: &mut Vec<bool>,
    work: &mut Vec<u32>,
) -> Result<(), NoMemory>
    requires { (x : ℕ) → Among range.now x → x < length marks.old.items }
    ensures grown { OnOk result (Grown (λ x. Among range.now x × (is_marked everywhere.now x ≡ true)) marks.old.items work.old.items marks.new.items work.new.items) }
    ensures all { OnOk result ((x : ℕ) → Among range.now x → is_marked everywhere.now x ≡ true → is_marked marks.new.items x ≡ true) }
{
    let Ok(()) = spread(range, everywhere, marks, work) else {
        return Err(NoMemory);
    };
    Ok(())
}

fn row_at(rows: &[Seq<u32>], at: u32) -> &[u32]
    requires { at < length rows.now }
    ensures { result.now ≡ get_or rows.now at [] }
{
    rows[at as usize].as_slice()
}

// Goes on from all places that wait.
fn spread_all(
    method: &Method,
    local: u16,
    befores: &[Seq<u32>],
    caught: &[Seq<u32>],
    passing: &[bool],
    everywhere: &[bool],
    marks: &mut Vec<bool>,
    work: &mut Vec<u32>,
) -> Result<(), NoMemory>
    requires below { EachBelow (length befores.now) method.now.code }
    requires befores { AreBefore flow_tos method.now (length befores.now) befores.now }
    requires caught { AreBefore (caught_tos method.now) method.now (length befores.now) caught.now }
    requires opens { Opens method.now local (length method.now.code) passing.now }
    requires every { (x : ℕ) → x < length befores.now → is_marked everywhere.now x ≡ true }
    requires same { length marks.old.items ≡ length befores.now }
    requires marks { Marks method.now local marks.old.items work.old.items }
    requires reads { ReadsMarked method.now local (length method.now.code) marks.old.items }
    ensures { OnOk result (IsColumn method.now local marks.new.items) }
{
    while let Some(place) = work.pop() {
        let row = row_at(befores, place);
        let Ok(()) = spread(row, passing, marks, work) else {
            return Err(NoMemory);
        };
        let range = row_at(caught, place);
        let Ok(()) = spread_range(range, everywhere, marks, work) else {
            return Err(NoMemory);
        };
    }
    Ok(())
}

/// Where a local is live.
pub fn column(
    alloc: Global,
    method: &Method,
    befores: &[Seq<u32>],
    caught: &[Seq<u32>],
    local: u16,
) -> Result<Vec<bool>, NoMemory>
    requires rising { Rising method.now.code }
    requires below { EachBelow (length befores.now) method.now.code }
    requires befores { AreBefore flow_tos method.now (length befores.now) befores.now }
    requires caught { AreBefore (caught_tos method.now) method.now (length befores.now) caught.now }
    ensures { IfOk result (λ marks. IsColumn method.now local marks.items) }
{
    let Ok(opens) = open_places(alloc, method, befores.len(), local) else {
        return Err(NoMemory);
    };
    let passing = opens.as_slice();
    let size = befores.len();
    let Ok(all) = marked_places(alloc, size, true) else {
        return Err(NoMemory);
    };
    let everywhere = all.as_slice();
    let Ok(mut marks) = marked_places(alloc, size, false) else {
        return Err(NoMemory);
    };
    let mut work = Vec::new(alloc);
    let Ok(()) = start(method, local, &mut marks, &mut work) else {
        return Err(NoMemory);
    };
    let Ok(()) = spread_all(
        method, local, befores, caught, passing, everywhere, &mut marks, &mut work,
    ) else {
        return Err(NoMemory);
    };
    Ok(marks)
}
