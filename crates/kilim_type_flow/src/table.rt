//! Where each local is live.

ghost use Rattle.std.specs.Prelude.{◌≡◌, ◌⊎◌, ◌≤◌, ◌<◌, ◌^◌, ℕ, true, false, List, Bool, length, IfOk};
ghost use Rattle.kilim_program.specs.lookups.Places.{Rising};
ghost use Rattle.kilim_type_spec.specs.Typed.{IsLive, reads};
ghost use Rattle.kilim_type_flow.specs.Marks.{AreBefore, AreColumns, EachBelow, EachReadBelow, IsColumn, NoneReads, ReadMarked, caught_tos, flow_tos, is_marked};
ghost use Rattle.kilim_type_flow.specs.Table.{live_in};

use crate::before::{befores, caught_befores, entry_of};
use crate::column::{column, mark};
use crate::slots::slot_read;
use kilim_program::{Instr, Method};
use kilim_units::{NoMemory, Seq};
use std::alloc::Global;
use std::marker::Model;

/// Which locals are live at each place of a method. Contracts see a column for each local, with a mark for each place; a local that
/// isn't read has an empty one.
#[derive(Drop)]
pub struct LiveTable {
    columns: Vec<Seq<bool>>,
}

impl Model for LiveTable {
    ghost Value = { List (List Bool) };

    ghost view = { λ t. t.columns.items };
}

fn larger(a: usize, b: usize) -> usize
    ensures first { a ≤ result }
    ensures second { b ≤ result }
    ensures either { (result ≡ a) ⊎ (result ≡ b) }
{
    if a < b { b } else { a }
}

// A number above every place of some code.
fn places_below(method: &Method) -> usize
    ensures { EachBelow result method.now.code }
{
    let mut most = 0usize;
    for at in 0..method.code.len() {
        let entry = entry_of(method, at);
        most = larger(most, entry.0 as usize + 1);
    }
    most
}

fn slot_behind(instr: &Instr) -> usize
    ensures small { result ≤ 2 ^ 16 }
    ensures behind { (k : ℕ) → reads instr.now k ≡ true → k < result }
{
    match slot_read(instr) {
        Some(slot) => usize::from(slot) + 1,
        None => 0,
    }
}

// A number above every local that some code reads.
fn locals_below(method: &Method) -> usize
    ensures small { result ≤ 2 ^ 16 }
    ensures behind { EachReadBelow result method.now.code }
{
    let mut most = 0usize;
    for at in 0..method.code.len() {
        let entry = entry_of(method, at);
        most = larger(most, slot_behind(&entry.1));
    }
    most
}

// Marks a local that an instruction reads.
fn mark_read(marks: &mut Vec<bool>, instr: &Instr)
    requires { (k : ℕ) → reads instr.now k ≡ true → k < length marks.old.items }
    ensures same { length marks.new.items ≡ length marks.old.items }
    ensures keeps { (k : ℕ) → is_marked marks.old.items k ≡ true → is_marked marks.new.items k ≡ true }
    ensures marked { (k : ℕ) → reads instr.now k ≡ true → is_marked marks.new.items k ≡ true }
{
    match slot_read(instr) {
        Some(slot) => mark(marks, slot as u32),
        None => {}
    }
}

// For each local below a number whether some instruction reads it.
fn read_locals(alloc: Global, method: &Method, most: usize) -> Result<Vec<bool>, NoMemory>
    requires { EachReadBelow most method.now.code }
    ensures same { IfOk result (λ marks. length marks.items ≡ most) }
    ensures marked { IfOk result (λ marks. ReadMarked (length method.now.code) marks.items method.now.code) }
{
    let Ok(mut marks) = vec![in alloc; false; most] else {
        return Err(NoMemory);
    };
    for at in 0..method.code.len() {
        let entry = entry_of(method, at);
        mark_read(&mut marks, &entry.1);
    }
    Ok(marks)
}

fn flag_at(flags: &[bool], at: usize) -> bool
    requires { at < length flags.now }
    ensures { result ≡ is_marked flags.now at }
{
    flags[at]
}

// The column of a local; it is empty where none reads the local.
fn column_if(
    alloc: Global,
    method: &Method,
    befores: &[Seq<u32>],
    caught: &[Seq<u32>],
    is_read: bool,
    local: u16,
) -> Result<Seq<bool>, NoMemory>
    requires rising { Rising method.now.code }
    requires below { EachBelow (length befores.now) method.now.code }
    requires befores { AreBefore flow_tos method.now (length befores.now) befores.now }
    requires caught { AreBefore (caught_tos method.now) method.now (length befores.now) caught.now }
    requires unread { is_read ≡ false → NoneReads method.now local }
    ensures { IfOk result (λ marks. IsColumn method.now local marks) }
{
    if is_read {
        let Ok(marks) = column(alloc, method, befores, caught, local) else {
            return Err(NoMemory);
        };
        return Ok(Seq::from_vec(marks));
    }
    Ok(Seq::new(alloc))
}

fn columns_of(
    alloc: Global,
    method: &Method,
    befores: &[Seq<u32>],
    caught: &[Seq<u32>],
    read: &[bool],
) -> Result<Vec<Seq<bool>>, NoMemory>
    requires rising { Rising method.now.code }
    requires below { EachBelow (length befores.now) method.now.code }
    requires befores { AreBefore flow_tos method.now (length befores.now) befores.now }
    requires caught { AreBefore (caught_tos method.now) method.now (length befores.now) caught.now }
    requires marked { ReadMarked (length method.now.code) read.now method.now.code }
    requires small { length read.now ≤ 2 ^ 16 }
    ensures same { IfOk result (λ columns. length columns.items ≡ length read.now) }
    ensures each { IfOk result (λ columns. AreColumns method.now (length columns.items) columns.items) }
{
    let mut columns = Vec::new(alloc);
    for local in 0..read.len() {
        let is_read = flag_at(read, local);
        let Ok(column) = column_if(alloc, method, befores, caught, is_read, local as u16) else {
            return Err(NoMemory);
        };
        let Ok(()) = columns.push(column) else {
            return Err(NoMemory);
        };
    }
    Ok(columns)
}

/// Which locals are live at each place of a method (after the flow edges of JVMS 4.10.1.6, and the edges to handlers): those that some
/// path from there reads before it writes them. Of each local that is read the time is linear in the instructions and edges.
pub fn live(alloc: Global, method: &Method) -> Result<LiveTable, NoMemory>
    requires { Rising method.now.code }
    ensures { IfOk result (λ table. IsLive method.now (live_in table)) }
{
    let size = places_below(method);
    let Ok(rows) = befores(alloc, method, size) else {
        return Err(NoMemory);
    };
    let before = rows.as_slice();
    let Ok(ranges) = caught_befores(alloc, method, size) else {
        return Err(NoMemory);
    };
    let caught = ranges.as_slice();
    let most = locals_below(method);
    let Ok(flags) = read_locals(alloc, method, most) else {
        return Err(NoMemory);
    };
    let read = flags.as_slice();
    let Ok(columns) = columns_of(alloc, method, before, caught, read) else {
        return Err(NoMemory);
    };
    Ok(LiveTable { columns })
}

impl LiveTable {
    /// Whether a local is live at a place; of numbers that are no places or locals, no. Takes no memory.
    pub fn is_live(&self, place: u32, local: u16) -> bool
        ensures { result ≡ live_in self.now place local }
    {
        match self.columns.get(usize::from(local)) {
            Some(column) => match column.as_slice().get(place as usize) {
                Some(mark) => *mark,
                None => false,
            },
            None => false,
        }
    }
}
