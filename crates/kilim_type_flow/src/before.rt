//! From where control comes to a place.

ghost use Rattle.std.specs.Prelude.{◌≡◌, ◌++◌, ◌∷◌, ◌+◌, ◌<◌, [], Some, length, get_or, set, slice_get, drop, IfOk, OnOk};
ghost use Rattle.kilim_program.specs.Lengths.{first_place};
ghost use Rattle.kilim_program.specs.lookups.Places.{Rising};
ghost use Rattle.kilim_type_spec.specs.Typed.{covers, edges, handlers_at};
ghost use Rattle.kilim_type_flow.specs.Marks.{AreBefore, AreEmpty, Further, caught_tos, flow_tos};

use crate::{ends_path, jump_targets};
use kilim_program::{Handler, Instr, Method};
use kilim_units::{NoMemory, Seq};
use std::alloc::Global;

/// Where control goes from an instruction, behind which the code goes on at a place.
pub fn edges_of(alloc: Global, instr: &Instr, next: u32) -> Result<Vec<u32>, NoMemory>
    ensures { IfOk result (λ v. v.items ≡ edges instr.now next) }
{
    let Ok(targets) = jump_targets(alloc, instr) else {
        return Err(NoMemory);
    };
    if ends_path(instr) {
        return Ok(targets);
    }
    let Ok(mut all) = Vec::from_slice(alloc, &[next]) else {
        return Err(NoMemory);
    };
    let Ok(()) = all.extend_from_slice(targets.as_slice()) else {
        return Err(NoMemory);
    };
    Ok(all)
}

/// The entry of a number.
pub fn entry_of(method: &Method, at: usize) -> &(u32, Instr)
    requires { at < length method.now.code }
    ensures { slice_get method.now.code at ≡ Some result.now }
{
    method.code.get(at)
}

fn behind_in(code: &[(u32, Instr)], end: u32, at: usize) -> u32
    requires { at < length code.now }
    ensures { result ≡ first_place (drop (at + 1) code.now) end }
{
    if at + 1 < code.len() {
        code[at + 1].0
    } else {
        end
    }
}

/// The place behind the entry of a number.
pub fn place_behind(method: &Method, at: usize) -> u32
    requires { at < length method.now.code }
    ensures { result ≡ first_place (drop (at + 1) method.now.code) method.now.code_length }
{
    let code = method.code.as_slice();
    behind_in(code, method.code_length, at)
}

// One place more before a place, where there is a row for that.
fn push_before(rows: &mut Vec<Seq<u32>>, to: u32, place: u32) -> Result<(), NoMemory>
    ensures { OnOk result (rows.new.items ≡ set rows.old.items to (get_or rows.old.items to [] ++ place ∷ [])) }
{
    let at = to as usize;
    if at < rows.len() {
        let Ok(()) = rows[at].push(place) else {
            return Err(NoMemory);
        };
    }
    Ok(())
}

/// The number at an index.
pub fn number_at(numbers: &[u32], at: usize) -> u32
    requires { at < length numbers.now }
    ensures { slice_get numbers.now at ≡ Some result }
{
    numbers[at]
}

fn add_edges(rows: &mut Vec<Seq<u32>>, place: u32, tos: &[u32]) -> Result<(), NoMemory>
    ensures { OnOk result (Further place tos.now rows.old.items rows.new.items) }
{
    for at in 0..tos.len() {
        let to = number_at(tos, at);
        let Ok(()) = push_before(rows, to, place) else {
            return Err(NoMemory);
        };
    }
    Ok(())
}

fn empty_rows(alloc: Global, size: usize) -> Result<Vec<Seq<u32>>, NoMemory>
    ensures { IfOk result (λ rows. AreEmpty size rows.items) }
{
    let mut rows = Vec::new(alloc);
    for _ in 0..size {
        let row = Seq::new(alloc);
        let Ok(()) = rows.push(row) else {
            return Err(NoMemory);
        };
    }
    Ok(rows)
}

fn covers(handler: &Handler, place: u32) -> bool
    ensures { result ≡ covers handler.now place }
{
    handler.start <= place && place < handler.end
}

/// Where a place leads when the instruction there raises.
pub fn handlers_at(alloc: Global, handlers: &[Handler], place: u32) -> Result<Vec<u32>, NoMemory>
    ensures { IfOk result (λ v. v.items ≡ handlers_at handlers.now place) }
{
    let mut tos = Vec::new(alloc);
    for handler in handlers {
        let Ok(()) = push_handler(&mut tos, handler, place) else {
            return Err(NoMemory);
        };
    }
    Ok(tos)
}

// A handler, where its range has a place.
fn push_handler(tos: &mut Vec<u32>, handler: &Handler, place: u32) -> Result<(), NoMemory>
    ensures { OnOk result (tos.new.items ≡ tos.old.items ++ handlers_at (handler.now ∷ []) place) }
{
    if !covers(handler, place) {
        return Ok(());
    }
    let Ok(()) = tos.push(handler.at) else {
        return Err(NoMemory);
    };
    Ok(())
}

/// For each place below a size the places of the instructions that a handler there covers.
pub fn caught_befores(
    alloc: Global,
    method: &Method,
    size: usize,
) -> Result<Vec<Seq<u32>>, NoMemory>
    requires { Rising method.now.code }
    ensures { IfOk result (λ rows. AreBefore (caught_tos method.now) method.now size rows.items) }
{
    let Ok(mut rows) = empty_rows(alloc, size) else {
        return Err(NoMemory);
    };
    for at in 0..method.code.len() {
        let entry = entry_of(method, at);
        let handlers = method.handlers.as_slice();
        let Ok(tos) = handlers_at(alloc, handlers, entry.0) else {
            return Err(NoMemory);
        };
        let targets = tos.as_slice();
        let Ok(()) = add_edges(&mut rows, entry.0, targets) else {
            return Err(NoMemory);
        };
    }
    Ok(rows)
}

/// For each place below a size the places of the instructions from which control goes there.
pub fn befores(alloc: Global, method: &Method, size: usize) -> Result<Vec<Seq<u32>>, NoMemory>
    requires { Rising method.now.code }
    ensures { IfOk result (λ rows. AreBefore flow_tos method.now size rows.items) }
{
    let Ok(mut rows) = empty_rows(alloc, size) else {
        return Err(NoMemory);
    };
    for at in 0..method.code.len() {
        let entry = entry_of(method, at);
        let next = place_behind(method, at);
        let Ok(tos) = edges_of(alloc, &entry.1, next) else {
            return Err(NoMemory);
        };
        let targets = tos.as_slice();
        let Ok(()) = add_edges(&mut rows, entry.0, targets) else {
            return Err(NoMemory);
        };
    }
    Ok(rows)
}
