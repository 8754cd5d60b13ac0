//! Finding the places of labels.

ghost use Rattle.std.specs.Prelude.{◌≡◌, ◌<◌, ◌∷◌, ◌+◌, ◌==◌, ℕ, List, [], Some, None, length, get_or, set, if◌then◌else◌, IfOk, OnOk};
ghost use Rattle.kilim_weave_spec.specs.Woven as form;
ghost use Rattle.kilim_weave_pieces.specs.Items.{item_of, items_of, label_of, size_of};
ghost use Rattle.kilim_weave_laws.specs.woven_program.labels.Law.{same_label};
ghost use Rattle.kilim_weave_method.specs.Found.{AreFound, Finds, looked, or_first};

use crate::size::place_behind;
use kilim_units::NoMemory;
use kilim_weave_code::{Item, Items, Label, Places, Size};
use std::alloc::Global;

// Room for a number in a table.
fn grow(table: &mut Vec<Option<u32>>, number: usize) -> Result<(), NoMemory>
    ensures same { OnOk result ((k : ℕ) → get_or table.new.items k None ≡ get_or table.old.items k None) }
    ensures room { OnOk result (number < length table.new.items) }
{
    while table.len() <= number {
        let Ok(()) = table.push(None) else {
            return Err(NoMemory);
        };
    }
    Ok(())
}

fn found(table: &Vec<Option<u32>>, at: usize) -> Option<u32>
    ensures { result ≡ get_or table.now.items at None }
{
    match table.get(at) {
        Some(place) => *place,
        None => None,
    }
}

fn write(table: &mut Vec<Option<u32>>, at: usize, place: u32)
    requires { at < length table.old.items }
    ensures { table.new.items ≡ set table.old.items at (Some place) }
{
    table[at] = Some(place);
}

// Sets a number's place, where there is room for it and none is set.
fn fill(table: &mut Vec<Option<u32>>, at: usize, place: u32)
    requires { at < length table.old.items }
    ensures { (k : ℕ) → get_or table.new.items k None ≡ or_first (get_or table.old.items k None) (if k == at then Some place else None) }
{
    match found(table, at) {
        Some(_) => {}
        None => write(table, at, place),
    }
}

// Notes the place of a number, where it has none yet.
fn note(table: &mut Vec<Option<u32>>, number: u32, place: u32) -> Result<(), NoMemory>
    ensures { OnOk result ((k : ℕ) → get_or table.new.items k None ≡ or_first (get_or table.old.items k None) (if k == number then Some place else None)) }
{
    let at = number as usize;
    grow(table, at)?;
    fill(table, at, place);
    Ok(())
}

fn stand(places: &mut Places, label: Label) -> Result<(), NoMemory>
    ensures first { OnOk result ((l : form.Label) → looked places.exit.now l ≡ or_first (looked places.entry.now l) (if same_label l (label_of label) then Some places.entry.now.end else None)) }
    ensures end { OnOk result (places.exit.now.end ≡ places.entry.now.end) }
{
    let at = places.end;
    match label {
        Label::Old(place) => note(&mut places.old, place, at),
        Label::Resumes(number) => note(&mut places.blocks, number, at),
    }
}

fn advance(places: &mut Places, size: Size) -> Result<(), NoMemory>
    ensures { OnOk result (places.exit.now ≡ record places.entry.now { end = places.entry.now.end + size_of size places.entry.now.end }) }
{
    let next = place_behind(places.end, size)?;
    places.end = next;
    Ok(())
}

fn put(places: &mut Places, item: Item) -> Result<(), NoMemory>
    ensures { OnOk result ((all : List form.Item) → (rest : List form.Item) → Finds all places.entry.now (item_of item ∷ rest) → Finds all places.exit.now rest) }
{
    match item {
        Item::Stands(label, frame) => {
            drop(frame);
            stand(places, label)
        }
        Item::Adds(instr, size, _) => {
            drop(instr);
            advance(places, size)
        }
    }
}

/// No places. Takes no memory.
pub fn nowhere(alloc: Global) -> Places
    ensures { result ≡ record { old = []; blocks = []; end = 0 } }
{
    Places {
        old: Vec::new(alloc),
        blocks: Vec::new(alloc),
        end: 0,
    }
}

/// The places of the labels of some items, which stand one behind the other from place 0 on.
pub fn places_of(alloc: Global, items: Items) -> Result<Places, NoMemory>
    ensures { IfOk result (λ places. AreFound (items_of items) places) }
{
    let mut left = items;
    let mut places = nowhere(alloc);
    while let Some(item) = left.take() {
        let Ok(()) = put(&mut places, item) else {
            return Err(NoMemory);
        };
    }
    Ok(places)
}
