//! Turns of several values of one kind are opened, and closed.

ghost use Rattle.std.specs.Prelude.{◌≡◌, ◌≤◌, [], IfOk, length, map};
ghost use Rattle.std.specs.Vec.{vec_capacity};
ghost use Rattle.kilim_run_turn.specs.Turns.{shows};
ghost use Rattle.kilim_mail_turns.specs.Opened.{AreSeated, AreAll, AreOpen};

use kilim_run_turn::{Cells, Pass, Turn};
use kilim_units::NoMemory;
use std::alloc::Global;

/// Takes the values out, and drops them. Takes no memory.
pub fn drop_each<B: Cells + Drop>(turns: Vec<Turn<B>>, passes: Vec<Vec<Pass>>)
    requires { AreAll B.cells turns.items (map (λ p. p.items) passes.items) }
{
    let mut turns = turns;
    let mut passes = passes;
    while !turns.is_empty() {
        let turn = turns.remove(0);
        let all = passes.remove(0);
        drop(turn.close(all));
    }
    turns.destroy_empty();
}

/// Takes the values out, in their order, into a vector that has room for them. Takes no memory.
pub fn close_each<B: Cells + Drop>(
    turns: Vec<Turn<B>>,
    passes: Vec<Vec<Pass>>,
    room: Vec<B>,
) -> Vec<B>
    requires all { AreAll B.cells turns.items (map (λ p. p.items) passes.items) }
    requires none { room.items ≡ [] }
    requires room { length turns.items ≤ vec_capacity room }
    ensures { map B.cells result.items ≡ map (λ p. map shows p.items) passes.items }
{
    let mut turns = turns;
    let mut passes = passes;
    let mut values = room;
    while !turns.is_empty() {
        let turn = turns.remove(0);
        let all = passes.remove(0);
        values.push_reserved(turn.close(all));
    }
    turns.destroy_empty();
    values
}

/// Puts each value away, under a turn of its own: the turns, the passes of each, and the emptied vector, which has room for the values.
/// The error is want of memory.
pub fn open_each<B: Cells + Drop>(
    alloc: Global,
    values: Vec<B>,
    seats: usize,
) -> Result<(Vec<Turn<B>>, Vec<Vec<Pass>>, Vec<B>), NoMemory>
    requires some { 1 ≤ seats }
    requires few { seats ≤ 16 }
    requires seats { AreSeated B.cells seats values.items }
    ensures opened { IfOk result (λ o. AreOpen B.cells seats values.items o.0.items (map (λ p. p.items) o.1.items)) }
    ensures none { IfOk result (λ o. o.2.items ≡ []) }
    ensures room { IfOk result (λ o. length o.0.items ≤ vec_capacity o.2) }
{
    let mut values = values;
    let many = values.len();
    let Ok(()) = values.reserve(0) else {
        return Err(NoMemory);
    };
    let Ok(mut turns) = Vec::with_capacity(alloc, many) else {
        return Err(NoMemory);
    };
    let Ok(mut passes) = Vec::with_capacity(alloc, many) else {
        turns.destroy_empty();
        return Err(NoMemory);
    };
    while !values.is_empty() {
        let value = values.remove(0);
        match Turn::open(alloc, value, seats) {
            Ok((turn, all)) => {
                turns.push_reserved(turn);
                passes.push_reserved(all);
            }
            Err(value) => {
                drop(value);
                drop_each(turns, passes);
                return Err(NoMemory);
            }
        }
    }
    Ok((turns, passes, values))
}
