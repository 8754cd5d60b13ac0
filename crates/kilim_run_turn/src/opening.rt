//! Putting the value away, and making the passes.
ghost use Rattle.std.specs.Prelude.{◌≡◌, ◌≤◌, ◌<◌, ◌+◌, [], ◌∷◌, length, map, vec_len, vec_capacity, IfOk, IfErr, None};
ghost use Rattle.kilim_run_turn.specs.Views.{cell_at, fresh, opener, holder};
ghost use Rattle.kilim_run_turn.specs.Shelves.{IsAt};
ghost use Rattle.kilim_run_turn.specs.Turns.{seats_of, shows, AreAllOf, AreMade};

use crate::cells::Cells;
use crate::kept::{Chair, Shelf};
use crate::lending::Turn;
use crate::pass::Pass;
use crate::plays::{Begin, Learn, NextWorker, TableName};
use crate::steps::put_in;
use atomic_table::{Badge, Table};
use std::alloc::Global;
use std::marker::Brand;
use std::snapshot::Snapshot;
use std::sync::atomic::AtomicU64;

// The first seat learns which table it is of.
fn name<B: Cells, W: TableName>(shelf: &Shelf<B>, seat: &mut Chair<B>)
    requires at { IsAt shelf.now.table_id seat.old.table_id }
    requires table { W.table ≡ shelf.now.table_id }
    requires some { 0 < length (B.cells shelf.now.key.value) }
    requires fresh { seat.old.me ≡ (fresh (B.cells shelf.now.key.value), []) }
    ensures at { seat.new.table_id ≡ seat.old.table_id }
    ensures opening { seat.new.me ≡ (opener shelf.now.table_id (length (B.cells shelf.now.key.value)) 1 (B.cells shelf.now.key.value), []) }
{
    shelf.load::<Learn<W>>(seat, 0);
}

// Makes a pass for each further seat.
fn hand_out<B: Cells>(shelf: &Shelf<B>, seat: &mut Chair<B>, passes: &mut Vec<Pass>, seats: usize)
    requires at { IsAt shelf.now.table_id seat.old.table_id }
    requires some { 1 ≤ seats }
    requires seats { seats ≡ length (B.cells shelf.now.key.value) }
    requires opening { seat.old.me ≡ (opener shelf.now.table_id seats 1 (B.cells shelf.now.key.value), []) }
    requires room { (vec_len passes.old ≡ 1) × (seats ≤ vec_capacity passes.old) }
    ensures at { seat.new.table_id ≡ seat.old.table_id }
    ensures opening { seat.new.me ≡ (opener shelf.now.table_id seats seats (B.cells shelf.now.key.value), []) }
    ensures count { vec_len passes.new ≡ seats }
    ensures made { AreMade 1 shelf.now.table_id seats (B.cells shelf.now.key.value) passes.new.items }
{
    for number in 1..seats {
        let badge = shelf.split_seat::<NextWorker>(seat).into_badge();
        passes.push_reserved(Pass { badge, number });
    }
}

// The opening is over: the first seat takes the empty slot.
fn begin<B: Cells>(shelf: &Shelf<B>, seat: &mut Chair<B>, seats: usize)
    requires at { IsAt shelf.now.table_id seat.old.table_id }
    requires opening { seat.old.me ≡ (opener shelf.now.table_id seats seats (B.cells shelf.now.key.value), []) }
    ensures at { seat.new.table_id ≡ seat.old.table_id }
    ensures inside { seat.new.me ≡ (holder shelf.now.table_id seats 0 (cell_at (B.cells shelf.now.key.value) 0 ∷ []) (B.cells shelf.now.key.value), (0, None) ∷ []) }
{
    shelf.store::<Begin>(seat, 0, 1);
}

// Makes the passes, and puts the value in.
fn fill<B: Cells>(
    shelf: &Shelf<B>,
    mut seat: Chair<B>,
    mut passes: Vec<Pass>,
    value: B,
    seats: usize,
) -> Vec<Pass>
    requires at { IsAt shelf.now.table_id seat.table_id }
    requires some { 1 ≤ seats }
    requires seats { seats ≡ length (B.cells shelf.now.key.value) }
    requires value { B.cells value ≡ B.cells shelf.now.key.value }
    requires fresh { seat.me ≡ (fresh (B.cells shelf.now.key.value), []) }
    requires room { (vec_len passes ≡ 0) × (seats ≤ vec_capacity passes) }
    ensures count { length result.items ≡ seats }
    ensures made { AreMade 0 shelf.now.table_id seats (B.cells shelf.now.key.value) result.items }
{
    name::<B, Brand>(shelf, &mut seat);
    passes.push_reserved(Pass {
        badge: Badge::blank(),
        number: 0,
    });
    hand_out(shelf, &mut seat, &mut passes, seats);
    begin(shelf, &mut seat, seats);
    put_in(shelf, &mut seat, 0, value);
    passes[0] = Pass {
        badge: seat.into_badge(),
        number: 0,
    };
    passes
}

impl<B: Cells + Drop> Turn<B> {
    /// Puts the value away, and makes a pass for each seat, in order. Without memory the value comes back.
    pub fn open(alloc: Global, value: B, seats: usize) -> Result<(Turn<B>, Vec<Pass>), B>
        requires some { 1 ≤ seats }
        requires few { seats ≤ 16 }
        requires seats { seats ≡ length (B.cells value) }
        ensures passes { IfOk result (λ t. AreAllOf B.cells t.0 t.1.items) }
        ensures seats { IfOk result (λ t. seats_of B.cells t.0 ≡ seats) }
        ensures cells { IfOk result (λ t. map shows t.1.items ≡ B.cells value) }
        ensures refused { IfErr result (λ v. v ≡ value) }
    {
        let Ok(passes) = Vec::with_capacity(alloc, seats) else {
            return Err(value);
        };
        let key = Snapshot::of(&value);
        let Ok((table, seat)) = Table::vacant(alloc, &[seats as u64 + 1], 1, &key) else {
            return Err(value);
        };
        let passes = fill(&table.shared, seat, passes, value, seats);
        let turn = Turn {
            table,
            waiting: AtomicU64::new(0),
            resting: AtomicU64::new(0),
            bell: AtomicU64::new(0),
        };
        Ok((turn, passes))
    }
}
