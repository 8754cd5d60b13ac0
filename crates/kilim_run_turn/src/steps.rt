//! What a worker's seat does on the table: it waits for the turn, takes the value out, posts its cell, and puts the
//! value in again.
ghost use Rattle.std.specs.Prelude.{◌≡◌, ℕ, ◌+◌, ◌<◌, List, [], ◌∷◌, length, None};
ghost use Rattle.kilim_run_turn.specs.Views.{cell_at, worker, holder, posted};
ghost use Rattle.kilim_run_turn.specs.Rule.{Lies};
ghost use Rattle.kilim_run_turn.specs.Steps.{IsInside, IsLoaded, IsTold};
ghost use Rattle.kilim_run_turn.specs.Shelves.{IsAt};

use crate::cells::Cells;
use crate::kept::{Chair, Kept, Shelf};
use crate::plays::{Give, LayDown, NewCell, Post, Take, TakeIn, Tell};
use std::hint::spin_loop;
use std::sync::Wait;
use std::sync::atomic::{AtomicU64, Ordering};

// Who waits for the turn tries so often before it sleeps, and reads the word so often before each try.
const TRIES: u32 = 16;

const READS: u32 = 16;

// Before a try: says that it is about to sleep, if it tried often.
fn announce(waiting: &AtomicU64, tries: u32) {
    if tries == TRIES {
        let _ = waiting.fetch_add(1, Ordering::SeqCst);
    }
}

// Behind the last try: says that it sleeps no more.
fn retract(waiting: &AtomicU64, tries: u32) {
    if tries >= TRIES {
        let _ = waiting.fetch_sub(1, Ordering::SeqCst);
    }
}

// Reads the word until it is free, for a moment.
fn read_on<B: Cells>(shelf: &Shelf<B>)
    requires { shelf.now.table_id.words ≡ 1 }
{
    for _ in 0..READS {
        if shelf.peek(0) == 0 {
            return;
        }
        spin_loop();
    }
}

// Between two tries: reads the word until it is free, for a moment, or sleeps while it is what was found. How often it tried then.
fn pause<B: Cells, R: Wait>(rt: &R, shelf: &Shelf<B>, found: u64, tries: u32) -> u32
    requires { shelf.now.table_id.words ≡ 1 }
{
    if tries < TRIES {
        read_on(shelf);
        return tries + 1;
    }
    shelf.park(rt, 0, (found & 0xffff_ffff) as u32);
    TRIES + 1
}

// Wakes one of those that wait for the turn, if any sleeps.
pub(crate) fn wake_one<B: Cells>(shelf: &Shelf<B>, waiting: &AtomicU64)
    requires { shelf.now.table_id.words ≡ 1 }
{
    if waiting.load(Ordering::SeqCst) > 0 {
        shelf.wake_one(0);
    }
}

// Waits until it has the turn.
pub(crate) fn wait_for<B: Cells, R: Wait>(
    rt: &R,
    shelf: &Shelf<B>,
    waiting: &AtomicU64,
    seat: &mut Chair<B>,
    number: usize,
)
    requires at { IsAt shelf.now.table_id seat.old.table_id }
    requires few { number < 16 }
    requires outside { seat.old.me ≡ (worker shelf.now.table_id (length (B.cells shelf.now.key.value)) number seat.old.me.0.shown, []) }
    ensures at { seat.new.table_id ≡ seat.old.table_id }
    ensures inside { IsInside (Lies B.cells) seat.old.me seat.new.me }
{
    let mut tries = 0;
    for _ in rt.forever() {
        announce(waiting, tries);
        let found = shelf.compare_exchange::<Take>(seat, 0, 0, number as u64 + 1);
        if found == 0 {
            retract(waiting, tries);
            return;
        }
        tries = pause(rt, shelf, found, tries);
    }
    unreachable!()
}

// Takes the value out of the slot, and takes in the note that lies beside it.
pub(crate) fn take_out<B: Cells>(shelf: &Shelf<B>, seat: &mut Chair<B>, number: usize) -> B
    requires at { IsAt shelf.now.table_id seat.old.table_id }
    requires inside { IsLoaded (Lies B.cells) shelf.now.table_id (length (B.cells shelf.now.key.value)) number seat.old.me }
    ensures at { seat.new.table_id ≡ seat.old.table_id }
    ensures inside { seat.new.me ≡ (holder shelf.now.table_id (length (B.cells shelf.now.key.value)) number seat.old.me.0.shown (B.cells result), (0, None) ∷ []) }
    ensures told { IsTold seat.new.me.0 }
{
    let found = shelf.exchange(seat, 0, None);
    let Some(Kept { value, note }) = found else {
        unreachable!()
    };
    shelf.join_seat::<TakeIn>(seat, note.into_seat());
    shelf.load::<Tell>(seat, 0);
    value
}

// Writes the new cell into the list and the seat's view.
pub(crate) fn post<B: Cells, W: NewCell>(
    shelf: &Shelf<B>,
    seat: &mut Chair<B>,
    number: usize,
    value: &B,
)
    requires at { IsAt shelf.now.table_id seat.old.table_id }
    requires inside { seat.old.me ≡ (holder shelf.now.table_id (length (B.cells shelf.now.key.value)) number (cell_at seat.old.me.0.shown 0 ∷ []) seat.old.me.0.list, seat.old.me.1) }
    requires cell { W.cell ≡ cell_at (B.cells value.now) number }
    ensures at { seat.new.table_id ≡ seat.old.table_id }
    ensures posted { seat.new.me ≡ (posted (cell_at (B.cells value.now) number) seat.old.me.0, seat.old.me.1) }
{
    shelf.load::<Post<W>>(seat, 0);
}

// Puts the value and a new note into the slot, and gives the turn back.
pub(crate) fn put_in<B: Cells>(shelf: &Shelf<B>, seat: &mut Chair<B>, number: usize, value: B)
    requires at { IsAt shelf.now.table_id seat.old.table_id }
    requires inside { seat.old.me ≡ (holder shelf.now.table_id (length (B.cells shelf.now.key.value)) number seat.old.me.0.shown (B.cells value), (0, None) ∷ []) }
    ensures at { seat.new.table_id ≡ seat.old.table_id }
    ensures outside { seat.new.me ≡ (worker shelf.now.table_id (length (B.cells shelf.now.key.value)) number seat.old.me.0.shown, []) }
{
    let note = shelf.split_seat::<LayDown>(seat).into_badge();
    let left = shelf.exchange(seat, 0, Some(Kept { value, note }));
    let None = left else { unreachable!() };
    shelf.store::<Give>(seat, 0, 0);
}
