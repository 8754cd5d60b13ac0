//! The fibers of the board: those that are ready and those that wait at a mailbox.

ghost use Rattle.std.specs.Prelude.{◌≡◌, ◌<◌, ◌≤◌, ◌+◌, [], ◌∷◌, ◌++◌, length};
ghost use Rattle.std.specs.Vec.{vec_capacity};
ghost use Rattle.std.specs.VecDeque.{deque_capacity};
ghost use Rattle.kilim_run_board.specs.waiting.Parked.{woken, ready_after, parked_after};

use crate::waiting::parked::Parked;
use kilim_run_journal::{Act, Entry};
use kilim_run_model::Waits;
use std::collections::VecDeque;

// Writes an entry, for which there is room.
pub fn note(journal: &mut Vec<Entry>, task: u32, act: Act)
    requires { length journal.old.items < vec_capacity journal.old }
    ensures { journal.new.items ≡ journal.old.items ++ record { task = task; act = act } ∷ [] }
{
    match journal.push(Entry { task, act }) {
        Ok(()) => {}
        Err(_) => unreachable!(),
    }
}

// A fiber is ready, at the back; there is room.
pub fn line_up<F: Drop>(ready: &mut VecDeque<F>, fiber: F)
    requires { length ready.old.items < deque_capacity ready.old }
    ensures items { ready.new.items ≡ ready.old.items ++ fiber ∷ [] }
    ensures room { deque_capacity ready.new ≡ deque_capacity ready.old }
{
    match ready.push_back(fiber) {
        Ok(()) => {}
        Err(_) => unreachable!(),
    }
}

// The first fiber that waits for this is ready, at the back.
pub fn wake<F: Drop>(ready: &mut VecDeque<F>, parked: &mut Parked<F>, waits: Waits)
    requires { length ready.old.items + length parked.old.items ≤ deque_capacity ready.old }
    ensures ready { ready.new.items ≡ ready_after ready.old.items (woken waits parked.old.items) }
    ensures parked { parked.new.items ≡ parked_after parked.old.items (woken waits parked.old.items) }
    ensures ready_room { deque_capacity ready.new ≡ deque_capacity ready.old }
    ensures parked_room { parked.old.room ≤ parked.new.room }
    ensures fits { length ready.new.items + length parked.new.items ≡ length ready.old.items + length parked.old.items }
{
    match parked.wake(waits) {
        Some(waiter) => line_up(ready, waiter.fiber),
        None => {}
    }
}
