//! Taking the value out again.
ghost use Rattle.std.specs.Prelude.{◌≡◌, ◌<◌, [], length, map, All};
ghost use Rattle.kilim_run_turn.specs.Views.{worker};
ghost use Rattle.kilim_run_turn.specs.Rule.{Lies};
ghost use Rattle.kilim_run_turn.specs.Steps.{IsInside};
ghost use Rattle.kilim_run_turn.specs.Shelves.{IsAt};
ghost use Rattle.kilim_run_turn.specs.Turns.{shows, AreAllOf, AreAllAt};

use crate::cells::Cells;
use crate::kept::{Chair, Shelf};
use crate::lending::Turn;
use crate::pass::Pass;
use crate::plays::{TakeLast, TakeOver};
use crate::steps::take_out;

// One seat, which has taken over all the passes' numbers. Each pass takes over what has taken over all later ones.
fn gather<B: Cells>(shelf: &Shelf<B>, mut passes: Vec<Pass>) -> Chair<B>
    requires at { IsAt shelf.now.table_id shelf.now.table_id }
    requires some { 0 < length passes.items }
    requires all { AreAllAt shelf.now.table_id (length (B.cells shelf.now.key.value)) passes.items }
    ensures at { result.table_id ≡ shelf.now.table_id }
    ensures all { result.me ≡ (worker shelf.now.table_id (length (B.cells shelf.now.key.value)) 0 (map shows passes.items), []) }
{
    let last = passes.pop().unwrap();
    let mut seat = last.badge.into_seat();
    while let Some(pass) = passes.pop() {
        let later = seat;
        seat = pass.badge.into_seat();
        shelf.join_seat::<TakeOver>(&mut seat, later);
    }
    seat
}

// Takes the turn, which nobody else can have.
fn take_last<B: Cells>(shelf: &Shelf<B>, seat: &mut Chair<B>)
    requires at { IsAt shelf.now.table_id seat.old.table_id }
    requires all { length seat.old.me.0.shown ≡ length (B.cells shelf.now.key.value) }
    requires outside { seat.old.me ≡ (worker shelf.now.table_id (length (B.cells shelf.now.key.value)) 0 seat.old.me.0.shown, []) }
    ensures at { seat.new.table_id ≡ seat.old.table_id }
    ensures inside { IsInside (Lies B.cells) seat.old.me seat.new.me }
{
    shelf.compare_exchange::<TakeLast>(seat, 0, 0, 1);
}

impl<B: Cells + Drop> Turn<B> {
    /// Takes all passes, and hands out the value. It waits for nobody.
    pub fn close(self, passes: Vec<Pass>) -> B
        requires { AreAllOf B.cells self passes.items }
        ensures { B.cells result ≡ map shows passes.items }
    {
        let Turn {
            table,
            waiting,
            resting,
            bell,
        } = self;
        drop(waiting);
        drop(resting);
        drop(bell);
        let mut seat = gather(&table.shared, passes);
        take_last(&table.shared, &mut seat);
        take_out(&table.shared, &mut seat, 0)
    }
}
