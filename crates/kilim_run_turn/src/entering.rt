//! Taking the turn, and waiting for it.
ghost use Rattle.std.specs.Prelude.{◌≡◌, ◌<◌, length};
ghost use Rattle.kilim_run_turn.specs.Views.{cell_at};
ghost use Rattle.kilim_run_turn.specs.Turns.{seat_of, seats_of, shows, lent_cells, IsPassOf, IsInsideOf};

use crate::cells::Cells;
use crate::held::Held;
use crate::lending::Turn;
use crate::pass::Pass;
use crate::steps::{take_out, wait_for};
use atomic_table::Badge;
use std::mem;
use std::sync::Wait;
use std::sync::atomic::Ordering;
use std::time::Duration;

impl<B: Cells + Drop> Turn<B> {
    /// Waits for the turn, and lends the value.
    pub fn enter<R: Wait>(&self, rt: &R, pass: &mut Pass) -> Held<B>
        requires { IsPassOf B.cells self.now pass.old }
        ensures inside { IsInsideOf B.cells self.now pass.new result }
        ensures seat { seat_of pass.new ≡ seat_of pass.old }
        ensures seats { length (B.cells result.value) ≡ seats_of B.cells self.now }
        ensures cell { cell_at (B.cells result.value) (seat_of pass.old) ≡ shows pass.old }
        ensures lent { lent_cells result ≡ B.cells result.value }
    {
        let mut seat = mem::replace(&mut pass.badge, Badge::blank()).into_seat();
        wait_for(
            rt,
            &self.table.shared,
            &self.waiting,
            &mut seat,
            pass.number,
        );
        let value = take_out(&self.table.shared, &mut seat, pass.number);
        Held { value, seat }
    }

    /// Waits a short while, or until it is rung.
    pub fn rest<R: Wait>(&self, rt: &R, pass: &mut Pass)
        requires { IsPassOf B.cells self.now pass.old }
        ensures { pass.new ≡ pass.old }
    {
        let _ = pass;
        let heard = self.bell.load(Ordering::SeqCst);
        let _ = self.resting.fetch_add(1, Ordering::SeqCst);
        self.bell
            .park_timeout(rt, (heard & 0xffff_ffff) as u32, Duration::from_millis(1));
        let _ = self.resting.fetch_sub(1, Ordering::SeqCst);
    }
}
