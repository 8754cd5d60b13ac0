//! Giving the turn back.
ghost use Rattle.std.specs.Prelude.{◌≡◌, ◌<◌, length};
ghost use Rattle.kilim_run_turn.specs.Views.{cell_at};
ghost use Rattle.kilim_run_turn.specs.Turns.{seat_of, shows, lent_cells, IsPassOf, IsInsideOf, KeepsOthers};

use crate::cells::Cells;
use crate::held::Held;
use crate::lending::Turn;
use crate::pass::Pass;
use crate::steps::{post, put_in, wake_one};
use std::marker::Brand;

impl<B: Cells + Drop> Turn<B> {
    /// Gives the value back, in which only the cell of the pass's seat may be another.
    pub fn leave(&self, pass: &mut Pass, held: Held<B>)
        requires inside { IsInsideOf B.cells self.now pass.old held }
        requires others { KeepsOthers (seat_of pass.old) (lent_cells held) (B.cells held.value) }
        ensures pass { IsPassOf B.cells self.now pass.new }
        ensures seat { seat_of pass.new ≡ seat_of pass.old }
        ensures cell { shows pass.new ≡ cell_at (B.cells held.value) (seat_of pass.old) }
    {
        let Held { value, mut seat } = held;
        let shelf = &self.table.shared;
        post::<B, Brand>(shelf, &mut seat, pass.number, &value);
        put_in(shelf, &mut seat, pass.number, value);
        pass.badge = seat.into_badge();
        wake_one(shelf, &self.waiting);
    }
}
