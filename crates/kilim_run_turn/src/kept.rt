//! What lies in the slot, and the rule of the table.
use crate::cells::Cells;
use crate::view::View;
use atomic_table::{Badge, Seat, Shared, TableRule};
use std::snapshot::Snapshot;

/// The value and, beside it, the note: a seat without slots that knows the list of all cells.
#[derive(Drop)]
pub struct Kept<B> {
    pub value: B,
    pub note: Badge<View>,
}

pub struct Rule;

impl<B: Cells> TableRule<Option<Kept<B>>, View, Snapshot<B>> for Rule {
    ghost use Rattle.std.specs.Prelude.{length};
    ghost use Rattle.kilim_run_turn.specs.Views.{fresh};
    ghost use Rattle.kilim_run_turn.specs.Rule.{Holds, Lies};

    ghost holds = { λ key. Holds (Lies B.cells) (length (B.cells key.value)) };

    ghost first = { λ key. fresh (B.cells key.value) };
}

/// What the workers share.
pub type Shelf<B> = Shared<Option<Kept<B>>, View, Snapshot<B>, Rule>;

/// A seat at the table.
pub type Chair<B> = Seat<Option<Kept<B>>, View>;
