//! The kinds of atomic step, and what each tells. These types are for the proofs alone.
use crate::cells::Cells;
use crate::kept::Kept;
use crate::view::View;
use atomic_table::{Join, Play, Split};
use std::marker::{Brand, PhantomData};

/// Which table it is. A call picks it.
pub trait TableName {
    ghost use Rattle.atomic_table.specs.Seated.{TableId};

    ghost table: { TableId };
}

impl TableName for Brand {
    ghost use Rattle.kilim_run_turn.specs.Views.{no_table};

    ghost table = { no_table };
}

/// The first seat learns which table it is of.
pub struct Learn<W> {
    marker: PhantomData<W>,
}

impl<B, W: TableName> Play<Option<Kept<B>>, View> for Learn<W> {
    ghost use Rattle.kilim_run_turn.specs.Steps.{Learned};

    ghost then = { Learned W.table };
}

/// The first seat gives out one more number.
pub struct NextWorker;

impl Split<View> for NextWorker {
    ghost use Rattle.kilim_run_turn.specs.Views.{made_more, next_worker};

    ghost left = { made_more };

    ghost right = { next_worker };
}

/// The opening is over, and the first seat takes the empty slot.
pub struct Begin;

impl<B> Play<Option<Kept<B>>, View> for Begin {
    ghost use Rattle.kilim_run_turn.specs.Steps.{Began};

    ghost then = { Began };
}

/// A worker's seat takes the turn, if it is free.
pub struct Take;

impl<B: Cells> Play<Option<Kept<B>>, View> for Take {
    ghost use Rattle.kilim_run_turn.specs.Rule.{Lies};
    ghost use Rattle.kilim_run_turn.specs.Steps.{Took};

    ghost then = { Took (Lies B.cells) };
}

/// The one seat that is left takes the turn, which is free.
pub struct TakeLast;

impl<B: Cells> Play<Option<Kept<B>>, View> for TakeLast {
    ghost use Rattle.kilim_run_turn.specs.Rule.{Lies};
    ghost use Rattle.kilim_run_turn.specs.Steps.{TookLast};

    ghost then = { TookLast (Lies B.cells) };
}

/// A seat that is inside takes in the note.
pub struct TakeIn;

impl Join<View> for TakeIn {
    ghost use Rattle.kilim_run_turn.specs.Views.{joined, spent};

    ghost both = { joined };

    ghost spent = { spent };
}

/// A seat that has the list is told that the list's entries at its numbers are its cells.
pub struct Tell;

impl<B> Play<Option<Kept<B>>, View> for Tell {
    ghost use Rattle.kilim_run_turn.specs.Steps.{Told};

    ghost then = { Told };
}

/// The new cell of a seat. A call picks it.
pub trait NewCell {
    ghost use Rattle.std.specs.Prelude.{ℕ, List};

    ghost cell: { List ℕ };
}

impl NewCell for Brand {
    ghost use Rattle.std.specs.Prelude.{[]};

    ghost cell = { [] };
}

/// A seat that has the list writes its new cell.
pub struct Post<W> {
    marker: PhantomData<W>,
}

impl<B, W: NewCell> Play<Option<Kept<B>>, View> for Post<W> {
    ghost use Rattle.kilim_run_turn.specs.Steps.{Posted};

    ghost then = { Posted W.cell };
}

/// A seat that has the list gives it to a note.
pub struct LayDown;

impl Split<View> for LayDown {
    ghost use Rattle.kilim_run_turn.specs.Views.{bare, note_of};

    ghost left = { bare };

    ghost right = { note_of };
}

/// A seat gives back the slot and the turn.
pub struct Give;

impl<B> Play<Option<Kept<B>>, View> for Give {
    ghost use Rattle.kilim_run_turn.specs.Steps.{Gave};

    ghost then = { Gave };
}

/// A seat takes over the numbers of another.
pub struct TakeOver;

impl Join<View> for TakeOver {
    ghost use Rattle.kilim_run_turn.specs.Views.{both, spent};

    ghost both = { both };

    ghost spent = { spent };
}
