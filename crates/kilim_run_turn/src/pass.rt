//! The right of one worker to take the turn.
ghost use Rattle.std.specs.Prelude.{◌≡◌};
ghost use Rattle.kilim_run_turn.specs.Turns.{seat_of};

use crate::view::View;
use atomic_table::Badge;

/// A worker's seat. While its worker is inside, the seat itself lies with the value that is lent.
#[derive(Drop)]
pub struct Pass {
    pub(crate) badge: Badge<View>,
    pub(crate) number: usize,
}

impl Pass {
    /// The number of the pass's seat.
    pub fn seat(&self) -> usize
        ensures { result ≡ seat_of self.now }
    {
        self.number
    }
}
