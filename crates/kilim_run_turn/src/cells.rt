//! What a value is to the turn.
ghost use Rattle.std.specs.Prelude.{◌≡◌, ℕ, List, length};

/// A value with seats, each of which has a cell. Contracts see a cell as a list of numbers.
pub trait Cells {
    ghost cells: { Self → List (List ℕ) };

    /// How many seats the value has.
    fn seats(&self) -> usize
        ensures { result ≡ length (cells self.now) };
}
