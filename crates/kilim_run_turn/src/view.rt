//! What a seat at the table knows.
use atomic_table::Badge;
use std::collections::LinkedList;

/// Where a seat stands.
pub enum Stage {
    /// The first seat, before it knows which table it is of.
    Fresh,
    /// The first seat, while it makes the others.
    Opening,
    /// A worker's seat that isn't inside.
    Outside,
    /// A worker's seat that has the turn.
    Inside,
    /// A note, or a seat that another took in.
    Aside,
}

/// What a seat knows. No value of it is made: it exists in proofs alone.
pub struct View {
    pub stage: Stage,
    /// It names the table.
    pub of: Badge<()>,
    /// How many seats the value has.
    pub seats: u64,
    /// The number of the worker's seat, and of the first of those that it took over.
    pub number: u64,
    /// The cells of this number and the next ones.
    pub shown: LinkedList<LinkedList<u64>>,
    /// While the table is opened, how many numbers are given out.
    pub made: u64,
    /// Whether it has the list.
    pub carries: bool,
    /// All cells, where it has them.
    pub list: LinkedList<LinkedList<u64>>,
}
