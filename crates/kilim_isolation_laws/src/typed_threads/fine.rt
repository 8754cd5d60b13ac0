//! The laws.

ghost use Rattle.kilim_isolation_laws.specs.typed_threads.fine.Law.{FittingIsFine};

/// A law, and no work: a thread that fits the frames of verification isn't stuck at its next instruction, and has room for what
/// comes on its stacks.
pub fn fitting_is_fine()
    ensures { FittingIsFine }
{}
