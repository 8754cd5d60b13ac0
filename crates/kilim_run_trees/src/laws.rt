//! Laws.

ghost use Rattle.kilim_run_trees.specs.Shaping.{SizesAgree};

/// A law, and no work: a tree is too large to be moved exactly where it has no shape.
pub fn sizes_agree()
    ensures { SizesAgree }
{}
