//! Examples that pin the table of instructions. No program calls these laws to do work.

ghost use Rattle.kilim_theorems.specs.instruction_examples.Arithmetic.{ArithmeticIsJavas};
ghost use Rattle.kilim_theorems.specs.instruction_examples.Rows.{RowsAreAtEdges};

/// A law, and no work: arithmetic is that of `java` at 309 examples.
pub fn arithmetic_is_javas()
    ensures { ArithmeticIsJavas }
{}

/// A law, and no work: rows of the table at their edges.
pub fn rows_are_at_edges()
    ensures { RowsAreAtEdges }
{}
