//! No instruction sees the names of objects: what it does is the same under other names. Definitions in `specs/`, and
//! laws about them, which no program calls to do work.

pub mod frames;
pub mod trees;

ghost use Rattle.kilim_run_model.specs.kin.Laws.{MovesAreKin, RowsAreKin};

/// A law, and no work: what an instruction does is the same under other names of objects, and it reads and writes no
/// object but those that stand on the stack.
pub fn rows_are_kin()
    ensures { RowsAreKin }
{}

/// A law, and no work: so is what a task's next instruction does with all of its frames.
pub fn moves_are_kin()
    ensures { MovesAreKin }
{}
