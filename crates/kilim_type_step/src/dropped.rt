//! Programs that are let go.

use kilim_program::Program;

/// Drops a program. What that takes of each of its parts is proved here, once for the crates above.
pub fn discard(program: Program) {
    drop(program);
}
