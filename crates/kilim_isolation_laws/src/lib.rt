//! Each thread of an accepted program stands with its shape graphs, from its beginning on, whatever others do. A law, and no work.
#![tactic(auto)]

pub mod accepted_runs;
pub mod at_rest;
pub mod forest;
pub mod graph_rows;
pub mod heaps;
pub mod kept;
pub mod names;
pub mod reached_objects;
pub mod sorts;
pub mod states;
pub mod tree_types;
pub mod typed_threads;

ghost use Rattle.kilim_isolation_laws.specs.Laws.{ThreadsStand};

/// A law, and no work: the frames of each thread that there can be of an accepted program stand with their shape graphs, and fit the
/// frames of verification.
pub fn threads_stand()
    ensures { ThreadsStand }
{}
