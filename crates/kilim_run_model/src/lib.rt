//! What a run is: threads over one shared heap, their moves, and whole runs. Definitions in `specs/`, and
//! laws about them, which no program calls to do work.
#![tactic(auto)]

ghost use Rattle.kilim_run_model.specs.Alone.{BuiltAnywhere, NextComes, OneLone, RestsStill};
ghost use Rattle.kilim_run_model.specs.Edges.{EdgesHold};
ghost use Rattle.kilim_run_model.specs.Examples.{ExamplesHold};
ghost use Rattle.kilim_run_model.specs.Runs.{OneNextAction, OneReplay};
ghost use Rattle.kilim_run_model.specs.Small.{SmallRunIsWhole};

mod deed;
pub mod kin;
pub mod one_heap;
mod small_programs;
mod waits;

pub use deed::{Beginning, Deed};
pub use small_programs::Small;
pub use waits::Waits;

/// A law, and no work: the run of a small program prints its numbers in order, and is done.
pub fn small_run_is_whole()
    ensures { SmallRunIsWhole }
{}

/// A law, and no work: of the program that prints 7, the right journal is that of a whole run, and wrong
/// ones aren't.
pub fn examples_hold()
    ensures { ExamplesHold }
{}

/// A law, and no work: what the machine does at its limits, and right beyond them; in which order messages are taken and
/// causes count; who waits.
pub fn edges_hold()
    ensures { EdgesHold }
{}

/// A law, and no work: a thread's next action leads to one state, however many moves are granted for it.
pub fn one_next_action()
    ensures { OneNextAction }
{}

/// A law, and no work: a journal is replayed to one state.
pub fn one_replay()
    ensures { OneReplay }
{}

/// A law, and no work: more moves than a thread may do instructions lead it to its next action.
pub fn next_comes()
    ensures { NextComes }
{}

/// A law, and no work: a course is that of one thread.
pub fn one_lone()
    ensures { OneLone }
{}

/// A law, and no work: a thread that has ended or waits doesn't move.
pub fn rests_still()
    ensures { RestsStill }
{}

/// A law, and no work: a shape of which there is a tree under some names has one under any.
pub fn built_anywhere()
    ensures { BuiltAnywhere }
{}
