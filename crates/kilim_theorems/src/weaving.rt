//! A woven fiber does what the thread of its course does: laws, and no code that does work.

pub mod courses;
pub mod receivers;
pub mod simulation;
pub mod stands;
pub mod unwinds;
pub mod woven_kin;
pub mod woven_served;

ghost use Rattle.kilim_fiber_laws.specs.Laws.{FibersAreReady, FirstBegins, NextFollows, RestsOnObject, TasksBegin, TasksEnd};

/// A law, and no work: what a fiber does next is what the thread of its course does next.
pub fn next_follows()
    ensures { NextFollows }
{}

/// A law, and no work: unless a fiber is spent before it, its next instruction is as the interpreter asks, and what it gives away is a tree.
pub fn fibers_are_ready()
    ensures { FibersAreReady }
{}

/// A law, and no work: where a fiber rests, the receiver of its first frame is an object.
pub fn rests_on_object()
    ensures { RestsOnObject }
{}

/// A law, and no work: task 0 begins as a fiber of its course, with the first frame of its constructor.
pub fn first_begins()
    ensures { FirstBegins }
{}

/// A law, and no work: a started task begins as a fiber of its course, with the first frame of its `execute`.
pub fn tasks_begin()
    ensures { TasksBegin }
{}

/// A law, and no work: where the `execute` of a started task is the built-in one, its thread ends next.
pub fn tasks_end()
    ensures { TasksEnd }
{}
