//! What a thread of accepted code reaches is in its heap: laws about definitions, which no program calls to do work.

pub mod graphs;
pub mod live;
pub mod walk;

ghost use Rattle.kilim_isolation_laws.specs.reached_objects.Laws.{ReachedAreThere, TopStacksAreThere};

/// A law, and no work: what is at or below an object that an item of a thread's stacks or a live local names, or that is kept, is in
/// the heap.
pub fn reached_are_there()
    ensures { ReachedAreThere }
{}

/// A law, and no work: what a thread's top stack names is in the heap.
pub fn top_stacks_are_there()
    ensures { TopStacksAreThere }
{}
