//! A fiber of a woven program does what the task of each course does: a law, and no code that does work.

pub mod accepted;
pub mod gives;
pub mod ready;

ghost use Rattle.kilim_fiber_laws.specs.woven_served.Served.{ConstructorIsSame};

/// A law, and no work: the constructor of task 0 is the same method in the woven program.
pub fn constructor_is_same()
    ensures { ConstructorIsSame }
{}
