//! Where the deeds of a course lead the thread beside the woven machine: a law, and no code that does work.

ghost use Rattle.kilim_fiber_laws.specs.receivers.states.Law.{ThreadFollows};

/// A law, and no work: with the deeds of a course to come, the thread comes right before an action, or to its end, exactly where the thread
/// of the course does.
pub fn thread_follows()
    ensures { ThreadFollows }
{}
