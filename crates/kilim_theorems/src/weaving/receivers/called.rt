//! Each frame of a thread of an accepted program stands behind the call that entered the frame above it: a law, and no code that does work.

ghost use Rattle.kilim_fiber_laws.specs.receivers.called.Law.{CallsStand};

/// A law, and no work: frames stand behind the calls that entered the frames above them.
pub fn calls_stand()
    ensures { CallsStand }
{}
