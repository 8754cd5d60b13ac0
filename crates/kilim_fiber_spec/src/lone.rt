//! The thread beside the woven machine is the thread of kilim_run_model: a law, and no code that does work.

ghost use Rattle.kilim_fiber_spec.specs.lone.Law.{ThreadIsLone};

/// A law, and no work: a step of the thread is what the thread on its own heap does next.
pub fn thread_is_lone()
    ensures { ThreadIsLone }
{}
