//! A built-in method that verified code asks gets arguments that it takes: a law, and no code that does work.

ghost use Rattle.kilim_fiber_laws.specs.courses.answers.Law.{NativesAnswer};

/// A law, and no work: what a built-in method is asked in verified code, it does.
pub fn natives_answer()
    ensures { NativesAnswer }
{}
