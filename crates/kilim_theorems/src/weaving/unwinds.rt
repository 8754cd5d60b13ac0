//! A woven fiber that pauses wants nothing before it rests: laws, and no code that does work.

ghost use Rattle.kilim_theorems.specs.weaving.unwinds.Law.{PausingCounts, PausingRests};

/// A law, and no work: a fiber that pauses goes on by itself, still pausing, or rests.
pub fn pausing_rests()
    ensures { PausingRests }
{}

/// A law, and no work: where a fiber goes on by itself its count falls never, and grows where it comes to pause.
pub fn pausing_counts()
    ensures { PausingCounts }
{}
