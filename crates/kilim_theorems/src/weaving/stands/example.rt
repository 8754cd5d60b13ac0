//! A program, its woven form and a thread meet all that crate::weaving::stands::serves asks: an example, and no code that does work.

ghost use Rattle.kilim_theorems.specs.weaving.stands.example.Example.{LoopMeetsAll};

/// A law, and no work: the example of `specs/Example.antt`.
pub fn loop_meets_all()
    ensures { LoopMeetsAll }
{}
