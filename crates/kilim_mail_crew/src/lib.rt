//! Workers with a pass of each of several turns.
#![tactic(auto)]

ghost use Rattle.kilim_mail_crew.specs.Passes.{EvenAlone, EvenGoesOn, PassesStay};

mod crew;

pub use crew::{Worker, collect, deal};

/// A law, and no work: with another pass of the same turn and seat in the place of one, a worker's passes are still those of its turns.
pub fn passes_stay()
    ensures { PassesStay }
{}

/// A law, and no work: a worker that does under one turn what its cell there accounts for is even with what it has in hand then.
pub fn even_goes_on()
    ensures { EvenGoesOn }
{}

/// A law, and no work: so is one that makes an entry of its own, without a turn.
pub fn even_alone()
    ensures { EvenAlone }
{}
