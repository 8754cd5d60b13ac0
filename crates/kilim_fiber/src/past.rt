//! What a fiber did. Only clauses read it: it takes no memory, and nothing is copied or kept for it.

ghost use Rattle.std.specs.Prelude.{◌≡◌, [], ◌∷◌, ◌++◌};
ghost use Rattle.kilim_run_model.specs.declared.deed.Beginning.TheVariants.{Begun};
ghost use Rattle.kilim_fiber.specs.Past.{deed_of, deeds_of};

use kilim_program::BoxName;
use kilim_run_model::Beginning;
use kilim_run_state::Shape;
use std::snapshot::Snapshot;

/// A deed.
#[derive(Drop)]
pub enum Did {
    Put(BoxName, u64, Snapshot<Shape>),
    /// A message of that shape was taken.
    Take(BoxName, u64, Snapshot<Shape>),
    Empty(BoxName),
    Start(u32, Snapshot<Shape>),
    Print(Snapshot<Shape>),
    /// A mailbox got that bound.
    Bound(BoxName, u32),
}

/// The deeds of a fiber, the last one in front.
#[derive(Drop)]
pub enum Past {
    Nothing,
    After(Snapshot<Past>, Did),
}

/// It did nothing yet.
pub fn no_past() -> Snapshot<Past>
    ensures { deeds_of result.value ≡ [] }
{
    let nothing = Past::Nothing;
    Snapshot::of(&nothing)
}

/// It did one thing more.
pub fn note(past: &mut Snapshot<Past>, did: Did)
    ensures { deeds_of past.new.value ≡ deeds_of past.old.value ++ deed_of did ∷ [] }
{
    let before = std::mem::replace(past, no_past());
    let after = Past::After(before, did);
    *past = Snapshot::of(&after);
}

/// It began on an object of that shape.
pub fn begun(shape: Shape) -> (Snapshot<Beginning>, Shape)
    ensures beginning { result.0.value ≡ Begun shape }
    ensures shape { result.1 ≡ shape }
{
    let beginning = Beginning::Begun(shape);
    let seen = Snapshot::of(&beginning);
    match beginning {
        Beginning::Begun(shape) => (seen, shape),
        Beginning::Boot => unreachable!(),
    }
}
