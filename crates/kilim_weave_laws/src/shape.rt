//! The places of a woven method's labels: laws, and no code that does work.

ghost use Rattle.kilim_weave_laws.specs.shape.Law.{PlacesDontMatter};

/// A law, and no work: where the labels of a woven method stand, and how long it is, depends on no place in its plan.
pub fn places_dont_matter()
    ensures { PlacesDontMatter }
{}
