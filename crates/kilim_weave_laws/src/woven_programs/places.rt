//! The ids and types of a woven program: laws, and no code that does work.

ghost use Rattle.kilim_weave_laws.specs.woven_programs.places.Law.{WovenPlacesKeep};

/// A law, and no work: each id in a woven program is a place in its list, and no type in it is an array of tasks.
pub fn woven_places_keep()
    ensures { WovenPlacesKeep }
{}
