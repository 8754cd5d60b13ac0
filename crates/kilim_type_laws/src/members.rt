//! What follows of classes and their members from what every program keeps: laws, and no code that does work.

ghost use Rattle.kilim_type_laws.specs.members.Chosen.{FindsChosen};

/// A law, and no work: what a call on an object of a class finds for a named method is like it, and stands in the line of
/// that class (JVMS 5.4.6).
pub fn finds_chosen()
    ensures { FindsChosen }
{}
