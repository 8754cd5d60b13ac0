//! The labels of a woven method: laws, and no code that does work.

ghost use Rattle.kilim_weave_laws.specs.woven_program.labels.Law.{LabelsAreFound};

/// A law, and no work: a plan with the places at which its labels are found is rightly labelled.
pub fn labels_are_found()
    ensures { LabelsAreFound }
{}
