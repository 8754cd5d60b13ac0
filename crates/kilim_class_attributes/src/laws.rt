//! Laws for what stands above attributes.

ghost use Rattle.kilim_class_attributes.specs.Fronts.{AttributesStay, AttributesAreCutOrBroken};
ghost use Rattle.kilim_class_attributes.specs.Laws.{AttributesAreSpelled};

use crate::parts::parts_are_spelled;

/// A law, and no work: over each pool and at each place, what is read as attributes is spelled so and has a text, and
/// what is spelled is read again, whatever follows.
pub fn attributes_are_spelled()
    ensures { AttributesAreSpelled }
{
    parts_are_spelled();
}

/// A law, and no work: each proper front of the text of attributes is cut, and what is read and every other fault stays,
/// whatever follows: then nothing that follows could spell attributes.
pub fn attributes_are_cut_or_broken()
    ensures stays { AttributesStay }
    ensures fronts { AttributesAreCutOrBroken }
{
    attributes_are_spelled();
}
