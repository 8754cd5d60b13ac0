//! What was written is read again.

ghost use Rattle.kilim_class_attributes.specs.parts.Laws.{PartsAreSpelled};

/// A law, and no work: what is read as an index, as frames or as parts of annotations is spelled so and has a text, and
/// what is spelled is read again, whatever follows. Frames that have a text can be written.
pub fn parts_are_spelled()
    ensures { PartsAreSpelled }
{}
