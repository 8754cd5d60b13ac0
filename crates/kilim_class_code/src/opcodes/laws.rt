//! Laws of one instruction.

ghost use Rattle.kilim_class_code.specs.opcodes.Exact.{OneSpelling, Lengths};

/// A law, and no work: what is read is spelled so, and what is spelled is read again, whatever follows.
pub fn one_spelling()
    ensures { OneSpelling }
{}

/// A law, and no work: the text of an instruction has the length of its form at that place.
pub fn lengths()
    ensures { Lengths }
{}
