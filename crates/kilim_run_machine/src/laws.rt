//! Laws about the definitions. No program calls them to do work.

ghost use Rattle.kilim_run_machine.specs.Found.{IsFound};

/// A law, and no work: what is found in a program made by hand, each beside an answer that is wrong: the fields of an object
/// in their order, the method `execute`, which built-in methods are handed out, the call of a frame, and its receiver.
pub fn is_found()
    ensures { IsFound }
{}
