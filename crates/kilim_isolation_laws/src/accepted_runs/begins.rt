//! Task 0 of a linked program begins with a constructor whose receiver isn't free. No program calls this to do work.

ghost use Rattle.kilim_isolation_laws.specs.accepted_runs.begins.Begins.{MainsBegin};

use kilim_link_laws::code_laws::receivers_are_cuttable;

/// A law, and no work: the receiver of the constructor with which a main class begins isn't free.
pub fn mains_begin()
    ensures { MainsBegin }
{
    receivers_are_cuttable();
}
