//! The pool of a woven class file: laws, and no code that does work.

ghost use Rattle.kilim_theorems.specs.woven_files.pool.Pools.{NeedsAreCounted, NeedsAreNamed, OldOperandsStay};

/// A law, and no work: what is added to a pool keeps what each old index names, and each new index names what it should.
pub fn needs_are_named()
    ensures { NeedsAreNamed }
{}

/// A law, and no work: what an old index names for an instruction, it names in a larger pool.
pub fn old_operands_stay()
    ensures { OldOperandsStay }
{}

/// A law, and no work: no more indices are added than a list has entries that covers what is needed.
pub fn needs_are_counted()
    ensures { NeedsAreCounted }
{}
