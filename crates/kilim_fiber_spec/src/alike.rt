//! What the instructions of a program and of its woven form do alike: laws, and no code that does work.

ghost use Rattle.kilim_fiber_spec.specs.alike.Law.{MembersAreCalled, RowsAreAlike};

/// A law, and no work: every row of the table does the same in woven code.
pub fn rows_are_alike()
    ensures { RowsAreAlike }
{}

/// A law, and no work: the fiber's members are called.
pub fn members_are_called()
    ensures { MembersAreCalled }
{}
