//! A program and its woven form share what the rows of the table rest on: laws, and no code that does work.

ghost use Rattle.kilim_fiber_laws.specs.stands.shares.Law.{MembersStand, WovenShares};

/// A law, and no work: a program and its woven form share what the rows of the table rest on.
pub fn woven_shares()
    ensures { WovenShares }
{}

/// A law, and no work: the members of the fiber stand among its methods.
pub fn members_stand()
    ensures { MembersStand }
{}
