//! The woven form of an accepted program to which class files link serves: laws, which no program calls to do work.

ghost use Rattle.kilim_theorems.specs.linked_weaving.Law.{AcceptedServes, LinkedServes};

use kilim_fiber_laws::woven_served::runs_serve;
use kilim_isolation_laws::accepted_runs::begins::mains_begin;
use kilim_isolation_laws::accepted_runs::plain::linked_is_plain;

/// A law, and no work: what weaving makes of a linked, accepted program serves, with every fit main class and all limits.
pub fn linked_serves()
    ensures { LinkedServes }
{
    linked_is_plain();
    mains_begin();
    runs_serve();
}

/// A law, and no work: what weaving makes of the accepted program of some class files serves, with every fit main class and all limits.
pub fn accepted_serves()
    ensures { AcceptedServes }
{
    linked_serves();
}
