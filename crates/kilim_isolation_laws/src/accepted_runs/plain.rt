//! Programs to which class files link: a law about definitions, which no program calls to do work.

ghost use Rattle.kilim_isolation_laws.specs.accepted_runs.plain.Laws.{LinkedIsPlain};

use kilim_link_laws::each_is_named;
use kilim_link_spec::linked_in_parts;

/// A law, and no work: a program to which class files link as they are is plain, and none of its class names is empty or begins as
/// an array's descriptor does.
pub fn linked_is_plain()
    ensures { LinkedIsPlain }
{
    linked_in_parts();
    each_is_named();
}
