//! A law, and no work.

ghost use Rattle.kilim_stages.specs.woven_stage.Laws.{WovenIsNotReported};

use crate::{never_both, one_program_of};

/// A law, and no work: class files whose accepted program can be woven aren't reported.
pub fn woven_is_not_reported()
    ensures { WovenIsNotReported }
{
    one_program_of();
    never_both();
}
