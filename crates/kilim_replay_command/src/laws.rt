//! A law, and no work.

ghost use Rattle.kilim_replay_command.specs.Laws.{NeverWholeAndReported};

use kilim_replay_laws::one_verdict;
use kilim_run_journal::texts_differ;
use kilim_stages::{never_typed_and_reported, one_program_of};

/// A law, and no work: no text is that of the journal of a whole run and reported.
pub fn never_whole_and_reported()
    ensures { NeverWholeAndReported }
{
    one_program_of();
    never_typed_and_reported();
    texts_differ();
    one_verdict();
}
