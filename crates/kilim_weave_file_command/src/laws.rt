//! Laws, and no work.

ghost use Rattle.kilim_weave_file_command.specs.Laws.{AcceptedFilesAreIsolated, NeverWeavableAndReported};

use kilim_class_file::class_file_is_spelled;
use kilim_isolation_laws::accepted_runs::accepted_is_isolated;
use kilim_link::links_keep;
use kilim_stages::{never_both, one_program_of};

/// A law, and no work: no class files can be woven and are reported.
pub fn never_weavable_and_reported()
    ensures { NeverWeavableAndReported }
{
    class_file_is_spelled();
    one_program_of();
    never_both();
}

/// A law, and no work: in no interleaving of an accepted program to which class files link is an object reached by two threads.
#[tactic(auto, using(crate::proofs::Isolated::isolated))]
pub fn accepted_files_are_isolated()
    ensures { AcceptedFilesAreIsolated }
{
    links_keep();
    accepted_is_isolated();
}
