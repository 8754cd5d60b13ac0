//! Laws, and no work.

ghost use Rattle.kilim_stages.specs.Laws.{NeverBoth, NeverTypedAndReported, OneProgramOf};
ghost use Rattle.kilim_stages.specs.Runs.{AcceptedRunsApart};

use kilim_class_file::class_file_is_spelled;
use kilim_isolation_laws::accepted_runs::begins::mains_begin;
use kilim_isolation_laws::accepted_runs::plain::linked_is_plain;
use kilim_isolation_laws::kept::accepted_is_kept;
use kilim_link_spec::one_program;
use kilim_run_model::one_heap::{none_shares, one_heap_is_many, plays_replay};

/// A law, and no work: the same bytes link to no two programs.
#[tactic(auto, using(crate::proofs::Both::same_program))]
pub fn one_program_of()
    ensures { OneProgramOf }
{
    class_file_is_spelled();
    one_program();
}

/// A law, and no work: no files are both accepted and reported.
#[tactic(auto, using(crate::proofs::Both::never_both))]
pub fn never_both()
    ensures { NeverBoth }
{
    class_file_is_spelled();
    one_program();
}

/// A law, and no work: no files are both those of a typed program and reported by a stage up to typing.
#[tactic(auto, using(crate::proofs::Both::never_typed))]
pub fn never_typed_and_reported()
    ensures { NeverTypedAndReported }
{
    class_file_is_spelled();
    one_program();
}

/// A law, and no work: the threads of an accepted program never reach one object, in no interleaving, and its journals are those of one heap.
pub fn accepted_runs_apart()
    ensures { AcceptedRunsApart }
{
    linked_is_plain();
    mains_begin();
    accepted_is_kept();
    none_shares();
    plays_replay();
    one_heap_is_many();
}
