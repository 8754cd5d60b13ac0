//! Entries with stamps: parts of a run, each noted under a turn of its own or by a worker alone, and the journal that they are merged into.
#![tactic(auto)]

ghost use Rattle.kilim_mail_stamps.specs.Examples.{ExamplesHold};
ghost use Rattle.kilim_mail_stamps.specs.Leading.{MergedLeads};
ghost use Rattle.kilim_mail_stamps.specs.Merging.{RunsAreApart};
ghost use Rattle.kilim_mail_stamps.specs.Stamps.{MergedReplays};

mod merging;
mod stamped;

pub use merging::merge;
pub use stamped::Stamped;

/// A law, and no work: where parts are those of a stamped run, what they are merged into is a journal of the machine whose messages are
/// moved.
pub fn merged_replays()
    ensures { MergedReplays }
{}

/// A law, and no work: that journal leads to the tasks' own entries, and to what the mailboxes' entries leave in them.
pub fn merged_leads()
    ensures { MergedLeads }
{}

/// A law, and no work: no two entries of a stamped run have the same stamp and task.
pub fn runs_are_apart()
    ensures { RunsAreApart }
{}

/// A law, and no work: the parts of an example are merged in their order, and wrong lists are no runs.
pub fn examples_hold()
    ensures { ExamplesHold }
{}
