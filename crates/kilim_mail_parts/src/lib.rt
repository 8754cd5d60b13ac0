//! The parts of a run by several turns: what is known of each of them alone, and what follows of all together.
#![tactic(auto)]

ghost use Rattle.kilim_mail_parts.specs.Parts.{PartsBalance};

/// A law, and no work: where the register's entries, those of each mailbox turn and the workers' own are as each of them knows, and the histories
/// are what they tell, histories and parts balance.
pub fn parts_balance()
    ensures { PartsBalance }
{}
