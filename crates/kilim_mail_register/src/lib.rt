//! The register of starts, under a turn of its own.
#![tactic(auto)]

ghost use Rattle.kilim_mail_register.specs.Register.{RegistersAreRuns};

mod register;
mod stamp;

pub use register::{Register, Started, Starts};
pub use stamp::next_stamp;

/// A law, and no work: a register's entries are a run of the register, all of them; they name no mailbox; and what they tell of histories is
/// what any list of entries has them tell.
pub fn registers_are_runs()
    ensures { RegistersAreRuns }
{}
