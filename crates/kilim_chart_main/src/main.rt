//! The command `kilim-chart`: draws the journal of a run.
#![tactic(auto)]

mod help;
mod program;
mod words;

use kilim_command::complain;
use program::command;
use std::process::ExitCode;

fn main(rt: HostRuntime) -> ExitCode {
    let status = command(&rt);
    complain(&rt, status);
    ExitCode::from(status)
}
