//! The command `kilim-explain`: what `kilim check` says, for authors of Java.
#![tactic(auto)]

mod check;
mod help;
mod program;
mod shown;
mod words;

use kilim_command::complain;
use program::command;
use std::io::IsTerminal;
use std::process::ExitCode;

fn main(rt: HostRuntime) -> ExitCode {
    let is_terminal = rt.stdout().is_terminal();
    let status = command(&rt, is_terminal);
    complain(&rt, status);
    ExitCode::from(status)
}
