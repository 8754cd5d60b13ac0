//! The command `kilim`: runs class files of isolation-typed actors.
#![tactic(auto)]

use kilim_command::complain;
use kilim_top::command;
use std::io::IsTerminal;
use std::process::ExitCode;

fn main(rt: HostRuntime) -> ExitCode {
    let is_terminal = rt.stderr().is_terminal();
    let status = command(&rt, is_terminal);
    complain(&rt, status);
    ExitCode::from(status)
}
