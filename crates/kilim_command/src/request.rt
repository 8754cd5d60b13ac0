//! What is taken from the words that were read.

ghost use Rattle.std.specs.Prelude.{◌≡◌, IfOk, map};
ghost use Rattle.std.specs.String.{string_bytes};
ghost use Rattle.kilim_command.specs.grammar.Parts.{meant, numbers_of};
ghost use Rattle.kilim_command.specs.Report.{utf16_of};
ghost use Rattle.kilim_command.specs.RunText.{demo_number};
ghost use Rattle.kilim_command.specs.Words.{limits_of, workers_of};

use crate::grammar::{Asked, integers};
use crate::report::utf16_of;
use kilim_run_state::Limits;
use kilim_units::NoMemory;
use std::alloc::Global;

/// How many workers the words ask for.
pub fn workers_of(asked: &Asked<'_>) -> u64
    ensures { result ≡ workers_of (meant asked.now) }
{
    match asked {
        Asked::Check(_) => 1,
        Asked::Weave(_) => 1,
        Asked::Run(words) => words.workers,
        Asked::Replay(_) => 1,
        Asked::Save(_) => 1,
        Asked::Resume(words) => words.workers,
        Asked::Demo(words) => words.workers,
    }
}

/// The number of the demo that is asked for, if it is a demo.
pub fn demo_number(asked: &Asked<'_>) -> Option<u64>
    ensures { result ≡ demo_number (meant asked.now) }
{
    match asked {
        Asked::Demo(words) => Some(words.number),
        _ => None,
    }
}

/// What a run begins with: the units of its main class's name, and its limits.
#[derive(Drop)]
pub struct Start {
    pub main: Vec<u16>,
    pub limits: Limits,
}

/// What a run begins with, by the name of its main class, how many instructions each task may do, and the words behind `--`. The error is
/// want of memory.
pub fn start_of(alloc: Global, main: &str, steps: u64, args: &[String]) -> Result<Start, NoMemory>
    ensures main { IfOk result (λ start. start.main.items ≡ utf16_of main.now) }
    ensures limits { IfOk result (λ start. start.limits ≡ limits_of steps (numbers_of (map string_bytes args.now))) }
{
    let Ok(main) = utf16_of(alloc, main) else {
        return Err(NoMemory);
    };
    let Ok(args) = integers(alloc, args) else {
        return Err(NoMemory);
    };
    let limits = Limits { steps, args };
    Ok(Start { main, limits })
}
