//! The lines of methods that can't be woven.

ghost use Rattle.std.specs.Prelude.{◌≡◌, ◌++◌, IfOk, codes};
ghost use Rattle.kilim_program.specs.Names.{method_at};
ghost use Rattle.kilim_reports.specs.RuleLines.{words_of};
ghost use Rattle.kilim_stages.specs.Parts.{Refused};
ghost use Rattle.kilim_stages.specs.woven_stage.Reports.{IsMethodLine, arguments_line, too_long_line};

use crate::Refusal;
use kilim_program::{MethodId, Program};
use kilim_reports::{joined, push_number, words_of};
use kilim_units::NoMemory;
use kilim_weave::WeaveFault;
use std::alloc::Global;

// ---- lines

// What each line begins with: its word, and the words of a method.
fn begun(alloc: Global, program: &Program, id: MethodId) -> Result<Vec<u8>, NoMemory>
    ensures { IfOk result (λ text. text.items ≡ codes "weave " ++ words_of program.now (method_at program.now id)) }
{
    let words = words_of(alloc, program, id)?;
    joined(alloc, b"weave ", words.as_slice())
}

#[tactic(auto, unfolding(crate::specs::woven_stage::Reports::too_long_line))]
fn too_long_line(
    alloc: Global,
    program: &Program,
    id: MethodId,
    weight: u64,
) -> Result<Vec<u8>, NoMemory>
    ensures { IfOk result (λ text. text.items ≡ too_long_line program.now id weight) }
{
    let Ok(mut text) = begun(alloc, program, id) else {
        return Err(NoMemory);
    };
    let Ok(()) = text.extend_from_slice(b" too-long ") else {
        return Err(NoMemory);
    };
    let Ok(()) = push_number(&mut text, weight) else {
        return Err(NoMemory);
    };
    let Ok(()) = text.push(b'\n') else {
        return Err(NoMemory);
    };
    Ok(text)
}

#[tactic(auto, unfolding(crate::specs::woven_stage::Reports::arguments_line))]
fn arguments_line(alloc: Global, program: &Program, id: MethodId) -> Result<Vec<u8>, NoMemory>
    ensures { IfOk result (λ text. text.items ≡ arguments_line program.now id) }
{
    let Ok(mut text) = begun(alloc, program, id) else {
        return Err(NoMemory);
    };
    let Ok(()) = text.extend_from_slice(b" arguments\n") else {
        return Err(NoMemory);
    };
    Ok(text)
}

// ---- refusals

fn too_long_refusal(alloc: Global, program: &Program, id: MethodId, weight: u64) -> Refusal
    ensures { Refused result (λ text. text ≡ too_long_line program.now id weight) }
{
    match too_long_line(alloc, program, id, weight) {
        Ok(text) => Refusal::Report(text),
        Err(_) => Refusal::NoMemory,
    }
}

fn arguments_refusal(alloc: Global, program: &Program, id: MethodId) -> Refusal
    ensures { Refused result (λ text. text ≡ arguments_line program.now id) }
{
    match arguments_line(alloc, program, id) {
        Ok(text) => Refusal::Report(text),
        Err(_) => Refusal::NoMemory,
    }
}

/// The line of a method that can't be woven.
pub fn method_refusal(alloc: Global, program: &Program, fault: WeaveFault) -> Refusal
    ensures { Refused result (IsMethodLine program.now fault) }
{
    match fault {
        WeaveFault::TooLong(id, weight) => too_long_refusal(alloc, program, id, weight),
        WeaveFault::ArgumentsFull(id) => arguments_refusal(alloc, program, id),
        WeaveFault::Memory => Refusal::NoMemory,
    }
}
