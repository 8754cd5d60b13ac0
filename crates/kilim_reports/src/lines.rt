//! The lines of faults.

ghost use Rattle.std.specs.Prelude.{◌≡◌, ◌++◌, IfOk, OnOk, codes};
ghost use Rattle.std.specs.Fmt.{decimal};
ghost use Rattle.std.specs.List.{flat_map};
ghost use Rattle.kilim_program.specs.Names.{class_name, method_at};
ghost use Rattle.kilim_link_spec.specs.World.{method_descriptor};
ghost use Rattle.kilim_reports.specs.Names.{member_name_text, descriptor_text};
ghost use Rattle.kilim_reports.specs.RuleLines as spec;

use crate::names::{push_member_name, push_named};
use crate::texts::push;
use kilim_isolation_pauses::Report;
use kilim_link_views::method_descriptor;
use kilim_program::lookups::{class_at, method_at};
use kilim_program::{ClassId, Method, MethodId, Program};
use kilim_units::NoMemory;
use std::alloc::Global;

#[tactic(auto, unfolding(crate::specs::Names::member_name_text))]
fn push_class(text: &mut Vec<u8>, program: &Program, class: ClassId) -> Result<(), NoMemory>
    ensures { OnOk result (text.new.items ≡ text.old.items ++ member_name_text (class_name program.now class)) }
{
    match class_at(program, class) {
        None => Ok(()),
        Some(found) => push_member_name(text, &found.name),
    }
}

// The name and the descriptor of a method.
fn push_name_of(text: &mut Vec<u8>, program: &Program, method: &Method) -> Result<(), NoMemory>
    ensures { OnOk result (text.new.items ≡ text.old.items ++ (member_name_text method.now.name ++ descriptor_text (method_descriptor program.now method.now))) }
{
    let Ok(descriptor) = method_descriptor(*text.allocator(), program, method) else {
        return Err(NoMemory);
    };
    push_named(text, &method.name, &descriptor)
}

fn push_method_words(text: &mut Vec<u8>, program: &Program, method: &Method) -> Result<(), NoMemory>
    ensures { OnOk result (text.new.items ≡ text.old.items ++ spec.method_words program.now method.now) }
{
    let Ok(()) = push_class(text, program, method.owner) else {
        return Err(NoMemory);
    };
    let Ok(()) = push(text, b" ") else {
        return Err(NoMemory);
    };
    push_name_of(text, program, method)
}

fn push_words(text: &mut Vec<u8>, program: &Program, id: MethodId) -> Result<(), NoMemory>
    ensures { OnOk result (text.new.items ≡ text.old.items ++ spec.words_of program.now (method_at program.now id)) }
{
    match method_at(program, id) {
        None => Ok(()),
        Some(method) => push_method_words(text, program, method),
    }
}

/// The class that declares a method, and its name and descriptor; nothing where there is no such method.
pub fn words_of(alloc: Global, program: &Program, id: MethodId) -> Result<Vec<u8>, NoMemory>
    ensures { IfOk result (λ text. text.items ≡ spec.words_of program.now (method_at program.now id)) }
{
    let mut text = Vec::new(alloc);
    let Ok(()) = push_words(&mut text, program, id) else {
        return Err(NoMemory);
    };
    Ok(text)
}

/// Appends a number, by its digits.
pub fn push_number(text: &mut Vec<u8>, number: u64) -> Result<(), NoMemory>
    ensures { IfOk result (λ u. text.new.items ≡ text.old.items ++ decimal number) }
{
    let Ok(digits) = format!(in *text.allocator(); "{number}") else {
        return Err(NoMemory);
    };
    push(text, digits.as_bytes())
}

fn push_places(text: &mut Vec<u8>, path: &[u32]) -> Result<(), NoMemory>
    ensures { IfOk result (λ u. text.new.items ≡ text.old.items ++ spec.places path.now) }
{
    for at in path {
        let Ok(()) = push(text, b" ") else {
            return Err(NoMemory);
        };
        let Ok(()) = push_number(text, u64::from(*at)) else {
            return Err(NoMemory);
        };
    }
    Ok(())
}

fn push_path(text: &mut Vec<u8>, path: &[u32]) -> Result<(), NoMemory>
    ensures { IfOk result (λ u. text.new.items ≡ text.old.items ++ spec.path_words path.now) }
{
    if path.is_empty() {
        return Ok(());
    }
    let Ok(()) = push(text, b" path") else {
        return Err(NoMemory);
    };
    push_places(text, path)
}

// A word, the words of a method, and a place in its code.
fn push_placed(
    text: &mut Vec<u8>,
    program: &Program,
    word: &[u8],
    method: MethodId,
    pc: u32,
) -> Result<(), NoMemory>
    ensures { OnOk result (text.new.items ≡ text.old.items ++ (word.now ++ (spec.words_of program.now (method_at program.now method) ++ (codes " " ++ decimal pc)))) }
{
    let Ok(()) = push(text, word) else {
        return Err(NoMemory);
    };
    let Ok(()) = push_words(text, program, method) else {
        return Err(NoMemory);
    };
    let Ok(()) = push(text, b" ") else {
        return Err(NoMemory);
    };
    push_number(text, u64::from(pc))
}

fn push_fault(text: &mut Vec<u8>, program: &Program, report: &Report) -> Result<(), NoMemory>
    ensures { OnOk result (text.new.items ≡ text.old.items ++ spec.fault_line program.now report.now) }
{
    let Ok(()) = push_placed(text, program, b"fault ", report.method, report.pc) else {
        return Err(NoMemory);
    };
    let Ok(()) = push(text, b" I") else {
        return Err(NoMemory);
    };
    let Ok(()) = push_number(text, u64::from(report.rule)) else {
        return Err(NoMemory);
    };
    let Ok(()) = push_path(text, report.path.as_slice()) else {
        return Err(NoMemory);
    };
    push(text, b"\n")
}

/// The lines of broken rules, in their order.
pub fn fault_lines(
    alloc: Global,
    program: &Program,
    reports: &[Report],
) -> Result<Vec<u8>, NoMemory>
    ensures { IfOk result (λ text. text.items ≡ spec.fault_lines program.now reports.now) }
{
    let mut text = Vec::new(alloc);
    for report in reports {
        let Ok(()) = push_fault(&mut text, program, report) else {
            return Err(NoMemory);
        };
    }
    Ok(text)
}

fn push_type(
    text: &mut Vec<u8>,
    program: &Program,
    method: MethodId,
    pc: u32,
    rule: u8,
) -> Result<(), NoMemory>
    ensures { OnOk result (text.new.items ≡ text.old.items ++ spec.type_line program.now method pc rule) }
{
    let Ok(()) = push_placed(text, program, b"type ", method, pc) else {
        return Err(NoMemory);
    };
    let Ok(()) = push(text, b" rule ") else {
        return Err(NoMemory);
    };
    let Ok(()) = push_number(text, u64::from(rule)) else {
        return Err(NoMemory);
    };
    push(text, b"\n")
}

/// The line of a broken rule of typing, with its line feed.
pub fn type_line(
    alloc: Global,
    program: &Program,
    method: MethodId,
    pc: u32,
    rule: u8,
) -> Result<Vec<u8>, NoMemory>
    ensures { IfOk result (λ text. text.items ≡ spec.type_line program.now method pc rule) }
{
    let mut text = Vec::new(alloc);
    let Ok(()) = push_type(&mut text, program, method, pc, rule) else {
        return Err(NoMemory);
    };
    Ok(text)
}
