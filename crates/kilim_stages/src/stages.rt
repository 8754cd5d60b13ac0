//! The stages, one after the other.

ghost use Rattle.std.specs.Prelude.{◌≡◌, ◌≤◌, length, map, IfOk};
ghost use Rattle.std.specs.List.{AllByRecursion};
ghost use Rattle.std.specs.String.{string_bytes};
ghost use Rattle.kilim_program.specs.Keeps.{Keeps};
ghost use Rattle.kilim_class_file.specs.Text.{ClassFits};
ghost use Rattle.kilim_reports.specs.LinkLines.{link_line};
ghost use Rattle.kilim_reports.specs.RuleLines.{fault_lines, type_line};
ghost use Rattle.kilim_stages.specs.Accepted.{IsAcceptedOf, IsTypedOf, typed_of};
ghost use Rattle.kilim_stages.specs.Parts.{Refused, IfReport, IsIsolated, IsLinkLine, IsTypeLine, IsTyped, IsTypedFrom, IsTypingLine, LinksTo, AreRuleLinesOf};
ghost use Rattle.kilim_stages.specs.Reports.{IsStageReport, IsTypingReport};
ghost use Rattle.kilim_stages.specs.Runs.{RunsApart};

use crate::classes::classes_of;
use crate::laws::accepted_runs_apart;
use crate::refusal::Refusal;
use kilim_class_file::ClassFile;
use kilim_isolation::{CheckFault, Isolated, Report, check_program};
use kilim_link::link;
use kilim_link_spec::{LinkFault, Problem, linked_in_parts};
use kilim_program::{Form, MethodId, Program};
use kilim_reports::{fault_lines, link_line, type_line};
use kilim_type_spec::Typed;
use kilim_type_verify::{TypeFault, verify};
use kilim_units::{Seq, Units};
use std::alloc::Global;

// The line of class files that don't link.
fn link_refusal(alloc: Global, class: &Units, problem: &Problem) -> Refusal
    ensures { Refused result (λ text. text ≡ link_line class.now problem.now) }
{
    match link_line(alloc, class, problem) {
        Ok(text) => Refusal::Report(text),
        Err(_) => Refusal::NoMemory,
    }
}

// The program to which class files link, or the line of their first problem.
fn linked(alloc: Global, classes: &[ClassFile]) -> Result<Program, Refusal>
    requires few { length classes.now ≤ 1000 }
    requires fit { AllByRecursion ClassFits classes.now }
    ensures program { IfOk result (λ program. LinksTo classes.now program) }
    ensures report { IfReport result (IsLinkLine classes.now) }
{
    match link(alloc, classes, Form::Plain) {
        Ok(program) => Ok(program),
        Err(LinkFault::InClass(class, problem)) => {
            let refusal = link_refusal(alloc, &class, &problem);
            drop(problem);
            Err(refusal)
        }
        Err(LinkFault::Memory) => Err(Refusal::NoMemory),
    }
}

// The line of a broken rule of typing.
fn type_refusal(alloc: Global, program: &Program, method: MethodId, place: u32, rule: u8) -> Refusal
    ensures { Refused result (λ text. text ≡ type_line program.now method place rule) }
{
    match type_line(alloc, program, method, place, rule) {
        Ok(text) => Refusal::Report(text),
        Err(_) => Refusal::NoMemory,
    }
}

// The program with the frames at its places, or the line of its first type fault.
fn typed(alloc: Global, program: Program) -> Result<Typed, Refusal>
    ensures typed { IfOk result (IsTyped program) }
    ensures report { IfReport result (IsTypeLine program) }
{
    match verify(alloc, program) {
        Ok(typed) => Ok(typed),
        Err(TypeFault::Rule(program, method, place, rule)) => {
            let refusal = type_refusal(alloc, &program, method, place, rule);
            drop(program);
            Err(refusal)
        }
        Err(TypeFault::Memory) => Err(Refusal::NoMemory),
    }
}

// The lines of broken rules of isolation and pausing.
fn rules_refusal(alloc: Global, program: &Program, reports: &[Report]) -> Refusal
    ensures { Refused result (λ text. text ≡ fault_lines program.now reports.now) }
{
    match fault_lines(alloc, program, reports) {
        Ok(text) => Refusal::Report(text),
        Err(_) => Refusal::NoMemory,
    }
}

// The program where it breaks no rule of isolation or pausing, or the lines of all that it breaks.
fn isolated(alloc: Global, typed: Typed) -> Result<Isolated, Refusal>
    ensures isolated { IfOk result (IsIsolated typed) }
    ensures report { IfReport result (AreRuleLinesOf typed) }
{
    match check_program(alloc, typed) {
        Ok(isolated) => Ok(isolated),
        Err(CheckFault::Reports(program, reports)) => {
            let refusal = rules_refusal(alloc, &program, reports.as_slice());
            drop(program);
            drop(reports);
            Err(refusal)
        }
        Err(CheckFault::Memory) => Err(Refusal::NoMemory),
    }
}

// The typed program to which class files link, or the line of their first problem, or of the first broken rule of typing.
fn typed_from(alloc: Global, classes: &[ClassFile]) -> Result<Typed, Refusal>
    requires few { length classes.now ≤ 1000 }
    requires fit { AllByRecursion ClassFits classes.now }
    ensures typed { IfOk result (IsTypedFrom classes.now) }
    ensures report { IfReport result (IsTypingLine classes.now) }
{
    match linked(alloc, classes) {
        Ok(program) => typed(alloc, program),
        Err(refusal) => Err(refusal),
    }
}

/// The typed program of the class files with these bytes, linked in their order, with the frames at its places; or the report of the first
/// stage that has a fault: a file that is no class file, by its name, a class that doesn't link, or a broken rule of typing. There are at
/// most 1,000 files, and a name for each.
pub fn typed_program(alloc: Global, names: &[String], files: &[Seq<u8>]) -> Result<Typed, Refusal>
    requires few { length files.now ≤ 1000 }
    requires same { length names.now ≡ length files.now }
    ensures typed { IfOk result (λ typed. IsTypedOf files.now typed.program) }
    ensures frames { IfOk result (λ typed. typed ≡ typed_of typed.program) }
    ensures plain { IfOk result (λ typed. typed.program.form ≡ Form.Plain) }
    ensures report { IfReport result (IsTypingReport (map string_bytes names.now) files.now) }
{
    linked_in_parts();
    match classes_of(alloc, names, files) {
        Ok(classes) => typed_from(alloc, classes.as_slice()),
        Err(refusal) => Err(refusal),
    }
}

// What the type of a typed program keeps of it.
fn open(typed: &Typed)
    ensures { Keeps typed.now.program }
{
    let program = &typed.program;
    let _classes = &program.classes;
}

/// The accepted program of the class files with these bytes, linked in their order; or the report of the first stage
/// that has a fault: a file that is no class file, by its name, a class that doesn't link, a broken rule of typing, or all
/// broken rules of isolation and pausing. Where it is accepted, in no interleaving is an object reached by two threads, whatever the
/// main class and the limits are (`RunsApart`). There are at most 1,000 files, and a name for each.
pub fn accepted(alloc: Global, names: &[String], files: &[Seq<u8>]) -> Result<Isolated, Refusal>
    requires few { length files.now ≤ 1000 }
    requires same { length names.now ≡ length files.now }
    ensures accepted { IfOk result (λ isolated. IsAcceptedOf files.now isolated.typed.program) }
    ensures runs { IfOk result (λ isolated. RunsApart isolated.typed.program) }
    ensures report { IfReport result (IsStageReport (map string_bytes names.now) files.now) }
{
    accepted_runs_apart();
    match typed_program(alloc, names, files) {
        Ok(typed) => {
            open(&typed);
            isolated(alloc, typed)
        }
        Err(refusal) => Err(refusal),
    }
}
