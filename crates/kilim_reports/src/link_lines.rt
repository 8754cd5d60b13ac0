//! The line of class files that don't link.

ghost use Rattle.std.specs.Prelude.{◌≡◌, ◌++◌, IfOk, OnOk, codes};
ghost use Rattle.std.specs.Fmt.{decimal};
ghost use Rattle.kilim_link_spec.specs.declared.fault.LeftOutPart.TheVariants as part;
ghost use Rattle.kilim_reports.specs.Names.{method_text};
ghost use Rattle.kilim_reports.specs.LinkLines.{part_word, fault_place, member_text, problem_words, link_line};
ghost use Rattle.kilim_reports.specs.Problems.{problem_word, problem_told};

use crate::lines::push_number;
use crate::names::{push_descriptor, push_member_name, push_method, push_named};
use crate::texts::push;
use kilim_class_code::CodeFault;
use kilim_class_file::MemberName;
use kilim_link_spec::{LeftOutPart, MemberOf, Problem};
use kilim_units::{NoMemory, Units};
use std::alloc::Global;

fn push_member(text: &mut Vec<u8>, member: &MemberOf) -> Result<(), NoMemory>
    ensures { OnOk result (text.new.items ≡ text.old.items ++ member_text member.now) }
{
    let Ok(()) = push_member_name(text, &member.owner) else {
        return Err(NoMemory);
    };
    let Ok(()) = push(text, b".") else {
        return Err(NoMemory);
    };
    push_named(text, &member.name, &member.descriptor)
}

fn push_opcode(text: &mut Vec<u8>, number: u8) -> Result<(), NoMemory>
    ensures { OnOk result (text.new.items ≡ text.old.items ++ part_word (part.Opcode number)) }
{
    let Ok(()) = push(text, b"opcode-") else {
        return Err(NoMemory);
    };
    push_number(text, u64::from(number))
}

fn push_part(text: &mut Vec<u8>, part: LeftOutPart) -> Result<(), NoMemory>
    ensures { OnOk result (text.new.items ≡ text.old.items ++ part_word part) }
{
    let word: &[u8] = match part {
        LeftOutPart::Opcode(number) => return push_opcode(text, number),
        LeftOutPart::Float => b"float",
        LeftOutPart::ClassInitializer => b"clinit",
        LeftOutPart::StaticField => b"static-field",
        LeftOutPart::Synchronized => b"synchronized",
        LeftOutPart::Native => b"native",
        LeftOutPart::Interface => b"interface",
        LeftOutPart::NoSuperFlag => b"no-super-flag",
        LeftOutPart::PausableConstructor => b"pausable-constructor",
        LeftOutPart::PausableHandlers => b"pausable-handlers",
        LeftOutPart::TaskArray => b"task-array",
        LeftOutPart::Fiber => b"fiber",
        LeftOutPart::ParameterAnnotations => b"parameter-annotations",
    };
    push(text, word)
}

fn fault_place(fault: CodeFault) -> u32
    ensures { result ≡ fault_place fault }
{
    match fault {
        CodeFault::Op(_, at) | CodeFault::MidTarget(at, _) | CodeFault::FallsOff(at) => at,
        CodeFault::Memory => 0,
    }
}

// A method, and the place of a fault in its code.
fn push_code(text: &mut Vec<u8>, method: &MemberName, fault: CodeFault) -> Result<(), NoMemory>
    ensures { OnOk result (text.new.items ≡ text.old.items ++ (codes "code " ++ (method_text method.now ++ (codes " " ++ decimal (fault_place fault))))) }
{
    let Ok(()) = push(text, b"code ") else {
        return Err(NoMemory);
    };
    let Ok(()) = push_method(text, method) else {
        return Err(NoMemory);
    };
    let Ok(()) = push(text, b" ") else {
        return Err(NoMemory);
    };
    push_number(text, u64::from(fault_place(fault)))
}

// A method, and the number of an entry of its exception table.
fn push_handler(text: &mut Vec<u8>, method: &MemberName, number: usize) -> Result<(), NoMemory>
    ensures { OnOk result (text.new.items ≡ text.old.items ++ (method_text method.now ++ (codes " " ++ decimal number))) }
{
    let Ok(()) = push_method(text, method) else {
        return Err(NoMemory);
    };
    let Ok(()) = push(text, b" ") else {
        return Err(NoMemory);
    };
    push_number(text, number as u64)
}

// The word of a problem.
fn problem_word(problem: &Problem) -> &[u8]
    ensures { result.now ≡ problem_word problem.now }
{
    match problem {
        Problem::Twice(_) => b"twice ",
        Problem::Missing(_) => b"missing ",
        Problem::Circular => b"circular",
        Problem::NoMember(_) => b"no-member ",
        Problem::LeftOut(_) => b"left-out ",
        Problem::Both => b"both",
        Problem::FieldKind(_) => b"field-kind ",
        Problem::OverrideDiffers(_) => b"override ",
        Problem::Code(_, _) => b"",
        Problem::Descriptor(_) => b"descriptor ",
        Problem::SuperKind => b"super",
        Problem::Name => b"name",
        Problem::AbstractLeft(_) => b"abstract ",
        Problem::Handler(_, _) => b"handler ",
    }
}

// What is told of it.
fn push_told(text: &mut Vec<u8>, problem: &Problem) -> Result<(), NoMemory>
    ensures { OnOk result (text.new.items ≡ text.old.items ++ problem_told problem.now) }
{
    match problem {
        Problem::Twice(name) | Problem::Missing(name) => push_member_name(text, name),
        Problem::FieldKind(field) => push_member_name(text, &field.name),
        Problem::NoMember(member) => push_member(text, member),
        Problem::LeftOut(part) => push_part(text, *part),
        Problem::OverrideDiffers(method) | Problem::AbstractLeft(method) => {
            push_method(text, method)
        }
        Problem::Code(method, fault) => push_code(text, method, *fault),
        Problem::Handler(method, number) => push_handler(text, method, *number),
        Problem::Descriptor(descriptor) => push_descriptor(text, descriptor),
        Problem::Circular | Problem::Both | Problem::SuperKind | Problem::Name => Ok(()),
    }
}

fn push_problem(text: &mut Vec<u8>, problem: &Problem) -> Result<(), NoMemory>
    ensures { OnOk result (text.new.items ≡ text.old.items ++ problem_words problem.now) }
{
    let Ok(()) = push(text, problem_word(problem)) else {
        return Err(NoMemory);
    };
    let Ok(()) = push_told(text, problem) else {
        return Err(NoMemory);
    };
    Ok(())
}

fn push_line(text: &mut Vec<u8>, class: &Units, problem: &Problem) -> Result<(), NoMemory>
    ensures { OnOk result (text.new.items ≡ text.old.items ++ link_line class.now problem.now) }
{
    let Ok(()) = push(text, b"link ") else {
        return Err(NoMemory);
    };
    let Ok(()) = push_member_name(text, class) else {
        return Err(NoMemory);
    };
    let Ok(()) = push(text, b" ") else {
        return Err(NoMemory);
    };
    let Ok(()) = push_problem(text, problem) else {
        return Err(NoMemory);
    };
    push(text, b"\n")
}

/// The line of class files that don't link: `link`, the name of the class, and the words of its first problem. A name that
/// is exactly `<init>` keeps its brackets, whatever it names.
pub fn link_line(alloc: Global, class: &Units, problem: &Problem) -> Result<Vec<u8>, NoMemory>
    ensures { IfOk result (λ text. text.items ≡ link_line class.now problem.now) }
{
    let mut text = Vec::new(alloc);
    let Ok(()) = push_line(&mut text, class, problem) else {
        return Err(NoMemory);
    };
    Ok(text)
}
