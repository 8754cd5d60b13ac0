//! Linking.

ghost use Rattle.std.specs.Prelude.{◌≡◌, true, IfSome};
ghost use Rattle.std.specs.List.{AllByRecursion};
ghost use Rattle.kilim_class_file.specs.Text.{ClassFits};

use kilim_case_text::{Text, changed};
use kilim_class_file::ClassFile;
use kilim_link::link;
use kilim_link_spec::LinkFault;
use kilim_program::{Form, Program};
use kilim_reports::link_line;
use kilim_type_spec::Typed;
use kilim_type_verify::verify;
use std::alloc::Global;
use std::rt::Files;

// The most files of a program.
const MOST_FILES: usize = 1000;

/// Puts a class file behind the others; whether there was memory.
#[tactic(auto, using(crate::proofs::More::one_more))]
pub fn push_class(files: &mut Vec<ClassFile>, file: ClassFile) -> bool
    requires { ClassFits file }
    ensures { result ≡ true → AllByRecursion ClassFits files.old.items → AllByRecursion ClassFits files.new.items }
{
    match files.push(file) {
        Ok(()) => true,
        Err(_) => false,
    }
}

// Reads a class file behind the others; whether that was possible.
fn push_read<R: Files>(rt: &R, alloc: Global, word: &str, files: &mut Vec<ClassFile>) -> bool
    ensures { result ≡ true → AllByRecursion ClassFits files.old.items → AllByRecursion ClassFits files.new.items }
{
    let Some(bytes) = changed(rt, alloc, word) else {
        return false;
    };
    match kilim_class_file::read(alloc, bytes.as_slice()) {
        Ok(file) => push_class(files, file),
        Err(_) => false,
    }
}

/// The class files of these words, in order.
pub fn class_files<R: Files>(rt: &R, alloc: Global, words: &[String]) -> Option<Vec<ClassFile>>
    ensures { IfSome result (λ files. AllByRecursion ClassFits files.items) }
{
    let mut files = Vec::new(alloc);
    for word in words {
        if !push_read(rt, alloc, word.as_str(), &mut files) {
            return None;
        }
    }
    Some(files)
}

// The program of class files in a form.
fn linked(alloc: Global, files: &[ClassFile], form: Form) -> Result<Program, LinkFault>
    requires { AllByRecursion ClassFits files.now }
{
    if files.len() > MOST_FILES {
        return Err(LinkFault::Memory);
    }
    link(alloc, files, form)
}

/// The program of class files with its frames; nothing where linking or typing has a fault, or for want of memory.
pub fn typed(alloc: Global, files: &[ClassFile]) -> Option<Typed>
    requires { AllByRecursion ClassFits files.now }
{
    match linked(alloc, files, Form::Plain) {
        Ok(program) => verify(alloc, program).ok(),
        Err(_) => None,
    }
}

fn push_program(text: &mut Text, program: &Program) {
    text.word("linked ");
    text.number(program.classes.len());
    text.word(" ");
    text.number(program.methods.len());
    text.word(" ");
    text.number(program.fields.len());
    text.word("\n");
}

fn push_fault(text: &mut Text, alloc: Global, fault: &LinkFault) {
    match fault {
        LinkFault::InClass(class, problem) => text.part(link_line(alloc, class, problem).ok()),
        LinkFault::Memory => text.lacks(),
    }
}

// The line of class files in a form.
fn push_linked(text: &mut Text, alloc: Global, files: &[ClassFile], form: Form)
    requires { AllByRecursion ClassFits files.now }
{
    match linked(alloc, files, form) {
        Ok(program) => push_program(text, &program),
        Err(fault) => push_fault(text, alloc, &fault),
    }
}

/// `link FORM FILE..`: the forms are `plain` and `woven`.
pub fn link_case<R: Files>(text: &mut Text, rt: &R, alloc: Global, words: &[String]) {
    let [form, names @ ..] = words else {
        text.lacks();
        return;
    };
    let form = match form.as_str() {
        "plain" => Form::Plain,
        "woven" => Form::Woven,
        _ => {
            text.lacks();
            return;
        }
    };
    match class_files(rt, alloc, names) {
        Some(files) => push_linked(text, alloc, files.as_slice(), form),
        None => text.lacks(),
    }
}
