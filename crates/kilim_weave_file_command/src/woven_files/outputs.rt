//! Woven class files are written, once they are known to link.

ghost use Rattle.std.specs.Prelude.{◌≡◌, ◌≤◌, length, map, IfOk};
ghost use Rattle.std.specs.List.{AllByRecursion, count_by};
ghost use Rattle.kilim_program.specs.Names.{method_at};
ghost use Rattle.kilim_class_file.specs.Text.{ClassFits};
ghost use Rattle.kilim_stages.specs.Parts.{IfReport};
ghost use Rattle.kilim_weave_file_command.specs.woven_files.Parts.{AreWovenFrom, HasEach, IsSizeReportIn};
ghost use Rattle.kilim_weave_file_command.specs.woven_files.WovenFiles.{AreOutputs, IsOutput, IsWovenProgramOf, can_pause, pausables_of};

use crate::woven_files::applied::applied;
use crate::woven_files::back::links_back;
use crate::woven_files::made::WovenFile;
use crate::woven_files::places::{class_at, file_at};
use crate::woven_files::text::text_of;
use kilim_class_file::{ClassFile, write};
use kilim_program::lookups::method_at;
use kilim_program::{Class, MethodId, Program};
use kilim_stages::Refusal;
use kilim_units::{NoMemory, Seq, unmet};
use kilim_weave::Woven;
use std::alloc::Global;

fn can_pause(program: &Program, id: MethodId) -> bool
    ensures { result ≡ can_pause (method_at program.now id) }
{
    match method_at(program, id) {
        Some(method) => method.pausable,
        None => false,
    }
}

// How many methods of a class can pause.
fn pausables_of(program: &Program, class: &Class) -> usize
    ensures { result ≡ pausables_of program.now class.now }
{
    let mut count = 0;
    for id in class.methods.as_slice() {
        if can_pause(program, *id) {
            count += 1;
        }
    }
    count
}

// A woven file of a class.
fn output_of(
    alloc: Global,
    program: &Program,
    class: &Class,
    file: &ClassFile,
) -> Result<WovenFile, NoMemory>
    requires { ClassFits file.now }
    ensures { IfOk result (λ output. IsOutput program.now class.now file.now output) }
{
    let Ok(bytes) = write(alloc, file) else {
        return Err(NoMemory);
    };
    let Ok(name) = text_of(alloc, &class.name) else {
        return Err(NoMemory);
    };
    let Ok(units) = class.name.clone() else {
        return Err(NoMemory);
    };
    Ok(WovenFile {
        class: units,
        name,
        bytes: Seq::from_vec(bytes),
        pausables: pausables_of(program, class),
    })
}

// A woven file for each class file.
fn outputs_of(
    alloc: Global,
    files: &[ClassFile],
    program: &Program,
) -> Result<Vec<WovenFile>, NoMemory>
    requires fit { AllByRecursion ClassFits files.now }
    requires classes { length files.now ≤ length program.now.classes }
    ensures { IfOk result (λ outputs. AreOutputs program.now program.now.classes files.now outputs.items) }
{
    let mut outputs = Seq::new(alloc);
    for at in 0..files.len() {
        let file = file_at(files, at);
        let class = class_at(program, at);
        let Ok(output) = output_of(alloc, program, class, file) else {
            return Err(NoMemory);
        };
        let Ok(()) = outputs.push(output) else {
            return Err(NoMemory);
        };
    }
    Ok(outputs.into_vec())
}

// The woven files of class files that link to the woven program. Where they didn't, want of memory would be answered.
fn linked_outputs(
    alloc: Global,
    files: &[ClassFile],
    program: &Program,
    woven: &Program,
) -> Result<Vec<WovenFile>, NoMemory>
    requires few { length files.now ≤ 1000 }
    requires fit { AllByRecursion ClassFits files.now }
    requires classes { length files.now ≤ length program.now.classes }
    ensures outputs { IfOk result (λ outputs. AreOutputs program.now program.now.classes files.now outputs.items) }
    ensures links { IfOk result (λ outputs. IsWovenProgramOf (map (λ (o : WovenFile). o.bytes) outputs.items) woven.now) }
{
    if !links_back(alloc, files, woven) {
        // unmet: the woven files link to the woven program
        return Err(unmet());
    }
    outputs_of(alloc, files, program)
}

/// The woven files of class files that link to a program, of which this is the woven form; or the report of the first that may get
/// too large.
pub fn woven_classes(
    alloc: Global,
    files: &[ClassFile],
    program: &Program,
    woven: &Woven,
) -> Result<Vec<WovenFile>, Refusal>
    requires few { length files.now ≤ 1000 }
    requires fit { AllByRecursion ClassFits files.now }
    requires each { HasEach program.now woven.now files.now }
    ensures woven { IfOk result (λ outputs. AreWovenFrom program.now woven.now files.now outputs.items) }
    ensures report { IfReport result (IsSizeReportIn program.now files.now) }
{
    let made = match applied(alloc, files, program, woven) {
        Ok(made) => made,
        Err(refusal) => return Err(refusal),
    };
    match linked_outputs(alloc, made.as_slice(), program, &woven.program) {
        Ok(outputs) => Ok(outputs),
        Err(_) => Err(Refusal::NoMemory),
    }
}
