//! The stage, after that of kilim_stages::woven_stage.

ghost use Rattle.std.specs.Prelude.{◌≡◌, ◌≤◌, length, map, None, IfOk};
ghost use Rattle.std.specs.List.{AllByRecursion};
ghost use Rattle.std.specs.String.{string_bytes};
ghost use Rattle.kilim_class_file.specs.Reading.{read_class};
ghost use Rattle.kilim_stages.specs.Accepted.{IsAcceptedOf};
ghost use Rattle.kilim_stages.specs.Parts.{IfReport};
ghost use Rattle.kilim_stages.specs.ProgramOf.{AreFiles, IsFile};
ghost use Rattle.kilim_weave.specs.Faults.{weave_fault};
ghost use Rattle.kilim_weave.specs.Weaves.{Weaves};
ghost use Rattle.kilim_weave_file_command.specs.woven_files.Reports.{IsSizeReport, IsWeaveReport};
ghost use Rattle.kilim_weave_file_command.specs.woven_files.WovenFiles.{AreWovenFiles};

use crate::woven_files::made::WovenFile;
use crate::woven_files::outputs::woven_classes;
use kilim_class_file::{ClassFile, class_file_is_spelled};
use kilim_link_spec::linked_in_parts;
use kilim_program::Program;
use kilim_stages::Refusal;
use kilim_stages::woven_stage::woven_program;
use kilim_units::{NoMemory, Seq};
use kilim_weave::Woven;
use std::alloc::Global;

// A class file of accepted ones is read a second time. Where that failed, it would be answered as want of memory.
fn class_file(alloc: Global, bytes: &[u8]) -> Result<ClassFile, NoMemory>
    ensures { IfOk result (IsFile bytes.now) }
{
    class_file_is_spelled();
    match kilim_class_file::read(alloc, bytes) {
        Ok(file) => Ok(file),
        Err(_) => Err(NoMemory),
    }
}

fn class_files(alloc: Global, files: &[Seq<u8>]) -> Result<Seq<ClassFile>, NoMemory>
    ensures { IfOk result (λ classes. AreFiles files.now classes) }
{
    let mut classes = Seq::new(alloc);
    for i in 0..files.len() {
        let Ok(file) = class_file(alloc, files[i].as_slice()) else {
            return Err(NoMemory);
        };
        let Ok(()) = classes.push(file) else {
            return Err(NoMemory);
        };
    }
    Ok(classes)
}

// The woven files of a woven program, or the report of the first that may get too large.
fn files_of(
    alloc: Global,
    files: &[Seq<u8>],
    program: &Program,
    woven: &Woven,
) -> Result<Vec<WovenFile>, Refusal>
    requires few { length files.now ≤ 1000 }
    requires accepted { IsAcceptedOf files.now program.now }
    requires none { weave_fault program.now ≡ None }
    requires weaves { Weaves program.now woven.now }
    ensures woven { IfOk result (λ outputs. AreWovenFiles files.now outputs.items) }
    ensures report { IfReport result (IsSizeReport files.now) }
{
    class_file_is_spelled();
    linked_in_parts();
    match class_files(alloc, files) {
        Ok(classes) => woven_classes(alloc, classes.as_slice(), program, woven),
        Err(_) => Err(Refusal::NoMemory),
    }
}

/// The woven class files of the class files with these bytes, in their order (own, after Srinivasan and Mycroft, "Kilim:
/// Isolation-Typed Actors for Java", 2008); or the report of the first stage that has a fault, as bytes.
///
/// A report is one of those of kilim_stages: a file that is no class file, by its name, a class that doesn't link, a broken rule
/// of typing, or all broken rules of isolation and pausing. Else it is the line of the first method that can't be woven, being too
/// long or without room for an argument; else that of the first file that may get too large, by its pool or its length. So all
/// is known to fit before anything is answered.
///
/// The bytes are those of class files that link, in woven form and without a fault, to the woven form of the program: they are linked,
/// and the program compared, before they are answered. Where that failed, want of memory would be answered. There are at most 1,000
/// files, and a name for each.
pub fn woven_files(
    alloc: Global,
    names: &[String],
    files: &[Seq<u8>],
) -> Result<Vec<WovenFile>, Refusal>
    requires few { length files.now ≤ 1000 }
    requires same { length names.now ≡ length files.now }
    ensures woven { IfOk result (λ outputs. AreWovenFiles files.now outputs.items) }
    ensures report { IfReport result (IsWeaveReport (map string_bytes names.now) files.now) }
{
    match woven_program(alloc, names, files) {
        Ok(made) => {
            let outputs = files_of(alloc, files, &made.plain, &made.woven);
            drop(made);
            outputs
        }
        Err(refusal) => Err(refusal),
    }
}
