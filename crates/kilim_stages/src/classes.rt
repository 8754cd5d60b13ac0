//! From the bytes of files to the class files that they are.

ghost use Rattle.std.specs.Prelude.{◌≡◌, Ok, length, map, IfOk};
ghost use Rattle.std.specs.List.{AllByRecursion};
ghost use Rattle.std.specs.String.{string_bytes};
ghost use Rattle.kilim_class_file.specs.Reading.{read_class};
ghost use Rattle.kilim_reports.specs.ClassLines.{class_line};
ghost use Rattle.kilim_stages.specs.Parts.{Refused, IfReport, IsFaultLine};
ghost use Rattle.kilim_stages.specs.Reports.{IsClassReport};
ghost use Rattle.kilim_stages.specs.ProgramOf.{IsFile, AreFiles};

use crate::refusal::Refusal;
use kilim_class_file::{ClassFault, ClassFile};
use kilim_units::Seq;
use std::alloc::Global;

// The line of a file that is no class file.
fn refused(alloc: Global, name: &str, fault: &ClassFault) -> Refusal
    ensures { Refused result (λ text. text ≡ class_line name.now fault.now) }
{
    match kilim_reports::class_line(alloc, name, fault) {
        Ok(text) => Refusal::Report(text),
        Err(_) => Refusal::NoMemory,
    }
}

// The class file that these bytes are; or the report that they are none, of the file with that name.
fn class_file(alloc: Global, name: &str, bytes: &[u8]) -> Result<ClassFile, Refusal>
    ensures file { IfOk result (λ file. IsFile bytes.now file) }
    ensures read { IfOk result (λ file. read_class bytes.now ≡ Ok file) }
    ensures report { IfReport result (λ text. IsFaultLine name.now bytes.now text) }
{
    match kilim_class_file::read(alloc, bytes) {
        Ok(file) => Ok(file),
        Err(ClassFault::Memory) => Err(Refusal::NoMemory),
        Err(fault) => Err(refused(alloc, name, &fault)),
    }
}

/// The class files that these bytes are, in their order; or the report of the first that is none. There is a name for
/// each.
pub fn classes_of(
    alloc: Global,
    names: &[String],
    files: &[Seq<u8>],
) -> Result<Seq<ClassFile>, Refusal>
    requires { length names.now ≡ length files.now }
    ensures files { IfOk result (λ classes. AreFiles files.now classes) }
    ensures report { IfReport result (λ text. IsClassReport (map string_bytes names.now) files.now text) }
{
    let mut classes = Seq::new(alloc);
    for (i, name) in names.iter().enumerate() {
        match class_file(alloc, name.as_str(), files[i].as_slice()) {
            Ok(file) => match classes.push(file) {
                Ok(()) => {}
                Err(_) => return Err(Refusal::NoMemory),
            },
            Err(refusal) => return Err(refusal),
        }
    }
    Ok(classes)
}
