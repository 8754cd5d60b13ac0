//! From class files to a woven program with its main class.

ghost use Rattle.std.specs.Prelude.{◌≡◌, ◌≤◌, ◌++◌, None, Some, codes, length, map, IfOk};
ghost use Rattle.std.specs.Fmt.{decimal};
ghost use Rattle.std.specs.String.{string_bytes};
ghost use Rattle.kilim_command.specs.Report.{named_line};
ghost use Rattle.kilim_image_command.specs.Parts.{HasClass, HasNoClass, IsStarted};
ghost use Rattle.kilim_image_command.specs.Programs.{IsStartReport, names_from};
ghost use Rattle.kilim_stages.specs.Parts.{IfReport, Refused};

use kilim_command::no_main;
use kilim_program::{ClassId, Program};
use kilim_stages::Refusal;
use kilim_stages::woven_stage::{WovenProgram, with_main, woven_program};
use kilim_units::{NoMemory, Seq};
use kilim_weave::Woven;
use std::alloc::Global;

/// An accepted program and its woven form, with the class that is run.
#[derive(Drop)]
pub struct Started {
    pub plain: Program,
    pub woven: Woven,
    pub main: ClassId,
}

// No class of that name is fit to be the main class.
fn without_main(alloc: Global, name: &[u16]) -> Refusal
    ensures { Refused result (λ text. text ≡ named_line name.now) }
{
    match no_main(alloc, name) {
        Ok(text) => Refusal::Report(text),
        Err(_) => Refusal::NoMemory,
    }
}

// The program with its main class of that name.
fn with_class(alloc: Global, program: WovenProgram, name: &[u16]) -> Result<Started, Refusal>
    ensures class { IfOk result (HasClass program name.now) }
    ensures report { IfReport result (HasNoClass program name.now) }
{
    match with_main(program, name) {
        Ok(Some((found, main))) => Ok(Started {
            plain: found.plain,
            woven: found.woven,
            main,
        }),
        Ok(None) => Err(without_main(alloc, name)),
        Err(_) => Err(Refusal::NoMemory),
    }
}

/// The accepted program of the class files with these bytes, woven, with its main class of that name; or the report of the first stage that
/// has a fault. There are at most 1,000 files, and a name for each.
pub fn start_files(
    alloc: Global,
    names: &[String],
    files: &[Seq<u8>],
    name: &[u16],
) -> Result<Started, Refusal>
    requires few { length files.now ≤ 1000 }
    requires same { length names.now ≡ length files.now }
    ensures started { IfOk result (IsStarted name.now files.now) }
    ensures report { IfReport result (IsStartReport (map string_bytes names.now) name.now files.now) }
{
    match woven_program(alloc, names, files) {
        Ok(program) => with_class(alloc, program, name),
        Err(refusal) => Err(refusal),
    }
}

fn file_name(alloc: Global, number: usize) -> Result<String, NoMemory>
    ensures { IfOk result (λ name. string_bytes name ≡ codes "#" ++ decimal number) }
{
    match format!(in alloc; "#{number}") {
        Ok(name) => Ok(name),
        Err(_) => Err(NoMemory),
    }
}

/// A name for each of the files: its number, from 1 on.
pub fn numbered(alloc: Global, files: &[Seq<u8>]) -> Result<Vec<String>, NoMemory>
    ensures names { IfOk result (λ names. map string_bytes names.items ≡ names_from 1 files.now) }
    ensures many { IfOk result (λ names. length names.items ≡ length files.now) }
{
    let mut names = Vec::new(alloc);
    for at in 0..files.len() {
        let Ok(name) = file_name(alloc, at + 1) else {
            return Err(NoMemory);
        };
        let Ok(()) = names.push(name) else {
            return Err(NoMemory);
        };
    }
    Ok(names)
}
