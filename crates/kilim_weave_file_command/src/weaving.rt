//! Woven files with their paths.

ghost use Rattle.std.specs.Prelude.{◌≡◌, ◌≤◌, IfOk, length, map};
ghost use Rattle.std.specs.String.{string_bytes};
ghost use Rattle.kilim_stages.specs.Parts.{IfReport};
ghost use Rattle.kilim_weave_file_command.specs.woven_files.Reports.{IsWeaveReport};
ghost use Rattle.kilim_weave_file_command.specs.woven_files.WovenFiles.{AreWovenFiles};
ghost use Rattle.kilim_weave_file_command.specs.Weaving.{IsWeaving, output_of};

use crate::woven_files::{
    Refusal, WovenFile, path_of, wove_lines, woven_files, woven_files_have_own_paths,
};
use kilim_outside::written::OutputFile;
use kilim_units::{NoMemory, Seq};
use std::alloc::Global;

/// What is to be written: files, and then a text.
#[derive(Drop)]
pub struct WeaveOutput {
    pub files: Vec<OutputFile>,
    pub text: Vec<u8>,
}

// A woven file below a directory.
fn output_of(alloc: Global, to: &str, file: WovenFile) -> Result<OutputFile, NoMemory>
    ensures { IfOk result (λ output. output ≡ output_of to.now file) }
{
    let Ok(path) = path_of(alloc, to, &file) else {
        return Err(NoMemory);
    };
    Ok(OutputFile {
        path,
        bytes: file.bytes,
    })
}

fn outputs_of(alloc: Global, to: &str, files: Vec<WovenFile>) -> Result<Vec<OutputFile>, NoMemory>
    ensures { IfOk result (λ outputs. outputs.items ≡ map (output_of to.now) files.items) }
{
    let mut outputs = Seq::new(alloc);
    for file in files {
        let Ok(output) = output_of(alloc, to, file) else {
            return Err(NoMemory);
        };
        let Ok(()) = outputs.push(output) else {
            return Err(NoMemory);
        };
    }
    Ok(outputs.into_vec())
}

// The files and the text of woven files.
fn with_lines(
    alloc: Global,
    to: &str,
    files: &[Seq<u8>],
    woven: Vec<WovenFile>,
) -> Result<WeaveOutput, NoMemory>
    requires few { length files.now ≤ 1000 }
    requires woven { AreWovenFiles files.now woven.items }
    ensures { IfOk result (λ output. IsWeaving to.now files.now output.files.items output.text.items) }
{
    woven_files_have_own_paths();
    let _files = files;
    let Ok(text) = wove_lines(alloc, woven.as_slice()) else {
        return Err(NoMemory);
    };
    let Ok(outputs) = outputs_of(alloc, to, woven) else {
        return Err(NoMemory);
    };
    Ok(WeaveOutput {
        files: outputs,
        text,
    })
}

/// What is to be written for the class files with these bytes: their woven files below the directory `to`, in their order, and a line
/// for each; or the report of the first stage that has a fault, as bytes. There are at most 1,000 files, and a name for each.
///
/// The file of a class has its name, with `.class` behind; each has a path of its own.
pub fn weave_files(
    alloc: Global,
    to: &str,
    names: &[String],
    files: &[Seq<u8>],
) -> Result<WeaveOutput, Refusal>
    requires few { length files.now ≤ 1000 }
    requires same { length names.now ≡ length files.now }
    ensures made { IfOk result (λ output. IsWeaving to.now files.now output.files.items output.text.items) }
    ensures report { IfReport result (IsWeaveReport (map string_bytes names.now) files.now) }
{
    match woven_files(alloc, names, files) {
        Ok(woven) => match with_lines(alloc, to, files, woven) {
            Ok(output) => Ok(output),
            Err(_) => Err(Refusal::NoMemory),
        },
        Err(refusal) => Err(refusal),
    }
}
