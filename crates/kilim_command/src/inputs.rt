//! The bytes of the files that the words name.

ghost use Rattle.std.specs.Prelude.{◌≡◌, map, IfOk};
ghost use Rattle.std.specs.Option.{option_copied};
ghost use Rattle.std.specs.String.{string_bytes};
ghost use Rattle.kilim_outside.specs.Causes.{FolderCause};
ghost use Rattle.kilim_outside.specs.declared.folder.FailedCall.TheVariants.{Read};
ghost use Rattle.kilim_command.specs.Reads.{ReadsCause, WasRead, WereRead, WereReadBehind};
ghost use Rattle.kilim_command.specs.grammar.Parts.{listed_word, meant};
ghost use Rattle.kilim_command.specs.grammar.Words.{files_read};

use crate::grammar::Asked;
use kilim_outside::{Folder, FolderFault};
use kilim_units::Seq;
use std::alloc::Global;

#[tactic(auto, using(crate::proofs::Named::was_read))]
fn read_one<F: Folder>(alloc: Global, name: &str, files: &mut F) -> Result<Seq<u8>, FolderFault>
    ensures read { IfOk result (λ bytes. WasRead (F.contents files.old) name.now bytes) }
    ensures contents { F.contents files.new ≡ F.contents files.old }
    ensures cause { FolderCause (Read name.now) (F.faults files.old) (F.faults files.new) result }
{
    let mut bytes = Vec::new(alloc);
    match files.read(name, &mut bytes) {
        Ok(()) => Ok(Seq::from_vec(bytes)),
        Err(fault) => Err(fault),
    }
}

// Reads one file more, where there is a name.
fn read_behind<F: Folder>(
    alloc: Global,
    name: Option<&str>,
    mut read: Seq<Seq<u8>>,
    files: &mut F,
) -> Result<Seq<Seq<u8>>, FolderFault>
    ensures read { IfOk result (WereReadBehind (F.contents files.old) (listed_word (option_copied name.entry)) read) }
    ensures contents { F.contents files.new ≡ F.contents files.old }
    ensures cause { ReadsCause (listed_word (option_copied name.entry)) (F.faults files.old) (F.faults files.new) result }
{
    let Some(name) = name else {
        return Ok(read);
    };
    match read_one(alloc, name, files) {
        Ok(bytes) => match read.push(bytes) {
            Ok(()) => Ok(read),
            Err(_) => Err(FolderFault::NoMemory),
        },
        Err(fault) => Err(fault),
    }
}

/// Reads the files of these names in order, up to the first that can't be read.
pub fn read_all<F: Folder>(
    alloc: Global,
    names: &[String],
    files: &mut F,
) -> Result<Seq<Seq<u8>>, FolderFault>
    ensures read { IfOk result (λ read. WereRead (F.contents files.old) (map string_bytes names.now) read) }
    ensures contents { F.contents files.new ≡ F.contents files.old }
    ensures cause { ReadsCause (map string_bytes names.now) (F.faults files.old) (F.faults files.new) result }
{
    let mut read = Seq::new(alloc);
    for name in names {
        match read_one(alloc, name.as_str(), files) {
            Ok(bytes) => {
                let Ok(()) = read.push(bytes) else {
                    return Err(FolderFault::NoMemory);
                };
            }
            Err(fault) => return Err(fault),
        }
    }
    Ok(read)
}

/// Reads the files that the words name, the class files first, up to the first that can't be read.
pub fn read_asked<F: Folder>(
    alloc: Global,
    asked: &Asked<'_>,
    files: &mut F,
) -> Result<Seq<Seq<u8>>, FolderFault>
    ensures read { IfOk result (λ read. WereRead (F.contents files.old) (files_read (meant asked.now)) read) }
    ensures contents { F.contents files.new ≡ F.contents files.old }
    ensures cause { ReadsCause (files_read (meant asked.now)) (F.faults files.old) (F.faults files.new) result }
{
    match read_all(alloc, asked.files(), files) {
        Ok(read) => read_behind(alloc, asked.other(), read, files),
        Err(fault) => Err(fault),
    }
}
