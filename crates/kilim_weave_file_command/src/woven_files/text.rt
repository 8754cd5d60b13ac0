//! Names of classes as texts, and paths.

ghost use Rattle.std.specs.Prelude.{◌≡◌, IfOk};
ghost use Rattle.std.specs.String.{string_bytes};
ghost use Rattle.kilim_weave_file_command.specs.woven_files.WovenFiles.{path_of, utf16_of};

use crate::woven_files::made::WovenFile;
use kilim_units::{NoMemory, Units};
use std::alloc::Global;

/// The text with these UTF-16 units. The name of a linked class has no lone surrogate; where there were one, it would be answered
/// as want of memory.
pub fn text_of(alloc: Global, name: &Units) -> Result<String, NoMemory>
    ensures { IfOk result (λ text. utf16_of (string_bytes text) ≡ name.now) }
{
    match String::from_utf16(alloc, name.as_slice())? {
        Ok(text) => Ok(text),
        Err(_) => Err(NoMemory),
    }
}

/// Where a woven file lies below a directory: the class's name, with `.class`.
pub fn path_of(alloc: Global, to: &str, file: &WovenFile) -> Result<String, NoMemory>
    ensures { IfOk result (λ path. string_bytes path ≡ path_of to.now (string_bytes file.now.name)) }
{
    let name = file.name.as_str();
    let Ok(path) = format!(in alloc; "{to}/{name}.class") else {
        return Err(NoMemory);
    };
    Ok(path)
}
