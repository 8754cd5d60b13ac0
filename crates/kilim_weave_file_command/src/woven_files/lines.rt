//! The lines of classes.

ghost use Rattle.std.specs.Prelude.{◌≡◌, ◌++◌, IfOk, OnOk, codes};
ghost use Rattle.std.specs.Fmt.{decimal};
ghost use Rattle.kilim_reports.specs.Names.{member_name_text};
ghost use Rattle.kilim_weave_file_command.specs.woven_files.WovenFiles.{wove_line, wove_lines};

use crate::woven_files::made::WovenFile;
use kilim_reports::member_name_text;
use kilim_units::{NoMemory, Units};
use std::alloc::Global;

// A number ends a line.
fn push_last(text: &mut Vec<u8>, number: u64) -> Result<(), NoMemory>
    ensures { OnOk result (text.new.items ≡ text.old.items ++ (decimal number ++ codes "\n")) }
{
    let Ok(digits) = format!(in *text.allocator(); "{number}\n") else {
        return Err(NoMemory);
    };
    let Ok(()) = text.extend_from_slice(digits.as_bytes()) else {
        return Err(NoMemory);
    };
    Ok(())
}

// Adds a word, a name, a second word, and a number.
fn push_words(
    text: &mut Vec<u8>,
    first: &[u8],
    name: &[u8],
    second: &[u8],
    number: u64,
) -> Result<(), NoMemory>
    ensures { OnOk result (text.new.items ≡ text.old.items ++ (first.now ++ (name.now ++ (second.now ++ (decimal number ++ codes "\n"))))) }
{
    let Ok(()) = text.extend_from_slice(first) else {
        return Err(NoMemory);
    };
    let Ok(()) = text.extend_from_slice(name) else {
        return Err(NoMemory);
    };
    let Ok(()) = text.extend_from_slice(second) else {
        return Err(NoMemory);
    };
    push_last(text, number)
}

/// Adds a line: a word, the name of a class, a second word, and a number.
pub fn push_class_line(
    alloc: Global,
    text: &mut Vec<u8>,
    first: &[u8],
    class: &Units,
    second: &[u8],
    number: u64,
) -> Result<(), NoMemory>
    ensures { OnOk result (text.new.items ≡ text.old.items ++ (first.now ++ (member_name_text class.now ++ (second.now ++ (decimal number ++ codes "\n"))))) }
{
    let Ok(name) = member_name_text(alloc, class) else {
        return Err(NoMemory);
    };
    push_words(text, first, name.as_slice(), second, number)
}

#[tactic(auto, unfolding(crate::specs::woven_files::WovenFiles::wove_line))]
fn push_wove_line(alloc: Global, text: &mut Vec<u8>, file: &WovenFile) -> Result<(), NoMemory>
    ensures { OnOk result (text.new.items ≡ text.old.items ++ wove_line file.now) }
{
    let number = file.pausables as u64;
    push_class_line(alloc, text, b"wove ", &file.class, b" ", number)
}

/// A line for each woven file, in their order: `wove`, the class, and how many of its methods can pause.
pub fn wove_lines(alloc: Global, files: &[WovenFile]) -> Result<Vec<u8>, NoMemory>
    ensures { IfOk result (λ text. text.items ≡ wove_lines files.now) }
{
    let mut text = Vec::new(alloc);
    for file in files {
        let Ok(()) = push_wove_line(alloc, &mut text, file) else {
            return Err(NoMemory);
        };
    }
    Ok(text)
}
