//! Texts behind each other.

ghost use Rattle.std.specs.Prelude.{◌≡◌, ◌++◌, IfOk, OnOk};

use kilim_units::NoMemory;
use std::alloc::Global;

/// Two texts, one behind the other.
pub fn joined(alloc: Global, first: &[u8], second: &[u8]) -> Result<Vec<u8>, NoMemory>
    ensures { IfOk result (λ text. text.items ≡ first.now ++ second.now) }
{
    let Ok(mut text) = Vec::from_slice(alloc, first) else {
        return Err(NoMemory);
    };
    let Ok(()) = text.extend_from_slice(second) else {
        return Err(NoMemory);
    };
    Ok(text)
}

/// Appends a text.
pub fn push(text: &mut Vec<u8>, word: &[u8]) -> Result<(), NoMemory>
    ensures { OnOk result (text.new.items ≡ text.old.items ++ word.now) }
{
    match text.extend_from_slice(word) {
        Ok(()) => Ok(()),
        Err(_) => Err(NoMemory),
    }
}

/// Appends two texts, one behind the other.
pub fn push_both(text: &mut Vec<u8>, first: &[u8], second: &[u8]) -> Result<(), NoMemory>
    ensures { OnOk result (text.new.items ≡ text.old.items ++ (first.now ++ second.now)) }
{
    let Ok(()) = push(text, first) else {
        return Err(NoMemory);
    };
    push(text, second)
}
