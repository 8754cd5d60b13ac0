//! The test.

ghost use Rattle.std.specs.Prelude.{◌≡◌, true, IfOk};
ghost use Rattle.kilim_class_file.specs.Text.{ClassFits};

use crate::same::same_files;
use crate::text::bytes_of;
use kilim_class_file::{ClassFault, ClassFile, read};
use kilim_units::NoMemory;
use std::alloc::Global;

// Whether what was read is the file again. Where nothing was read, the file has no text, unless memory ran out.
fn is_again(file: &ClassFile, again: &Result<ClassFile, ClassFault>) -> Result<bool, NoMemory>
    requires fit { IfOk again.now (λ found. ClassFits found) }
    ensures { IfOk result (λ b. b ≡ true → ClassFits file.now) }
{
    match again {
        Ok(found) => Ok(same_files(file, found)),
        Err(ClassFault::Memory) => Err(NoMemory),
        Err(_) => Ok(false),
    }
}

/// Whether a class file has a text, so that it can be written and is read again: it is written, its bytes are read, and the file that
/// is read is compared with it. Time is linear in the number of these bytes.
///
/// A file that is said to have a text has one. That none is overlooked isn't promised.
pub fn fits(alloc: Global, file: &ClassFile) -> Result<bool, NoMemory>
    ensures { IfOk result (λ b. b ≡ true → ClassFits file.now) }
{
    let bytes = bytes_of(alloc, file)?;
    let again = read(alloc, bytes.as_slice());
    drop(bytes);
    let answer = is_again(file, &again);
    drop(again);
    answer
}
