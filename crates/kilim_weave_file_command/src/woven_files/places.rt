//! Class files and classes by their places.

ghost use Rattle.std.specs.Prelude.{◌≡◌, ◌<◌, Some, length, slice_get};
ghost use Rattle.std.specs.List.{AllByRecursion};
ghost use Rattle.kilim_class_file.specs.Text.{ClassFits};

use kilim_class_file::ClassFile;
use kilim_program::{Class, Program};

/// The class at a place.
pub fn class_at(program: &Program, at: usize) -> &Class
    requires { at < length program.now.classes }
    ensures { slice_get program.now.classes at ≡ Some result.now }
{
    program.classes.get(at)
}

fn item_at(files: &[ClassFile], at: usize) -> &ClassFile
    requires { at < length files.now }
    ensures { slice_get files.now at ≡ Some result.now }
{
    &files[at]
}

/// The class file at a place, of some that have texts.
pub fn file_at(files: &[ClassFile], at: usize) -> &ClassFile
    requires within { at < length files.now }
    requires fit { AllByRecursion ClassFits files.now }
    ensures there { slice_get files.now at ≡ Some result.now }
    ensures fits { ClassFits result.now }
{
    item_at(files, at)
}
