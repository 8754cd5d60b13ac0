//! The bytes of the class files, and their names.

ghost use Rattle.std.specs.Prelude.{◌≡◌, length, map, IfOk};
ghost use Rattle.std.specs.List.{AllByRecursion};
ghost use Rattle.kilim_class_file.specs.Text.{class_text, ClassFits};
ghost use Rattle.kilim_demo.specs.Demo.{demo_of};

use crate::files::make;
use crate::laws::demo_fits;
use kilim_class_file::{ClassFile, write};
use kilim_units::{NoMemory, Seq};
use std::alloc::Global;

fn texts_of(alloc: Global, files: &[ClassFile]) -> Result<Seq<Seq<u8>>, NoMemory>
    requires { AllByRecursion ClassFits files.now }
    ensures { IfOk result (λ texts. texts ≡ map class_text files.now) }
{
    let mut texts = Seq::new(alloc);
    for file in files {
        let Ok(text) = write(alloc, file) else {
            return Err(NoMemory);
        };
        let Ok(()) = texts.push(Seq::from_vec(text)) else {
            return Err(NoMemory);
        };
    }
    Ok(texts)
}

/// The bytes of the class files of the demo of a number, in their order. The error is want of memory.
pub fn make_texts(alloc: Global, number: u64) -> Result<Seq<Seq<u8>>, NoMemory>
    ensures { IfOk result (λ texts. texts ≡ map class_text (demo_of number)) }
{
    demo_fits();
    let files = make(alloc, number)?;
    texts_of(alloc, files.as_slice())
}

/// So many names, which are empty: the class files that are made lie in no folder. The error is want of memory.
pub fn no_names(alloc: Global, count: usize) -> Result<Seq<String>, NoMemory>
    ensures { IfOk result (λ names. length names ≡ count) }
{
    let mut names = Seq::new(alloc);
    for _ in 0..count {
        let Ok(()) = names.push(String::new(alloc)) else {
            return Err(NoMemory);
        };
    }
    Ok(names)
}
