//! The bytes of the classes, and their program.

ghost use Rattle.kilim_class_file.specs.Text.{ClassFits};

use crate::class_builder_tables::classes::{node, work};
use crate::links::typed;
use kilim_case_text::Text;
use kilim_class_file::{ClassFile, write};
use std::alloc::Global;

// Bytes in hexadecimal digits, in a line.
fn push_digits(text: &mut Text, bytes: &[u8]) {
    let digits = b"0123456789abcdef";
    for byte in bytes {
        text.bytes(&[
            digits[usize::from(*byte / 16)],
            digits[usize::from(*byte % 16)],
        ]);
    }
    text.word("\n");
}

/// The bytes of a class file.
pub fn push_bytes(text: &mut Text, alloc: Global, file: &ClassFile)
    requires { ClassFits file.now }
{
    match write(alloc, file) {
        Ok(bytes) => push_digits(text, bytes.as_slice()),
        Err(_) => text.lacks(),
    }
}

// The lines of the two classes; whether they could be made, and are well typed.
fn push_classes(text: &mut Text, alloc: Global) -> bool {
    let mut files = Vec::new(alloc);
    node(text, alloc, &mut files)
        && work(text, alloc, &mut files)
        && typed(alloc, files.as_slice()).is_some()
}

// The lines of the two classes, and that they link and are well typed.
fn push_lines(text: &mut Text, alloc: Global) {
    if push_classes(text, alloc) {
        text.word("linked and typed\n");
    } else {
        text.lacks();
    }
}

/// The lines, for the word `lines`, each with its line feed: nothing for other words, or where memory runs out.
pub fn answer(alloc: Global, words: &[String]) -> Option<Vec<u8>> {
    let mut text = Text::new(alloc);
    match words {
        [word] if word.as_str() == "lines" => push_lines(&mut text, alloc),
        _ => text.lacks(),
    }
    text.whole()
}
