//! The words of the cases.

use crate::check_tables::checked_case;
use crate::classes::{push_class, push_fronts};
use crate::code::{code_case, instr_case};
use crate::descriptors::descriptor_case;
use crate::links::link_case;
use crate::pools::push_pool;
use kilim_case_text::{Text, changed};
use std::alloc::Global;
use std::rt::Files;

// The cases of the bytes of one file: `class FILE`, `fronts FILE` and `pool FILE`.
fn file_case<R: Files>(text: &mut Text, rt: &R, alloc: Global, word: &str, words: &[String]) {
    let [name] = words else {
        text.lacks();
        return;
    };
    let Some(bytes) = changed(rt, alloc, name.as_str()) else {
        text.lacks();
        return;
    };
    match word {
        "class" => push_class(text, alloc, name.as_str(), bytes.as_slice()),
        "fronts" => push_fronts(text, alloc, bytes.as_slice()),
        _ => push_pool(text, alloc, bytes.as_slice()),
    }
}

fn push_case<R: Files>(text: &mut Text, rt: &R, alloc: Global, word: &str, words: &[String]) {
    match word {
        "link" => link_case(text, rt, alloc, words),
        "code" => code_case(text, alloc, words),
        "instr" => instr_case(text, alloc, words),
        "descriptor" => descriptor_case(text, alloc, words),
        "class" | "fronts" | "pool" => file_case(text, rt, alloc, word, words),
        _ => checked_case(text, rt, alloc, word, words),
    }
}

/// The answer of a case, each line with its line feed: nothing where its words aren't those of a case, a file can't be
/// read, or memory runs out.
pub fn answer<R: Files>(rt: &R, alloc: Global, words: &[String]) -> Option<Vec<u8>> {
    let mut text = Text::new(alloc);
    match words {
        [word, rest @ ..] => push_case(&mut text, rt, alloc, word.as_str(), rest),
        _ => text.lacks(),
    }
    text.whole()
}
