//! Journals that are read and written again.

ghost use Rattle.std.specs.List.{AllByRecursion};
ghost use Rattle.kilim_run_journal.specs.Read.{IsEntry};

use crate::{Text, read_file};
use kilim_run_journal::{Entry, TextFault, read_text, text};
use std::alloc::Global;
use std::rt::Files;

// How many entries there are, and whether they are written as these bytes.
fn push_entries(answer: &mut Text, alloc: Global, bytes: &[u8], entries: &Vec<Entry>)
    requires { AllByRecursion IsEntry entries.now.items }
{
    answer.number(entries.len());
    match text(alloc, entries) {
        Ok(again) => answer.word(if again.as_slice() == bytes {
            " same"
        } else {
            " differs"
        }),
        Err(_) => answer.lacks(),
    }
}

// How many entries bytes have, and whether they are written as the same bytes; or the line that is no entry's.
fn push_read(answer: &mut Text, alloc: Global, bytes: &[u8]) {
    match read_text(alloc, bytes) {
        Ok(entries) => push_entries(answer, alloc, bytes, &entries),
        Err(TextFault::BadLine(line)) => {
            answer.word("bad ");
            answer.number(line);
        }
        Err(TextFault::Memory) => answer.lacks(),
    }
}

/// `journal FILE`: of what a file holds.
pub fn journal_case<R: Files>(answer: &mut Text, rt: &R, alloc: Global, words: &[String]) {
    let [name] = words else {
        answer.lacks();
        return;
    };
    let mut bytes = Vec::new(alloc);
    if read_file(rt, name.as_str(), &mut bytes) {
        push_read(answer, alloc, bytes.as_slice());
    } else {
        answer.lacks();
    }
}

/// `line TEXT`, of one line, and `open TEXT`, of text without a line feed at its end: the words, with blanks between them, and that end.
pub fn text_case(answer: &mut Text, alloc: Global, words: &[String], end: &str) {
    let mut joined = Text::new(alloc);
    for (i, word) in words.iter().enumerate() {
        if i > 0 {
            joined.word(" ");
        }
        joined.word(word.as_str());
    }
    joined.word(end);
    match joined.whole() {
        Some(bytes) => push_read(answer, alloc, bytes.as_slice()),
        None => answer.lacks(),
    }
}
