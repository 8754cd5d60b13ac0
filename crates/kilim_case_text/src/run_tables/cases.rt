//! The words of the cases.

use crate::Text;
use crate::run_tables::drawn::{row_case, tree_case};
use crate::run_tables::journals::{journal_case, text_case};
use crate::run_tables::shared::{circle_case, twice_case};
use crate::run_tables::trees::list_case;
use std::alloc::Global;
use std::rt::Files;

// The cases of a number.
fn counted_case(text: &mut Text, alloc: Global, word: &str, words: &[String]) {
    let [count] = words else {
        text.lacks();
        return;
    };
    let Ok(count) = count.parse::<u32>() else {
        text.lacks();
        return;
    };
    match word {
        "list" => list_case(text, alloc, count),
        "array" => row_case(text, alloc, ("{", "}"), "&", count, count),
        "numbers" => row_case(text, alloc, ("[", "]"), "7", count, 0),
        "twice" => twice_case(text, alloc, count),
        _ => text.lacks(),
    }
}

fn push_case<R: Files>(text: &mut Text, rt: &R, alloc: Global, word: &str, words: &[String]) {
    match word {
        "journal" => journal_case(text, rt, alloc, words),
        "line" => text_case(text, alloc, words, "\n"),
        "open" => text_case(text, alloc, words, ""),
        "tree" => tree_case(text, alloc, words),
        "circle" => circle_case(text, alloc, words),
        _ => counted_case(text, alloc, word, words),
    }
}

/// The answer of a case, with its line feed: nothing where its words aren't those of a case, a file can't be read, or memory
/// runs out.
pub fn answer<R: Files>(rt: &R, alloc: Global, words: &[String]) -> Option<Vec<u8>> {
    let mut text = Text::new(alloc);
    match words {
        [word, rest @ ..] => push_case(&mut text, rt, alloc, word.as_str(), rest),
        _ => text.lacks(),
    }
    text.word("\n");
    text.whole()
}
