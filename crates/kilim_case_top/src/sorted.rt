//! Lines in order.

use kilim_case_text::Text;
use std::alloc::Global;

/// The lines of a text, sorted, each with its line feed.
pub fn push_sorted(text: &mut Text, alloc: Global, unsorted: &[u8]) {
    let Ok(unsorted) = str::from_utf8(unsorted) else {
        text.lacks();
        return;
    };
    let mut lines: Vec<&str> = Vec::new(alloc);
    for line in unsorted.lines() {
        if lines.push(line).is_err() {
            text.lacks();
        }
    }
    if lines.sort().is_err() {
        text.lacks();
    }
    for line in lines.as_slice() {
        text.word(line);
        text.word("\n");
    }
}
