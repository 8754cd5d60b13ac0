//! The tables.

use std::alloc::Global;
use std::rt::Files;
use std::sync::Wait;
use std::thread::Threads;

/// The answer of a case, each line with its line feed: nothing where its first word is no table's, the others aren't those
/// of a case of it, a file can't be read, or memory runs out.
pub fn answer<R: Files + Threads + Wait + Sync>(
    rt: &R,
    alloc: Global,
    words: &[String],
) -> Option<Vec<u8>> {
    let (table, words) = words.split_first()?;
    match table.as_str() {
        "run" => kilim_case_text::run_tables::answer(rt, alloc, words),
        "link" => kilim_case_classes::answer(rt, alloc, words),
        "check" => kilim_case_classes::check_tables::answer(rt, alloc, words),
        "class_builder" => kilim_case_classes::class_builder_tables::answer(alloc, words),
        "top" => kilim_case_top::answer(rt, alloc, words),
        _ => None,
    }
}
