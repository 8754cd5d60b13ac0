//! The words of the cases.

use crate::check_tables::edges::edge_lines;
use crate::check_tables::fits::fits_line;
use crate::check_tables::graphs::graph_lines;
use crate::check_tables::lives::live_lines;
use crate::check_tables::names::method_named;
use crate::links::{class_files, typed};
use kilim_case_text::Text;
use kilim_type_spec::Typed;
use std::alloc::Global;
use std::rt::Files;

// The lines about the first method of a name, by the word of the case.
fn push_lines(text: &mut Text, alloc: Global, word: &str, name: &str, typed: &Typed) {
    let Some((number, method)) = method_named(&typed.program, name) else {
        text.lacks();
        return;
    };
    match word {
        "graphs" => graph_lines(text, alloc, typed, number, method),
        "edges" => edge_lines(text, alloc, method),
        "live" => live_lines(text, alloc, &typed.program, number),
        _ => text.lacks(),
    }
}

// The program of class files with its frames; nothing where there is none.
fn typed_files<R: Files>(rt: &R, alloc: Global, names: &[String]) -> Option<Typed> {
    match class_files(rt, alloc, names) {
        Some(files) => typed(alloc, files.as_slice()),
        None => None,
    }
}

// The answer about a program, by the names in front of its files.
fn push_checked(text: &mut Text, alloc: Global, word: &str, names: &[String], typed: &Typed) {
    match names {
        [from, to] => fits_line(text, &typed.program, from.as_str(), to.as_str()),
        [name] => push_lines(text, alloc, word, name.as_str(), typed),
        _ => text.lacks(),
    }
}

/// The cases of a program: `fits FROM TO FILE..`, and those of a method, as `graphs METHOD FILE..`.
pub fn checked_case<R: Files>(
    text: &mut Text,
    rt: &R,
    alloc: Global,
    word: &str,
    words: &[String],
) {
    let count = if word == "fits" { 2 } else { 1 };
    if words.len() < count {
        text.lacks();
        return;
    }
    let (names, files) = words.split_at(count);
    match typed_files(rt, alloc, files) {
        Some(typed) => push_checked(text, alloc, word, names, &typed),
        None => text.lacks(),
    }
}
