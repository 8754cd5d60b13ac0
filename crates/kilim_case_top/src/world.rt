//! What a call is made over, in memory.

use crate::folder::MapFolder;
use crate::sink::VecSink;
use kilim_case_text::changed;
use kilim_outside::NamedFile;
use kilim_units::Seq;
use std::alloc::Global;
use std::rt::Files;

/// More than any text of a call.
const MOST: usize = 1_000_000_000;

/// The words of a call, a folder, and a sink.
#[derive(Drop)]
pub struct World {
    pub words: Vec<String>,
    pub files: MapFolder,
    pub out: VecSink,
}

/// No words, no files, and a sink that takes all.
pub fn empty(alloc: Global) -> World {
    World {
        words: Vec::new(alloc),
        files: MapFolder {
            files: Seq::new(alloc),
            faults: Seq::new(alloc),
            calls: 0,
            fails: Seq::new(alloc),
        },
        out: VecSink {
            bytes: Seq::new(alloc),
            calls: 0,
            fails: Seq::new(alloc),
            most: MOST,
            faults: 0,
        },
    }
}

// Whether a name, with changes or without, ends so.
fn has_end(word: &str, end: &str) -> bool {
    let name = match word.split_once(',') {
        Some((name, _)) => name,
        None => word,
    };
    name.ends_with(end)
}

// The file that a word names, with its changes: a class file, or the image or the journal of an option.
fn file_in(word: &str) -> Option<&str> {
    match word.split_once("--image=") {
        Some(("", name)) if has_end(name, ".image") => return Some(name),
        _ => {}
    }
    match word.split_once("--journal=") {
        Some(("", name)) => Some(name),
        _ if has_end(word, ".class") => Some(word),
        _ => None,
    }
}

// A file of these bytes, named by the whole word; whether there was memory.
fn push_file(files: &mut Seq<NamedFile>, alloc: Global, word: &str, bytes: Vec<u8>) -> bool {
    match Vec::from_slice(alloc, word.as_bytes()) {
        Ok(name) => files
            .push(NamedFile {
                name: Seq::from_vec(name),
                bytes: Seq::from_vec(bytes),
            })
            .is_ok(),
        Err(_) => false,
    }
}

// The file of a word, which may have changes behind its name, as it lies where the program runs.
fn load_file<R: Files>(rt: &R, alloc: Global, word: &str, files: &mut Seq<NamedFile>) -> bool {
    let Some(name) = file_in(word) else {
        return true;
    };
    match changed(rt, alloc, name) {
        Some(bytes) => push_file(files, alloc, name, bytes),
        None => false,
    }
}

fn push_word(words: &mut Vec<String>, alloc: Global, word: &str) -> bool {
    match String::from_str(alloc, word) {
        Ok(copy) => words.push(copy).is_ok(),
        Err(_) => false,
    }
}

/// Puts the words of a call into a world, and the files that they name; whether that was possible.
pub fn load<R: Files>(rt: &R, alloc: Global, words: &[String], world: &mut World) -> bool {
    for word in words {
        if !push_word(&mut world.words, alloc, word.as_str())
            || !load_file(rt, alloc, word.as_str(), &mut world.files.files)
        {
            return false;
        }
    }
    true
}
