//! What the program does beside the top call: its words, its own texts, and the word on standard error.

use crate::help::{HELP, VERSION};
use crate::status::{DONE, NO_MEMORY, REPORTED, UNREAD, UNWRITTEN, USAGE};
use std::alloc::AllocGlobal;
use std::rt::Env;
use std::{env, io};

// The words after the program's name.
fn words_of(rt: &(impl Env + AllocGlobal)) -> io::Result<Vec<String>> {
    let mut words = Vec::new(rt.alloc());
    for word in env::args(rt)?.skip(1) {
        words.push(word)?;
    }
    Ok(words)
}

/// The words after the program's name; or the status where they can't be had.
pub fn words(rt: &(impl Env + AllocGlobal)) -> Result<Vec<String>, u8> {
    match words_of(rt) {
        Ok(words) => Ok(words),
        Err(fault) => {
            if fault.kind() == io::ErrorKind::OutOfMemory {
                Err(NO_MEMORY)
            } else {
                Err(USAGE)
            }
        }
    }
}

/// The text that the program writes by itself for these words, if it is one of `--help` and `--version`.
pub fn own_text(words: &[String]) -> Option<&'static str> {
    let [word] = words else {
        return None;
    };
    match word.as_str() {
        "--help" => Some(HELP),
        "--version" => Some(VERSION),
        _ => None,
    }
}

/// Writes a text that the program writes by itself, and answers the status.
pub fn show(rt: &impl Print, text: &str) -> u8 {
    match print!(rt; "{text}") {
        Ok(()) => DONE,
        Err(_) => UNWRITTEN,
    }
}

// The word that stands on standard error for a status.
fn complaint(status: u8) -> &'static str {
    match status {
        USAGE => "usage",
        UNREAD => "read",
        UNWRITTEN => "write",
        _ => "memory",
    }
}

/// Writes on standard error the word for a status, if the work wasn't done and no report was written.
pub fn complain(rt: &impl Eprint, status: u8) {
    if status > REPORTED {
        let word = complaint(status);
        let _ = eprintln!(rt; "{word}");
    }
}
