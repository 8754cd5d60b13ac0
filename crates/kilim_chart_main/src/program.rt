//! From the words to the status.

use crate::help::{HELP, VERSION};
use crate::words::{Asked, request};
use kilim_chart::{ChartFault, chart, waits};
use kilim_command::{DONE, NO_MEMORY, REPORTED, UNREAD, UNWRITTEN, USAGE, show, words, write_all};
use kilim_outside::{OutSink, SinkFault};
use std::alloc::{AllocGlobal, Global};
use std::rt::{Env, Files};
use std::{fs, io};

fn own_text(words: &[String]) -> Option<&'static str> {
    let [word] = words else {
        return None;
    };
    match word.as_str() {
        "--help" => Some(HELP),
        "--version" => Some(VERSION),
        _ => None,
    }
}

fn write(rt: &impl Print, text: &[u8], status: u8) -> u8 {
    let mut out = OutSink::new(rt);
    match write_all(&mut out, text) {
        Ok(()) => status,
        Err(SinkFault::NoMemory) => NO_MEMORY,
        Err(SinkFault::Failed) => UNWRITTEN,
    }
}

// The report of a bad line.
fn report(rt: &impl Print, alloc: Global, line: usize) -> u8 {
    match format!(in alloc; "journal {line}\n") {
        Ok(text) => write(rt, text.as_bytes(), REPORTED),
        Err(_) => NO_MEMORY,
    }
}

fn answer(rt: &impl Print, alloc: Global, asked: &Asked<'_>, bytes: &[u8]) -> u8 {
    let made = if asked.waits {
        waits(alloc, bytes)
    } else {
        chart(alloc, bytes, &asked.choice, asked.most)
    };
    match made {
        Ok(text) => write(rt, text.as_slice(), DONE),
        Err(ChartFault::BadLine(line)) => report(rt, alloc, line),
        Err(ChartFault::Memory) => NO_MEMORY,
    }
}

fn work(rt: &(impl Files + Print + AllocGlobal), alloc: Global, asked: &Asked<'_>) -> u8 {
    match fs::read(rt, asked.journal) {
        Ok(bytes) => answer(rt, alloc, asked, bytes.as_slice()),
        Err(fault) => {
            if fault.kind() == io::ErrorKind::OutOfMemory {
                NO_MEMORY
            } else {
                UNREAD
            }
        }
    }
}

fn run(rt: &(impl Files + Print + AllocGlobal), alloc: Global, words: &[String]) -> u8 {
    if let Some(text) = own_text(words) {
        return show(rt, text);
    }
    match request(alloc, words) {
        Ok(Some(asked)) => work(rt, alloc, &asked),
        Ok(None) => USAGE,
        Err(_) => NO_MEMORY,
    }
}

/// Does what the words of the command line ask for, and answers the status.
pub fn command(rt: &(impl Env + Files + Print + AllocGlobal)) -> u8 {
    match words(rt) {
        Ok(words) => run(rt, rt.alloc(), words.as_slice()),
        Err(status) => status,
    }
}
