//! Answers of the public calls for tables of cases: `kilim_cases of FILE` for the cases of a file, a line each, or `kilim_cases CASE` for
//! one, a word each. README.md has the tables. The status is 0, or 1 where a case can't be answered: it then stands on standard error,
//! and the answers before it were written.
#![tactic(auto)]

mod cases;

use cases::answer;
use std::alloc::{AllocGlobal, Global};
use std::io::Write;
use std::process::ExitCode;
use std::rt::{Env, Files};
use std::sync::Wait;
use std::thread::Threads;
use std::{env, io};

// The words of a line, between blanks.
fn words_of(alloc: Global, line: &str) -> io::Result<Vec<String>> {
    let mut words = Vec::new(alloc);
    for word in line.split(' ') {
        words.push(String::from_str(alloc, word)?)?;
    }
    Ok(words)
}

// Writes the answer of a case. Answers false where there is none.
fn write_answer<R: Files + Threads + Wait + Sync + Print + Eprint + AllocGlobal>(
    rt: &R,
    words: &[String],
) -> io::Result<bool> {
    match answer(rt, rt.alloc(), words) {
        Some(text) => {
            io::writer(rt).write_all(text.as_slice())?;
            Ok(true)
        }
        None => {
            eprintln!(rt; "there is no answer to {words:?}")?;
            Ok(false)
        }
    }
}

// Writes each case of a file behind a mark, and its answer.
fn write_table<R: Files + Threads + Wait + Sync + Print + Eprint + AllocGlobal>(
    rt: &R,
    name: &str,
) -> io::Result<bool> {
    let text = std::fs::read_to_string(rt, name)?;
    for line in text.lines() {
        if !line.is_empty() {
            println!(rt; "> {line}")?;
            if !write_answer(rt, words_of(rt.alloc(), line)?.as_slice())? {
                return Ok(false);
            }
        }
    }
    Ok(true)
}

fn write<R: Env + Files + Threads + Wait + Sync + Print + Eprint + AllocGlobal>(
    rt: &R,
) -> io::Result<bool> {
    let mut words = Vec::new(rt.alloc());
    for word in env::args(rt)?.skip(1) {
        words.push(word)?;
    }
    match words.as_slice() {
        [of, name] if of.as_str() == "of" => write_table(rt, name.as_str()),
        words => write_answer(rt, words),
    }
}

fn main(rt: HostRuntime) -> ExitCode {
    match write(&rt) {
        Ok(true) => ExitCode::SUCCESS,
        Ok(false) | Err(_) => ExitCode::FAILURE,
    }
}
