//! The command: the top call over the disk and standard output, and the texts that the program writes by itself.

use crate::top::kilim;
use kilim_alive::{AliveGate, ClearedSink};
use kilim_command::{own_text, show, words};
use kilim_outside::DiskFolder;
use std::alloc::{AllocGlobal, Global};
use std::rt::{Clock, Env, Files};
use std::sync::Wait;
use std::thread::Threads;

fn run<R: Threads + Wait + Sync + Clock + Files + Print + Eprint>(
    rt: &R,
    alloc: Global,
    words: &Vec<String>,
    is_terminal: bool,
) -> u8 {
    match own_text(words.as_slice()) {
        Some(text) => show(rt, text),
        None => {
            let mut files = DiskFolder::new(rt, alloc);
            let gate = AliveGate::new(rt, is_terminal);
            let mut out = ClearedSink::new(rt, &gate);
            let status = kilim(rt, alloc, words, &mut files, &mut out, &gate);
            gate.done();
            status
        }
    }
}

/// Does what the words of the command line ask for, `--help` and `--version` too, and answers the status. Where standard error is a terminal, a run that
/// takes longer than a second tells how far it is.
pub fn command<R: Threads + Wait + Sync + Clock + Env + Files + Print + Eprint + AllocGlobal>(
    rt: &R,
    is_terminal: bool,
) -> u8 {
    match words(rt) {
        Ok(words) => run(rt, rt.alloc(), &words, is_terminal),
        Err(status) => status,
    }
}
