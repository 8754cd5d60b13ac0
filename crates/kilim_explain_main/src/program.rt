//! From the words to the status.

ghost use Rattle.std.specs.Prelude.{◌≡◌, ◌≤◌, length};

use crate::check::{Said, said_of};
use crate::help::{HELP, VERSION};
use crate::shown::bold;
use crate::words::{Asked, request};
use kilim_class_file::{ClassFault, ClassFile, read};
use kilim_command::{
    DONE, NO_MEMORY, REPORTED, UNREAD, UNWRITTEN, USAGE, read_all, show, words, write_all,
};
use kilim_explain::{Given, Sources, explained};
use kilim_outside::{DiskFolder, FolderFault, OutSink, SinkFault};
use kilim_units::{NoMemory, Seq};
use std::alloc::{AllocGlobal, Global};
use std::env;
use std::rt::{Env, Files};

fn own_text(words: &[String]) -> Option<&'static str> {
    let [word] = words else {
        return None;
    };
    match word.as_str() {
        "--help" => Some(HELP),
        "--version" => Some(VERSION),
        _ => None,
    }
}

fn write(rt: &impl Print, text: &[u8], status: u8) -> u8 {
    let mut out = OutSink::new(rt);
    match write_all(&mut out, text) {
        Ok(()) => status,
        Err(SinkFault::NoMemory) => NO_MEMORY,
        Err(SinkFault::Failed) => UNWRITTEN,
    }
}

// The class files, up to the first that is none: the report then is of that one.
fn classes_of(alloc: Global, files: &[Seq<u8>]) -> Result<Seq<ClassFile>, NoMemory> {
    let mut classes = Seq::new(alloc);
    for bytes in files {
        match read(alloc, bytes.as_slice()) {
            Ok(file) => {
                let Ok(()) = classes.push(file) else {
                    return Err(NoMemory);
                };
            }
            Err(ClassFault::Memory) => return Err(NoMemory),
            Err(fault) => {
                drop(fault);
                return Ok(classes);
            }
        }
    }
    Ok(classes)
}

// A report with what it means.
fn with_comments(
    rt: &impl Files,
    alloc: Global,
    asked: &Asked<'_>,
    files: &[Seq<u8>],
    report: &[u8],
) -> Result<Vec<u8>, NoMemory> {
    let classes = classes_of(alloc, files)?;
    let given = Given {
        names: asked.files,
        files: classes.as_slice(),
        below: asked.below,
    };
    let mut sources = Sources::new(alloc);
    let mut folder = DiskFolder::new(rt, alloc);
    explained(alloc, report, given, &mut sources, &mut folder)
}

// A terminal shows colours where NO_COLOR isn't set, or is empty.
fn has_colours(rt: &(impl Env + AllocGlobal), is_terminal: bool) -> bool {
    if !is_terminal {
        return false;
    }
    match env::var(rt, "NO_COLOR") {
        Ok(value) => value.is_empty(),
        Err(_) => true,
    }
}

fn answer(
    rt: &(impl Env + Files + Print + AllocGlobal),
    alloc: Global,
    asked: &Asked<'_>,
    files: &[Seq<u8>],
    is_terminal: bool,
) -> Result<u8, NoMemory>
    requires few { length files.now ≤ 1000 }
    requires same { length asked.now.files.now ≡ length files.now }
{
    match said_of(alloc, asked, files)? {
        Said::Accepted(text) => Ok(write(rt, text.as_slice(), DONE)),
        Said::Report(report) => {
            let text = with_comments(rt, alloc, asked, files, report.as_slice())?;
            if has_colours(rt, is_terminal) {
                let shown = bold(alloc, text.as_slice())?;
                return Ok(write(rt, shown.as_slice(), REPORTED));
            }
            Ok(write(rt, text.as_slice(), REPORTED))
        }
    }
}

fn work(
    rt: &(impl Env + Files + Print + AllocGlobal),
    alloc: Global,
    asked: &Asked<'_>,
    is_terminal: bool,
) -> u8
    requires { length asked.now.files.now ≤ 1000 }
{
    let mut folder = DiskFolder::new(rt, alloc);
    match read_all(alloc, asked.files, &mut folder) {
        Ok(files) => match answer(rt, alloc, asked, files.as_slice(), is_terminal) {
            Ok(status) => status,
            Err(_) => NO_MEMORY,
        },
        Err(FolderFault::Failed) => UNREAD,
        Err(FolderFault::NoMemory) => NO_MEMORY,
    }
}

fn run(
    rt: &(impl Env + Files + Print + AllocGlobal),
    alloc: Global,
    words: &[String],
    is_terminal: bool,
) -> u8 {
    if let Some(text) = own_text(words) {
        return show(rt, text);
    }
    match request(words) {
        Some(asked) => work(rt, alloc, &asked, is_terminal),
        None => USAGE,
    }
}

/// Does what the words of the command line ask for, and answers the status.
pub fn command(rt: &(impl Env + Files + Print + AllocGlobal), is_terminal: bool) -> u8 {
    match words(rt) {
        Ok(words) => run(rt, rt.alloc(), words.as_slice(), is_terminal),
        Err(status) => status,
    }
}
