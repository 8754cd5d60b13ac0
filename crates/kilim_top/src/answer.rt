//! From the bytes of class files to the text that is written.

ghost use Rattle.std.specs.Prelude.{◌≡◌, ◌≤◌, ◌+◌, [], ◌∷◌, IfOk, length, map};
ghost use Rattle.std.specs.String.{string_bytes};
ghost use Rattle.kilim_command.specs.grammar.Parts.{meant, numbers_of};
ghost use Rattle.kilim_command.specs.grammar.Words.{Check, Replay, Resume, Run, Save, Weave, class_files, files_read};
ghost use Rattle.kilim_top.specs.Inside.Answer.{IsReadyFor, IsReadyOf, IsRefusedBy, IsSavedReady, IsWithoutMain};
ghost use Rattle.kilim_top.specs.Outcome.{file_of};

use crate::demo::demo_ready;
use kilim_command::grammar::{Asked, ReplayWords, ResumeWords, RunWords, SaveWords, WeaveWords};
use kilim_command::{DONE, REPORTED, Start, accepted_line, no_main, start_of};
use kilim_image_command::{Saved, Stopped, save_files, stopped_run, woven_is_served};
use kilim_outside::Gate;
use kilim_outside::written::OutputFile;
use kilim_program::{ClassId, Program};
use kilim_replay_command::replay_files;
use kilim_run_state::Limits;
use kilim_stages::woven_stage::{WovenProgram, with_main, woven_program};
use kilim_stages::{Refusal, accepted, coded_methods};
use kilim_units::{NoMemory, Seq};
use kilim_weave::Woven;
use kilim_weave_file_command::{accepted_files_are_isolated, weave_files};
use std::alloc::Global;

/// Files to be written, a text to be written behind them, and the status where all was written whole.
#[derive(Drop)]
pub struct Reply {
    pub status: u8,
    pub files: Vec<OutputFile>,
    pub text: Vec<u8>,
}

/// What is to be done for the bytes of files.
pub enum Ready {
    /// To write files and a text.
    Reply(Reply),
    /// To run a program by its woven form, with its main class.
    Run(Program, Woven, ClassId, Limits),
    /// To go on with a run that was stopped.
    Resume(Stopped),
}

// No class of that name is fit to be the main class.
fn without_main(alloc: Global, name: &[u16]) -> Result<Ready, NoMemory>
    ensures { IfOk result (IsWithoutMain name.now) }
{
    let text = no_main(alloc, name)?;
    Ok(Ready::Reply(Reply {
        status: REPORTED,
        files: Vec::new(alloc),
        text,
    }))
}

// What is to be done for an accepted program, woven, that is to be run.
fn program_ready(alloc: Global, start: Start, program: WovenProgram) -> Result<Ready, NoMemory>
    ensures { IfOk result (IsReadyOf program start.main.items start.limits) }
{
    let name = start.main.as_slice();
    match with_main(program, name) {
        Ok(Some((found, class))) => Ok(Ready::Run(found.plain, found.woven, class, start.limits)),
        Ok(None) => without_main(alloc, name),
        Err(_) => Err(NoMemory),
    }
}

/// What is to be done where the stages refuse: their report is to be written.
pub fn refused(alloc: Global, refusal: Refusal) -> Result<Ready, NoMemory>
    ensures { IfOk result (IsRefusedBy refusal) }
{
    match refusal {
        Refusal::Report(text) => Ok(Ready::Reply(Reply {
            status: REPORTED,
            files: Vec::new(alloc),
            text,
        })),
        Refusal::NoMemory => Err(NoMemory),
    }
}

// What is to be done for the bytes of files that are to be run.
fn run_ready(alloc: Global, words: &RunWords<'_>, files: &[Seq<u8>]) -> Result<Ready, NoMemory>
    requires few { length files.now ≤ 1000 }
    requires same { length words.now.files.now ≡ length files.now }
    ensures { IfOk result (λ ready. IsReadyFor (Run words.now.main.now words.now.workers words.now.steps (numbers_of (map string_bytes words.now.args.now)) (map string_bytes words.now.files.now)) files.now ready) }
{
    accepted_files_are_isolated();
    woven_is_served();
    let start = start_of(alloc, words.main, words.steps, words.args)?;
    match woven_program(alloc, words.files, files) {
        Ok(program) => program_ready(alloc, start, program),
        Err(refusal) => refused(alloc, refusal),
    }
}

// What is to be done for the bytes of files that are to be checked.
fn check_ready(alloc: Global, names: &[String], files: &[Seq<u8>]) -> Result<Ready, NoMemory>
    requires few { length files.now ≤ 1000 }
    requires same { length names.now ≡ length files.now }
    ensures { IfOk result (λ ready. IsReadyFor (Check (map string_bytes names.now)) files.now ready) }
{
    accepted_files_are_isolated();
    match accepted(alloc, names, files) {
        Ok(isolated) => {
            let methods = coded_methods(isolated);
            match accepted_line(alloc, files.len(), methods) {
                Ok(text) => Ok(Ready::Reply(Reply {
                    status: DONE,
                    files: Vec::new(alloc),
                    text,
                })),
                Err(_) => Err(NoMemory),
            }
        }
        Err(refusal) => refused(alloc, refusal),
    }
}

// What is to be done for the bytes of files that are to be woven.
fn weave_ready(alloc: Global, words: &WeaveWords<'_>, files: &[Seq<u8>]) -> Result<Ready, NoMemory>
    requires few { length files.now ≤ 1000 }
    requires same { length words.now.files.now ≡ length files.now }
    ensures { IfOk result (λ ready. IsReadyFor (Weave words.now.to.now (map string_bytes words.now.files.now)) files.now ready) }
{
    accepted_files_are_isolated();
    woven_is_served();
    match weave_files(alloc, words.to, words.files, files) {
        Ok(output) => Ok(Ready::Reply(Reply {
            status: DONE,
            files: output.files,
            text: output.text,
        })),
        Err(refusal) => refused(alloc, refusal),
    }
}

// What is to be done for the bytes of class files, and of a journal that is to be replayed behind them.
fn replay_ready(
    alloc: Global,
    words: &ReplayWords<'_>,
    files: &[Seq<u8>],
) -> Result<Ready, NoMemory>
    requires few { length words.now.files.now ≤ 1000 }
    requires same { length words.now.files.now + 1 ≡ length files.now }
    ensures { IfOk result (λ ready. IsReadyFor (Replay words.now.main.now words.now.journal.now words.now.steps (numbers_of (map string_bytes words.now.args.now)) (map string_bytes words.now.files.now)) files.now ready) }
{
    let start = start_of(alloc, words.main, words.steps, words.args)?;
    let (classes, behind) = files.split_at(words.files.len());
    match replay_files(alloc, words.files, classes, &start, behind[0].as_slice()) {
        Ok(text) => Ok(Ready::Reply(Reply {
            status: DONE,
            files: Vec::new(alloc),
            text,
        })),
        Err(refusal) => refused(alloc, refusal),
    }
}

// A list of one file.
fn one_file(alloc: Global, path: &str, bytes: Vec<u8>) -> Result<Vec<OutputFile>, NoMemory>
    ensures { IfOk result (λ files. files.items ≡ file_of path.now bytes.items ∷ []) }
{
    let mut files = Vec::new(alloc);
    let Ok(path) = String::from_str(alloc, path) else {
        drop(bytes);
        return Err(NoMemory);
    };
    let file = OutputFile {
        path,
        bytes: Seq::from_vec(bytes),
    };
    match files.push(file) {
        Ok(()) => Ok(files),
        Err(_) => Err(NoMemory),
    }
}

// What is to be done where a run was saved: its image is to be written, and its journal.
fn saved_ready(alloc: Global, path: &str, saved: Saved) -> Result<Ready, NoMemory>
    ensures { IfOk result (IsSavedReady path.now saved) }
{
    let Saved { image, text } = saved;
    let Ok(files) = one_file(alloc, path, image) else {
        drop(text);
        return Err(NoMemory);
    };
    Ok(Ready::Reply(Reply {
        status: DONE,
        files,
        text,
    }))
}

// What is to be done for the bytes of files whose run is to be saved.
fn save_ready<G: Gate>(
    alloc: Global,
    words: &SaveWords<'_>,
    files: &[Seq<u8>],
    gate: &G,
) -> Result<Ready, NoMemory>
    requires few { length files.now ≤ 1000 }
    requires same { length words.now.files.now ≡ length files.now }
    ensures { IfOk result (λ ready. IsReadyFor (Save words.now.main.now words.now.image.now words.now.entries words.now.steps (numbers_of (map string_bytes words.now.args.now)) (map string_bytes words.now.files.now)) files.now ready) }
{
    accepted_files_are_isolated();
    let start = start_of(alloc, words.main, words.steps, words.args)?;
    let made = save_files(
        alloc,
        words.files,
        files,
        words.main,
        &start,
        words.entries,
        gate,
    );
    match made {
        Ok(saved) => saved_ready(alloc, words.image, saved),
        Err(refusal) => refused(alloc, refusal),
    }
}

// What is to be done for the bytes of an image.
fn resume_ready(
    alloc: Global,
    words: &ResumeWords<'_>,
    files: &[Seq<u8>],
) -> Result<Ready, NoMemory>
    requires { length files.now ≡ 1 }
    ensures { IfOk result (λ ready. IsReadyFor (Resume words.now.image.now words.now.workers) files.now ready) }
{
    accepted_files_are_isolated();
    let _words = words;
    match stopped_run(alloc, files[0].as_slice()) {
        Ok(stopped) => Ok(Ready::Resume(stopped)),
        Err(refusal) => refused(alloc, refusal),
    }
}

/// What is to be done for the bytes of the files that the words name.
pub fn prepare<G: Gate>(
    alloc: Global,
    asked: &Asked<'_>,
    files: &[Seq<u8>],
    gate: &G,
) -> Result<Ready, NoMemory>
    requires few { length (class_files (meant asked.now)) ≤ 1000 }
    requires same { length (files_read (meant asked.now)) ≡ length files.now }
    ensures { IfOk result (λ ready. IsReadyFor (meant asked.now) files.now ready) }
{
    match asked {
        Asked::Check(names) => check_ready(alloc, names, files),
        Asked::Weave(words) => weave_ready(alloc, words, files),
        Asked::Run(words) => run_ready(alloc, words, files),
        Asked::Replay(words) => replay_ready(alloc, words, files),
        Asked::Save(words) => save_ready(alloc, words, files, gate),
        Asked::Resume(words) => resume_ready(alloc, words, files),
        Asked::Demo(words) => demo_ready(alloc, words.number),
    }
}
