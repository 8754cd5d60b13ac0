//! A run goes on from its image.

ghost use Rattle.std.specs.Prelude.{◌≡◌, ◌≤◌, true, length, IfOk};
ghost use Rattle.std.specs.Str.{is_utf8};
ghost use Rattle.kilim_command.specs.Report.{utf16_of};
ghost use Rattle.kilim_command.specs.Words.{limits_of};
ghost use Rattle.kilim_fiber_laws.specs.Served.{CanServe};
ghost use Rattle.kilim_image.specs.Text.{is_right};
ghost use Rattle.kilim_image_command.specs.Lines.{replay_line};
ghost use Rattle.kilim_image_command.specs.Parts.{IsStarted};
ghost use Rattle.kilim_image_command.specs.Programs.{IsStartReport, names_from};
ghost use Rattle.kilim_image_command.specs.Resuming.{IsBehind, IsDiffersLine, IsGoneOn, IsImageReport, IsStopped};
ghost use Rattle.kilim_run.specs.Runs.{IsResumed, setting_of};
ghost use Rattle.kilim_run_journal.specs.Readable.{IsReadable};
ghost use Rattle.kilim_run_model.specs.State.{Setting};
ghost use Rattle.kilim_run_workers.specs.Given.{BeginsWith};
ghost use Rattle.kilim_stages.specs.Parts.{IfReport, Refused};

use crate::images::image_of;
use crate::laws::woven_is_served;
use crate::lines::replay_line;
use crate::programs::{Started, numbered, start_files};
use kilim_command::utf16_of;
use kilim_image::{Image, Run};
use kilim_outside::Gate;
use kilim_program::{ClassId, Program};
use kilim_run::{Resumed, resume_alone, resume_with};
use kilim_run_journal::{Entry, text};
use kilim_run_state::Limits;
use kilim_stages::Refusal;
use kilim_units::NoMemory;
use kilim_weave::Woven;
use std::alloc::Global;
use std::sync::Wait;
use std::thread::Threads;

/// A run that was stopped: its program and woven form, its main class, its limits, and its journal so far.
#[derive(Drop)]
pub struct Stopped {
    pub plain: Program,
    pub woven: Woven,
    pub main: ClassId,
    pub limits: Limits,
    pub journal: Vec<Entry>,
}

// ---- from the bytes of an image

// The name of the main class as UTF-16 units.
fn units_of(alloc: Global, name: &[u8]) -> Result<Vec<u16>, NoMemory>
    requires { is_utf8 name.now ≡ true }
    ensures { IfOk result (λ units. units.items ≡ utf16_of name.now) }
{
    match std::str::from_utf8(name) {
        Ok(text) => match utf16_of(alloc, text) {
            Ok(units) => Ok(units),
            Err(_) => Err(NoMemory),
        },
        Err(_) => unreachable!(),
    }
}

// The program of an image, with its main class.
fn program_of(alloc: Global, run: &Run) -> Result<Started, Refusal>
    requires few { length run.now.files ≤ 1000 }
    requires text { is_utf8 run.now.main ≡ true }
    ensures started { IfOk result (IsStarted (utf16_of run.now.main) run.now.files) }
    ensures report { IfReport result (IsStartReport (names_from 1 run.now.files) (utf16_of run.now.main) run.now.files) }
{
    let Ok(names) = numbered(alloc, run.files.as_slice()) else {
        return Err(Refusal::NoMemory);
    };
    let Ok(name) = units_of(alloc, run.main.as_slice()) else {
        return Err(Refusal::NoMemory);
    };
    start_files(
        alloc,
        names.as_slice(),
        run.files.as_slice(),
        name.as_slice(),
    )
}

// The limits of a run; its other parts are let go.
fn limits_in(run: Run) -> Limits
    ensures { result ≡ limits_of run.steps run.args }
{
    let Run {
        steps,
        args,
        main,
        files,
    } = run;
    drop(main);
    drop(files);
    Limits { steps, args }
}

// The run that the image is of.
fn stopped_by(image: Image, started: Started) -> Stopped
    ensures plain { result.plain ≡ started.plain }
    ensures woven { result.woven ≡ started.woven }
    ensures main { result.main ≡ started.main }
    ensures limits { result.limits ≡ limits_of image.run.steps image.run.args }
    ensures journal { result.journal ≡ image.journal }
{
    let Image { run, journal } = image;
    let Started { plain, woven, main } = started;
    Stopped {
        plain,
        woven,
        main,
        limits: limits_in(run),
        journal,
    }
}

/// The run that was stopped, of whose image these are the bytes; or the line of the first fault of the bytes; or the report of the first stage
/// that has a fault, where the class files are named by their numbers, `#1` and so on.
pub fn stopped_run(alloc: Global, bytes: &[u8]) -> Result<Stopped, Refusal>
    ensures stopped { IfOk result (IsStopped bytes.now) }
    ensures report { IfReport result (IsImageReport bytes.now) }
{
    woven_is_served();
    let image = match image_of(alloc, bytes) {
        Ok(image) => image,
        Err(refusal) => return Err(refusal),
    };
    match program_of(alloc, &image.run) {
        Ok(started) => Ok(stopped_by(image, started)),
        Err(refusal) => {
            drop(image);
            Err(refusal)
        }
    }
}

// ---- the run goes on

// The text of the entries behind the given ones.
fn text_behind(alloc: Global, entries: Vec<Entry>, given: &[Entry]) -> Result<Vec<u8>, NoMemory>
    requires readable { IsReadable entries.items }
    requires begins { BeginsWith given.now entries.items }
    ensures { IfOk result (λ text. IsBehind given.now entries.items text.items) }
{
    let mut entries = entries;
    let Ok(rest) = entries.split_off(given.len()) else {
        drop(entries);
        return Err(NoMemory);
    };
    drop(entries);
    let answer = text(alloc, &rest);
    drop(rest);
    answer
}

// No state follows with that line.
fn differs(alloc: Global, line: usize) -> Refusal
    ensures { Refused result (λ text. text ≡ replay_line line) }
{
    match replay_line(alloc, line) {
        Ok(text) => Refusal::Report(text),
        Err(_) => Refusal::NoMemory,
    }
}

// What is written of a run that went on.
fn gone_on(alloc: Global, resumed: Resumed, given: &[Entry]) -> Result<Vec<u8>, Refusal>
    requires { (set : Setting) × IsResumed set given.now resumed }
    ensures text { (set : Setting) → IsResumed set given.now resumed → IfOk result (λ text. IsGoneOn set given.now text.items) }
    ensures report { (set : Setting) → IsResumed set given.now resumed → IfReport result (IsDiffersLine set given.now) }
{
    match resumed {
        Resumed::Journal(entries) => match text_behind(alloc, entries, given) {
            Ok(text) => Ok(text),
            Err(_) => Err(Refusal::NoMemory),
        },
        Resumed::Differs(line) => Err(differs(alloc, line)),
    }
}

/// Goes on with a run that was stopped, by one worker, the caller: the text of the entries that follow its own in the journal of a whole run. Or
/// the line of the first entry that can't come.
pub fn resume_run_alone<G: Gate>(
    alloc: Global,
    stopped: Stopped,
    gate: &G,
) -> Result<Vec<u8>, Refusal>
    requires { CanServe (setting_of stopped.plain stopped.main stopped.limits) stopped.woven.program stopped.woven.counted }
    ensures text { IfOk result (λ text. IsGoneOn (setting_of stopped.plain stopped.main stopped.limits) stopped.journal.items text.items) }
    ensures report { IfReport result (IsDiffersLine (setting_of stopped.plain stopped.main stopped.limits) stopped.journal.items) }
{
    let Stopped {
        plain,
        woven,
        main,
        limits,
        journal,
    } = stopped;
    let given = journal.as_slice();
    let Ok(resumed) = resume_alone(alloc, plain, woven, main, &limits, given, gate) else {
        return Err(Refusal::NoMemory);
    };
    gone_on(alloc, resumed, given)
}

/// The same by so many workers, from 2 to 16; another number is that of one. It may wait.
pub fn resume_run<R: Threads + Wait + Sync, G: Gate>(
    rt: &R,
    alloc: Global,
    stopped: Stopped,
    workers: u64,
    gate: &G,
) -> Result<Vec<u8>, Refusal>
    requires { CanServe (setting_of stopped.plain stopped.main stopped.limits) stopped.woven.program stopped.woven.counted }
    ensures text { IfOk result (λ text. IsGoneOn (setting_of stopped.plain stopped.main stopped.limits) stopped.journal.items text.items) }
    ensures report { IfReport result (IsDiffersLine (setting_of stopped.plain stopped.main stopped.limits) stopped.journal.items) }
{
    let Stopped {
        plain,
        woven,
        main,
        limits,
        journal,
    } = stopped;
    let given = journal.as_slice();
    let ran = resume_with(rt, alloc, plain, woven, main, &limits, given, workers, gate);
    let Ok(resumed) = ran else {
        return Err(Refusal::NoMemory);
    };
    gone_on(alloc, resumed, given)
}
