//! A run is stopped, and becomes an image.

ghost use Rattle.std.specs.Prelude.{◌≡◌, ◌≤◌, true, length, map, IfOk};
ghost use Rattle.std.specs.String.{string_bytes};
ghost use Rattle.kilim_command.specs.Report.{utf16_of};
ghost use Rattle.kilim_fiber_laws.specs.Served.{CanServe};
ghost use Rattle.kilim_image.specs.Writing.{HasSize};
ghost use Rattle.kilim_image_command.specs.Images.{IsSizeReport};
ghost use Rattle.kilim_image_command.specs.Saving.{IsSaveReport, IsSaveSize, IsSaved, IsSavedAs, IsSavedRun, run_of};
ghost use Rattle.kilim_run.specs.Runs.{setting_of};
ghost use Rattle.kilim_run_journal.specs.Readable.{IsReadable};
ghost use Rattle.kilim_run_journal.specs.Text.{journal_text};
ghost use Rattle.kilim_stages.specs.Parts.{IfReport};

use crate::images::image_bytes;
use crate::laws::woven_is_served;
use crate::programs::{Started, start_files};
use kilim_command::Start;
use kilim_image::{Image, Run};
use kilim_outside::Gate;
use kilim_run::run_until;
use kilim_run_journal::text;
use kilim_run_state::Limits;
use kilim_stages::Refusal;
use kilim_units::{NoMemory, Seq, no_room};
use std::alloc::Global;

/// What saving a run comes to.
#[derive(Drop)]
pub struct Saved {
    /// The bytes of its image.
    pub image: Vec<u8>,
    /// The text of its journal so far.
    pub text: Vec<u8>,
}

fn copy_of(alloc: Global, bytes: &[u8]) -> Result<Seq<u8>, NoMemory>
    ensures { IfOk result (λ copy. copy ≡ bytes.now) }
{
    match Vec::from_slice(alloc, bytes) {
        Ok(copy) => Ok(Seq::from_vec(copy)),
        Err(_) => Err(NoMemory),
    }
}

fn copy_of_files(alloc: Global, files: &[Seq<u8>]) -> Result<Seq<Seq<u8>>, NoMemory>
    ensures { IfOk result (λ copies. copies ≡ files.now) }
{
    let mut copies = Seq::new(alloc);
    for file in files {
        let Ok(copy) = copy_of(alloc, file.as_slice()) else {
            return Err(NoMemory);
        };
        let Ok(()) = copies.push(copy) else {
            return Err(NoMemory);
        };
    }
    Ok(copies)
}

fn copy_of_args(alloc: Global, args: &Seq<i32>) -> Result<Seq<i32>, NoMemory>
    ensures { IfOk result (λ copy. copy ≡ args.now) }
{
    match Vec::from_slice(alloc, args.as_slice()) {
        Ok(copy) => Ok(Seq::from_vec(copy)),
        Err(_) => Err(NoMemory),
    }
}

// Whether each count is a number of its width.
fn has_size(run: &Run) -> bool
    ensures { result ≡ true → HasSize run.now }
{
    run.args.len() < 256 && (run.main.len() < 65_536 && run.files.len() < 65_536)
}

// Which run it is.
fn run_of(alloc: Global, main: &str, limits: &Limits, files: &[Seq<u8>]) -> Result<Run, NoMemory>
    ensures run { IfOk result (λ run. run ≡ run_of main.now limits.now files.now) }
    ensures sized { IfOk result HasSize }
{
    let Ok(args) = copy_of_args(alloc, &limits.args) else {
        return Err(NoMemory);
    };
    let Ok(main) = copy_of(alloc, main.as_bytes()) else {
        return Err(NoMemory);
    };
    let Ok(files) = copy_of_files(alloc, files) else {
        return Err(NoMemory);
    };
    let run = Run {
        steps: limits.steps,
        args,
        main,
        files,
    };
    if has_size(&run) {
        Ok(run)
    } else {
        drop(run);
        // room: a class's name of 65,536 bytes
        Err(no_room())
    }
}

// The bytes of an image, with the text of its journal.
fn image_and_text(alloc: Global, image: &Image) -> Result<Saved, Refusal>
    requires sized { HasSize image.now.run }
    requires readable { IsReadable image.now.journal.items }
    ensures saved { IfOk result (IsSavedAs image.now.run image.now.journal.items) }
    ensures report { IfReport result (IsSizeReport image.now.run (journal_text image.now.journal.items)) }
{
    let bytes = match image_bytes(alloc, image) {
        Ok(bytes) => bytes,
        Err(refusal) => return Err(refusal),
    };
    match text(alloc, &image.journal) {
        Ok(text) => Ok(Saved { image: bytes, text }),
        Err(_) => {
            drop(bytes);
            Err(Refusal::NoMemory)
        }
    }
}

// Runs a program until it has so many entries, or is at rest: the bytes of the image, and the text of the journal so far. Or the line of how
// many bytes the image would have, which are too many.
fn save_run<G: Gate>(
    alloc: Global,
    started: Started,
    limits: &Limits,
    run: Run,
    entries: u64,
    gate: &G,
) -> Result<Saved, Refusal>
    requires served { CanServe (setting_of started.plain started.main limits.now) started.woven.program started.woven.counted }
    requires sized { HasSize run }
    ensures saved { IfOk result (IsSaved (setting_of started.plain started.main limits.now) entries run) }
    ensures report { IfReport result (IsSaveSize (setting_of started.plain started.main limits.now) entries run) }
{
    let Started { plain, woven, main } = started;
    let Ok(journal) = run_until(alloc, plain, woven, main, limits, entries, gate) else {
        drop(run);
        return Err(Refusal::NoMemory);
    };
    let image = Image { run, journal };
    let answer = image_and_text(alloc, &image);
    drop(image);
    answer
}

/// Runs the program of the class files with these bytes, with the main class of that name, by one worker until no fiber is lent and its journal
/// has so many entries, or it is at rest: the bytes of the image, and the text of the journal so far. Or the report of the first stage that
/// has a fault, or the line of how many bytes the image would have, which are too many. There are at most 1,000 files, and a name for each.
pub fn save_files<G: Gate>(
    alloc: Global,
    names: &[String],
    files: &[Seq<u8>],
    main: &str,
    start: &Start,
    entries: u64,
    gate: &G,
) -> Result<Saved, Refusal>
    requires few { length files.now ≤ 1000 }
    requires same { length names.now ≡ length files.now }
    requires named { start.now.main.items ≡ utf16_of main.now }
    ensures saved { IfOk result (λ saved. IsSavedRun main.now start.now.limits entries files.now saved.image.items saved.text.items) }
    ensures report { IfReport result (IsSaveReport (map string_bytes names.now) main.now start.now.limits entries files.now) }
{
    woven_is_served();
    match start_files(alloc, names, files, start.main.as_slice()) {
        Ok(started) => match run_of(alloc, main, &start.limits, files) {
            Ok(run) => save_run(alloc, started, &start.limits, run, entries, gate),
            Err(_) => {
                drop(started);
                Err(Refusal::NoMemory)
            }
        },
        Err(refusal) => Err(refusal),
    }
}
