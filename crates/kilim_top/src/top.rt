//! The top call.

ghost use Rattle.std.specs.Prelude.{◌≡◌, ◌⊎◌, ◌↔◌, Some, None, [], map, IfSome};
ghost use Rattle.std.specs.String.{string_bytes};
ghost use Rattle.kilim_outside.specs.Files.{files_of};
ghost use Rattle.kilim_command.specs.grammar.Words.{request_of};
ghost use Rattle.kilim_command.specs.Words.{NeedsWorkers};
ghost use Rattle.kilim_top.specs.Outcome.{IsFit, HasReport, Promises, shown};

use crate::work::{work_alone, work_with};
use kilim_command::grammar::request;
use kilim_command::{DONE, NO_MEMORY, REPORTED, UNREAD, USAGE, workers_of};
use kilim_outside::{Folder, Gate, SteadyFolder, SteadySink, TextSink};
use std::alloc::Global;
use std::sync::Wait;
use std::thread::Threads;

/// Does what the words ask for, by itself: it takes no runtime, waits for nobody and returns. It answers the
/// status, and None where a run needs more than one worker, with nothing done.
///
/// The words are those after the program's name: `check FILE..`, `weave --to=DIR FILE..`,
/// `run --main=NAME [--workers=W] [--steps=N] FILE.. [-- INT..]`, `replay --main=NAME --journal=FILE [--steps=N] FILE.. [-- INT..]`,
/// `save --main=NAME --entries=K --image=FILE [--steps=N] FILE.. [-- INT..]`, each with at most 1,000 files, `resume --image=FILE [--workers=W]`,
/// or `demo --number=D [--workers=W]`. The
/// status is 0 where the work was done, and its files and its text were written whole: that the class files are accepted; woven files,
/// and a line for each; the run's journal; an image and the journal so far; what follows the journal of an image; or the line of the demo.
/// It is 1 where a report was: that a file is no class file, or the
/// class files don't link, or break rules of typing, isolation or pausing, or can't be woven, or have no such main class, or what is wrong with
/// a journal or an image; 2 where the
/// words aren't in the grammar; 3 where a file can't be read; 4 where a file or the text can't be written; 5 for want of memory.
///
/// `Promises` (specs/Outcome.antt) has what each status says. The sink is left alone before all files are read and all woven files
/// written, and the files before all words are read.
pub fn kilim_alone<F: Folder, K: TextSink, G: Gate>(
    alloc: Global,
    words: &Vec<String>,
    files: &mut F,
    out: &mut K,
    gate: &G,
) -> Option<u8>
    ensures needs { (result ≡ None) ↔ NeedsWorkers (request_of (map string_bytes words.now.items)) }
    ensures promises { IfSome result (λ status. Promises (request_of (map string_bytes words.now.items)) (shown (F.contents files.old) (F.faults files.old) (K.written out.old) (K.faults out.old)) (shown (F.contents files.new) (F.faults files.new) (K.written out.new) (K.faults out.new)) status) }
    ensures untouched { (result ≡ None) ⊎ (result ≡ Some USAGE) ⊎ (result ≡ Some UNREAD) → out.new ≡ out.old }
    ensures unread { (result ≡ None) ⊎ (result ≡ Some USAGE) → files.new ≡ files.old }
{
    let Some(asked) = request(words.as_slice()) else {
        return Some(USAGE);
    };
    if workers_of(&asked) > 1 {
        return None;
    }
    Some(work_alone(alloc, &asked, files, out, gate))
}

/// The same over files and a sink in memory in which nothing fails: the status is 0, 1, 2 or 5.
pub fn kilim_in_memory<G: Gate>(
    alloc: Global,
    words: &Vec<String>,
    files: &mut SteadyFolder,
    out: &mut SteadySink,
    gate: &G,
) -> Option<u8>
    ensures needs { (result ≡ None) ↔ NeedsWorkers (request_of (map string_bytes words.now.items)) }
    ensures promises { IfSome result (λ status. Promises (request_of (map string_bytes words.now.items)) (shown (Some (files_of files.old.files)) [] (Some out.old.bytes) 0) (shown (Some (files_of files.new.files)) [] (Some out.new.bytes) 0) status) }
    ensures one_of { (result ≡ None) ⊎ (result ≡ Some DONE) ⊎ (result ≡ Some REPORTED) ⊎ (result ≡ Some USAGE) ⊎ (result ≡ Some NO_MEMORY) }
    ensures untouched { (result ≡ None) ⊎ (result ≡ Some USAGE) → out.new ≡ out.old }
    ensures complete { IsFit (Some (files_of files.old.files)) (request_of (map string_bytes words.now.items)) → (result ≡ None) ⊎ (result ≡ Some DONE) ⊎ (result ≡ Some NO_MEMORY) }
    ensures reported { HasReport (Some (files_of files.old.files)) (request_of (map string_bytes words.now.items)) → (result ≡ None) ⊎ (result ≡ Some REPORTED) ⊎ (result ≡ Some NO_MEMORY) }
{
    kilim_alone(alloc, words, files, out, gate)
}

/// Does what the words ask for, a run with as many workers as they say: it is what `kilim_alone` does, where that answers a status. It
/// takes a runtime, and may wait.
pub fn kilim<R: Threads + Wait + Sync, F: Folder, K: TextSink, G: Gate>(
    rt: &R,
    alloc: Global,
    words: &Vec<String>,
    files: &mut F,
    out: &mut K,
    gate: &G,
) -> u8
    ensures promises { Promises (request_of (map string_bytes words.now.items)) (shown (F.contents files.old) (F.faults files.old) (K.written out.old) (K.faults out.old)) (shown (F.contents files.new) (F.faults files.new) (K.written out.new) (K.faults out.new)) result }
    ensures untouched { (result ≡ USAGE) ⊎ (result ≡ UNREAD) → out.new ≡ out.old }
    ensures unread { result ≡ USAGE → files.new ≡ files.old }
{
    if let Some(status) = kilim_alone(alloc, words, files, out, gate) {
        return status;
    }
    let Some(asked) = request(words.as_slice()) else {
        return USAGE;
    };
    work_with(rt, alloc, &asked, files, out, gate)
}
