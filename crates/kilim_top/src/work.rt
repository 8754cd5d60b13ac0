//! The work that the words ask for.

ghost use Rattle.std.specs.Prelude.{◌≡◌, ◌≤◌, Some, length};
ghost use Rattle.kilim_command.specs.grammar.Parts.{meant};
ghost use Rattle.kilim_command.specs.grammar.Words.{class_files};
ghost use Rattle.kilim_top.specs.Inside.Answer.{IsReplyFor};
ghost use Rattle.kilim_top.specs.Inside.Respond.{Responded};
ghost use Rattle.kilim_top.specs.Outcome.{Promises, shown};

use crate::answer::Reply;
use crate::runs::{reply_alone, reply_with};
use kilim_command::grammar::Asked;
use kilim_command::{NO_MEMORY, UNREAD, UNWRITTEN, read_asked, write_all};
use kilim_image_command::{
    never_begun_and_reported, never_gone_on_and_reported, never_saved_and_reported,
};
use kilim_outside::written::write_files;
use kilim_outside::{Folder, FolderFault, Gate, SinkFault, TextSink};
use kilim_replay_command::never_whole_and_reported;
use kilim_stages::woven_stage::woven_is_not_reported;
use kilim_stages::{never_both, one_program_of};
use kilim_units::Seq;
use kilim_weave_file_command::never_weavable_and_reported;
use std::alloc::Global;
use std::sync::Wait;
use std::thread::Threads;

// Writes what was answered for these bytes, its files first, and says with which status.
fn respond<F: Folder, K: TextSink>(
    asked: &Asked<'_>,
    bytes: &[Seq<u8>],
    reply: &Reply,
    files: &mut F,
    out: &mut K,
) -> u8
    requires { IsReplyFor (meant asked.now) bytes.now reply.now.status reply.now.files.items reply.now.text.items }
    ensures { Responded (meant asked.now) bytes.now (shown (F.contents files.old) (F.faults files.old) (K.written out.old) (K.faults out.old)) (shown (F.contents files.new) (F.faults files.new) (K.written out.new) (K.faults out.new)) result }
{
    never_both();
    one_program_of();
    never_weavable_and_reported();
    never_whole_and_reported();
    woven_is_not_reported();
    never_begun_and_reported();
    never_saved_and_reported();
    never_gone_on_and_reported();
    let _asked = asked;
    let _bytes = bytes;
    match write_files(files, reply.files.as_slice()) {
        Ok(()) => match write_all(out, reply.text.as_slice()) {
            Ok(()) => reply.status,
            Err(SinkFault::Failed) => UNWRITTEN,
            Err(SinkFault::NoMemory) => NO_MEMORY,
        },
        Err(FolderFault::Failed) => UNWRITTEN,
        Err(FolderFault::NoMemory) => NO_MEMORY,
    }
}

/// Reads the files, and writes what is answered for them: first files, then a text. A run is by one worker.
pub fn work_alone<F: Folder, K: TextSink, G: Gate>(
    alloc: Global,
    asked: &Asked<'_>,
    files: &mut F,
    out: &mut K,
    gate: &G,
) -> u8
    requires { length (class_files (meant asked.now)) ≤ 1000 }
    ensures promises { Promises (Some (meant asked.now)) (shown (F.contents files.old) (F.faults files.old) (K.written out.old) (K.faults out.old)) (shown (F.contents files.new) (F.faults files.new) (K.written out.new) (K.faults out.new)) result }
    ensures untouched { result ≡ UNREAD → out.new ≡ out.old }
{
    match read_asked(alloc, asked, files) {
        Ok(read) => {
            let bytes = read.as_slice();
            match reply_alone(alloc, asked, bytes, gate) {
                Ok(reply) => respond(asked, bytes, &reply, files, out),
                Err(_) => NO_MEMORY,
            }
        }
        Err(FolderFault::Failed) => UNREAD,
        Err(FolderFault::NoMemory) => NO_MEMORY,
    }
}

/// The same with a run by as many workers as the words ask for.
pub fn work_with<R: Threads + Wait + Sync, F: Folder, K: TextSink, G: Gate>(
    rt: &R,
    alloc: Global,
    asked: &Asked<'_>,
    files: &mut F,
    out: &mut K,
    gate: &G,
) -> u8
    requires { length (class_files (meant asked.now)) ≤ 1000 }
    ensures promises { Promises (Some (meant asked.now)) (shown (F.contents files.old) (F.faults files.old) (K.written out.old) (K.faults out.old)) (shown (F.contents files.new) (F.faults files.new) (K.written out.new) (K.faults out.new)) result }
    ensures untouched { result ≡ UNREAD → out.new ≡ out.old }
{
    match read_asked(alloc, asked, files) {
        Ok(read) => {
            let bytes = read.as_slice();
            match reply_with(rt, alloc, asked, bytes, gate) {
                Ok(reply) => respond(asked, bytes, &reply, files, out),
                Err(_) => NO_MEMORY,
            }
        }
        Err(FolderFault::Failed) => UNREAD,
        Err(FolderFault::NoMemory) => NO_MEMORY,
    }
}
