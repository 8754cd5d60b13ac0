//! Runs of what is ready.

ghost use Rattle.std.specs.Prelude.{◌≡◌, ◌≤◌, [], IfOk, length};
ghost use Rattle.kilim_run_journal.specs.Readable.{IsReadable};
ghost use Rattle.kilim_command.specs.grammar.Parts.{meant};
ghost use Rattle.kilim_command.specs.grammar.Words.{class_files, files_read};
ghost use Rattle.kilim_top.specs.Inside.Answer.{IsAnsweredBy, IsReplyFor};
ghost use Rattle.kilim_command.specs.RunText.{run_text};

use crate::answer::{Ready, Reply, prepare};
use kilim_command::grammar::Asked;
use kilim_command::{DONE, REPORTED, demo_number, text_of_run, workers_of};
use kilim_image_command::{resume_run, resume_run_alone};
use kilim_outside::Gate;
use kilim_run::{run_alone, run_with};
use kilim_run_journal::Entry;
use kilim_stages::Refusal;
use kilim_units::{NoMemory, Seq};
use std::alloc::Global;
use std::sync::Wait;
use std::thread::Threads;

// What is answered where a run was done.
fn run_reply(alloc: Global, demo: Option<u64>, entries: Vec<Entry>) -> Result<Reply, NoMemory>
    requires { IsReadable entries.items }
    ensures status { IfOk result (λ reply. reply.status ≡ 0) }
    ensures files { IfOk result (λ reply. reply.files.items ≡ []) }
    ensures text { IfOk result (λ reply. reply.text.items ≡ run_text demo entries.items) }
{
    let text = text_of_run(alloc, demo, entries)?;
    Ok(Reply {
        status: DONE,
        files: Vec::new(alloc),
        text,
    })
}

// What is answered where a run went on.
fn resume_reply(alloc: Global, answer: Result<Vec<u8>, Refusal>) -> Result<Reply, NoMemory>
    ensures { IfOk result (IsAnsweredBy answer) }
{
    match answer {
        Ok(text) => Ok(Reply {
            status: DONE,
            files: Vec::new(alloc),
            text,
        }),
        Err(Refusal::Report(text)) => Ok(Reply {
            status: REPORTED,
            files: Vec::new(alloc),
            text,
        }),
        Err(Refusal::NoMemory) => Err(NoMemory),
    }
}

/// What is answered for the bytes of the files that the words name, with a run by one worker.
pub fn reply_alone<G: Gate>(
    alloc: Global,
    asked: &Asked<'_>,
    files: &[Seq<u8>],
    gate: &G,
) -> Result<Reply, NoMemory>
    requires few { length (class_files (meant asked.now)) ≤ 1000 }
    requires same { length (files_read (meant asked.now)) ≡ length files.now }
    ensures { IfOk result (λ reply. IsReplyFor (meant asked.now) files.now reply.status reply.files.items reply.text.items) }
{
    let demo = demo_number(asked);
    let Ok(ready) = prepare(alloc, asked, files, gate) else {
        return Err(NoMemory);
    };
    match ready {
        Ready::Reply(reply) => Ok(reply),
        Ready::Run(plain, woven, class, limits) => {
            let Ok(entries) = run_alone(alloc, plain, woven, class, &limits, gate) else {
                return Err(NoMemory);
            };
            run_reply(alloc, demo, entries)
        }
        Ready::Resume(stopped) => resume_reply(alloc, resume_run_alone(alloc, stopped, gate)),
    }
}

/// The same with a run by as many workers as the words ask for.
pub fn reply_with<R: Threads + Wait + Sync, G: Gate>(
    rt: &R,
    alloc: Global,
    asked: &Asked<'_>,
    files: &[Seq<u8>],
    gate: &G,
) -> Result<Reply, NoMemory>
    requires few { length (class_files (meant asked.now)) ≤ 1000 }
    requires same { length (files_read (meant asked.now)) ≡ length files.now }
    ensures { IfOk result (λ reply. IsReplyFor (meant asked.now) files.now reply.status reply.files.items reply.text.items) }
{
    let workers = workers_of(asked);
    let demo = demo_number(asked);
    let Ok(ready) = prepare(alloc, asked, files, gate) else {
        return Err(NoMemory);
    };
    match ready {
        Ready::Reply(reply) => Ok(reply),
        Ready::Run(plain, woven, class, limits) => {
            let Ok(entries) = run_with(rt, alloc, plain, woven, class, &limits, workers, gate)
            else {
                return Err(NoMemory);
            };
            run_reply(alloc, demo, entries)
        }
        Ready::Resume(stopped) => {
            let answer = resume_run(rt, alloc, stopped, workers, gate);
            resume_reply(alloc, answer)
        }
    }
}
