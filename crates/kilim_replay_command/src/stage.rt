//! From class files and a journal to what is so of it.

ghost use Rattle.std.specs.Prelude.{◌≡◌, ◌≢◌, ◌≤◌, true, length, map, IfOk};
ghost use Rattle.std.specs.String.{string_bytes};
ghost use Rattle.kilim_command.specs.Report.{named_line};
ghost use Rattle.kilim_program.specs.Members.{is_fit_main};
ghost use Rattle.kilim_program.specs.declared.class.Form.TheVariants.{Plain};
ghost use Rattle.kilim_replay.specs.Fold.{IsReadableVerdict};
ghost use Rattle.kilim_replay_laws.specs.declared.verdict.Verdict.TheVariants as verdict;
ghost use Rattle.kilim_replay_thread.specs.Reach.{setting_of};
ghost use Rattle.kilim_stages.specs.Parts.{IfReport, Refused};
ghost use Rattle.kilim_replay_command.specs.Lines.{verdict_line};
ghost use Rattle.kilim_replay_command.specs.Parts.{IsMainLine, IsTextLine, IsVerdictLine, IsWholeLine, IsWholeOf, IsWholeText};
ghost use Rattle.kilim_replay_command.specs.Replay.{IsReplayReport, IsReplayed};

use crate::entries::entries_of;
use crate::lines::verdict_line;
use kilim_command::{Start, no_main};
use kilim_program::ClassId;
use kilim_program::main_class::fit_main;
use kilim_replay::{Verdict, check};
use kilim_run_journal::Entry;
use kilim_run_state::Limits;
use kilim_stages::{Refusal, typed_program};
use kilim_type_spec::Typed;
use kilim_units::Seq;
use std::alloc::Global;

// No class of that name is fit to be the main class.
fn without_main(alloc: Global, name: &[u16]) -> Refusal
    ensures { Refused result (λ text. text ≡ named_line name.now) }
{
    match no_main(alloc, name) {
        Ok(text) => Refusal::Report(text),
        Err(_) => Refusal::NoMemory,
    }
}

// The journal is that of a whole run.
fn whole(alloc: Global, lines: usize) -> Result<Vec<u8>, Refusal>
    ensures line { IfOk result (λ text. text.items ≡ verdict_line lines verdict.Whole) }
    ensures never { IfReport result (λ text. ⊥) }
{
    match verdict_line(alloc, lines, Verdict::Whole) {
        Ok(text) => Ok(text),
        Err(_) => Err(Refusal::NoMemory),
    }
}

// Something is wrong with the journal.
fn wrong(alloc: Global, lines: usize, verdict: Verdict) -> Refusal
    requires { IsReadableVerdict verdict }
    ensures { Refused result (λ text. text ≡ verdict_line lines verdict) }
{
    match verdict_line(alloc, lines, verdict) {
        Ok(text) => Refusal::Report(text),
        Err(_) => Refusal::NoMemory,
    }
}

// What is so of a journal, with the main class.
fn replay(
    alloc: Global,
    typed: &Typed,
    main: ClassId,
    limits: &Limits,
    journal: &[Entry],
) -> Result<Vec<u8>, Refusal>
    requires plain { typed.now.program.form ≡ Plain }
    requires fit { is_fit_main typed.now.program main ≡ true }
    ensures done { IfOk result (λ text. IsWholeLine (setting_of typed.now.program main limits.now) journal.now text.items) }
    ensures report { IfReport result (IsVerdictLine (setting_of typed.now.program main limits.now) journal.now) }
{
    let Ok(verdict) = check(alloc, typed, main, limits, journal) else {
        return Err(Refusal::NoMemory);
    };
    match verdict {
        Verdict::Whole => whole(alloc, journal.len()),
        other => Err(wrong(alloc, journal.len(), other)),
    }
}

// What is so of a journal, by the name of the main class.
fn replay_named(
    alloc: Global,
    typed: &Typed,
    start: &Start,
    journal: &[Entry],
) -> Result<Vec<u8>, Refusal>
    requires { typed.now.program.form ≡ Plain }
    ensures done { IfOk result (λ text. IsWholeOf typed.now.program start.now.main.items start.now.limits journal.now text.items) }
    ensures report { IfReport result (IsMainLine typed.now.program start.now.main.items start.now.limits journal.now) }
{
    match fit_main(&typed.program, start.main.as_slice()) {
        Ok(Some(main)) => replay(alloc, typed, main, &start.limits, journal),
        Ok(None) => Err(without_main(alloc, start.main.as_slice())),
        Err(_) => Err(Refusal::NoMemory),
    }
}

// What is so of the journal with that text.
fn replay_text(alloc: Global, typed: &Typed, start: &Start, text: &[u8]) -> Result<Vec<u8>, Refusal>
    requires { typed.now.program.form ≡ Plain }
    ensures done { IfOk result (λ line. IsWholeText typed.now.program start.now.main.items start.now.limits text.now line.items) }
    ensures report { IfReport result (IsTextLine typed.now.program start.now.main.items start.now.limits text.now) }
{
    match entries_of(alloc, text) {
        Ok(journal) => {
            let line = replay_named(alloc, typed, start, journal.as_slice());
            drop(journal);
            line
        }
        Err(refusal) => Err(refusal),
    }
}

/// What is so of the journal with that text, for the class files with these bytes, linked in their order, and the main class of that name: that
/// it is the journal of a whole run, with the number of its lines. Else a report: of the first stage that has a fault, of which there are
/// reading, linking, typing, the journal's text and the main class; or of what is wrong with the journal first. The rules of isolation and
/// pausing aren't asked. There are at most 1,000 files, and a name for each.
pub fn replay_files(
    alloc: Global,
    names: &[String],
    files: &[Seq<u8>],
    start: &Start,
    text: &[u8],
) -> Result<Vec<u8>, Refusal>
    requires few { length files.now ≤ 1000 }
    requires same { length names.now ≡ length files.now }
    ensures done { IfOk result (λ line. IsReplayed start.now.main.items start.now.limits files.now text.now line.items) }
    ensures report { IfReport result (IsReplayReport (map string_bytes names.now) start.now.main.items start.now.limits files.now text.now) }
{
    match typed_program(alloc, names, files) {
        Ok(typed) => {
            let line = replay_text(alloc, &typed, start, text);
            drop(typed);
            line
        }
        Err(refusal) => Err(refusal),
    }
}
