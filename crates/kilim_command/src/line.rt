//! The line of a journal.

ghost use Rattle.std.specs.Prelude.{◌≡◌, ◌≤◌, ◌+◌, ◌++◌, pos, length, IfOk, OnOk};
ghost use Rattle.kilim_command.specs.Kinds.{is_of};
ghost use Rattle.kilim_command.specs.DemoLine.{back_of, demo_line, front_of, how_many, is_print, is_put, is_start, is_take, sum_from, with_act, with_token};

use kilim_run_journal::{Act, Entry};
use kilim_run_state::Token;
use kilim_units::{NoMemory, no_room};
use std::alloc::Global;

/// The kinds of entries that are counted.
#[derive(Clone, Copy)]
enum Kind {
    Start,
    Put,
    Take,
    Print,
}

fn is_of(kind: Kind, act: &Act) -> bool
    ensures { result ≡ is_of kind act.now }
{
    match kind {
        Kind::Start => matches!(act, Act::Start(_, _)),
        Kind::Put => matches!(act, Act::Put(_, _, _)),
        Kind::Take => matches!(act, Act::Take(_, _)),
        Kind::Print => matches!(act, Act::Print(_)),
    }
}

// How many entries there are of a kind.
fn count(kind: Kind, journal: &[Entry]) -> usize
    ensures count { result ≡ how_many (is_of kind) journal.now }
    ensures few { result ≤ length journal.now }
{
    let mut found = 0usize;
    for entry in journal {
        if is_of(kind, &entry.act) {
            found += 1;
        }
    }
    found
}

fn with_token(sum: i64, shape: &[Token]) -> i64
    ensures { result ≡ with_token sum shape.now }
{
    match shape {
        [Token::Int(n)] => sum.wrapping_add(i64::from(*n)),
        _ => sum,
    }
}

fn with_act(sum: i64, act: &Act) -> i64
    ensures { result ≡ with_act sum act.now }
{
    match act {
        Act::Print(shape) => with_token(sum, shape.as_slice()),
        _ => sum,
    }
}

// The sum of the printed ints.
fn sum_of(journal: &[Entry]) -> i64
    ensures { result ≡ sum_from (pos 0) journal.now }
{
    let mut sum = 0i64;
    for entry in journal {
        sum = with_act(sum, &entry.act);
    }
    sum
}

// How many tasks there were. So many that they have no number are answered as want of memory.
fn tasks_of(journal: &[Entry]) -> Result<usize, NoMemory>
    ensures { IfOk result (λ tasks. tasks ≡ how_many is_start journal.now + 1) }
{
    match count(Kind::Start, journal).checked_add(1) {
        Some(tasks) => Ok(tasks),
        // room: 2^64 entries in memory
        None => Err(no_room()),
    }
}

#[tactic(auto, unfolding(crate::specs::DemoLine::front_of))]
fn front_of(alloc: Global, number: u64, tasks: usize, puts: usize) -> Result<Vec<u8>, NoMemory>
    ensures { IfOk result (λ text. text.items ≡ front_of number tasks puts) }
{
    match format!(in alloc; "demo {number} tasks {tasks} puts {puts}") {
        Ok(text) => Ok(text.into_bytes()),
        Err(_) => Err(NoMemory),
    }
}

// The rest of the line goes behind its front.
#[tactic(auto, unfolding(crate::specs::DemoLine::back_of))]
fn push_back(text: &mut Vec<u8>, takes: usize, prints: usize, sum: i64) -> Result<(), NoMemory>
    ensures { OnOk result (text.new.items ≡ text.old.items ++ back_of takes prints sum) }
{
    let Ok(back) = format!(in *text.allocator(); " takes {takes} prints {prints} sum {sum}\n")
    else {
        return Err(NoMemory);
    };
    match text.extend_from_slice(back.as_bytes()) {
        Ok(()) => Ok(()),
        Err(_) => Err(NoMemory),
    }
}

/// The line of the demo of a number, counted from its journal: how many tasks, puts, takes and prints, and the sum of the printed
/// ints. The error is want of memory.
pub fn demo_line(alloc: Global, number: u64, journal: &[Entry]) -> Result<Vec<u8>, NoMemory>
    ensures { IfOk result (λ text. text.items ≡ demo_line number journal.now) }
{
    let Ok(tasks) = tasks_of(journal) else {
        return Err(NoMemory);
    };
    let puts = count(Kind::Put, journal);
    let takes = count(Kind::Take, journal);
    let prints = count(Kind::Print, journal);
    let sum = sum_of(journal);
    let Ok(mut text) = front_of(alloc, number, tasks, puts) else {
        return Err(NoMemory);
    };
    let Ok(()) = push_back(&mut text, takes, prints, sum) else {
        return Err(NoMemory);
    };
    Ok(text)
}
