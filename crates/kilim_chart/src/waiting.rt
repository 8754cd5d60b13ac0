//! The text on how tasks ended and who waits.

use crate::lines::{class_of, line_of};
use crate::traffic::{
    Mailboxes, Traffic, Waiting, awaited, ended, is_full, mailboxes_of, note_starts, place_of,
    traffic_of, waiting_of,
};
use kilim_pieces::{Piece, behind, push};
use kilim_run_journal::Entry;
use kilim_run_state::EndCause;
use kilim_units::NoMemory;
use std::alloc::Global;

const CAUSES: [EndCause; 14] = [
    EndCause::Done,
    EndCause::Spent,
    EndCause::Depth,
    EndCause::Null,
    EndCause::Index,
    EndCause::Size,
    EndCause::Large,
    EndCause::Cast,
    EndCause::Store,
    EndCause::Zero,
    EndCause::Boxes,
    EndCause::Tasks,
    EndCause::Full,
    EndCause::Thrown,
];

// The line of the ends: each cause that occurs, and how many tasks ended so.
fn push_ends(out: &mut Vec<u8>, entries: &[Entry]) -> Result<(), NoMemory> {
    push(out, &[Piece::Text("ended:")])?;
    let mut before = " ";
    for cause in CAUSES {
        let count = ended(entries, cause);
        if count > 0 {
            push(
                out,
                &[
                    Piece::Text(before),
                    Piece::Text(cause.word()),
                    Piece::Text(" "),
                    Piece::Number(count),
                ],
            )?;
            before = ", ";
        }
    }
    push(out, &[Piece::Text("\n")])
}

fn push_task(out: &mut Vec<u8>, task: Option<u32>) -> Result<(), NoMemory> {
    match task {
        Some(task) => push(out, &[Piece::Text("task "), Piece::Number(task as usize)]),
        None => push(out, &[Piece::Text("nobody")]),
    }
}

// The name of a waiting task in parentheses, where its start is known.
fn push_name(out: &mut Vec<u8>, name: &[u8]) -> Result<(), NoMemory> {
    if name.is_empty() {
        return Ok(());
    }
    push(
        out,
        &[Piece::Text(" ("), Piece::Plain(name), Piece::Text(")")],
    )
}

// The class of a waiting task, as its start says.
fn name_of<'a>(bytes: &'a [u8], starts: &[usize], line: usize) -> &'a [u8] {
    if line == 0 {
        return &[];
    }
    class_of(behind(line_of(bytes, starts, line), 3))
}

// What a task waits for at a mailbox with that traffic.
fn awaited_at(traffic: Traffic) -> &'static str {
    if is_full(traffic) {
        " waits for room in "
    } else {
        " waits at "
    }
}

// The line of a waiting task.
fn push_waiting(
    out: &mut Vec<u8>,
    mailboxes: &Mailboxes,
    one: &Waiting,
    name: &[u8],
) -> Result<(), NoMemory> {
    let traffic = traffic_of(mailboxes, one.mailbox);
    push_task(out, Some(one.task))?;
    push_name(out, name)?;
    push(
        out,
        &[
            Piece::Text(awaited_at(traffic)),
            Piece::Number(one.mailbox.task as usize),
            Piece::Text("."),
            Piece::Number(one.mailbox.number as usize),
            Piece::Text(": "),
            Piece::Number(traffic.puts),
            Piece::Text(" put, "),
            Piece::Number(traffic.takes),
            Piece::Text(" taken; last put by "),
        ],
    )?;
    push_task(out, traffic.putter)?;
    push(out, &[Piece::Text(", last taken by ")])?;
    push_task(out, traffic.taker)?;
    push(out, &[Piece::Text("\n")])
}

// The place of the one whom the one at a place waits for, where that one waits too.
fn next_of(mailboxes: &Mailboxes, waiting: &[Waiting], at: usize) -> Option<usize> {
    match waiting.get(at) {
        Some(one) => match awaited(mailboxes, one) {
            Some(task) => place_of(waiting, task),
            None => None,
        },
        None => None,
    }
}

// Where each one's next stands.
fn nexts_of(
    alloc: Global,
    mailboxes: &Mailboxes,
    waiting: &[Waiting],
) -> Result<Vec<Option<usize>>, NoMemory> {
    let mut nexts = Vec::new(alloc);
    for at in 0..waiting.len() {
        let Ok(()) = nexts.push(next_of(mailboxes, waiting, at)) else {
            return Err(NoMemory);
        };
    }
    Ok(nexts)
}

fn next_in(nexts: &[Option<usize>], at: usize) -> Option<usize> {
    match nexts.get(at) {
        Some(Some(next)) => Some(*next),
        _ => None,
    }
}

// Goes from a place to the next one and on, marking what was seen with the number of this walk, and answers a place that the walk
// comes to twice.
fn circle_from(
    nexts: &[Option<usize>],
    seen: &mut [usize],
    from: usize,
    walk: usize,
) -> Option<usize> {
    let mut at = from;
    for _ in 0..nexts.len() {
        if at >= seen.len() {
            return None;
        }
        if seen[at] == walk {
            return Some(at);
        }
        if seen[at] != 0 {
            return None;
        }
        seen[at] = walk;
        match next_in(nexts, at) {
            Some(next) => at = next,
            None => return None,
        }
    }
    if at < seen.len() && seen[at] == walk {
        Some(at)
    } else {
        None
    }
}

fn push_link(
    out: &mut Vec<u8>,
    waiting: &[Waiting],
    at: usize,
    next: usize,
) -> Result<(), NoMemory> {
    match (waiting.get(at), waiting.get(next)) {
        (Some(one), Some(other)) => push(
            out,
            &[
                Piece::Text(" task "),
                Piece::Number(one.task as usize),
                Piece::Text(" waits for task "),
                Piece::Number(other.task as usize),
            ],
        ),
        _ => Ok(()),
    }
}

// The line of the circle that a place is on.
fn push_circle(
    out: &mut Vec<u8>,
    waiting: &[Waiting],
    nexts: &[Option<usize>],
    from: usize,
) -> Result<(), NoMemory> {
    push(out, &[Piece::Text("circle:")])?;
    let mut at = from;
    for _ in 0..nexts.len() {
        let Some(next) = next_in(nexts, at) else {
            break;
        };
        push_link(out, waiting, at, next)?;
        at = next;
        if at == from {
            break;
        }
        push(out, &[Piece::Text(",")])?;
    }
    push(out, &[Piece::Text("\n")])
}

// A line for each circle in which tasks wait for each other.
fn push_circles(
    out: &mut Vec<u8>,
    waiting: &[Waiting],
    nexts: &[Option<usize>],
) -> Result<(), NoMemory> {
    let mut seen = vec![in *out.allocator(); 0usize; waiting.len()]?;
    for at in 0..waiting.len() {
        if let Some(from) = circle_from(nexts, seen.as_mut_slice(), at, at + 1) {
            push_circle(out, waiting, nexts, from)?;
        }
    }
    Ok(())
}

/// How the tasks of a run ended, and who waits: for each its mailbox, how many messages were put there and taken, and who did so last; and the
/// circles in which tasks wait for each other. The bytes are the text of the entries, and a line begins at each of `starts`.
pub fn waits_text(
    alloc: Global,
    bytes: &[u8],
    starts: &[usize],
    entries: &[Entry],
) -> Result<Vec<u8>, NoMemory> {
    let mailboxes = mailboxes_of(alloc, entries)?;
    let mut waiting = waiting_of(alloc, entries)?;
    note_starts(waiting.as_mut_slice(), entries);
    let nexts = nexts_of(alloc, &mailboxes, waiting.as_slice())?;
    let mut out = Vec::new(alloc);
    push_ends(&mut out, entries)?;
    push(
        &mut out,
        &[
            Piece::Text("waiting: "),
            Piece::Number(waiting.len()),
            Piece::Text("\n"),
        ],
    )?;
    for one in &waiting {
        push_waiting(&mut out, &mailboxes, one, name_of(bytes, starts, one.line))?;
    }
    push_circles(&mut out, waiting.as_slice(), nexts.as_slice())?;
    Ok(out)
}
