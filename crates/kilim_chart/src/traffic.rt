//! What went through the mailboxes of a run, how its tasks ended, and who waits.

use kilim_program::BoxName;
use kilim_run_journal::{Act, Entry};
use kilim_run_state::EndCause;
use kilim_units::NoMemory;
use std::alloc::Global;
use std::collections::BTreeMap;

/// What went through a mailbox.
#[derive(Clone, Copy)]
pub struct Traffic {
    pub puts: usize,
    pub takes: usize,
    /// The task that put last.
    pub putter: Option<u32>,
    /// The task that took last.
    pub taker: Option<u32>,
    /// How many messages it may hold, if it has a bound.
    pub most: Option<u32>,
}

const NO_TRAFFIC: Traffic = Traffic {
    puts: 0,
    takes: 0,
    putter: None,
    taker: None,
    most: None,
};

/// The traffic of the mailboxes that a run names, by the task and the number of their names.
pub type Mailboxes = BTreeMap<(u32, u32), Traffic>;

/// The traffic of a mailbox.
pub fn traffic_of(mailboxes: &Mailboxes, name: BoxName) -> Traffic {
    match mailboxes.get(&(name.task, name.number)) {
        Some(traffic) => *traffic,
        None => NO_TRAFFIC,
    }
}

fn behind_put(traffic: Traffic, task: u32) -> Traffic {
    Traffic {
        puts: traffic.puts.saturating_add(1),
        putter: Some(task),
        takes: traffic.takes,
        taker: traffic.taker,
        most: traffic.most,
    }
}

fn behind_take(traffic: Traffic, task: u32) -> Traffic {
    Traffic {
        takes: traffic.takes.saturating_add(1),
        taker: Some(task),
        puts: traffic.puts,
        putter: traffic.putter,
        most: traffic.most,
    }
}

fn behind_bound(traffic: Traffic, most: u32) -> Traffic {
    Traffic {
        takes: traffic.takes,
        taker: traffic.taker,
        puts: traffic.puts,
        putter: traffic.putter,
        most: Some(most),
    }
}

/// Whether a mailbox holds as many messages as it may: who waits there waits for room.
pub fn is_full(traffic: Traffic) -> bool {
    match traffic.most {
        Some(most) => traffic.takes.saturating_add(most as usize) <= traffic.puts,
        None => false,
    }
}

fn note(mailboxes: &mut Mailboxes, name: BoxName, traffic: Traffic) -> Result<(), NoMemory> {
    match mailboxes.insert((name.task, name.number), traffic) {
        Ok(_) => Ok(()),
        Err(_) => Err(NoMemory),
    }
}

/// What went through each mailbox.
pub fn mailboxes_of(alloc: Global, entries: &[Entry]) -> Result<Mailboxes, NoMemory> {
    let mut mailboxes = BTreeMap::new(alloc);
    for entry in entries {
        let noted = match &entry.act {
            Act::Put(name, _, _) => {
                let traffic = behind_put(traffic_of(&mailboxes, *name), entry.task);
                note(&mut mailboxes, *name, traffic)
            }
            Act::Take(name, _) => {
                let traffic = behind_take(traffic_of(&mailboxes, *name), entry.task);
                note(&mut mailboxes, *name, traffic)
            }
            Act::Bound(name, most) => {
                let traffic = behind_bound(traffic_of(&mailboxes, *name), *most);
                note(&mut mailboxes, *name, traffic)
            }
            _ => Ok(()),
        };
        let Ok(()) = noted else {
            return Err(NoMemory);
        };
    }
    Ok(mailboxes)
}

/// A task that waits, and its mailbox.
#[derive(Clone, Copy)]
pub struct Waiting {
    pub task: u32,
    pub mailbox: BoxName,
    /// The line in which the task is started, from 1 on; 0 where there is none.
    pub line: usize,
}

/// The tasks that wait, in the order of the journal, which is that of their numbers.
pub fn waiting_of(alloc: Global, entries: &[Entry]) -> Result<Vec<Waiting>, NoMemory> {
    let mut waiting = Vec::new(alloc);
    for entry in entries {
        if let Act::Wait(mailbox) = &entry.act {
            let one = Waiting {
                task: entry.task,
                mailbox: *mailbox,
                line: 0,
            };
            let Ok(()) = waiting.push(one) else {
                return Err(NoMemory);
            };
        }
    }
    let Ok(()) = waiting.sort_by_key(|one| one.task) else {
        return Err(NoMemory);
    };
    Ok(waiting)
}

/// The place of a waiting task, if it waits.
pub fn place_of(waiting: &[Waiting], task: u32) -> Option<usize> {
    match waiting.binary_search_by_key(&task, |one| one.task) {
        Ok(at) => Some(at),
        Err(_) => None,
    }
}

/// Notes where the waiting tasks are started.
pub fn note_starts(waiting: &mut [Waiting], entries: &[Entry]) {
    for (i, entry) in entries.iter().enumerate() {
        if let Act::Start(task, _) = &entry.act {
            if let Some(at) = place_of(waiting, *task) {
                if at < waiting.len() {
                    waiting[at].line = i + 1;
                }
            }
        }
    }
}

/// How many tasks ended with a cause.
pub fn ended(entries: &[Entry], cause: EndCause) -> usize {
    let mut count = 0usize;
    for entry in entries {
        if let Act::End(one) = &entry.act {
            if one.word().as_bytes() == cause.word().as_bytes() {
                count = count.saturating_add(1);
            }
        }
    }
    count
}

/// Whom a waiting task waits for, as far as the journal tells: who took last from its mailbox, or, where it did that itself or nobody
/// did, who put last into it. Where it waits for room, nobody but who took last makes any.
pub fn awaited(mailboxes: &Mailboxes, one: &Waiting) -> Option<u32> {
    let traffic = traffic_of(mailboxes, one.mailbox);
    match traffic.taker {
        Some(taker) if taker != one.task => Some(taker),
        _ if is_full(traffic) => None,
        _ => match traffic.putter {
            Some(putter) if putter != one.task => Some(putter),
            _ => None,
        },
    }
}
