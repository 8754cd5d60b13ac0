//! A gate that tells how far a run is.

use kilim_outside::Gate;
use std::rt::Clock;
use std::sync::atomic::{AtomicU64, Ordering};
use std::time::Instant;

/// After how many milliseconds the first line is written, and how many are between two lines.
const FIRST: u64 = 1000;

const BETWEEN: u64 = 250;

/// How many turns pass between two looks at the clock.
const LOOKS: u64 = 16;

//// What all workers count together.
#[derive(Drop)]
pub struct Counts {
    turns: AtomicU64,
    // one more than the greatest number of a task that was seen
    tasks: AtomicU64,
    // the milliseconds since the beginning at which the next line may be written
    next: AtomicU64,
}

/// A gate that writes a line on standard error, in place of the one before, where a run takes longer than a second.
#[derive(Drop)]
pub struct AliveGate<'a, R: Clock + Eprint + Sync> {
    pub(crate) rt: &'a R,
    // when the run began; none where no line is to be written
    begun: Option<Instant>,
    pub(crate) counts: Counts,
}

// How many milliseconds the run has taken.
fn millis(rt: &impl Clock, begun: &Instant) -> Option<u64> {
    match begun.elapsed(rt) {
        Ok(time) => Some(
            time.as_secs()
                .saturating_mul(1000)
                .saturating_add(u64::from(time.subsec_millis())),
        ),
        Err(_) => None,
    }
}

// When a run begins of which lines are to be written.
fn beginning(rt: &impl Clock, is_terminal: bool) -> Option<Instant> {
    if !is_terminal {
        return None;
    }
    match Instant::now(rt) {
        Ok(now) => Some(now),
        Err(_) => None,
    }
}

// Notes how many tasks there are at least. Two workers may come at once: then it may be told a moment later.
fn see(counts: &Counts, tasks: u64) {
    if counts.tasks.load(Ordering::SeqCst) < tasks {
        counts.tasks.store(tasks, Ordering::SeqCst);
    }
}

// Writes the line where it is time to. One worker of those that come at once writes it.
fn tell(rt: &(impl Clock + Eprint), counts: &Counts, begun: &Instant, turns: u64) {
    let Some(now) = millis(rt, begun) else {
        return;
    };
    let next = counts.next.load(Ordering::SeqCst);
    if now < next {
        return;
    }
    let later = now.saturating_add(BETWEEN);
    let first = counts
        .next
        .compare_exchange(next, later, Ordering::SeqCst, Ordering::SeqCst);
    if first.is_ok() {
        let tasks = counts.tasks.load(Ordering::SeqCst);
        let _ = eprint!(rt; "\r{turns} turns, {tasks} tasks ");
    }
}

// A task passes.
fn count(rt: &(impl Clock + Eprint), counts: &Counts, begun: &Instant, task: u32) {
    let turns = counts.turns.fetch_add(1, Ordering::SeqCst);
    see(counts, u64::from(task) + 1);
    if turns % LOOKS == 0 {
        tell(rt, counts, begun, turns);
    }
}

/// Takes the line away, where there is one, and writes none any more.
pub(crate) fn clear(rt: &impl Eprint, counts: &Counts) {
    let next = counts.next.swap(u64::MAX, Ordering::SeqCst);
    if FIRST < next && next < u64::MAX {
        let _ = eprint!(rt; "\r\x1b[K");
    }
}

impl<'a, R: Clock + Eprint + Sync> AliveGate<'a, R> {
    /// A gate for a run that begins now. Where standard error is no terminal it does nothing.
    pub fn new(rt: &'a R, is_terminal: bool) -> Self {
        AliveGate {
            rt,
            begun: beginning(rt, is_terminal),
            counts: Counts {
                turns: AtomicU64::new(0),
                tasks: AtomicU64::new(0),
                next: AtomicU64::new(FIRST),
            },
        }
    }

    /// Takes the line away, where there is one, and writes none any more.
    pub fn done(&self) {
        clear(self.rt, &self.counts);
    }
}

impl<R: Clock + Eprint + Sync> Gate for AliveGate<'_, R> {
    fn pass(&self, task: u32, _records: usize) {
        if let Some(begun) = &self.begun {
            count(self.rt, &self.counts, begun, task);
        }
    }
}
