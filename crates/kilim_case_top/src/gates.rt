//! Gates by which a case sees, or holds, what runs.

use kilim_outside::Gate;
use std::sync::atomic::{AtomicBool, AtomicUsize, Ordering};

/// A gate that keeps the greatest number of records that it was told, from 0.
#[derive(Drop)]
pub struct NoteGate {
    deepest: AtomicUsize,
}

impl NoteGate {
    /// A gate that was told nothing yet.
    pub fn new() -> Self {
        NoteGate {
            deepest: AtomicUsize::new(0),
        }
    }

    /// The greatest number of records that it was told.
    pub fn deepest(&self) -> usize {
        self.deepest.load(Ordering::SeqCst)
    }
}

impl Gate for NoteGate {
    // The number only grows, so each try that fails finds it greater by 1 at least, and so many tries are enough.
    fn pass(&self, _task: u32, records: usize) {
        for _ in 0..records {
            let now = self.deepest.load(Ordering::SeqCst);
            if now >= records {
                return;
            }
            let tried = self
                .deepest
                .compare_exchange(now, records, Ordering::SeqCst, Ordering::SeqCst);
            if tried.is_ok() {
                return;
            }
        }
    }
}

/// How often a held task looks for a second one.
const MOST_LOADS: u32 = 1_000_000_000;

/// A gate that shows that two fibers run at once. It lets task 0 pass, and holds the first other task that passes until
/// a second one has passed. Where none does in a long while it lets it go, and notes that it missed one.
#[derive(Drop)]
pub struct HoldGate {
    /// How many others than task 0 have passed.
    others: AtomicUsize,
    missed: AtomicBool,
}

impl HoldGate {
    /// A gate that nobody passed yet.
    pub fn new() -> Self {
        HoldGate {
            others: AtomicUsize::new(0),
            missed: AtomicBool::new(false),
        }
    }

    /// Whether a task was held in vain.
    pub fn missed(&self) -> bool {
        self.missed.load(Ordering::SeqCst)
    }
}

impl Gate for HoldGate {
    fn pass(&self, task: u32, _records: usize) {
        if task == 0 || self.others.fetch_add(1, Ordering::SeqCst) > 0 {
            return;
        }
        for _ in 0..MOST_LOADS {
            if self.others.load(Ordering::SeqCst) > 1 {
                return;
            }
        }
        self.missed.store(true, Ordering::SeqCst);
    }
}
