//! What lies under a mailbox turn, and what is asked of it.

use kilim_mail_notes::Ledger;
use kilim_mail_posts::Posts;
use kilim_mail_ready::Body;
use kilim_mail_stamps::Stamped;
use kilim_run_board::Parked;
use kilim_run_state::Shape;
use kilim_run_trees::Tree;
use std::alloc::Global;

/// What a task asks of a mailbox.
#[derive(Drop)]
pub enum Ask {
    /// To put a message. Where the mailbox is full it ends.
    Put(Tree, Shape),
    /// To put a message, for which it waits where the mailbox is full.
    PutWait(Tree, Shape),
    /// To take a message, for which it waits where there is none.
    Take,
    /// To take a message, where there is one.
    Probe,
    /// To bound it.
    Bound(u32),
}

/// A task that waits at a mailbox. It asked, and isn't answered: its fiber keeps its frames.
#[derive(Drop)]
pub struct Sleeper<F> {
    /// The task.
    pub body: Body<F>,
    /// Where it waits to put: its message.
    pub message: Option<(Tree, Shape)>,
}

/// The mailboxes of one turn.
#[derive(Drop)]
pub struct Boxes<F> {
    /// The number of the turn.
    pub number: usize,
    /// How many such turns there are.
    pub turns: usize,
    /// What each seat did here.
    pub ledger: Ledger,
    /// The entries of these mailboxes.
    pub log: Vec<Stamped>,
    /// The mailboxes.
    pub posts: Posts,
    /// The tasks that wait.
    pub parked: Parked<Sleeper<F>>,
    /// How many they are.
    pub many: usize,
    /// Whether memory was wanting in the midst of an act. Nothing is known then.
    pub failed: bool,
}

/// What came of an act on a mailbox.
#[derive(Drop)]
pub enum Came<F> {
    /// The task goes on, with its answer, and so do those that it woke, each with its own.
    Goes(Body<F>, Vec<Body<F>>),
    /// The task has ended.
    Over(Body<F>),
    /// The task waits.
    Waits,
}
