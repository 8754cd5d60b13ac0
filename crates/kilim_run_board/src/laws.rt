//! A law about the journals of runs whose messages are moved.

ghost use Rattle.kilim_run_board.specs.Laws.{MailboxesAreThreads};

/// A law, and no work: in a journal that can be replayed with messages that move, each mailbox is one thread of messages, and of no more than
/// its bound says where it has one. Mailboxes that get a bound have to be new.
pub fn mailboxes_are_threads()
    ensures { MailboxesAreThreads }
{}
