//! All turns of a run.

ghost use Rattle.std.specs.Prelude.{◌≡◌, ◌<◌, ◌≤◌, ◌+◌, length};
ghost use Rattle.kilim_mail_ledger.specs.Mailboxes.{turn_of};

use kilim_mail_group::Group;
use kilim_mail_ready::Ready;
use kilim_mail_register::Register;
use kilim_program::BoxName;
use kilim_run_board::fibers::Fibers;
use kilim_run_turn::Turn;
use kilim_run_workers::Run;

/// The mailbox turns by their numbers, the register's turn and the ready turn.
pub struct Turns<F: Fibers, K: Run> {
    /// The mailbox turns.
    pub groups: Vec<Turn<Group<F, K>>>,
    /// The register's.
    pub register: Turn<Register>,
    /// The ready turn.
    pub ready: Turn<Ready<F, K>>,
}

// The turn of a mailbox, of so many.
fn group_of(name: BoxName, turns: usize) -> usize
    requires { 0 < turns }
    ensures is { result ≡ turn_of turns name }
    ensures there { result < turns }
{
    ((name.task as u64 + name.number as u64) % turns as u64) as usize
}

/// The place of a mailbox's turn among all turns.
pub fn group_place<F: Fibers, K: Run>(turns: &Turns<F, K>, name: BoxName) -> usize
    requires { 0 < length turns.now.groups.items }
    ensures is { result ≡ turn_of (length turns.now.groups.items) name }
    ensures there { result < length turns.now.groups.items }
{
    group_of(name, turns.groups.len())
}

/// The place of the register's turn.
pub fn register_place<F: Fibers, K: Run>(turns: &Turns<F, K>) -> usize
    ensures { result ≡ length turns.now.groups.items }
{
    turns.groups.len()
}

/// The place of the ready turn.
pub fn ready_place<F: Fibers, K: Run>(turns: &Turns<F, K>) -> usize
    requires { length turns.now.groups.items ≤ 64 }
    ensures { result ≡ length turns.now.groups.items + 1 }
{
    turns.groups.len() + 1
}
