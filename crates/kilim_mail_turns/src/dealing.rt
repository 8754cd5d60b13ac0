//! The passes of opened turns are dealt out, and taken back, without memory.

ghost use Rattle.std.specs.Prelude.{◌≡◌, ◌<◌, ◌≤◌, [], ◌∷◌, ◌++◌, length, map};
ghost use Rattle.std.specs.Vec.{vec_capacity};
ghost use Rattle.kilim_mail_crew.specs.Crew.{Collecting, AllComeBack, own_of};
ghost use Rattle.kilim_mail_turns.specs.Rooms.{room_of, HavePasses, HaveRoom, OneMoreDealt};

use kilim_mail_crew::Worker;
use kilim_run_turn::Pass;

// The last pass of a worker.
fn last_pass<L: Drop>(worker: &mut Worker<L>) -> Pass
    requires { 0 < length worker.old.passes.items }
    ensures pass { worker.old.passes.items ≡ worker.new.passes.items ++ result ∷ [] }
    ensures own { worker.new.own ≡ worker.old.own }
{
    worker.passes.pop().unwrap()
}

/// Takes back the passes of the last turn, one of each worker, into a vector that has room for them. Takes no memory.
pub fn collect_into<L: Drop>(workers: &mut Vec<Worker<L>>, passes: &mut Vec<Pass>)
    requires some { HavePasses workers.old.items }
    requires none { passes.old.items ≡ [] }
    requires room { length workers.old.items ≤ vec_capacity passes.old }
    ensures taken { Collecting workers.old.items workers.new.items passes.new.items (length workers.old.items) }
    ensures back { AllComeBack workers.old.items workers.new.items passes.new.items }
    ensures room { vec_capacity passes.new ≡ vec_capacity passes.old }
{
    let many = workers.len();
    for s in 0..many {
        let pass = last_pass(&mut workers[s]);
        passes.push_reserved(pass);
    }
}

// One pass more for a worker, who has room for it.
fn hand<L: Drop>(worker: &mut Worker<L>, pass: Pass)
    requires { length worker.old.passes.items < room_of worker.old }
    ensures passes { worker.new.passes.items ≡ worker.old.passes.items ++ pass ∷ [] }
    ensures own { worker.new.own ≡ worker.old.own }
    ensures room { room_of worker.new ≡ room_of worker.old }
{
    worker.passes.push_reserved(pass);
}

/// Deals out the passes of one turn more, one to each worker, who has room for it. Takes no memory, and leaves the emptied vector as large
/// as it was.
pub fn deal_from<L: Drop>(workers: &mut Vec<Worker<L>>, passes: &mut Vec<Pass>)
    requires size { length workers.old.items ≡ length passes.old.items }
    requires room { HaveRoom workers.old.items }
    ensures size { length workers.new.items ≡ length workers.old.items }
    ensures own { map own_of workers.new.items ≡ map own_of workers.old.items }
    ensures rooms { map room_of workers.new.items ≡ map room_of workers.old.items }
    ensures dealt { OneMoreDealt workers.old.items passes.old.items workers.new.items }
    ensures none { passes.new.items ≡ [] }
    ensures room { vec_capacity passes.new ≡ vec_capacity passes.old }
{
    while let Some(pass) = passes.pop() {
        hand(&mut workers[passes.len()], pass);
    }
}
