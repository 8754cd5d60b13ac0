//! The passes of each turn are dealt out, one to each worker, and taken back.

ghost use Rattle.std.specs.Prelude.{◌≡◌, ◌<◌, ℕ, List, [], ◌∷◌, ◌++◌, OnOk, IfOk, length, map, slice_index_or};
ghost use Rattle.kilim_run_turn.specs.Turns.{AreAllAt};
ghost use Rattle.kilim_mail_crew.specs.declared.crew.Worker.{Worker};
ghost use Rattle.kilim_mail_crew.specs.Crew.{Table, AreDealt, Collecting, AllComeBack, own_of};

use kilim_run_turn::Pass;
use kilim_units::NoMemory;
use std::alloc::Global;

/// A worker: a pass of each turn, in the order of the turns, and what is its own.
#[derive(Drop)]
pub struct Worker<L> {
    /// Its passes.
    pub passes: Vec<Pass>,
    /// What is its own.
    pub own: L,
}

// One pass more for a worker.
fn hand<L: Drop>(worker: &mut Worker<L>, pass: Pass) -> Result<(), NoMemory>
    ensures passes { OnOk result (worker.new.passes.items ≡ worker.old.passes.items ++ pass ∷ []) }
    ensures own { worker.new.own ≡ worker.old.own }
{
    let Ok(()) = worker.passes.reserve(1) else {
        drop(pass);
        return Err(NoMemory);
    };
    worker.passes.push_reserved(pass);
    Ok(())
}

/// Deals out the passes of one turn more, one to each worker. The error is want of memory.
pub fn deal<L: Drop>(workers: &mut Vec<Worker<L>>, passes: Vec<Pass>) -> Result<(), NoMemory>
    requires size { length workers.old.items ≡ length passes.items }
    ensures size { length workers.new.items ≡ length workers.old.items }
    ensures own { OnOk result (map own_of workers.new.items ≡ map own_of workers.old.items) }
    ensures dealt { (turns : List Table) (turn : Table) → AreDealt turns workers.old.items → AreAllAt turn.table turn.seats passes.items → OnOk result (AreDealt (turns ++ turn ∷ []) workers.new.items) }
{
    let mut passes = passes;
    while let Some(pass) = passes.pop() {
        let Ok(()) = hand(&mut workers[passes.len()], pass) else {
            return Err(NoMemory);
        };
    }
    Ok(())
}

// The last pass of a worker.
fn last_pass<L: Drop>(worker: &mut Worker<L>) -> Pass
    requires { 0 < length worker.old.passes.items }
    ensures pass { worker.old.passes.items ≡ worker.new.passes.items ++ result ∷ [] }
    ensures own { worker.new.own ≡ worker.old.own }
{
    worker.passes.pop().unwrap()
}

/// Takes back the passes of the last turn, one of each worker. The error is want of memory.
pub fn collect<L: Drop>(alloc: Global, workers: &mut Vec<Worker<L>>) -> Result<Vec<Pass>, NoMemory>
    requires some { (s : ℕ) (d : Worker L) → s < length workers.old.items → 0 < length (slice_index_or workers.old.items s d).passes.items }
    ensures taken { IfOk result (λ ps. Collecting workers.old.items workers.new.items ps.items (length workers.old.items)) }
    ensures back { IfOk result (λ ps. AllComeBack workers.old.items workers.new.items ps.items) }
{
    let many = workers.len();
    let Ok(mut passes) = Vec::with_capacity(alloc, many) else {
        return Err(NoMemory);
    };
    for s in 0..many {
        let pass = last_pass(&mut workers[s]);
        passes.push_reserved(pass);
    }
    Ok(passes)
}
