//! All workers.

ghost use Rattle.std.specs.Prelude.{◌≡◌, ◌<◌, ◌≤◌, ℕ, true, false, List, [], All, IfOk, length, replicate, slice_index_or};
ghost use Rattle.kilim_run_model.specs.State.{Setting};
ghost use Rattle.kilim_run_board.specs.Board.{BoardStands, IsQuiet};
ghost use Rattle.kilim_run_board.specs.Seen.{seen, IsRoomy, MovedWhole};
ghost use Rattle.kilim_run_turn.specs.declared.pass.Pass.{Pass};
ghost use Rattle.kilim_run_turn.specs.Turns.{seat_of, shows, IsPassOf, AreAllOf};
ghost use Rattle.kilim_run_workers.specs.Codes.{board_cells};
ghost use Rattle.kilim_run_workers.specs.Given.{BeginsWith, Continues};
ghost use Rattle.kilim_run_workers.specs.one_worker.Pool.{IsOf};
ghost use Rattle.kilim_run_workers.specs.Runs.{RunsOn};
ghost use Rattle.kilim_run_workers.specs.Workers.{MayRun, MayWork, HasWorked};

use crate::run::{Run, RunBoard};
use crate::worker::run_worker;
use kilim_outside::Gate;
use kilim_program::ClassId;
use kilim_run_board::fibers::Fibers;
use kilim_run_board::{Board, Lent};
use kilim_run_journal::Entry;
use kilim_run_state::Limits;
use kilim_run_turn::{Pass, Turn};
use kilim_units::NoMemory;
use std::alloc::Global;
use std::marker::Brand;
use std::sync::Wait;
use std::thread;
use std::thread::Threads;

// A worker for each pass.
fn work_each<F: Fibers + Send, K: Run + Send, R: Threads + Wait + Sync, G: Gate>(
    rt: &R,
    turn: &Turn<RunBoard<F, K>>,
    passes: &mut [Pass],
    workers: usize,
    code: &F::Code,
    limits: &Limits,
    gate: &G,
)
where
    F::Code: Sync,
    requires workers { 0 < workers }
    requires some { (set : Setting) × K.of set }
    requires run { RunsOn F.serves K.of code.now limits.now }
    requires all { AreAllOf board_cells turn.now passes.old }
    requires free { All (λ p. shows p ≡ []) passes.old }
    ensures each { (i : ℕ) (d : Pass) → i < length passes.old → IsPassOf board_cells turn.now (slice_index_or passes.new i d) }
    ensures order { (i : ℕ) (d : Pass) → i < length passes.old → seat_of (slice_index_or passes.new i d) ≡ i }
    ensures empty { (i : ℕ) (d : Pass) → i < length passes.old → shows (slice_index_or passes.new i d) ≡ [] }
{
    thread::for_each_mut(
        rt,
        passes,
        workers,
        &|_, pass: &mut Pass|
            requires may { MayWork turn.now F.serves K.of code.now limits.now pass.now }
            ensures { HasWorked turn.entry.now pass.entry.now pass.exit.now }
        { run_worker(rt, turn, pass, code, limits, gate) },
    );
}

// Puts the board away, lets all workers work, and takes it out again.
fn run_round<F: Fibers + Send, K: Run + Send, R: Threads + Wait + Sync, G: Gate>(
    rt: &R,
    alloc: Global,
    board: RunBoard<F, K>,
    workers: usize,
    code: &F::Code,
    limits: &Limits,
    gate: &G,
) -> Result<RunBoard<F, K>, NoMemory>
where
    F::Code: Sync,
    requires may { MayRun F.serves K.of code.now limits.now workers board }
    ensures { IfOk result (λ b. board_cells b ≡ replicate workers []) }
{
    match Turn::open(alloc, board, workers) {
        Ok((turn, mut passes)) => {
            work_each(
                rt,
                &turn,
                passes.as_mut_slice(),
                workers,
                code,
                limits,
                gate,
            );
            Ok(turn.close(passes))
        }
        Err(board) => {
            drop(board);
            Err(NoMemory)
        }
    }
}

// Whether no fiber is ready between rounds: the first one that is ready is lent, and given back.
fn is_quiet<F: Fibers, K: Run>(board: &mut RunBoard<F, K>, workers: usize) -> Result<bool, NoMemory>
    requires some { (set : Setting) × K.of set }
    requires workers { 1 ≤ workers }
    requires free { board_cells board.old ≡ replicate workers [] }
    ensures free { board_cells board.new ≡ replicate workers [] }
    ensures quiet { IfOk result (λ quiet. quiet ≡ true → (board.new.stopped ≡ false) × IsQuiet (seen board.new)) }
{
    let _ = workers;
    match board.lend(0) {
        Lent::Fiber(fiber) => {
            board.give_back(0, fiber, None);
            Ok(false)
        }
        Lent::Idle => unreachable!(),
        Lent::Quiet => Ok(true),
        Lent::Stopped => Err(NoMemory),
    }
}

// Rounds, until no fiber is ready: the journal of the run.
fn run_rounds<F: Fibers + Send, K: Run + Send, R: Threads + Wait + Sync, G: Gate>(
    rt: &R,
    alloc: Global,
    board: RunBoard<F, K>,
    workers: usize,
    code: &F::Code,
    limits: &Limits,
    gate: &G,
) -> Result<Vec<Entry>, NoMemory>
where
    F::Code: Sync,
    requires may { MayRun F.serves K.of code.now limits.now workers board }
    ensures whole { (set : Setting) → K.of set → IfOk result (λ es. MovedWhole set es.items) }
    ensures begins { IfOk result (λ es. BeginsWith K.given es.items) }
{
    let mut board = board;
    for _ in rt.forever() {
        let Ok(next) = run_round(rt, alloc, board, workers, code, limits, gate) else {
            return Err(NoMemory);
        };
        board = next;
        match is_quiet(&mut board, workers) {
            Ok(true) => return board.finish(),
            Ok(false) => {}
            Err(fault) => {
                drop(board);
                return Err(fault);
            }
        }
    }
    unreachable!()
}

// A run that `K` names.
fn run_of<F: Fibers + Send, K: Run + Send, R: Threads + Wait + Sync, G: Gate>(
    rt: &R,
    alloc: Global,
    code: &F::Code,
    main: ClassId,
    limits: &Limits,
    workers: usize,
    gate: &G,
) -> Result<Vec<Entry>, NoMemory>
where
    F::Code: Sync,
    requires workers { (1 ≤ workers) × (workers ≤ 16) }
    requires some { (set : Setting) × K.of set }
    requires run { (set : Setting) → K.of set → IsOf F.serves code.now main limits.now set }
    requires none { K.given ≡ [] }
    ensures { (set : Setting) → K.of set → IfOk result (λ es. MovedWhole set es.items) }
{
    let Ok(fiber) = F::boot(alloc, code, main) else {
        return Err(NoMemory);
    };
    let Ok(board) = RunBoard::<F, K>::new(alloc, fiber, workers) else {
        return Err(NoMemory);
    };
    run_rounds(rt, alloc, board, workers, code, limits, gate)
}

/// Runs a program with so many workers. It may wait.
pub fn run_pool<F: Fibers + Send, R: Threads + Wait + Sync, G: Gate>(
    rt: &R,
    alloc: Global,
    code: &F::Code,
    main: ClassId,
    limits: &Limits,
    workers: usize,
    gate: &G,
) -> Result<Vec<Entry>, NoMemory>
where
    F::Code: Sync,
    requires workers { (1 ≤ workers) × (workers ≤ 16) }
    requires some { (set : Setting) × IsOf F.serves code.now main limits.now set }
    ensures { (set : Setting) → IsOf F.serves code.now main limits.now set → IfOk result (λ es. MovedWhole set es.items) }
{
    run_of::<F, Brand, R, G>(rt, alloc, code, main, limits, workers, gate)
}

// A run that `K` names, from a board of it on.
fn go_on_of<F: Fibers + Send, K: Run + Send, R: Threads + Wait + Sync, G: Gate>(
    rt: &R,
    alloc: Global,
    code: &F::Code,
    main: ClassId,
    limits: &Limits,
    board: Board<F>,
    workers: usize,
    gate: &G,
) -> Result<Vec<Entry>, NoMemory>
where
    F::Code: Sync,
    requires workers { (1 ≤ workers) × (workers ≤ 16) }
    requires some { (set : Setting) × K.of set }
    requires run { (set : Setting) → K.of set → IsOf F.serves code.now main limits.now set }
    requires roomy { IsRoomy board }
    requires stands { (set : Setting) → K.of set → BoardStands F.task_of F.course_of F.holds set (seen board) }
    requires continues { Continues K.given (seen board) }
    requires free { board_cells board ≡ replicate workers [] }
    ensures whole { (set : Setting) → K.of set → IfOk result (λ es. MovedWhole set es.items) }
    ensures begins { IfOk result (λ es. BeginsWith K.given es.items) }
{
    let _ = main;
    let board = RunBoard::<F, K>::of_board(board);
    run_rounds(rt, alloc, board, workers, code, limits, gate)
}

/// Runs a board on with so many workers, until its run is over: the journal of a whole run that begins with the board's. It may wait.
pub fn go_on<F: Fibers + Send, R: Threads + Wait + Sync, G: Gate>(
    rt: &R,
    alloc: Global,
    code: &F::Code,
    main: ClassId,
    limits: &Limits,
    board: Board<F>,
    workers: usize,
    gate: &G,
) -> Result<Vec<Entry>, NoMemory>
where
    F::Code: Sync,
    requires workers { (1 ≤ workers) × (workers ≤ 16) }
    requires some { (set : Setting) × IsOf F.serves code.now main limits.now set }
    requires roomy { IsRoomy board }
    requires stands { (set : Setting) → IsOf F.serves code.now main limits.now set → BoardStands F.task_of F.course_of F.holds set (seen board) }
    requires free { board_cells board ≡ replicate workers [] }
    ensures whole { (set : Setting) → IsOf F.serves code.now main limits.now set → IfOk result (λ es. MovedWhole set es.items) }
    ensures begins { IfOk result (λ es. BeginsWith board.journal.items es.items) }
{
    go_on_of::<F, Brand, R, G>(rt, alloc, code, main, limits, board, workers, gate)
}
