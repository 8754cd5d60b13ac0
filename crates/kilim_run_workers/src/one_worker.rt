//! The runner: one worker takes every turn, until no fiber is ready.

ghost use Rattle.std.specs.Prelude.{◌≡◌, ◌<◌, ◌≤◌, ◌∷◌, [], ℕ, Bool, true, false, Option, Some, None, OnOk, IfOk, List, length, ◌⊎◌};
ghost use Rattle.kilim_run_model.specs.State.{Setting};
ghost use Rattle.kilim_run_board.specs.Seen.{MovedWhole, seen};
ghost use Rattle.kilim_run_journal.specs.declared.entry.Entry.{Entry as Event};
ghost use Rattle.kilim_run_model.specs.Moving.{Moving, MovedAtRest, MovedReplay};
ghost use Rattle.kilim_run_workers.specs.Given.{BeginsWith, EndsInOne, Grew, MadeBy, RestsWaiting};
ghost use Rattle.kilim_run_workers.specs.one_worker.Pool.{IsOf, IsLending, IsResting, NextIs, IsCalm, WaitsAt, Falls, todo, left};

use kilim_outside::Gate;
use kilim_program::ClassId;
use kilim_run_board::fibers::{Fibers, Wants};
use kilim_run_board::{Acted, Board, Lent};
use kilim_run_journal::Entry;
use kilim_run_model::Waits;
use kilim_run_state::Limits;
use kilim_units::NoMemory;
use std::alloc::Global;

/// What a lent fiber comes to.
#[derive(Drop)]
pub enum Next {
    /// It was answered, and goes on.
    On,
    /// Its task has ended.
    Over,
    /// It rests: where it waits at a mailbox, or since it yielded.
    Rests(Option<Waits>),
}

/// Runs a lent fiber up to the next thing that it wants, and does that. The error is want of memory.
pub fn advance<F: Fibers>(
    board: &mut Board<F>,
    fiber: &mut F,
    code: &F::Code,
    limits: &Limits,
    main: ClassId,
) -> Result<Next, NoMemory>
    requires some { (set : Setting) × IsOf F.serves code.now main limits.now set }
    requires lending { IsLending F.task_of F.course_of F.holds (IsOf F.serves code.now main limits.now) board.old fiber.old }
    requires calm { IsCalm F.refused (seen board.old) }
    requires waits { WaitsAt F.refused board.old fiber.old }
    ensures next { IfOk result (λ next. NextIs F.task_of F.course_of F.holds (IsOf F.serves code.now main limits.now) board.new fiber.new next) }
    ensures falls { IfOk result (λ next. Falls F.count_of F.refused limits.now.steps (todo F.count_of F.refused limits.now.steps board.old fiber.old) board.new fiber.new next) }
    ensures task { OnOk result (F.task_of fiber.new ≡ F.task_of fiber.old) }
    ensures made { IfOk result (MadeBy (F.task_of fiber.old) board.old.journal.items board.new.journal.items (F.refused fiber.new)) }
    ensures waiting { IfOk result (RestsWaiting board.new) }
    ensures alone { OnOk result (board.old.parked.items ≡ [] → board.new.parked.items ≡ []) }
{
    let Ok(wants) = fiber.resume(code, limits) else {
        return Err(NoMemory);
    };
    match wants {
        Wants::Rest(waits) => Ok(Next::Rests(waits)),
        Wants::End(cause) => {
            let wants = Wants::End(cause);
            let Ok(()) = board.reserve(&wants) else {
                drop(wants);
                return Err(NoMemory);
            };
            board.act(0, wants);
            Ok(Next::Over)
        }
        wants => {
            let Ok(()) = board.reserve(&wants) else {
                drop(wants);
                return Err(NoMemory);
            };
            match board.act(0, wants) {
                Acted::Answer(answer) => match fiber.answer(code, answer) {
                    Ok(()) => Ok(Next::On),
                    Err(fault) => Err(fault),
                },
                Acted::OutOfTasks => Ok(Next::Over),
                Acted::OutOfRoom => Ok(Next::Over),
            }
        }
    }
}

/// Runs a lent fiber until it rests or ends. The error is want of memory.
pub fn run_fiber<F: Fibers>(
    board: &mut Board<F>,
    fiber: F,
    code: &F::Code,
    limits: &Limits,
    main: ClassId,
) -> Result<(), NoMemory>
    requires some { (set : Setting) × IsOf F.serves code.now main limits.now set }
    requires lending { IsLending F.task_of F.course_of F.holds (IsOf F.serves code.now main limits.now) board.old fiber }
    requires calm { IsCalm F.refused (seen board.old) }
    requires waits { WaitsAt F.refused board.old fiber }
    ensures rest { OnOk result (IsResting F.task_of F.course_of F.holds (IsOf F.serves code.now main limits.now) board.new) }
    ensures falls { OnOk result (IsCalm F.refused (seen board.new) × (left F.count_of limits.now.steps (seen board.new) ≤ todo F.count_of F.refused limits.now.steps board.old fiber)) }
    ensures grows { OnOk result (Grew (F.task_of fiber) board.old.journal.items board.new.journal.items) }
{
    let mut fiber = fiber;
    loop {
        let Ok(next) = advance(board, &mut fiber, code, limits, main) else {
            return Err(NoMemory);
        };
        match next {
            Next::On => {}
            Next::Over => return Ok(()),
            Next::Rests(waits) => {
                board.give_back(0, fiber, waits);
                return Ok(());
            }
        }
    }
}

/// Runs a board with one seat on until no fiber is ready: the journal of a whole run of moved messages, which begins with the
/// board's. It takes no turn, waits for nobody and returns. Before each fiber that it runs it passes the gate, which changes
/// nothing.
///
/// The error is want of memory alone.
pub fn go_on_one<F: Fibers, G: Gate>(
    code: &F::Code,
    main: ClassId,
    limits: &Limits,
    board: Board<F>,
    gate: &G,
) -> Result<Vec<Entry>, NoMemory>
    requires some { (set : Setting) × IsOf F.serves code.now main limits.now set }
    requires resting { IsResting F.task_of F.course_of F.holds (IsOf F.serves code.now main limits.now) board }
    requires calm { IsCalm F.refused (seen board) }
    ensures whole { (set : Setting) → IsOf F.serves code.now main limits.now set → IfOk result (λ es. MovedWhole set es.items) }
    ensures begins { IfOk result (λ es. BeginsWith board.journal.items es.items) }
{
    let mut board = board;
    loop {
        match board.lend(0) {
            Lent::Fiber(fiber) => {
                gate.pass(fiber.task(), fiber.records());
                match run_fiber(&mut board, fiber, code, limits, main) {
                    Ok(()) => {}
                    Err(fault) => {
                        drop(board);
                        return Err(fault);
                    }
                }
            }
            _ => return board.finish(),
        }
    }
}

// The journal as it is.
fn into_entries<F: Fibers>(board: Board<F>) -> Vec<Entry>
    ensures { result.items ≡ board.journal.items }
{
    let Board {
        journal,
        tasks: _,
        ready,
        parked,
        mailboxes,
        cells,
        stopped: _,
    } = board;
    drop(ready);
    drop(parked);
    drop(mailboxes);
    drop(cells);
    journal
}

/// Runs a program with one worker until no fiber is lent and the journal has so many entries, or until no fiber is ready: the
/// journal as it is then.
pub fn run_some<F: Fibers, G: Gate>(
    alloc: Global,
    code: &F::Code,
    main: ClassId,
    limits: &Limits,
    entries: u64,
    gate: &G,
) -> Result<Vec<Entry>, NoMemory>
    requires some { (set : Setting) × IsOf F.serves code.now main limits.now set }
    ensures moved { (set : Setting) → IsOf F.serves code.now main limits.now set → IfOk result (λ es. (v : Moving) × MovedReplay set es.items v × (entries ≤ length es.items ⊎ (waits : List Event) × MovedAtRest set v waits)) }
    ensures last { IfOk result (λ es. (es.items ≡ []) ⊎ EndsInOne entries es.items) }
{
    let Ok(fiber) = F::boot(alloc, code, main) else {
        return Err(NoMemory);
    };
    let mut board = match Board::new(alloc, fiber, 1) {
        Ok(board) => board,
        Err(_) => return Err(NoMemory),
    };
    loop {
        if board.journal.len() as u64 >= entries {
            return Ok(into_entries(board));
        }
        match board.lend(0) {
            Lent::Fiber(fiber) => {
                gate.pass(fiber.task(), fiber.records());
                match run_fiber(&mut board, fiber, code, limits, main) {
                    Ok(()) => {}
                    Err(fault) => {
                        drop(board);
                        return Err(fault);
                    }
                }
            }
            _ => return Ok(into_entries(board)),
        }
    }
}

/// Runs a program to rest with one worker: the entries of a whole run of moved messages, and who waits at its end. It takes
/// no turn, waits for nobody and returns. Before each fiber that it runs it passes the gate, which changes nothing.
///
/// The error is want of memory alone.
pub fn run_one<F: Fibers, G: Gate>(
    alloc: Global,
    code: &F::Code,
    main: ClassId,
    limits: &Limits,
    gate: &G,
) -> Result<Vec<Entry>, NoMemory>
    requires { (set : Setting) × IsOf F.serves code.now main limits.now set }
    ensures { (set : Setting) → IsOf F.serves code.now main limits.now set → IfOk result (λ es. MovedWhole set es.items) }
{
    let Ok(fiber) = F::boot(alloc, code, main) else {
        return Err(NoMemory);
    };
    let board = match Board::new(alloc, fiber, 1) {
        Ok(board) => board,
        Err(_) => return Err(NoMemory),
    };
    go_on_one(code, main, limits, board, gate)
}
