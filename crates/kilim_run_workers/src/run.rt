//! The board of one run.

ghost use Rattle.std.specs.Prelude.{◌≡◌, ◌<◌, ◌≤◌, ◌∷◌, [], ℕ, Bool, true, false, Option, Some, None, OnOk, OnErr, IfOk, List, length, map, replicate, slice_get};
ghost use Rattle.kilim_run_model.specs.State.{Setting};
ghost use Rattle.kilim_run_model.specs.Course.{Course};
ghost use Rattle.kilim_run_model.specs.declared.deed.Beginning.TheVariants.{Boot};
ghost use Rattle.kilim_run_board.specs.fibers.Fibers.{StartsAtNone};
ghost use Rattle.kilim_run_board.specs.Seen.{seen, IsRoomy, LendAnswers, LentStands, wish_in, MovedWhole};
ghost use Rattle.kilim_run_board.specs.Board.{BoardStands, IsQuiet};
ghost use Rattle.kilim_run_journal.specs.declared.entry.Entry.{Entry as AnEntry};
ghost use Rattle.kilim_run_turn.specs.Views.{cell_at};
ghost use Rattle.kilim_run_turn.specs.Turns.{KeepsOthers};
ghost use Rattle.kilim_run_workers.specs.Codes.{board_cells, lent_numbers};
ghost use Rattle.kilim_run_workers.specs.Given.{BeginsWith, Continues};
ghost use Rattle.kilim_run_workers.specs.Runs.{fiber_numbers, AllStand, AllRest, AllMeet, IsTaken, ActedAs};

use kilim_run_board::fibers::{Fibers, Wants};
use kilim_run_board::{Acted, Board, Lent};
use kilim_run_journal::Entry;
use kilim_run_model::Waits;
use kilim_run_turn::Cells;
use kilim_units::NoMemory;
use std::alloc::Global;
use std::marker::{Brand, Model, PhantomData};

/// A run, named by what it begins with.
pub trait Run {
    /// The settings of the run: those whose program is that of its code, with its main class and its limits.
    ghost of: { Setting → Type 0 };
    /// The entries with which its journal begins.
    ghost given: { List AnEntry };
}

impl Run for Brand {
    ghost of = { λ set. ⊥ };

    ghost given = { [] };
}

/// A board of the run that `K` names: in each setting of the run it stands for a state of the program.
#[derive(Drop)]
pub struct RunBoard<F: Fibers, K: Run> {
    board: Board<F>,
    of: PhantomData<K>,
}

impl<F: Fibers, K: Run> Model for RunBoard<F, K> {
    ghost use Rattle.kilim_run_board.specs.declared.board.Board as kept;
    ghost use Rattle.kilim_run_board.specs.fibers.Fibers.{StartsAtNone};
    ghost use Rattle.kilim_run_board.specs.Seen.{seen, IsRoomy};
    ghost use Rattle.kilim_run_board.specs.Board.{BoardStands};
    ghost use Rattle.kilim_run_workers.specs.Given.{Continues};
    ghost use Rattle.kilim_run_model.specs.State.{Setting};
    ghost use Rattle.std.specs.Coded.{codes};
    ghost use Rattle.std_collections.specs.Layout.BTreeMap.{btree_map_code};
    ghost use Rattle.kilim_run_board.specs.mailbox.Mailbox.{Content};

    ghost Value = { kept.Board F };

    ghost coded = { Prim.hlevel (codes, btree_map_code, F.code) };

    ghost view = { λ r. r.board };

    ghost invariant = { λ r. IsRoomy r.board × ((set : Setting) → K.of set → BoardStands F.task_of F.course_of F.holds set (seen r.board)) × Continues K.given (seen r.board) };
}

impl<F: Fibers, K: Run> Cells for RunBoard<F, K> {
    ghost cells = { λ b. board_cells b };

    fn seats(&self) -> usize {
        self.board.cells.len()
    }
}

impl<F: Fibers, K: Run> RunBoard<F, K> {
    /// A board with the fiber of task 0, which is ready, and so many seats.
    pub fn new(alloc: Global, main: F, seats: usize) -> Result<Self, NoMemory>
        requires some { 1 ≤ seats }
        requires few { seats ≤ 16 }
        requires task { F.task_of main ≡ 0 }
        requires course { F.course_of main ≡ record { beginning = Boot; deeds = [] } }
        requires stands { AllStand F.task_of F.course_of F.holds K.of main }
        requires none { K.given ≡ [] }
        ensures { IfOk result (λ b. board_cells b ≡ replicate seats []) }
    {
        match Board::new(alloc, main, seats) {
            Ok(board) => Ok(RunBoard {
                board,
                of: PhantomData,
            }),
            Err(_) => Err(NoMemory),
        }
    }

    /// A board that stands in each setting of the run, and whose journal begins with the given entries, as a board of the run.
    pub fn of_board(board: Board<F>) -> Self
        requires roomy { IsRoomy board }
        requires stands { (set : Setting) → K.of set → BoardStands F.task_of F.course_of F.holds set (seen board) }
        requires continues { Continues K.given (seen board) }
        ensures { result ≡ board }
    {
        RunBoard {
            board,
            of: PhantomData,
        }
    }

    /// Lends the first fiber that is ready to a seat whose cell is empty.
    pub fn lend(&mut self, seat: usize) -> Lent<F>
        requires some { (set : Setting) × K.of set }
        requires there { seat < length (board_cells self.old) }
        requires free { cell_at (board_cells self.old) seat ≡ [] }
        ensures effect { LendAnswers F.task_of (seen self.old) seat (seen self.new) result }
        ensures others { KeepsOthers seat (board_cells self.old) (board_cells self.new) }
        ensures taken { IsTaken F.task_of F.course_of F.holds K.of (cell_at (board_cells self.new) seat) result }
    {
        self.board.lend(seat)
    }

    /// How many fibers are ready. It is told so that somebody is woken, and no clause speaks of it.
    pub fn ready(&self) -> usize {
        self.board.ready.len()
    }

    /// Takes back a fiber that rests from the seat that it is lent to.
    pub fn give_back(&mut self, seat: usize, fiber: F, waits: Option<Waits>)
        requires lent { cell_at (board_cells self.old) seat ≡ fiber_numbers F.task_of F.course_of fiber }
        requires rests { AllRest F.task_of F.course_of F.holds K.of fiber waits }
        ensures others { KeepsOthers seat (board_cells self.old) (board_cells self.new) }
        ensures empty { cell_at (board_cells self.new) seat ≡ [] }
    {
        self.board.give_back(seat, fiber, waits);
    }

    /// Empties a seat's cell, and stops the board.
    pub fn stop(&mut self, seat: usize)
        requires lent { (t : ℕ) × (c : Course) × (cell_at (board_cells self.old) seat ≡ lent_numbers t c) }
        ensures others { KeepsOthers seat (board_cells self.old) (board_cells self.new) }
        ensures empty { cell_at (board_cells self.new) seat ≡ [] }
    {
        self.board.stop(seat);
    }

    /// The act of the fiber that is lent to the seat.
    pub fn act(&mut self, seat: usize, fiber: &F, wants: Wants<F>) -> Result<Acted, NoMemory>
        requires some { (set : Setting) × K.of set }
        requires lent { cell_at (board_cells self.old) seat ≡ fiber_numbers F.task_of F.course_of fiber.now }
        requires meets { AllMeet F.task_of F.course_of F.holds K.of fiber.now wants }
        requires none { StartsAtNone F.count_of wants }
        ensures others { KeepsOthers seat (board_cells self.old) (board_cells self.new) }
        ensures refused { OnErr result (cell_at (board_cells self.new) seat ≡ fiber_numbers F.task_of F.course_of fiber.now) }
        ensures acted { IfOk result (λ a. ActedAs K.of (F.task_of fiber.now) (F.course_of fiber.now) (cell_at (board_cells self.new) seat) (wish_in wants) a) }
    {
        let _ = fiber;
        match self.board.reserve(&wants) {
            Ok(()) => Ok(self.board.act(seat, wants)),
            Err(fault) => {
                drop(wants);
                Err(fault)
            }
        }
    }

    /// The journal of a run that is over, with the closing waits.
    pub fn finish(self) -> Result<Vec<Entry>, NoMemory>
        requires running { self.stopped ≡ false }
        requires quiet { IsQuiet (seen self) }
        ensures whole { (set : Setting) → K.of set → IfOk result (λ es. MovedWhole set es.items) }
        ensures begins { IfOk result (λ es. BeginsWith K.given es.items) }
    {
        self.board.finish()
    }
}
