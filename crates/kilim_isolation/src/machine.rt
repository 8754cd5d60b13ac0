//! A method with the graph with which it begins, as a machine.

ghost use Rattle.std.specs.Prelude.{◌≡◌, true};
ghost use Rattle.kilim_type_spec.specs.Typed.{has_code};
ghost use Rattle.kilim_isolation.specs.Tables.{IsTable, places_of};
ghost use Rattle.kilim_isolation.specs.Walks.{is_walkable};

use crate::shape::Shape;
use crate::walk::{exits_at, step};
use kilim_isolation_graph::Graph;
use kilim_isolation_paths::{Exit, Moves};
use kilim_isolation_rules::{StepFault, copied};
use kilim_program::{Method, Program};
use kilim_type_spec::VerifiedFrame;
use kilim_units::{NoMemory, Seq};
use std::alloc::Global;

/// A method with whole code and handlers that stand in it, the tables of its places, and the graph with which it begins.
#[derive(Drop)]
pub struct Walk<'a> {
    pub alloc: Global,
    pub program: &'a Program,
    pub method: &'a Method,
    pub code_at: &'a [usize],
    pub frames_at: &'a [usize],
    pub frames: &'a [VerifiedFrame],
    pub first: &'a Graph,
    ghost whole: { is_walkable method.now ≡ true },
    ghost coded: { has_code method.now ≡ true },
    ghost code: { IsTable code_at.now (places_of method.now.code) method.now.code_length },
    ghost declared: { IsTable frames_at.now (places_of method.now.frames) method.now.code_length },
}

impl<'a> Moves for Walk<'a> {
    type State = Shape;

    ghost use Rattle.std.specs.Prelude.{◌<◌};
    ghost use Rattle.kilim_isolation.specs.Walks.{machine_of};

    ghost means = { λ w. machine_of w.program.now w.method.now w.frames.now w.first.now };

    ghost fits = { λ w p s. p < w.method.now.code_length };

    fn size(&self) -> usize {
        self.method.code_length as usize
    }

    #[tactic(auto, using(crate::proofs::Inside::starts))]
    fn entry(&self) -> Result<Shape, NoMemory> {
        let Ok(graph) = copied(self.alloc, self.first) else {
            return Err(NoMemory);
        };
        Ok(Shape::new(graph))
    }

    fn exits(&self, place: u32) -> Result<Seq<Exit>, NoMemory> {
        let Ok(exits) = exits_at(self.alloc, self.method, self.code_at, place) else {
            return Err(NoMemory);
        };
        Ok(exits)
    }

    fn step(&self, place: u32, state: &Shape, exit: Exit) -> Result<Result<Shape, u8>, NoMemory> {
        match step(
            self.alloc,
            self.program,
            self.method,
            self.code_at,
            self.frames_at,
            self.frames,
            place,
            state.graph(),
            exit,
        ) {
            Ok(graph) => Ok(Ok(Shape::new(graph))),
            Err(StepFault::Rule(rule)) => Ok(Err(rule)),
            Err(StepFault::Memory) => Err(NoMemory),
        }
    }
}
