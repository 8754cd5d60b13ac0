//! A well-typed program.

use crate::verified::VerifiedFrame;
use kilim_program::Program;
use kilim_units::Seq;
use std::marker::Model;

/// A program that is well typed, with the frame at each place. Its type keeps that it is (`KeepsTyped`). The fields are
/// public for reading.
#[derive(Drop)]
pub struct Typed {
    /// The program.
    pub program: Program,
    /// For each method, by number, the frame at each of its instructions, in code order: each local up to its number of
    /// locals, the stack from the bottom. None for a method without code.
    pub frames: Seq<Seq<VerifiedFrame>>,
}

impl Model for Typed {
    ghost use Rattle.kilim_type_spec.specs.TypedProgram as parts;

    ghost Value = { parts.TypedProgram };

    ghost view = { λ t. record { program = t.program; frames = t.frames } };

    ghost invariant = { λ t. parts.KeepsTyped (record { program = t.program; frames = t.frames }) };
}
