//! What a woven method is made from.

ghost use Rattle.std.specs.Prelude.{◌≡◌, length};
ghost use Rattle.kilim_weave_spec.specs.Woven.{fiber_slot, self_slot};
ghost use Rattle.kilim_weave_pieces.specs.Listed.{AreDeclared};

use crate::places::Places;
use kilim_program::{Method, Program};
use kilim_type_flow::LiveTable;
use kilim_type_spec::VerifiedFrame;

/// A method, its frames and live slots, and the new places. In contracts `meant` is the plan of the definitions.
#[derive(Drop)]
pub struct Plan<'a> {
    pub program: &'a Program,
    pub method: &'a Method,
    /// The frame at each instruction, in code order.
    pub frames: &'a [VerifiedFrame],
    pub live: &'a LiveTable,
    /// Whether a frame is declared, by place.
    pub flags: &'a [bool],
    pub places: &'a Places,
    /// The local of the fiber.
    pub fiber: u16,
    /// The local of the receiver.
    pub receiver: u16,
    /// The number of the fiber's first member.
    pub member: u32,
    /// The number of the fiber's class.
    pub class: u32,
    ghost fiber_is: { fiber ≡ fiber_slot method.now },
    ghost receiver_is: { receiver ≡ self_slot method.now },
    ghost member_is: { member ≡ length program.now.methods },
    ghost class_is: { class ≡ length program.now.classes },
    ghost declared_are: { AreDeclared method.now flags.now },
}
