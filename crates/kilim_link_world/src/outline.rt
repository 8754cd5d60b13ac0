//! Classes without their members.

use kilim_program::{Class, Form};
use kilim_units::Seq;
use std::marker::Model;

/// The classes of a world without their members: contracts see the program that has no others.
#[derive(Drop)]
pub struct Outline {
    pub classes: Seq<Class>,
    pub form: Form,
    /// Which of them are tasks.
    pub tasks: Seq<bool>,
}

impl Model for Outline {
    ghost use Rattle.std.specs.Prelude.{◌≡◌, length};
    ghost use Rattle.kilim_program.specs.BuiltIn.{class_id};
    ghost use Rattle.kilim_program.specs.Names.{is_task};
    ghost use Rattle.kilim_program.specs.Program as parts;
    ghost use Rattle.kilim_link_world.specs.Agrees.{each_below};
    ghost use Rattle.kilim_link_world.specs.Outlining.{bare};

    ghost Value = { parts.Program };

    ghost view = { λ o. bare o.classes o.form };

    ghost invariant = { λ o. o.tasks ≡ each_below (λ k. is_task (bare o.classes o.form) (class_id k)) (length o.classes) };
}
