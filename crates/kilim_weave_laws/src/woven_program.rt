//! The woven form of a program as a function: laws, and no code that does work.

pub mod labels;

ghost use Rattle.kilim_weave_laws.specs.woven_program.Law.{WovenFormIsThere};

/// A law, and no work: a kept program with right tables of live slots has a woven form.
pub fn woven_form_is_there()
    ensures { WovenFormIsThere }
{}
