//! What the types of programs keep: laws, and no code that does work.

ghost use Rattle.std.specs.Prelude.{◌<◌, ◌^◌};
ghost use Rattle.kilim_program.specs.Keeps.{Keeps};
ghost use Rattle.kilim_type_spec.specs.TypedProgram.{KeepsTyped};

use kilim_program::Program;
use kilim_run_state::Limits;
use kilim_type_spec::Typed;

/// A law, and no work: what the type of a typed program keeps.
pub fn keeps_typed(typed: &Typed)
    ensures { KeepsTyped typed.now }
{
    let _frames = &typed.frames;
}

/// A law, and no work: what the type of a program keeps.
pub fn keeps(program: &Program)
    ensures { Keeps program.now }
{
    let _classes = &program.classes;
}

/// A law, and no work: what the type of a typed program's program keeps.
pub fn keeps_program(typed: &Typed)
    ensures { Keeps typed.now.program }
{
    let program = &typed.program;
    keeps(program);
}

/// A law, and no work: how many instructions a task may do is a number of 64 bits.
pub fn steps_fit(limits: &Limits)
    ensures { limits.now.steps < 2 ^ 64 }
{
    let _steps = limits.steps;
}
