//! The stage, after those of kilim_stages.

ghost use Rattle.std.specs.Prelude.{◌≡◌, ◌≤◌, length, map, IfOk};
ghost use Rattle.std.specs.String.{string_bytes};
ghost use Rattle.kilim_stages.specs.Parts.{IfReport};
ghost use Rattle.kilim_weave.specs.Weaves.{IsWoven};
ghost use Rattle.kilim_stages.specs.woven_stage.Parts.{IsMethodLineOf, IsWovenBy};
ghost use Rattle.kilim_stages.specs.woven_stage.Reports.{IsWovenReport};
ghost use Rattle.kilim_stages.specs.woven_stage.Stage.{IsWovenOf};

use crate::woven_stage::refusals::method_refusal;
use crate::{Refusal, accepted};
use kilim_isolation::Isolated;
use kilim_link_spec::linked_in_parts;
use kilim_program::{Form, Program};
use kilim_units::Seq;
use kilim_weave::{WeaveFault, Woven, weave};
use std::alloc::Global;

/// An accepted program and its woven form.
#[derive(Drop)]
pub struct WovenProgram {
    pub plain: Program,
    pub woven: Woven,
}

// The program out of what the stages before answer.
fn program_of(isolated: Isolated) -> Program
    ensures { result ≡ isolated.typed.program }
{
    isolated.typed.program
}

// The program with its woven form, or the line of its first method that can't be woven.
fn woven_or_line(
    alloc: Global,
    program: Program,
    woven: Result<Woven, WeaveFault>,
) -> Result<WovenProgram, Refusal>
    requires { IsWoven program woven }
    ensures woven { IfOk result (IsWovenBy program) }
    ensures report { IfReport result (IsMethodLineOf program) }
{
    match woven {
        Ok(woven) => Ok(WovenProgram {
            plain: program,
            woven,
        }),
        Err(fault) => {
            let refusal = method_refusal(alloc, &program, fault);
            drop(program);
            Err(refusal)
        }
    }
}

fn woven_by(alloc: Global, isolated: Isolated) -> Result<WovenProgram, Refusal>
    requires { isolated.typed.program.form ≡ Form.Plain }
    ensures woven { IfOk result (IsWovenBy isolated.typed.program) }
    ensures report { IfReport result (IsMethodLineOf isolated.typed.program) }
{
    let woven = weave(alloc, &isolated);
    let program = program_of(isolated);
    woven_or_line(alloc, program, woven)
}

/// The accepted program of the class files with these bytes, linked in their order, and its woven form (own, after Srinivasan and
/// Mycroft, "Kilim: Isolation-Typed Actors for Java", 2008); or the report of the first stage that has a fault, as bytes.
///
/// A report is one of those of kilim_stages: a file that is no class file, by its name, a class that doesn't link, a broken rule
/// of typing, or all broken rules of isolation and pausing. Else it is the line of the first method that can't be woven, being too
/// long or without room for an argument. There are at most 1,000 files, and a name for each.
pub fn woven_program(
    alloc: Global,
    names: &[String],
    files: &[Seq<u8>],
) -> Result<WovenProgram, Refusal>
    requires few { length files.now ≤ 1000 }
    requires same { length names.now ≡ length files.now }
    ensures woven { IfOk result (λ w. IsWovenOf files.now w.plain w.woven) }
    ensures report { IfReport result (IsWovenReport (map string_bytes names.now) files.now) }
{
    linked_in_parts();
    match accepted(alloc, names, files) {
        Ok(isolated) => woven_by(alloc, isolated),
        Err(refusal) => Err(refusal),
    }
}
