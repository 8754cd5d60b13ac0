//! Weaving, with what it is for: in an accepted program, a fiber of the woven program does what the task does.

ghost use Rattle.std.specs.Prelude.{◌≡◌, IfOk};
ghost use Rattle.kilim_program.specs.declared.class.Form.TheVariants.{Plain};
ghost use Rattle.kilim_weave.specs.Weaves.{IsWoven};
ghost use Rattle.kilim_theorems.specs.serving_weaver.Serving.{ServesEachRun};

use kilim_fiber_laws::woven_served::runs_serve;
use kilim_isolation::Isolated;
use kilim_weave::{WeaveFault, Woven};
use std::alloc::Global;

/// The woven form of a program that breaks no rule, or the first method that can't be woven, as `weave` of kilim_weave answers them. In
/// each run of the program with a fit main class, a fiber of the woven program does what the task does: from each beginning on, along all deeds of a
/// course and whatever pauses come, it comes right before an action, or to its end, exactly where the thread of the course does, with the same heap and
/// the same count of instructions; at each rest it stands for the thread; a tree that it hands out next is whole; the next counted instruction, rest
/// or end comes within 67,108,864 instructions; and at every moment its frames and heap are as the interpreter asks before its next step.
#[tactic(auto, using(crate::proofs::serving_weaver::Served::serves_where))]
pub fn weave(alloc: Global, isolated: &Isolated) -> Result<Woven, WeaveFault>
    requires { isolated.now.typed.program.form ≡ Plain }
    ensures woven { IsWoven isolated.now.typed.program result }
    ensures serves { IfOk result (λ w. ServesEachRun isolated.now.typed.program w) }
{
    runs_serve();
    kilim_weave::weave(alloc, isolated)
}
