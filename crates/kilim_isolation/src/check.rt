//! All faults of a program.

ghost use Rattle.std.specs.Prelude.{◌≡◌, ◌++◌, IfOk, List};
ghost use Rattle.kilim_program.specs.declared.names.MethodId.{MethodId};
ghost use Rattle.kilim_isolation.specs.Faults as spec;

use crate::merge::{append, merged};
use crate::paths::paths_of;
use kilim_isolation_pauses::{Report, method_reports};
use kilim_program::{Class, MethodId};
use kilim_type_spec::Typed;
use kilim_units::{NoMemory, Seq};
use std::alloc::Global;

// The reports of a method, of its paths among those of the rules 8, 10 and 11.
fn reports_of(alloc: Global, typed: &Typed, id: MethodId) -> Result<Seq<Report>, NoMemory>
    ensures { IfOk result (λ reports. spec.AreReportsOf typed.now id reports) }
{
    let Ok(walked) = paths_of(alloc, typed, id) else {
        return Err(NoMemory);
    };
    let Ok(others) = method_reports(alloc, typed, id) else {
        return Err(NoMemory);
    };
    let all = merged(alloc, walked.as_slice(), others.as_slice());
    drop(others);
    drop(walked);
    all
}

#[tactic(auto, using(crate::proofs::Together::each_more))]
// The reports of these methods behind those that are there.
fn push_each(
    alloc: Global,
    typed: &Typed,
    ids: &[MethodId],
    reports: &mut Seq<Report>,
) -> Result<(), NoMemory>
    ensures { IfOk result (λ u. (done : List MethodId) → spec.AreReportsOfAll typed.now done reports.old → spec.AreReportsOfAll typed.now (done ++ ids.now) reports.new) }
{
    for id in ids {
        let Ok(more) = reports_of(alloc, typed, *id) else {
            return Err(NoMemory);
        };
        let Ok(()) = append(alloc, reports, more.as_slice()) else {
            return Err(NoMemory);
        };
    }
    Ok(())
}

fn classes_of(typed: &Typed) -> &[Class]
    ensures { result.now ≡ typed.now.program.classes }
{
    typed.program.classes.as_slice()
}

#[tactic(auto, using(crate::proofs::Together::class_more))]
/// All reports of a program, by class, method, place and rule, each combination once.
pub fn all_reports(alloc: Global, typed: &Typed) -> Result<Seq<Report>, NoMemory>
    ensures { IfOk result (spec.AreReports typed.now) }
{
    let mut reports = Seq::new(alloc);
    for class in classes_of(typed) {
        let Ok(()) = push_each(alloc, typed, class.methods.as_slice(), &mut reports) else {
            return Err(NoMemory);
        };
    }
    Ok(reports)
}
