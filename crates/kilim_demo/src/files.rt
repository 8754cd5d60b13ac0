//! The class files of a number.

ghost use Rattle.std.specs.Prelude.{◌≡◌, ◌∷◌, ◌++◌, ◌≤◌, [], length, IfOk, OnOk};
ghost use Rattle.kilim_demo.specs.Demo.{demo_of, planned_files, stage_files};
ghost use Rattle.kilim_demo.specs.MainClass.{main_file};
ghost use Rattle.kilim_demo.specs.Node.{node_file};

use crate::draws::{Plan, Stage, plan_of};
use crate::main_class::main_file;
use crate::node_class::node_file;
use crate::stage_class::stage_file;
use kilim_class_file::ClassFile;
use kilim_units::NoMemory;
use std::alloc::Global;

fn push_file(files: &mut Vec<ClassFile>, file: ClassFile) -> Result<(), NoMemory>
    ensures { OnOk result (files.new.items ≡ files.old.items ++ file ∷ []) }
{
    match files.push(file) {
        Ok(()) => Ok(()),
        Err(_) => Err(NoMemory),
    }
}

fn push_stages(
    alloc: Global,
    files: &mut Vec<ClassFile>,
    messages: u16,
    stages: &[Stage],
) -> Result<(), NoMemory>
    requires { length stages.now ≤ 15 }
    ensures { OnOk result (files.new.items ≡ files.old.items ++ stage_files 1 messages stages.now) }
{
    for (index, stage) in stages.iter().enumerate() {
        let Ok(file) = stage_file(alloc, index as u16 + 1, messages, *stage) else {
            return Err(NoMemory);
        };
        let Ok(()) = push_file(files, file) else {
            return Err(NoMemory);
        };
    }
    Ok(())
}

fn push_node(alloc: Global, files: &mut Vec<ClassFile>) -> Result<(), NoMemory>
    ensures { OnOk result (files.new.items ≡ files.old.items ++ node_file ∷ []) }
{
    let file = node_file(alloc)?;
    push_file(files, file)
}

fn push_main(alloc: Global, files: &mut Vec<ClassFile>, plan: &Plan) -> Result<(), NoMemory>
    requires { length plan.now.stages ≤ 15 }
    ensures { OnOk result (files.new.items ≡ files.old.items ++ main_file (length plan.now.stages) plan.now.messages ∷ []) }
{
    let stages = plan.stages.as_slice().len() as u8;
    let file = main_file(alloc, stages, plan.messages)?;
    push_file(files, file)
}

fn push_planned(alloc: Global, files: &mut Vec<ClassFile>, plan: &Plan) -> Result<(), NoMemory>
    requires { length plan.now.stages ≤ 15 }
    ensures { OnOk result (files.new.items ≡ files.old.items ++ planned_files plan.now) }
{
    let Ok(()) = push_node(alloc, files) else {
        return Err(NoMemory);
    };
    let Ok(()) = push_stages(alloc, files, plan.messages, plan.stages.as_slice()) else {
        return Err(NoMemory);
    };
    push_main(alloc, files, plan)
}

fn planned_files(alloc: Global, plan: &Plan) -> Result<Vec<ClassFile>, NoMemory>
    requires { length plan.now.stages ≤ 15 }
    ensures { IfOk result (λ files. files.items ≡ planned_files plan.now) }
{
    let mut files = Vec::new(alloc);
    let Ok(()) = push_planned(alloc, &mut files, plan) else {
        return Err(NoMemory);
    };
    Ok(files)
}

/// The class files of the demo of a number: `D/Node`, the stages `D/S1` and so on, and `D/Main`. The error is want of memory.
#[tactic(auto, unfolding(crate::specs::Demo::demo_of))]
pub fn make(alloc: Global, number: u64) -> Result<Vec<ClassFile>, NoMemory>
    ensures { IfOk result (λ files. files.items ≡ demo_of number) }
{
    let plan = plan_of(alloc, number)?;
    planned_files(alloc, &plan)
}
