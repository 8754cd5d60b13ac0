//! What the calls of a fiber read.

ghost use Rattle.std.specs.Prelude.{◌≡◌, IfOk, IfSome, Some};
ghost use Rattle.std.proofs.Props.{props};
ghost use Rattle.kilim_program.specs.Members.{execute_of};
ghost use Rattle.kilim_run_machine.specs.Natives.{native_of};
ghost use Rattle.kilim_run_interp.specs.instruction.Reached.{AreReached};
ghost use Rattle.kilim_fiber_steps.specs.records.natives.Natives.{meaning};
ghost use Rattle.kilim_fiber_steps.specs.records.natives.Tables.{AreExecutes, AreNatives};

use kilim_fiber_steps::Places;
use kilim_fiber_steps::records::natives::{
    Native, execute_at, execute_of, execute_table, native_at, native_table,
};
use kilim_program::{ClassId, MethodId, Program};
use kilim_run_interp::instruction::{Reach, reach_table};
use kilim_units::{NoMemory, Seq};
use std::alloc::Global;

/// A program, and its woven form with its marks, and tables that make running it faster.
#[derive(Drop)]
pub struct Code {
    /// The program that was woven.
    pub plain: Program,
    /// The woven program.
    pub program: Program,
    /// For each method which of its instructions count as the task's own.
    pub counted: Seq<Seq<bool>>,
    /// For each method the instructions by their places.
    pub places: Places,
    // which built-in method each method is
    natives: Vec<Option<Native>>,
    // the method `execute` that the objects of each class have
    executes: Vec<Option<MethodId>>,
    // what calls of each method come to
    reached: Vec<Reach>,
    ghost natives_are: { AreNatives program natives.items } by { Prim.hlevel props },
    ghost executes_are: { AreExecutes program executes.items } by { Prim.hlevel props },
    ghost reached_are: { AreReached program reached.items } by { Prim.hlevel props },
}

// The tables of a woven program: the places, and which built-in method and which `execute` stand where, and what calls come to.
fn tables_of(
    alloc: Global,
    program: &Program,
) -> Result<
    (
        Places,
        Vec<Option<Native>>,
        Vec<Option<MethodId>>,
        Vec<Reach>,
    ),
    NoMemory,
>
    ensures natives { IfOk result (λ tables. AreNatives program.now tables.1.items) }
    ensures executes { IfOk result (λ tables. AreExecutes program.now tables.2.items) }
    ensures reached { IfOk result (λ tables. AreReached program.now tables.3.items) }
{
    let Ok(places) = Places::new(alloc, program) else {
        return Err(NoMemory);
    };
    let Ok(natives) = native_table(alloc, program) else {
        return Err(NoMemory);
    };
    let Ok(executes) = execute_table(alloc, program) else {
        return Err(NoMemory);
    };
    let Ok(reached) = reach_table(alloc, program) else {
        return Err(NoMemory);
    };
    Ok((places, natives, executes, reached))
}

impl Code {
    /// The code of a program and its woven form, with the marks of that.
    pub fn new(
        alloc: Global,
        plain: Program,
        program: Program,
        counted: Seq<Seq<bool>>,
    ) -> Result<Code, NoMemory>
        ensures { IfOk result (λ code. (code.plain ≡ plain) × (code.program ≡ program) × (code.counted ≡ counted)) }
    {
        match tables_of(alloc, &program) {
            Ok((places, natives, executes, reached)) => Ok(Code {
                plain,
                program,
                counted,
                places,
                natives,
                executes,
                reached,
            }),
            Err(fault) => {
                drop(plain);
                drop(program);
                drop(counted);
                Err(fault)
            }
        }
    }

    /// Lets the code go.
    pub fn end(self) {
        drop(self);
    }

    /// Which built-in method each method of the woven program is, where it is one that is handed out.
    #[inline(always)]
    pub(crate) fn natives(&self) -> &[Option<Native>]
        ensures { AreNatives self.now.program result.now }
    {
        self.natives.as_slice()
    }

    /// What calls of each method of the woven program come to.
    #[inline(always)]
    pub(crate) fn reached(&self) -> &[Reach]
        ensures { AreReached self.now.program result.now }
    {
        self.reached.as_slice()
    }

    /// The built-in method that a method of the woven program is, where it is one that is handed out.
    #[inline(always)]
    pub(crate) fn native(&self, method: MethodId) -> Option<Native>
        ensures { IfSome result (λ native. native_of self.now.program method ≡ Some (meaning native)) }
    {
        native_at(self.natives.as_slice(), method)
    }

    /// The method `execute` that objects of a class have. Where the table has none it is looked for.
    pub(crate) fn execute(&self, class: ClassId) -> Option<MethodId>
        ensures { result ≡ execute_of self.now.program class }
    {
        match self.told(class) {
            Some(method) => Some(method),
            None => execute_of(&self.program, class),
        }
    }

    // What the table has.
    fn told(&self, class: ClassId) -> Option<MethodId>
        ensures { IfSome result (λ method. execute_of self.now.program class ≡ Some method) }
    {
        execute_at(self.executes.as_slice(), class)
    }
}
