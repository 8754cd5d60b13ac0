//! Programs are woven.

ghost use Rattle.std.specs.Prelude.{◌≡◌, None, IfOk};
ghost use Rattle.kilim_isolation.specs.Faults.{IsAccepted};
ghost use Rattle.kilim_weave_spec.specs.Form.{WovenForm};
ghost use Rattle.kilim_weave.specs.Faults.{weave_fault};
ghost use Rattle.kilim_weave.specs.Weaves.{IsWoven, Weaves};

use crate::fault::WeaveFault;
use crate::faults::weave_fault;
use kilim_isolation::Isolated;
use kilim_program::{Class, Field, Form, Program};
use kilim_type_spec::Typed;
use kilim_units::{NoMemory, Seq};
use kilim_weave_laws::woven_programs::kept::woven_is_kept;
use kilim_weave_laws::woven_programs::woven_programs_are_typed;
use kilim_weave_method::woven_each::{
    Methods, keeps_program, keeps_typed, typed_classes, typed_fields, woven_methods,
};
use kilim_weave_pauses::pauses_are_kept;
use std::alloc::Global;

/// A woven program, and for each method which of its instructions count as the task's own. The fields are public for reading.
#[derive(Drop)]
pub struct Woven {
    pub program: Program,
    pub counted: Seq<Seq<bool>>,
}

// Of a typed program without a report that is linked in plain form, where no method is too long or has too many arguments.
fn assembled(typed: &Typed, classes: Seq<Class>, methods: Methods, fields: Seq<Field>) -> Woven
    requires plain { typed.now.program.form ≡ Form.Plain }
    requires accepted { IsAccepted typed.now }
    requires none { weave_fault typed.now.program ≡ None }
    requires form { WovenForm typed.now.program (record { classes = classes; methods = methods.methods; fields = fields; form = Form.Woven }) methods.counted }
    ensures { Weaves typed.now.program result }
{
    pauses_are_kept();
    woven_is_kept();
    woven_programs_are_typed();
    keeps_typed(typed);
    keeps_program(typed);
    let program = Program {
        classes,
        methods: methods.methods,
        fields,
        form: Form::Woven,
    };
    Woven {
        program,
        counted: methods.counted,
    }
}

// The woven program where no method is too long or has too many arguments.
fn woven_program(alloc: Global, typed: &Typed) -> Result<Woven, NoMemory>
    requires plain { typed.now.program.form ≡ Form.Plain }
    requires accepted { IsAccepted typed.now }
    requires none { weave_fault typed.now.program ≡ None }
    ensures { IfOk result (Weaves typed.now.program) }
{
    let Ok(classes) = typed_classes(alloc, typed) else {
        return Err(NoMemory);
    };
    let Ok(fields) = typed_fields(alloc, typed) else {
        return Err(NoMemory);
    };
    let Ok(methods) = woven_methods(alloc, typed) else {
        return Err(NoMemory);
    };
    let woven = assembled(typed, classes, methods, fields);
    Ok(woven)
}

fn fault_of_typed(alloc: Global, typed: &Typed) -> Result<Option<WeaveFault>, NoMemory>
    ensures { IfOk result (λ o. o ≡ weave_fault typed.now.program) }
{
    let program = &typed.program;
    let fault = weave_fault(alloc, program)?;
    Ok(fault)
}

#[tactic(auto, using(crate::proofs::Whole::refused))]
fn woven_or_fault(alloc: Global, typed: &Typed) -> Result<Woven, WeaveFault>
    requires plain { typed.now.program.form ≡ Form.Plain }
    requires accepted { IsAccepted typed.now }
    ensures { IsWoven typed.now.program result }
{
    match fault_of_typed(alloc, typed) {
        Ok(Some(fault)) => Err(fault),
        Ok(None) => match woven_program(alloc, typed) {
            Ok(woven) => Ok(woven),
            Err(_) => Err(WeaveFault::Memory),
        },
        Err(_) => Err(WeaveFault::Memory),
    }
}

/// The woven form of a program that breaks no rule (own, after Srinivasan and Mycroft, "Kilim: Isolation-Typed Actors for Java",
/// 2008), a kept, well-typed program none of whose code is longer than its weight; or the fault of the first method that can't be
/// woven, by class and then by number: `TooLong` exactly where a method with pausable calls weighs more than 32,767, else
/// `ArgumentsFull` exactly where a pausable method has 255 argument slots or a descriptor of more than 65,522 bytes.
pub fn weave(alloc: Global, isolated: &Isolated) -> Result<Woven, WeaveFault>
    requires { isolated.now.typed.program.form ≡ Form.Plain }
    ensures { IsWoven isolated.now.typed.program result }
{
    let typed = &isolated.typed;
    woven_or_fault(alloc, typed)
}
