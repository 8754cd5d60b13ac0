//! All methods of a program, woven.

ghost use Rattle.std.specs.Prelude.{◌≡◌, ◌<◌, ◌+◌, ◌++◌, true, length, map, slice_get, take, Some, IfOk, OnOk};
ghost use Rattle.kilim_program.specs.BuiltIn.{fiber_methods};
ghost use Rattle.kilim_program.specs.Names.{method_at};
ghost use Rattle.kilim_type_spec.specs.Typed.{has_code};
ghost use Rattle.kilim_type_spec.specs.TypedProgram.{KeepsTyped};
ghost use Rattle.kilim_weave_pieces.specs.Listed.{Listed};
ghost use Rattle.kilim_weave_spec.specs.Form.{AllWoven, IsWoven, all_counted, first_class};
ghost use Rattle.kilim_weave_method.specs.woven_each.Each.{IsEachWoven};

use crate::woven_each::built_in::fiber_methods;
use crate::woven_each::copy::{joined, method_at};
use crate::woven_each::each::woven_each;
use crate::woven_each::extended::all_counted;
use crate::woven_each::kept::keeps;
use kilim_program::{Form, Method, MethodId, Program};
use kilim_type_laws::typed_by_place;
use kilim_type_spec::{Typed, VerifiedFrame};
use kilim_units::{NoMemory, Seq, no_room};
use std::alloc::Global;

/// Methods, and which of their instructions count.
#[derive(Drop)]
pub struct Methods {
    pub methods: Seq<Method>,
    pub counted: Seq<Seq<bool>>,
}

fn method_of(program: &Program, at: usize) -> &Method
    requires { at < length program.now.methods }
    ensures { slice_get program.now.methods at ≡ Some result.now }
{
    program.methods.get(at)
}

fn count_of(program: &Program) -> usize
    ensures { result ≡ length program.now.methods }
{
    program.methods.len()
}

// A number as an id has it. A program with more methods would be answered as want of memory.
fn id_of(at: usize) -> Result<MethodId, NoMemory>
    ensures { IfOk result (λ id. id.0 ≡ at) }
{
    match u32::try_from(at) {
        Ok(number) => Ok(MethodId(number)),
        // room: 2^32 methods
        Err(_) => Err(no_room()),
    }
}

fn frames_at(frames: &[Seq<VerifiedFrame>], at: usize) -> &Seq<VerifiedFrame>
    requires { at < length frames.now }
    ensures { slice_get frames.now at ≡ Some result.now }
{
    &frames[at]
}

// The frames of a method: a typed program has a list for each.
fn frames_of<'a>(
    program: &Program,
    frames: &'a [Seq<VerifiedFrame>],
    id: MethodId,
    method: &Method,
) -> &'a Seq<VerifiedFrame>
    requires typed { KeepsTyped (record { program = program.now; frames = frames.now }) }
    requires there { method_at program.now id ≡ Some method.now }
    ensures { has_code method.now ≡ true → Listed program.now method.now result.now }
{
    typed_by_place();
    keeps(program);
    frames_at(frames, id.0 as usize)
}

// A method by its number.
fn woven_at(
    alloc: Global,
    program: &Program,
    frames: &[Seq<VerifiedFrame>],
    id: MethodId,
    method: &Method,
) -> Result<(Method, Seq<bool>), NoMemory>
    requires typed { KeepsTyped (record { program = program.now; frames = frames.now }) }
    requires there { method_at program.now id ≡ Some method.now }
    ensures { IfOk result (λ r. IsWoven program.now method.now r.0 r.1) }
{
    let found = frames_of(program, frames, id, method);
    woven_each(alloc, program, found.as_slice(), id, method)
}

// The woven form of the method of a number, behind those that are there.
fn push_woven(
    alloc: Global,
    program: &Program,
    frames: &[Seq<VerifiedFrame>],
    at: usize,
    all: &mut Methods,
) -> Result<(), NoMemory>
    requires typed { KeepsTyped (record { program = program.now; frames = frames.now }) }
    requires there { at < length program.now.methods }
    ensures { OnOk result (IsEachWoven program.now (take at program.now.methods) all.old.methods all.old.counted → IsEachWoven program.now (take (at + 1) program.now.methods) all.new.methods all.new.counted) }
{
    let method = method_of(program, at);
    let Ok(id) = id_of(at) else {
        return Err(NoMemory);
    };
    let Ok(pair) = woven_at(alloc, program, frames, id, method) else {
        return Err(NoMemory);
    };
    let Ok(()) = all.methods.push(pair.0) else {
        return Err(NoMemory);
    };
    let Ok(()) = all.counted.push(pair.1) else {
        return Err(NoMemory);
    };
    Ok(())
}

// The program's own methods and the built-in ones of the plain form.
fn woven_each_one(
    alloc: Global,
    program: &Program,
    frames: &[Seq<VerifiedFrame>],
) -> Result<Methods, NoMemory>
    requires { KeepsTyped (record { program = program.now; frames = frames.now }) }
    ensures { IfOk result (λ all. IsEachWoven program.now program.now.methods all.methods all.counted) }
{
    let mut all = Methods {
        methods: Seq::new(alloc),
        counted: Seq::new(alloc),
    };
    let count = count_of(program);
    for at in 0..count {
        let Ok(()) = push_woven(alloc, program, frames, at, &mut all) else {
            return Err(NoMemory);
        };
    }
    Ok(all)
}

// All instructions of each method count.
fn all_marks(alloc: Global, methods: &[Method]) -> Result<Seq<Seq<bool>>, NoMemory>
    ensures { IfOk result (λ s. s ≡ map all_counted methods.now) }
{
    let mut all = Seq::new(alloc);
    for at in 0..methods.len() {
        let method = method_at(methods, at);
        let Ok(marks) = all_counted(alloc, method) else {
            return Err(NoMemory);
        };
        let Ok(()) = all.push(marks) else {
            return Err(NoMemory);
        };
    }
    Ok(all)
}

// The members of the fiber, of which all instructions count.
fn fiber_of(alloc: Global, program: &Program) -> Result<Methods, NoMemory>
    ensures methods { IfOk result (λ all. all.methods ≡ fiber_methods Form.Woven (first_class program.now)) }
    ensures counted { IfOk result (λ all. all.counted ≡ map all_counted all.methods) }
{
    let Ok(methods) = fiber_methods(alloc, program) else {
        return Err(NoMemory);
    };
    let Ok(counted) = all_marks(alloc, methods.as_slice()) else {
        return Err(NoMemory);
    };
    Ok(Methods { methods, counted })
}

fn both(all: Methods, last: Methods) -> Result<Methods, NoMemory>
    ensures methods { IfOk result (λ r. r.methods ≡ all.methods ++ last.methods) }
    ensures counted { IfOk result (λ r. r.counted ≡ all.counted ++ last.counted) }
{
    let Ok(counted) = joined(all.counted, last.counted) else {
        return Err(NoMemory);
    };
    let Ok(methods) = joined(all.methods, last.methods) else {
        return Err(NoMemory);
    };
    Ok(Methods { methods, counted })
}

fn with_fiber(alloc: Global, program: &Program, all: Methods) -> Result<Methods, NoMemory>
    requires { IsEachWoven program.now program.now.methods all.methods all.counted }
    ensures { IfOk result (λ all. AllWoven program.now program.now.methods all.methods all.counted) }
{
    match fiber_of(alloc, program) {
        Ok(fiber) => both(all, fiber),
        Err(fault) => {
            drop(all);
            Err(fault)
        }
    }
}

fn all_woven(
    alloc: Global,
    program: &Program,
    frames: &[Seq<VerifiedFrame>],
) -> Result<Methods, NoMemory>
    requires { KeepsTyped (record { program = program.now; frames = frames.now }) }
    ensures { IfOk result (λ all. AllWoven program.now program.now.methods all.methods all.counted) }
{
    let each = woven_each_one(alloc, program, frames)?;
    with_fiber(alloc, program, each)
}

/// All methods of a typed program in their woven form, and behind them the members of the fiber.
pub fn woven_methods(alloc: Global, typed: &Typed) -> Result<Methods, NoMemory>
    ensures { IfOk result (λ all. AllWoven typed.now.program typed.now.program.methods all.methods all.counted) }
{
    all_woven(alloc, &typed.program, typed.frames.as_slice())
}
