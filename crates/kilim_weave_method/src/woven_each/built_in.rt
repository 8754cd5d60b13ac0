//! The fiber's class and its members, from the built-in ones of the woven form.

ghost use Rattle.std.specs.Prelude.{◌≡◌, ◌<◌, ◌≤◌, ◌^◌, ◌++◌, drop, length, IfOk};
ghost use Rattle.kilim_program.specs.BuiltIn.{fiber_classes, fiber_methods};
ghost use Rattle.kilim_weave_spec.specs.Form.{first_class, first_method};

use crate::woven_each::copy::{copy_classes, copy_fields, copy_methods, joined};
use kilim_link_views::built_ins::{built_in_classes, built_in_methods};
use kilim_program::{Class, Field, Form, Method, Program};
use kilim_type_spec::Typed;
use kilim_units::{NoMemory, Seq, no_room};
use std::alloc::Global;

/// How many built-in classes and methods a plain program has.
const PLAIN_CLASSES: usize = 18;

const PLAIN_METHODS: usize = 43;

/// The most classes and methods of a program.
const MOST: usize = 1 << 31;

// A number as the built-in classes take it. A program with more would be answered as want of memory.
fn small(number: usize) -> Result<u32, NoMemory>
    ensures value { IfOk result (λ n. n ≡ number) }
    ensures small { IfOk result (λ n. n < 2 ^ 31) }
{
    if number < MOST {
        Ok(number as u32)
    } else {
        // room: 2^31 classes
        Err(no_room())
    }
}

fn first_class(program: &Program) -> usize
    ensures { result ≡ first_class program.now }
{
    program.classes.len().saturating_sub(PLAIN_CLASSES)
}

fn first_method(program: &Program) -> usize
    ensures { result ≡ first_method program.now }
{
    program.methods.len().saturating_sub(PLAIN_METHODS)
}

fn last_methods(methods: &[Method]) -> &[Method]
    requires { PLAIN_METHODS ≤ length methods.now }
    ensures { result.now ≡ drop PLAIN_METHODS methods.now }
{
    &methods[PLAIN_METHODS..]
}

/// The members of the fiber.
pub fn fiber_methods(alloc: Global, program: &Program) -> Result<Seq<Method>, NoMemory>
    ensures { IfOk result (λ s. s ≡ fiber_methods Form.Woven (first_class program.now)) }
{
    let Ok(first) = small(first_class(program)) else {
        return Err(NoMemory);
    };
    let Ok(methods) = built_in_methods(alloc, Form::Woven, first) else {
        return Err(NoMemory);
    };
    let copies = copy_methods(alloc, last_methods(methods.as_slice()));
    drop(methods);
    copies
}

fn last_classes(classes: &[Class]) -> &[Class]
    requires { PLAIN_CLASSES ≤ length classes.now }
    ensures { result.now ≡ drop PLAIN_CLASSES classes.now }
{
    &classes[PLAIN_CLASSES..]
}

// The class of the fiber.
fn fiber_classes(alloc: Global, program: &Program) -> Result<Seq<Class>, NoMemory>
    ensures { IfOk result (λ s. s ≡ fiber_classes Form.Woven (first_class program.now) (first_method program.now)) }
{
    let Ok(first) = small(first_class(program)) else {
        return Err(NoMemory);
    };
    let Ok(method) = small(first_method(program)) else {
        return Err(NoMemory);
    };
    let Ok(classes) = built_in_classes(alloc, Form::Woven, first, method) else {
        return Err(NoMemory);
    };
    let copies = copy_classes(alloc, last_classes(classes.as_slice()));
    drop(classes);
    copies
}

// The classes of a program, and the fiber's behind them.
fn woven_classes(alloc: Global, program: &Program) -> Result<Seq<Class>, NoMemory>
    ensures { IfOk result (λ s. s ≡ program.now.classes ++ fiber_classes Form.Woven (first_class program.now) (first_method program.now)) }
{
    let Ok(classes) = copy_classes(alloc, program.classes.as_slice()) else {
        return Err(NoMemory);
    };
    let Ok(more) = fiber_classes(alloc, program) else {
        return Err(NoMemory);
    };
    joined(classes, more)
}

fn fields_of(alloc: Global, program: &Program) -> Result<Seq<Field>, NoMemory>
    ensures { IfOk result (λ s. s ≡ program.now.fields) }
{
    copy_fields(alloc, program.fields.as_slice())
}

/// The classes of a typed program, and the fiber's behind them.
pub fn typed_classes(alloc: Global, typed: &Typed) -> Result<Seq<Class>, NoMemory>
    ensures { IfOk result (λ s. s ≡ typed.now.program.classes ++ fiber_classes Form.Woven (first_class typed.now.program) (first_method typed.now.program)) }
{
    let program = &typed.program;
    woven_classes(alloc, program)
}

/// The fields of a typed program.
pub fn typed_fields(alloc: Global, typed: &Typed) -> Result<Seq<Field>, NoMemory>
    ensures { IfOk result (λ s. s ≡ typed.now.program.fields) }
{
    let program = &typed.program;
    fields_of(alloc, program)
}
