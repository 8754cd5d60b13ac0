//! The methods, class by class.

ghost use Rattle.std.specs.Prelude.{◌≡◌, ◌<◌, ◌^◌, ℕ, ◌+◌, ◌++◌, ◌∷◌, [], map, OnOk, IfOk};
ghost use Rattle.kilim_program.specs.BuiltIn.{built_in_constructor, built_in_methods_in, class_id, constructors_of, fiber_methods, message_constructor};
ghost use Rattle.kilim_link_views.specs.built_ins.Rows.{constructor_with, params_of, marks_of, fiber_kinds, fiber_marks, method_of};

use crate::built_ins::parts::{gives_of, push_types, text};
use crate::built_ins::rows::{EXCEPTIONS, FIBER, FIBER_METHODS, Kind, METHODS, MethodRow, STRING};
use kilim_program::{ClassId, Form, Method, Qualifier, Ty};
use kilim_units::{NoMemory, Seq};
use std::alloc::Global;

// The kind of the fiber, where a method takes it.
fn fiber_kinds(form: Form, pausable: bool) -> &'static [Kind]
    ensures { result.now ≡ fiber_kinds form pausable }
{
    match form {
        Form::Woven if pausable => &[Kind::Object(FIBER)],
        _ => &[],
    }
}

// Its qualifier.
fn fiber_marks(form: Form, pausable: bool) -> &'static [Qualifier]
    ensures { result.now ≡ fiber_marks form pausable }
{
    match form {
        Form::Woven if pausable => &[Qualifier::Safe],
        _ => &[],
    }
}

fn params_of(alloc: Global, form: Form, first: u32, row: &MethodRow) -> Result<Seq<Ty>, NoMemory>
    requires { first < 2 ^ 31 }
    ensures { IfOk result (λ params. params ≡ params_of form first row.now) }
{
    let mut params = Vec::new(alloc);
    let Ok(()) = push_types(&mut params, first, row.params) else {
        return Err(NoMemory);
    };
    let Ok(()) = push_types(&mut params, first, fiber_kinds(form, row.pausable)) else {
        return Err(NoMemory);
    };
    Ok(Seq::from_vec(params))
}

fn marks_of(alloc: Global, form: Form, row: &MethodRow) -> Result<Seq<Qualifier>, NoMemory>
    ensures { IfOk result (λ marks. marks ≡ marks_of form row.now) }
{
    let Ok(mut marks) = Vec::from_slice(alloc, row.qualifiers) else {
        return Err(NoMemory);
    };
    let Ok(()) = marks.extend_from_slice(fiber_marks(form, row.pausable)) else {
        return Err(NoMemory);
    };
    Ok(Seq::from_vec(marks))
}

// Appends the method of a row: it has no code.
fn push_method(
    alloc: Global,
    methods: &mut Seq<Method>,
    form: Form,
    first: u32,
    row: &MethodRow,
) -> Result<(), NoMemory>
    requires { first < 2 ^ 31 }
    ensures { OnOk result (methods.new ≡ methods.old ++ method_of form first row.now ∷ []) }
{
    let Ok(name) = text(alloc, row.name) else {
        return Err(NoMemory);
    };
    let Ok(params) = params_of(alloc, form, first, row) else {
        return Err(NoMemory);
    };
    let Ok(qualifiers) = marks_of(alloc, form, row) else {
        return Err(NoMemory);
    };
    let Ok(()) = methods.push(Method {
        name,
        owner: ClassId(first + u32::from(row.owner)),
        params,
        result: gives_of(first, row.gives),
        is_static: row.is_static,
        is_private: false,
        is_abstract: false,
        built_in: true,
        pausable: row.pausable,
        receiver: row.receiver,
        qualifiers,
        max_stack: 0,
        max_locals: 0,
        code_length: 0,
        code: Seq::new(alloc),
        frames: Seq::new(alloc),
        handlers: Seq::new(alloc),
    }) else {
        return Err(NoMemory);
    };
    Ok(())
}

// Appends the methods of some rows.
fn push_methods(
    alloc: Global,
    methods: &mut Seq<Method>,
    form: Form,
    first: u32,
    rows: &[MethodRow],
) -> Result<(), NoMemory>
    requires { first < 2 ^ 31 }
    ensures { OnOk result (methods.new ≡ methods.old ++ map (method_of form first) rows.now) }
{
    for row in rows {
        let Ok(()) = push_method(alloc, methods, form, first, row) else {
            return Err(NoMemory);
        };
    }
    Ok(())
}

// Appends a constructor of a class of exceptions.
fn push_constructor(
    alloc: Global,
    methods: &mut Seq<Method>,
    first: u32,
    owner: u8,
    params: &[Kind],
    qualifiers: &[Qualifier],
) -> Result<(), NoMemory>
    requires { first < 2 ^ 31 }
    ensures { OnOk result (methods.new ≡ methods.old ++ constructor_with first owner params.now qualifiers.now ∷ []) }
{
    let row = MethodRow {
        name: b"<init>",
        owner,
        params,
        gives: None,
        is_static: false,
        pausable: false,
        receiver: Qualifier::Cuttable,
        qualifiers,
    };
    push_method(alloc, methods, Form::Plain, first, &row)
}

// Appends the two constructors of a class of exceptions.
fn push_two(alloc: Global, methods: &mut Seq<Method>, first: u32, owner: u8) -> Result<(), NoMemory>
    requires { first < 2 ^ 31 }
    ensures { OnOk result (methods.new ≡ methods.old ++ built_in_constructor (class_id (first + owner)) ∷ message_constructor first (class_id (first + owner)) ∷ []) }
{
    let Ok(()) = push_constructor(alloc, methods, first, owner, &[], &[]) else {
        return Err(NoMemory);
    };
    push_constructor(
        alloc,
        methods,
        first,
        owner,
        &[Kind::Object(STRING)],
        &[Qualifier::Safe],
    )
}

// Appends the constructors of some classes of exceptions.
fn push_constructors(
    alloc: Global,
    methods: &mut Seq<Method>,
    first: u32,
    owners: &[u8],
) -> Result<(), NoMemory>
    requires { first < 2 ^ 31 }
    ensures { OnOk result (methods.new ≡ methods.old ++ constructors_of first owners.now) }
{
    for owner in owners {
        let Ok(()) = push_two(alloc, methods, first, *owner) else {
            return Err(NoMemory);
        };
    }
    Ok(())
}

// Those of `kilim/Fiber`, in woven form alone.
fn fiber_methods(form: Form) -> &'static [MethodRow<'static>]
    ensures { (first : ℕ) → map (method_of form first) result.now ≡ fiber_methods form first }
{
    match form {
        Form::Plain => &[],
        Form::Woven => FIBER_METHODS,
    }
}

/// The built-in methods of a form, in the order of their classes (own). The first of the classes has this number.
/// Takes memory and time for so many.
pub fn built_in_methods(alloc: Global, form: Form, first: u32) -> Result<Seq<Method>, NoMemory>
    requires { first < 2 ^ 31 }
    ensures { IfOk result (λ methods. methods ≡ built_in_methods_in form first) }
{
    let mut methods = Seq::new(alloc);
    let Ok(()) = push_methods(alloc, &mut methods, form, first, METHODS) else {
        return Err(NoMemory);
    };
    let Ok(()) = push_constructors(alloc, &mut methods, first, EXCEPTIONS) else {
        return Err(NoMemory);
    };
    let Ok(()) = push_methods(alloc, &mut methods, form, first, fiber_methods(form)) else {
        return Err(NoMemory);
    };
    Ok(methods)
}
