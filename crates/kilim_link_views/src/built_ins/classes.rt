//! The classes.

ghost use Rattle.std.specs.Prelude.{◌≡◌, ◌<◌, ◌^◌, ℕ, ◌++◌, ◌∷◌, [], map, Some, OnOk, IfOk};
ghost use Rattle.kilim_program.specs.BuiltIn.{class_id, methods_from, fiber_classes, built_in_classes_in, built_in_fields, message_field, methods_before_exceptions, throwable_class};
ghost use Rattle.kilim_link_views.specs.built_ins.Rows.{class_of, exception_of};

use crate::built_ins::parts::text;
use crate::built_ins::rows::{
    CLASSES, ClassRow, EXCEPTION_CLASSES, ExceptionRow, FIBER_CLASSES, OBJECT_CLASS, STRING,
    THROWABLE, THROWABLE_METHODS,
};
use kilim_program::{Base, Class, ClassId, Field, FieldId, Form, MethodId, Ty};
use kilim_units::{NoMemory, Seq};
use std::alloc::Global;

// The methods at these distances from a first one.
#[tactic(auto, using(crate::proofs::built_ins::Distances::from_more))]
fn methods_from(alloc: Global, first: u32, distances: &[u8]) -> Result<Seq<MethodId>, NoMemory>
    requires { first < 2 ^ 31 }
    ensures { IfOk result (λ ids. ids ≡ methods_from first distances.now) }
{
    let mut ids = Seq::new(alloc);
    for distance in distances {
        let Ok(()) = ids.push(MethodId(first + u32::from(*distance))) else {
            return Err(NoMemory);
        };
    }
    Ok(ids)
}

// Appends a class without fields.
fn push_class(
    alloc: Global,
    classes: &mut Seq<Class>,
    superclass: Option<ClassId>,
    method: u32,
    row: &ClassRow,
) -> Result<(), NoMemory>
    requires { method < 2 ^ 31 }
    ensures { OnOk result (classes.new ≡ classes.old ++ class_of superclass method row.now ∷ []) }
{
    let Ok(name) = text(alloc, row.name) else {
        return Err(NoMemory);
    };
    let Ok(methods) = methods_from(alloc, method, row.methods) else {
        return Err(NoMemory);
    };
    let Ok(()) = classes.push(Class {
        name,
        superclass,
        is_abstract: false,
        message: row.message,
        fields: Seq::new(alloc),
        methods,
    }) else {
        return Err(NoMemory);
    };
    Ok(())
}

// `kilim/Fiber`, in woven form alone.
fn fiber_classes(form: Form) -> &'static [ClassRow<'static>]
    ensures { (first method : ℕ) → map (class_of (Some (class_id first)) method) result.now ≡ fiber_classes form first method }
{
    match form {
        Form::Plain => &[],
        Form::Woven => FIBER_CLASSES,
    }
}

// Appends classes that have `java/lang/Object` as their superclass.
fn push_classes(
    alloc: Global,
    classes: &mut Seq<Class>,
    first: u32,
    method: u32,
    rows: &[ClassRow],
) -> Result<(), NoMemory>
    requires { method < 2 ^ 31 }
    ensures { OnOk result (classes.new ≡ classes.old ++ map (class_of (Some (class_id first)) method) rows.now) }
{
    for row in rows {
        let Ok(()) = push_class(alloc, classes, Some(ClassId(first)), method, row) else {
            return Err(NoMemory);
        };
    }
    Ok(())
}

// The number of the message of an exception, alone.
fn message_alone(alloc: Global) -> Result<Seq<FieldId>, NoMemory>
    ensures { IfOk result (λ fields. fields ≡ message_field ∷ []) }
{
    let mut fields = Seq::new(alloc);
    let Ok(()) = fields.push(FieldId(0)) else {
        return Err(NoMemory);
    };
    Ok(fields)
}

// Appends `java/lang/Throwable`.
fn push_throwable(
    alloc: Global,
    classes: &mut Seq<Class>,
    first: u32,
    method: u32,
) -> Result<(), NoMemory>
    requires { method < 2 ^ 31 }
    ensures { OnOk result (classes.new ≡ classes.old ++ throwable_class first method methods_before_exceptions ∷ []) }
{
    let Ok(name) = text(alloc, b"java/lang/Throwable") else {
        return Err(NoMemory);
    };
    let Ok(methods) = methods_from(alloc, method, THROWABLE_METHODS) else {
        return Err(NoMemory);
    };
    let Ok(fields) = message_alone(alloc) else {
        return Err(NoMemory);
    };
    let Ok(()) = classes.push(Class {
        name,
        superclass: Some(ClassId(first)),
        is_abstract: false,
        message: false,
        fields,
        methods,
    }) else {
        return Err(NoMemory);
    };
    Ok(())
}

// Appends a class of exceptions.
fn push_exception(
    alloc: Global,
    classes: &mut Seq<Class>,
    first: u32,
    method: u32,
    row: &ExceptionRow,
) -> Result<(), NoMemory>
    requires first { first < 2 ^ 31 }
    requires method { method < 2 ^ 31 }
    ensures { OnOk result (classes.new ≡ classes.old ++ exception_of first method row.now ∷ []) }
{
    let class = ClassRow {
        name: row.name,
        message: false,
        methods: row.methods,
    };
    let superclass = ClassId(first + u32::from(row.superclass));
    let Ok(()) = push_class(alloc, classes, Some(superclass), method, &class) else {
        return Err(NoMemory);
    };
    Ok(())
}

// Appends classes of exceptions.
fn push_exceptions(
    alloc: Global,
    classes: &mut Seq<Class>,
    first: u32,
    method: u32,
    rows: &[ExceptionRow],
) -> Result<(), NoMemory>
    requires first { first < 2 ^ 31 }
    requires method { method < 2 ^ 31 }
    ensures { OnOk result (classes.new ≡ classes.old ++ map (exception_of first method) rows.now) }
{
    for row in rows {
        let Ok(()) = push_exception(alloc, classes, first, method, row) else {
            return Err(NoMemory);
        };
    }
    Ok(())
}

/// The built-in classes of a form, in their order (own). The first of them and the first of their methods have these
/// numbers. Takes memory and time for so many.
pub fn built_in_classes(
    alloc: Global,
    form: Form,
    first: u32,
    method: u32,
) -> Result<Seq<Class>, NoMemory>
    requires first { first < 2 ^ 31 }
    requires method { method < 2 ^ 31 }
    ensures { IfOk result (λ classes. classes ≡ built_in_classes_in form first method) }
{
    let mut classes = Seq::new(alloc);
    let Ok(()) = push_class(alloc, &mut classes, None, method, &OBJECT_CLASS) else {
        return Err(NoMemory);
    };
    let Ok(()) = push_classes(alloc, &mut classes, first, method, CLASSES) else {
        return Err(NoMemory);
    };
    let Ok(()) = push_throwable(alloc, &mut classes, first, method) else {
        return Err(NoMemory);
    };
    let Ok(()) = push_exceptions(alloc, &mut classes, first, method, EXCEPTION_CLASSES) else {
        return Err(NoMemory);
    };
    let Ok(()) = push_classes(alloc, &mut classes, first, method, fiber_classes(form)) else {
        return Err(NoMemory);
    };
    Ok(classes)
}

/// The built-in fields: the message of an exception, which stands before all other fields (own). The first of the built-in
/// classes has this number.
pub fn built_in_fields(alloc: Global, first: u32) -> Result<Seq<Field>, NoMemory>
    requires { first < 2 ^ 31 }
    ensures { IfOk result (λ fields. fields ≡ built_in_fields first) }
{
    let Ok(name) = text(alloc, b"message") else {
        return Err(NoMemory);
    };
    let mut fields = Seq::new(alloc);
    let Ok(()) = fields.push(Field {
        name,
        ty: Ty {
            dims: 0,
            base: Base::Class(ClassId(first + u32::from(STRING))),
        },
        owner: ClassId(first + u32::from(THROWABLE)),
        is_static: false,
        is_private: true,
        constant: None,
    }) else {
        return Err(NoMemory);
    };
    Ok(fields)
}
