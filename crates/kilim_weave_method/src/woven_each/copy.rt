//! Copies of classes, methods and fields.

ghost use Rattle.std.specs.Prelude.{◌≡◌, ◌<◌, ◌++◌, Some, length, slice_get, IfOk};

use crate::copy_method;
use kilim_program::{Class, Field, Method, Value};
use kilim_units::{NoMemory, Seq};
use std::alloc::Global;

fn copy_class(alloc: Global, class: &Class) -> Result<Class, NoMemory>
    ensures { IfOk result (λ c. c ≡ class.now) }
{
    let Ok(fields) = Vec::from_slice(alloc, class.fields.as_slice()) else {
        return Err(NoMemory);
    };
    let Ok(methods) = Vec::from_slice(alloc, class.methods.as_slice()) else {
        return Err(NoMemory);
    };
    let Ok(name) = class.name.clone() else {
        return Err(NoMemory);
    };
    Ok(Class {
        name,
        superclass: class.superclass,
        is_abstract: class.is_abstract,
        message: class.message,
        fields: Seq::from_vec(fields),
        methods: Seq::from_vec(methods),
    })
}

fn class_at(classes: &[Class], at: usize) -> &Class
    requires { at < length classes.now }
    ensures { slice_get classes.now at ≡ Some result.now }
{
    &classes[at]
}

/// The same classes.
pub fn copy_classes(alloc: Global, classes: &[Class]) -> Result<Seq<Class>, NoMemory>
    ensures { IfOk result (λ s. s ≡ classes.now) }
{
    let mut all = Seq::new(alloc);
    for at in 0..classes.len() {
        let class = class_at(classes, at);
        let Ok(copy) = copy_class(alloc, class) else {
            return Err(NoMemory);
        };
        let Ok(()) = all.push(copy) else {
            return Err(NoMemory);
        };
    }
    Ok(all)
}

/// A method by its number.
pub fn method_at(methods: &[Method], at: usize) -> &Method
    requires { at < length methods.now }
    ensures { slice_get methods.now at ≡ Some result.now }
{
    &methods[at]
}

/// The same methods.
pub fn copy_methods(alloc: Global, methods: &[Method]) -> Result<Seq<Method>, NoMemory>
    ensures { IfOk result (λ s. s ≡ methods.now) }
{
    let mut all = Seq::new(alloc);
    for at in 0..methods.len() {
        let method = method_at(methods, at);
        let Ok(copy) = copy_method(alloc, method) else {
            return Err(NoMemory);
        };
        let Ok(()) = all.push(copy) else {
            return Err(NoMemory);
        };
    }
    Ok(all)
}

fn copy_constant(constant: &Option<Value>) -> Result<Option<Value>, NoMemory>
    ensures { IfOk result (λ v. v ≡ constant.now) }
{
    match constant {
        Some(value) => Ok(Some(value.clone()?)),
        None => Ok(None),
    }
}

fn copy_field(field: &Field) -> Result<Field, NoMemory>
    ensures { IfOk result (λ f. f ≡ field.now) }
{
    let Ok(name) = field.name.clone() else {
        return Err(NoMemory);
    };
    let Ok(constant) = copy_constant(&field.constant) else {
        return Err(NoMemory);
    };
    Ok(Field {
        name,
        ty: field.ty,
        owner: field.owner,
        is_static: field.is_static,
        is_private: field.is_private,
        constant,
    })
}

fn field_at(fields: &[Field], at: usize) -> &Field
    requires { at < length fields.now }
    ensures { slice_get fields.now at ≡ Some result.now }
{
    &fields[at]
}

/// The same fields.
pub fn copy_fields(alloc: Global, fields: &[Field]) -> Result<Seq<Field>, NoMemory>
    ensures { IfOk result (λ s. s ≡ fields.now) }
{
    let mut all = Seq::new(alloc);
    for at in 0..fields.len() {
        let field = field_at(fields, at);
        let Ok(copy) = copy_field(field) else {
            return Err(NoMemory);
        };
        let Ok(()) = all.push(copy) else {
            return Err(NoMemory);
        };
    }
    Ok(all)
}

/// The elements of both lists.
pub fn joined<T: Drop>(own: Seq<T>, last: Seq<T>) -> Result<Seq<T>, NoMemory>
    ensures { IfOk result (λ s. s ≡ own ++ last) }
{
    let mut all = own.into_vec();
    let mut more = last.into_vec();
    let Ok(()) = all.append(&mut more) else {
        return Err(NoMemory);
    };
    Ok(Seq::from_vec(all))
}
