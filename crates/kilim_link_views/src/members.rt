//! Fields and methods of a file.

ghost use Rattle.std.specs.Prelude.{◌≡◌, ◌++◌, ◌∷◌, [], map, IfOk, OnOk};
ghost use Rattle.kilim_link_spec.specs.declared.view.Marks.TheVariants.{Annotated};
ghost use Rattle.kilim_link_spec.specs.World.{annotation_types, parameter_types, lists_pausable, is_pausable, declared_method, declared_field};

use crate::marks::{annotation_types, parameter_types};
use crate::names::{has_flag, is_any_named, member_descriptor, member_name};
use kilim_class_attributes::Info;
use kilim_class_file::{ClassFile, MemberInfo};
use kilim_class_pool::Pool;
use kilim_link_spec::{DeclaredField, DeclaredMethod, Marks};
use kilim_units::{NoMemory, Seq, Units};
use std::alloc::Global;

// ACC_PRIVATE, ACC_STATIC, ACC_FINAL and ACC_ABSTRACT (JVMS table 4.6-A).
const PRIVATE: u16 = 0x0002;

const STATIC: u16 = 0x0008;

const FINAL: u16 = 0x0010;

const ABSTRACT: u16 = 0x0400;

// Whether it is an Exceptions attribute that lists `kilim/Pausable`.
fn lists_pausable(pool: &Pool, info: &Info) -> bool
    ensures { result ≡ lists_pausable pool.now info.now }
{
    match info {
        Info::Exceptions(classes) => is_any_named(pool, classes.as_slice(), b"kilim/Pausable"),
        _ => false,
    }
}

/// Whether a method pauses: its Exceptions attribute lists `kilim/Pausable` (own; JVMS 4.7.5).
pub fn is_pausable(pool: &Pool, method: &MemberInfo) -> bool
    ensures { result ≡ is_pausable pool.now method.now }
{
    for attribute in method.attributes.as_slice() {
        if lists_pausable(pool, &attribute.info) {
            return true;
        }
    }
    false
}

// The annotations on a method and its parameters, by their types.
fn marks(alloc: Global, pool: &Pool, method: &MemberInfo) -> Result<Marks, NoMemory>
    ensures { IfOk result (λ marks. marks ≡ Annotated (annotation_types pool.now method.now) (parameter_types pool.now method.now)) }
{
    let Ok(on_it) = annotation_types(alloc, pool, method) else {
        return Err(NoMemory);
    };
    let Ok(on_parameters) = parameter_types(alloc, pool, method) else {
        return Err(NoMemory);
    };
    Ok(Marks::Annotated(on_it, on_parameters))
}

/// A method of a file as it is declared (JVMS 4.6).
pub fn declared_method(
    alloc: Global,
    file: &ClassFile,
    method: &MemberInfo,
) -> Result<DeclaredMethod, NoMemory>
    ensures { IfOk result (λ declared. declared ≡ declared_method file.now method.now) }
{
    let Ok(name) = Units::from_slice(alloc, member_name(file, method)) else {
        return Err(NoMemory);
    };
    let Ok(descriptor) = Units::from_slice(alloc, member_descriptor(file, method)) else {
        return Err(NoMemory);
    };
    let Ok(marks) = marks(alloc, &file.constant_pool, method) else {
        return Err(NoMemory);
    };
    let flags = method.access_flags;
    Ok(DeclaredMethod {
        name,
        descriptor,
        is_static: has_flag(STATIC, flags),
        is_private: has_flag(PRIVATE, flags),
        is_abstract: has_flag(ABSTRACT, flags),
        is_final: has_flag(FINAL, flags),
        pausable: is_pausable(&file.constant_pool, method),
        marks,
    })
}

// Appends a method of a file as it is declared.
fn push_declared_method(
    alloc: Global,
    methods: &mut Seq<DeclaredMethod>,
    file: &ClassFile,
    method: &MemberInfo,
) -> Result<(), NoMemory>
    ensures { OnOk result (methods.new ≡ methods.old ++ declared_method file.now method.now ∷ []) }
{
    let Ok(declared) = declared_method(alloc, file, method) else {
        return Err(NoMemory);
    };
    let Ok(()) = methods.push(declared) else {
        return Err(NoMemory);
    };
    Ok(())
}

/// The methods of a file as they are declared, in their order.
pub fn declared_methods(alloc: Global, file: &ClassFile) -> Result<Seq<DeclaredMethod>, NoMemory>
    ensures { IfOk result (λ methods. methods ≡ map (declared_method file.now) file.now.methods) }
{
    let mut methods = Seq::new(alloc);
    for method in file.methods.as_slice() {
        let Ok(()) = push_declared_method(alloc, &mut methods, file, method) else {
            return Err(NoMemory);
        };
    }
    Ok(methods)
}

// Appends a field of a file as it is declared (JVMS 4.5).
fn push_declared_field(
    alloc: Global,
    fields: &mut Seq<DeclaredField>,
    file: &ClassFile,
    field: &MemberInfo,
) -> Result<(), NoMemory>
    ensures { OnOk result (fields.new ≡ fields.old ++ declared_field file.now field.now ∷ []) }
{
    let Ok(name) = Units::from_slice(alloc, member_name(file, field)) else {
        return Err(NoMemory);
    };
    let Ok(descriptor) = Units::from_slice(alloc, member_descriptor(file, field)) else {
        return Err(NoMemory);
    };
    let Ok(()) = fields.push(DeclaredField { name, descriptor }) else {
        return Err(NoMemory);
    };
    Ok(())
}

/// The fields of a file as they are declared, in their order.
pub fn declared_fields(alloc: Global, file: &ClassFile) -> Result<Seq<DeclaredField>, NoMemory>
    ensures { IfOk result (λ fields. fields ≡ map (declared_field file.now) file.now.fields) }
{
    let mut fields = Seq::new(alloc);
    for field in file.fields.as_slice() {
        let Ok(()) = push_declared_field(alloc, &mut fields, file, field) else {
            return Err(NoMemory);
        };
    }
    Ok(fields)
}
