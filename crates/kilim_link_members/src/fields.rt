//! Fields.

ghost use Rattle.std.specs.Prelude.{◌≡◌, Some, None, if◌then◌else◌, IfOk};
ghost use Rattle.std.specs.List.{filter_map};
ghost use Rattle.kilim_class_pool.specs.Entries.{entry_at};
ghost use Rattle.kilim_link_spec.specs.World.{has_flag, acc_static};
ghost use Rattle.kilim_link_spec.specs.Code.{constant_ref};
ghost use Rattle.kilim_link_spec.specs.Linked.{constant_by, first_of, constant_of, field_with, linked_field};

use kilim_class_attributes::{Attribute, Info};
use kilim_class_file::{ClassFile, MemberInfo};
use kilim_class_pool::{Entry, Pool};
use kilim_link_mentions::field_text;
use kilim_link_views::{has_flag, member_descriptor, member_name, text_of};
use kilim_link_world::World;
use kilim_link_world::types::type_in;
use kilim_program::{ClassId, Field, Ty, Value};
use kilim_units::{NoMemory, Units};
use std::alloc::Global;

// ACC_PRIVATE and ACC_STATIC (JVMS table 4.5-A).
const PRIVATE: u16 = 0x0002;

const STATIC: u16 = 0x0008;

// An Integer, a Long or a String of the pool; none where another entry stands there.
fn constant_at(alloc: Global, pool: &Pool, index: u16) -> Result<Option<Value>, NoMemory>
    ensures { IfOk result (λ value. value ≡ constant_ref pool.now (entry_at pool.now index)) }
{
    match pool.entry(index) {
        Some(Entry::Integer(n)) => Ok(Some(Value::Int(*n))),
        Some(Entry::Long(n)) => Ok(Some(Value::Long(*n))),
        Some(Entry::String(text)) => match Units::from_slice(alloc, text_of(pool, *text)) {
            Ok(units) => Ok(Some(Value::Text(units))),
            Err(_) => Err(NoMemory),
        },
        _ => Ok(None),
    }
}

// The constant of a ConstantValue; none of another attribute.
fn constant_by(alloc: Global, pool: &Pool, info: &Info) -> Result<Option<Value>, NoMemory>
    ensures { IfOk result (λ value. value ≡ constant_by pool.now info.now) }
{
    match info {
        Info::ConstantValue(index) => constant_at(alloc, pool, *index),
        _ => Ok(None),
    }
}

// The first constant of some attributes.
fn first_constant(
    alloc: Global,
    pool: &Pool,
    attributes: &[Attribute],
) -> Result<Option<Value>, NoMemory>
    ensures { IfOk result (λ value. value ≡ first_of (filter_map (λ a. constant_by pool.now a.info) attributes.now)) }
{
    for attribute in attributes {
        match constant_by(alloc, pool, &attribute.info) {
            Ok(Some(value)) => return Ok(Some(value)),
            Ok(None) => {}
            Err(fault) => return Err(fault),
        }
    }
    Ok(None)
}

// The constant of a static field; none of another one.
fn constant_if_static(
    alloc: Global,
    pool: &Pool,
    field: &MemberInfo,
) -> Result<Option<Value>, NoMemory>
    ensures { IfOk result (λ value. value ≡ (if has_flag acc_static field.now.access_flags then constant_of pool.now field.now else None)) }
{
    if has_flag(STATIC, field.access_flags) {
        first_constant(alloc, pool, field.attributes.as_slice())
    } else {
        Ok(None)
    }
}

// A field of this type.
fn field_with(
    alloc: Global,
    file: &ClassFile,
    class: ClassId,
    field: &MemberInfo,
    ty: Ty,
) -> Result<Option<Field>, NoMemory>
    ensures { IfOk result (λ found. found ≡ Some (field_with file.now class field.now ty)) }
{
    let Ok(name) = Units::from_slice(alloc, member_name(file, field)) else {
        return Err(NoMemory);
    };
    let Ok(constant) = constant_if_static(alloc, &file.constant_pool, field) else {
        return Err(NoMemory);
    };
    Ok(Some(Field {
        name,
        ty,
        owner: class,
        is_static: has_flag(STATIC, field.access_flags),
        is_private: has_flag(PRIVATE, field.access_flags),
        constant,
    }))
}

/// A field of a class in a program (JVMS 4.5), where its type is there; a static one with its constant (JVMS 4.7.2),
/// while the ConstantValue of another one is ignored.
pub fn linked_field(
    alloc: Global,
    world: &World,
    file: &ClassFile,
    class: ClassId,
    field: &MemberInfo,
) -> Result<Option<Field>, NoMemory>
    ensures { IfOk result (λ found. found ≡ linked_field world.now file.now class field.now) }
{
    let Ok(descriptor) = Units::from_slice(alloc, member_descriptor(file, field)) else {
        return Err(NoMemory);
    };
    let Ok(found) = field_text(alloc, &descriptor) else {
        return Err(NoMemory);
    };
    let Some(text) = found else {
        return Ok(None);
    };
    let ty = type_in(world, &text);
    drop(text);
    match ty {
        Some(ty) => field_with(alloc, file, class, field, ty),
        None => Ok(None),
    }
}
