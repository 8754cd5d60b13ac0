//! Static fields that are left out.

ghost use Rattle.std.specs.Prelude.{◌≡◌, ◌&&◌, not, IfOk};
ghost use Rattle.std.specs.List.{list_any, filter_map};
ghost use Rattle.std.specs.Option.{option_copied};
ghost use Rattle.kilim_program.specs.Keeps.{constant_fits};
ghost use Rattle.kilim_link_spec.specs.Code.{constant_ref};
ghost use Rattle.kilim_link_spec.specs.Linked.{constant_by, constant_of, first_of};
ghost use Rattle.kilim_link_spec.specs.LeftOut.{has_its_constant, has_static_field};
ghost use Rattle.kilim_link_spec.specs.World.{acc_static, has_flag};
ghost use Rattle.kilim_link_file_faults.specs.Lefts.{field_type};

use kilim_class_attributes::{Attribute, Info};
use kilim_class_file::{ClassFile, MemberInfo};
use kilim_class_pool::{Entry, Pool};
use kilim_link_mentions::field_text;
use kilim_link_views::{has_flag, member_descriptor, text_of};
use kilim_link_world::World;
use kilim_link_world::types::type_in;
use kilim_program::{Ty, Value};
use kilim_units::{NoMemory, Units};
use std::alloc::Global;

// The int, the long or the text that an entry is (JVMS 4.7.2).
fn constant_ref(
    alloc: Global,
    pool: &Pool,
    entry: Option<&Entry>,
) -> Result<Option<Value>, NoMemory>
    ensures { IfOk result (λ found. found ≡ constant_ref pool.now (option_copied entry.entry)) }
{
    match entry {
        Some(Entry::Integer(n)) => Ok(Some(Value::Int(*n))),
        Some(Entry::Long(n)) => Ok(Some(Value::Long(*n))),
        Some(Entry::String(text)) => match Units::from_slice(alloc, text_of(pool, *text)) {
            Ok(text) => Ok(Some(Value::Text(text))),
            Err(_) => Err(NoMemory),
        },
        _ => Ok(None),
    }
}

fn constant_by(alloc: Global, pool: &Pool, info: &Info) -> Result<Option<Value>, NoMemory>
    ensures { IfOk result (λ found. found ≡ constant_by pool.now info.now) }
{
    match info {
        Info::ConstantValue(index) => constant_ref(alloc, pool, pool.entry(*index)),
        _ => Ok(None),
    }
}

// The first constant of some attributes.
fn first_constant(
    alloc: Global,
    pool: &Pool,
    attributes: &[Attribute],
) -> Result<Option<Value>, NoMemory>
    ensures { IfOk result (λ found. found ≡ first_of (filter_map (λ a. constant_by pool.now a.info) attributes.now)) }
{
    for attribute in attributes {
        match constant_by(alloc, pool, &attribute.info) {
            Err(fault) => return Err(fault),
            Ok(Some(found)) => return Ok(Some(found)),
            Ok(None) => {}
        }
    }
    Ok(None)
}

// The type of a field in the program, where it is there.
fn field_type(
    alloc: Global,
    world: &World,
    file: &ClassFile,
    field: &MemberInfo,
) -> Result<Option<Ty>, NoMemory>
    ensures { IfOk result (λ found. found ≡ field_type world.now file.now field.now) }
{
    let Ok(descriptor) = Units::from_slice(alloc, member_descriptor(file, field)) else {
        return Err(NoMemory);
    };
    match field_text(alloc, &descriptor) {
        Ok(Some(found)) => Ok(type_in(world, &found)),
        Ok(None) => Ok(None),
        Err(fault) => Err(fault),
    }
}

fn fits(world: &World, ty: &Ty, constant: &Option<Value>) -> bool
    ensures { result ≡ constant_fits world.now.outline ty.now constant.now }
{
    world.outline().constant_fits(ty, constant.as_ref())
}

// Whether the ConstantValue of a field is one of a type.
fn has_constant_of(
    alloc: Global,
    world: &World,
    pool: &Pool,
    field: &MemberInfo,
    ty: &Ty,
) -> Result<bool, NoMemory>
    ensures { IfOk result (λ has. has ≡ constant_fits world.now.outline ty.now (constant_of pool.now field.now)) }
{
    let constant = first_constant(alloc, pool, field.attributes.as_slice())?;
    Ok(fits(world, ty, &constant))
}

// The same of its own type.
fn has_its_constant(
    alloc: Global,
    world: &World,
    file: &ClassFile,
    field: &MemberInfo,
    ty: Option<Ty>,
) -> Result<bool, NoMemory>
    ensures { IfOk result (λ has. has ≡ has_its_constant world.now file.now field.now ty) }
{
    match ty {
        None => Ok(false),
        Some(ty) => has_constant_of(alloc, world, &file.constant_pool, field, &ty),
    }
}

// Whether a field is static, and has no constant of its type.
fn is_left_out(
    alloc: Global,
    world: &World,
    file: &ClassFile,
    field: &MemberInfo,
) -> Result<bool, NoMemory>
    ensures { IfOk result (λ left. left ≡ (has_flag acc_static field.now.access_flags && not (has_its_constant world.now file.now field.now (field_type world.now file.now field.now)))) }
{
    if !has_flag(0x0008, field.access_flags) {
        return Ok(false);
    }
    let Ok(ty) = field_type(alloc, world, file, field) else {
        return Err(NoMemory);
    };
    let Ok(has_constant) = has_its_constant(alloc, world, file, field, ty) else {
        return Err(NoMemory);
    };
    Ok(!has_constant)
}

/// Whether a static field has no ConstantValue of its type (JVMS 4.7.2, own).
pub fn has_static_field(alloc: Global, world: &World, file: &ClassFile) -> Result<bool, NoMemory>
    ensures { IfOk result (λ has. has ≡ has_static_field world.now file.now) }
{
    for field in file.fields.as_slice() {
        match is_left_out(alloc, world, file, field) {
            Err(fault) => return Err(fault),
            Ok(true) => return Ok(true),
            Ok(false) => {}
        }
    }
    Ok(false)
}
