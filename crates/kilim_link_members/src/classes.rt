//! Classes.

ghost use Rattle.std.specs.Prelude.{◌≡◌, ◌+◌, Some, map, IfOk};
ghost use Rattle.std.specs.List.{range_with_len};
ghost use Rattle.kilim_program.specs.BuiltIn.{method_id};
ghost use Rattle.kilim_link_spec.specs.World.{class_of, super_name, field_id};
ghost use Rattle.kilim_link_spec.specs.Linked.{linked_class};

use kilim_class_file::ClassFile;
use kilim_link_views::{has_flag, own_name, super_name};
use kilim_link_world::World;
use kilim_program::{Class, ClassId, FieldId, MethodId};
use kilim_units::{NoMemory, Seq, Units, no_room};
use std::alloc::Global;

// ACC_ABSTRACT (JVMS table 4.1-A).
const ABSTRACT: u16 = 0x0400;

/// The number behind one; 4,294,967,296 is answered as want of memory.
pub fn next(number: u32) -> Result<u32, NoMemory>
    ensures { IfOk result (λ n. n ≡ number + 1) }
{
    match number.checked_add(1) {
        Some(n) => Ok(n),
        // room: 2^32 classes, methods or fields
        None => Err(no_room()),
    }
}

// So many fields from a first one on.
fn field_ids(alloc: Global, first: u32, count: usize) -> Result<Seq<FieldId>, NoMemory>
    ensures { IfOk result (λ ids. ids ≡ map field_id (range_with_len first count)) }
{
    let mut ids = Seq::new(alloc);
    let mut number = first;
    for _ in 0..count {
        let Ok(()) = ids.push(FieldId(number)) else {
            return Err(NoMemory);
        };
        number = match next(number) {
            Ok(n) => n,
            Err(fault) => return Err(fault),
        };
    }
    Ok(ids)
}

// So many methods from a first one on.
fn method_ids(alloc: Global, first: u32, count: usize) -> Result<Seq<MethodId>, NoMemory>
    ensures { IfOk result (λ ids. ids ≡ map method_id (range_with_len first count)) }
{
    let mut ids = Seq::new(alloc);
    let mut number = first;
    for _ in 0..count {
        let Ok(()) = ids.push(MethodId(number)) else {
            return Err(NoMemory);
        };
        number = match next(number) {
            Ok(n) => n,
            Err(fault) => return Err(fault),
        };
    }
    Ok(ids)
}

// A class with this superclass.
fn class_with(
    alloc: Global,
    world: &World,
    file: &ClassFile,
    class: ClassId,
    up: ClassId,
) -> Result<Option<Class>, NoMemory>
    requires { class_of world.now (super_name file.now) ≡ Some up }
    ensures { IfOk result (λ found. found ≡ linked_class world.now file.now class) }
{
    let Ok(fields) = field_ids(alloc, world.first_field(class), file.fields.len()) else {
        return Err(NoMemory);
    };
    let Ok(methods) = method_ids(alloc, world.first_method(class), file.methods.len()) else {
        return Err(NoMemory);
    };
    let Ok(name) = Units::from_slice(alloc, own_name(file)) else {
        return Err(NoMemory);
    };
    Ok(Some(Class {
        name,
        superclass: Some(up),
        is_abstract: has_flag(ABSTRACT, file.access_flags),
        message: world.is_message(class),
        fields,
        methods,
    }))
}

/// A class in a program (JVMS 4.1), where its superclass is there: its members have the numbers from its first one on in
/// the world. Numbers of 4,294,967,295 or more, which no files have, are answered as want of memory.
pub fn linked_class(
    alloc: Global,
    world: &World,
    file: &ClassFile,
    class: ClassId,
) -> Result<Option<Class>, NoMemory>
    ensures { IfOk result (λ found. found ≡ linked_class world.now file.now class) }
{
    let Ok(name) = Units::from_slice(alloc, super_name(file)) else {
        return Err(NoMemory);
    };
    match world.class_of(&name) {
        Some(up) => class_with(alloc, world, file, class, up),
        None => Ok(None),
    }
}
