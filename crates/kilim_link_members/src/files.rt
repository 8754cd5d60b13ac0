//! The classes of files, and their members class by class.

ghost use Rattle.std.specs.Prelude.{◌≡◌, IfOk};
ghost use Rattle.kilim_link_spec.specs.Types.{each_of, itself};
ghost use Rattle.kilim_link_spec.specs.Linked.{linked_class, linked_field, linked_method, members, numbered};
ghost use Rattle.kilim_link_code.specs.Each.{behind};
ghost use Rattle.kilim_link_members.specs.Each.{if_all};

use crate::classes::{linked_class, next};
use crate::fields::linked_field;
use crate::methods::linked_method;
use kilim_class_file::ClassFile;
use kilim_link_world::World;
use kilim_program::{Class, ClassId, Field, Method};
use kilim_units::{NoMemory, Seq};
use std::alloc::Global;

// Appends the classes of files, and answers whether all are there.
fn push_classes(
    alloc: Global,
    into: &mut Seq<Class>,
    world: &World,
    files: &[ClassFile],
) -> Result<bool, NoMemory>
    ensures { IfOk result (λ all. behind into.old (each_of itself (numbered (linked_class world.now) 0 files.now)) ≡ if_all all into.new) }
{
    let mut number = 0;
    for file in files {
        match linked_class(alloc, world, file, ClassId(number)) {
            Ok(Some(class)) => {
                let Ok(()) = into.push(class) else {
                    return Err(NoMemory);
                };
            }
            Ok(None) => return Ok(false),
            Err(fault) => return Err(fault),
        }
        number = match next(number) {
            Ok(n) => n,
            Err(fault) => return Err(fault),
        };
    }
    Ok(true)
}

/// The classes of some files in a program, numbered from 0; none where one of them isn't there. More than
/// 4,294,967,295 files are answered as want of memory.
pub fn linked_classes(
    alloc: Global,
    world: &World,
    files: &[ClassFile],
) -> Result<Option<Seq<Class>>, NoMemory>
    ensures { IfOk result (λ classes. classes ≡ each_of itself (numbered (linked_class world.now) 0 files.now)) }
{
    let mut classes = Seq::new(alloc);
    match push_classes(alloc, &mut classes, world, files) {
        Ok(true) => Ok(Some(classes)),
        Ok(false) => {
            drop(classes);
            Ok(None)
        }
        Err(fault) => {
            drop(classes);
            Err(fault)
        }
    }
}

// Appends the fields of a class, and answers whether all are there.
fn push_fields(
    alloc: Global,
    into: &mut Seq<Field>,
    world: &World,
    file: &ClassFile,
    class: ClassId,
) -> Result<bool, NoMemory>
    ensures { IfOk result (λ all. behind into.old (each_of (linked_field world.now file.now class) file.now.fields) ≡ if_all all into.new) }
{
    for field in file.fields.as_slice() {
        match linked_field(alloc, world, file, class, field) {
            Ok(Some(found)) => {
                let Ok(()) = into.push(found) else {
                    return Err(NoMemory);
                };
            }
            Ok(None) => return Ok(false),
            Err(fault) => return Err(fault),
        }
    }
    Ok(true)
}

// Appends the fields of files, class by class, and answers whether all are there.
fn push_all_fields(
    alloc: Global,
    into: &mut Seq<Field>,
    world: &World,
    files: &[ClassFile],
) -> Result<bool, NoMemory>
    ensures { IfOk result (λ all. behind into.old (each_of itself (members (λ file. file.fields) (linked_field world.now) files.now)) ≡ if_all all into.new) }
{
    let mut number = 0;
    for file in files {
        match push_fields(alloc, into, world, file, ClassId(number)) {
            Ok(true) => {}
            Ok(false) => return Ok(false),
            Err(fault) => return Err(fault),
        }
        number = match next(number) {
            Ok(n) => n,
            Err(fault) => return Err(fault),
        };
    }
    Ok(true)
}

/// The fields of some files in a program, class by class, the classes numbered from 0; none where one of them isn't
/// there. More than 4,294,967,295 files are answered as want of memory.
pub fn linked_fields(
    alloc: Global,
    world: &World,
    files: &[ClassFile],
) -> Result<Option<Seq<Field>>, NoMemory>
    ensures { IfOk result (λ fields. fields ≡ each_of itself (members (λ file. file.fields) (linked_field world.now) files.now)) }
{
    let mut fields = Seq::new(alloc);
    match push_all_fields(alloc, &mut fields, world, files) {
        Ok(true) => Ok(Some(fields)),
        Ok(false) => {
            drop(fields);
            Ok(None)
        }
        Err(fault) => {
            drop(fields);
            Err(fault)
        }
    }
}

// Appends the methods of a class, and answers whether all are there.
fn push_methods(
    alloc: Global,
    into: &mut Seq<Method>,
    world: &World,
    file: &ClassFile,
    class: ClassId,
) -> Result<bool, NoMemory>
    ensures { IfOk result (λ all. behind into.old (each_of (linked_method world.now file.now class) file.now.methods) ≡ if_all all into.new) }
{
    for method in file.methods.as_slice() {
        match linked_method(alloc, world, file, class, method) {
            Ok(Some(found)) => {
                let Ok(()) = into.push(found) else {
                    return Err(NoMemory);
                };
            }
            Ok(None) => return Ok(false),
            Err(fault) => return Err(fault),
        }
    }
    Ok(true)
}

// Appends the methods of files, class by class, and answers whether all are there.
fn push_all_methods(
    alloc: Global,
    into: &mut Seq<Method>,
    world: &World,
    files: &[ClassFile],
) -> Result<bool, NoMemory>
    ensures { IfOk result (λ all. behind into.old (each_of itself (members (λ file. file.methods) (linked_method world.now) files.now)) ≡ if_all all into.new) }
{
    let mut number = 0;
    for file in files {
        match push_methods(alloc, into, world, file, ClassId(number)) {
            Ok(true) => {}
            Ok(false) => return Ok(false),
            Err(fault) => return Err(fault),
        }
        number = match next(number) {
            Ok(n) => n,
            Err(fault) => return Err(fault),
        };
    }
    Ok(true)
}

/// The methods of some files in a program, class by class, the classes numbered from 0; none where one of them isn't
/// there. More than 4,294,967,295 files are answered as want of memory.
pub fn linked_methods(
    alloc: Global,
    world: &World,
    files: &[ClassFile],
) -> Result<Option<Seq<Method>>, NoMemory>
    ensures { IfOk result (λ methods. methods ≡ each_of itself (members (λ file. file.methods) (linked_method world.now) files.now)) }
{
    let mut methods = Seq::new(alloc);
    match push_all_methods(alloc, &mut methods, world, files) {
        Ok(true) => Ok(Some(methods)),
        Ok(false) => {
            drop(methods);
            Ok(None)
        }
        Err(fault) => {
            drop(methods);
            Err(fault)
        }
    }
}
