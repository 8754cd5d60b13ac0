//! The class of a file.

ghost use Rattle.std.specs.Prelude.{◌≡◌, IfOk, codes};
ghost use Rattle.std.specs.List.{list_any};
ghost use Rattle.std.specs.Str.{bytes_eq};
ghost use Rattle.kilim_link_spec.specs.World.{interface_names, view_of_file};

use crate::members::{declared_fields, declared_methods};
use crate::names::{has_flag, is_any_named, own_name, super_name};
use kilim_class_file::ClassFile;
use kilim_link_spec::ClassView;
use kilim_units::{NoMemory, Units};
use std::alloc::Global;

// ACC_FINAL and ACC_ABSTRACT (JVMS table 4.1-A).
const FINAL: u16 = 0x0010;

const ABSTRACT: u16 = 0x0400;

// Whether `kilim/Message` is one of the interfaces that a file lists.
fn is_marked(file: &ClassFile) -> bool
    ensures { result ≡ list_any (λ name. bytes_eq name (codes "kilim/Message")) (interface_names file.now) }
{
    let interfaces = file.interfaces.as_slice();
    is_any_named(&file.constant_pool, interfaces, b"kilim/Message")
}

/// The class of a file as it is declared (JVMS 4.1). Takes linear time.
pub fn view_of_file(alloc: Global, file: &ClassFile) -> Result<ClassView, NoMemory>
    ensures { IfOk result (λ view. view ≡ view_of_file file.now) }
{
    let Ok(name) = Units::from_slice(alloc, own_name(file)) else {
        return Err(NoMemory);
    };
    let Ok(superclass) = Units::from_slice(alloc, super_name(file)) else {
        return Err(NoMemory);
    };
    let Ok(fields) = declared_fields(alloc, file) else {
        return Err(NoMemory);
    };
    let Ok(methods) = declared_methods(alloc, file) else {
        return Err(NoMemory);
    };
    let flags = file.access_flags;
    Ok(ClassView {
        name,
        superclass: Some(superclass),
        is_marked: is_marked(file),
        is_abstract: has_flag(ABSTRACT, flags),
        is_final: has_flag(FINAL, flags),
        is_built_in: false,
        fields,
        methods,
    })
}
