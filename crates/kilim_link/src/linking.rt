//! Class files to a program.

ghost use Rattle.std.specs.Prelude.{◌≡◌, ◌<◌, ◌≤◌, ◌^◌, ◌++◌, [], length, IfOk};
ghost use Rattle.std.specs.List.{AllByRecursion};
ghost use Rattle.kilim_class_file.specs.Text.{ClassFits};
ghost use Rattle.kilim_program.specs.BuiltIn.{built_in_classes_in, built_in_fields, built_in_methods_in};
ghost use Rattle.kilim_link_spec.specs.Faults.{link_faults};
ghost use Rattle.kilim_link_spec.specs.Linked.{Linked, program_with};
ghost use Rattle.kilim_link_spec.specs.World.{world_of};
ghost use Rattle.kilim_link.specs.Linking.{IsLinkOf, Made};

use crate::laws::{links_keep, no_fault_is_a_program};
use kilim_class_file::ClassFile;
use kilim_link_faults::first_fault;
use kilim_link_members::{linked_classes, linked_fields, linked_methods};
use kilim_link_spec::{LinkFault, linked_in_parts, none_is_named};
use kilim_link_views::built_ins::{built_in_classes, built_in_fields, built_in_methods};
use kilim_link_world::World;
use kilim_program::{Class, Field, Form, Method, Program};
use kilim_units::{NoMemory, Seq};
use std::alloc::Global;

// What some files make: their classes, fields and methods.
#[derive(Drop)]
pub struct Parts {
    pub classes: Seq<Class>,
    pub fields: Seq<Field>,
    pub methods: Seq<Method>,
}

// The parts of files without a fault, which are all there.
fn parts_of(
    alloc: Global,
    world: &World,
    files: &[ClassFile],
    form: Form,
) -> Result<Parts, NoMemory>
    requires few { length files.now ≤ 1000 }
    requires fit { AllByRecursion ClassFits files.now }
    requires whole { world.now ≡ world_of files.now form }
    requires none { link_faults files.now form ≡ [] }
    ensures { IfOk result (λ parts. Made files.now form parts) }
{
    no_fault_is_a_program();
    linked_in_parts();
    let Some(classes) = linked_classes(alloc, world, files)? else {
        unreachable!()
    };
    let Some(fields) = linked_fields(alloc, world, files)? else {
        unreachable!()
    };
    let Some(methods) = linked_methods(alloc, world, files)? else {
        unreachable!()
    };
    Ok(Parts {
        classes,
        fields,
        methods,
    })
}

// All classes: those of the files, and the built-in ones behind them.
fn all_classes(
    alloc: Global,
    form: Form,
    own: Seq<Class>,
    methods: u32,
) -> Result<Seq<Class>, NoMemory>
    requires few { length own ≤ 1000 }
    requires bounded { methods < 2 ^ 31 }
    ensures { IfOk result (λ classes. classes ≡ own ++ built_in_classes_in form (length own) methods) }
{
    let first = own.len() as u32;
    let mut classes = own.into_vec();
    let Ok(built_in) = built_in_classes(alloc, form, first, methods) else {
        return Err(NoMemory);
    };
    let mut built_in = built_in.into_vec();
    let Ok(()) = classes.append(&mut built_in) else {
        return Err(NoMemory);
    };
    Ok(Seq::from_vec(classes))
}

// All methods: those of the files, and the built-in ones behind them.
fn all_methods(
    alloc: Global,
    form: Form,
    own: Seq<Method>,
    classes: u32,
) -> Result<Seq<Method>, NoMemory>
    requires { classes < 2 ^ 31 }
    ensures { IfOk result (λ methods. methods ≡ own ++ built_in_methods_in form classes) }
{
    let mut methods = own.into_vec();
    let Ok(built_in) = built_in_methods(alloc, form, classes) else {
        return Err(NoMemory);
    };
    let mut built_in = built_in.into_vec();
    let Ok(()) = methods.append(&mut built_in) else {
        return Err(NoMemory);
    };
    Ok(Seq::from_vec(methods))
}

// All fields: the built-in one, and those of the files behind it.
fn all_fields(alloc: Global, own: Seq<Field>, classes: u32) -> Result<Seq<Field>, NoMemory>
    requires { classes < 2 ^ 31 }
    ensures { IfOk result (λ fields. fields ≡ built_in_fields classes ++ own) }
{
    let Ok(built_in) = built_in_fields(alloc, classes) else {
        return Err(NoMemory);
    };
    let mut fields = built_in.into_vec();
    let mut own = own.into_vec();
    let Ok(()) = fields.append(&mut own) else {
        return Err(NoMemory);
    };
    Ok(Seq::from_vec(fields))
}

// The program of files without a fault.
fn program_of(
    alloc: Global,
    world: &World,
    files: &[ClassFile],
    form: Form,
) -> Result<Program, NoMemory>
    requires few { length files.now ≤ 1000 }
    requires fit { AllByRecursion ClassFits files.now }
    requires whole { world.now ≡ world_of files.now form }
    requires none { link_faults files.now form ≡ [] }
    ensures { IfOk result (λ p. Linked files.now form p) }
{
    links_keep();
    let Ok(parts) = parts_of(alloc, world, files, form) else {
        return Err(NoMemory);
    };
    let count = parts.methods.len() as u32;
    let Ok(classes) = all_classes(alloc, form, parts.classes, count) else {
        return Err(NoMemory);
    };
    let Ok(methods) = all_methods(alloc, form, parts.methods, files.len() as u32) else {
        return Err(NoMemory);
    };
    let Ok(fields) = all_fields(alloc, parts.fields, files.len() as u32) else {
        return Err(NoMemory);
    };
    Ok(Program {
        classes,
        methods,
        fields,
        form,
    })
}

// The same, where want of memory is a fault of linking.
fn program_or_memory(
    alloc: Global,
    world: &World,
    files: &[ClassFile],
    form: Form,
) -> Result<Program, LinkFault>
    requires few { length files.now ≤ 1000 }
    requires fit { AllByRecursion ClassFits files.now }
    requires whole { world.now ≡ world_of files.now form }
    requires none { link_faults files.now form ≡ [] }
    ensures { IsLinkOf files.now form result }
{
    match program_of(alloc, world, files, form) {
        Ok(program) => Ok(program),
        Err(_) => Err(LinkFault::Memory),
    }
}

// The program of files in their world, or the first fault.
fn link_in(
    alloc: Global,
    world: &World,
    files: &[ClassFile],
    form: Form,
) -> Result<Program, LinkFault>
    requires few { length files.now ≤ 1000 }
    requires fit { AllByRecursion ClassFits files.now }
    requires whole { world.now ≡ world_of files.now form }
    ensures { IsLinkOf files.now form result }
{
    none_is_named();
    match first_fault(alloc, world, files, form) {
        Ok(Some(fault)) => Err(fault),
        Ok(None) => program_or_memory(alloc, world, files, form),
        Err(_) => Err(LinkFault::Memory),
    }
}

/// The program to which class files link (JVMS chapter 5, own profile), at most 1,000 of them, each with a text, in
/// plain or in woven form.
///
/// It answers `Ok` exactly where no class has a problem; else the first class in the order of the files that has one,
/// with the first of its problems. Where memory runs out it is `Memory`. It takes time n log n in the number of
/// classes and members.
pub fn link(alloc: Global, files: &[ClassFile], form: Form) -> Result<Program, LinkFault>
    requires few { length files.now ≤ 1000 }
    requires fit { AllByRecursion ClassFits files.now }
    ensures { IsLinkOf files.now form result }
{
    match World::new(alloc, files, form) {
        Ok(world) => {
            let linked = link_in(alloc, &world, files, form);
            drop(world);
            linked
        }
        Err(_) => Err(LinkFault::Memory),
    }
}
