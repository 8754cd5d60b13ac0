//! The types that a file names, by what is asked of them.

ghost use Rattle.std.specs.Prelude.{◌≡◌, [], ◌∷◌, ◌++◌, ◌||◌, ◌&&◌, true, map, IfOk, OnOk};
ghost use Rattle.std.specs.List.{flat_map, list_any};
ghost use Rattle.std.specs.Option.{option_copied};
ghost use Rattle.kilim_link_spec.specs.LeftOut.{has_float, has_task_array, is_float_base, is_float_mention, is_task_base};
ghost use Rattle.kilim_link_spec.specs.Mentions.{all_types, element_types, mentions_of, named_types, types_mentioned};
ghost use Rattle.kilim_link_spec.specs.Types.{field_text, method_text, method_types, result_types, types_of_field, types_of_method};
ghost use Rattle.kilim_link_file_faults.specs.Shapes.{shape_of};

use kilim_class_descriptors::{BaseText, FieldText, MethodText};
use kilim_class_file::ClassFile;
use kilim_link_mentions::{field_text, method_text};
use kilim_link_spec::{Mention, Named};
use kilim_link_world::World;
use kilim_units::{NoMemory, Units};
use std::alloc::Global;

/// A type of any number of dimensions: whether it is an array, and its element.
#[derive(Drop)]
pub struct Shape {
    pub is_array: bool,
    pub base: BaseText,
}

fn push_shape(into: &mut Vec<Shape>, found: &FieldText) -> Result<(), NoMemory>
    ensures { OnOk result (into.new.items ≡ into.old.items ++ shape_of found.now ∷ []) }
{
    let Ok(base) = found.base.clone() else {
        return Err(NoMemory);
    };
    let is_array = 0 < found.dims;
    let Ok(()) = into.push(Shape { is_array, base }) else {
        return Err(NoMemory);
    };
    Ok(())
}

fn push_each(into: &mut Vec<Shape>, types: &[FieldText]) -> Result<(), NoMemory>
    ensures { OnOk result (into.new.items ≡ into.old.items ++ map shape_of types.now) }
{
    for found in types {
        let Ok(()) = push_shape(into, found) else {
            return Err(NoMemory);
        };
    }
    Ok(())
}

fn push_result(into: &mut Vec<Shape>, found: Option<&FieldText>) -> Result<(), NoMemory>
    ensures { OnOk result (into.new.items ≡ into.old.items ++ map shape_of (result_types (option_copied found.entry))) }
{
    match found {
        Some(found) => push_shape(into, found),
        None => Ok(()),
    }
}

#[tactic(auto, using(crate::proofs::Shaped::both))]
fn push_method_types(into: &mut Vec<Shape>, method: &MethodText) -> Result<(), NoMemory>
    ensures { OnOk result (into.new.items ≡ into.old.items ++ map shape_of (method_types method.now)) }
{
    push_each(into, method.params.as_slice())?;
    push_result(into, method.result.as_ref())
}

fn push_method(alloc: Global, into: &mut Vec<Shape>, descriptor: &Units) -> Result<(), NoMemory>
    ensures { OnOk result (into.new.items ≡ into.old.items ++ map shape_of (types_of_method (method_text descriptor.now))) }
{
    match method_text(alloc, descriptor) {
        Ok(Some(found)) => push_method_types(into, &found),
        Ok(None) => Ok(()),
        Err(fault) => Err(fault),
    }
}

fn push_field(alloc: Global, into: &mut Vec<Shape>, descriptor: &Units) -> Result<(), NoMemory>
    ensures { OnOk result (into.new.items ≡ into.old.items ++ map shape_of (types_of_field (field_text descriptor.now))) }
{
    match field_text(alloc, descriptor) {
        Ok(Some(found)) => push_shape(into, &found),
        Ok(None) => Ok(()),
        Err(fault) => Err(fault),
    }
}

fn push_named(into: &mut Vec<Shape>, class: &Named) -> Result<(), NoMemory>
    ensures { OnOk result (into.new.items ≡ into.old.items ++ map shape_of (named_types class.now)) }
{
    match class {
        Named::AnArray(found) => push_shape(into, found),
        Named::AClass(_) | Named::Malformed(_) => Ok(()),
    }
}

// Appends an array of an element.
fn push_array(into: &mut Vec<Shape>, base: BaseText) -> Result<(), NoMemory>
    ensures { OnOk result (into.new.items ≡ into.old.items ++ record { is_array = true; base = base } ∷ []) }
{
    let is_array = true;
    match into.push(Shape { is_array, base }) {
        Ok(()) => Ok(()),
        Err(_) => Err(NoMemory),
    }
}

// Of an array of any dimensions one more is an array.
fn push_element(into: &mut Vec<Shape>, class: &Named) -> Result<(), NoMemory>
    ensures { OnOk result (into.new.items ≡ into.old.items ++ map shape_of (element_types class.now)) }
{
    match class {
        Named::AClass(name) => match name.clone() {
            Ok(name) => push_array(into, BaseText::Class(name)),
            Err(_) => Err(NoMemory),
        },
        Named::AnArray(found) => match found.base.clone() {
            Ok(base) => push_array(into, base),
            Err(_) => Err(NoMemory),
        },
        Named::Malformed(_) => Ok(()),
    }
}

fn push_types(alloc: Global, into: &mut Vec<Shape>, mention: &Mention) -> Result<(), NoMemory>
    ensures { OnOk result (into.new.items ≡ into.old.items ++ map shape_of (types_mentioned mention.now)) }
{
    match mention {
        Mention::OfClass(class) => push_named(into, class),
        Mention::OfElement(class) => push_element(into, class),
        Mention::OfField(descriptor) => push_field(alloc, into, descriptor),
        Mention::OfMethod(_, descriptor) => push_method(alloc, into, descriptor),
        Mention::OfFloat => Ok(()),
    }
}

fn push_types_of_each(
    alloc: Global,
    into: &mut Vec<Shape>,
    mentions: &[Mention],
) -> Result<(), NoMemory>
    ensures { OnOk result (into.new.items ≡ into.old.items ++ flat_map (λ m. map shape_of (types_mentioned m)) mentions.now) }
{
    for mention in mentions {
        let Ok(()) = push_types(alloc, into, mention) else {
            return Err(NoMemory);
        };
    }
    Ok(())
}

/// All types in what is mentioned, in order, of any number of dimensions.
pub fn shapes(alloc: Global, mentions: &[Mention]) -> Result<Vec<Shape>, NoMemory>
    ensures { IfOk result (λ shapes. shapes.items ≡ flat_map (λ m. map shape_of (types_mentioned m)) mentions.now) }
{
    let mut shapes = Vec::new(alloc);
    let Ok(()) = push_types_of_each(alloc, &mut shapes, mentions) else {
        return Err(NoMemory);
    };
    Ok(shapes)
}

fn is_float_base(base: &BaseText) -> bool
    ensures { result ≡ is_float_base base.now }
{
    match base {
        BaseText::Float | BaseText::Double => true,
        _ => false,
    }
}

fn is_float_mention(mention: &Mention) -> bool
    ensures { result ≡ is_float_mention mention.now }
{
    match mention {
        Mention::OfFloat => true,
        _ => false,
    }
}

fn has_float_base(shapes: &[Shape]) -> bool
    ensures { result ≡ list_any (λ s. is_float_base s.base) shapes.now }
{
    for shape in shapes {
        if is_float_base(&shape.base) {
            return true;
        }
    }
    false
}

fn has_float_slot(mentions: &[Mention]) -> bool
    ensures { result ≡ list_any is_float_mention mentions.now }
{
    for mention in mentions {
        if is_float_mention(mention) {
            return true;
        }
    }
    false
}

/// Whether a descriptor, the name of an array or a frame has a float or double type (own). Takes what the file names,
/// and the types in that.
#[tactic(auto, using(crate::proofs::Shaped::floats), unfolding(kilim_link_spec::specs::Mentions::all_types))]
pub fn has_float(file: &ClassFile, mentions: &[Mention], shapes: &[Shape]) -> bool
    requires named { mentions.now ≡ mentions_of file.now }
    requires shaped { shapes.now ≡ flat_map (λ m. map shape_of (types_mentioned m)) mentions.now }
    ensures { result ≡ has_float file.now }
{
    has_float_base(shapes) || has_float_slot(mentions)
}

// Whether a base is `kilim/Task`, or a class below it.
fn is_task_base(world: &World, base: &BaseText) -> bool
    ensures { result ≡ is_task_base world.now base.now }
{
    match base {
        BaseText::Class(name) => match world.class_of(name) {
            Some(class) => world.outline().is_task(class),
            None => false,
        },
        _ => false,
    }
}

fn is_task_array(world: &World, shape: &Shape) -> bool
    ensures { result ≡ (shape.now.is_array && is_task_base world.now shape.now.base) }
{
    shape.is_array && is_task_base(world, &shape.base)
}

fn any_task_array(world: &World, shapes: &[Shape]) -> bool
    ensures { result ≡ list_any (λ s. s.is_array && is_task_base world.now s.base) shapes.now }
{
    for shape in shapes {
        if is_task_array(world, shape) {
            return true;
        }
    }
    false
}

/// Whether the file names an array of tasks, in any number of dimensions (own). Takes what it names, and the types in
/// that.
#[tactic(auto, using(crate::proofs::Shaped::tasks), unfolding(kilim_link_spec::specs::Mentions::all_types))]
pub fn has_task_array(
    world: &World,
    file: &ClassFile,
    mentions: &[Mention],
    shapes: &[Shape],
) -> bool
    requires named { mentions.now ≡ mentions_of file.now }
    requires shaped { shapes.now ≡ flat_map (λ m. map shape_of (types_mentioned m)) mentions.now }
    ensures { result ≡ has_task_array world.now file.now }
{
    any_task_array(world, shapes)
}
