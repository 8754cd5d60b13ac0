//! The locals with which a method begins.

ghost use Rattle.std.specs.Prelude.{◌≡◌, ◌++◌, map, option_map, IfOk, OnOk};
ghost use Rattle.kilim_link_spec.specs.Types.{method_text, type_in};
ghost use Rattle.kilim_link_spec.specs.Qualified.{is_constructor_name, params_of};
ghost use Rattle.kilim_link_spec.specs.Frames.{receiver_entry, entry_locals, slot_of_type};

use crate::frames::slots::slot_of_type;
use kilim_class_descriptors::FieldText;
use kilim_link_mentions::method_text;
use kilim_link_spec::DeclaredMethod;
use kilim_link_world::World;
use kilim_link_world::types::type_in;
use kilim_program::{Base, ClassId, Ty, VType};
use kilim_units::{NoMemory, Seq, Units};
use std::alloc::Global;

// Whether a method of this name is a constructor (JVMS 2.9).
fn is_constructor_name(name: &Units) -> bool
    ensures { result ≡ is_constructor_name name.now }
{
    name.is_text(b"<init>")
}

// Appends `this`, which in a constructor isn't initialized yet; nothing for a static method.
fn push_receiver(
    into: &mut Seq<Option<VType>>,
    class: ClassId,
    method: &DeclaredMethod,
) -> Result<(), NoMemory>
    ensures { OnOk result (into.new ≡ into.old ++ receiver_entry class method.now) }
{
    if method.is_static {
        return Ok(());
    }
    if is_constructor_name(&method.name) {
        let Ok(()) = into.push(Some(VType::UninitThis)) else {
            return Err(NoMemory);
        };
    } else {
        let ty = Ty {
            dims: 0,
            base: Base::Class(class),
        };
        let Ok(()) = into.push(Some(VType::Object(ty))) else {
            return Err(NoMemory);
        };
    }
    Ok(())
}

// The type of an argument, where it is there.
fn argument(world: &World, text: &FieldText) -> Option<VType>
    ensures { result ≡ option_map slot_of_type (type_in world.now text.now) }
{
    match type_in(world, text) {
        Some(ty) => Some(slot_of_type(ty)),
        None => None,
    }
}

// Appends the arguments of these types.
fn push_arguments(
    into: &mut Seq<Option<VType>>,
    world: &World,
    params: &[FieldText],
) -> Result<(), NoMemory>
    ensures { OnOk result (into.new ≡ into.old ++ map (λ f. option_map slot_of_type (type_in world.now f)) params.now) }
{
    for text in params {
        let Ok(()) = into.push(argument(world, text)) else {
            return Err(NoMemory);
        };
    }
    Ok(())
}

// Appends `this` and the arguments by entries.
fn push_entry_locals(
    alloc: Global,
    into: &mut Seq<Option<VType>>,
    world: &World,
    class: ClassId,
    method: &DeclaredMethod,
) -> Result<(), NoMemory>
    ensures { OnOk result (into.new ≡ into.old ++ entry_locals world.now class method.now) }
{
    let Ok(()) = push_receiver(into, class, method) else {
        return Err(NoMemory);
    };
    match method_text(alloc, &method.descriptor) {
        Ok(Some(text)) => push_arguments(into, world, text.params.as_slice()),
        Ok(None) => Ok(()),
        Err(fault) => Err(fault),
    }
}

/// `this` and the arguments by entries, of which a long is one (JVMS 4.10.1.6); no arguments where the descriptor is
/// malformed.
pub fn entry_locals(
    alloc: Global,
    world: &World,
    class: ClassId,
    method: &DeclaredMethod,
) -> Result<Seq<Option<VType>>, NoMemory>
    ensures { IfOk result (λ locals. locals ≡ entry_locals world.now class method.now) }
{
    let mut locals = Seq::new(alloc);
    let Ok(()) = push_entry_locals(alloc, &mut locals, world, class, method) else {
        return Err(NoMemory);
    };
    Ok(locals)
}
