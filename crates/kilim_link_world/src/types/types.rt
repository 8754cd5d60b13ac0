//! Types by the texts of descriptors and class names.

ghost use Rattle.std.specs.Prelude.{◌≡◌};
ghost use Rattle.kilim_class_descriptors.specs.declared.types.BaseText.TheVariants as text;
ghost use Rattle.kilim_link_spec.specs.declared.named.Named.TheVariants.{AClass};
ghost use Rattle.kilim_link_spec.specs.Types.{base_in, type_in, type_named, class_named_by};

use crate::World;
use kilim_class_descriptors::{BaseText, FieldText};
use kilim_link_spec::Named;
use kilim_program::{Base, ClassId, Ty};
use kilim_units::Units;

// The type of a class, where it is there.
fn class_base(world: &World, name: &Units) -> Option<Base>
    ensures { result ≡ base_in world.now (text.Class name.now) }
{
    match world.class_of(name) {
        Some(class) => Some(Base::Class(class)),
        None => None,
    }
}

// The type of an element, where it is there.
fn base_in(world: &World, base: &BaseText) -> Option<Base>
    ensures { result ≡ base_in world.now base.now }
{
    match base {
        BaseText::Bool => Some(Base::Bool),
        BaseText::Byte => Some(Base::Byte),
        BaseText::Char => Some(Base::Char),
        BaseText::Short => Some(Base::Short),
        BaseText::Int => Some(Base::Int),
        BaseText::Long => Some(Base::Long),
        BaseText::Float | BaseText::Double => None,
        BaseText::Class(name) => class_base(world, name),
    }
}

/// The type of a descriptor in a program (JVMS 4.3.2): none where its class isn't there, or its base is float or
/// double.
pub fn type_in(world: &World, text: &FieldText) -> Option<Ty>
    ensures { result ≡ type_in world.now text.now }
{
    match base_in(world, &text.base) {
        Some(base) => Some(Ty {
            dims: text.dims,
            base,
        }),
        None => None,
    }
}

// The type of the class of a name, where it is there.
fn class_type(world: &World, name: &Units) -> Option<Ty>
    ensures { result ≡ type_named world.now (AClass name.now) }
{
    match world.class_of(name) {
        Some(class) => Some(Ty {
            dims: 0,
            base: Base::Class(class),
        }),
        None => None,
    }
}

/// The type that a class entry names (JVMS 4.4.1), where it is there; none where the name is malformed.
pub fn type_named(world: &World, named: &Named) -> Option<Ty>
    ensures { result ≡ type_named world.now named.now }
{
    match named {
        Named::AClass(name) => class_type(world, name),
        Named::AnArray(text) => type_in(world, text),
        Named::Malformed(_) => None,
    }
}

/// The class that a class entry names (JVMS 4.4.1), where it is there; none for an array.
pub fn class_named_by(world: &World, named: &Named) -> Option<ClassId>
    ensures { result ≡ class_named_by world.now named.now }
{
    match named {
        Named::AClass(name) => world.class_of(name),
        Named::AnArray(_) | Named::Malformed(_) => None,
    }
}
