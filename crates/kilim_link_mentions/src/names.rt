//! Names of classes in what a class file names.

ghost use Rattle.std.specs.Prelude.{◌≡◌, ◌++◌, IfOk, OnOk};
ghost use Rattle.std.specs.List.{flat_map};
ghost use Rattle.std.specs.Option.{option_copied};
ghost use Rattle.kilim_link_spec.specs.Types.{base_names, field_text, method_text, method_types, result_types, type_names, types_of_field, types_of_method};
ghost use Rattle.kilim_link_spec.specs.Mentions.{element_types, named_types, names_mentioned, plain_names, types_mentioned};

use crate::descriptors::{field_text, method_text};
use kilim_class_descriptors::{BaseText, FieldText, MethodText};
use kilim_link_spec::{Mention, Named};
use kilim_units::{NoMemory, Seq, Units};
use std::alloc::Global;

fn push_base(into: &mut Seq<Units>, base: &BaseText) -> Result<(), NoMemory>
    ensures { OnOk result (into.new ≡ into.old ++ base_names base.now) }
{
    match base {
        BaseText::Class(name) => {
            let Ok(name) = name.clone() else {
                return Err(NoMemory);
            };
            let Ok(()) = into.push(name) else {
                return Err(NoMemory);
            };
        }
        _ => {}
    }
    Ok(())
}

fn push_each(into: &mut Seq<Units>, types: &[FieldText]) -> Result<(), NoMemory>
    ensures { OnOk result (into.new ≡ into.old ++ flat_map type_names types.now) }
{
    for found in types {
        let Ok(()) = push_base(into, &found.base) else {
            return Err(NoMemory);
        };
    }
    Ok(())
}

// The name of a class that is named as one.
fn push_plain(into: &mut Seq<Units>, mention: &Mention) -> Result<(), NoMemory>
    ensures { OnOk result (into.new ≡ into.old ++ plain_names mention.now) }
{
    match mention {
        Mention::OfClass(Named::AClass(name)) => {
            let Ok(name) = name.clone() else {
                return Err(NoMemory);
            };
            let Ok(()) = into.push(name) else {
                return Err(NoMemory);
            };
        }
        _ => {}
    }
    Ok(())
}

// The names in a type that is named as a class, where it is an array.
fn push_array(into: &mut Seq<Units>, class: &Named) -> Result<(), NoMemory>
    ensures { OnOk result (into.new ≡ into.old ++ flat_map type_names (named_types class.now)) }
{
    match class {
        Named::AnArray(found) => push_base(into, &found.base),
        Named::AClass(_) | Named::Malformed(_) => Ok(()),
    }
}

// The names in an array of such elements, of any dimensions.
fn push_element(into: &mut Seq<Units>, class: &Named) -> Result<(), NoMemory>
    ensures { OnOk result (into.new ≡ into.old ++ flat_map type_names (element_types class.now)) }
{
    match class {
        Named::AClass(name) => {
            let Ok(name) = name.clone() else {
                return Err(NoMemory);
            };
            let Ok(()) = into.push(name) else {
                return Err(NoMemory);
            };
        }
        Named::AnArray(found) => {
            let Ok(()) = push_base(into, &found.base) else {
                return Err(NoMemory);
            };
        }
        Named::Malformed(_) => {}
    }
    Ok(())
}

fn push_field(alloc: Global, into: &mut Seq<Units>, descriptor: &Units) -> Result<(), NoMemory>
    ensures { OnOk result (into.new ≡ into.old ++ flat_map type_names (types_of_field (field_text descriptor.now))) }
{
    match field_text(alloc, descriptor) {
        Ok(Some(found)) => push_base(into, &found.base),
        Ok(None) => Ok(()),
        Err(fault) => Err(fault),
    }
}

fn push_result(into: &mut Seq<Units>, found: Option<&FieldText>) -> Result<(), NoMemory>
    ensures { OnOk result (into.new ≡ into.old ++ flat_map type_names (result_types (option_copied found.entry))) }
{
    match found {
        Some(found) => push_base(into, &found.base),
        None => Ok(()),
    }
}

#[tactic(auto, using(crate::proofs::Joined::both_names))]
fn push_method_types(into: &mut Seq<Units>, method: &MethodText) -> Result<(), NoMemory>
    ensures { OnOk result (into.new ≡ into.old ++ flat_map type_names (method_types method.now)) }
{
    push_each(into, method.params.as_slice())?;
    push_result(into, method.result.as_ref())
}

fn push_method(alloc: Global, into: &mut Seq<Units>, descriptor: &Units) -> Result<(), NoMemory>
    ensures { OnOk result (into.new ≡ into.old ++ flat_map type_names (types_of_method (method_text descriptor.now))) }
{
    match method_text(alloc, descriptor) {
        Ok(Some(found)) => push_method_types(into, &found),
        Ok(None) => Ok(()),
        Err(fault) => Err(fault),
    }
}

// The names in the types of a mention, in order: in those that a descriptor spells, none where it is malformed; in an
// array that is named as a class, and in the array that `anewarray` makes (JVMS 4.3, 4.4.1, 6.5).
fn push_in_types(alloc: Global, into: &mut Seq<Units>, mention: &Mention) -> Result<(), NoMemory>
    ensures { OnOk result (into.new ≡ into.old ++ flat_map type_names (types_mentioned mention.now)) }
{
    match mention {
        Mention::OfClass(class) => push_array(into, class),
        Mention::OfElement(class) => push_element(into, class),
        Mention::OfField(descriptor) => push_field(alloc, into, descriptor),
        Mention::OfMethod(_, descriptor) => push_method(alloc, into, descriptor),
        Mention::OfFloat => Ok(()),
    }
}

// The class that is named as one, and those in its types (JVMS 4.3, 4.4.1).
fn push_names(alloc: Global, into: &mut Seq<Units>, mention: &Mention) -> Result<(), NoMemory>
    ensures { OnOk result (into.new ≡ into.old ++ names_mentioned mention.now) }
{
    push_plain(into, mention)?;
    push_in_types(alloc, into, mention)
}

fn push_names_of_each(
    alloc: Global,
    into: &mut Seq<Units>,
    mentions: &[Mention],
) -> Result<(), NoMemory>
    ensures { OnOk result (into.new ≡ into.old ++ flat_map names_mentioned mentions.now) }
{
    for mention in mentions {
        let Ok(()) = push_names(alloc, into, mention) else {
            return Err(NoMemory);
        };
    }
    Ok(())
}

/// The names of classes in some mentions, in order, as often as they are named.
pub fn class_names(alloc: Global, mentions: &[Mention]) -> Result<Seq<Units>, NoMemory>
    ensures { IfOk result (λ names. names ≡ flat_map names_mentioned mentions.now) }
{
    let mut names = Seq::new(alloc);
    let Ok(()) = push_names_of_each(alloc, &mut names, mentions) else {
        return Err(NoMemory);
    };
    Ok(names)
}
