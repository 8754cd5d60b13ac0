//! Descriptors that are none.

ghost use Rattle.std.specs.Prelude.{◌≡◌, ◌+◌, nat_lt, IfOk};
ghost use Rattle.std.specs.List.{flat_map};
ghost use Rattle.kilim_class_descriptors.specs.Text.{slots_of};
ghost use Rattle.kilim_program.specs.declared.names.ClassId.{ClassId};
ghost use Rattle.kilim_link_spec.specs.World.{World};
ghost use Rattle.kilim_link_spec.specs.Linked.{first_of};
ghost use Rattle.kilim_link_spec.specs.declared.named.Mention.TheVariants.{OfField, OfMethod};
ghost use Rattle.kilim_link_spec.specs.Mentions.{mentions_of};
ghost use Rattle.kilim_link_spec.specs.Faults.{descriptor_broken, is_no_method, named_badly, no_descriptors};

use kilim_class_descriptors::{MethodText, argument_slots};
use kilim_class_file::ClassFile;
use kilim_link_mentions::{field_text, method_text};
use kilim_link_spec::{Mention, Named, Problem};
use kilim_units::{NoMemory, Units};
use std::alloc::Global;

// Whether a method has more than 255 argument slots with those beside it.
fn has_many_slots(slots: u8, method: MethodText) -> bool
    ensures { result ≡ nat_lt 255 (slots + slots_of method) }
{
    argument_slots(&method) > 255 - usize::from(slots)
}

// Whether it is malformed, or has too many.
fn is_no_method(slots: u8, found: Option<MethodText>) -> bool
    ensures { result ≡ is_no_method slots found }
{
    match found {
        None => true,
        Some(method) => has_many_slots(slots, method),
    }
}

// The name of a class that begins as an array and is none.
fn named_badly(class: &Named) -> Result<Option<Units>, NoMemory>
    ensures { IfOk result (λ found. found ≡ first_of (named_badly class.now)) }
{
    match class {
        Named::Malformed(name) => Ok(Some(name.clone()?)),
        Named::AClass(_) | Named::AnArray(_) => Ok(None),
    }
}

// A field's descriptor that is none.
fn no_field(alloc: Global, descriptor: &Units) -> Result<Option<Units>, NoMemory>
    ensures { IfOk result (λ found. found ≡ first_of (no_descriptors (OfField descriptor.now))) }
{
    let Ok(found) = field_text(alloc, descriptor) else {
        return Err(NoMemory);
    };
    let is_none = found.is_none();
    drop(found);
    if is_none {
        match descriptor.clone() {
            Ok(text) => Ok(Some(text)),
            Err(_) => Err(NoMemory),
        }
    } else {
        Ok(None)
    }
}

// A method's descriptor that is none, or has too many slots.
fn no_method(alloc: Global, slots: u8, descriptor: &Units) -> Result<Option<Units>, NoMemory>
    ensures { IfOk result (λ found. found ≡ first_of (no_descriptors (OfMethod slots descriptor.now))) }
{
    let Ok(found) = method_text(alloc, descriptor) else {
        return Err(NoMemory);
    };
    if is_no_method(slots, found) {
        match descriptor.clone() {
            Ok(text) => Ok(Some(text)),
            Err(_) => Err(NoMemory),
        }
    } else {
        Ok(None)
    }
}

// The text in a mention that is no descriptor.
fn no_descriptor(alloc: Global, mention: &Mention) -> Result<Option<Units>, NoMemory>
    ensures { IfOk result (λ found. found ≡ first_of (no_descriptors mention.now)) }
{
    match mention {
        Mention::OfClass(class) | Mention::OfElement(class) => named_badly(class),
        Mention::OfField(descriptor) => no_field(alloc, descriptor),
        Mention::OfMethod(slots, descriptor) => no_method(alloc, *slots, descriptor),
        Mention::OfFloat => Ok(None),
    }
}

fn first_text(alloc: Global, mentions: &[Mention]) -> Result<Option<Units>, NoMemory>
    ensures { IfOk result (λ found. found ≡ first_of (flat_map no_descriptors mentions.now)) }
{
    for mention in mentions {
        match no_descriptor(alloc, mention) {
            Err(fault) => return Err(fault),
            Ok(Some(found)) => return Ok(Some(found)),
            Ok(None) => {}
        }
    }
    Ok(None)
}

/// The first text that is named as a descriptor and is none, or has more than 255 argument slots (JVMS 4.3.2, 4.3.3,
/// 4.4.1); none where there is none. Takes what the file names, and the file.
#[tactic(auto, unfolding(kilim_link_spec::specs::Faults::descriptor_broken))]
pub fn descriptor_broken(
    alloc: Global,
    mentions: &[Mention],
    file: &ClassFile,
) -> Result<Option<Problem>, NoMemory>
    requires named { mentions.now ≡ mentions_of file.now }
    ensures { IfOk result (λ found. (w : World) → (c : ClassId) → found ≡ first_of (descriptor_broken w file.now c)) }
{
    match first_text(alloc, mentions) {
        Ok(Some(text)) => Ok(Some(Problem::Descriptor(text))),
        Ok(None) => Ok(None),
        Err(fault) => Err(fault),
    }
}
