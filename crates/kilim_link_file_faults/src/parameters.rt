//! Annotations on another number of parameters than there are.

ghost use Rattle.std.specs.Prelude.{◌≡◌, length, option_map, IfOk};
ghost use Rattle.std.specs.List.{list_any, filter_map};
ghost use Rattle.std.specs.Option.{option_copied};
ghost use Rattle.kilim_link_spec.specs.Annotations.{params_in};
ghost use Rattle.kilim_link_spec.specs.LeftOut.{differs_in, has_other_parameters};
ghost use Rattle.kilim_link_spec.specs.Types.{method_text};
ghost use Rattle.kilim_link_spec.specs.World.{member_descriptor, parameter_parts};

use kilim_class_attributes::parts::AnnotationPart;
use kilim_class_attributes::{Attribute, Info};
use kilim_class_descriptors::MethodText;
use kilim_class_file::{ClassFile, MemberInfo};
use kilim_link_mentions::method_text;
use kilim_link_views::{member_descriptor, params_in};
use kilim_units::{NoMemory, Seq, Units};
use std::alloc::Global;

// The annotations that an attribute puts on parameters (JVMS 4.7.18, 4.7.19).
fn parameter_parts(info: &Info) -> Option<&Seq<AnnotationPart>>
    ensures { option_copied result ≡ parameter_parts info.now }
{
    match info {
        Info::RuntimeVisibleParameterAnnotations(parts)
        | Info::RuntimeInvisibleParameterAnnotations(parts) => Some(parts),
        _ => None,
    }
}

// Whether a descriptor has another number of parameters.
fn differs_in(found: Option<&MethodText>, count: usize) -> bool
    ensures { result ≡ differs_in (option_copied found.entry) count }
{
    match found {
        None => false,
        Some(method) => count != method.params.len(),
    }
}

// Whether an attribute of parameters has another number of them than a descriptor; none where it is no such attribute.
fn differs_at(
    alloc: Global,
    found: Option<&MethodText>,
    info: &Info,
) -> Result<Option<bool>, NoMemory>
    ensures { IfOk result (λ differs. differs ≡ option_map (λ parts. differs_in (option_copied found.entry) (length (params_in parts))) (parameter_parts info.now)) }
{
    match parameter_parts(info) {
        None => Ok(None),
        Some(parts) => {
            let lists = params_in(alloc, parts.as_slice())?;
            Ok(Some(differs_in(found, lists.len())))
        }
    }
}

// The same of some attributes.
fn differs_in_one(
    alloc: Global,
    found: Option<&MethodText>,
    attributes: &[Attribute],
) -> Result<bool, NoMemory>
    ensures { IfOk result (λ differs. differs ≡ list_any (λ parts. differs_in (option_copied found.entry) (length (params_in parts))) (filter_map (λ a. parameter_parts a.info) attributes.now)) }
{
    for attribute in attributes {
        match differs_at(alloc, found, &attribute.info) {
            Err(fault) => return Err(fault),
            Ok(Some(true)) => return Ok(true),
            Ok(Some(false) | None) => {}
        }
    }
    Ok(false)
}

// The same of a method.
fn method_differs(alloc: Global, file: &ClassFile, method: &MemberInfo) -> Result<bool, NoMemory>
    ensures { IfOk result (λ differs. differs ≡ list_any (λ parts. differs_in (method_text (member_descriptor file.now method.now)) (length (params_in parts))) (filter_map (λ a. parameter_parts a.info) method.now.attributes)) }
{
    let Ok(descriptor) = Units::from_slice(alloc, member_descriptor(file, method)) else {
        return Err(NoMemory);
    };
    let Ok(found) = method_text(alloc, &descriptor) else {
        return Err(NoMemory);
    };
    differs_in_one(alloc, found.as_ref(), method.attributes.as_slice())
}

/// Whether an attribute of a method has annotations on another number of parameters than its descriptor
/// (JVMS 4.7.18, 4.7.19).
pub fn has_other_parameters(alloc: Global, file: &ClassFile) -> Result<bool, NoMemory>
    ensures { IfOk result (λ has. has ≡ has_other_parameters file.now) }
{
    for method in file.methods.as_slice() {
        match method_differs(alloc, file, method) {
            Err(fault) => return Err(fault),
            Ok(true) => return Ok(true),
            Ok(false) => {}
        }
    }
    Ok(false)
}
