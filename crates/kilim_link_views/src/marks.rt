//! The annotations on members and on parameters, by their types (JVMS 4.7.16 to 4.7.19).

ghost use Rattle.std.specs.Prelude.{◌≡◌, ◌++◌, ◌∷◌, [], zero, map, option_to_list, IfOk, OnOk};
ghost use Rattle.std.specs.List.{flat_map, filter_map};
ghost use Rattle.std.specs.Option.{option_copied};
ghost use Rattle.kilim_class_attributes.specs.parts.Annotations.{asked};
ghost use Rattle.kilim_class_file.specs.Parts.{text_of};
ghost use Rattle.kilim_link_spec.specs.Annotations.{outermost, types_before, lists_of, annotation_type, types_on_member, params_in};
ghost use Rattle.kilim_link_views.specs.Opened.{opened};
ghost use Rattle.kilim_link_spec.specs.World.{annotation_parts, annotation_types, parameter_parts, parameter_types};

use crate::names::text_of;
use kilim_class_attributes::Info;
use kilim_class_attributes::parts::AnnotationPart;
use kilim_class_file::MemberInfo;
use kilim_class_pool::Pool;
use kilim_units::{NoMemory, Seq, Units};
use std::alloc::Global;

// How many parts a part asks for.
fn asked_count(part: &AnnotationPart) -> u16
    ensures { result ≡ (asked part.now).count }
{
    match part {
        AnnotationPart::Parameters(count) => u16::from(*count),
        AnnotationPart::Annotations(count)
        | AnnotationPart::Annotation(_, count)
        | AnnotationPart::Array(count) => *count,
        AnnotationPart::ElementName(_) | AnnotationPart::Nested => 1,
        AnnotationPart::Constant(_, _)
        | AnnotationPart::EnumConstant(_, _)
        | AnnotationPart::Class(_) => 0,
    }
}

// The number of parts to be passed over behind an outermost part.
fn opened(part: &AnnotationPart) -> u16
    ensures { result ≡ opened part.now }
{
    match part {
        AnnotationPart::Annotation(_, count) => *count,
        _ => 0,
    }
}

// The outermost parts: counts of parameters and of annotations, and annotations.
fn outermost(alloc: Global, parts: &[AnnotationPart]) -> Result<Seq<AnnotationPart>, NoMemory>
    ensures { IfOk result (λ outer. outer ≡ outermost zero parts.now) }
{
    let mut outer = Seq::new(alloc);
    // So many parts are still to be passed over.
    let mut pending = 0u128;
    for part in parts {
        if pending == 0 {
            let Ok(()) = outer.push(*part) else {
                return Err(NoMemory);
            };
            pending = u128::from(opened(part));
        } else {
            pending = u128::from(asked_count(part)) + (pending - 1);
        }
    }
    Ok(outer)
}

// The types of the annotations up to the next list of annotations.
fn types_before(alloc: Global, parts: &[AnnotationPart]) -> Result<Seq<u16>, NoMemory>
    ensures { IfOk result (λ types. types ≡ types_before parts.now) }
{
    let mut types = Seq::new(alloc);
    let mut rest = parts;
    while let [part, after @ ..] = rest {
        match part {
            AnnotationPart::Annotations(_) => return Ok(types),
            AnnotationPart::Annotation(ty, _) => {
                let Ok(()) = types.push(*ty) else {
                    return Err(NoMemory);
                };
            }
            _ => {}
        }
        rest = after;
    }
    Ok(types)
}

// For each list of annotations the indices of their types. Each part is looked at twice at most.
fn lists_of(alloc: Global, parts: &[AnnotationPart]) -> Result<Seq<Seq<u16>>, NoMemory>
    ensures { IfOk result (λ lists. lists ≡ lists_of parts.now) }
{
    let mut lists = Seq::new(alloc);
    let mut rest = parts;
    while let [part, after @ ..] = rest {
        match part {
            AnnotationPart::Annotations(_) => {
                let Ok(types) = types_before(alloc, after) else {
                    return Err(NoMemory);
                };
                let Ok(()) = lists.push(types) else {
                    return Err(NoMemory);
                };
            }
            _ => {}
        }
        rest = after;
    }
    Ok(lists)
}

/// For each parameter the indices of the types of the annotations on it, and not of those inside of them
/// (JVMS 4.7.18). Takes linear time.
#[tactic(auto, unfolding(kilim_link_spec::specs::Annotations::params_in))]
pub fn params_in(alloc: Global, parts: &[AnnotationPart]) -> Result<Seq<Seq<u16>>, NoMemory>
    ensures { IfOk result (λ lists. lists ≡ params_in parts.now) }
{
    let Ok(outer) = outermost(alloc, parts) else {
        return Err(NoMemory);
    };
    lists_of(alloc, outer.as_slice())
}

// Appends the text of an index.
fn push_text(alloc: Global, texts: &mut Seq<Units>, pool: &Pool, index: u16) -> Result<(), NoMemory>
    ensures { OnOk result (texts.new ≡ texts.old ++ text_of pool.now index ∷ []) }
{
    let Ok(text) = Units::from_slice(alloc, text_of(pool, index)) else {
        return Err(NoMemory);
    };
    let Ok(()) = texts.push(text) else {
        return Err(NoMemory);
    };
    Ok(())
}

// Appends the types of the parts that are annotations.
fn push_types(
    alloc: Global,
    types: &mut Seq<Units>,
    pool: &Pool,
    outer: &[AnnotationPart],
) -> Result<(), NoMemory>
    ensures { OnOk result (types.new ≡ types.old ++ map (text_of pool.now) (flat_map annotation_type outer.now)) }
{
    for part in outer {
        if let AnnotationPart::Annotation(ty, _) = part {
            let Ok(()) = push_text(alloc, types, pool, *ty) else {
                return Err(NoMemory);
            };
        }
    }
    Ok(())
}

// The annotations that an attribute puts on a member.
fn annotation_parts(info: &Info) -> &[AnnotationPart]
    ensures { result.now ≡ annotation_parts info.now }
{
    match info {
        Info::RuntimeVisibleAnnotations(parts) | Info::RuntimeInvisibleAnnotations(parts) => {
            parts.as_slice()
        }
        _ => &[],
    }
}

// Appends the types of the annotations that an attribute puts on a member.
#[tactic(auto, unfolding(kilim_link_spec::specs::Annotations::types_on_member))]
fn push_types_of(
    alloc: Global,
    types: &mut Seq<Units>,
    pool: &Pool,
    info: &Info,
) -> Result<(), NoMemory>
    ensures { OnOk result (types.new ≡ types.old ++ map (text_of pool.now) (types_on_member (annotation_parts info.now))) }
{
    let Ok(outer) = outermost(alloc, annotation_parts(info)) else {
        return Err(NoMemory);
    };
    push_types(alloc, types, pool, outer.as_slice())
}

/// The types of the annotations on a member, by all of its attributes (JVMS 4.7.16, 4.7.17).
pub fn annotation_types(
    alloc: Global,
    pool: &Pool,
    member: &MemberInfo,
) -> Result<Seq<Units>, NoMemory>
    ensures { IfOk result (λ types. types ≡ annotation_types pool.now member.now) }
{
    let mut types = Seq::new(alloc);
    for attribute in member.attributes.as_slice() {
        let Ok(()) = push_types_of(alloc, &mut types, pool, &attribute.info) else {
            return Err(NoMemory);
        };
    }
    Ok(types)
}

// The annotations that an attribute puts on parameters.
fn parameter_parts(info: &Info) -> Option<&Seq<AnnotationPart>>
    ensures { option_copied result ≡ parameter_parts info.now }
{
    match info {
        Info::RuntimeVisibleParameterAnnotations(parts)
        | Info::RuntimeInvisibleParameterAnnotations(parts) => Some(parts),
        _ => None,
    }
}

// The texts of some indices.
fn texts_of(alloc: Global, pool: &Pool, indices: &[u16]) -> Result<Seq<Units>, NoMemory>
    ensures { IfOk result (λ texts. texts ≡ map (text_of pool.now) indices.now) }
{
    let mut texts = Seq::new(alloc);
    for index in indices {
        let Ok(()) = push_text(alloc, &mut texts, pool, *index) else {
            return Err(NoMemory);
        };
    }
    Ok(texts)
}

// The texts of several lists of indices.
fn each_texts(alloc: Global, pool: &Pool, lists: &[Seq<u16>]) -> Result<Seq<Seq<Units>>, NoMemory>
    ensures { IfOk result (λ texts. texts ≡ map (λ types. map (text_of pool.now) types) lists.now) }
{
    let mut texts = Seq::new(alloc);
    for list in lists {
        let Ok(of_list) = texts_of(alloc, pool, list.as_slice()) else {
            return Err(NoMemory);
        };
        let Ok(()) = texts.push(of_list) else {
            return Err(NoMemory);
        };
    }
    Ok(texts)
}

// The types of the annotations on each parameter.
fn texts_in(
    alloc: Global,
    pool: &Pool,
    parts: &[AnnotationPart],
) -> Result<Seq<Seq<Units>>, NoMemory>
    ensures { IfOk result (λ texts. texts ≡ map (λ types. map (text_of pool.now) types) (params_in parts.now)) }
{
    let Ok(lists) = params_in(alloc, parts) else {
        return Err(NoMemory);
    };
    each_texts(alloc, pool, lists.as_slice())
}

// Appends the types of the annotations on each parameter, where an attribute is one of parameters.
fn push_parameter_types(
    alloc: Global,
    types: &mut Seq<Seq<Seq<Units>>>,
    pool: &Pool,
    info: &Info,
) -> Result<(), NoMemory>
    ensures { OnOk result (types.new ≡ types.old ++ map (λ parts. map (λ types. map (text_of pool.now) types) (params_in parts)) (option_to_list (parameter_parts info.now))) }
{
    match parameter_parts(info) {
        Some(parts) => {
            let Ok(texts) = texts_in(alloc, pool, parts.as_slice()) else {
                return Err(NoMemory);
            };
            let Ok(()) = types.push(texts) else {
                return Err(NoMemory);
            };
        }
        None => {}
    }
    Ok(())
}

/// Of each attribute of parameters, the types of the annotations on each parameter (JVMS 4.7.18, 4.7.19).
pub fn parameter_types(
    alloc: Global,
    pool: &Pool,
    method: &MemberInfo,
) -> Result<Seq<Seq<Seq<Units>>>, NoMemory>
    ensures { IfOk result (λ types. types ≡ parameter_types pool.now method.now) }
{
    let mut types = Seq::new(alloc);
    for attribute in method.attributes.as_slice() {
        let Ok(()) = push_parameter_types(alloc, &mut types, pool, &attribute.info) else {
            return Err(NoMemory);
        };
    }
    Ok(types)
}
