//! Reading the parts of annotations.

ghost use Rattle.std.specs.Prelude.{◌≡◌, ◌<◌, ◌+◌, ◌-◌, [], ◌∷◌, ◌++◌, OnOk, vec_len};
ghost use Rattle.kilim_class_grammar.specs.Reader.{Reads, ReadsUnless};
ghost use Rattle.kilim_class_attributes.specs.declared.parts.fault.AttributeFault.TheVariants.{Memory};
ghost use Rattle.kilim_class_attributes.specs.parts.Annotations.{is_integer_tag, is_constant_tag, constant_kind, two_texts_at, value_behind, value_at, annotation_at, part_at, parts_at, asked};

use crate::parts::annotation::{AnnotationPart, Asked, PartKind};
use crate::parts::fault::AttributeFault;
use crate::parts::index::{EntryKind, index_at};
use kilim_class_grammar::{u8_at, u16_at};
use kilim_class_pool::Pool;
use kilim_units::Seq;
use std::alloc::{AllocError, Global};

fn is_integer_tag(tag: u8) -> bool
    ensures { result ≡ is_integer_tag tag }
{
    tag == b'B' || tag == b'C' || tag == b'I' || tag == b'S' || tag == b'Z'
}

fn is_constant_tag(tag: u8) -> bool
    ensures { result ≡ is_constant_tag tag }
{
    is_integer_tag(tag) || tag == b'D' || tag == b'F' || tag == b'J' || tag == b's'
}

fn constant_kind(tag: u8) -> EntryKind
    ensures { result ≡ constant_kind tag }
{
    if is_integer_tag(tag) {
        EntryKind::Integer
    } else if tag == b'D' {
        EntryKind::Double
    } else if tag == b'F' {
        EntryKind::Float
    } else if tag == b'J' {
        EntryKind::Long
    } else {
        EntryKind::Text
    }
}

#[tactic(auto, unfolding(crate::specs::parts::Annotations::two_texts_at))]
fn two_texts_at<'a>(
    pool: &Pool,
    ends: AttributeFault,
    bytes: &'a [u8],
) -> Result<((u16, u16), &'a [u8]), AttributeFault>
    ensures { Reads (λ x. (x.0, x.1.now)) result (two_texts_at pool.now ends bytes.now) }
{
    match index_at(pool, EntryKind::Text, ends, bytes) {
        Ok((first, rest)) => match index_at(pool, EntryKind::Text, ends, rest) {
            Ok((second, rest)) => Ok(((first, second), rest)),
            Err(fault) => Err(fault),
        },
        Err(fault) => Err(fault),
    }
}

#[tactic(auto, unfolding(crate::specs::parts::Annotations::value_behind))]
fn value_behind<'a>(
    pool: &Pool,
    ends: AttributeFault,
    tag: u8,
    bytes: &'a [u8],
) -> Result<(AnnotationPart, &'a [u8]), AttributeFault>
    ensures { Reads (λ x. (x.0, x.1.now)) result (value_behind pool.now ends tag bytes.now) }
{
    if is_constant_tag(tag) {
        match index_at(pool, constant_kind(tag), ends, bytes) {
            Ok((index, rest)) => Ok((AnnotationPart::Constant(tag, index), rest)),
            Err(fault) => Err(fault),
        }
    } else if tag == b'e' {
        match two_texts_at(pool, ends, bytes) {
            Ok(((class, name), rest)) => Ok((AnnotationPart::EnumConstant(class, name), rest)),
            Err(fault) => Err(fault),
        }
    } else if tag == b'c' {
        match index_at(pool, EntryKind::Text, ends, bytes) {
            Ok((descriptor, rest)) => Ok((AnnotationPart::Class(descriptor), rest)),
            Err(fault) => Err(fault),
        }
    } else if tag == b'@' {
        Ok((AnnotationPart::Nested, bytes))
    } else if tag == b'[' {
        match u16_at(ends, bytes) {
            Ok((count, rest)) => Ok((AnnotationPart::Array(count), rest)),
            Err(fault) => Err(fault),
        }
    } else {
        Err(ends)
    }
}

#[tactic(auto, unfolding(crate::specs::parts::Annotations::value_at))]
fn value_at<'a>(
    pool: &Pool,
    ends: AttributeFault,
    bytes: &'a [u8],
) -> Result<(AnnotationPart, &'a [u8]), AttributeFault>
    ensures { Reads (λ x. (x.0, x.1.now)) result (value_at pool.now ends bytes.now) }
{
    match u8_at(ends, bytes) {
        Ok((tag, rest)) => value_behind(pool, ends, tag, rest),
        Err(fault) => Err(fault),
    }
}

#[tactic(auto, unfolding(crate::specs::parts::Annotations::annotation_at))]
fn annotation_at<'a>(
    pool: &Pool,
    ends: AttributeFault,
    bytes: &'a [u8],
) -> Result<(AnnotationPart, &'a [u8]), AttributeFault>
    ensures { Reads (λ x. (x.0, x.1.now)) result (annotation_at pool.now ends bytes.now) }
{
    match index_at(pool, EntryKind::Text, ends, bytes) {
        Ok((class, rest)) => match u16_at(ends, rest) {
            Ok((count, rest)) => Ok((AnnotationPart::Annotation(class, count), rest)),
            Err(fault) => Err(fault),
        },
        Err(fault) => Err(fault),
    }
}

#[tactic(auto, unfolding(crate::specs::parts::Annotations::part_at))]
fn part_at<'a>(
    pool: &Pool,
    ends: AttributeFault,
    kind: PartKind,
    bytes: &'a [u8],
) -> Result<(AnnotationPart, &'a [u8]), AttributeFault>
    ensures { Reads (λ x. (x.0, x.1.now)) result (part_at pool.now ends kind bytes.now) }
{
    match kind {
        PartKind::ParameterCount => match u8_at(ends, bytes) {
            Ok((count, rest)) => Ok((AnnotationPart::Parameters(count), rest)),
            Err(fault) => Err(fault),
        },
        PartKind::AnnotationList => match u16_at(ends, bytes) {
            Ok((count, rest)) => Ok((AnnotationPart::Annotations(count), rest)),
            Err(fault) => Err(fault),
        },
        PartKind::OneAnnotation => annotation_at(pool, ends, bytes),
        PartKind::Pair => match index_at(pool, EntryKind::Text, ends, bytes) {
            Ok((name, rest)) => Ok((AnnotationPart::ElementName(name), rest)),
            Err(fault) => Err(fault),
        },
        PartKind::Value => value_at(pool, ends, bytes),
    }
}

// A part is behind the others, and what it asks for comes before what is left of its kind.
fn note(
    next: Asked,
    part: AnnotationPart,
    to_come: &mut Vec<Asked>,
    parts: &mut Seq<AnnotationPart>,
) -> Result<(), AllocError>
    requires { 0 < next.count }
    ensures to_come { OnOk result (to_come.new.items ≡ (to_come.old.items ++ record next { count = next.count - 1 } ∷ []) ++ asked part ∷ []) }
    ensures len { OnOk result (vec_len to_come.new ≡ vec_len to_come.old + 2) }
    ensures parts { OnOk result (parts.new ≡ parts.old ++ part ∷ []) }
{
    let Ok(()) = to_come.push(next.one_less()) else {
        return Err(AllocError);
    };
    let Ok(()) = to_come.push(part.asked()) else {
        return Err(AllocError);
    };
    parts.push(part)
}

// The parts that come from one of a kind, put behind none, and the bytes behind them.
fn push_parts_at<'a>(
    pool: &Pool,
    ends: AttributeFault,
    kind: PartKind,
    bytes: &'a [u8],
    to_come: &mut Vec<Asked>,
    parts: &mut Seq<AnnotationPart>,
) -> Result<&'a [u8], AttributeFault>
    requires none_to_come { to_come.old.items ≡ [] }
    requires no_parts { parts.old ≡ [] }
    ensures { ReadsUnless Memory (λ rest. (parts.new, rest.now)) result (parts_at pool.now ends kind bytes.now) }
{
    let Ok(()) = to_come.push(Asked { kind, count: 1 }) else {
        return Err(AttributeFault::Memory);
    };
    let mut rest = bytes;
    while let Some(next) = to_come.pop() {
        if next.count > 0 {
            match part_at(pool, ends, next.kind, rest) {
                Ok((part, after)) => {
                    let Ok(()) = note(next, part, to_come, parts) else {
                        return Err(AttributeFault::Memory);
                    };
                    rest = after;
                }
                Err(fault) => return Err(fault),
            }
        }
    }
    Ok(rest)
}

/// One part of a kind at the front of the bytes of an attribute, with all that it asks for, and the bytes behind
/// them: `ends` where the bytes end inside them or an element value has an unknown tag, BadIndex where an index
/// names no entry of the kind that its place asks for; whichever is the first. In time linear in the parts, and
/// without recursion.
pub fn parts_at<'a>(
    alloc: Global,
    pool: &Pool,
    ends: AttributeFault,
    kind: PartKind,
    bytes: &'a [u8],
) -> Result<(Seq<AnnotationPart>, &'a [u8]), AttributeFault>
    ensures { ReadsUnless Memory (λ x. (x.0, x.1.now)) result (parts_at pool.now ends kind bytes.now) }
{
    let mut to_come = Vec::new(alloc);
    let mut parts = Seq::new(alloc);
    match push_parts_at(pool, ends, kind, bytes, &mut to_come, &mut parts) {
        Ok(rest) => Ok((parts, rest)),
        Err(fault) => Err(fault),
    }
}
