//! Writing the parts of annotations.

ghost use Rattle.std.specs.Prelude.{◌≡◌, ◌++◌, OnOk};
ghost use Rattle.kilim_class_attributes.specs.parts.Annotations.{value_tag, behind_value_tag, value_text, part_text, parts_text};

use crate::parts::annotation::AnnotationPart;
use kilim_class_grammar::{push_u8, push_u16};
use kilim_units::Seq;
use std::alloc::AllocError;

fn value_tag(part: &AnnotationPart) -> u8
    ensures { result ≡ value_tag part.now }
{
    match part {
        AnnotationPart::Constant(tag, _) => *tag,
        AnnotationPart::EnumConstant(_, _) => b'e',
        AnnotationPart::Class(_) => b'c',
        AnnotationPart::Nested => b'@',
        AnnotationPart::Array(_) => b'[',
        _ => 0,
    }
}

fn push_behind_value_tag(part: &AnnotationPart, into: &mut Vec<u8>) -> Result<(), AllocError>
    ensures { OnOk result (into.new.items ≡ into.old.items ++ behind_value_tag part.now) }
{
    match part {
        AnnotationPart::Constant(_, number)
        | AnnotationPart::Class(number)
        | AnnotationPart::Array(number) => push_u16(into, *number),
        AnnotationPart::EnumConstant(class, name) => {
            let Ok(()) = push_u16(into, *class) else {
                return Err(AllocError);
            };
            push_u16(into, *name)
        }
        _ => Ok(()),
    }
}

fn push_value(part: &AnnotationPart, into: &mut Vec<u8>) -> Result<(), AllocError>
    ensures { OnOk result (into.new.items ≡ into.old.items ++ value_text part.now) }
{
    let Ok(()) = push_u8(into, value_tag(part)) else {
        return Err(AllocError);
    };
    push_behind_value_tag(part, into)
}

fn push_part(part: &AnnotationPart, into: &mut Vec<u8>) -> Result<(), AllocError>
    ensures { OnOk result (into.new.items ≡ into.old.items ++ part_text part.now) }
{
    match part {
        AnnotationPart::Parameters(count) => push_u8(into, *count),
        AnnotationPart::Annotations(number) | AnnotationPart::ElementName(number) => {
            push_u16(into, *number)
        }
        AnnotationPart::Annotation(class, count) => {
            let Ok(()) = push_u16(into, *class) else {
                return Err(AllocError);
            };
            push_u16(into, *count)
        }
        _ => push_value(part, into),
    }
}

/// Appends the text of parts of annotations (JVMS 4.7.16). For want of memory a front of it may stand at the end.
pub fn push_parts(parts: &Seq<AnnotationPart>, into: &mut Vec<u8>) -> Result<(), AllocError>
    ensures { OnOk result (into.new.items ≡ into.old.items ++ parts_text parts.now) }
{
    for part in parts.as_slice() {
        let Ok(()) = push_part(part, into) else {
            return Err(AllocError);
        };
    }
    Ok(())
}
