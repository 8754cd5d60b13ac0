//! Whether two class files are equal.

ghost use Rattle.std.specs.Prelude.{◌≡◌, true};

use crate::pools::same_pools;
use kilim_class_attributes::parts::{AnnotationPart, Frame, VerificationType};
use kilim_class_attributes::{Attribute, Code, CodeAttribute, CodeInfo, ExceptionHandler, Info};
use kilim_class_file::{ClassFile, MemberInfo};
use kilim_units::Seq;

// ---- lists of numbers and of parts

fn same_numbers(one: &Seq<u16>, other: &Seq<u16>) -> bool
    ensures { result ≡ true → one.now ≡ other.now }
{
    let items = one.as_slice();
    let others = other.as_slice();
    items == others
}

fn same_bytes(one: &Seq<u8>, other: &Seq<u8>) -> bool
    ensures { result ≡ true → one.now ≡ other.now }
{
    let items = one.as_slice();
    let others = other.as_slice();
    items == others
}

fn same_types(one: &Seq<VerificationType>, other: &Seq<VerificationType>) -> bool
    ensures { result ≡ true → one.now ≡ other.now }
{
    let items = one.as_slice();
    let others = other.as_slice();
    items == others
}

fn same_parts(one: &Seq<AnnotationPart>, other: &Seq<AnnotationPart>) -> bool
    ensures { result ≡ true → one.now ≡ other.now }
{
    let items = one.as_slice();
    let others = other.as_slice();
    items == others
}

fn same_handlers(one: &[ExceptionHandler], other: &[ExceptionHandler]) -> bool
    ensures { result ≡ true → one.now ≡ other.now }
{
    one == other
}

// ---- frames

fn same_frame(one: &Frame, other: &Frame) -> bool
    ensures { result ≡ true → one.now ≡ other.now }
{
    match (one, other) {
        (Frame::Same(a), Frame::Same(b)) => *a == *b,
        (Frame::SameLocals1StackItem(a, t), Frame::SameLocals1StackItem(b, u)) => {
            *a == *b && *t == *u
        }
        (Frame::SameLocals1StackItemExtended(a, t), Frame::SameLocals1StackItemExtended(b, u)) => {
            *a == *b && *t == *u
        }
        (Frame::Chop(a, c), Frame::Chop(b, d)) => *a == *b && *c == *d,
        (Frame::SameExtended(a), Frame::SameExtended(b)) => *a == *b,
        (Frame::Append(a, ts), Frame::Append(b, us)) => *a == *b && same_types(ts, us),
        (Frame::Full(a, ts, vs), Frame::Full(b, us, ws)) => {
            *a == *b && same_types(ts, us) && same_types(vs, ws)
        }
        _ => false,
    }
}

fn same_frames(one: &[Frame], other: &[Frame]) -> bool
    ensures { result ≡ true → one.now ≡ other.now }
{
    let mut rest = other;
    for x in one {
        let [y, later @ ..] = rest else {
            return false;
        };
        if !same_frame(x, y) {
            return false;
        }
        rest = later;
    }
    rest.is_empty()
}

// ---- code

fn same_code_info(one: &CodeInfo, other: &CodeInfo) -> bool
    ensures { result ≡ true → one.now ≡ other.now }
{
    match (one, other) {
        (CodeInfo::StackMapTable(a), CodeInfo::StackMapTable(b)) => {
            same_frames(a.as_slice(), b.as_slice())
        }
        (CodeInfo::Raw(a), CodeInfo::Raw(b)) => same_bytes(a, b),
        _ => false,
    }
}

fn same_code_attribute(one: &CodeAttribute, other: &CodeAttribute) -> bool
    ensures { result ≡ true → one.now ≡ other.now }
{
    one.attribute_name_index == other.attribute_name_index && same_code_info(&one.info, &other.info)
}

fn same_code_attributes(one: &[CodeAttribute], other: &[CodeAttribute]) -> bool
    ensures { result ≡ true → one.now ≡ other.now }
{
    let mut rest = other;
    for x in one {
        let [y, later @ ..] = rest else {
            return false;
        };
        if !same_code_attribute(x, y) {
            return false;
        }
        rest = later;
    }
    rest.is_empty()
}

fn same_code(one: &Code, other: &Code) -> bool
    ensures { result ≡ true → one.now ≡ other.now }
{
    one.max_stack == other.max_stack
        && one.max_locals == other.max_locals
        && same_bytes(&one.code, &other.code)
        && same_handlers(
            one.exception_table.as_slice(),
            other.exception_table.as_slice(),
        )
        && same_code_attributes(one.attributes.as_slice(), other.attributes.as_slice())
}

// ---- attributes

fn same_info(one: &Info, other: &Info) -> bool
    ensures { result ≡ true → one.now ≡ other.now }
{
    match (one, other) {
        (Info::ConstantValue(a), Info::ConstantValue(b)) => *a == *b,
        (Info::Code(a), Info::Code(b)) => same_code(a, b),
        (Info::StackMapTable(a), Info::StackMapTable(b)) => {
            same_frames(a.as_slice(), b.as_slice())
        }
        (Info::Exceptions(a), Info::Exceptions(b)) => same_numbers(a, b),
        (Info::RuntimeVisibleAnnotations(a), Info::RuntimeVisibleAnnotations(b))
        | (Info::RuntimeInvisibleAnnotations(a), Info::RuntimeInvisibleAnnotations(b))
        | (Info::RuntimeVisibleParameterAnnotations(a), Info::RuntimeVisibleParameterAnnotations(b))
        | (
            Info::RuntimeInvisibleParameterAnnotations(a),
            Info::RuntimeInvisibleParameterAnnotations(b),
        ) => same_parts(a, b),
        (Info::Raw(a), Info::Raw(b)) => same_bytes(a, b),
        _ => false,
    }
}

fn same_attribute(one: &Attribute, other: &Attribute) -> bool
    ensures { result ≡ true → one.now ≡ other.now }
{
    one.attribute_name_index == other.attribute_name_index && same_info(&one.info, &other.info)
}

fn same_attributes(one: &[Attribute], other: &[Attribute]) -> bool
    ensures { result ≡ true → one.now ≡ other.now }
{
    let mut rest = other;
    for x in one {
        let [y, later @ ..] = rest else {
            return false;
        };
        if !same_attribute(x, y) {
            return false;
        }
        rest = later;
    }
    rest.is_empty()
}

// ---- members

fn same_member(one: &MemberInfo, other: &MemberInfo) -> bool
    ensures { result ≡ true → one.now ≡ other.now }
{
    one.access_flags == other.access_flags
        && one.name_index == other.name_index
        && one.descriptor_index == other.descriptor_index
        && same_attributes(one.attributes.as_slice(), other.attributes.as_slice())
}

fn same_members(one: &[MemberInfo], other: &[MemberInfo]) -> bool
    ensures { result ≡ true → one.now ≡ other.now }
{
    let mut rest = other;
    for x in one {
        let [y, later @ ..] = rest else {
            return false;
        };
        if !same_member(x, y) {
            return false;
        }
        rest = later;
    }
    rest.is_empty()
}

// ---- files

/// Whether two class files are equal.
pub fn same_files(one: &ClassFile, other: &ClassFile) -> bool
    ensures { result ≡ true → one.now ≡ other.now }
{
    one.minor_version == other.minor_version
        && one.major_version == other.major_version
        && same_pools(&one.constant_pool, &other.constant_pool)
        && one.access_flags == other.access_flags
        && one.this_class == other.this_class
        && one.super_class == other.super_class
        && same_numbers(&one.interfaces, &other.interfaces)
        && same_members(one.fields.as_slice(), other.fields.as_slice())
        && same_members(one.methods.as_slice(), other.methods.as_slice())
        && same_attributes(one.attributes.as_slice(), other.attributes.as_slice())
}
