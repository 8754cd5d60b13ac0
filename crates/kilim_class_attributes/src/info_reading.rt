//! Reading what attributes hold.

ghost use Rattle.std.specs.Prelude.{◌≡◌, Ok};
ghost use Rattle.kilim_class_grammar.specs.Reader.{ReadsUnless, many, filled};
ghost use Rattle.kilim_class_attributes.specs.parts.Frames.{frames_at};
ghost use Rattle.kilim_class_attributes.specs.declared.attribute.Info.TheVariants.{ConstantValue, Code, StackMapTable, Exceptions, Raw};
ghost use Rattle.kilim_class_attributes.specs.Lists.{as_a};
ghost use Rattle.kilim_class_attributes.specs.Wrapped.{parts_as};
ghost use Rattle.kilim_class_attributes.specs.declared.parts.fault.AttributeFault.TheVariants as fault;
ghost use Rattle.kilim_class_attributes.specs.declared.parts.name.AttributeName.TheVariants as name;
ghost use Rattle.kilim_class_attributes.specs.declared.parts.index.EntryKind.TheVariants as kind;
ghost use Rattle.kilim_class_attributes.specs.parts.Indices.{index_at};
ghost use Rattle.kilim_class_attributes.specs.Codes.{code_at};
ghost use Rattle.kilim_class_attributes.specs.Attributes.{exceptions_at, whole_parts, info_of};

use crate::attribute::Info;
use crate::code_reading::{code_at, whole_frames};
use crate::parts::{
    AnnotationPart, AttributeFault, AttributeName, EntryKind, PartKind, index_at, parts_at,
};
use kilim_class_grammar::u16_at;
use kilim_class_pool::Pool;
use kilim_units::Seq;
use std::alloc::Global;

const EXCEPTIONS_END: AttributeFault = AttributeFault::Length(AttributeName::Exceptions);

fn constant_info(pool: &Pool, bytes: &[u8]) -> Result<Info, AttributeFault>
    ensures { ReadsUnless fault.Memory (λ x. x) result (as_a ConstantValue (filled (fault.Length name.ConstantValue) (index_at pool.now kind.Constant (fault.Length name.ConstantValue)) bytes.now)) }
{
    let ends = AttributeFault::Length(AttributeName::ConstantValue);
    match index_at(pool, EntryKind::Constant, ends, bytes) {
        Ok((index, rest)) => {
            if rest.is_empty() {
                Ok(Info::ConstantValue(index))
            } else {
                Err(ends)
            }
        }
        Err(fault) => Err(fault),
    }
}

fn code_info(alloc: Global, pool: &Pool, bytes: &[u8]) -> Result<Info, AttributeFault>
    ensures { ReadsUnless fault.Memory (λ x. x) result (as_a Code (filled (fault.Length name.Code) (code_at pool.now) bytes.now)) }
{
    match code_at(alloc, pool, bytes) {
        Ok((code, rest)) => {
            if rest.is_empty() {
                Ok(Info::Code(code))
            } else {
                drop(code);
                Err(AttributeFault::Length(AttributeName::Code))
            }
        }
        Err(fault) => Err(fault),
    }
}

fn frames_info(alloc: Global, pool: &Pool, bytes: &[u8]) -> Result<Info, AttributeFault>
    ensures { ReadsUnless fault.Memory (λ x. x) result (as_a StackMapTable (filled (fault.Length name.StackMapTable) (frames_at pool.now) bytes.now)) }
{
    match whole_frames(alloc, pool, bytes) {
        Ok(frames) => Ok(Info::StackMapTable(frames)),
        Err(fault) => Err(fault),
    }
}

fn classes_at<'a>(
    alloc: Global,
    pool: &Pool,
    count: u16,
    bytes: &'a [u8],
) -> Result<(Seq<u16>, &'a [u8]), AttributeFault>
    ensures { ReadsUnless fault.Memory (λ x. (x.0, x.1.now)) result (many (index_at pool.now kind.Class (fault.Length name.Exceptions)) count bytes.now) }
{
    let mut classes = Seq::new(alloc);
    let mut rest = bytes;
    for _ in 0..count {
        match index_at(pool, EntryKind::Class, EXCEPTIONS_END, rest) {
            Ok((class, after)) => {
                let Ok(()) = classes.push(class) else {
                    return Err(AttributeFault::Memory);
                };
                rest = after;
            }
            Err(fault) => return Err(fault),
        }
    }
    Ok((classes, rest))
}

#[tactic(auto, unfolding(crate::specs::Attributes::exceptions_at))]
fn exceptions_at<'a>(
    alloc: Global,
    pool: &Pool,
    bytes: &'a [u8],
) -> Result<(Seq<u16>, &'a [u8]), AttributeFault>
    ensures { ReadsUnless fault.Memory (λ x. (x.0, x.1.now)) result (exceptions_at pool.now bytes.now) }
{
    match u16_at(EXCEPTIONS_END, bytes) {
        Ok((count, rest)) => classes_at(alloc, pool, count, rest),
        Err(fault) => Err(fault),
    }
}

fn exceptions_info(alloc: Global, pool: &Pool, bytes: &[u8]) -> Result<Info, AttributeFault>
    ensures { ReadsUnless fault.Memory (λ x. x) result (as_a Exceptions (filled (fault.Length name.Exceptions) (exceptions_at pool.now) bytes.now)) }
{
    match exceptions_at(alloc, pool, bytes) {
        Ok((classes, rest)) => {
            if rest.is_empty() {
                Ok(Info::Exceptions(classes))
            } else {
                drop(classes);
                Err(EXCEPTIONS_END)
            }
        }
        Err(fault) => Err(fault),
    }
}

// Parts of annotations in the form of a name.
fn parts_as(form: AttributeName, parts: Seq<AnnotationPart>) -> Info
    ensures { result ≡ parts_as form parts }
{
    match form {
        AttributeName::RuntimeVisibleAnnotations => Info::RuntimeVisibleAnnotations(parts),
        AttributeName::RuntimeInvisibleAnnotations => Info::RuntimeInvisibleAnnotations(parts),
        AttributeName::RuntimeVisibleParameterAnnotations => {
            Info::RuntimeVisibleParameterAnnotations(parts)
        }
        _ => Info::RuntimeInvisibleParameterAnnotations(parts),
    }
}

#[tactic(auto, unfolding(crate::specs::Attributes::whole_parts))]
fn parts_info(
    alloc: Global,
    pool: &Pool,
    form: AttributeName,
    kind: PartKind,
    bytes: &[u8],
) -> Result<Info, AttributeFault>
    ensures { ReadsUnless fault.Memory (λ x. x) result (as_a (parts_as form) (whole_parts pool.now form kind bytes.now)) }
{
    let ends = AttributeFault::Length(form);
    match parts_at(alloc, pool, ends, kind, bytes) {
        Ok((parts, rest)) => {
            if rest.is_empty() {
                Ok(parts_as(form, parts))
            } else {
                drop(parts);
                Err(ends)
            }
        }
        Err(fault) => Err(fault),
    }
}

fn raw_info(alloc: Global, bytes: &[u8]) -> Result<Info, AttributeFault>
    ensures { ReadsUnless fault.Memory (λ x. x) result (Ok (Raw bytes.now)) }
{
    match Vec::from_slice(alloc, bytes) {
        Ok(content) => Ok(Info::Raw(Seq::from_vec(content))),
        Err(_) => Err(AttributeFault::Memory),
    }
}

/// What an attribute of a form holds, all of its bytes.
#[tactic(auto, unfolding(crate::specs::Attributes::info_of))]
pub fn info_of(
    alloc: Global,
    pool: &Pool,
    form: Option<AttributeName>,
    bytes: &[u8],
) -> Result<Info, AttributeFault>
    ensures { ReadsUnless fault.Memory (λ x. x) result (info_of pool.now form bytes.now) }
{
    let Some(form) = form else {
        return raw_info(alloc, bytes);
    };
    match form {
        AttributeName::ConstantValue => constant_info(pool, bytes),
        AttributeName::Code => code_info(alloc, pool, bytes),
        AttributeName::StackMapTable => frames_info(alloc, pool, bytes),
        AttributeName::Exceptions => exceptions_info(alloc, pool, bytes),
        AttributeName::RuntimeVisibleAnnotations => {
            parts_info(alloc, pool, form, PartKind::AnnotationList, bytes)
        }
        AttributeName::RuntimeInvisibleAnnotations => {
            parts_info(alloc, pool, form, PartKind::AnnotationList, bytes)
        }
        AttributeName::RuntimeVisibleParameterAnnotations => {
            parts_info(alloc, pool, form, PartKind::ParameterCount, bytes)
        }
        AttributeName::RuntimeInvisibleParameterAnnotations => {
            parts_info(alloc, pool, form, PartKind::ParameterCount, bytes)
        }
    }
}
