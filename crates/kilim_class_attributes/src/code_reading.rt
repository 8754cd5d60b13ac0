//! Reading Code attributes.

ghost use Rattle.std.specs.Prelude.{◌≡◌, []};
ghost use Rattle.kilim_class_grammar.specs.Reader.{Reads, ReadsUnless, both, many, filled};
ghost use Rattle.kilim_class_attributes.specs.declared.parts.fault.AttributeFault.TheVariants as fault;
ghost use Rattle.kilim_class_attributes.specs.declared.parts.name.AttributeName.TheVariants as name;
ghost use Rattle.kilim_class_attributes.specs.parts.Frames.{frames_at};
ghost use Rattle.kilim_class_attributes.specs.Lists.{many_after, listed};
ghost use Rattle.kilim_class_attributes.specs.Forms.{unless_twice};
ghost use Rattle.kilim_class_attributes.specs.Codes.{code_info_is, code_repeats, code_info_of, code_attribute_of, code_attribute_at, code_bytes_at, two_at, handler_at, handlers_at, code_at};

use crate::attribute::{Code, CodeAttribute, CodeInfo, ExceptionHandler, Place};
use crate::form::{form_at, named_bytes_at};
use crate::parts::{AttributeFault, AttributeName, EntryKind, Frame, frames_at, index_at};
use kilim_class_grammar::{bytes_at, u16_at, u32_at};
use kilim_class_pool::Pool;
use kilim_units::Seq;
use std::alloc::Global;

const ENDS: AttributeFault = AttributeFault::Length(AttributeName::Code);

/// The frames that fill the bytes of a StackMapTable.
pub fn whole_frames(alloc: Global, pool: &Pool, bytes: &[u8]) -> Result<Seq<Frame>, AttributeFault>
    ensures { ReadsUnless fault.Memory (λ x. x) result (filled (fault.Length name.StackMapTable) (frames_at pool.now) bytes.now) }
{
    match frames_at(alloc, pool, bytes) {
        Ok((frames, rest)) => {
            if rest.is_empty() {
                Ok(frames)
            } else {
                drop(frames);
                Err(AttributeFault::Length(AttributeName::StackMapTable))
            }
        }
        Err(fault) => Err(fault),
    }
}

#[tactic(auto, unfolding(crate::specs::Codes::code_info_of))]
fn code_info_of(
    alloc: Global,
    pool: &Pool,
    form: Option<AttributeName>,
    bytes: &[u8],
) -> Result<CodeInfo, AttributeFault>
    ensures { ReadsUnless fault.Memory (λ x. x) result (code_info_of pool.now form bytes.now) }
{
    match form {
        Some(AttributeName::StackMapTable) => match whole_frames(alloc, pool, bytes) {
            Ok(frames) => Ok(CodeInfo::StackMapTable(frames)),
            Err(fault) => Err(fault),
        },
        _ => match Vec::from_slice(alloc, bytes) {
            Ok(content) => Ok(CodeInfo::Raw(Seq::from_vec(content))),
            Err(_) => Err(AttributeFault::Memory),
        },
    }
}

// Whether an attribute has a form that may stand once.
fn is_of(form: AttributeName, attribute: &CodeAttribute) -> bool
    ensures { result ≡ code_info_is form attribute.now.info }
{
    match form {
        AttributeName::StackMapTable => matches!(attribute.info, CodeInfo::StackMapTable(_)),
        _ => false,
    }
}

fn code_repeats(form: AttributeName, before: &[CodeAttribute]) -> bool
    ensures { result ≡ code_repeats form before.now }
{
    for attribute in before {
        if is_of(form, attribute) {
            return true;
        }
    }
    false
}

fn code_unless_twice(
    form: Option<AttributeName>,
    before: &[CodeAttribute],
) -> Result<Option<AttributeName>, AttributeFault>
    ensures { Reads (λ x. x) result (unless_twice code_repeats form before.now) }
{
    match form {
        Some(name) => {
            if code_repeats(name, before) {
                Err(AttributeFault::Twice(name))
            } else {
                Ok(Some(name))
            }
        }
        None => Ok(None),
    }
}

#[tactic(auto, unfolding(crate::specs::Codes::code_attribute_of))]
fn code_attribute_of(
    alloc: Global,
    pool: &Pool,
    before: &[CodeAttribute],
    name: u16,
    content: &[u8],
) -> Result<CodeAttribute, AttributeFault>
    ensures { ReadsUnless fault.Memory (λ x. x) result (code_attribute_of pool.now before.now (name, content.now)) }
{
    let form = match form_at(pool, Place::Code, name) {
        Ok(form) => form,
        Err(fault) => return Err(fault),
    };
    let once = match code_unless_twice(form, before) {
        Ok(once) => once,
        Err(fault) => return Err(fault),
    };
    match code_info_of(alloc, pool, once, content) {
        Ok(info) => Ok(CodeAttribute {
            attribute_name_index: name,
            info,
        }),
        Err(fault) => Err(fault),
    }
}

#[tactic(auto, unfolding(crate::specs::Codes::code_attribute_at))]
fn code_attribute_at<'a>(
    alloc: Global,
    pool: &Pool,
    before: &[CodeAttribute],
    bytes: &'a [u8],
) -> Result<(CodeAttribute, &'a [u8]), AttributeFault>
    ensures { ReadsUnless fault.Memory (λ x. (x.0, x.1.now)) result (code_attribute_at pool.now before.now bytes.now) }
{
    match named_bytes_at(ENDS, bytes) {
        Ok(((name, content), rest)) => match code_attribute_of(alloc, pool, before, name, content) {
            Ok(attribute) => Ok((attribute, rest)),
            Err(fault) => Err(fault),
        },
        Err(fault) => Err(fault),
    }
}

// So many attributes, put behind none, and the bytes behind them.
fn push_attributes_at<'a>(
    alloc: Global,
    pool: &Pool,
    count: u16,
    bytes: &'a [u8],
    attributes: &mut Seq<CodeAttribute>,
) -> Result<&'a [u8], AttributeFault>
    requires none { attributes.old ≡ [] }
    ensures { ReadsUnless fault.Memory (λ rest. (attributes.new, rest.now)) result (many_after (code_attribute_at pool.now) [] count bytes.now) }
{
    let mut rest = bytes;
    for _ in 0..count {
        match code_attribute_at(alloc, pool, attributes.as_slice(), rest) {
            Ok((attribute, after)) => {
                let Ok(()) = attributes.push(attribute) else {
                    return Err(AttributeFault::Memory);
                };
                rest = after;
            }
            Err(fault) => return Err(fault),
        }
    }
    Ok(rest)
}

fn so_many_attributes_at<'a>(
    alloc: Global,
    pool: &Pool,
    count: u16,
    bytes: &'a [u8],
) -> Result<(Seq<CodeAttribute>, &'a [u8]), AttributeFault>
    ensures { ReadsUnless fault.Memory (λ x. (x.0, x.1.now)) result (many_after (code_attribute_at pool.now) [] count bytes.now) }
{
    let mut attributes = Seq::new(alloc);
    match push_attributes_at(alloc, pool, count, bytes, &mut attributes) {
        Ok(rest) => Ok((attributes, rest)),
        Err(fault) => Err(fault),
    }
}

#[tactic(auto, unfolding(crate::specs::Lists::listed))]
fn code_attributes_at<'a>(
    alloc: Global,
    pool: &Pool,
    bytes: &'a [u8],
) -> Result<(Seq<CodeAttribute>, &'a [u8]), AttributeFault>
    ensures { ReadsUnless fault.Memory (λ x. (x.0, x.1.now)) result (listed (fault.Length name.Code) (code_attribute_at pool.now) bytes.now) }
{
    match u16_at(ENDS, bytes) {
        Ok((count, rest)) => so_many_attributes_at(alloc, pool, count, rest),
        Err(fault) => Err(fault),
    }
}

#[tactic(auto, unfolding(crate::specs::Codes::code_bytes_at))]
fn code_bytes_at(alloc: Global, bytes: &[u8]) -> Result<(Seq<u8>, &[u8]), AttributeFault>
    ensures { ReadsUnless fault.Memory (λ x. (x.0, x.1.now)) result (code_bytes_at bytes.now) }
{
    match u32_at(ENDS, bytes) {
        Ok((size, rest)) => {
            if size > 0 && size < 65536 {
                match bytes_at(ENDS, size as usize, rest) {
                    Ok((code, rest)) => match Vec::from_slice(alloc, code) {
                        Ok(code) => Ok((Seq::from_vec(code), rest)),
                        Err(_) => Err(AttributeFault::Memory),
                    },
                    Err(fault) => Err(fault),
                }
            } else {
                Err(ENDS)
            }
        }
        Err(fault) => Err(fault),
    }
}

fn two_at(bytes: &[u8]) -> Result<((u16, u16), &[u8]), AttributeFault>
    ensures { Reads (λ x. (x.0, x.1.now)) result (two_at bytes.now) }
{
    match u16_at(ENDS, bytes) {
        Ok((first, rest)) => match u16_at(ENDS, rest) {
            Ok((second, rest)) => Ok(((first, second), rest)),
            Err(fault) => Err(fault),
        },
        Err(fault) => Err(fault),
    }
}

#[tactic(auto, unfolding(crate::specs::Codes::handler_at))]
fn handler_at<'a>(
    pool: &Pool,
    bytes: &'a [u8],
) -> Result<(ExceptionHandler, &'a [u8]), AttributeFault>
    ensures { Reads (λ x. (x.0, x.1.now)) result (handler_at pool.now bytes.now) }
{
    let ((start_pc, end_pc), rest) = match two_at(bytes) {
        Ok(read) => read,
        Err(fault) => return Err(fault),
    };
    match u16_at(ENDS, rest) {
        Ok((handler_pc, rest)) => {
            match index_at(pool, EntryKind::CatchType, ENDS, rest) {
                Ok((catch_type, rest)) => {
                    let handler = ExceptionHandler {
                        start_pc,
                        end_pc,
                        handler_pc,
                        catch_type,
                    };
                    Ok((handler, rest))
                }
                Err(fault) => Err(fault),
            }
        }
        Err(fault) => Err(fault),
    }
}

fn so_many_handlers_at<'a>(
    alloc: Global,
    pool: &Pool,
    count: u16,
    bytes: &'a [u8],
) -> Result<(Seq<ExceptionHandler>, &'a [u8]), AttributeFault>
    ensures { ReadsUnless fault.Memory (λ x. (x.0, x.1.now)) result (many (handler_at pool.now) count bytes.now) }
{
    let mut handlers = Seq::new(alloc);
    let mut rest = bytes;
    for _ in 0..count {
        match handler_at(pool, rest) {
            Ok((handler, after)) => {
                let Ok(()) = handlers.push(handler) else {
                    return Err(AttributeFault::Memory);
                };
                rest = after;
            }
            Err(fault) => return Err(fault),
        }
    }
    Ok((handlers, rest))
}

#[tactic(auto, unfolding(crate::specs::Codes::handlers_at))]
fn handlers_at<'a>(
    alloc: Global,
    pool: &Pool,
    bytes: &'a [u8],
) -> Result<(Seq<ExceptionHandler>, &'a [u8]), AttributeFault>
    ensures { ReadsUnless fault.Memory (λ x. (x.0, x.1.now)) result (handlers_at pool.now bytes.now) }
{
    match u16_at(ENDS, bytes) {
        Ok((count, rest)) => so_many_handlers_at(alloc, pool, count, rest),
        Err(fault) => Err(fault),
    }
}

type Tables = (Seq<ExceptionHandler>, Seq<CodeAttribute>);

// The exception table and the attributes of code.
fn tables_at<'a>(
    alloc: Global,
    pool: &Pool,
    bytes: &'a [u8],
) -> Result<(Tables, &'a [u8]), AttributeFault>
    ensures { ReadsUnless fault.Memory (λ x. (x.0, x.1.now)) result (both (handlers_at pool.now) (listed (fault.Length name.Code) (code_attribute_at pool.now)) bytes.now) }
{
    match handlers_at(alloc, pool, bytes) {
        Ok((exception_table, rest)) => match code_attributes_at(alloc, pool, rest) {
            Ok((attributes, rest)) => Ok(((exception_table, attributes), rest)),
            Err(fault) => Err(fault),
        },
        Err(fault) => Err(fault),
    }
}

/// A Code attribute at the front of its bytes, and the bytes behind it.
#[tactic(auto, unfolding(crate::specs::Codes::code_at))]
pub fn code_at<'a>(
    alloc: Global,
    pool: &Pool,
    bytes: &'a [u8],
) -> Result<(Code, &'a [u8]), AttributeFault>
    ensures { ReadsUnless fault.Memory (λ x. (x.0, x.1.now)) result (code_at pool.now bytes.now) }
{
    let ((max_stack, max_locals), rest) = match two_at(bytes) {
        Ok(read) => read,
        Err(fault) => return Err(fault),
    };
    match code_bytes_at(alloc, rest) {
        Ok((code, rest)) => match tables_at(alloc, pool, rest) {
            Ok((tables, rest)) => {
                let (exception_table, attributes) = tables;
                let code = Code {
                    max_stack,
                    max_locals,
                    code,
                    exception_table,
                    attributes,
                };
                Ok((code, rest))
            }
            Err(fault) => Err(fault),
        },
        Err(fault) => Err(fault),
    }
}
