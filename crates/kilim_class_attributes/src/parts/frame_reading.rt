//! Reading frames.

ghost use Rattle.std.specs.Prelude.{◌≡◌, ◌<◌, ℕ, List, Ok, IfOk};
ghost use Rattle.std.specs.Int.{w16};
ghost use Rattle.kilim_class_grammar.specs.Reader.{Reads, ReadsUnless, made, many, number_at};
ghost use Rattle.kilim_class_pool.specs.declared.entry.Entry.{Entry};
ghost use Rattle.kilim_class_attributes.specs.declared.parts.frame.Frame.TheVariants.{SameLocals1StackItem, SameLocals1StackItemExtended, Chop, SameExtended, Append, Full};
ghost use Rattle.kilim_class_attributes.specs.declared.parts.fault.AttributeFault.TheVariants.{Memory};
ghost use Rattle.kilim_class_attributes.specs.parts.Frames.{ends, type_behind, type_at, delta_and_type_at, counted_types_at, appended_at, full_at, frame_behind, frame_at, frames_at, FramesAreSized};

use crate::parts::fault::AttributeFault;
use crate::parts::frame::{Frame, VerificationType};
use crate::parts::index::{EntryKind, index_at};
use crate::parts::name::AttributeName;
use kilim_class_grammar::{u8_at, u16_at};
use kilim_class_pool::Pool;
use kilim_units::Seq;
use std::alloc::Global;

const ENDS: AttributeFault = AttributeFault::Length(AttributeName::StackMapTable);

// The type of a tag below 7, behind which nothing follows.
fn plain_type(tag: u8) -> VerificationType
    requires { tag < 7 }
    ensures { (pool : List Entry) (bytes : List ℕ) → type_behind pool tag bytes ≡ Ok (result, bytes) }
{
    if tag == 0 {
        VerificationType::Top
    } else if tag == 1 {
        VerificationType::Integer
    } else if tag == 2 {
        VerificationType::Float
    } else if tag == 3 {
        VerificationType::Double
    } else if tag == 4 {
        VerificationType::Long
    } else if tag == 5 {
        VerificationType::Null
    } else {
        VerificationType::UninitializedThis
    }
}

#[tactic(auto, unfolding(crate::specs::parts::Frames::type_behind))]
fn type_behind<'a>(
    pool: &Pool,
    tag: u8,
    bytes: &'a [u8],
) -> Result<(VerificationType, &'a [u8]), AttributeFault>
    ensures { Reads (λ x. (x.0, x.1.now)) result (type_behind pool.now tag bytes.now) }
{
    if tag < 7 {
        Ok((plain_type(tag), bytes))
    } else if tag == 7 {
        match index_at(pool, EntryKind::Class, ENDS, bytes) {
            Ok((class, rest)) => Ok((VerificationType::Object(class), rest)),
            Err(fault) => Err(fault),
        }
    } else if tag == 8 {
        match u16_at(ENDS, bytes) {
            Ok((place, rest)) => Ok((VerificationType::Uninitialized(place), rest)),
            Err(fault) => Err(fault),
        }
    } else {
        Err(AttributeFault::FrameTag(tag))
    }
}

#[tactic(auto, unfolding(crate::specs::parts::Frames::type_at))]
fn type_at<'a>(pool: &Pool, bytes: &'a [u8]) -> Result<(VerificationType, &'a [u8]), AttributeFault>
    ensures { Reads (λ x. (x.0, x.1.now)) result (type_at pool.now bytes.now) }
{
    match u8_at(ENDS, bytes) {
        Ok((tag, rest)) => type_behind(pool, tag, rest),
        Err(fault) => Err(fault),
    }
}

// A frame with one item on the stack.
fn item_at<'a>(pool: &Pool, delta: u8, bytes: &'a [u8]) -> Result<(Frame, &'a [u8]), AttributeFault>
    ensures { ReadsUnless Memory (λ x. (x.0, x.1.now)) result (made (SameLocals1StackItem delta) (type_at pool.now) bytes.now) }
{
    match type_at(pool, bytes) {
        Ok((item, rest)) => Ok((Frame::SameLocals1StackItem(delta, item), rest)),
        Err(fault) => Err(fault),
    }
}

#[tactic(auto, unfolding(crate::specs::parts::Frames::delta_and_type_at))]
fn extended_item_at<'a>(pool: &Pool, bytes: &'a [u8]) -> Result<(Frame, &'a [u8]), AttributeFault>
    ensures { ReadsUnless Memory (λ x. (x.0, x.1.now)) result (made (λ x. SameLocals1StackItemExtended x.0 x.1) (delta_and_type_at pool.now) bytes.now) }
{
    match u16_at(ENDS, bytes) {
        Ok((delta, rest)) => match type_at(pool, rest) {
            Ok((item, rest)) => Ok((Frame::SameLocals1StackItemExtended(delta, item), rest)),
            Err(fault) => Err(fault),
        },
        Err(fault) => Err(fault),
    }
}

fn chop_at(absent: u8, bytes: &[u8]) -> Result<(Frame, &[u8]), AttributeFault>
    ensures { ReadsUnless Memory (λ x. (x.0, x.1.now)) result (made (Chop absent) (number_at ends w16) bytes.now) }
{
    match u16_at(ENDS, bytes) {
        Ok((delta, rest)) => Ok((Frame::Chop(absent, delta), rest)),
        Err(fault) => Err(fault),
    }
}

fn same_extended_at(bytes: &[u8]) -> Result<(Frame, &[u8]), AttributeFault>
    ensures { ReadsUnless Memory (λ x. (x.0, x.1.now)) result (made SameExtended (number_at ends w16) bytes.now) }
{
    match u16_at(ENDS, bytes) {
        Ok((delta, rest)) => Ok((Frame::SameExtended(delta), rest)),
        Err(fault) => Err(fault),
    }
}

fn types_at<'a>(
    alloc: Global,
    pool: &Pool,
    count: u16,
    bytes: &'a [u8],
) -> Result<(Seq<VerificationType>, &'a [u8]), AttributeFault>
    ensures { ReadsUnless Memory (λ x. (x.0, x.1.now)) result (many (type_at pool.now) count bytes.now) }
{
    let mut types = Seq::new(alloc);
    let mut rest = bytes;
    for _ in 0..count {
        match type_at(pool, rest) {
            Ok((item, after)) => {
                let Ok(()) = types.push(item) else {
                    return Err(AttributeFault::Memory);
                };
                rest = after;
            }
            Err(fault) => return Err(fault),
        }
    }
    Ok((types, rest))
}

#[tactic(auto, unfolding(crate::specs::parts::Frames::counted_types_at))]
fn counted_types_at<'a>(
    alloc: Global,
    pool: &Pool,
    bytes: &'a [u8],
) -> Result<(Seq<VerificationType>, &'a [u8]), AttributeFault>
    ensures { ReadsUnless Memory (λ x. (x.0, x.1.now)) result (counted_types_at pool.now bytes.now) }
{
    match u16_at(ENDS, bytes) {
        Ok((count, rest)) => types_at(alloc, pool, count, rest),
        Err(fault) => Err(fault),
    }
}

#[tactic(auto, unfolding(crate::specs::parts::Frames::appended_at))]
fn append_at<'a>(
    alloc: Global,
    pool: &Pool,
    count: u16,
    bytes: &'a [u8],
) -> Result<(Frame, &'a [u8]), AttributeFault>
    ensures { ReadsUnless Memory (λ x. (x.0, x.1.now)) result (made (λ x. Append x.0 x.1) (appended_at pool.now count) bytes.now) }
{
    match u16_at(ENDS, bytes) {
        Ok((delta, rest)) => match types_at(alloc, pool, count, rest) {
            Ok((locals, rest)) => Ok((Frame::Append(delta, locals), rest)),
            Err(fault) => Err(fault),
        },
        Err(fault) => Err(fault),
    }
}

#[tactic(auto, unfolding(crate::specs::parts::Frames::full_at))]
fn full_at<'a>(
    alloc: Global,
    pool: &Pool,
    bytes: &'a [u8],
) -> Result<(Frame, &'a [u8]), AttributeFault>
    ensures { ReadsUnless Memory (λ x. (x.0, x.1.now)) result (made (λ x. Full x.0 x.1.0 x.1.1) (full_at pool.now) bytes.now) }
{
    let (delta, rest) = match u16_at(ENDS, bytes) {
        Ok(read) => read,
        Err(fault) => return Err(fault),
    };
    match counted_types_at(alloc, pool, rest) {
        Ok((locals, rest)) => match counted_types_at(alloc, pool, rest) {
            Ok((stack, rest)) => Ok((Frame::Full(delta, locals, stack), rest)),
            Err(fault) => Err(fault),
        },
        Err(fault) => Err(fault),
    }
}

#[tactic(auto, unfolding(crate::specs::parts::Frames::frame_behind))]
fn frame_behind<'a>(
    alloc: Global,
    pool: &Pool,
    tag: u8,
    bytes: &'a [u8],
) -> Result<(Frame, &'a [u8]), AttributeFault>
    ensures { ReadsUnless Memory (λ x. (x.0, x.1.now)) result (frame_behind pool.now tag bytes.now) }
{
    if tag < 64 {
        Ok((Frame::Same(tag), bytes))
    } else if tag < 128 {
        item_at(pool, tag - 64, bytes)
    } else if tag < 247 {
        Err(AttributeFault::FrameTag(tag))
    } else if tag == 247 {
        extended_item_at(pool, bytes)
    } else if tag < 251 {
        chop_at(251 - tag, bytes)
    } else if tag == 251 {
        same_extended_at(bytes)
    } else if tag < 255 {
        append_at(alloc, pool, u16::from(tag - 251), bytes)
    } else {
        full_at(alloc, pool, bytes)
    }
}

#[tactic(auto, unfolding(crate::specs::parts::Frames::frame_at))]
fn frame_at<'a>(
    alloc: Global,
    pool: &Pool,
    bytes: &'a [u8],
) -> Result<(Frame, &'a [u8]), AttributeFault>
    ensures { ReadsUnless Memory (λ x. (x.0, x.1.now)) result (frame_at pool.now bytes.now) }
{
    match u8_at(ENDS, bytes) {
        Ok((tag, rest)) => frame_behind(alloc, pool, tag, rest),
        Err(fault) => Err(fault),
    }
}

fn so_many_frames_at<'a>(
    alloc: Global,
    pool: &Pool,
    count: u16,
    bytes: &'a [u8],
) -> Result<(Seq<Frame>, &'a [u8]), AttributeFault>
    ensures { ReadsUnless Memory (λ x. (x.0, x.1.now)) result (many (frame_at pool.now) count bytes.now) }
{
    let mut frames = Seq::new(alloc);
    let mut rest = bytes;
    for _ in 0..count {
        match frame_at(alloc, pool, rest) {
            Ok((frame, after)) => {
                let Ok(()) = frames.push(frame) else {
                    return Err(AttributeFault::Memory);
                };
                rest = after;
            }
            Err(fault) => return Err(fault),
        }
    }
    Ok((frames, rest))
}

/// The frames at the front of the bytes of a StackMapTable (JVMS 4.7.4), a count and so many, and the bytes behind
/// them: Length(StackMapTable) where the bytes end inside them, FrameTag where no frame or no type has such a tag,
/// BadIndex where an Object type names no Class; whichever is the first.
#[tactic(auto, unfolding(crate::specs::parts::Frames::frames_at))]
pub fn frames_at<'a>(
    alloc: Global,
    pool: &Pool,
    bytes: &'a [u8],
) -> Result<(Seq<Frame>, &'a [u8]), AttributeFault>
    ensures read { ReadsUnless Memory (λ x. (x.0, x.1.now)) result (frames_at pool.now bytes.now) }

    // They can be written.
    ensures sized { IfOk result (λ x. FramesAreSized x.0) }
{
    match u16_at(ENDS, bytes) {
        Ok((count, rest)) => so_many_frames_at(alloc, pool, count, rest),
        Err(fault) => Err(fault),
    }
}
