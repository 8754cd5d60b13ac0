//! Writing frames.

ghost use Rattle.std.specs.Prelude.{◌≡◌, ◌++◌, ◌<◌, ◌^◌, length, OnOk};
ghost use Rattle.std.specs.List.{flat_map, AllByRecursion};
ghost use Rattle.kilim_class_grammar.specs.Spelling.{u1, u2};
ghost use Rattle.kilim_class_attributes.specs.parts.Frames.{type_tag, behind_type_tag, type_text, types_text, counted_types_text, frame_tag, behind_frame_tag, frame_text, frames_text, FrameIsSized, FramesAreSized};

use crate::parts::frame::{Frame, VerificationType};
use kilim_class_grammar::{push_u8, push_u16};
use kilim_units::Seq;
use std::alloc::AllocError;

fn type_tag(item: VerificationType) -> u8
    ensures { result ≡ type_tag item }
{
    match item {
        VerificationType::Top => 0,
        VerificationType::Integer => 1,
        VerificationType::Float => 2,
        VerificationType::Double => 3,
        VerificationType::Long => 4,
        VerificationType::Null => 5,
        VerificationType::UninitializedThis => 6,
        VerificationType::Object(_) => 7,
        VerificationType::Uninitialized(_) => 8,
    }
}

fn push_behind_type_tag(item: VerificationType, into: &mut Vec<u8>) -> Result<(), AllocError>
    ensures { OnOk result (into.new.items ≡ into.old.items ++ behind_type_tag item) }
{
    match item {
        VerificationType::Object(number) | VerificationType::Uninitialized(number) => {
            push_u16(into, number)
        }
        _ => Ok(()),
    }
}

fn push_type(item: VerificationType, into: &mut Vec<u8>) -> Result<(), AllocError>
    ensures { OnOk result (into.new.items ≡ into.old.items ++ type_text item) }
{
    let Ok(()) = push_u8(into, type_tag(item)) else {
        return Err(AllocError);
    };
    push_behind_type_tag(item, into)
}

fn push_types(types: &[VerificationType], into: &mut Vec<u8>) -> Result<(), AllocError>
    ensures { OnOk result (into.new.items ≡ into.old.items ++ types_text types.now) }
{
    for item in types {
        let Ok(()) = push_type(*item, into) else {
            return Err(AllocError);
        };
    }
    Ok(())
}

fn push_counted_types(types: &[VerificationType], into: &mut Vec<u8>) -> Result<(), AllocError>
    requires { length types.now < 2 ^ 16 }
    ensures { OnOk result (into.new.items ≡ into.old.items ++ counted_types_text types.now) }
{
    let Ok(()) = push_u16(into, types.len() as u16) else {
        return Err(AllocError);
    };
    push_types(types, into)
}

fn frame_tag(frame: &Frame) -> u8
    requires { FrameIsSized frame.now }
    ensures { result ≡ frame_tag frame.now }
{
    match frame {
        Frame::Same(delta) => *delta,
        Frame::SameLocals1StackItem(delta, _) => 64 + *delta,
        Frame::SameLocals1StackItemExtended(_, _) => 247,
        Frame::Chop(absent, _) => 251 - *absent,
        Frame::SameExtended(_) => 251,
        Frame::Append(_, locals) => 251 + locals.len() as u8,
        Frame::Full(_, _, _) => 255,
    }
}

fn push_behind_frame_tag(frame: &Frame, into: &mut Vec<u8>) -> Result<(), AllocError>
    requires { FrameIsSized frame.now }
    ensures { OnOk result (into.new.items ≡ into.old.items ++ behind_frame_tag frame.now) }
{
    match frame {
        Frame::Same(_) => Ok(()),
        Frame::SameLocals1StackItem(_, item) => push_type(*item, into),
        Frame::SameLocals1StackItemExtended(delta, item) => {
            let Ok(()) = push_u16(into, *delta) else {
                return Err(AllocError);
            };
            push_type(*item, into)
        }
        Frame::Chop(_, delta) | Frame::SameExtended(delta) => push_u16(into, *delta),
        Frame::Append(delta, locals) => {
            let Ok(()) = push_u16(into, *delta) else {
                return Err(AllocError);
            };
            push_types(locals.as_slice(), into)
        }
        Frame::Full(delta, locals, stack) => {
            let Ok(()) = push_u16(into, *delta) else {
                return Err(AllocError);
            };
            let Ok(()) = push_counted_types(locals.as_slice(), into) else {
                return Err(AllocError);
            };
            push_counted_types(stack.as_slice(), into)
        }
    }
}

fn push_frame(frame: &Frame, into: &mut Vec<u8>) -> Result<(), AllocError>
    requires { FrameIsSized frame.now }
    ensures { OnOk result (into.new.items ≡ into.old.items ++ frame_text frame.now) }
{
    let Ok(()) = push_u8(into, frame_tag(frame)) else {
        return Err(AllocError);
    };
    push_behind_frame_tag(frame, into)
}

fn push_each_frame(frames: &[Frame], into: &mut Vec<u8>) -> Result<(), AllocError>
    requires { AllByRecursion FrameIsSized frames.now }
    ensures { OnOk result (into.new.items ≡ into.old.items ++ flat_map frame_text frames.now) }
{
    for frame in frames {
        let Ok(()) = push_frame(frame, into) else {
            return Err(AllocError);
        };
    }
    Ok(())
}

/// Appends the count and the text of frames (JVMS 4.7.4), each in its form. For want of memory a front of it may
/// stand at the end.
pub fn push_frames(frames: &Seq<Frame>, into: &mut Vec<u8>) -> Result<(), AllocError>
    requires { FramesAreSized frames.now }
    ensures { OnOk result (into.new.items ≡ into.old.items ++ frames_text frames.now) }
{
    let Ok(()) = push_u16(into, frames.len() as u16) else {
        return Err(AllocError);
    };
    push_each_frame(frames.as_slice(), into)
}
