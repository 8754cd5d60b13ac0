//! All frames of a method, in order.

ghost use Rattle.std.specs.Prelude.{◌≡◌, ◌++◌, [], None, map, option_map, IfOk, OnOk};
ghost use Rattle.std.specs.List.{flat_map};
ghost use Rattle.kilim_link_spec.specs.Types.{each_of, itself};
ghost use Rattle.kilim_link_spec.specs.Code.{applied};
ghost use Rattle.kilim_link_spec.specs.Frames.{table_in, tables_in, frame_of, frame_with, place_after, placed_frame, frames_from, frames_in};
ghost use Rattle.kilim_link_members.specs.frames.Next.{IsLast, IsNext};

use crate::frames::begin::entry_locals;
use crate::frames::entries::{delta_of, entries_of};
use crate::frames::slots::{all_there, slots_of};
use kilim_class_attributes::parts::{Frame as FrameForm, VerificationType};
use kilim_class_attributes::{Code, CodeAttribute, CodeInfo};
use kilim_class_file::ClassFile;
use kilim_class_pool::Pool;
use kilim_link_spec::{DeclaredMethod, Entries};
use kilim_link_world::World;
use kilim_program::{ClassId, Frame, VType};
use kilim_units::{NoMemory, Seq, no_room};
use std::alloc::Global;

// The frames of a StackMapTable; none of another attribute.
fn table_in(info: &CodeInfo) -> &[FrameForm]
    ensures { result.now ≡ table_in info.now }
{
    match info {
        CodeInfo::StackMapTable(frames) => frames.as_slice(),
        CodeInfo::Raw(_) => &[],
    }
}

fn copied_types(
    alloc: Global,
    types: &[VerificationType],
) -> Result<Seq<VerificationType>, NoMemory>
    ensures { IfOk result (λ copy. copy ≡ types.now) }
{
    Ok(Seq::from_vec(Vec::from_slice(alloc, types)?))
}

fn copied(alloc: Global, frame: &FrameForm) -> Result<FrameForm, NoMemory>
    ensures { IfOk result (λ copy. copy ≡ frame.now) }
{
    match frame {
        FrameForm::Same(delta) => Ok(FrameForm::Same(*delta)),
        FrameForm::SameLocals1StackItem(delta, item) => {
            Ok(FrameForm::SameLocals1StackItem(*delta, *item))
        }
        FrameForm::SameLocals1StackItemExtended(delta, item) => {
            Ok(FrameForm::SameLocals1StackItemExtended(*delta, *item))
        }
        FrameForm::Chop(count, delta) => Ok(FrameForm::Chop(*count, *delta)),
        FrameForm::SameExtended(delta) => Ok(FrameForm::SameExtended(*delta)),
        FrameForm::Append(delta, locals) => {
            let Ok(locals) = copied_types(alloc, locals.as_slice()) else {
                return Err(NoMemory);
            };
            Ok(FrameForm::Append(*delta, locals))
        }
        FrameForm::Full(delta, locals, stack) => {
            let Ok(locals) = copied_types(alloc, locals.as_slice()) else {
                return Err(NoMemory);
            };
            let Ok(stack) = copied_types(alloc, stack.as_slice()) else {
                return Err(NoMemory);
            };
            Ok(FrameForm::Full(*delta, locals, stack))
        }
    }
}

// Appends copies of frames.
fn push_frames(
    alloc: Global,
    into: &mut Seq<FrameForm>,
    frames: &[FrameForm],
) -> Result<(), NoMemory>
    ensures { OnOk result (into.new ≡ into.old ++ frames.now) }
{
    for frame in frames {
        let Ok(copy) = copied(alloc, frame) else {
            return Err(NoMemory);
        };
        let Ok(()) = into.push(copy) else {
            return Err(NoMemory);
        };
    }
    Ok(())
}

// The frames of each StackMapTable of code.
fn tables_in(alloc: Global, code: &Code) -> Result<Seq<FrameForm>, NoMemory>
    ensures { IfOk result (λ frames. frames ≡ tables_in code.now) }
{
    let mut frames = Seq::new(alloc);
    for attribute in code.attributes.as_slice() {
        let Ok(()) = push_frames(alloc, &mut frames, table_in(&attribute.info)) else {
            return Err(NoMemory);
        };
    }
    Ok(frames)
}

// A frame of locals and a stack, where both are there.
fn joined(
    alloc: Global,
    locals: Option<Seq<VType>>,
    stack: Option<Seq<VType>>,
) -> Result<Option<Frame>, NoMemory>
    ensures { IfOk result (λ frame. frame ≡ applied (option_map frame_with locals) stack) }
{
    let Some(locals) = locals else {
        return Ok(None);
    };
    match stack {
        Some(stack) => match slots_of(alloc, locals.as_slice()) {
            Ok(locals) => Ok(Some(Frame { locals, stack })),
            Err(fault) => Err(fault),
        },
        None => Ok(None),
    }
}

// The frame of entries, where all their types are there.
fn frame_of(alloc: Global, entries: &Entries) -> Result<Option<Frame>, NoMemory>
    ensures { IfOk result (λ frame. frame ≡ frame_of entries.now) }
{
    let Ok(locals) = all_there(alloc, entries.locals.as_slice()) else {
        return Err(NoMemory);
    };
    let Ok(stack) = all_there(alloc, entries.stack.as_slice()) else {
        return Err(NoMemory);
    };
    joined(alloc, locals, stack)
}

// The first frame stands at its distance, each next one at the place before, its distance and one more.
fn place_after(before: Option<u32>, delta: u16) -> Result<u32, NoMemory>
    ensures { IfOk result (λ place. place ≡ place_after before delta) }
{
    let Some(before) = before else {
        return Ok(u32::from(delta));
    };
    match before.checked_add(u32::from(delta) + 1) {
        Some(place) => Ok(place),
        // room: a frame's place of 2^32
        None => Err(no_room()),
    }
}

// A frame with its place.
fn placed_frame(
    alloc: Global,
    place: u32,
    entries: &Entries,
) -> Result<Option<(u32, Frame)>, NoMemory>
    ensures { IfOk result (λ found. found ≡ placed_frame place entries.now) }
{
    match frame_of(alloc, entries) {
        Ok(Some(frame)) => Ok(Some((place, frame))),
        Ok(None) => Ok(None),
        Err(fault) => Err(fault),
    }
}

// Appends a frame with its place, and answers whether all its types are there.
fn push_placed(
    alloc: Global,
    frames: &mut Seq<(u32, Frame)>,
    place: u32,
    entries: &Entries,
) -> Result<bool, NoMemory>
    ensures { IfOk result (IsLast (placed_frame place entries.now) frames.old frames.new) }
{
    match placed_frame(alloc, place, entries) {
        Ok(Some(frame)) => match frames.push(frame) {
            Ok(()) => Ok(true),
            Err(_) => Err(NoMemory),
        },
        Ok(None) => Ok(false),
        Err(fault) => Err(fault),
    }
}

// Appends the next frame, and answers its place and its locals; none where a type in it isn't there.
fn push_next(
    alloc: Global,
    frames: &mut Seq<(u32, Frame)>,
    world: &World,
    pool: &Pool,
    before: Option<u32>,
    locals: &[Option<VType>],
    form: &FrameForm,
) -> Result<Option<(u32, Seq<Option<VType>>)>, NoMemory>
    ensures { IfOk result (IsNext world.now pool.now before locals.now form.now frames.old frames.new) }
{
    let Ok(place) = place_after(before, delta_of(form)) else {
        return Err(NoMemory);
    };
    let Ok(entries) = entries_of(alloc, world, pool, locals, form) else {
        return Err(NoMemory);
    };
    match push_placed(alloc, frames, place, &entries) {
        Ok(true) => Ok(Some((place, entries.locals))),
        Ok(false) => {
            drop(entries);
            Ok(None)
        }
        Err(fault) => {
            drop(entries);
            Err(fault)
        }
    }
}

// All frames, where the method begins with these locals.
#[tactic(auto, unfolding(kilim_link_spec::specs::Frames::frames_from))]
fn frames_from(
    alloc: Global,
    world: &World,
    pool: &Pool,
    begin: Seq<Option<VType>>,
    forms: &[FrameForm],
) -> Result<Option<Seq<(u32, Frame)>>, NoMemory>
    ensures { IfOk result (λ frames. frames ≡ each_of itself (frames_from world.now pool.now None begin forms.now)) }
{
    let mut frames = Seq::new(alloc);
    let mut locals = begin;
    let mut before = None;
    for form in forms {
        let found = push_next(
            alloc,
            &mut frames,
            world,
            pool,
            before,
            locals.as_slice(),
            form,
        );
        match found {
            Ok(Some((place, next))) => {
                before = Some(place);
                locals = next;
            }
            Ok(None) => return Ok(None),
            Err(fault) => return Err(fault),
        }
    }
    Ok(Some(frames))
}

/// The declared frames of the code of a method, each with its place in bytes, by slots (JVMS 4.7.4); none where a type
/// in one of them isn't there. A frame at a place of 4,294,967,296 or more, which no class file has, is answered as
/// want of memory.
pub fn frames_in(
    alloc: Global,
    world: &World,
    file: &ClassFile,
    class: ClassId,
    method: &DeclaredMethod,
    code: &Code,
) -> Result<Option<Seq<(u32, Frame)>>, NoMemory>
    ensures { IfOk result (λ frames. frames ≡ frames_in world.now file.now class method.now code.now) }
{
    let Ok(begin) = entry_locals(alloc, world, class, method) else {
        return Err(NoMemory);
    };
    let Ok(forms) = tables_in(alloc, code) else {
        return Err(NoMemory);
    };
    frames_from(alloc, world, &file.constant_pool, begin, forms.as_slice())
}
