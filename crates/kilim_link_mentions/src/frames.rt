//! What frames name.

ghost use Rattle.std.specs.Prelude.{◌≡◌, ◌++◌, OnOk};
ghost use Rattle.std.specs.List.{flat_map};
ghost use Rattle.std.specs.Option.{option_copied};
ghost use Rattle.kilim_link_spec.specs.Frames.{table_in};
ghost use Rattle.kilim_link_spec.specs.Mentions.{frames_if, mentions_of_slot, slots_of_frame};

use crate::descriptors::named_by;
use kilim_class_attributes::{Code, CodeAttribute, CodeInfo, Frame, VerificationType};
use kilim_class_pool::Pool;
use kilim_link_spec::Mention;
use kilim_link_views::class_text;
use kilim_units::{NoMemory, Seq};
use std::alloc::Global;

fn push_slot(
    alloc: Global,
    into: &mut Seq<Mention>,
    pool: &Pool,
    slot: VerificationType,
) -> Result<(), NoMemory>
    ensures { OnOk result (into.new ≡ into.old ++ mentions_of_slot pool.now slot) }
{
    match slot {
        VerificationType::Object(class) => {
            let Ok(class) = named_by(alloc, class_text(pool, class)) else {
                return Err(NoMemory);
            };
            let Ok(()) = into.push(Mention::OfClass(class)) else {
                return Err(NoMemory);
            };
        }
        VerificationType::Float | VerificationType::Double => {
            let Ok(()) = into.push(Mention::OfFloat) else {
                return Err(NoMemory);
            };
        }
        _ => {}
    }
    Ok(())
}

fn push_slots(
    alloc: Global,
    into: &mut Seq<Mention>,
    pool: &Pool,
    slots: &[VerificationType],
) -> Result<(), NoMemory>
    ensures { OnOk result (into.new ≡ into.old ++ flat_map (mentions_of_slot pool.now) slots.now) }
{
    for slot in slots {
        let Ok(()) = push_slot(alloc, into, pool, *slot) else {
            return Err(NoMemory);
        };
    }
    Ok(())
}

fn push_frame(
    alloc: Global,
    into: &mut Seq<Mention>,
    pool: &Pool,
    frame: &Frame,
) -> Result<(), NoMemory>
    ensures { OnOk result (into.new ≡ into.old ++ flat_map (mentions_of_slot pool.now) (slots_of_frame frame.now)) }
{
    match frame {
        Frame::SameLocals1StackItem(_, item) => push_slot(alloc, into, pool, *item),
        Frame::SameLocals1StackItemExtended(_, item) => push_slot(alloc, into, pool, *item),
        Frame::Append(_, locals) => push_slots(alloc, into, pool, locals.as_slice()),
        Frame::Full(_, locals, stack) => {
            let Ok(()) = push_slots(alloc, into, pool, locals.as_slice()) else {
                return Err(NoMemory);
            };
            push_slots(alloc, into, pool, stack.as_slice())
        }
        _ => Ok(()),
    }
}

fn push_each_frame(
    alloc: Global,
    into: &mut Seq<Mention>,
    pool: &Pool,
    frames: &[Frame],
) -> Result<(), NoMemory>
    ensures { OnOk result (into.new ≡ into.old ++ flat_map (λ f. flat_map (mentions_of_slot pool.now) (slots_of_frame f)) frames.now) }
{
    for frame in frames {
        let Ok(()) = push_frame(alloc, into, pool, frame) else {
            return Err(NoMemory);
        };
    }
    Ok(())
}

fn push_table(
    alloc: Global,
    into: &mut Seq<Mention>,
    pool: &Pool,
    info: &CodeInfo,
) -> Result<(), NoMemory>
    ensures { OnOk result (into.new ≡ into.old ++ flat_map (λ f. flat_map (mentions_of_slot pool.now) (slots_of_frame f)) (table_in info.now)) }
{
    match info {
        CodeInfo::StackMapTable(frames) => push_each_frame(alloc, into, pool, frames.as_slice()),
        CodeInfo::Raw(_) => Ok(()),
    }
}

fn push_tables(
    alloc: Global,
    into: &mut Seq<Mention>,
    pool: &Pool,
    attributes: &[CodeAttribute],
) -> Result<(), NoMemory>
    ensures { OnOk result (into.new ≡ into.old ++ flat_map (λ f. flat_map (mentions_of_slot pool.now) (slots_of_frame f)) (flat_map (λ a. table_in a.info) attributes.now)) }
{
    for attribute in attributes {
        let Ok(()) = push_table(alloc, into, pool, &attribute.info) else {
            return Err(NoMemory);
        };
    }
    Ok(())
}

/// Appends what the frames of code name, of each of its tables, the locals before the stack (JVMS 4.7.4).
pub fn push_frames(
    alloc: Global,
    into: &mut Seq<Mention>,
    pool: &Pool,
    code: Option<&Code>,
) -> Result<(), NoMemory>
    ensures { OnOk result (into.new ≡ into.old ++ flat_map (λ f. flat_map (mentions_of_slot pool.now) (slots_of_frame f)) (frames_if (option_copied code.entry))) }
{
    match code {
        None => Ok(()),
        Some(code) => push_tables(alloc, into, pool, code.attributes.as_slice()),
    }
}
