//! What each frame says.

ghost use Rattle.std.specs.Prelude.{◌≡◌, ◌++◌, ◌∷◌, [], ◌-◌, map, take, length, IfOk};
ghost use Rattle.kilim_link_spec.specs.Frames.{slot_in, delta_of, entries_of};

use crate::frames::slots::push_slots;
use kilim_class_attributes::parts::{Frame, VerificationType};
use kilim_class_pool::Pool;
use kilim_link_spec::Entries;
use kilim_link_world::World;
use kilim_program::VType;
use kilim_units::{NoMemory, Seq};
use std::alloc::Global;

/// The distance that a frame writes down, in bytes (JVMS 4.7.4).
pub fn delta_of(frame: &Frame) -> u16
    ensures { result ≡ delta_of frame.now }
{
    match frame {
        Frame::Same(delta) | Frame::SameLocals1StackItem(delta, _) => u16::from(*delta),
        Frame::SameLocals1StackItemExtended(delta, _)
        | Frame::Chop(_, delta)
        | Frame::SameExtended(delta)
        | Frame::Append(delta, _)
        | Frame::Full(delta, _, _) => *delta,
    }
}

fn copied(alloc: Global, locals: &[Option<VType>]) -> Result<Seq<Option<VType>>, NoMemory>
    ensures { IfOk result (λ copy. copy ≡ locals.now) }
{
    Ok(Seq::from_vec(Vec::from_slice(alloc, locals)?))
}

// The same locals and nothing on the stack.
fn same(alloc: Global, locals: &[Option<VType>]) -> Result<Entries, NoMemory>
    ensures { IfOk result (λ e. e ≡ record { locals = locals.now; stack = [] }) }
{
    Ok(Entries {
        locals: copied(alloc, locals)?,
        stack: Seq::new(alloc),
    })
}

// The types of slots, each where it is there.
fn slots_in(
    alloc: Global,
    world: &World,
    pool: &Pool,
    slots: &[VerificationType],
) -> Result<Seq<Option<VType>>, NoMemory>
    ensures { IfOk result (λ found. found ≡ map (slot_in world.now pool.now) slots.now) }
{
    let mut found = Seq::new(alloc);
    let Ok(()) = push_slots(alloc, &mut found, world, pool, slots) else {
        return Err(NoMemory);
    };
    Ok(found)
}

// The same locals and one item on the stack.
fn with_item(
    alloc: Global,
    world: &World,
    pool: &Pool,
    locals: &[Option<VType>],
    item: VerificationType,
) -> Result<Entries, NoMemory>
    ensures { IfOk result (λ e. e ≡ record { locals = locals.now; stack = slot_in world.now pool.now item ∷ [] }) }
{
    let Ok(stack) = slots_in(alloc, world, pool, &[item]) else {
        return Err(NoMemory);
    };
    let Ok(locals) = copied(alloc, locals) else {
        return Err(NoMemory);
    };
    Ok(Entries { locals, stack })
}

// Without so many of the last locals; none where there are fewer.
fn chopped(alloc: Global, locals: &[Option<VType>], count: u8) -> Result<Entries, NoMemory>
    ensures { IfOk result (λ e. e ≡ record { locals = take (length locals.now - count) locals.now; stack = [] }) }
{
    let count = usize::from(count);
    if locals.len() < count {
        return same(alloc, &[]);
    }
    same(alloc, &locals[..locals.len() - count])
}

// With more locals behind the others.
fn appended(
    alloc: Global,
    world: &World,
    pool: &Pool,
    locals: &[Option<VType>],
    more: &[VerificationType],
) -> Result<Entries, NoMemory>
    ensures { IfOk result (λ e. e ≡ record { locals = locals.now ++ map (slot_in world.now pool.now) more.now; stack = [] }) }
{
    let Ok(mut all) = copied(alloc, locals) else {
        return Err(NoMemory);
    };
    let Ok(()) = push_slots(alloc, &mut all, world, pool, more) else {
        return Err(NoMemory);
    };
    Ok(Entries {
        locals: all,
        stack: Seq::new(alloc),
    })
}

// With all locals and the whole stack anew.
fn full(
    alloc: Global,
    world: &World,
    pool: &Pool,
    all: &[VerificationType],
    items: &[VerificationType],
) -> Result<Entries, NoMemory>
    ensures { IfOk result (λ e. e ≡ record { locals = map (slot_in world.now pool.now) all.now; stack = map (slot_in world.now pool.now) items.now }) }
{
    let Ok(locals) = slots_in(alloc, world, pool, all) else {
        return Err(NoMemory);
    };
    let Ok(stack) = slots_in(alloc, world, pool, items) else {
        return Err(NoMemory);
    };
    Ok(Entries { locals, stack })
}

/// The locals and the stack of a frame by entries, where the frame before it had these locals (JVMS 4.7.4). A chop that
/// takes away more of them than there are leaves none.
pub fn entries_of(
    alloc: Global,
    world: &World,
    pool: &Pool,
    locals: &[Option<VType>],
    frame: &Frame,
) -> Result<Entries, NoMemory>
    ensures { IfOk result (λ e. e ≡ entries_of world.now pool.now locals.now frame.now) }
{
    match frame {
        Frame::Same(_) | Frame::SameExtended(_) => same(alloc, locals),
        Frame::SameLocals1StackItem(_, item) | Frame::SameLocals1StackItemExtended(_, item) => {
            with_item(alloc, world, pool, locals, *item)
        }
        Frame::Chop(count, _) => chopped(alloc, locals, *count),
        Frame::Append(_, more) => appended(alloc, world, pool, locals, more.as_slice()),
        Frame::Full(_, all, items) => full(alloc, world, pool, all.as_slice(), items.as_slice()),
    }
}
