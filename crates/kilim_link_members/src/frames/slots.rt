//! The types of slots.

ghost use Rattle.std.specs.Prelude.{◌≡◌, ◌++◌, map, option_map, IfOk, OnOk};
ghost use Rattle.std.specs.List.{flat_map};
ghost use Rattle.kilim_program.specs.declared.verified.VType.TheVariants.{Object};
ghost use Rattle.kilim_link_spec.specs.World.{class_text};
ghost use Rattle.kilim_link_spec.specs.Types.{each_of, itself, named_by, type_named};
ghost use Rattle.kilim_link_spec.specs.Frames.{slot_in, slot_of_base, slot_of_type, local_slots};

use kilim_class_attributes::parts::VerificationType;
use kilim_class_pool::Pool;
use kilim_link_mentions::named_by;
use kilim_link_views::class_text;
use kilim_link_world::World;
use kilim_link_world::types::type_named;
use kilim_program::{Base, Ty, VType};
use kilim_units::{NoMemory, Seq};
use std::alloc::Global;

// An object of the type that an index names as a class.
fn object_in(
    alloc: Global,
    world: &World,
    pool: &Pool,
    class: u16,
) -> Result<Option<VType>, NoMemory>
    ensures { IfOk result (λ slot. slot ≡ option_map Object (type_named world.now (named_by (class_text pool.now class)))) }
{
    let named = named_by(alloc, class_text(pool, class))?;
    let ty = type_named(world, &named);
    drop(named);
    match ty {
        Some(ty) => Ok(Some(VType::Object(ty))),
        None => Ok(None),
    }
}

/// The type of a slot in a program, where it is there (JVMS 4.7.4); none for float and double.
pub fn slot_in(
    alloc: Global,
    world: &World,
    pool: &Pool,
    slot: VerificationType,
) -> Result<Option<VType>, NoMemory>
    ensures { IfOk result (λ found. found ≡ slot_in world.now pool.now slot) }
{
    match slot {
        VerificationType::Top => Ok(Some(VType::Top)),
        VerificationType::Integer => Ok(Some(VType::Int)),
        VerificationType::Float | VerificationType::Double => Ok(None),
        VerificationType::Long => Ok(Some(VType::Long)),
        VerificationType::Null => Ok(Some(VType::Null)),
        VerificationType::UninitializedThis => Ok(Some(VType::UninitThis)),
        VerificationType::Object(class) => object_in(alloc, world, pool, class),
        VerificationType::Uninitialized(place) => Ok(Some(VType::Uninit(u32::from(place)))),
    }
}

/// Appends the types of slots, each where it is there.
pub fn push_slots(
    alloc: Global,
    into: &mut Seq<Option<VType>>,
    world: &World,
    pool: &Pool,
    slots: &[VerificationType],
) -> Result<(), NoMemory>
    ensures { OnOk result (into.new ≡ into.old ++ map (slot_in world.now pool.now) slots.now) }
{
    for slot in slots {
        let Ok(found) = slot_in(alloc, world, pool, *slot) else {
            return Err(NoMemory);
        };
        let Ok(()) = into.push(found) else {
            return Err(NoMemory);
        };
    }
    Ok(())
}

fn slot_of_base(base: Base) -> VType
    ensures { result ≡ slot_of_base base }
{
    match base {
        Base::Long => VType::Long,
        Base::Class(_) => VType::Object(Ty { dims: 0, base }),
        Base::Bool | Base::Byte | Base::Char | Base::Short | Base::Int => VType::Int,
    }
}

/// The type with which an argument stands in the locals: int-like types are ints, arrays are objects (JVMS 4.10.1.2).
pub fn slot_of_type(ty: Ty) -> VType
    ensures { result ≡ slot_of_type ty }
{
    if ty.dims == 0 {
        slot_of_base(ty.base)
    } else {
        VType::Object(ty)
    }
}

/// All types of slots, where each is there.
pub fn all_there(alloc: Global, slots: &[Option<VType>]) -> Result<Option<Seq<VType>>, NoMemory>
    ensures { IfOk result (λ found. found ≡ each_of itself slots.now) }
{
    let mut found = Seq::new(alloc);
    for slot in slots {
        match *slot {
            Some(there) => {
                let Ok(()) = found.push(there) else {
                    return Err(NoMemory);
                };
            }
            None => return Ok(None),
        }
    }
    Ok(Some(found))
}

// Appends the slots that a local takes.
fn push_local(into: &mut Seq<VType>, local: VType) -> Result<(), NoMemory>
    ensures { OnOk result (into.new ≡ into.old ++ local_slots local) }
{
    let Ok(()) = into.push(local) else {
        return Err(NoMemory);
    };
    if let VType::Long = local {
        let Ok(()) = into.push(VType::Top) else {
            return Err(NoMemory);
        };
    }
    Ok(())
}

/// The locals of entries by slots, of which a long takes two (JVMS 4.7.4).
pub fn slots_of(alloc: Global, locals: &[VType]) -> Result<Seq<VType>, NoMemory>
    ensures { IfOk result (λ slots. slots ≡ flat_map local_slots locals.now) }
{
    let mut slots = Seq::new(alloc);
    for local in locals {
        let Ok(()) = push_local(&mut slots, *local) else {
            return Err(NoMemory);
        };
    }
    Ok(slots)
}
