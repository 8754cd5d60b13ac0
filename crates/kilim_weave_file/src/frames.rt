//! Declared frames, all in the full form (JVMS 4.7.4).

ghost use Rattle.std.specs.Prelude.{◌≡◌, ◌<◌, ◌-◌, ◌++◌, ◌∷◌, [], List, suc, length, map, slice_get, Some, IfOk};
ghost use Rattle.kilim_class_attributes.specs.declared.parts.frame.VerificationType.TheVariants as slot;
ghost use Rattle.kilim_program.specs.declared.verified.VType.{VType};
ghost use Rattle.kilim_program.specs.declared.verified.VType.TheVariants.{Object};
ghost use Rattle.kilim_type_spec.specs.Step.{is_long};
ghost use Rattle.kilim_weave_file.specs.Parts.{entries_from};
ghost use Rattle.kilim_weave_file_spec.specs.FullFrames.{entries, full_frame, full_frames, slot_type};

use kilim_class_attributes::parts::{Frame as Entered, VerificationType};
use kilim_class_making::pool_needs::{Need, index_of};
use kilim_class_pool::Pool;
use kilim_program::{Frame, Program, Ty, VType};
use kilim_units::{NoMemory, Seq, unmet};
use kilim_weave_file_sizes::type_name;
use std::alloc::Global;

// The entry of a class is found by the text of its name.
fn class_entry(alloc: Global, program: &Program, pool: &Pool, ty: Ty) -> Result<u16, NoMemory>
    ensures { IfOk result (λ index. slot_type program.now pool.now (Object ty) ≡ slot.Object index) }
{
    let Ok(name) = type_name(alloc, program, ty) else {
        return Err(NoMemory);
    };
    let need = Need::AClass(name);
    let index = index_of(pool, &need);
    drop(need);
    Ok(index)
}

// A place is below 65,536; another would be answered as want of memory.
fn near_place(place: u64) -> Result<u16, NoMemory>
    ensures { IfOk result (λ n. n ≡ place) }
{
    if place > 65_535 {
        // unmet: woven code is shorter than 65,536 bytes
        return Err(unmet());
    }
    Ok(place as u16)
}

fn slot_type(
    alloc: Global,
    program: &Program,
    pool: &Pool,
    of: &VType,
) -> Result<VerificationType, NoMemory>
    ensures { IfOk result (λ t. t ≡ slot_type program.now pool.now of.now) }
{
    match of {
        VType::Top => Ok(VerificationType::Top),
        VType::Int => Ok(VerificationType::Integer),
        VType::Long => Ok(VerificationType::Long),
        VType::Null => Ok(VerificationType::Null),
        VType::UninitThis => Ok(VerificationType::UninitializedThis),
        VType::Uninit(place) => match near_place(u64::from(*place)) {
            Ok(near) => Ok(VerificationType::Uninitialized(near)),
            Err(fault) => Err(fault),
        },
        VType::Object(ty) => match class_entry(alloc, program, pool, *ty) {
            Ok(index) => Ok(VerificationType::Object(index)),
            Err(fault) => Err(fault),
        },
    }
}

fn slot_types(
    alloc: Global,
    program: &Program,
    pool: &Pool,
    types: &[VType],
) -> Result<Seq<VerificationType>, NoMemory>
    ensures { IfOk result (λ ts. ts ≡ map (slot_type program.now pool.now) types.now) }
{
    let mut all = Vec::new(alloc);
    for of in types {
        let Ok(slot) = slot_type(alloc, program, pool, of) else {
            return Err(NoMemory);
        };
        let Ok(()) = all.push(slot) else {
            return Err(NoMemory);
        };
    }
    Ok(Seq::from_vec(all))
}

fn is_long(of: &VType) -> bool
    ensures { result ≡ is_long of.now }
{
    matches!(of, VType::Long)
}

fn local_at(locals: &[VType], at: usize) -> &VType
    requires { at < length locals.now }
    ensures { slice_get locals.now at ≡ Some result.now }
{
    &locals[at]
}

// One local; whether the one behind it is passed over.
fn push_entry(all: &mut Vec<VType>, skips: bool, of: &VType) -> Result<bool, NoMemory>
    ensures { IfOk result (λ next. (rest : List VType) → all.new.items ++ entries_from next rest ≡ all.old.items ++ entries_from skips (of.now ∷ rest)) }
{
    if skips {
        return Ok(false);
    }
    let Ok(()) = all.push(*of) else {
        return Err(NoMemory);
    };
    Ok(is_long(of))
}

// In the locals of a frame a long is one entry.
fn entries(alloc: Global, locals: &[VType]) -> Result<Vec<VType>, NoMemory>
    ensures { IfOk result (λ v. v.items ≡ entries locals.now) }
{
    let mut all = Vec::new(alloc);
    let mut skips = false;
    for index in 0..locals.len() {
        let of = local_at(locals, index);
        let Ok(is_next_skipped) = push_entry(&mut all, skips, of) else {
            return Err(NoMemory);
        };
        skips = is_next_skipped;
    }
    Ok(all)
}

// The distance from the place behind the frame before.
fn delta_from(next: u64, at: u32) -> Result<u16, NoMemory>
    ensures { IfOk result (λ delta. delta ≡ at - next) }
{
    near_place(u64::from(at).saturating_sub(next))
}

fn full_frame(
    alloc: Global,
    program: &Program,
    pool: &Pool,
    delta: u16,
    frame: &Frame,
) -> Result<Entered, NoMemory>
    ensures { IfOk result (λ f. f ≡ full_frame program.now pool.now delta frame.now) }
{
    let Ok(written) = entries(alloc, frame.locals.as_slice()) else {
        return Err(NoMemory);
    };
    let Ok(locals) = slot_types(alloc, program, pool, written.as_slice()) else {
        return Err(NoMemory);
    };
    let Ok(stack) = slot_types(alloc, program, pool, frame.stack.as_slice()) else {
        return Err(NoMemory);
    };
    Ok(Entered::Full(delta, locals, stack))
}

// One frame more, and the place behind it.
fn push_frame(
    alloc: Global,
    into: &mut Seq<Entered>,
    program: &Program,
    pool: &Pool,
    next: u64,
    entry: &(u32, Frame),
) -> Result<u64, NoMemory>
    ensures { IfOk result (λ behind. (behind ≡ suc entry.now.0) × (into.new ≡ into.old ++ full_frame program.now pool.now (entry.now.0 - next) entry.now.1 ∷ [])) }
{
    let Ok(delta) = delta_from(next, entry.0) else {
        return Err(NoMemory);
    };
    let Ok(frame) = full_frame(alloc, program, pool, delta, &entry.1) else {
        return Err(NoMemory);
    };
    let Ok(()) = into.push(frame) else {
        return Err(NoMemory);
    };
    Ok(place_behind(entry.0))
}

/// The frames of a table, in their order.
#[tactic(auto, unfolding(kilim_weave_file_spec::specs::FullFrames::full_frames))]
pub fn full_frames(
    alloc: Global,
    program: &Program,
    pool: &Pool,
    frames: &[(u32, Frame)],
) -> Result<Seq<Entered>, NoMemory>
    ensures { IfOk result (λ fs. fs ≡ full_frames program.now pool.now 0 frames.now) }
{
    let mut all = Seq::new(alloc);
    let mut next = 0;
    for entry in frames {
        let Ok(behind) = push_frame(alloc, &mut all, program, pool, next, entry) else {
            return Err(NoMemory);
        };
        next = behind;
    }
    Ok(all)
}

// The place behind.
fn place_behind(place: u32) -> u64
    ensures { result ≡ suc place }
{
    u64::from(place) + 1
}
