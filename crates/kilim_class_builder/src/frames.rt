//! Frames, all in the full form (JVMS 4.7.4).

ghost use Rattle.std.specs.Prelude.{◌≡◌, ◌<◌, ◌-◌, ◌++◌, ◌∷◌, List, suc, length, map, slice_get, Some, false, IfOk, OnOk, codes, option_copied};
ghost use Rattle.std.specs.List.{flat_map};
ghost use Rattle.kilim_class_file.specs.Parts.{text_of};
ghost use Rattle.kilim_program.specs.declared.verified.VType.{VType};
ghost use Rattle.kilim_class_pool.specs.Entries.{entry_at};
ghost use Rattle.kilim_class_builder.specs.Frames.{array_names, array_text, base_text, class_number, frame_names, frames_names, full_frame, full_frames, is_long, name_in, object_index, slot_type, written};

use kilim_class_attributes::parts::{Frame as Entered, VerificationType};
use kilim_class_making::pool_needs::{Need, index_of};
use kilim_class_pool::{Entry, Pool};
use kilim_program::{Base, Frame, Ty, VType};
use kilim_units::{NoMemory, Seq, Units};
use std::alloc::Global;

/// The unit with which an array's descriptor begins, once for each dimension.
const BRACKET: u16 = 91;

// ---- names

// Adds the units of a Utf8; none where another entry stands there.
#[tactic(auto, unfolding(kilim_class_file::specs::Parts::text_of))]
fn push_text(out: &mut Vec<u16>, pool: &Pool, index: u16) -> Result<(), NoMemory>
    ensures { OnOk result (out.new.items ≡ out.old.items ++ text_of pool.now index) }
{
    match pool.entry(index) {
        Some(Entry::Utf8(units)) => out.extend_from_slice(units.as_slice())?,
        _ => {}
    }
    Ok(())
}

fn push_name(out: &mut Vec<u16>, pool: &Pool, entry: Option<&Entry>) -> Result<(), NoMemory>
    ensures { OnOk result (out.new.items ≡ out.old.items ++ name_in pool.now (option_copied entry.entry)) }
{
    match entry {
        Some(Entry::Class(name)) => push_text(out, pool, *name),
        _ => Ok(()),
    }
}

// The number of a class as an index. One above 65,535 names none: it is answered as want of memory.
fn near(number: u32) -> Result<u16, NoMemory>
    ensures { IfOk result (λ n. n ≡ number) }
{
    if number > 65_535 {
        return Err(NoMemory);
    }
    Ok(number as u16)
}

fn push_class(out: &mut Vec<u16>, pool: &Pool, number: u32) -> Result<(), NoMemory>
    ensures { OnOk result (out.new.items ≡ out.old.items ++ name_in pool.now (entry_at pool.now number)) }
{
    let index = near(number)?;
    push_name(out, pool, pool.entry(index))
}

fn push_class_text(out: &mut Vec<u16>, pool: &Pool, number: u32) -> Result<(), NoMemory>
    ensures { OnOk result (out.new.items ≡ out.old.items ++ (codes "L" ++ (name_in pool.now (entry_at pool.now number) ++ codes ";"))) }
{
    out.push(u16::from(b'L'))?;
    push_class(out, pool, number)?;
    out.push(u16::from(b';'))?;
    Ok(())
}

fn push_base(out: &mut Vec<u16>, pool: &Pool, base: Base) -> Result<(), NoMemory>
    ensures { OnOk result (out.new.items ≡ out.old.items ++ base_text pool.now base) }
{
    let letter = match base {
        Base::Bool => b'Z',
        Base::Byte => b'B',
        Base::Char => b'C',
        Base::Short => b'S',
        Base::Int => b'I',
        Base::Long => b'J',
        Base::Class(class) => return push_class_text(out, pool, class.0),
    };
    out.push(u16::from(letter))?;
    Ok(())
}

// The descriptor of an array.
fn push_array_text(out: &mut Vec<u16>, pool: &Pool, ty: Ty) -> Result<(), NoMemory>
    ensures { OnOk result (out.new.items ≡ out.old.items ++ array_text pool.now ty) }
{
    for _ in 0..ty.dims {
        out.push(BRACKET)?;
    }
    push_base(out, pool, ty.base)
}

fn array_text(alloc: Global, pool: &Pool, ty: Ty) -> Result<Units, NoMemory>
    ensures { IfOk result (λ units. units ≡ array_text pool.now ty) }
{
    let mut out = Vec::new(alloc);
    push_array_text(&mut out, pool, ty)?;
    Ok(Units::from_vec(alloc, out)?)
}

fn push_array(
    alloc: Global,
    names: &mut Vec<Units>,
    pool: &Pool,
    of: &VType,
) -> Result<(), NoMemory>
    ensures { OnOk result (names.new.items ≡ names.old.items ++ array_names pool.now of.now) }
{
    match of {
        VType::Object(ty) => {
            if ty.dims != 0 {
                names.push(array_text(alloc, pool, *ty)?)?;
            }
        }
        _ => {}
    }
    Ok(())
}

fn push_arrays(
    alloc: Global,
    names: &mut Vec<Units>,
    pool: &Pool,
    types: &[VType],
) -> Result<(), NoMemory>
    ensures { OnOk result (names.new.items ≡ names.old.items ++ flat_map (array_names pool.now) types.now) }
{
    for of in types {
        push_array(alloc, names, pool, of)?;
    }
    Ok(())
}

fn push_frame_names(
    alloc: Global,
    names: &mut Vec<Units>,
    pool: &Pool,
    frame: &Frame,
) -> Result<(), NoMemory>
    ensures { OnOk result (names.new.items ≡ names.old.items ++ frame_names pool.now frame.now) }
{
    push_arrays(alloc, names, pool, frame.locals.as_slice())?;
    push_arrays(alloc, names, pool, frame.stack.as_slice())
}

/// The names of the arrays in frames, in order.
#[tactic(auto, unfolding(crate::specs::Frames::frames_names))]
pub fn frames_names(
    alloc: Global,
    pool: &Pool,
    frames: &[(u32, Frame)],
) -> Result<Vec<Units>, NoMemory>
    ensures { IfOk result (λ names. names.items ≡ frames_names pool.now frames.now) }
{
    let mut names = Vec::new(alloc);
    for entry in frames {
        push_frame_names(alloc, &mut names, pool, &entry.1)?;
    }
    Ok(names)
}

// ---- slots

fn class_number(base: Base) -> Result<u16, NoMemory>
    ensures { IfOk result (λ n. n ≡ class_number base) }
{
    match base {
        Base::Class(class) => near(class.0),
        _ => Ok(0),
    }
}

fn object_index(alloc: Global, pool: &Pool, ty: Ty) -> Result<u16, NoMemory>
    ensures { IfOk result (λ index. index ≡ object_index pool.now ty) }
{
    if ty.dims == 0 {
        return class_number(ty.base);
    }
    let name = array_text(alloc, pool, ty)?;
    let need = Need::AClass(name);
    Ok(index_of(pool, &need))
}

fn slot_type(alloc: Global, pool: &Pool, of: &VType) -> Result<VerificationType, NoMemory>
    ensures { IfOk result (λ t. t ≡ slot_type pool.now of.now) }
{
    match of {
        VType::Top => Ok(VerificationType::Top),
        VType::Int => Ok(VerificationType::Integer),
        VType::Long => Ok(VerificationType::Long),
        VType::Null => Ok(VerificationType::Null),
        VType::UninitThis => Ok(VerificationType::UninitializedThis),
        VType::Uninit(place) => Ok(VerificationType::Uninitialized(near(*place)?)),
        VType::Object(ty) => Ok(VerificationType::Object(object_index(alloc, pool, *ty)?)),
    }
}

fn slot_types(
    alloc: Global,
    pool: &Pool,
    types: &[VType],
) -> Result<Seq<VerificationType>, NoMemory>
    ensures { IfOk result (λ ts. ts ≡ map (slot_type pool.now) types.now) }
{
    let mut all = Vec::new(alloc);
    for of in types {
        all.push(slot_type(alloc, pool, of)?)?;
    }
    Ok(Seq::from_vec(all))
}

fn is_long(of: &VType) -> bool
    ensures { result ≡ is_long of.now }
{
    matches!(of, VType::Long)
}

fn local_at(locals: &[VType], at: usize) -> &VType
    requires { at < length locals.now }
    ensures { slice_get locals.now at ≡ Some result.now }
{
    &locals[at]
}

// One local; whether the one behind it is passed over.
fn push_written(all: &mut Vec<VType>, skips: bool, of: &VType) -> Result<bool, NoMemory>
    ensures { IfOk result (λ next. (rest : List VType) → all.new.items ++ written next rest ≡ all.old.items ++ written skips (of.now ∷ rest)) }
{
    if skips {
        return Ok(false);
    }
    all.push(*of)?;
    Ok(is_long(of))
}

// The locals that are written.
fn written(alloc: Global, locals: &[VType]) -> Result<Vec<VType>, NoMemory>
    ensures { IfOk result (λ v. v.items ≡ written false locals.now) }
{
    let mut all = Vec::new(alloc);
    let mut skips = false;
    for index in 0..locals.len() {
        let of = local_at(locals, index);
        skips = push_written(&mut all, skips, of)?;
    }
    Ok(all)
}

// The distance from the place behind the frame before.
fn delta_from(next: u32, at: u32) -> Result<u16, NoMemory>
    ensures { IfOk result (λ delta. delta ≡ at - next) }
{
    near(at.saturating_sub(next))
}

fn full_frame(alloc: Global, pool: &Pool, delta: u16, frame: &Frame) -> Result<Entered, NoMemory>
    ensures { IfOk result (λ f. f ≡ full_frame pool.now delta frame.now) }
{
    let locals = written(alloc, frame.locals.as_slice())?;
    let entries = slot_types(alloc, pool, locals.as_slice())?;
    let stack = slot_types(alloc, pool, frame.stack.as_slice())?;
    Ok(Entered::Full(delta, entries, stack))
}

// The place behind.
fn behind(place: u32) -> Result<u32, NoMemory>
    ensures { IfOk result (λ n. n ≡ suc place) }
{
    if place > 65_535 {
        return Err(NoMemory);
    }
    Ok(place + 1)
}

/// The frames of a table, in their order.
#[tactic(auto, unfolding(crate::specs::Frames::full_frames))]
pub fn full_frames(
    alloc: Global,
    pool: &Pool,
    frames: &[(u32, Frame)],
) -> Result<Seq<Entered>, NoMemory>
    ensures { IfOk result (λ fs. fs ≡ full_frames pool.now 0 frames.now) }
{
    let mut all = Seq::new(alloc);
    let mut next = 0;
    for entry in frames {
        let delta = delta_from(next, entry.0)?;
        all.push(full_frame(alloc, pool, delta, &entry.1)?)?;
        next = behind(entry.0)?;
    }
    Ok(all)
}
