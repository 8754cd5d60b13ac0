//! Single items.

ghost use Rattle.std.specs.Prelude.{◌≡◌, ◌∷◌, ◌<◌, ◌≤◌, ◌+◌, ◌*◌, IfOk, OnOk, option_copied};
ghost use Rattle.kilim_program.specs.BuiltIn.{class_type};
ghost use Rattle.kilim_type_spec.specs.Step.{vtype, class_vtype};
ghost use Rattle.kilim_weave_spec.specs.Woven as form;
ghost use Rattle.kilim_weave_pieces.specs.Meant.{meant};
ghost use Rattle.kilim_weave_pieces.specs.Items.{items_of};

use crate::item::{Item, Items, Size};
use crate::plan::Plan;
use kilim_program::lookups::method_at;
use kilim_program::{Base, ClassId, Instr, Method, MethodId, Program, Ty, VType};
use kilim_units::{NoMemory, no_room};

/// The verification type of a value of a declared type.
pub fn vtype(ty: Ty) -> VType
    ensures { result ≡ vtype ty }
{
    if ty.dims > 0 {
        return VType::Object(ty);
    }
    match ty.base {
        Base::Long => VType::Long,
        Base::Class(_) => VType::Object(ty),
        Base::Bool | Base::Byte | Base::Char | Base::Short | Base::Int => VType::Int,
    }
}

/// The type of an object of a class.
pub fn class_vtype(class: ClassId) -> VType
    ensures { result ≡ class_vtype class }
{
    VType::Object(Ty {
        dims: 0,
        base: Base::Class(class),
    })
}

/// The length of a load or a store of a local in its shortest form.
pub fn local_size(slot: u16) -> u32
    ensures { result ≡ form.local_size slot }
{
    if slot < 4 {
        return 1;
    }
    if slot < 256 { 2 } else { 4 }
}

pub fn load_of(slot: u16, ty: VType) -> Instr
    ensures { result ≡ form.load_of slot ty }
{
    match ty {
        VType::Int => Instr::Iload(slot),
        VType::Long => Instr::Lload(slot),
        VType::Top | VType::Null | VType::UninitThis | VType::Uninit(_) | VType::Object(_) => {
            Instr::Aload(slot)
        }
    }
}

pub fn store_of(slot: u16, ty: VType) -> Instr
    ensures { result ≡ form.store_of slot ty }
{
    match ty {
        VType::Int => Instr::Istore(slot),
        VType::Long => Instr::Lstore(slot),
        VType::Top | VType::Null | VType::UninitThis | VType::Uninit(_) | VType::Object(_) => {
            Instr::Astore(slot)
        }
    }
}

pub fn dummy_of(ty: VType) -> Instr
    ensures { result ≡ form.dummy_of ty }
{
    match ty {
        VType::Int => Instr::Iconst(0),
        VType::Long => Instr::Lconst(0),
        VType::Top | VType::Null | VType::UninitThis | VType::Uninit(_) | VType::Object(_) => {
            Instr::AconstNull
        }
    }
}

pub fn return_of(ty: VType) -> Instr
    ensures { result ≡ form.return_of ty }
{
    match ty {
        VType::Int => Instr::Ireturn,
        VType::Long => Instr::Lreturn,
        VType::Top | VType::Null | VType::UninitThis | VType::Uninit(_) | VType::Object(_) => {
            Instr::Areturn
        }
    }
}

pub fn pop_of(ty: VType) -> Instr
    ensures { result ≡ form.pop_of ty }
{
    match ty {
        VType::Long => Instr::Pop2,
        VType::Top
        | VType::Int
        | VType::Null
        | VType::UninitThis
        | VType::Uninit(_)
        | VType::Object(_) => Instr::Pop,
    }
}

/// An instruction of a length that doesn't depend on its place, and that doesn't count.
pub fn add(items: &mut Items, instr: Instr, size: u32) -> Result<(), NoMemory>
    ensures { OnOk result (items_of items.new ≡ form.added instr size ∷ (items_of items.old)) }
{
    items.put(Item::Adds(instr, Size::Fixed(size), false))
}

fn load_fiber(plan: &Plan, items: &mut Items) -> Result<(), NoMemory>
    ensures { OnOk result (items_of items.new ≡ form.load_fiber (meant plan.now) ∷ (items_of items.old)) }
{
    let slot = plan.fiber;
    add(items, Instr::Aload(slot), local_size(slot))
}

// A member of the fiber, by its place among them. Want of memory comes only where it has no id.
fn member(plan: &Plan, number: u32) -> Result<MethodId, NoMemory>
    ensures { IfOk result (λ id. id ≡ form.member plan.now.program.now number) }
{
    match plan.member.checked_add(number) {
        Some(id) => Ok(MethodId(id)),
        // room: 2^32 methods
        None => Err(no_room()),
    }
}

fn call_member(plan: &Plan, number: u32, items: &mut Items) -> Result<(), NoMemory>
    ensures { OnOk result (items_of items.new ≡ form.calls_member (meant plan.now) number ∷ (items_of items.old)) }
{
    let id = member(plan, number)?;
    add(items, Instr::Invokevirtual(id), 3)
}

fn call_static(plan: &Plan, number: u32, items: &mut Items) -> Result<(), NoMemory>
    ensures { OnOk result (items_of items.new ≡ form.calls_static (meant plan.now) number ∷ (items_of items.old)) }
{
    let id = member(plan, number)?;
    add(items, Instr::Invokestatic(id), 3)
}

/// The fiber, and a call of its member of a number.
pub fn call_fiber(plan: &Plan, number: u32, items: &mut Items) -> Result<(), NoMemory>
    ensures { OnOk result (items_of items.new ≡ form.load_fiber (meant plan.now) ∷ form.calls_member (meant plan.now) number ∷ (items_of items.old)) }
{
    call_member(plan, number, items)?;
    load_fiber(plan, items)
}

/// The fiber, and a call of the static method of a number.
pub fn save_fiber(plan: &Plan, number: u32, items: &mut Items) -> Result<(), NoMemory>
    ensures { OnOk result (items_of items.new ≡ form.load_fiber (meant plan.now) ∷ form.calls_static (meant plan.now) number ∷ (items_of items.old)) }
{
    call_static(plan, number, items)?;
    load_fiber(plan, items)
}

fn if_pausable(found: Option<&Method>) -> Option<&Method>
    ensures { option_copied result ≡ form.if_there (option_copied found.entry) }
{
    match found {
        Some(method) => { if method.pausable { Some(method) } else { None } }
        None => None,
    }
}

/// The method that a pausable call names.
pub fn pausable_callee<'a>(program: &'a Program, instr: &Instr) -> Option<&'a Method>
    ensures { option_copied result ≡ form.pausable_callee program.now instr.now }
{
    match instr {
        Instr::Invokevirtual(id) | Instr::Invokespecial(id) | Instr::Invokestatic(id) => {
            if_pausable(method_at(program, *id))
        }
        _ => None,
    }
}

/// How many stack entries a call takes.
pub fn taken(callee: &Method) -> Result<usize, NoMemory>
    ensures { IfOk result (λ n. n ≡ form.taken callee.now) }
{
    let receiver: usize = if callee.is_static { 0 } else { 1 };
    match callee.params.len().checked_add(receiver) {
        Some(count) => Ok(count),
        // room: 2^64 parameters
        None => Err(no_room()),
    }
}
