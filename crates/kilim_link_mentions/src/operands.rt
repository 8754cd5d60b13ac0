//! What indices of the pool name.

ghost use Rattle.std.specs.Prelude.{◌≡◌, Some, IfOk, option_map};
ghost use Rattle.std.specs.Option.{option_copied};
ghost use Rattle.kilim_class_file.specs.Parts.{text_of};
ghost use Rattle.kilim_link_spec.specs.World.{class_text};
ghost use Rattle.kilim_link_spec.specs.declared.named.Operand.TheVariants.{AConstant, AField, AMethod, AType};
ghost use Rattle.kilim_link_spec.specs.Code.{operand_at, index_operand, constant_ref, ref_with, field_ref, method_ref, any_method_ref, class_ref, unless_array};
ghost use Rattle.kilim_link_spec.specs.Mentions.{operand_of};

use crate::code::index_in;
use crate::constants::constant_ref;
use crate::descriptors::named_by;
use kilim_class_code::opcodes::RawInstr;
use kilim_class_pool::{Entry, Pool};
use kilim_link_spec::{MemberOf, Named, Operand};
use kilim_link_views::{class_text, text_of};
use kilim_units::{NoMemory, Units};
use std::alloc::Global;

// A member by its class, its name and its descriptor.
fn member_of(
    alloc: Global,
    pool: &Pool,
    class: u16,
    name: u16,
    descriptor: u16,
) -> Result<MemberOf, NoMemory>
    ensures { IfOk result (λ found. found ≡ record { owner = class_text pool.now class; name = text_of pool.now name; descriptor = text_of pool.now descriptor }) }
{
    let Ok(owner) = Units::from_slice(alloc, class_text(pool, class)) else {
        return Err(NoMemory);
    };
    let Ok(name) = Units::from_slice(alloc, text_of(pool, name)) else {
        return Err(NoMemory);
    };
    let Ok(descriptor) = Units::from_slice(alloc, text_of(pool, descriptor)) else {
        return Err(NoMemory);
    };
    Ok(MemberOf {
        owner,
        name,
        descriptor,
    })
}

// A field by its class and its entry of name and descriptor (JVMS 4.4.6).
fn field_with(
    alloc: Global,
    pool: &Pool,
    class: u16,
    entry: Option<&Entry>,
) -> Result<Option<Operand>, NoMemory>
    ensures { IfOk result (λ found. found ≡ option_map AField (ref_with pool.now class (option_copied entry.entry))) }
{
    match entry {
        Some(Entry::NameAndType(name, descriptor)) => {
            let member = member_of(alloc, pool, class, *name, *descriptor)?;
            Ok(Some(Operand::AField(member)))
        }
        _ => Ok(None),
    }
}

// A method likewise.
fn method_with(
    alloc: Global,
    pool: &Pool,
    class: u16,
    entry: Option<&Entry>,
) -> Result<Option<Operand>, NoMemory>
    ensures { IfOk result (λ found. found ≡ option_map AMethod (ref_with pool.now class (option_copied entry.entry))) }
{
    match entry {
        Some(Entry::NameAndType(name, descriptor)) => {
            let member = member_of(alloc, pool, class, *name, *descriptor)?;
            Ok(Some(Operand::AMethod(member)))
        }
        _ => Ok(None),
    }
}

// What a Fieldref names (JVMS 4.4.2).
fn field_operand(
    alloc: Global,
    pool: &Pool,
    entry: Option<&Entry>,
) -> Result<Option<Operand>, NoMemory>
    ensures { IfOk result (λ found. found ≡ option_map AField (field_ref pool.now (option_copied entry.entry))) }
{
    match entry {
        Some(Entry::Fieldref(class, member)) => {
            field_with(alloc, pool, *class, pool.entry(*member))
        }
        _ => Ok(None),
    }
}

// What a Methodref names (JVMS 4.4.2).
fn method_operand(
    alloc: Global,
    pool: &Pool,
    entry: Option<&Entry>,
) -> Result<Option<Operand>, NoMemory>
    ensures { IfOk result (λ found. found ≡ option_map AMethod (method_ref pool.now (option_copied entry.entry))) }
{
    match entry {
        Some(Entry::Methodref(class, member)) => {
            method_with(alloc, pool, *class, pool.entry(*member))
        }
        _ => Ok(None),
    }
}

// What a Methodref or an InterfaceMethodref names (JVMS 6.5).
fn any_method_operand(
    alloc: Global,
    pool: &Pool,
    entry: Option<&Entry>,
) -> Result<Option<Operand>, NoMemory>
    ensures { IfOk result (λ found. found ≡ option_map AMethod (any_method_ref pool.now (option_copied entry.entry))) }
{
    match entry {
        Some(Entry::InterfaceMethodref(class, member)) => {
            method_with(alloc, pool, *class, pool.entry(*member))
        }
        _ => method_operand(alloc, pool, entry),
    }
}

// What a Class entry names (JVMS 4.4.1).
fn type_operand(
    alloc: Global,
    pool: &Pool,
    entry: Option<&Entry>,
) -> Result<Option<Operand>, NoMemory>
    ensures { IfOk result (λ found. found ≡ option_map AType (class_ref pool.now (option_copied entry.entry))) }
{
    match entry {
        Some(Entry::Class(name)) => {
            let class = named_by(alloc, text_of(pool, *name))?;
            Ok(Some(Operand::AType(class)))
        }
        _ => Ok(None),
    }
}

// A class that is no array.
fn unless_array(class: Named) -> Option<Operand>
    ensures { result ≡ option_map AType (unless_array (Some class)) }
{
    match class {
        Named::AClass(name) => Some(Operand::AType(Named::AClass(name))),
        _ => None,
    }
}

// What a Class entry names, unless that is an array.
fn class_operand(
    alloc: Global,
    pool: &Pool,
    entry: Option<&Entry>,
) -> Result<Option<Operand>, NoMemory>
    ensures { IfOk result (λ found. found ≡ option_map AType (unless_array (class_ref pool.now (option_copied entry.entry)))) }
{
    match entry {
        Some(Entry::Class(name)) => {
            let class = named_by(alloc, text_of(pool, *name))?;
            Ok(unless_array(class))
        }
        _ => Ok(None),
    }
}

// What the ldc forms load: an int, a long or a string.
fn constant_operand(
    alloc: Global,
    pool: &Pool,
    entry: Option<&Entry>,
) -> Result<Option<Operand>, NoMemory>
    ensures { IfOk result (λ found. found ≡ option_map AConstant (constant_ref pool.now (option_copied entry.entry))) }
{
    match constant_ref(alloc, pool, entry) {
        Ok(Some(value)) => Ok(Some(Operand::AConstant(value))),
        Ok(None) => Ok(None),
        Err(fault) => Err(fault),
    }
}

// What an entry is for the instruction of this number.
fn index_operand(
    alloc: Global,
    pool: &Pool,
    number: u8,
    entry: Option<&Entry>,
) -> Result<Option<Operand>, NoMemory>
    ensures { IfOk result (λ found. found ≡ index_operand pool.now number (option_copied entry.entry)) }
{
    if number == 18 || number == 19 || number == 20 {
        constant_operand(alloc, pool, entry)
    } else if number == 178 || number == 180 || number == 181 {
        field_operand(alloc, pool, entry)
    } else if number == 182 {
        method_operand(alloc, pool, entry)
    } else if number == 183 || number == 184 {
        any_method_operand(alloc, pool, entry)
    } else if number == 187 {
        class_operand(alloc, pool, entry)
    } else if number == 189 || number == 192 || number == 193 {
        type_operand(alloc, pool, entry)
    } else {
        Ok(None)
    }
}

/// What an index of the pool names for the instruction of this number: a constant, a field, a method or a class; none
/// where it names no entry of a kind that the instruction takes (JVMS 6.5).
pub fn operand_at(
    alloc: Global,
    pool: &Pool,
    number: u8,
    index: u16,
) -> Result<Option<Operand>, NoMemory>
    ensures { IfOk result (λ found. found ≡ operand_at pool.now (number, index)) }
{
    index_operand(alloc, pool, number, pool.entry(index))
}

/// What the index in an instruction names; none where it has no index too.
pub fn operand_of(alloc: Global, pool: &Pool, instr: &RawInstr) -> Result<Option<Operand>, NoMemory>
    ensures { IfOk result (λ found. found ≡ operand_of pool.now instr.now) }
{
    match index_in(instr) {
        None => Ok(None),
        Some((number, index)) => operand_at(alloc, pool, number, index),
    }
}
