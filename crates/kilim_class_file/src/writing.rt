//! A class file to bytes.

ghost use Rattle.std.specs.Prelude.{◌≡◌, ◌++◌, ◌<◌, ◌^◌, length, IfOk, OnOk};
ghost use Rattle.std.specs.List.{flat_map, AllByRecursion};
ghost use Rattle.kilim_class_grammar.specs.Spelling.{u2, list_text};
ghost use Rattle.kilim_class_pool.specs.Spelling.{PoolFits};
ghost use Rattle.kilim_class_file.specs.Text.{member_text, class_text, ClassFits};
ghost use Rattle.kilim_class_file.specs.Writing.{front_text, lists_text, MemberIsSized, MembersAreSized, ListsAreSized};

use crate::class_file::{ClassFile, MemberInfo};
use kilim_class_attributes::write_all;
use kilim_class_grammar::{push_u16, push_u32};
use kilim_units::{NoMemory, Seq};
use std::alloc::Global;

fn push_each_class(into: &mut Vec<u8>, classes: &[u16]) -> Result<(), NoMemory>
    ensures { OnOk result (into.new.items ≡ into.old.items ++ flat_map u2 classes.now) }
{
    for class in classes {
        push_u16(into, *class)?;
    }
    Ok(())
}

fn push_classes(into: &mut Vec<u8>, classes: &Seq<u16>) -> Result<(), NoMemory>
    requires { length classes.now < 2 ^ 16 }
    ensures { OnOk result (into.new.items ≡ into.old.items ++ list_text u2 classes.now) }
{
    push_u16(into, classes.len() as u16)?;
    push_each_class(into, classes.as_slice())
}

fn push_member(into: &mut Vec<u8>, member: &MemberInfo) -> Result<(), NoMemory>
    requires { MemberIsSized member.now }
    ensures { OnOk result (into.new.items ≡ into.old.items ++ member_text member.now) }
{
    push_u16(into, member.access_flags)?;
    push_u16(into, member.name_index)?;
    push_u16(into, member.descriptor_index)?;
    write_all(&member.attributes, into)
}

fn push_each_member(into: &mut Vec<u8>, members: &[MemberInfo]) -> Result<(), NoMemory>
    requires { AllByRecursion MemberIsSized members.now }
    ensures { OnOk result (into.new.items ≡ into.old.items ++ flat_map member_text members.now) }
{
    for member in members {
        push_member(into, member)?;
    }
    Ok(())
}

fn push_members(into: &mut Vec<u8>, members: &Seq<MemberInfo>) -> Result<(), NoMemory>
    requires { MembersAreSized members.now }
    ensures { OnOk result (into.new.items ≡ into.old.items ++ list_text member_text members.now) }
{
    push_u16(into, members.len() as u16)?;
    push_each_member(into, members.as_slice())
}

// Magic number, version, pool, flags, this class and super class.
fn push_front(into: &mut Vec<u8>, file: &ClassFile) -> Result<(), NoMemory>
    requires { PoolFits file.now.constant_pool }
    ensures { OnOk result (into.new.items ≡ into.old.items ++ front_text file.now) }
{
    push_u32(into, 0xCAFE_BABE)?;
    push_u16(into, file.minor_version)?;
    push_u16(into, file.major_version)?;
    file.constant_pool.write(into)?;
    push_u16(into, file.access_flags)?;
    push_u16(into, file.this_class)?;
    push_u16(into, file.super_class)?;
    Ok(())
}

fn push_lists(into: &mut Vec<u8>, file: &ClassFile) -> Result<(), NoMemory>
    requires { ListsAreSized file.now }
    ensures { OnOk result (into.new.items ≡ into.old.items ++ lists_text file.now) }
{
    push_classes(into, &file.interfaces)?;
    push_members(into, &file.fields)?;
    push_members(into, &file.methods)?;
    write_all(&file.attributes, into)
}

/// The text of a class file, in time linear in its length. Each file has one whose parts have texts and fit: see the
/// condition.
pub fn write(alloc: Global, file: &ClassFile) -> Result<Vec<u8>, NoMemory>
    requires { ClassFits file.now }
    ensures { IfOk result (λ bytes. bytes.items ≡ class_text file.now) }
{
    kilim_class_attributes::read_again();
    let mut bytes = Vec::new(alloc);
    push_front(&mut bytes, file)?;
    push_lists(&mut bytes, file)?;
    Ok(bytes)
}
