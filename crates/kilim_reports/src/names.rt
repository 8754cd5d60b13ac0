//! Names of methods.

ghost use Rattle.std.specs.Prelude.{◌≡◌, ◌++◌, OnOk, IfOk, codes};
ghost use Rattle.std.specs.List.{flat_map};
ghost use Rattle.kilim_reports.specs.Names.{member_name_text, descriptor_unit, descriptor_text, method_text};
ghost use Rattle.kilim_units.specs.NameText.{name_text};

use crate::texts::push;
use kilim_class_file::MemberName;
use kilim_units::{NoMemory, Units, push_name};
use std::alloc::Global;

fn push_units(text: &mut Vec<u8>, units: &[u16]) -> Result<(), NoMemory>
    ensures { OnOk result (text.new.items ≡ text.old.items ++ name_text units.now) }
{
    match push_name(text, units) {
        Ok(()) => Ok(()),
        Err(_) => Err(NoMemory),
    }
}

/// Appends the name of a method as it stands in a report: in ASCII, as names stand in a journal, but `<init>` as it is.
#[tactic(auto, unfolding(crate::specs::Names::member_name_text))]
pub fn push_member_name(text: &mut Vec<u8>, name: &Units) -> Result<(), NoMemory>
    ensures { OnOk result (text.new.items ≡ text.old.items ++ member_name_text name.now) }
{
    if name.is_text(b"<init>") {
        return push(text, b"<init>");
    }
    push_units(text, name.as_slice())
}

/// The name of a method as it stands in a report: in ASCII, as names stand in a journal, but `<init>` as it is.
pub fn member_name_text(alloc: Global, name: &Units) -> Result<Vec<u8>, NoMemory>
    ensures { IfOk result (λ text. text.items ≡ member_name_text name.now) }
{
    let mut text = Vec::new(alloc);
    let Ok(()) = push_member_name(&mut text, name) else {
        return Err(NoMemory);
    };
    Ok(text)
}

fn push_descriptor_unit(text: &mut Vec<u8>, unit: u16) -> Result<(), NoMemory>
    ensures { OnOk result (text.new.items ≡ text.old.items ++ descriptor_unit unit) }
{
    if unit == 40 {
        push(text, b"(")
    } else if unit == 41 {
        push(text, b")")
    } else {
        push_units(text, &[unit])
    }
}

/// Appends a descriptor as it stands in a report.
pub fn push_descriptor(text: &mut Vec<u8>, descriptor: &Units) -> Result<(), NoMemory>
    ensures { OnOk result (text.new.items ≡ text.old.items ++ descriptor_text descriptor.now) }
{
    for unit in descriptor.as_slice() {
        let Ok(()) = push_descriptor_unit(text, *unit) else {
            return Err(NoMemory);
        };
    }
    Ok(())
}

/// A descriptor as it stands in a report: in ASCII, as names stand in a journal, but its brackets as they are.
pub fn descriptor_text(alloc: Global, descriptor: &Units) -> Result<Vec<u8>, NoMemory>
    ensures { IfOk result (λ text. text.items ≡ descriptor_text descriptor.now) }
{
    let mut text = Vec::new(alloc);
    let Ok(()) = push_descriptor(&mut text, descriptor) else {
        return Err(NoMemory);
    };
    Ok(text)
}

/// Appends a name and a descriptor, one behind the other.
pub fn push_named(text: &mut Vec<u8>, name: &Units, descriptor: &Units) -> Result<(), NoMemory>
    ensures { OnOk result (text.new.items ≡ text.old.items ++ (member_name_text name.now ++ descriptor_text descriptor.now)) }
{
    let Ok(()) = push_member_name(text, name) else {
        return Err(NoMemory);
    };
    push_descriptor(text, descriptor)
}

/// Appends the name and the descriptor of a method.
pub fn push_method(text: &mut Vec<u8>, method: &MemberName) -> Result<(), NoMemory>
    ensures { OnOk result (text.new.items ≡ text.old.items ++ method_text method.now) }
{
    push_named(text, &method.name, &method.descriptor)
}
