//! What the parts of a class file have to be beyond their numbers.

ghost use Rattle.std.specs.Prelude.{◌≡◌, IfOk};
ghost use Rattle.std.specs.Option.{option_copied};
ghost use Rattle.kilim_class_pool.specs.Entries.{is_utf8, is_class};
ghost use Rattle.kilim_class_file.specs.declared.fault.ClassFault.TheVariants as fault;
ghost use Rattle.kilim_class_file.specs.Parts.{text_of, is_code, has_code, is_bodiless, has_its_code, name_of};

use crate::class_file::MemberInfo;
use crate::fault::{ClassFault, MemberName};
use kilim_class_attributes::{Attribute, Info};
use kilim_class_pool::{Entry, Pool};
use kilim_units::Units;
use std::alloc::{AllocError, Global};

/// Whether an entry is a text.
pub fn is_utf8(entry: Option<&Entry>) -> bool
    ensures { result ≡ is_utf8 (option_copied entry.entry) }
{
    matches!(entry, Some(Entry::Utf8(_)))
}

/// Whether an entry is a class.
pub fn is_class(entry: Option<&Entry>) -> bool
    ensures { result ≡ is_class (option_copied entry.entry) }
{
    matches!(entry, Some(Entry::Class(_)))
}

fn is_code(info: &Info) -> bool
    ensures { result ≡ is_code info.now }
{
    matches!(info, Info::Code(_))
}

fn has_code(attributes: &[Attribute]) -> bool
    ensures { result ≡ has_code attributes.now }
{
    for attribute in attributes {
        if is_code(&attribute.info) {
            return true;
        }
    }
    false
}

// ACC_NATIVE or ACC_ABSTRACT.
fn is_bodiless(flags: u16) -> bool
    ensures { result ≡ is_bodiless flags }
{
    flags & 0x0500 != 0
}

/// Whether a method has Code exactly where it is neither abstract nor native (JVMS 4.7.3).
#[tactic(auto, unfolding(crate::specs::Parts::has_its_code))]
pub fn has_its_code(method: &MemberInfo) -> bool
    ensures { result ≡ has_its_code method.now }
{
    let has_code = has_code(method.attributes.as_slice());
    if is_bodiless(method.access_flags) {
        !has_code
    } else {
        has_code
    }
}

// The units of a Utf8; none where another entry stands there.
#[tactic(auto, unfolding(crate::specs::Parts::text_of))]
fn text_of(alloc: Global, pool: &Pool, index: u16) -> Result<Units, AllocError>
    ensures { IfOk result (λ text. text ≡ text_of pool.now index) }
{
    match pool.entry(index) {
        Some(Entry::Utf8(units)) => units.clone(),
        _ => Units::from_vec(alloc, Vec::new(alloc)),
    }
}

/// The name and the descriptor of a member.
pub fn name_of(alloc: Global, pool: &Pool, member: &MemberInfo) -> Result<MemberName, AllocError>
    ensures { IfOk result (λ name. name ≡ name_of pool.now member.now) }
{
    let name = text_of(alloc, pool, member.name_index)?;
    let descriptor = text_of(alloc, pool, member.descriptor_index)?;
    Ok(MemberName { name, descriptor })
}
