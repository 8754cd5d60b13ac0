//! Names and flags of a file.

ghost use Rattle.std.specs.Prelude.{◌≡◌};
ghost use Rattle.std.specs.List.{list_any};
ghost use Rattle.std.specs.Str.{bytes_eq};
ghost use Rattle.kilim_class_file.specs.Parts.{text_of};
ghost use Rattle.kilim_link_spec.specs.World.{class_text, own_name, super_name, member_name, member_descriptor, has_flag};

use kilim_class_file::{ClassFile, MemberInfo};
use kilim_class_pool::{Entry, Pool};

/// The units of the Utf8 of an index; none where another entry stands there (JVMS 4.4.7). Takes constant time.
#[tactic(auto, unfolding(kilim_class_file::specs::Parts::text_of))]
pub fn text_of(pool: &Pool, index: u16) -> &[u16]
    ensures { result.now ≡ text_of pool.now index }
{
    match pool.entry(index) {
        Some(Entry::Utf8(units)) => units.as_slice(),
        _ => &[],
    }
}

/// The name that an index names as a class, which may be an array's descriptor; none where another entry stands there
/// (JVMS 4.4.1). Takes constant time.
#[tactic(auto, unfolding(kilim_link_spec::specs::World::class_text))]
pub fn class_text(pool: &Pool, index: u16) -> &[u16]
    ensures { result.now ≡ class_text pool.now index }
{
    match pool.entry(index) {
        Some(Entry::Class(name)) => text_of(pool, *name),
        _ => &[],
    }
}

/// The name of a file's class (JVMS 4.1).
pub fn own_name(file: &ClassFile) -> &[u16]
    ensures { result.now ≡ own_name file.now }
{
    class_text(&file.constant_pool, file.this_class)
}

/// The name of its superclass (JVMS 4.1).
pub fn super_name(file: &ClassFile) -> &[u16]
    ensures { result.now ≡ super_name file.now }
{
    class_text(&file.constant_pool, file.super_class)
}

/// The name of a field or a method of a file (JVMS 4.5, 4.6).
pub fn member_name<'a>(file: &'a ClassFile, member: &MemberInfo) -> &'a [u16]
    ensures { result.now ≡ member_name file.now member.now }
{
    text_of(&file.constant_pool, member.name_index)
}

/// Its descriptor, as text.
pub fn member_descriptor<'a>(file: &'a ClassFile, member: &MemberInfo) -> &'a [u16]
    ensures { result.now ≡ member_descriptor file.now member.now }
{
    text_of(&file.constant_pool, member.descriptor_index)
}

/// Whether a flag is set (JVMS tables 4.1-A, 4.5-A and 4.6-A).
pub fn has_flag(flag: u16, flags: u16) -> bool
    ensures { result ≡ has_flag flag flags }
{
    flags & flag != 0
}

/// Whether these are the units of an ASCII text.
pub fn is_text(units: &[u16], ascii: &[u8]) -> bool
    ensures { result ≡ bytes_eq units.now ascii.now }
{
    if units.len() != ascii.len() {
        return false;
    }
    for (i, unit) in units.iter().enumerate() {
        if *unit != u16::from(ascii[i]) {
            return false;
        }
    }
    true
}

/// Whether one of these indices names a class of that ASCII name. Takes linear time.
pub fn is_any_named(pool: &Pool, classes: &[u16], name: &[u8]) -> bool
    ensures { result ≡ list_any (λ c. bytes_eq (class_text pool.now c) name.now) classes.now }
{
    for class in classes {
        if is_text(class_text(pool, *class), name) {
            return true;
        }
    }
    false
}
