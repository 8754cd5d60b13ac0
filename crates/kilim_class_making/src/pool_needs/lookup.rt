//! Entries that are there.

ghost use Rattle.std.specs.Prelude.{◌≡◌};
ghost use Rattle.std.specs.Option.{option_copied};
ghost use Rattle.kilim_class_making.specs.declared.pool_needs.need.Need.TheVariants.{AMethod, ACall};
ghost use Rattle.kilim_class_making.specs.pool_needs.Adding.{class_index, index_of, is_class_of, is_pair, is_ref, is_text, member_index, pair_index, ref_index, text_index};

use crate::pool_needs::need::Need;
use kilim_class_pool::{Entry, Pool};
use kilim_units::Units;

fn is_text(entry: Option<&Entry>, units: &[u16]) -> bool
    ensures { result ≡ is_text units.now (option_copied entry.entry) }
{
    match entry {
        Some(Entry::Utf8(other)) => other.as_slice() == units,
        _ => false,
    }
}

fn find_text(pool: &Pool, units: &[u16]) -> u16
    ensures { result ≡ text_index pool.now units.now }
{
    for index in 1..pool.count() {
        if is_text(pool.entry(index), units) {
            return index;
        }
    }
    0
}

/// The index of the first Utf8 of these units, or 0.
pub fn text_index(pool: &Pool, units: &Units) -> u16
    ensures { result ≡ text_index pool.now units.now }
{
    find_text(pool, units.as_slice())
}

fn is_class_of(pool: &Pool, entry: Option<&Entry>, name: &[u16]) -> bool
    ensures { result ≡ is_class_of pool.now name.now (option_copied entry.entry) }
{
    match entry {
        Some(Entry::Class(index)) => is_text(pool.entry(*index), name),
        _ => false,
    }
}

fn find_class(pool: &Pool, name: &[u16]) -> u16
    ensures { result ≡ class_index pool.now name.now }
{
    for index in 1..pool.count() {
        if is_class_of(pool, pool.entry(index), name) {
            return index;
        }
    }
    0
}

// The index of the first Class whose name has these units, or 0.
pub fn class_index(pool: &Pool, name: &Units) -> u16
    ensures { result ≡ class_index pool.now name.now }
{
    find_class(pool, name.as_slice())
}

fn is_pair(entry: Option<&Entry>, name: u16, descriptor: u16) -> bool
    ensures { result ≡ is_pair name descriptor (option_copied entry.entry) }
{
    match entry {
        Some(Entry::NameAndType(n, d)) => *n == name && *d == descriptor,
        _ => false,
    }
}

// The index of the first NameAndType of these indices, or 0.
pub fn pair_index(pool: &Pool, name: u16, descriptor: u16) -> u16
    ensures { result ≡ pair_index pool.now name descriptor }
{
    for index in 1..pool.count() {
        if is_pair(pool.entry(index), name, descriptor) {
            return index;
        }
    }
    0
}

fn is_ref(entry: Option<&Entry>, class: u16, member: u16) -> bool
    ensures { result ≡ is_ref class member (option_copied entry.entry) }
{
    match entry {
        Some(Entry::Methodref(c, m)) => *c == class && *m == member,
        _ => false,
    }
}

// The index of the first Methodref of these indices, or 0.
pub fn ref_index(pool: &Pool, class: u16, member: u16) -> u16
    ensures { result ≡ ref_index pool.now class member }
{
    for index in 1..pool.count() {
        if is_ref(pool.entry(index), class, member) {
            return index;
        }
    }
    0
}

fn member_index(pool: &Pool, class: u16, name: u16, descriptor: u16) -> u16
    ensures { result ≡ member_index pool.now class name descriptor }
{
    ref_index(pool, class, pair_index(pool, name, descriptor))
}

fn call_index(pool: &Pool, class: u16, name: u16, descriptor: &Units) -> u16
    ensures { result ≡ index_of pool.now (ACall class name descriptor.now) }
{
    member_index(pool, class, name, text_index(pool, descriptor))
}

fn method_index(pool: &Pool, owner: &Units, name: &Units, descriptor: &Units) -> u16
    ensures { result ≡ index_of pool.now (AMethod owner.now name.now descriptor.now) }
{
    let class = class_index(pool, owner);
    let text = text_index(pool, name);
    call_index(pool, class, text, descriptor)
}

/// The index of what is needed, or 0 where it isn't there. A class is found by the text of its name, whichever of several
/// spellings it names. Time is linear in the number of entries.
pub fn index_of(pool: &Pool, need: &Need) -> u16
    ensures { result ≡ index_of pool.now need.now }
{
    match need {
        Need::AText(units) => text_index(pool, units),
        Need::AClass(name) => class_index(pool, name),
        Need::AMethod(owner, name, descriptor) => method_index(pool, owner, name, descriptor),
        Need::ACall(class, name, descriptor) => call_index(pool, *class, *name, descriptor),
    }
}
