//! A pool to bytes.

ghost use Rattle.std.specs.Prelude.{◌≡◌, ◌++◌, ◌+◌, ◌<◌, ◌^◌, OnOk, OnErr, length, take};
ghost use Rattle.std.specs.List.{flat_map, All};
ghost use Rattle.kilim_class_grammar.specs.Spelling.{u1, u2};
ghost use Rattle.kilim_class_mutf8.specs.Spelling.{spelling};
ghost use Rattle.kilim_class_pool.specs.Spelling.{pair_text, string_text, tag_of, content_text, entry_text, pool_text, PoolFits, EntryFits};
ghost use Rattle.kilim_class_pool.specs.Slots.{slot_text, SlotFits};

use crate::entry::Entry;
use crate::pool::Pool;
use kilim_class_grammar::{push_u8, push_u16, push_u32, push_u64};
use kilim_units::{NoMemory, Units};
use std::alloc::AllocError;

// Two numbers of two bytes.
fn push_pair(into: &mut Vec<u8>, first: u16, second: u16) -> Result<(), AllocError>
    ensures ok { OnOk result (into.new.items ≡ into.old.items ++ pair_text first second) }
{
    let Ok(()) = push_u16(into, first) else {
        return Err(AllocError);
    };
    push_u16(into, second)
}

// The kind of a method handle, and the index of what it names.
fn push_handle(into: &mut Vec<u8>, kind: u8, named: u16) -> Result<(), AllocError>
    ensures ok { OnOk result (into.new.items ≡ into.old.items ++ (u1 kind ++ u2 named)) }
{
    let Ok(()) = push_u8(into, kind) else {
        return Err(AllocError);
    };
    push_u16(into, named)
}

// A length in bytes, and the text.
fn push_string(into: &mut Vec<u8>, units: &Units) -> Result<(), AllocError>
    requires { length (spelling units.now) < 2 ^ 16 }
    ensures ok { OnOk result (into.new.items ≡ into.old.items ++ string_text units.now) }
{
    let mut text = Vec::new(*into.allocator());
    if kilim_class_mutf8::write(units, &mut text).is_err() {
        return Err(AllocError);
    }
    let Ok(()) = push_u16(into, text.len() as u16) else {
        return Err(AllocError);
    };
    into.extend_from_slice(text.as_slice())
}

// What follows the tag of an entry.
fn push_content(into: &mut Vec<u8>, entry: &Entry) -> Result<(), AllocError>
    requires { EntryFits entry.now }
    ensures ok { OnOk result (into.new.items ≡ into.old.items ++ content_text entry.now) }
{
    match entry {
        Entry::Utf8(units) => push_string(into, units),
        Entry::Integer(number) => push_u32(into, number.cast_unsigned()),
        Entry::Float(bits) => push_u32(into, *bits),
        Entry::Long(number) => push_u64(into, number.cast_unsigned()),
        Entry::Double(bits) => push_u64(into, *bits),
        Entry::Class(index) | Entry::String(index) | Entry::MethodType(index) => {
            push_u16(into, *index)
        }
        Entry::Fieldref(first, second)
        | Entry::Methodref(first, second)
        | Entry::InterfaceMethodref(first, second)
        | Entry::NameAndType(first, second)
        | Entry::InvokeDynamic(first, second) => push_pair(into, *first, *second),
        Entry::MethodHandle(kind, named) => push_handle(into, *kind, *named),
    }
}

fn tag_of(entry: &Entry) -> u8
    ensures { result ≡ tag_of entry.now }
{
    match entry {
        Entry::Utf8(_) => 1,
        Entry::Integer(_) => 3,
        Entry::Float(_) => 4,
        Entry::Long(_) => 5,
        Entry::Double(_) => 6,
        Entry::Class(_) => 7,
        Entry::String(_) => 8,
        Entry::Fieldref(_, _) => 9,
        Entry::Methodref(_, _) => 10,
        Entry::InterfaceMethodref(_, _) => 11,
        Entry::NameAndType(_, _) => 12,
        Entry::MethodHandle(_, _) => 15,
        Entry::MethodType(_) => 16,
        Entry::InvokeDynamic(_, _) => 18,
    }
}

fn push_entry(into: &mut Vec<u8>, entry: &Entry) -> Result<(), AllocError>
    requires { EntryFits entry.now }
    ensures ok { OnOk result (into.new.items ≡ into.old.items ++ entry_text entry.now) }
{
    let Ok(()) = push_u8(into, tag_of(entry)) else {
        return Err(AllocError);
    };
    push_content(into, entry)
}

fn push_slot(into: &mut Vec<u8>, slot: &Option<Entry>) -> Result<(), AllocError>
    requires { SlotFits slot.now }
    ensures ok { OnOk result (into.new.items ≡ into.old.items ++ slot_text slot.now) }
{
    match slot {
        Some(entry) => push_entry(into, entry),
        None => Ok(()),
    }
}

// The entries of slots, in order.
fn push_slots(into: &mut Vec<u8>, slots: &[Option<Entry>]) -> Result<(), AllocError>
    requires { All SlotFits slots.now }
    ensures ok { OnOk result (into.new.items ≡ into.old.items ++ flat_map slot_text slots.now) }
{
    for slot in slots {
        let Ok(()) = push_slot(into, slot) else {
            return Err(AllocError);
        };
    }
    Ok(())
}

fn push_pool(into: &mut Vec<u8>, pool: &Pool) -> Result<(), AllocError>
    requires { PoolFits pool.now }
    ensures ok { OnOk result (into.new.items ≡ into.old.items ++ pool_text pool.now) }
{
    let Ok(()) = push_u16(into, pool.count()) else {
        return Err(AllocError);
    };
    push_slots(into, pool.slots())
}

impl Pool {
    /// Adds the text of a pool at the end, in time linear in its length. It has one, where each number fits its field and
    /// each index names an entry of the kind that it has to. For want of memory the bytes stay as they were.
    pub fn write(&self, into: &mut Vec<u8>) -> Result<(), NoMemory>
        requires { PoolFits self.now }
        ensures ok { OnOk result (into.new.items ≡ into.old.items ++ pool_text self.now) }
        ensures err { OnErr result (into.new.items ≡ into.old.items) }
    {
        let mut text = Vec::new(*into.allocator());
        let Ok(()) = push_pool(&mut text, self) else {
            return Err(NoMemory);
        };
        let Ok(()) = into.extend_from_slice(text.as_slice()) else {
            return Err(NoMemory);
        };
        Ok(())
    }
}
