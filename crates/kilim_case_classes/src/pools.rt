//! Pools, to which entries are added.

use kilim_case_text::Text;
use kilim_class_file::read;
use kilim_class_pool::{AddFault, Entry, Pool};
use std::alloc::Global;

// A copy of an entry; nothing for want of memory.
fn copy_of(entry: &Entry) -> Option<Entry> {
    Some(match entry {
        Entry::Utf8(units) => match units.clone() {
            Ok(units) => Entry::Utf8(units),
            Err(_) => return None,
        },
        Entry::Integer(number) => Entry::Integer(*number),
        Entry::Float(bits) => Entry::Float(*bits),
        Entry::Long(number) => Entry::Long(*number),
        Entry::Double(bits) => Entry::Double(*bits),
        Entry::Class(name) => Entry::Class(*name),
        Entry::String(text) => Entry::String(*text),
        Entry::Fieldref(class, member) => Entry::Fieldref(*class, *member),
        Entry::Methodref(class, member) => Entry::Methodref(*class, *member),
        Entry::InterfaceMethodref(class, member) => Entry::InterfaceMethodref(*class, *member),
        Entry::NameAndType(name, descriptor) => Entry::NameAndType(*name, *descriptor),
        Entry::MethodHandle(kind, member) => Entry::MethodHandle(*kind, *member),
        Entry::MethodType(descriptor) => Entry::MethodType(*descriptor),
        Entry::InvokeDynamic(bootstrap, member) => Entry::InvokeDynamic(*bootstrap, *member),
    })
}

// Adds a copy of an entry to a pool: a line where it gets another index than this one, or isn't added.
fn push_copy(text: &mut Text, index: u16, entry: &Entry, pool: &mut Pool) {
    let Some(copy) = copy_of(entry) else {
        text.lacks();
        return;
    };
    match pool.add(copy) {
        Ok(added) => {
            if added != index {
                text.number(usize::from(index));
                text.word(" is added at ");
                text.number(usize::from(added));
                text.word("\n");
            }
        }
        Err(AddFault::Full) => text.word("the pool is full\n"),
        Err(AddFault::Memory) => text.lacks(),
    }
}

// Adds the entries of a pool to another, in order.
fn push_all(text: &mut Text, from: &Pool, pool: &mut Pool) {
    for index in 1..from.count() {
        if let Some(entry) = from.entry(index) {
            push_copy(text, index, entry, pool);
        }
    }
    text.word("the next index is ");
    text.number(usize::from(pool.count()));
    text.word("\n");
}

/// `pool FILE`: the entries of the file's pool are added to an empty pool, and once more to that one.
pub fn push_pool(text: &mut Text, alloc: Global, bytes: &[u8]) {
    match read(alloc, bytes) {
        Ok(file) => {
            let mut pool = Pool::new(alloc);
            push_all(text, &file.constant_pool, &mut pool);
            push_all(text, &file.constant_pool, &mut pool);
        }
        Err(_) => text.lacks(),
    }
}
