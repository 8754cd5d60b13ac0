//! Class files, read and written again.

ghost use Rattle.kilim_class_file.specs.Text.{ClassFits};

use crate::code::push_code;
use kilim_case_text::Text;
use kilim_class_attributes::Info;
use kilim_class_file::{ClassFault, ClassFile, MemberInfo};
use kilim_class_pool::{Entry, Pool};
use kilim_reports::{class_line, descriptor_text, member_name_text};
use std::alloc::Global;

// The name of a method with its descriptor, as reports write it.
fn push_name(text: &mut Text, alloc: Global, pool: &Pool, method: &MemberInfo) {
    match (
        pool.entry(method.name_index),
        pool.entry(method.descriptor_index),
    ) {
        (Some(Entry::Utf8(name)), Some(Entry::Utf8(descriptor))) => {
            text.part(member_name_text(alloc, name).ok());
            text.part(descriptor_text(alloc, descriptor).ok());
        }
        _ => text.lacks(),
    }
}

// A line for the code of a method, nothing where it has none.
fn push_method(text: &mut Text, alloc: Global, pool: &Pool, method: &MemberInfo) {
    for attribute in method.attributes.as_slice() {
        if let Info::Code(code) = &attribute.info {
            push_name(text, alloc, pool, method);
            text.word(": ");
            push_code(text, alloc, code.code.as_slice());
        }
    }
}

// Whether a class file is written in the bytes in which it was read, and a line for each method with code.
fn push_file(text: &mut Text, alloc: Global, bytes: &[u8], file: &ClassFile)
    requires { ClassFits file.now }
{
    match kilim_class_file::write(alloc, file) {
        Ok(written) => text.word(if written.as_slice() == bytes {
            "same\n"
        } else {
            "another\n"
        }),
        Err(_) => text.lacks(),
    }
    for method in file.methods.as_slice() {
        push_method(text, alloc, &file.constant_pool, method);
    }
}

/// `class FILE`: the line of a fault, or those of a class file.
pub fn push_class(text: &mut Text, alloc: Global, name: &str, bytes: &[u8]) {
    match kilim_class_file::read(alloc, bytes) {
        Ok(file) => push_file(text, alloc, bytes, &file),
        Err(ClassFault::Memory) => text.lacks(),
        Err(fault) => text.part(class_line(alloc, name, &fault).ok()),
    }
}

// Whether bytes are refused as cut at their end; nothing for want of memory.
fn is_cut(alloc: Global, bytes: &[u8]) -> Option<bool> {
    match kilim_class_file::read(alloc, bytes) {
        Err(ClassFault::Cut(at)) => Some(at == bytes.len()),
        Err(ClassFault::Memory) => None,
        _ => Some(false),
    }
}

/// `fronts FILE`: the first proper front of a file that isn't cut at its end, or how many there are.
pub fn push_fronts(text: &mut Text, alloc: Global, bytes: &[u8]) {
    for len in 0..bytes.len() {
        match is_cut(alloc, &bytes[..len]) {
            Some(true) => {}
            Some(false) => {
                text.number(len);
                text.word(" isn't cut there\n");
                return;
            }
            None => text.lacks(),
        }
    }
    text.number(bytes.len());
    text.word(" fronts are cut at their ends\n");
}
