//! The bytes of a class file, whatever it holds. Nothing is promised of them: whether they are the file's text shows when they are
//! read. A count or a length that has no room in its field is written without its higher bytes.

use crate::bytes::Bytes;
use kilim_class_attributes::parts::{Frame, VerificationType};
use kilim_class_attributes::{Attribute, Code, CodeAttribute, CodeInfo, ExceptionHandler, Info};
use kilim_class_file::{ClassFile, MemberInfo};
use kilim_class_pool::{Entry, Pool};
use kilim_units::{NoMemory, Seq};
use std::alloc::Global;

// ---- the pool

fn tag_of(entry: &Entry) -> u8 {
    match entry {
        Entry::Utf8(_) => 1,
        Entry::Integer(_) => 3,
        Entry::Float(_) => 4,
        Entry::Long(_) => 5,
        Entry::Double(_) => 6,
        Entry::Class(_) => 7,
        Entry::String(_) => 8,
        Entry::Fieldref(_, _) => 9,
        Entry::Methodref(_, _) => 10,
        Entry::InterfaceMethodref(_, _) => 11,
        Entry::NameAndType(_, _) => 12,
        Entry::MethodHandle(_, _) => 15,
        Entry::MethodType(_) => 16,
        Entry::InvokeDynamic(_, _) => 18,
    }
}

fn push_entry(into: &mut Bytes, entry: &Entry) {
    into.byte(tag_of(entry));
    match entry {
        Entry::Utf8(units) => into.text(units),
        Entry::Integer(number) => into.four(number.cast_unsigned()),
        Entry::Float(bits) => into.four(*bits),
        Entry::Long(number) => into.eight(number.cast_unsigned()),
        Entry::Double(bits) => into.eight(*bits),
        Entry::Class(index) | Entry::String(index) | Entry::MethodType(index) => into.pair(*index),
        Entry::Fieldref(first, second)
        | Entry::Methodref(first, second)
        | Entry::InterfaceMethodref(first, second)
        | Entry::NameAndType(first, second)
        | Entry::InvokeDynamic(first, second) => into.two(*first, *second),
        Entry::MethodHandle(kind, named) => into.tagged(*kind, *named),
    }
}

fn push_pool(into: &mut Bytes, pool: &Pool) {
    let count = pool.count();
    into.pair(count);
    for index in 1..count {
        if let Some(entry) = pool.entry(index) {
            push_entry(into, entry);
        }
    }
}

// ---- frames

// The tag of a type, and the index or the place behind it.
fn type_parts(item: VerificationType) -> (u8, Option<u16>) {
    match item {
        VerificationType::Top => (0, None),
        VerificationType::Integer => (1, None),
        VerificationType::Float => (2, None),
        VerificationType::Double => (3, None),
        VerificationType::Long => (4, None),
        VerificationType::Null => (5, None),
        VerificationType::UninitializedThis => (6, None),
        VerificationType::Object(class) => (7, Some(class)),
        VerificationType::Uninitialized(place) => (8, Some(place)),
    }
}

fn push_type(into: &mut Bytes, item: VerificationType) {
    let (tag, behind) = type_parts(item);
    into.byte(tag);
    if let Some(number) = behind {
        into.pair(number);
    }
}

fn push_types(into: &mut Bytes, types: &[VerificationType]) {
    for item in types {
        push_type(into, *item);
    }
}

// Further locals, whose number is in the tag.
fn push_append(into: &mut Bytes, delta: u16, locals: &Seq<VerificationType>) {
    let more = (locals.len() % 256) as u8;
    into.tagged(251_u8.wrapping_add(more), delta);
    push_types(into, locals.as_slice());
}

// Types behind their number.
fn push_counted(into: &mut Bytes, types: &Seq<VerificationType>) {
    into.count(types.len());
    push_types(into, types.as_slice());
}

fn push_frame(into: &mut Bytes, frame: &Frame) {
    match frame {
        Frame::Same(delta) => into.byte(*delta),
        Frame::SameLocals1StackItem(delta, item) => {
            into.byte(delta.wrapping_add(64));
            push_type(into, *item);
        }
        Frame::SameLocals1StackItemExtended(delta, item) => {
            into.tagged(247, *delta);
            push_type(into, *item);
        }
        Frame::Chop(absent, delta) => into.tagged(251_u8.wrapping_sub(*absent), *delta),
        Frame::SameExtended(delta) => into.tagged(251, *delta),
        Frame::Append(delta, locals) => push_append(into, *delta, locals),
        Frame::Full(delta, locals, stack) => {
            into.tagged(255, *delta);
            push_counted(into, locals);
            push_counted(into, stack);
        }
    }
}

fn push_frames(into: &mut Bytes, frames: &[Frame]) {
    into.count(frames.len());
    for frame in frames {
        push_frame(into, frame);
    }
}

// ---- attributes

fn push_code_info(into: &mut Bytes, info: &CodeInfo) {
    match info {
        CodeInfo::StackMapTable(frames) => push_frames(into, frames.as_slice()),
        CodeInfo::Raw(bytes) => into.all(bytes.as_slice()),
    }
}

fn push_code_attributes(alloc: Global, into: &mut Bytes, attributes: &[CodeAttribute]) {
    into.count(attributes.len());
    for attribute in attributes {
        let mut content = Bytes::new(alloc);
        push_code_info(&mut content, &attribute.info);
        into.named(attribute.attribute_name_index, &content);
    }
}

fn push_handlers(into: &mut Bytes, handlers: &[ExceptionHandler]) {
    into.count(handlers.len());
    for handler in handlers {
        into.two(handler.start_pc, handler.end_pc);
        into.two(handler.handler_pc, handler.catch_type);
    }
}

fn push_code(alloc: Global, into: &mut Bytes, code: &Code) {
    into.two(code.max_stack, code.max_locals);
    into.length(code.code.len());
    into.all(code.code.as_slice());
    push_handlers(into, code.exception_table.as_slice());
    push_code_attributes(alloc, into, code.attributes.as_slice());
}

fn push_indices(into: &mut Bytes, indices: &[u16]) {
    into.count(indices.len());
    for index in indices {
        into.pair(*index);
    }
}

fn push_info(alloc: Global, into: &mut Bytes, info: &Info) {
    match info {
        Info::ConstantValue(index) => into.pair(*index),
        Info::Code(code) => push_code(alloc, into, code),
        Info::StackMapTable(frames) => push_frames(into, frames.as_slice()),
        Info::Exceptions(classes) => push_indices(into, classes.as_slice()),
        Info::RuntimeVisibleAnnotations(parts)
        | Info::RuntimeInvisibleAnnotations(parts)
        | Info::RuntimeVisibleParameterAnnotations(parts)
        | Info::RuntimeInvisibleParameterAnnotations(parts) => into.parts(parts),
        Info::Raw(bytes) => into.all(bytes.as_slice()),
    }
}

fn push_attributes(alloc: Global, into: &mut Bytes, attributes: &[Attribute]) {
    into.count(attributes.len());
    for attribute in attributes {
        let mut content = Bytes::new(alloc);
        push_info(alloc, &mut content, &attribute.info);
        into.named(attribute.attribute_name_index, &content);
    }
}

// ---- the file

fn push_members(alloc: Global, into: &mut Bytes, members: &[MemberInfo]) {
    into.count(members.len());
    for member in members {
        into.pair(member.access_flags);
        into.two(member.name_index, member.descriptor_index);
        push_attributes(alloc, into, member.attributes.as_slice());
    }
}

// What stands before the file's lists.
fn push_head(into: &mut Bytes, file: &ClassFile) {
    into.four(0xCAFE_BABE);
    into.two(file.minor_version, file.major_version);
    push_pool(into, &file.constant_pool);
    into.pair(file.access_flags);
    into.two(file.this_class, file.super_class);
}

fn push_lists(alloc: Global, into: &mut Bytes, file: &ClassFile) {
    push_indices(into, file.interfaces.as_slice());
    push_members(alloc, into, file.fields.as_slice());
    push_members(alloc, into, file.methods.as_slice());
    push_attributes(alloc, into, file.attributes.as_slice());
}

/// The bytes.
pub fn bytes_of(alloc: Global, file: &ClassFile) -> Result<Vec<u8>, NoMemory> {
    let mut into = Bytes::new(alloc);
    push_head(&mut into, file);
    push_lists(alloc, &mut into, file);
    into.whole()
}
