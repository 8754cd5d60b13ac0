//! Entries of a builder's pool, and methods. Where memory or room is wanting, the text of the answer is broken.

use crate::descriptors::units_of;
use kilim_case_text::Text;
use kilim_class_builder::{ClassBuilder, MethodSource};
use kilim_class_code::opcodes::RawInstr;
use kilim_class_pool::{AddFault, Entry};
use kilim_program::{Base, ClassId, Frame, Ty, VType};
use kilim_units::Seq;
use std::alloc::Global;

/// Breaks the text where a call of the builder failed.
pub fn need(text: &mut Text, done: Result<(), AddFault>) {
    match done {
        Ok(()) => {}
        Err(_) => text.lacks(),
    }
}

/// The index of an entry; 0 where it couldn't be added.
pub fn constant(text: &mut Text, builder: &mut ClassBuilder, entry: Entry) -> u16 {
    match builder.constant(entry) {
        Ok(index) => index,
        Err(_) => {
            text.lacks();
            0
        }
    }
}

// The index of a text.
fn utf8(text: &mut Text, alloc: Global, builder: &mut ClassBuilder, word: &str) -> u16 {
    match units_of(alloc, word) {
        Some(units) => constant(text, builder, Entry::Utf8(units)),
        None => {
            text.lacks();
            0
        }
    }
}

/// The index of a class.
pub fn class(text: &mut Text, alloc: Global, builder: &mut ClassBuilder, name: &str) -> u16 {
    let name = utf8(text, alloc, builder, name);
    constant(text, builder, Entry::Class(name))
}

/// The indices of a member's class and of its name with its descriptor.
pub fn member(
    text: &mut Text,
    alloc: Global,
    builder: &mut ClassBuilder,
    owner: &str,
    name: &str,
    descriptor: &str,
) -> (u16, u16) {
    let owner = class(text, alloc, builder, owner);
    let name = utf8(text, alloc, builder, name);
    let descriptor = utf8(text, alloc, builder, descriptor);
    (
        owner,
        constant(text, builder, Entry::NameAndType(name, descriptor)),
    )
}

/// The index of a method without parameters and result.
pub fn method_ref(
    text: &mut Text,
    alloc: Global,
    builder: &mut ClassBuilder,
    owner: &str,
    name: &str,
) -> u16 {
    let (class, member) = member(text, alloc, builder, owner, name, "()V");
    constant(text, builder, Entry::Methodref(class, member))
}

/// An instruction behind the code.
pub fn push_instr(text: &mut Text, code: &mut Seq<RawInstr>, instr: RawInstr) {
    match code.push(instr) {
        Ok(()) => {}
        Err(_) => text.lacks(),
    }
}

/// Instructions without operands behind the code, by their numbers.
pub fn push_plain(text: &mut Text, code: &mut Seq<RawInstr>, numbers: &[u8]) {
    for number in numbers {
        push_instr(text, code, RawInstr::Plain(*number));
    }
}

/// The frame of a place, with an empty stack and one local: an object of a class by its index, or an array of them.
pub fn frame(
    text: &mut Text,
    alloc: Global,
    place: u32,
    dims: u8,
    class: u16,
) -> Seq<(u32, Frame)> {
    let mut locals = Seq::new(alloc);
    let base = Base::Class(ClassId(u32::from(class)));
    if locals.push(VType::Object(Ty { dims, base })).is_err() {
        text.lacks();
    }
    let stack = Seq::new(alloc);
    let mut frames = Seq::new(alloc);
    if frames.push((place, Frame { locals, stack })).is_err() {
        text.lacks();
    }
    frames
}

fn string(text: &mut Text, alloc: Global, word: &str) -> String {
    match String::from_str(alloc, word) {
        Ok(string) => string,
        Err(_) => {
            text.lacks();
            String::new(alloc)
        }
    }
}

/// A method without qualifiers, with a stack and locals of one slot.
pub fn source(
    text: &mut Text,
    alloc: Global,
    name: &str,
    descriptor: &str,
    flags: u16,
    code: Seq<RawInstr>,
    frames: Seq<(u32, Frame)>,
) -> MethodSource {
    MethodSource {
        name: string(text, alloc, name),
        descriptor: string(text, alloc, descriptor),
        flags,
        pausable: false,
        receiver: None,
        qualifiers: Vec::new(alloc),
        max_stack: 1,
        max_locals: 1,
        code: code.into_vec(),
        frames: frames.into_vec(),
    }
}

/// Adds a constructor that calls that of the superclass.
pub fn add_constructor(
    text: &mut Text,
    alloc: Global,
    builder: &mut ClassBuilder,
    superclass: &str,
) {
    let parent = method_ref(text, alloc, builder, superclass, "<init>");
    let mut code = Seq::new(alloc);
    push_plain(text, &mut code, &[42]);
    push_instr(text, &mut code, RawInstr::Index(183, parent));
    push_plain(text, &mut code, &[177]);
    let method = source(text, alloc, "<init>", "()V", 1, code, Seq::new(alloc));
    need(text, builder.method(alloc, method));
}
