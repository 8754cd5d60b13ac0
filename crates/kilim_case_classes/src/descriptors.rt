//! Descriptors (JVMS 4.3.2 and 4.3.3).

use kilim_case_text::Text;
use kilim_class_descriptors::{
    BaseText, DescriptorFault, FieldText, MethodText, any_field, any_method, argument_slots, field,
    method,
};
use kilim_reports::descriptor_text;
use kilim_units::Units;
use std::alloc::Global;

/// A text as UTF-16 units; nothing for want of memory.
pub fn units_of(alloc: Global, text: &str) -> Option<Units> {
    let mut units = Vec::new(alloc);
    for unit in text.encode_utf16() {
        if units.push(unit).is_err() {
            return None;
        }
    }
    Units::from_vec(alloc, units).ok()
}

// The word that the standard's table of base types has for a base, or the name of a class.
fn push_base(text: &mut Text, alloc: Global, base: &BaseText) {
    match base {
        BaseText::Bool => text.word("boolean"),
        BaseText::Byte => text.word("byte"),
        BaseText::Char => text.word("char"),
        BaseText::Short => text.word("short"),
        BaseText::Int => text.word("int"),
        BaseText::Long => text.word("long"),
        BaseText::Float => text.word("float"),
        BaseText::Double => text.word("double"),
        BaseText::Class(name) => text.part(descriptor_text(alloc, name).ok()),
    }
}

fn push_type(text: &mut Text, alloc: Global, found: &FieldText) {
    push_base(text, alloc, &found.base);
    for _ in 0..found.dims {
        text.word("[]");
    }
}

fn push_fault(text: &mut Text, fault: DescriptorFault) {
    match fault {
        DescriptorFault::Malformed(at) => {
            text.word("malformed at ");
            text.number(at);
        }
        DescriptorFault::TooManySlots(count) => {
            text.number(count);
            text.word(" slots");
        }
        DescriptorFault::Memory => text.lacks(),
    }
}

fn push_field(text: &mut Text, alloc: Global, units: &Units) {
    match field(alloc, units) {
        Ok(found) => push_type(text, alloc, &found),
        Err(fault) => push_fault(text, fault),
    }
}

// A method as Java writes it, without its name, and how many slots its arguments take.
fn push_shown(text: &mut Text, alloc: Global, found: &MethodText) {
    match &found.result {
        Some(result) => push_type(text, alloc, result),
        None => text.word("void"),
    }
    text.word("(");
    for (at, param) in found.params.as_slice().iter().enumerate() {
        if at > 0 {
            text.word(" ");
        }
        push_type(text, alloc, param);
    }
    if found.params.len() >= 65_536 {
        text.lacks();
        return;
    }
    text.word(") of ");
    text.number(argument_slots(found));
    text.word(" slots");
}

fn push_method(text: &mut Text, alloc: Global, units: &Units) {
    match method(alloc, units) {
        Ok(found) => push_shown(text, alloc, &found),
        Err(fault) => push_fault(text, fault),
    }
}

// Whether a text is a field's descriptor, or a method's with any number of slots.
fn push_any(text: &mut Text, alloc: Global, units: &Units) {
    let is_field = match any_field(alloc, units) {
        Ok(found) => found.is_some(),
        Err(_) => {
            text.lacks();
            false
        }
    };
    let is_method = match any_method(alloc, units) {
        Ok(found) => found.is_some(),
        Err(_) => {
            text.lacks();
            false
        }
    };
    text.word(match (is_field, is_method) {
        (true, true) => "both",
        (true, false) => "a field",
        (false, true) => "a method",
        (false, false) => "neither",
    });
}

/// `descriptor TEXT`: as a field's, as a method's, and what it spells whatever its slots.
pub fn descriptor_case(text: &mut Text, alloc: Global, words: &[String]) {
    let word = match words {
        [] => "",
        [word] => word.as_str(),
        _ => {
            text.lacks();
            return;
        }
    };
    let Some(units) = units_of(alloc, word) else {
        text.lacks();
        return;
    };
    push_field(text, alloc, &units);
    text.word(", ");
    push_method(text, alloc, &units);
    text.word(", ");
    push_any(text, alloc, &units);
    text.word("\n");
}
