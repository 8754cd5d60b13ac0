//! Writing attributes.

ghost use Rattle.std.specs.Prelude.{◌≡◌, ◌++◌, ◌<◌, ◌^◌, length, OnOk, OnErr, IfOk};
ghost use Rattle.std.specs.List.{flat_map, AllByRecursion};
ghost use Rattle.kilim_class_grammar.specs.Spelling.{u2, u4, list_text};
ghost use Rattle.kilim_class_attributes.specs.Lists.{named_text};
ghost use Rattle.kilim_class_attributes.specs.Codes.{code_info_text, code_attribute_text, handler_text, code_text, CodeInfoIsSized, CodeAttributeIsSized, CodeIsSized};
ghost use Rattle.kilim_class_attributes.specs.Attributes.{info_text, attribute_text, attributes_text, InfoIsSized, AttributeIsSized, AttributesAreSized};

use crate::attribute::{Attribute, Code, CodeAttribute, CodeInfo, ExceptionHandler, Info};
use crate::parts::{push_frames, push_parts};
use kilim_class_grammar::{push_u16, push_u32};
use kilim_units::{NoMemory, Seq};
use std::alloc::{AllocError, Global};

// Appends the index of a name, a length, and so many bytes.
fn push_named(name: u16, content: &[u8], into: &mut Vec<u8>) -> Result<(), AllocError>
    requires { length content.now < 2 ^ 32 }
    ensures { OnOk result (into.new.items ≡ into.old.items ++ named_text name content.now) }
{
    let Ok(()) = push_u16(into, name) else {
        return Err(AllocError);
    };
    let Ok(()) = push_u32(into, content.len() as u32) else {
        return Err(AllocError);
    };
    into.extend_from_slice(content)
}

fn push_code_info(info: &CodeInfo, into: &mut Vec<u8>) -> Result<(), AllocError>
    requires { CodeInfoIsSized info.now }
    ensures { OnOk result (into.new.items ≡ into.old.items ++ code_info_text info.now) }
{
    match info {
        CodeInfo::StackMapTable(frames) => push_frames(frames, into),
        CodeInfo::Raw(bytes) => into.extend_from_slice(bytes.as_slice()),
    }
}

fn push_code_attribute(
    alloc: Global,
    attribute: &CodeAttribute,
    into: &mut Vec<u8>,
) -> Result<(), AllocError>
    requires { CodeAttributeIsSized attribute.now }
    ensures { OnOk result (into.new.items ≡ into.old.items ++ code_attribute_text attribute.now) }
{
    let mut content = Vec::new(alloc);
    let Ok(()) = push_code_info(&attribute.info, &mut content) else {
        return Err(AllocError);
    };
    push_named(attribute.attribute_name_index, content.as_slice(), into)
}

fn push_code_attributes(
    alloc: Global,
    attributes: &[CodeAttribute],
    into: &mut Vec<u8>,
) -> Result<(), AllocError>
    requires { AllByRecursion CodeAttributeIsSized attributes.now }
    ensures { OnOk result (into.new.items ≡ into.old.items ++ flat_map code_attribute_text attributes.now) }
{
    for attribute in attributes {
        let Ok(()) = push_code_attribute(alloc, attribute, into) else {
            return Err(AllocError);
        };
    }
    Ok(())
}

fn push_handler(handler: &ExceptionHandler, into: &mut Vec<u8>) -> Result<(), AllocError>
    ensures { OnOk result (into.new.items ≡ into.old.items ++ handler_text handler.now) }
{
    let Ok(()) = push_u16(into, handler.start_pc) else {
        return Err(AllocError);
    };
    let Ok(()) = push_u16(into, handler.end_pc) else {
        return Err(AllocError);
    };
    let Ok(()) = push_u16(into, handler.handler_pc) else {
        return Err(AllocError);
    };
    push_u16(into, handler.catch_type)
}

fn push_handlers(handlers: &[ExceptionHandler], into: &mut Vec<u8>) -> Result<(), AllocError>
    ensures { OnOk result (into.new.items ≡ into.old.items ++ flat_map handler_text handlers.now) }
{
    for handler in handlers {
        let Ok(()) = push_handler(handler, into) else {
            return Err(AllocError);
        };
    }
    Ok(())
}

fn push_code_bytes(code: &[u8], into: &mut Vec<u8>) -> Result<(), AllocError>
    requires { length code.now < 2 ^ 32 }
    ensures { OnOk result (into.new.items ≡ into.old.items ++ (u4 (length code.now) ++ code.now)) }
{
    let Ok(()) = push_u32(into, code.len() as u32) else {
        return Err(AllocError);
    };
    into.extend_from_slice(code)
}

fn push_code(alloc: Global, code: &Code, into: &mut Vec<u8>) -> Result<(), AllocError>
    requires { CodeIsSized code.now }
    ensures { OnOk result (into.new.items ≡ into.old.items ++ code_text code.now) }
{
    let Ok(()) = push_u16(into, code.max_stack) else {
        return Err(AllocError);
    };
    let Ok(()) = push_u16(into, code.max_locals) else {
        return Err(AllocError);
    };
    let Ok(()) = push_code_bytes(code.code.as_slice(), into) else {
        return Err(AllocError);
    };
    let Ok(()) = push_u16(into, code.exception_table.len() as u16) else {
        return Err(AllocError);
    };
    let Ok(()) = push_handlers(code.exception_table.as_slice(), into) else {
        return Err(AllocError);
    };
    let Ok(()) = push_u16(into, code.attributes.len() as u16) else {
        return Err(AllocError);
    };
    push_code_attributes(alloc, code.attributes.as_slice(), into)
}

fn push_each_class(classes: &[u16], into: &mut Vec<u8>) -> Result<(), AllocError>
    ensures { OnOk result (into.new.items ≡ into.old.items ++ flat_map u2 classes.now) }
{
    for class in classes {
        let Ok(()) = push_u16(into, *class) else {
            return Err(AllocError);
        };
    }
    Ok(())
}

fn push_classes(classes: &Seq<u16>, into: &mut Vec<u8>) -> Result<(), AllocError>
    requires { length classes.now < 2 ^ 16 }
    ensures { OnOk result (into.new.items ≡ into.old.items ++ list_text u2 classes.now) }
{
    let Ok(()) = push_u16(into, classes.len() as u16) else {
        return Err(AllocError);
    };
    push_each_class(classes.as_slice(), into)
}

fn push_info(alloc: Global, info: &Info, into: &mut Vec<u8>) -> Result<(), AllocError>
    requires { InfoIsSized info.now }
    ensures { OnOk result (into.new.items ≡ into.old.items ++ info_text info.now) }
{
    match info {
        Info::ConstantValue(index) => push_u16(into, *index),
        Info::Code(code) => push_code(alloc, code, into),
        Info::StackMapTable(frames) => push_frames(frames, into),
        Info::Exceptions(classes) => push_classes(classes, into),
        Info::RuntimeVisibleAnnotations(parts)
        | Info::RuntimeInvisibleAnnotations(parts)
        | Info::RuntimeVisibleParameterAnnotations(parts)
        | Info::RuntimeInvisibleParameterAnnotations(parts) => push_parts(parts, into),
        Info::Raw(bytes) => into.extend_from_slice(bytes.as_slice()),
    }
}

fn push_attribute(
    alloc: Global,
    attribute: &Attribute,
    into: &mut Vec<u8>,
) -> Result<(), AllocError>
    requires { AttributeIsSized attribute.now }
    ensures { OnOk result (into.new.items ≡ into.old.items ++ attribute_text attribute.now) }
{
    let mut content = Vec::new(alloc);
    let Ok(()) = push_info(alloc, &attribute.info, &mut content) else {
        return Err(AllocError);
    };
    push_named(attribute.attribute_name_index, content.as_slice(), into)
}

fn push_attributes(
    alloc: Global,
    attributes: &[Attribute],
    into: &mut Vec<u8>,
) -> Result<(), AllocError>
    requires { AllByRecursion AttributeIsSized attributes.now }
    ensures { OnOk result (into.new.items ≡ into.old.items ++ flat_map attribute_text attributes.now) }
{
    for attribute in attributes {
        let Ok(()) = push_attribute(alloc, attribute, into) else {
            return Err(AllocError);
        };
    }
    Ok(())
}

// The text of attributes, by itself.
fn text_of(alloc: Global, attributes: &Seq<Attribute>) -> Result<Vec<u8>, AllocError>
    requires { AttributesAreSized attributes.now }
    ensures { IfOk result (λ text. text.items ≡ attributes_text attributes.now) }
{
    let mut text = Vec::new(alloc);
    let Ok(()) = push_u16(&mut text, attributes.len() as u16) else {
        return Err(AllocError);
    };
    let Ok(()) = push_attributes(alloc, attributes.as_slice(), &mut text) else {
        return Err(AllocError);
    };
    Ok(text)
}

fn append_text(attributes: &Seq<Attribute>, into: &mut Vec<u8>) -> Result<(), AllocError>
    requires { AttributesAreSized attributes.now }
    ensures ok { OnOk result (into.new.items ≡ into.old.items ++ attributes_text attributes.now) }
    ensures err { OnErr result (into.new.items ≡ into.old.items) }
{
    let Ok(text) = text_of(*into.allocator(), attributes) else {
        return Err(AllocError);
    };
    into.extend_from_slice(text.as_slice())
}

/// Appends the one spelling of attributes: their count and each of them (JVMS 4.7). For want of memory the bytes stay
/// as they were. In time linear in the bytes that are written.
pub fn write_all(attributes: &Seq<Attribute>, into: &mut Vec<u8>) -> Result<(), NoMemory>
    requires { AttributesAreSized attributes.now }
    ensures ok { OnOk result (into.new.items ≡ into.old.items ++ attributes_text attributes.now) }
    ensures err { OnErr result (into.new.items ≡ into.old.items) }
{
    match append_text(attributes, into) {
        Ok(()) => Ok(()),
        Err(_) => Err(NoMemory),
    }
}
