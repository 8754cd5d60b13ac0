//! Woven methods.

ghost use Rattle.std.specs.Prelude.{◌≡◌, ◌++◌, ◌∷◌, [], Some, IfOk, OnOk};
ghost use Rattle.kilim_class_attributes.specs.declared.attribute.Info.TheVariants as what;
ghost use Rattle.std.specs.List.{cons_option, filter_map};
ghost use Rattle.kilim_class_making.specs.pool_needs.Adding.{text_index};
ghost use Rattle.kilim_link_spec.specs.World.{member_descriptor};
ghost use Rattle.kilim_weave_file_spec.specs.Texts.{woven_descriptor};
ghost use Rattle.kilim_weave_file_spec.specs.WovenFile.{attribute_with, one_parameter_more, rewritten, woven_attribute, woven_code, woven_info};

use crate::code::woven_code;
use crate::needs::text_of;
use kilim_class_attributes::parts::AnnotationPart;
use kilim_class_attributes::{Attribute, Code, Info};
use kilim_class_file::{ClassFile, MemberInfo};
use kilim_class_making::pool_needs::text_index;
use kilim_class_pool::Pool;
use kilim_program::{Method, Program};
use kilim_units::{NoMemory, Seq, Units, unmet};
use kilim_weave_file_sizes::woven_descriptor;
use std::alloc::Global;

// One parameter more, without annotations (JVMS 4.7.18). A count of 255 has no room for one: it would be answered as want of memory.
fn one_parameter_more(parts: Seq<AnnotationPart>) -> Result<Seq<AnnotationPart>, NoMemory>
    ensures { IfOk result (λ more. more ≡ one_parameter_more parts) }
{
    let mut items = parts.into_vec();
    let Some(first) = items.first() else {
        return Ok(Seq::from_vec(items));
    };
    let AnnotationPart::Parameters(count) = *first else {
        return Ok(Seq::from_vec(items));
    };
    let Some(more) = count.checked_add(1) else {
        // unmet: a pausable method has at most 254 argument slots
        return Err(unmet());
    };
    items[0] = AnnotationPart::Parameters(more);
    let Ok(()) = items.push(AnnotationPart::Annotations(0)) else {
        return Err(NoMemory);
    };
    Ok(Seq::from_vec(items))
}

fn code_info(
    alloc: Global,
    program: &Program,
    old: &Pool,
    pool: &Pool,
    method: &Method,
    counted: &[bool],
    code: Code,
) -> Result<Option<Info>, NoMemory>
    ensures { IfOk result (λ i. i ≡ Some (what.Code (woven_code program.now old.now pool.now method.now counted.now code))) }
{
    let Ok(woven) = woven_code(alloc, program, old, pool, method, counted, code) else {
        return Err(NoMemory);
    };
    Ok(Some(Info::Code(woven)))
}

fn visible_info(parts: Seq<AnnotationPart>) -> Result<Option<Info>, NoMemory>
    ensures { IfOk result (λ i. i ≡ Some (what.RuntimeVisibleParameterAnnotations (one_parameter_more parts))) }
{
    let Ok(more) = one_parameter_more(parts) else {
        return Err(NoMemory);
    };
    Ok(Some(Info::RuntimeVisibleParameterAnnotations(more)))
}

fn invisible_info(parts: Seq<AnnotationPart>) -> Result<Option<Info>, NoMemory>
    ensures { IfOk result (λ i. i ≡ Some (what.RuntimeInvisibleParameterAnnotations (one_parameter_more parts))) }
{
    let Ok(more) = one_parameter_more(parts) else {
        return Err(NoMemory);
    };
    Ok(Some(Info::RuntimeInvisibleParameterAnnotations(more)))
}

// What an attribute of a method that pauses becomes: only code, exceptions and annotations stay.
fn woven_info(
    alloc: Global,
    program: &Program,
    old: &Pool,
    pool: &Pool,
    method: &Method,
    counted: &[bool],
    info: Info,
) -> Result<Option<Info>, NoMemory>
    ensures { IfOk result (λ i. i ≡ woven_info program.now old.now pool.now method.now counted.now info) }
{
    match info {
        Info::Code(code) => code_info(alloc, program, old, pool, method, counted, code),
        Info::Exceptions(classes) => Ok(Some(Info::Exceptions(classes))),
        Info::RuntimeVisibleAnnotations(parts) => {
            Ok(Some(Info::RuntimeVisibleAnnotations(parts)))
        }
        Info::RuntimeInvisibleAnnotations(parts) => {
            Ok(Some(Info::RuntimeInvisibleAnnotations(parts)))
        }
        Info::RuntimeVisibleParameterAnnotations(parts) => visible_info(parts),
        Info::RuntimeInvisibleParameterAnnotations(parts) => invisible_info(parts),
        Info::ConstantValue(_) | Info::StackMapTable(_) | Info::Raw(_) => Ok(None),
    }
}

fn push_attribute(into: &mut Seq<Attribute>, name: u16, info: Option<Info>) -> Result<(), NoMemory>
    ensures { OnOk result (into.new ≡ into.old ++ cons_option (attribute_with name info) []) }
{
    let Some(found) = info else {
        return Ok(());
    };
    let Ok(()) = into.push(Attribute {
        attribute_name_index: name,
        info: found,
    }) else {
        return Err(NoMemory);
    };
    Ok(())
}

fn push_woven(
    alloc: Global,
    into: &mut Seq<Attribute>,
    program: &Program,
    old: &Pool,
    pool: &Pool,
    method: &Method,
    counted: &[bool],
    attribute: Attribute,
) -> Result<(), NoMemory>
    ensures { OnOk result (into.new ≡ into.old ++ cons_option (woven_attribute program.now old.now pool.now method.now counted.now attribute) []) }
{
    let name = attribute.attribute_name_index;
    let Ok(info) = woven_info(alloc, program, old, pool, method, counted, attribute.info) else {
        return Err(NoMemory);
    };
    push_attribute(into, name, info)
}

fn woven_attributes(
    alloc: Global,
    program: &Program,
    old: &Pool,
    pool: &Pool,
    method: &Method,
    counted: &[bool],
    attributes: Seq<Attribute>,
) -> Result<Seq<Attribute>, NoMemory>
    ensures { IfOk result (λ v. v ≡ filter_map (woven_attribute program.now old.now pool.now method.now counted.now) attributes) }
{
    let mut all = Seq::new(alloc);
    for attribute in attributes.into_vec() {
        let Ok(()) = push_woven(
            alloc, &mut all, program, old, pool, method, counted, attribute,
        ) else {
            return Err(NoMemory);
        };
    }
    Ok(all)
}

/// The descriptor of a method that pauses, with the fiber.
pub fn member_text(alloc: Global, file: &ClassFile, info: &MemberInfo) -> Result<Units, NoMemory>
    ensures { IfOk result (λ units. units ≡ woven_descriptor (member_descriptor file.now info.now)) }
{
    let Ok(text) = text_of(alloc, &file.constant_pool, info.descriptor_index) else {
        return Err(NoMemory);
    };
    let woven = woven_descriptor(alloc, &text);
    drop(text);
    woven
}

// The index of the descriptor with the fiber.
fn descriptor_number(
    alloc: Global,
    file: &ClassFile,
    pool: &Pool,
    info: &MemberInfo,
) -> Result<u16, NoMemory>
    ensures { IfOk result (λ index. index ≡ text_index pool.now (woven_descriptor (member_descriptor file.now info.now))) }
{
    let Ok(text) = member_text(alloc, file, info) else {
        return Err(NoMemory);
    };
    Ok(text_index(pool, &text))
}

// A method that pauses, written anew with this descriptor.
fn renewed(
    alloc: Global,
    program: &Program,
    file: &ClassFile,
    pool: &Pool,
    method: &Method,
    counted: &[bool],
    info: MemberInfo,
    index: u16,
) -> Result<MemberInfo, NoMemory>
    ensures { IfOk result (λ i. i ≡ record (rewritten program.now file.now pool.now method.now counted.now info) { descriptor_index = index }) }
{
    let old = &file.constant_pool;
    let Ok(attributes) = woven_attributes(
        alloc,
        program,
        old,
        pool,
        method,
        counted,
        info.attributes,
    ) else {
        return Err(NoMemory);
    };
    Ok(MemberInfo {
        access_flags: info.access_flags,
        name_index: info.name_index,
        descriptor_index: index,
        attributes,
    })
}

/// A method that pauses, written anew.
pub fn rewritten(
    alloc: Global,
    program: &Program,
    file: &ClassFile,
    pool: &Pool,
    method: &Method,
    counted: &[bool],
    info: MemberInfo,
) -> Result<MemberInfo, NoMemory>
    ensures { IfOk result (λ i. i ≡ rewritten program.now file.now pool.now method.now counted.now info) }
{
    match descriptor_number(alloc, file, pool, &info) {
        Ok(index) => renewed(alloc, program, file, pool, method, counted, info, index),
        Err(fault) => {
            drop(info);
            Err(fault)
        }
    }
}
