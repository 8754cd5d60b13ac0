//! Descriptors with the fiber, and names of classes and members.

ghost use Rattle.std.specs.Prelude.{◌≡◌, ◌++◌, ◌∷◌, [], Some, None, IfOk, OnOk};
ghost use Rattle.std.specs.List.{flat_map};
ghost use Rattle.kilim_program.specs.declared.ty.Base.TheVariants as of_base;
ghost use Rattle.kilim_program.specs.Names.{base_descriptor, class_name, descriptor};
ghost use Rattle.kilim_class_descriptors.specs.declared.types.BaseText.TheVariants as of_text;
ghost use Rattle.kilim_class_descriptors.specs.Text.{base_text, field_text, method_text, result_text};
ghost use Rattle.kilim_class_making.specs.declared.pool_needs.need.Need.TheVariants.{AMethod};
ghost use Rattle.kilim_weave_file_spec.specs.Texts.{class_entry_name, fiber_added, fiber_text, member_need, needed_method, type_name, with_fiber, woven_descriptor};

use kilim_class_descriptors::{BaseText, FieldText, MethodText};
use kilim_class_making::pool_needs::Need;
use kilim_link_mentions::method_text;
use kilim_program::lookups::{class_at, method_at};
use kilim_program::{Base, ClassId, Method, MethodId, Program, Ty};
use kilim_reports::method_descriptor;
use kilim_units::{NoMemory, Units};
use std::alloc::Global;

/// The unit with which an array's descriptor begins, once for each dimension.
const BRACKET: u16 = 91;

fn units_of(alloc: Global, out: Vec<u16>) -> Result<Units, NoMemory>
    ensures { IfOk result (λ units. units ≡ out.items) }
{
    Ok(Units::from_vec(alloc, out)?)
}

// ---- descriptors as they are read

fn push_unit(out: &mut Vec<u16>, unit: u16) -> Result<(), NoMemory>
    ensures { OnOk result (out.new.items ≡ out.old.items ++ unit ∷ []) }
{
    out.push(unit)?;
    Ok(())
}

fn push_class_text(out: &mut Vec<u16>, name: &Units) -> Result<(), NoMemory>
    ensures { OnOk result (out.new.items ≡ out.old.items ++ base_text (of_text.Class name.now)) }
{
    let Ok(()) = out.push(76) else {
        return Err(NoMemory);
    };
    let Ok(()) = out.extend_from_slice(name.as_slice()) else {
        return Err(NoMemory);
    };
    push_unit(out, 59)
}

fn push_base_text(out: &mut Vec<u16>, base: &BaseText) -> Result<(), NoMemory>
    ensures { OnOk result (out.new.items ≡ out.old.items ++ base_text base.now) }
{
    let letter = match base {
        BaseText::Bool => 90,
        BaseText::Byte => 66,
        BaseText::Char => 67,
        BaseText::Short => 83,
        BaseText::Int => 73,
        BaseText::Long => 74,
        BaseText::Float => 70,
        BaseText::Double => 68,
        BaseText::Class(name) => return push_class_text(out, name),
    };
    push_unit(out, letter)
}

fn push_field_text(alloc: Global, out: &mut Vec<u16>, field: &FieldText) -> Result<(), NoMemory>
    ensures { OnOk result (out.new.items ≡ out.old.items ++ field_text field.now) }
{
    let Ok(brackets) = vec![in alloc; BRACKET; usize::from(field.dims)] else {
        return Err(NoMemory);
    };
    let Ok(()) = out.extend_from_slice(brackets.as_slice()) else {
        return Err(NoMemory);
    };
    push_base_text(out, &field.base)
}

fn push_params(alloc: Global, out: &mut Vec<u16>, params: &[FieldText]) -> Result<(), NoMemory>
    ensures { OnOk result (out.new.items ≡ out.old.items ++ flat_map field_text params.now) }
{
    for field in params {
        let Ok(()) = push_field_text(alloc, out, field) else {
            return Err(NoMemory);
        };
    }
    Ok(())
}

fn push_result(
    alloc: Global,
    out: &mut Vec<u16>,
    outcome: &Option<FieldText>,
) -> Result<(), NoMemory>
    ensures { OnOk result (out.new.items ≡ out.old.items ++ result_text outcome.now) }
{
    match outcome {
        None => push_unit(out, 86),
        Some(field) => push_field_text(alloc, out, field),
    }
}

// `Lkilim/Fiber;`
fn push_fiber(out: &mut Vec<u16>) -> Result<(), NoMemory>
    ensures { OnOk result (out.new.items ≡ out.old.items ++ field_text fiber_text) }
{
    out.extend_from_slice(&[76, 107, 105, 108, 105, 109, 47, 70, 105, 98, 101, 114, 59])?;
    Ok(())
}

// The parameters, and the fiber behind them.
#[tactic(auto, using(crate::proofs::Lists::flat_map_last))]
fn push_params_and_fiber(
    alloc: Global,
    out: &mut Vec<u16>,
    params: &[FieldText],
) -> Result<(), NoMemory>
    ensures { OnOk result (out.new.items ≡ out.old.items ++ flat_map field_text (params.now ++ fiber_text ∷ [])) }
{
    push_params(alloc, out, params)?;
    push_fiber(out)
}

fn push_with_fiber(alloc: Global, out: &mut Vec<u16>, method: &MethodText) -> Result<(), NoMemory>
    ensures { OnOk result (out.new.items ≡ out.old.items ++ method_text (with_fiber method.now)) }
{
    let Ok(()) = out.push(40) else {
        return Err(NoMemory);
    };
    let Ok(()) = push_params_and_fiber(alloc, out, method.params.as_slice()) else {
        return Err(NoMemory);
    };
    let Ok(()) = out.push(41) else {
        return Err(NoMemory);
    };
    push_result(alloc, out, &method.result)
}

fn text_with_fiber(alloc: Global, method: &MethodText) -> Result<Units, NoMemory>
    ensures { IfOk result (λ units. units ≡ method_text (with_fiber method.now)) }
{
    let mut out = Vec::new(alloc);
    let Ok(()) = push_with_fiber(alloc, &mut out, method) else {
        return Err(NoMemory);
    };
    units_of(alloc, out)
}

/// A method's descriptor with the fiber as its last parameter (JVMS 4.3.3); a text that is none stays.
#[tactic(auto, unfolding(kilim_weave_file_spec::specs::Texts::woven_descriptor))]
pub fn woven_descriptor(alloc: Global, units: &Units) -> Result<Units, NoMemory>
    ensures { IfOk result (λ text. text ≡ woven_descriptor units.now) }
{
    match method_text(alloc, units) {
        Ok(Some(method)) => {
            let woven = text_with_fiber(alloc, &method);
            drop(method);
            woven
        }
        Ok(None) => Ok(units.clone()?),
        Err(fault) => Err(fault),
    }
}

// ---- names of a program

fn push_class(out: &mut Vec<u16>, program: &Program, class: ClassId) -> Result<(), NoMemory>
    ensures { OnOk result (out.new.items ≡ out.old.items ++ class_name program.now class) }
{
    match class_at(program, class) {
        None => Ok(()),
        Some(found) => {
            out.extend_from_slice(found.name.as_slice())?;
            Ok(())
        }
    }
}

fn push_class_descriptor(
    out: &mut Vec<u16>,
    program: &Program,
    class: ClassId,
) -> Result<(), NoMemory>
    ensures { OnOk result (out.new.items ≡ out.old.items ++ base_descriptor program.now (of_base.Class class)) }
{
    let Ok(()) = out.push(76) else {
        return Err(NoMemory);
    };
    let Ok(()) = push_class(out, program, class) else {
        return Err(NoMemory);
    };
    push_unit(out, 59)
}

fn push_base(out: &mut Vec<u16>, program: &Program, base: Base) -> Result<(), NoMemory>
    ensures { OnOk result (out.new.items ≡ out.old.items ++ base_descriptor program.now base) }
{
    let letter = match base {
        Base::Bool => 90,
        Base::Byte => 66,
        Base::Char => 67,
        Base::Short => 83,
        Base::Int => 73,
        Base::Long => 74,
        Base::Class(class) => return push_class_descriptor(out, program, class),
    };
    push_unit(out, letter)
}

fn push_type(out: &mut Vec<u16>, program: &Program, ty: Ty) -> Result<(), NoMemory>
    ensures { OnOk result (out.new.items ≡ out.old.items ++ descriptor program.now ty) }
{
    for _ in 0..ty.dims {
        let Ok(()) = out.push(BRACKET) else {
            return Err(NoMemory);
        };
    }
    push_base(out, program, ty.base)
}

fn push_entry_name(out: &mut Vec<u16>, program: &Program, ty: Ty) -> Result<(), NoMemory>
    ensures { OnOk result (out.new.items ≡ out.old.items ++ class_entry_name program.now ty ty.base) }
{
    match ty.base {
        Base::Class(class) => {
            if ty.dims == 0 {
                push_class(out, program, class)
            } else {
                push_type(out, program, ty)
            }
        }
        _ => push_type(out, program, ty),
    }
}

/// What a Class entry of a type holds: the name of a class, or an array's descriptor (JVMS 4.4.1).
pub fn type_name(alloc: Global, program: &Program, ty: Ty) -> Result<Units, NoMemory>
    ensures { IfOk result (λ name. name ≡ type_name program.now ty) }
{
    let mut out = Vec::new(alloc);
    let Ok(()) = push_entry_name(&mut out, program, ty) else {
        return Err(NoMemory);
    };
    units_of(alloc, out)
}

/// A type's descriptor (JVMS 4.3.2).
pub fn type_descriptor(alloc: Global, program: &Program, ty: Ty) -> Result<Units, NoMemory>
    ensures { IfOk result (λ text. text ≡ descriptor program.now ty) }
{
    let mut out = Vec::new(alloc);
    let Ok(()) = push_type(&mut out, program, ty) else {
        return Err(NoMemory);
    };
    units_of(alloc, out)
}

fn class_units(alloc: Global, program: &Program, class: ClassId) -> Result<Units, NoMemory>
    ensures { IfOk result (λ name. name ≡ class_name program.now class) }
{
    let mut out = Vec::new(alloc);
    let Ok(()) = push_class(&mut out, program, class) else {
        return Err(NoMemory);
    };
    units_of(alloc, out)
}

fn member_need(alloc: Global, program: &Program, method: &Method) -> Result<Need, NoMemory>
    ensures { IfOk result (λ need. need ≡ member_need program.now (Some method.now)) }
{
    let Ok(owner) = class_units(alloc, program, method.owner) else {
        return Err(NoMemory);
    };
    let Ok(descriptor) = method_descriptor(alloc, program, method) else {
        return Err(NoMemory);
    };
    let Ok(name) = method.name.clone() else {
        return Err(NoMemory);
    };
    Ok(Need::AMethod(owner, name, descriptor))
}

fn no_member(alloc: Global) -> Result<Need, NoMemory>
    ensures { IfOk result (λ need. need ≡ AMethod [] [] []) }
{
    let Ok(nothing) = Units::from_slice(alloc, &[]) else {
        return Err(NoMemory);
    };
    let Ok(owner) = nothing.clone() else {
        return Err(NoMemory);
    };
    let Ok(name) = nothing.clone() else {
        return Err(NoMemory);
    };
    Ok(Need::AMethod(owner, name, nothing))
}

/// What a call of a method needs, by its names in the program.
pub fn needed_method(alloc: Global, program: &Program, id: MethodId) -> Result<Need, NoMemory>
    ensures { IfOk result (λ need. need ≡ needed_method program.now id) }
{
    match method_at(program, id) {
        Some(method) => member_need(alloc, program, method),
        None => no_member(alloc),
    }
}
