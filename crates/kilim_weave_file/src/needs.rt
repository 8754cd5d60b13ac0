//! What a woven class file needs of its pool, in the order of its text.

ghost use Rattle.std.specs.Prelude.{◌≡◌, ◌++◌, Some, None, IfOk, OnOk, codes, option_copied};
ghost use Rattle.std.specs.List.{filter_map, flat_map};
ghost use Rattle.kilim_class_attributes.specs.declared.attribute.Attribute.{Attribute};
ghost use Rattle.kilim_class_file.specs.Parts.{text_of};
ghost use Rattle.kilim_link_spec.specs.Code.{decoded};
ghost use Rattle.kilim_link_spec.specs.Mentions.{instrs_if};
ghost use Rattle.kilim_weave_file_spec.specs.FullFrames.{frame_needs, frames_needs, type_needs};
ghost use Rattle.kilim_weave_file_spec.specs.Raw.{added_need, call_by, call_need, code_needs, listed, old_need};
ghost use Rattle.kilim_weave_file_spec.specs.Texts.{needed_method};
ghost use Rattle.kilim_weave_file_spec.specs.WovenFile.{has_calls, head_of, info_needs, instrs_needs, old_table, table_name, table_need};

use kilim_class_attributes::{Attribute, Code, CodeAttribute, CodeInfo, Info};
use kilim_class_code::opcodes::RawInstr;
use kilim_class_making::pool_needs::Need;
use kilim_class_pool::{Entry, Pool};
use kilim_link_mentions::decoded;
use kilim_program::{Frame, Instr, Method, MethodId, Program, VType};
use kilim_units::{NoMemory, Seq, Units};
use kilim_weave_file_sizes::{is_pausable_call, needed_method, type_name, woven_descriptor};
use std::alloc::Global;

// ---- calls

/// Whether a method has a pausable call.
pub fn has_calls(program: &Program, method: &Method) -> bool
    ensures { result ≡ has_calls program.now method.now }
{
    for entry in method.code.as_slice() {
        if is_pausable_call(program, &entry.1) {
            return true;
        }
    }
    false
}

// The units of a Utf8 (JVMS 4.4.7); none where another entry stands there.
#[tactic(auto, unfolding(kilim_class_file::specs::Parts::text_of))]
pub fn text_of(alloc: Global, pool: &Pool, index: u16) -> Result<Units, NoMemory>
    ensures { IfOk result (λ units. units ≡ text_of pool.now index) }
{
    match pool.entry(index) {
        Some(Entry::Utf8(units)) => Ok(units.clone()?),
        _ => Ok(Units::from_slice(alloc, &[])?),
    }
}

fn call_by(
    alloc: Global,
    pool: &Pool,
    class: u16,
    member: Option<&Entry>,
) -> Result<Option<Need>, NoMemory>
    ensures { IfOk result (λ need. need ≡ call_by pool.now class (option_copied member.entry)) }
{
    match member {
        Some(Entry::NameAndType(name, descriptor)) => {
            let Ok(text) = text_of(alloc, pool, *descriptor) else {
                return Err(NoMemory);
            };
            let Ok(woven) = woven_descriptor(alloc, &text) else {
                return Err(NoMemory);
            };
            Ok(Some(Need::ACall(class, *name, woven)))
        }
        _ => Ok(None),
    }
}

fn call_need(alloc: Global, pool: &Pool, entry: Option<&Entry>) -> Result<Option<Need>, NoMemory>
    ensures { IfOk result (λ need. need ≡ call_need pool.now (option_copied entry.entry)) }
{
    match entry {
        Some(Entry::Methodref(class, member)) => {
            call_by(alloc, pool, *class, pool.entry(*member))
        }
        Some(Entry::InterfaceMethodref(class, member)) => {
            call_by(alloc, pool, *class, pool.entry(*member))
        }
        _ => Ok(None),
    }
}

/// What an old instruction names anew: the method of a pausable call, with the fiber.
pub fn old_need(
    alloc: Global,
    program: &Program,
    pool: &Pool,
    instr: &Instr,
    was: &RawInstr,
) -> Result<Option<Need>, NoMemory>
    ensures { IfOk result (λ need. need ≡ old_need program.now pool.now instr.now was.now) }
{
    match was {
        RawInstr::Index(_, index) => {
            if is_pausable_call(program, instr) {
                call_need(alloc, pool, pool.entry(*index))
            } else {
                Ok(None)
            }
        }
        _ => Ok(None),
    }
}

fn call_of(alloc: Global, program: &Program, id: MethodId) -> Result<Option<Need>, NoMemory>
    ensures { IfOk result (λ need. need ≡ Some (needed_method program.now id)) }
{
    Ok(Some(needed_method(alloc, program, id)?))
}

/// What an instruction names that weaving adds.
pub fn added_need(alloc: Global, program: &Program, instr: &Instr) -> Result<Option<Need>, NoMemory>
    ensures { IfOk result (λ need. need ≡ added_need program.now instr.now) }
{
    match instr {
        Instr::Invokevirtual(id) | Instr::Invokestatic(id) => call_of(alloc, program, *id),
        Instr::Checkcast(ty) => Ok(Some(Need::AClass(type_name(alloc, program, *ty)?))),
        _ => Ok(None),
    }
}

// ---- code

fn push_listed(into: &mut Seq<Need>, need: Option<Need>) -> Result<(), NoMemory>
    ensures { OnOk result (into.new ≡ into.old ++ listed need) }
{
    let Some(found) = need else {
        return Ok(());
    };
    let Ok(()) = into.push(found) else {
        return Err(NoMemory);
    };
    Ok(())
}

fn push_old(
    alloc: Global,
    into: &mut Seq<Need>,
    program: &Program,
    pool: &Pool,
    instr: &Instr,
    was: &RawInstr,
) -> Result<(), NoMemory>
    ensures { OnOk result (into.new ≡ into.old ++ listed (old_need program.now pool.now instr.now was.now)) }
{
    let Ok(need) = old_need(alloc, program, pool, instr, was) else {
        return Err(NoMemory);
    };
    push_listed(into, need)
}

fn push_added(
    alloc: Global,
    into: &mut Seq<Need>,
    program: &Program,
    instr: &Instr,
) -> Result<(), NoMemory>
    ensures { OnOk result (into.new ≡ into.old ++ listed (added_need program.now instr.now)) }
{
    let Ok(need) = added_need(alloc, program, instr) else {
        return Err(NoMemory);
    };
    push_listed(into, need)
}

// What the instructions of a woven code need; the counted ones are the old ones, in order.
fn push_code(
    alloc: Global,
    into: &mut Seq<Need>,
    program: &Program,
    pool: &Pool,
    code: &[(u32, Instr)],
    counted: &[bool],
    olds: &[(u32, RawInstr)],
) -> Result<(), NoMemory>
    ensures { OnOk result (into.new ≡ into.old ++ code_needs program.now pool.now code.now counted.now olds.now) }
{
    let mut marks = counted;
    let mut rest = olds;
    for entry in code {
        let [mark, others @ ..] = marks else {
            return Ok(());
        };
        marks = others;
        if *mark {
            let [was, behind @ ..] = rest else {
                return Ok(());
            };
            rest = behind;
            let Ok(()) = push_old(alloc, into, program, pool, &entry.1, &was.1) else {
                return Err(NoMemory);
            };
        } else {
            let Ok(()) = push_added(alloc, into, program, &entry.1) else {
                return Err(NoMemory);
            };
        }
    }
    Ok(())
}

/// The instructions of a code array that has no fault, with their places; else none.
pub fn instrs_if(alloc: Global, code: &[u8]) -> Result<Seq<(u32, RawInstr)>, NoMemory>
    ensures { IfOk result (λ instrs. instrs ≡ instrs_if (decoded code.now)) }
{
    match decoded(alloc, code)? {
        Ok(body) => Ok(body.code),
        Err(_) => Ok(Seq::new(alloc)),
    }
}

fn push_instrs(
    alloc: Global,
    into: &mut Seq<Need>,
    program: &Program,
    pool: &Pool,
    method: &Method,
    counted: &[bool],
    code: &Code,
) -> Result<(), NoMemory>
    ensures { OnOk result (into.new ≡ into.old ++ instrs_needs program.now pool.now method.now counted.now code.now) }
{
    if has_calls(program, method) {
        let Ok(olds) = instrs_if(alloc, code.code.as_slice()) else {
            return Err(NoMemory);
        };
        let Ok(()) = push_code(
            alloc,
            into,
            program,
            pool,
            method.code.as_slice(),
            counted,
            olds.as_slice(),
        ) else {
            return Err(NoMemory);
        };
    }
    Ok(())
}

// ---- frames

/// The index of the name of a StackMapTable that is there, the first where there are several.
pub fn old_table(code: &Code) -> Option<u16>
    ensures { result ≡ old_table code.now }
{
    table_in(code.attributes.as_slice())
}

fn table_in(attributes: &[CodeAttribute]) -> Option<u16>
    ensures { result ≡ head_of (filter_map table_name attributes.now) }
{
    for attribute in attributes {
        match &attribute.info {
            CodeInfo::StackMapTable(_) => return Some(attribute.attribute_name_index),
            CodeInfo::Raw(_) => {}
        }
    }
    None
}

/// `StackMapTable` as units.
pub fn table_units(alloc: Global) -> Result<Units, NoMemory>
    ensures { IfOk result (λ units. units ≡ codes "StackMapTable") }
{
    let name = [83, 116, 97, 99, 107, 77, 97, 112, 84, 97, 98, 108, 101];
    Ok(Units::from_slice(alloc, &name)?)
}

fn push_table(
    alloc: Global,
    into: &mut Seq<Need>,
    name: Option<u16>,
    method: &Method,
) -> Result<(), NoMemory>
    ensures { OnOk result (into.new ≡ into.old ++ table_need name method.now) }
{
    if name.is_none() && !method.frames.is_empty() {
        let Ok(units) = table_units(alloc) else {
            return Err(NoMemory);
        };
        let Ok(()) = into.push(Need::AText(units)) else {
            return Err(NoMemory);
        };
    }
    Ok(())
}

fn push_type(
    alloc: Global,
    into: &mut Seq<Need>,
    program: &Program,
    ty: &VType,
) -> Result<(), NoMemory>
    ensures { OnOk result (into.new ≡ into.old ++ type_needs program.now ty.now) }
{
    match ty {
        VType::Object(found) => {
            let Ok(name) = type_name(alloc, program, *found) else {
                return Err(NoMemory);
            };
            let Ok(()) = into.push(Need::AClass(name)) else {
                return Err(NoMemory);
            };
        }
        _ => {}
    }
    Ok(())
}

fn push_types(
    alloc: Global,
    into: &mut Seq<Need>,
    program: &Program,
    types: &[VType],
) -> Result<(), NoMemory>
    ensures { OnOk result (into.new ≡ into.old ++ flat_map (type_needs program.now) types.now) }
{
    for ty in types {
        let Ok(()) = push_type(alloc, into, program, ty) else {
            return Err(NoMemory);
        };
    }
    Ok(())
}

#[tactic(auto, using(crate::proofs::Lists::flat_map_append))]
fn push_frame(
    alloc: Global,
    into: &mut Seq<Need>,
    program: &Program,
    frame: &Frame,
) -> Result<(), NoMemory>
    ensures { OnOk result (into.new ≡ into.old ++ frame_needs program.now frame.now) }
{
    let Ok(()) = push_types(alloc, into, program, frame.locals.as_slice()) else {
        return Err(NoMemory);
    };
    push_types(alloc, into, program, frame.stack.as_slice())
}

fn push_frames(
    alloc: Global,
    into: &mut Seq<Need>,
    program: &Program,
    frames: &[(u32, Frame)],
) -> Result<(), NoMemory>
    ensures { OnOk result (into.new ≡ into.old ++ frames_needs program.now frames.now) }
{
    for entry in frames {
        let Ok(()) = push_frame(alloc, into, program, &entry.1) else {
            return Err(NoMemory);
        };
    }
    Ok(())
}

// ---- a method

fn push_code_attribute(
    alloc: Global,
    into: &mut Seq<Need>,
    program: &Program,
    pool: &Pool,
    method: &Method,
    counted: &[bool],
    code: &Code,
) -> Result<(), NoMemory>
    ensures { OnOk result (into.new ≡ into.old ++ (instrs_needs program.now pool.now method.now counted.now code.now ++ (table_need (old_table code.now) method.now ++ frames_needs program.now method.now.frames))) }
{
    let Ok(()) = push_instrs(alloc, into, program, pool, method, counted, code) else {
        return Err(NoMemory);
    };
    let Ok(()) = push_table(alloc, into, old_table(code), method) else {
        return Err(NoMemory);
    };
    push_frames(alloc, into, program, method.frames.as_slice())
}

fn push_info(
    alloc: Global,
    into: &mut Seq<Need>,
    program: &Program,
    pool: &Pool,
    method: &Method,
    counted: &[bool],
    info: &Info,
) -> Result<(), NoMemory>
    ensures { OnOk result (into.new ≡ into.old ++ info_needs program.now pool.now method.now counted.now info.now) }
{
    match info {
        Info::Code(code) => push_code_attribute(alloc, into, program, pool, method, counted, code),
        _ => Ok(()),
    }
}

/// What the attributes of a method that pauses need.
pub fn push_attributes(
    alloc: Global,
    into: &mut Seq<Need>,
    program: &Program,
    pool: &Pool,
    method: &Method,
    counted: &[bool],
    attributes: &[Attribute],
) -> Result<(), NoMemory>
    ensures { OnOk result (into.new ≡ into.old ++ flat_map (λ (a : Attribute). info_needs program.now pool.now method.now counted.now a.info) attributes.now) }
{
    for attribute in attributes {
        let Ok(()) = push_info(alloc, into, program, pool, method, counted, &attribute.info) else {
            return Err(NoMemory);
        };
    }
    Ok(())
}
