//! What a class file names, in the order of its bytes.

ghost use Rattle.std.specs.Prelude.{◌≡◌, [], ◌∷◌, ◌++◌, if◌then◌else◌, IfOk, OnOk, map};
ghost use Rattle.std.specs.List.{flat_map};
ghost use Rattle.std.specs.Option.{option_copied};
ghost use Rattle.kilim_link_spec.specs.World.{class_text, member_descriptor};
ghost use Rattle.kilim_link_spec.specs.declared.named.Mention.TheVariants.{OfClass, OfElement, OfField, OfMethod};
ghost use Rattle.kilim_link_spec.specs.declared.named.Named.TheVariants.{AClass};
ghost use Rattle.kilim_link_spec.specs.Types.{named_by};
ghost use Rattle.kilim_link_spec.specs.Mentions.{is_anewarray, mentions_of, mentions_of_operand, mentions_of_instr, mentions_of_method, instrs_of, this_slots};

use crate::code::{code_attribute, index_in, instrs_of};
use crate::descriptors::named_by;
use crate::frames::push_frames;
use crate::operands::operand_of;
use crate::tables::push_rows;
use kilim_class_code::opcodes::RawInstr;
use kilim_class_file::{ClassFile, MemberInfo};
use kilim_class_pool::Pool;
use kilim_link_spec::{Mention, Named, Operand};
use kilim_link_views::{class_text, has_flag, member_descriptor, super_name};
use kilim_units::{NoMemory, Seq, Units};
use std::alloc::Global;

// `anewarray` makes an array of what its index names.
fn is_anewarray(x: Option<(u8, u16)>) -> bool
    ensures { result ≡ is_anewarray x }
{
    match x {
        Some((number, _)) => number == 189,
        None => false,
    }
}

// The class of a member.
fn push_owner(alloc: Global, into: &mut Seq<Mention>, owner: Units) -> Result<(), NoMemory>
    ensures { OnOk result (into.new ≡ into.old ++ OfClass (named_by owner) ∷ []) }
{
    let Ok(class) = named_by(alloc, owner.as_slice()) else {
        return Err(NoMemory);
    };
    let Ok(()) = into.push(Mention::OfClass(class)) else {
        return Err(NoMemory);
    };
    Ok(())
}

// The class of a field, and its descriptor.
fn push_access(
    alloc: Global,
    into: &mut Seq<Mention>,
    owner: Units,
    descriptor: Units,
) -> Result<(), NoMemory>
    ensures { OnOk result (into.new ≡ into.old ++ OfClass (named_by owner) ∷ OfField descriptor ∷ []) }
{
    let Ok(()) = push_owner(alloc, into, owner) else {
        return Err(NoMemory);
    };
    let Ok(()) = into.push(Mention::OfField(descriptor)) else {
        return Err(NoMemory);
    };
    Ok(())
}

// The same of a method.
fn push_call(
    alloc: Global,
    into: &mut Seq<Mention>,
    owner: Units,
    descriptor: Units,
) -> Result<(), NoMemory>
    ensures { OnOk result (into.new ≡ into.old ++ OfClass (named_by owner) ∷ OfMethod 0 descriptor ∷ []) }
{
    let Ok(()) = push_owner(alloc, into, owner) else {
        return Err(NoMemory);
    };
    let Ok(()) = into.push(Mention::OfMethod(0, descriptor)) else {
        return Err(NoMemory);
    };
    Ok(())
}

fn type_mention(makes_array: bool, class: Named) -> Mention
    ensures { result ≡ (if makes_array then OfElement class else OfClass class) }
{
    if makes_array {
        Mention::OfElement(class)
    } else {
        Mention::OfClass(class)
    }
}

fn push_type(into: &mut Seq<Mention>, makes_array: bool, class: Named) -> Result<(), NoMemory>
    ensures { OnOk result (into.new ≡ into.old ++ (if makes_array then OfElement class else OfClass class) ∷ []) }
{
    into.push(type_mention(makes_array, class))?;
    Ok(())
}

fn push_operand(
    alloc: Global,
    into: &mut Seq<Mention>,
    makes_array: bool,
    operand: Option<Operand>,
) -> Result<(), NoMemory>
    ensures { OnOk result (into.new ≡ into.old ++ mentions_of_operand makes_array operand) }
{
    match operand {
        None | Some(Operand::AConstant(_)) => Ok(()),
        Some(Operand::AField(member)) => {
            push_access(alloc, into, member.owner, member.descriptor)
        }
        Some(Operand::AMethod(member)) => {
            push_call(alloc, into, member.owner, member.descriptor)
        }
        Some(Operand::AType(class)) => push_type(into, makes_array, class),
    }
}

fn push_instr(
    alloc: Global,
    into: &mut Seq<Mention>,
    pool: &Pool,
    instr: &RawInstr,
) -> Result<(), NoMemory>
    ensures { OnOk result (into.new ≡ into.old ++ mentions_of_instr pool.now instr.now) }
{
    let operand = operand_of(alloc, pool, instr)?;
    push_operand(alloc, into, is_anewarray(index_in(instr)), operand)
}

fn push_code(
    alloc: Global,
    into: &mut Seq<Mention>,
    pool: &Pool,
    instrs: &[(u32, RawInstr)],
) -> Result<(), NoMemory>
    ensures { OnOk result (into.new ≡ into.old ++ flat_map (λ p. mentions_of_instr pool.now p.1) instrs.now) }
{
    for (_, instr) in instrs {
        let Ok(()) = push_instr(alloc, into, pool, instr) else {
            return Err(NoMemory);
        };
    }
    Ok(())
}

fn push_code_of(
    alloc: Global,
    into: &mut Seq<Mention>,
    pool: &Pool,
    method: &MemberInfo,
) -> Result<(), NoMemory>
    ensures { OnOk result (into.new ≡ into.old ++ flat_map (λ p. mentions_of_instr pool.now p.1) (instrs_of method.now)) }
{
    let instrs = instrs_of(alloc, method)?;
    push_code(alloc, into, pool, instrs.as_slice())
}

// `this` is an argument of an instance method.
fn this_slots(method: &MemberInfo) -> u8
    ensures { result ≡ this_slots method.now }
{
    if has_flag(0x0008, method.access_flags) {
        0
    } else {
        1
    }
}

#[tactic(auto, using(crate::proofs::Joined::four))]
fn push_method(
    alloc: Global,
    into: &mut Seq<Mention>,
    file: &ClassFile,
    method: &MemberInfo,
) -> Result<(), NoMemory>
    ensures { OnOk result (into.new ≡ into.old ++ mentions_of_method file.now method.now) }
{
    let Ok(descriptor) = Units::from_slice(alloc, member_descriptor(file, method)) else {
        return Err(NoMemory);
    };
    let Ok(()) = into.push(Mention::OfMethod(this_slots(method), descriptor)) else {
        return Err(NoMemory);
    };
    let Ok(()) = push_code_of(alloc, into, &file.constant_pool, method) else {
        return Err(NoMemory);
    };
    let code = code_attribute(method);
    let Ok(()) = push_rows(alloc, into, &file.constant_pool, code) else {
        return Err(NoMemory);
    };
    push_frames(alloc, into, &file.constant_pool, code)
}

fn push_methods(
    alloc: Global,
    into: &mut Seq<Mention>,
    file: &ClassFile,
    methods: &[MemberInfo],
) -> Result<(), NoMemory>
    ensures { OnOk result (into.new ≡ into.old ++ flat_map (mentions_of_method file.now) methods.now) }
{
    for method in methods {
        let Ok(()) = push_method(alloc, into, file, method) else {
            return Err(NoMemory);
        };
    }
    Ok(())
}

fn push_interfaces(
    alloc: Global,
    into: &mut Seq<Mention>,
    pool: &Pool,
    interfaces: &[u16],
) -> Result<(), NoMemory>
    ensures { OnOk result (into.new ≡ into.old ++ map (λ name. OfClass (AClass name)) (map (class_text pool.now) interfaces.now)) }
{
    for index in interfaces {
        let Ok(name) = Units::from_slice(alloc, class_text(pool, *index)) else {
            return Err(NoMemory);
        };
        let Ok(()) = into.push(Mention::OfClass(Named::AClass(name))) else {
            return Err(NoMemory);
        };
    }
    Ok(())
}

fn push_fields(
    alloc: Global,
    into: &mut Seq<Mention>,
    file: &ClassFile,
    fields: &[MemberInfo],
) -> Result<(), NoMemory>
    ensures { OnOk result (into.new ≡ into.old ++ map (λ f. OfField (member_descriptor file.now f)) fields.now) }
{
    for field in fields {
        let Ok(descriptor) = Units::from_slice(alloc, member_descriptor(file, field)) else {
            return Err(NoMemory);
        };
        let Ok(()) = into.push(Mention::OfField(descriptor)) else {
            return Err(NoMemory);
        };
    }
    Ok(())
}

#[tactic(auto, using(crate::proofs::Joined::four), unfolding(kilim_link_spec::specs::Mentions::mentions_of))]
fn push_file(alloc: Global, into: &mut Seq<Mention>, file: &ClassFile) -> Result<(), NoMemory>
    ensures { OnOk result (into.new ≡ into.old ++ mentions_of file.now) }
{
    let Ok(superclass) = Units::from_slice(alloc, super_name(file)) else {
        return Err(NoMemory);
    };
    let Ok(()) = into.push(Mention::OfClass(Named::AClass(superclass))) else {
        return Err(NoMemory);
    };
    let Ok(()) = push_interfaces(alloc, into, &file.constant_pool, file.interfaces.as_slice())
    else {
        return Err(NoMemory);
    };
    let Ok(()) = push_fields(alloc, into, file, file.fields.as_slice()) else {
        return Err(NoMemory);
    };
    push_methods(alloc, into, file, file.methods.as_slice())
}

/// What a class file names, in the order of its bytes: the superclass, the interfaces, the descriptors of the fields,
/// then for each method its descriptor, its code and its frames (own). Code that has a fault names nothing, nor does an
/// index that names no entry of a kind that its instruction takes.
pub fn mentions_of(alloc: Global, file: &ClassFile) -> Result<Seq<Mention>, NoMemory>
    ensures { IfOk result (λ mentions. mentions ≡ mentions_of file.now) }
{
    let mut mentions = Seq::new(alloc);
    let Ok(()) = push_file(alloc, &mut mentions, file) else {
        return Err(NoMemory);
    };
    Ok(mentions)
}
