//! The classes of stages.

ghost use Rattle.std.specs.Prelude.{◌≡◌, ◌∷◌, ◌++◌, ◌+◌, ◌≤◌, ◌<◌, [], length, string_bytes, IfOk, OnOk};
ghost use Rattle.kilim_class_attributes.specs.declared.parts.frame.Frame.TheVariants.{Append};
ghost use Rattle.kilim_class_pool.specs.declared.entry.Entry.TheVariants.{Utf8};
ghost use Rattle.kilim_demo.specs.Parts.{class_file, code_attribute, exceptions_attribute, frames_attribute, method, public_flag};
ghost use Rattle.kilim_demo.specs.declared.draws.Operation.TheVariants.{Adds, Prepends, Cuts};
ghost use Rattle.kilim_demo.specs.Assembler.{back};
ghost use Rattle.kilim_demo.specs.Stage.{giving, operation_code, stage_code, stage_constructor, stage_entries, stage_file, stage_frames, stage_name, stage_pool, taking};

use crate::assembler::*;
use crate::draws::{Operation, Stage};
use crate::parts::{
    PUBLIC, Sizes, empty_file, frames_inside, one, push_code_attribute, push_exceptions,
    push_field, push_method,
};
use crate::pool::{Constant, add_all, add_text};
use kilim_class_attributes::parts::{Frame, VerificationType};
use kilim_class_attributes::{Attribute, CodeAttribute};
use kilim_class_file::{ClassFile, MemberInfo};
use kilim_class_pool::Pool;
use kilim_units::{NoMemory, Seq};
use std::alloc::Global;

// The entries of a stage behind the name of its class, which has the index 1.
const ENTRIES: &[Constant] = &[
    Constant::Class(1),
    Constant::Text(b"kilim/Task"),
    Constant::Class(3),
    Constant::Text(b"in"),
    Constant::Text(b"Lkilim/Mailbox;"),
    Constant::Text(b"out"),
    Constant::Text(b"<init>"),
    Constant::Text(b"(Lkilim/Mailbox;Lkilim/Mailbox;)V"),
    Constant::Text(b"()V"),
    Constant::NameAndType(8, 10),
    Constant::Method(4, 11),
    Constant::NameAndType(5, 6),
    Constant::Field(2, 13),
    Constant::NameAndType(7, 6),
    Constant::Field(2, 15),
    Constant::Text(b"execute"),
    Constant::Text(b"Code"),
    Constant::Text(b"Exceptions"),
    Constant::Text(b"kilim/Pausable"),
    Constant::Class(20),
    Constant::Text(b"StackMapTable"),
    Constant::Text(b"kilim/Mailbox"),
    Constant::Class(23),
    Constant::Text(b"get"),
    Constant::Text(b"()Lkilim/Message;"),
    Constant::NameAndType(25, 26),
    Constant::Method(24, 27),
    Constant::Text(b"put"),
    Constant::Text(b"(Lkilim/Message;)V"),
    Constant::NameAndType(29, 30),
    Constant::Method(24, 31),
    Constant::Text(b"D/Node"),
    Constant::Class(33),
    Constant::Text(b"v"),
    Constant::Text(b"I"),
    Constant::NameAndType(35, 36),
    Constant::Field(34, 37),
    Constant::Text(b"next"),
    Constant::Text(b"LD/Node;"),
    Constant::NameAndType(39, 40),
    Constant::Field(34, 41),
    Constant::Text(b"(ILD/Node;)V"),
    Constant::NameAndType(8, 43),
    Constant::Method(34, 44),
];

// The code of the constructor.
const CONSTRUCTOR: &[Op] = &[
    Op::Plain(ALOAD_0),
    Op::Pair(INVOKESPECIAL, 12),
    Op::Plain(ALOAD_0),
    Op::Plain(ALOAD_1),
    Op::Pair(PUTFIELD, 14),
    Op::Plain(ALOAD_0),
    Op::Plain(ALOAD_2),
    Op::Pair(PUTFIELD, 16),
    Op::Plain(RETURN),
];

// Cuts the first node off where another one follows.
const CUTS: &[Op] = &[
    Op::Plain(ALOAD_2),
    Op::Pair(GETFIELD, 42),
    Op::Plain(ASTORE_3),
    Op::Plain(ALOAD_3),
    Op::Pair(IFNULL, 10),
    Op::Plain(ALOAD_2),
    Op::Plain(ACONST_NULL),
    Op::Pair(PUTFIELD, 42),
    Op::Plain(ALOAD_3),
    Op::Plain(ASTORE_2),
];

// Takes the next message as a node.
const NEXT_NODE: &[Op] = &[
    Op::Plain(ALOAD_0),
    Op::Pair(GETFIELD, 14),
    Op::Pair(INVOKEVIRTUAL, 28),
    Op::Pair(CHECKCAST, 34),
    Op::Plain(ASTORE_2),
];

// The name of the class of a stage.
#[tactic(auto, unfolding(crate::specs::Stage::stage_name))]
fn stage_name(alloc: Global, k: u16) -> Result<String, NoMemory>
    ensures { IfOk result (λ name. string_bytes name ≡ stage_name k) }
{
    match format!(in alloc; "D/S{k}") {
        Ok(name) => Ok(name),
        Err(_) => Err(NoMemory),
    }
}

/// Adds the name of the class of a stage behind other entries.
pub fn add_name(alloc: Global, pool: &mut Pool, k: u16) -> Result<(), NoMemory>
    ensures { OnOk result (pool.new ≡ pool.old ++ Utf8 (stage_name k) ∷ []) }
{
    let name = stage_name(alloc, k)?;
    add_text(alloc, pool, name.as_bytes())
}

#[tactic(auto, unfolding(crate::specs::Stage::stage_entries))]
fn add_entries(alloc: Global, pool: &mut Pool) -> Result<(), NoMemory>
    ensures { OnOk result (pool.new ≡ pool.old ++ stage_entries) }
{
    add_all(alloc, pool, ENTRIES)
}

#[tactic(auto, unfolding(crate::specs::Stage::stage_pool))]
fn add_name_and_entries(alloc: Global, pool: &mut Pool, k: u16) -> Result<(), NoMemory>
    ensures { OnOk result (pool.new ≡ pool.old ++ stage_pool k) }
{
    add_name(alloc, pool, k)?;
    add_entries(alloc, pool)
}

#[tactic(auto, unfolding(crate::specs::Stage::stage_constructor))]
fn constructor_code(alloc: Global) -> Result<Vec<u8>, NoMemory>
    ensures { IfOk result (λ code. code.items ≡ stage_constructor) }
{
    code_of(alloc, CONSTRUCTOR)
}

#[tactic(auto, unfolding(crate::specs::Stage::operation_code))]
fn push_adds(code: &mut Vec<u8>, c: u8) -> Result<(), NoMemory>
    ensures { OnOk result (code.new.items ≡ code.old.items ++ operation_code Adds c) }
{
    let node = Op::Plain(ALOAD_2);
    let ops = [
        node,
        Op::Plain(DUP),
        Op::Pair(GETFIELD, 38),
        Op::Byte(BIPUSH, c),
        Op::Plain(IADD),
        Op::Pair(PUTFIELD, 38),
    ];
    push_code(code, &ops)
}

#[tactic(auto, unfolding(crate::specs::Stage::operation_code))]
fn push_prepends(code: &mut Vec<u8>, c: u8) -> Result<(), NoMemory>
    ensures { OnOk result (code.new.items ≡ code.old.items ++ operation_code Prepends c) }
{
    let ops = [
        Op::Pair(NEW, 34),
        Op::Plain(DUP),
        Op::Byte(BIPUSH, c),
        Op::Plain(ALOAD_2),
        Op::Pair(INVOKESPECIAL, 45),
        Op::Plain(ASTORE_2),
    ];
    push_code(code, &ops)
}

#[tactic(auto, unfolding(crate::specs::Stage::operation_code))]
fn push_cuts(code: &mut Vec<u8>, c: u8) -> Result<(), NoMemory>
    ensures { OnOk result (code.new.items ≡ code.old.items ++ operation_code Cuts c) }
{
    let _c = c;
    push_code(code, CUTS)
}

// What is done to the node.
fn push_operation(code: &mut Vec<u8>, stage: Stage) -> Result<(), NoMemory>
    ensures { OnOk result (code.new.items ≡ code.old.items ++ operation_code stage.operation stage.number) }
{
    match stage.operation {
        Operation::Adds => push_adds(code, stage.number),
        Operation::Prepends => push_prepends(code, stage.number),
        Operation::Cuts => push_cuts(code, stage.number),
    }
}

// How many bytes that takes.
#[tactic(auto, unfolding(crate::specs::Stage::operation_code))]
fn operation_length(stage: Stage) -> u16
    ensures long { result ≡ length (operation_code stage.operation stage.number) }
    ensures few { result ≤ 16 }
{
    match stage.operation {
        Operation::Adds => 11,
        Operation::Prepends => 11,
        Operation::Cuts => 16,
    }
}

// Takes the next node.
#[tactic(auto, unfolding(crate::specs::Stage::taking))]
fn push_taking(code: &mut Vec<u8>, messages: u16, long: u16) -> Result<(), NoMemory>
    requires { long ≤ 16 }
    ensures { OnOk result (code.new.items ≡ code.old.items ++ taking messages long) }
{
    let ops = [
        Op::Plain(ICONST_0),
        Op::Plain(ISTORE_1),
        Op::Plain(ILOAD_1),
        Op::Pair(SIPUSH, messages),
        Op::Pair(IF_ICMPGE, 28 + long),
    ];
    push_code(code, &ops)?;
    push_code(code, NEXT_NODE)
}

// A distance of so many bytes back.
fn back(distance: u16) -> u16
    requires { 0 < distance }
    ensures { result ≡ back distance }
{
    (65_536 - u32::from(distance)) as u16
}

// Hands it on, and goes back.
#[tactic(auto, unfolding(crate::specs::Stage::giving))]
fn push_giving(code: &mut Vec<u8>, long: u16) -> Result<(), NoMemory>
    requires { long ≤ 16 }
    ensures { OnOk result (code.new.items ≡ code.old.items ++ giving long) }
{
    let to_next = back(29 + long);
    let ops = [
        Op::Plain(ALOAD_0),
        Op::Pair(GETFIELD, 16),
        Op::Plain(ALOAD_2),
        Op::Pair(INVOKEVIRTUAL, 32),
        Op::Two(IINC, 1, 1),
        Op::Pair(GOTO, to_next),
        Op::Plain(RETURN),
    ];
    push_code(code, &ops)
}

#[tactic(auto, unfolding(crate::specs::Stage::stage_code))]
fn push_stage_code(code: &mut Vec<u8>, messages: u16, stage: Stage) -> Result<(), NoMemory>
    ensures { OnOk result (code.new.items ≡ code.old.items ++ stage_code messages stage) }
{
    let long = operation_length(stage);
    let Ok(()) = push_taking(code, messages, long) else {
        return Err(NoMemory);
    };
    let Ok(()) = push_operation(code, stage) else {
        return Err(NoMemory);
    };
    push_giving(code, long)
}

fn stage_code(alloc: Global, messages: u16, stage: Stage) -> Result<Vec<u8>, NoMemory>
    ensures { IfOk result (λ code. code.items ≡ stage_code messages stage) }
{
    let mut code = Vec::new(alloc);
    let Ok(()) = push_stage_code(&mut code, messages, stage) else {
        return Err(NoMemory);
    };
    Ok(code)
}

fn push_append(
    alloc: Global,
    frames: &mut Seq<Frame>,
    delta: u16,
    local: VerificationType,
) -> Result<(), NoMemory>
    ensures { OnOk result (frames.new ≡ frames.old ++ Append delta (local ∷ []) ∷ []) }
{
    let Ok(locals) = one(alloc, local) else {
        return Err(NoMemory);
    };
    match frames.push(Frame::Append(delta, locals)) {
        Ok(()) => Ok(()),
        Err(_) => Err(NoMemory),
    }
}

#[tactic(auto, unfolding(crate::specs::Stage::stage_frames))]
fn push_frames(alloc: Global, frames: &mut Seq<Frame>, long: u16) -> Result<(), NoMemory>
    requires { long ≤ 16 }
    ensures { OnOk result (frames.new ≡ frames.old ++ stage_frames long) }
{
    let Ok(()) = push_append(alloc, frames, 2, VerificationType::Integer) else {
        return Err(NoMemory);
    };
    let Ok(()) = push_append(alloc, frames, 17 + long, VerificationType::Object(34)) else {
        return Err(NoMemory);
    };
    match frames.push(Frame::Chop(1, 13)) {
        Ok(()) => Ok(()),
        Err(_) => Err(NoMemory),
    }
}

// The frames of the code of a stage, whose operation has so many bytes.
fn inside(alloc: Global, long: u16) -> Result<Seq<CodeAttribute>, NoMemory>
    requires { long ≤ 16 }
    ensures { IfOk result (λ inside. inside ≡ frames_attribute 22 (stage_frames long) ∷ []) }
{
    let mut frames = Seq::new(alloc);
    let Ok(()) = push_frames(alloc, &mut frames, long) else {
        return Err(NoMemory);
    };
    frames_inside(alloc, 22, frames)
}

fn push_constructor(alloc: Global, methods: &mut Seq<MemberInfo>) -> Result<(), NoMemory>
    ensures { OnOk result (methods.new ≡ methods.old ++ method 0 8 9 (code_attribute 18 2 3 stage_constructor [] ∷ []) ∷ []) }
{
    let sizes = Sizes {
        stack: 2,
        locals: 3,
    };
    let Ok(code) = constructor_code(alloc) else {
        return Err(NoMemory);
    };
    let mut attributes = Seq::new(alloc);
    let Ok(()) = push_code_attribute(alloc, &mut attributes, 18, sizes, code, Seq::new(alloc))
    else {
        return Err(NoMemory);
    };
    push_method(methods, 0, 8, 9, attributes)
}

fn push_execute_code(
    alloc: Global,
    attributes: &mut Seq<Attribute>,
    messages: u16,
    stage: Stage,
) -> Result<(), NoMemory>
    ensures { OnOk result (attributes.new ≡ attributes.old ++ code_attribute 18 4 4 (stage_code messages stage) (frames_attribute 22 (stage_frames (length (operation_code stage.operation stage.number))) ∷ []) ∷ []) }
{
    let sizes = Sizes {
        stack: 4,
        locals: 4,
    };
    let Ok(code) = stage_code(alloc, messages, stage) else {
        return Err(NoMemory);
    };
    let Ok(inside) = inside(alloc, operation_length(stage)) else {
        return Err(NoMemory);
    };
    push_code_attribute(alloc, attributes, 18, sizes, code, inside)
}

fn push_execute(
    alloc: Global,
    methods: &mut Seq<MemberInfo>,
    messages: u16,
    stage: Stage,
) -> Result<(), NoMemory>
    ensures { OnOk result (methods.new ≡ methods.old ++ method public_flag 17 10 (code_attribute 18 4 4 (stage_code messages stage) (frames_attribute 22 (stage_frames (length (operation_code stage.operation stage.number))) ∷ []) ∷ exceptions_attribute 19 21 ∷ []) ∷ []) }
{
    let mut attributes = Seq::new(alloc);
    let Ok(()) = push_execute_code(alloc, &mut attributes, messages, stage) else {
        return Err(NoMemory);
    };
    let Ok(()) = push_exceptions(alloc, &mut attributes, 19, 21) else {
        return Err(NoMemory);
    };
    push_method(methods, PUBLIC, 17, 10, attributes)
}

#[tactic(auto, unfolding(crate::specs::Stage::stage_file))]
fn fill(
    alloc: Global,
    file: &mut ClassFile,
    k: u16,
    messages: u16,
    stage: Stage,
) -> Result<(), NoMemory>
    requires { file.old ≡ class_file [] [] [] [] }
    ensures { OnOk result (file.new ≡ stage_file k messages stage) }
{
    let Ok(()) = add_name_and_entries(alloc, &mut file.constant_pool, k) else {
        return Err(NoMemory);
    };
    let Ok(()) = push_field(alloc, &mut file.fields, 5, 6) else {
        return Err(NoMemory);
    };
    let Ok(()) = push_field(alloc, &mut file.fields, 7, 6) else {
        return Err(NoMemory);
    };
    let Ok(()) = push_constructor(alloc, &mut file.methods) else {
        return Err(NoMemory);
    };
    push_execute(alloc, &mut file.methods, messages, stage)
}

/// The class file of a stage, from 1 on, for so many messages.
pub fn stage_file(alloc: Global, k: u16, messages: u16, stage: Stage) -> Result<ClassFile, NoMemory>
    ensures { IfOk result (λ file. file ≡ stage_file k messages stage) }
{
    let mut file = empty_file(alloc);
    match fill(alloc, &mut file, k, messages, stage) {
        Ok(()) => Ok(file),
        Err(refused) => {
            drop(file);
            Err(refused)
        }
    }
}
