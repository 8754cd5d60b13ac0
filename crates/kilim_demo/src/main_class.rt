//! The main class.

ghost use Rattle.std.specs.Prelude.{◌≡◌, ◌∷◌, ◌++◌, ◌+◌, ◌≤◌, ◌<◌, [], map, IfOk, OnOk};
ghost use Rattle.kilim_demo.specs.MainClass.{beginning, box_types, boxes_from, main_code, main_constructor, main_entries, main_file, main_frames, main_pool, printing, putting, putting_place, stage_entries_from, starts_from};
ghost use Rattle.kilim_class_attributes.specs.declared.parts.frame.Frame.TheVariants.{Full, Same};
ghost use Rattle.kilim_class_attributes.specs.declared.parts.frame.VerificationType.TheVariants.{Integer, Object};
ghost use Rattle.kilim_demo.specs.Parts.{class_file, code_attribute, exceptions_attribute, frames_attribute, method, public_flag};

use crate::assembler::*;
use crate::parts::{
    PUBLIC, Sizes, empty_file, frames_inside, push_code_attribute, push_exceptions, push_method,
};
use crate::pool::{Constant, add_all};
use crate::stage_class::add_name;
use kilim_class_attributes::parts::{Frame, VerificationType};
use kilim_class_attributes::{Attribute, CodeAttribute};
use kilim_class_file::{ClassFile, MemberInfo};
use kilim_class_pool::Pool;
use kilim_units::{NoMemory, Seq};
use std::alloc::Global;

// Distances back, in two's complement: 44, 21 and 16 bytes.
const BACK_TO_MESSAGES: u16 = 65_492;

const BACK_TO_NODES: u16 = 65_515;

const BACK_TO_SUM: u16 = 65_520;

// The entries of the main class before those of its stages.
const ENTRIES: &[Constant] = &[
    Constant::Text(b"D/Main"),
    Constant::Class(1),
    Constant::Text(b"kilim/Task"),
    Constant::Class(3),
    Constant::Text(b"<init>"),
    Constant::Text(b"()V"),
    Constant::NameAndType(5, 6),
    Constant::Method(4, 7),
    Constant::Text(b"Code"),
    Constant::Text(b"execute"),
    Constant::Text(b"Exceptions"),
    Constant::Text(b"kilim/Pausable"),
    Constant::Class(12),
    Constant::Text(b"StackMapTable"),
    Constant::Text(b"kilim/Mailbox"),
    Constant::Class(15),
    Constant::Method(16, 7),
    Constant::Text(b"get"),
    Constant::Text(b"()Lkilim/Message;"),
    Constant::NameAndType(18, 19),
    Constant::Method(16, 20),
    Constant::Text(b"put"),
    Constant::Text(b"(Lkilim/Message;)V"),
    Constant::NameAndType(22, 23),
    Constant::Method(16, 24),
    Constant::Text(b"D/Node"),
    Constant::Class(26),
    Constant::Text(b"(ILD/Node;)V"),
    Constant::NameAndType(5, 28),
    Constant::Method(27, 29),
    Constant::Text(b"v"),
    Constant::Text(b"I"),
    Constant::NameAndType(31, 32),
    Constant::Field(27, 33),
    Constant::Text(b"next"),
    Constant::Text(b"LD/Node;"),
    Constant::NameAndType(35, 36),
    Constant::Field(27, 37),
    Constant::Text(b"start"),
    Constant::NameAndType(39, 6),
    Constant::Method(4, 40),
    Constant::Text(b"kilim/Sys"),
    Constant::Class(42),
    Constant::Text(b"print"),
    Constant::Text(b"(I)V"),
    Constant::NameAndType(44, 45),
    Constant::Method(43, 46),
    Constant::Text(b"(Lkilim/Mailbox;Lkilim/Mailbox;)V"),
    Constant::NameAndType(5, 48),
];

// The code of the constructor.
const CONSTRUCTOR: &[Op] = &[
    Op::Plain(ALOAD_0),
    Op::Pair(INVOKESPECIAL, 8),
    Op::Plain(RETURN),
];

const BEGINNING: &[Op] = &[
    Op::Plain(ICONST_0),
    Op::Plain(ISTORE_1),
    Op::Plain(ACONST_NULL),
    Op::Plain(ASTORE_2),
    Op::Plain(ICONST_0),
    Op::Plain(ISTORE_3),
];

// The locals that all frames have before the mailboxes.
const LOCALS: &[VerificationType] = &[
    VerificationType::Object(2),
    VerificationType::Integer,
    VerificationType::Object(27),
    VerificationType::Integer,
];

// The distances of the frames behind the first one.
const DELTAS: &[u8] = &[10, 23, 11, 1, 17, 18, 9];

// The class of a stage, from 1 on, and its constructor.
fn add_stage(alloc: Global, pool: &mut Pool, k: u16) -> Result<(), NoMemory>
    requires { k ≤ 15 }
    ensures { OnOk result (pool.new ≡ pool.old ++ stage_entries_from k 1) }
{
    add_name(alloc, pool, k)?;
    let constants = [
        Constant::Class(47 + 3 * k),
        Constant::Method(48 + 3 * k, 49),
    ];
    add_all(alloc, pool, &constants)
}

fn add_stages(alloc: Global, pool: &mut Pool, stages: u16) -> Result<(), NoMemory>
    requires { stages ≤ 15 }
    ensures { OnOk result (pool.new ≡ pool.old ++ stage_entries_from 1 stages) }
{
    for k in 0..stages {
        let Ok(()) = add_stage(alloc, pool, k + 1) else {
            return Err(NoMemory);
        };
    }
    Ok(())
}

#[tactic(auto, unfolding(crate::specs::MainClass::main_entries))]
fn add_first_entries(alloc: Global, pool: &mut Pool) -> Result<(), NoMemory>
    ensures { OnOk result (pool.new ≡ pool.old ++ main_entries) }
{
    add_all(alloc, pool, ENTRIES)
}

#[tactic(auto, unfolding(crate::specs::MainClass::main_pool))]
fn add_entries(alloc: Global, pool: &mut Pool, stages: u16) -> Result<(), NoMemory>
    requires { stages ≤ 15 }
    ensures { OnOk result (pool.new ≡ pool.old ++ main_pool stages) }
{
    add_first_entries(alloc, pool)?;
    add_stages(alloc, pool, stages)
}

#[tactic(auto, unfolding(crate::specs::MainClass::main_constructor))]
fn constructor_code(alloc: Global) -> Result<Vec<u8>, NoMemory>
    ensures { IfOk result (λ code. code.items ≡ main_constructor) }
{
    code_of(alloc, CONSTRUCTOR)
}

#[tactic(auto, unfolding(crate::specs::MainClass::beginning))]
fn push_beginning(code: &mut Vec<u8>) -> Result<(), NoMemory>
    ensures { OnOk result (code.new.items ≡ code.old.items ++ beginning) }
{
    push_code(code, BEGINNING)
}

// Makes a mailbox.
fn push_box(code: &mut Vec<u8>, k: u8) -> Result<(), NoMemory>
    requires { k ≤ 15 }
    ensures { OnOk result (code.new.items ≡ code.old.items ++ boxes_from k 1) }
{
    let ops = [
        Op::Pair(NEW, 16),
        Op::Plain(DUP),
        Op::Pair(INVOKESPECIAL, 17),
        Op::Byte(ASTORE, 4 + k),
    ];
    push_code(code, &ops)
}

fn push_boxes(code: &mut Vec<u8>, count: u8) -> Result<(), NoMemory>
    requires { count ≤ 16 }
    ensures { OnOk result (code.new.items ≡ code.old.items ++ boxes_from 0 count) }
{
    for k in 0..count {
        let Ok(()) = push_box(code, k) else {
            return Err(NoMemory);
        };
    }
    Ok(())
}

// Makes the stage that takes from a mailbox, and starts it.
fn push_start(code: &mut Vec<u8>, k: u8) -> Result<(), NoMemory>
    requires { k < 15 }
    ensures { OnOk result (code.new.items ≡ code.old.items ++ starts_from k 1) }
{
    let next = u16::from(k) + 1;
    let ops = [
        Op::Pair(NEW, 48 + 3 * next),
        Op::Plain(DUP),
        Op::Byte(ALOAD, 4 + k),
        Op::Byte(ALOAD, 4 + (k + 1)),
        Op::Pair(INVOKESPECIAL, 49 + 3 * next),
        Op::Pair(INVOKEVIRTUAL, 41),
    ];
    push_code(code, &ops)
}

fn push_starts(code: &mut Vec<u8>, count: u8) -> Result<(), NoMemory>
    requires { count ≤ 15 }
    ensures { OnOk result (code.new.items ≡ code.old.items ++ starts_from 0 count) }
{
    for k in 0..count {
        let Ok(()) = push_start(code, k) else {
            return Err(NoMemory);
        };
    }
    Ok(())
}

// Makes the messages, and puts them into the first mailbox.
#[tactic(auto, unfolding(crate::specs::MainClass::putting))]
fn push_putting(code: &mut Vec<u8>, messages: u16) -> Result<(), NoMemory>
    ensures { OnOk result (code.new.items ≡ code.old.items ++ putting messages) }
{
    let ops = [
        Op::Plain(ILOAD_1),
        Op::Pair(SIPUSH, messages),
        Op::Pair(IF_ICMPGE, 43),
        Op::Plain(ACONST_NULL),
        Op::Plain(ASTORE_2),
        Op::Plain(ICONST_0),
        Op::Plain(ISTORE_3),
        Op::Plain(ILOAD_3),
        Op::Plain(ILOAD_1),
        Op::Byte(BIPUSH, 8),
        Op::Plain(IREM),
        Op::Pair(IF_ICMPGT, 19),
        Op::Pair(NEW, 27),
        Op::Plain(DUP),
        Op::Plain(ILOAD_1),
        Op::Plain(ALOAD_2),
        Op::Pair(INVOKESPECIAL, 30),
        Op::Plain(ASTORE_2),
        Op::Two(IINC, 3, 1),
        Op::Pair(GOTO, BACK_TO_NODES),
        Op::Byte(ALOAD, 4),
        Op::Plain(ALOAD_2),
        Op::Pair(INVOKEVIRTUAL, 25),
        Op::Two(IINC, 1, 1),
        Op::Pair(GOTO, BACK_TO_MESSAGES),
    ];
    push_code(code, &ops)
}

// Takes them from the last mailbox, and prints the sums of their values.
#[tactic(auto, unfolding(crate::specs::MainClass::printing))]
fn push_printing(code: &mut Vec<u8>, stages: u8, messages: u16) -> Result<(), NoMemory>
    requires { stages ≤ 15 }
    ensures { OnOk result (code.new.items ≡ code.old.items ++ printing stages messages) }
{
    let ops = [
        Op::Plain(ICONST_0),
        Op::Plain(ISTORE_1),
        Op::Plain(ILOAD_1),
        Op::Pair(SIPUSH, messages),
        Op::Pair(IF_ICMPGE, 43),
        Op::Byte(ALOAD, 4 + stages),
        Op::Pair(INVOKEVIRTUAL, 21),
        Op::Pair(CHECKCAST, 27),
        Op::Plain(ASTORE_2),
        Op::Plain(ICONST_0),
        Op::Plain(ISTORE_3),
        Op::Plain(ALOAD_2),
        Op::Pair(IFNULL, 18),
        Op::Plain(ILOAD_3),
        Op::Plain(ALOAD_2),
        Op::Pair(GETFIELD, 34),
        Op::Plain(IADD),
        Op::Plain(ISTORE_3),
        Op::Plain(ALOAD_2),
        Op::Pair(GETFIELD, 38),
        Op::Plain(ASTORE_2),
        Op::Pair(GOTO, BACK_TO_SUM),
        Op::Plain(ILOAD_3),
        Op::Pair(INVOKESTATIC, 47),
        Op::Two(IINC, 1, 1),
        Op::Pair(GOTO, BACK_TO_MESSAGES),
        Op::Plain(RETURN),
    ];
    push_code(code, &ops)
}

#[tactic(auto, unfolding(crate::specs::MainClass::main_code))]
fn push_main_code(code: &mut Vec<u8>, stages: u8, messages: u16) -> Result<(), NoMemory>
    requires { stages ≤ 15 }
    ensures { OnOk result (code.new.items ≡ code.old.items ++ main_code stages messages) }
{
    let Ok(()) = push_beginning(code) else {
        return Err(NoMemory);
    };
    let Ok(()) = push_boxes(code, stages + 1) else {
        return Err(NoMemory);
    };
    let Ok(()) = push_starts(code, stages) else {
        return Err(NoMemory);
    };
    let Ok(()) = push_putting(code, messages) else {
        return Err(NoMemory);
    };
    push_printing(code, stages, messages)
}

fn main_code(alloc: Global, stages: u8, messages: u16) -> Result<Vec<u8>, NoMemory>
    requires { stages ≤ 15 }
    ensures { IfOk result (λ code. code.items ≡ main_code stages messages) }
{
    let mut code = Vec::new(alloc);
    let Ok(()) = push_main_code(&mut code, stages, messages) else {
        return Err(NoMemory);
    };
    Ok(code)
}

fn push_box_types(types: &mut Seq<VerificationType>, count: u8) -> Result<(), NoMemory>
    ensures { OnOk result (types.new ≡ types.old ++ box_types count) }
{
    for _ in 0..count {
        let Ok(()) = types.push(VerificationType::Object(16)) else {
            return Err(NoMemory);
        };
    }
    Ok(())
}

// The locals, with all mailboxes.
fn locals(alloc: Global, stages: u8) -> Result<Seq<VerificationType>, NoMemory>
    requires { stages ≤ 15 }
    ensures { IfOk result (λ locals. locals ≡ Object 2 ∷ Integer ∷ Object 27 ∷ Integer ∷ box_types (stages + 1)) }
{
    let Ok(first) = Vec::from_slice(alloc, LOCALS) else {
        return Err(NoMemory);
    };
    let mut locals = Seq::from_vec(first);
    let Ok(()) = push_box_types(&mut locals, stages + 1) else {
        return Err(NoMemory);
    };
    Ok(locals)
}

fn push_first(alloc: Global, frames: &mut Seq<Frame>, stages: u8) -> Result<(), NoMemory>
    requires { stages ≤ 15 }
    ensures { OnOk result (frames.new ≡ frames.old ++ Full (putting_place stages) (Object 2 ∷ Integer ∷ Object 27 ∷ Integer ∷ box_types (stages + 1)) [] ∷ []) }
{
    let place = 15 + 23 * u16::from(stages);
    let Ok(locals) = locals(alloc, stages) else {
        return Err(NoMemory);
    };
    match frames.push(Frame::Full(place, locals, Seq::new(alloc))) {
        Ok(()) => Ok(()),
        Err(_) => Err(NoMemory),
    }
}

// Frames with the same locals, by their distances.
fn push_same(frames: &mut Seq<Frame>, deltas: &[u8]) -> Result<(), NoMemory>
    ensures { OnOk result (frames.new ≡ frames.old ++ map Same deltas.now) }
{
    for delta in deltas {
        let Ok(()) = frames.push(Frame::Same(*delta)) else {
            return Err(NoMemory);
        };
    }
    Ok(())
}

#[tactic(auto, unfolding(crate::specs::MainClass::main_frames))]
fn push_frames(alloc: Global, frames: &mut Seq<Frame>, stages: u8) -> Result<(), NoMemory>
    requires { stages ≤ 15 }
    ensures { OnOk result (frames.new ≡ frames.old ++ main_frames stages) }
{
    push_first(alloc, frames, stages)?;
    push_same(frames, DELTAS)
}

// The frames of the code.
fn inside(alloc: Global, stages: u8) -> Result<Seq<CodeAttribute>, NoMemory>
    requires { stages ≤ 15 }
    ensures { IfOk result (λ inside. inside ≡ frames_attribute 14 (main_frames stages) ∷ []) }
{
    let mut frames = Seq::new(alloc);
    let Ok(()) = push_frames(alloc, &mut frames, stages) else {
        return Err(NoMemory);
    };
    frames_inside(alloc, 14, frames)
}

fn push_constructor(alloc: Global, methods: &mut Seq<MemberInfo>) -> Result<(), NoMemory>
    ensures { OnOk result (methods.new ≡ methods.old ++ method 0 5 6 (code_attribute 9 1 1 main_constructor [] ∷ []) ∷ []) }
{
    let sizes = Sizes {
        stack: 1,
        locals: 1,
    };
    let Ok(code) = constructor_code(alloc) else {
        return Err(NoMemory);
    };
    let mut attributes = Seq::new(alloc);
    let Ok(()) = push_code_attribute(alloc, &mut attributes, 9, sizes, code, Seq::new(alloc)) else {
        return Err(NoMemory);
    };
    push_method(methods, 0, 5, 6, attributes)
}

fn push_execute_code(
    alloc: Global,
    attributes: &mut Seq<Attribute>,
    stages: u8,
    messages: u16,
) -> Result<(), NoMemory>
    requires { stages ≤ 15 }
    ensures { OnOk result (attributes.new ≡ attributes.old ++ code_attribute 9 4 (5 + stages) (main_code stages messages) (frames_attribute 14 (main_frames stages) ∷ []) ∷ []) }
{
    let sizes = Sizes {
        stack: 4,
        locals: 5 + u16::from(stages),
    };
    let Ok(code) = main_code(alloc, stages, messages) else {
        return Err(NoMemory);
    };
    let Ok(inside) = inside(alloc, stages) else {
        return Err(NoMemory);
    };
    push_code_attribute(alloc, attributes, 9, sizes, code, inside)
}

fn push_execute(
    alloc: Global,
    methods: &mut Seq<MemberInfo>,
    stages: u8,
    messages: u16,
) -> Result<(), NoMemory>
    requires { stages ≤ 15 }
    ensures { OnOk result (methods.new ≡ methods.old ++ method public_flag 10 6 (code_attribute 9 4 (5 + stages) (main_code stages messages) (frames_attribute 14 (main_frames stages) ∷ []) ∷ exceptions_attribute 11 13 ∷ []) ∷ []) }
{
    let mut attributes = Seq::new(alloc);
    let Ok(()) = push_execute_code(alloc, &mut attributes, stages, messages) else {
        return Err(NoMemory);
    };
    let Ok(()) = push_exceptions(alloc, &mut attributes, 11, 13) else {
        return Err(NoMemory);
    };
    push_method(methods, PUBLIC, 10, 6, attributes)
}

#[tactic(auto, unfolding(crate::specs::MainClass::main_file))]
fn fill(alloc: Global, file: &mut ClassFile, stages: u8, messages: u16) -> Result<(), NoMemory>
    requires few { stages ≤ 15 }
    requires empty { file.old ≡ class_file [] [] [] [] }
    ensures { OnOk result (file.new ≡ main_file stages messages) }
{
    let Ok(()) = add_entries(alloc, &mut file.constant_pool, u16::from(stages)) else {
        return Err(NoMemory);
    };
    let Ok(()) = push_constructor(alloc, &mut file.methods) else {
        return Err(NoMemory);
    };
    push_execute(alloc, &mut file.methods, stages, messages)
}

/// The class file of the main class, for so many stages and messages.
pub fn main_file(alloc: Global, stages: u8, messages: u16) -> Result<ClassFile, NoMemory>
    requires { stages ≤ 15 }
    ensures { IfOk result (λ file. file ≡ main_file stages messages) }
{
    let mut file = empty_file(alloc);
    match fill(alloc, &mut file, stages, messages) {
        Ok(()) => Ok(file),
        Err(refused) => {
            drop(file);
            Err(refused)
        }
    }
}
