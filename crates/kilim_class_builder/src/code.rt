//! Code and its frames.

ghost use Rattle.std.specs.Prelude.{◌≡◌, ◌<◌, ◌++◌, ◌∷◌, [], Some, length, IfErr, IfOk, OnOk};
ghost use Rattle.kilim_class_attributes.specs.declared.attribute.CodeInfo.TheVariants as inside;
ghost use Rattle.kilim_class_pool.specs.declared.fault.AddFault.TheVariants as add;
ghost use Rattle.kilim_class_grammar.specs.Reader.{ReadsUnless};
ghost use Rattle.kilim_class_code.specs.opcodes.Instr.{instr_text};
ghost use Rattle.kilim_class_builder.specs.Adding.{classes_added};
ghost use Rattle.kilim_class_builder.specs.Frames.{frames_names, full_frames};
ghost use Rattle.kilim_class_builder.specs.Members.{attribute, body_added, code_with, source_text, table_added};

use crate::adding::{add_classes, add_text};
use crate::frames::{frames_names, full_frames};
use kilim_class_attributes::parts::Frame as Entered;
use kilim_class_attributes::{Attribute, Code, CodeAttribute, CodeInfo, Info};
use kilim_class_code::opcodes::RawInstr;
use kilim_class_making::code_bytes::code_bytes;
use kilim_class_pool::{AddFault, Pool};
use kilim_program::Frame;
use kilim_units::{NoMemory, Seq, Units};
use std::alloc::{AllocError, Global};

// ---- bytes

// The bytes of an instruction at a place.
#[tactic(auto, unfolding(kilim_class_code::specs::Code::code_text))]
fn instr_bytes(alloc: Global, at: u32, instr: RawInstr) -> Result<Seq<u8>, NoMemory>
    ensures { IfOk result (λ bytes. bytes ≡ instr_text at instr) }
{
    let placed = [(at, instr)];
    code_bytes(alloc, &placed)
}

// Adds an instruction. Code of more than 65,535 bytes has no text: it is answered as want of memory.
fn push_instr(alloc: Global, bytes: &mut Vec<u8>, instr: RawInstr) -> Result<(), NoMemory>
    ensures { OnOk result (bytes.new.items ≡ bytes.old.items ++ instr_text (length bytes.old.items) instr) }
{
    let at = bytes.len();
    if at > 65_535 {
        return Err(NoMemory);
    }
    let more = instr_bytes(alloc, at as u32, instr)?;
    bytes.extend_from_slice(more.as_slice())?;
    Ok(())
}

#[tactic(auto, unfolding(crate::specs::Members::source_text))]
fn source_bytes(alloc: Global, code: Vec<RawInstr>) -> Result<Seq<u8>, NoMemory>
    ensures { IfOk result (λ bytes. bytes ≡ source_text 0 code.items) }
{
    let mut bytes = Vec::new(alloc);
    for instr in code {
        push_instr(alloc, &mut bytes, instr)?;
    }
    Ok(Seq::from_vec(bytes))
}

// ---- frames

fn names_or_fault(
    alloc: Global,
    pool: &Pool,
    frames: &[(u32, Frame)],
) -> Result<Vec<Units>, AddFault>
    ensures ok { IfOk result (λ names. names.items ≡ frames_names pool.now frames.now) }
    ensures err { IfErr result (λ e. e ≡ add.Memory) }
{
    match frames_names(alloc, pool, frames) {
        Ok(names) => Ok(names),
        Err(_) => Err(AddFault::Memory),
    }
}

fn frames_or_fault(
    alloc: Global,
    pool: &Pool,
    frames: &[(u32, Frame)],
) -> Result<Seq<Entered>, AddFault>
    ensures ok { IfOk result (λ fs. fs ≡ full_frames pool.now 0 frames.now) }
    ensures err { IfErr result (λ e. e ≡ add.Memory) }
{
    match full_frames(alloc, pool, frames) {
        Ok(entered) => Ok(entered),
        Err(_) => Err(AddFault::Memory),
    }
}

fn one_table(
    alloc: Global,
    name: u16,
    frames: Seq<Entered>,
) -> Result<Seq<CodeAttribute>, AllocError>
    ensures { IfOk result (λ all. all ≡ record { attribute_name_index = name; info = inside.StackMapTable frames } ∷ []) }
{
    let mut all = Seq::new(alloc);
    all.push(CodeAttribute {
        attribute_name_index: name,
        info: CodeInfo::StackMapTable(frames),
    })?;
    Ok(all)
}

// Adds the classes of the arrays in frames.
fn add_arrays(alloc: Global, pool: &mut Pool, frames: &[(u32, Frame)]) -> Result<(), AddFault>
    ensures { ReadsUnless add.Memory (λ done. pool.new) result (classes_added (frames_names pool.old frames.now) pool.old) }
{
    let names = names_or_fault(alloc, pool, frames)?;
    add_classes(pool, names.as_slice())
}

#[tactic(auto, unfolding(crate::specs::Members::table_added))]
fn table(
    alloc: Global,
    pool: &mut Pool,
    frames: &[(u32, Frame)],
) -> Result<Seq<CodeAttribute>, AddFault>
    ensures { ReadsUnless add.Memory (λ all. (all, pool.new)) result (table_added frames.now pool.old) }
{
    if frames.is_empty() {
        return Ok(Seq::new(alloc));
    }
    let name = add_text(alloc, pool, b"StackMapTable")?;
    add_arrays(alloc, pool, frames)?;
    let entered = frames_or_fault(alloc, pool, frames)?;
    Ok(one_table(alloc, name, entered)?)
}

/// The Code of a method.
#[tactic(auto, unfolding(crate::specs::Members::body_added))]
pub fn body(
    alloc: Global,
    pool: &mut Pool,
    stack: u16,
    locals: u16,
    bytes: Seq<u8>,
    frames: &[(u32, Frame)],
) -> Result<Attribute, AddFault>
    ensures { ReadsUnless add.Memory (λ a. (Some a, pool.new)) result (body_added stack locals bytes frames.now pool.old) }
{
    let name = add_text(alloc, pool, b"Code")?;
    let attributes = table(alloc, pool, frames)?;
    Ok(Attribute {
        attribute_name_index: name,
        info: Info::Code(Code {
            max_stack: stack,
            max_locals: locals,
            code: bytes,
            exception_table: Seq::new(alloc),
            attributes,
        }),
    })
}

/// The bytes of code, each instruction behind the one before.
pub fn bytes_or_fault(alloc: Global, code: Vec<RawInstr>) -> Result<Seq<u8>, AddFault>
    ensures ok { IfOk result (λ bytes. bytes ≡ source_text 0 code.items) }
    ensures err { IfErr result (λ e. e ≡ add.Memory) }
{
    match source_bytes(alloc, code) {
        Ok(bytes) => Ok(bytes),
        Err(_) => Err(AddFault::Memory),
    }
}
