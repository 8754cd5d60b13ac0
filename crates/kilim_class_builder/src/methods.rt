//! Fields and methods.

ghost use Rattle.std.specs.Prelude.{◌≡◌, ◌++◌, OnOk};
ghost use Rattle.kilim_class_file.specs.Parts.{is_bodiless};
ghost use Rattle.kilim_class_pool.specs.declared.fault.AddFault.TheVariants as add;
ghost use Rattle.kilim_class_grammar.specs.Reader.{ReadsUnless};
ghost use Rattle.kilim_class_builder.specs.Adding.{text_added};
ghost use Rattle.kilim_class_builder.specs.Gathered.{appended, head_added, marks_added};
ghost use Rattle.kilim_class_builder.specs.Members.{code_added, field_added, listed, method_added, utf16_of};

use crate::adding::add_units;
use crate::attributes::{exceptions, parameters, receiver};
use crate::code::{body, bytes_or_fault};
use crate::names::utf16_of;
use crate::source::MethodSource;
use kilim_class_attributes::Attribute;
use kilim_class_code::opcodes::RawInstr;
use kilim_class_file::MemberInfo;
use kilim_class_pool::{AddFault, Pool};
use kilim_program::Frame;
use kilim_units::Seq;
use std::alloc::{AllocError, Global};

/// ACC_NATIVE and ACC_ABSTRACT (JVMS 4.6).
const BODILESS: u16 = 0x0500;

/// The index of a text.
pub fn add_name(alloc: Global, pool: &mut Pool, text: &str) -> Result<u16, AddFault>
    ensures { ReadsUnless add.Memory (λ index. (index, pool.new)) result (text_added (utf16_of text.now) pool.old) }
{
    let units = utf16_of(alloc, text)?;
    add_units(pool, units)
}

/// A field that is neither private nor static.
#[tactic(auto, unfolding(crate::specs::Members::field_added))]
pub fn field(
    alloc: Global,
    pool: &mut Pool,
    name: &str,
    descriptor: &str,
) -> Result<MemberInfo, AddFault>
    ensures { ReadsUnless add.Memory (λ m. (m, pool.new)) result (field_added (utf16_of name.now) (utf16_of descriptor.now) pool.old) }
{
    let name_index = add_name(alloc, pool, name)?;
    let descriptor_index = add_name(alloc, pool, descriptor)?;
    Ok(MemberInfo {
        access_flags: 0,
        name_index,
        descriptor_index,
        attributes: Seq::new(alloc),
    })
}

// ---- methods

fn is_bodiless(flags: u16) -> bool
    ensures { result ≡ is_bodiless flags }
{
    flags & BODILESS != 0
}

fn push_listed(all: &mut Seq<Attribute>, attribute: Option<Attribute>) -> Result<(), AllocError>
    ensures { OnOk result (all.new ≡ all.old ++ listed attribute) }
{
    match attribute {
        None => {}
        Some(found) => all.push(found)?,
    }
    Ok(())
}

// Adds the Code of a method that has one.
#[tactic(auto, unfolding(crate::specs::Members::code_added))]
fn code(
    alloc: Global,
    pool: &mut Pool,
    flags: u16,
    stack: u16,
    locals: u16,
    instrs: Vec<RawInstr>,
    frames: &[(u32, Frame)],
    all: &mut Seq<Attribute>,
) -> Result<(), AddFault>
    ensures { ReadsUnless add.Memory (λ done. (all.new, pool.new)) result (appended all.old (code_added flags stack locals instrs.items frames.now pool.old)) }
{
    if is_bodiless(flags) {
        return Ok(());
    }
    let bytes = bytes_or_fault(alloc, instrs)?;
    let found = body(alloc, pool, stack, locals, bytes, frames)?;
    all.push(found)?;
    Ok(())
}

// The attributes of a method, without its code.
#[tactic(auto, unfolding(crate::specs::Gathered::marks_added))]
fn marks(
    alloc: Global,
    pool: &mut Pool,
    source: &MethodSource,
    all: &mut Seq<Attribute>,
) -> Result<(), AddFault>
    ensures { ReadsUnless add.Memory (λ done. (all.new, pool.new)) result (marks_added source.now all.old pool.old) }
{
    exceptions(alloc, pool, source.pausable, all)?;
    let found = receiver(alloc, pool, source.receiver)?;
    push_listed(all, found)?;
    parameters(alloc, pool, source.qualifiers.as_slice(), all)
}

// A method before its code.
#[tactic(auto, unfolding(crate::specs::Gathered::head_added))]
fn head(alloc: Global, pool: &mut Pool, source: &MethodSource) -> Result<MemberInfo, AddFault>
    ensures { ReadsUnless add.Memory (λ m. (m, pool.new)) result (head_added source.now pool.old) }
{
    let name_index = add_name(alloc, pool, source.name.as_str())?;
    let descriptor_index = add_name(alloc, pool, source.descriptor.as_str())?;
    let mut all = Seq::new(alloc);
    marks(alloc, pool, source, &mut all)?;
    Ok(MemberInfo {
        access_flags: source.flags,
        name_index,
        descriptor_index,
        attributes: all,
    })
}

/// A method.
#[tactic(auto, unfolding(crate::specs::Gathered::gathered), using(crate::proofs::Gathering::as_gathered))]
pub fn method(alloc: Global, pool: &mut Pool, source: MethodSource) -> Result<MemberInfo, AddFault>
    ensures { ReadsUnless add.Memory (λ m. (m, pool.new)) result (method_added source pool.old) }
{
    let mut found = head(alloc, pool, &source)?;
    code(
        alloc,
        pool,
        source.flags,
        source.max_stack,
        source.max_locals,
        source.code,
        source.frames.as_slice(),
        &mut found.attributes,
    )?;
    Ok(found)
}
