//! Woven code.

ghost use Rattle.std.specs.Prelude.{◌≡◌, ◌++◌, ◌∷◌, [], None, if◌then◌else◌, IfOk, OnOk};
ghost use Rattle.kilim_link_spec.specs.Code.{decoded};
ghost use Rattle.kilim_link_spec.specs.Mentions.{instrs_if};
ghost use Rattle.kilim_class_code.specs.Code.{code_text};
ghost use Rattle.kilim_weave_file_spec.specs.Raw.{added_raw, moved_raw, raw_code};
ghost use Rattle.kilim_weave_file_spec.specs.WovenFile.{has_calls, table_by, table_with, woven_code};

use crate::forms::{added_raw, moved_raw};
use crate::frames::full_frames;
use crate::needs::{has_calls, instrs_if, old_table, table_units};
use kilim_class_attributes::{Code, CodeAttribute, CodeInfo};
use kilim_class_code::opcodes::RawInstr;
use kilim_class_making::code_bytes::code_bytes;
use kilim_class_making::pool_needs::text_index;
use kilim_class_pool::Pool;
use kilim_program::{Instr, Method, Program};
use kilim_units::{NoMemory, Seq};
use std::alloc::Global;

fn push_moved(
    alloc: Global,
    into: &mut Seq<(u32, RawInstr)>,
    program: &Program,
    old: &Pool,
    pool: &Pool,
    entry: &(u32, Instr),
    was: &RawInstr,
) -> Result<(), NoMemory>
    ensures { OnOk result (into.new ≡ into.old ++ (entry.now.0, moved_raw program.now old.now pool.now entry.now.1 was.now) ∷ []) }
{
    let Ok(raw) = moved_raw(alloc, program, old, pool, &entry.1, was) else {
        return Err(NoMemory);
    };
    let Ok(()) = into.push((entry.0, raw)) else {
        return Err(NoMemory);
    };
    Ok(())
}

fn push_added(
    alloc: Global,
    into: &mut Seq<(u32, RawInstr)>,
    program: &Program,
    pool: &Pool,
    entry: &(u32, Instr),
) -> Result<(), NoMemory>
    ensures { OnOk result (into.new ≡ into.old ++ (entry.now.0, added_raw program.now pool.now entry.now.1) ∷ []) }
{
    let Ok(raw) = added_raw(alloc, program, pool, &entry.1) else {
        return Err(NoMemory);
    };
    let Ok(()) = into.push((entry.0, raw)) else {
        return Err(NoMemory);
    };
    Ok(())
}

// The instructions of a woven code in their forms; the counted ones are the old ones, in order.
#[tactic(auto, unfolding(kilim_weave_file_spec::specs::Raw::raw_code))]
fn push_raw(
    alloc: Global,
    into: &mut Seq<(u32, RawInstr)>,
    program: &Program,
    old: &Pool,
    pool: &Pool,
    code: &[(u32, Instr)],
    counted: &[bool],
    olds: &[(u32, RawInstr)],
) -> Result<(), NoMemory>
    ensures { OnOk result (into.new ≡ into.old ++ raw_code program.now old.now pool.now code.now counted.now olds.now) }
{
    let mut marks = counted;
    let mut rest = olds;
    for entry in code {
        let [mark, others @ ..] = marks else {
            return Ok(());
        };
        marks = others;
        if *mark {
            let [was, behind @ ..] = rest else {
                return Ok(());
            };
            rest = behind;
            let Ok(()) = push_moved(alloc, into, program, old, pool, entry, &was.1) else {
                return Err(NoMemory);
            };
        } else {
            let Ok(()) = push_added(alloc, into, program, pool, entry) else {
                return Err(NoMemory);
            };
        }
    }
    Ok(())
}

fn new_bytes(
    alloc: Global,
    program: &Program,
    old: &Pool,
    pool: &Pool,
    method: &Method,
    counted: &[bool],
    bytes: &[u8],
) -> Result<Seq<u8>, NoMemory>
    ensures { IfOk result (λ b. b ≡ code_text (raw_code program.now old.now pool.now method.now.code counted.now (instrs_if (decoded bytes.now)))) }
{
    let Ok(olds) = instrs_if(alloc, bytes) else {
        return Err(NoMemory);
    };
    let mut raw = Seq::new(alloc);
    let Ok(()) = push_raw(
        alloc,
        &mut raw,
        program,
        old,
        pool,
        method.code.as_slice(),
        counted,
        olds.as_slice(),
    ) else {
        return Err(NoMemory);
    };
    code_bytes(alloc, raw.as_slice())
}

fn table_with(
    alloc: Global,
    program: &Program,
    pool: &Pool,
    name: u16,
    method: &Method,
) -> Result<CodeAttribute, NoMemory>
    ensures { IfOk result (λ a. a ≡ table_with program.now pool.now name method.now) }
{
    let Ok(frames) = full_frames(alloc, program, pool, method.frames.as_slice()) else {
        return Err(NoMemory);
    };
    Ok(CodeAttribute {
        attribute_name_index: name,
        info: CodeInfo::StackMapTable(frames),
    })
}

fn one(alloc: Global, table: CodeAttribute) -> Result<Seq<CodeAttribute>, NoMemory>
    ensures { IfOk result (λ v. v ≡ table ∷ []) }
{
    let mut all = Seq::new(alloc);
    let Ok(()) = all.push(table) else {
        return Err(NoMemory);
    };
    Ok(all)
}

fn new_table(
    alloc: Global,
    program: &Program,
    pool: &Pool,
    method: &Method,
) -> Result<Seq<CodeAttribute>, NoMemory>
    ensures { IfOk result (λ v. v ≡ table_by program.now pool.now None method.now) }
{
    if method.frames.is_empty() {
        return Ok(Seq::new(alloc));
    }
    let Ok(units) = table_units(alloc) else {
        return Err(NoMemory);
    };
    let name = text_index(pool, &units);
    let Ok(table) = table_with(alloc, program, pool, name, method) else {
        return Err(NoMemory);
    };
    one(alloc, table)
}

// The StackMapTable, where there was one or there are frames.
fn table_by(
    alloc: Global,
    program: &Program,
    pool: &Pool,
    name: Option<u16>,
    method: &Method,
) -> Result<Seq<CodeAttribute>, NoMemory>
    ensures { IfOk result (λ v. v ≡ table_by program.now pool.now name method.now) }
{
    match name {
        Some(found) => {
            let Ok(table) = table_with(alloc, program, pool, found, method) else {
                return Err(NoMemory);
            };
            one(alloc, table)
        }
        None => new_table(alloc, program, pool, method),
    }
}

// The bytes of a method with pausable calls are written anew.
fn renew_bytes(
    alloc: Global,
    program: &Program,
    old: &Pool,
    pool: &Pool,
    method: &Method,
    counted: &[bool],
    bytes: &mut Seq<u8>,
) -> Result<(), NoMemory>
    ensures { OnOk result (bytes.new ≡ (if has_calls program.now method.now then code_text (raw_code program.now old.now pool.now method.now.code counted.now (instrs_if (decoded bytes.old))) else bytes.old)) }
{
    if has_calls(program, method) {
        let now = bytes.as_slice();
        let Ok(woven) = new_bytes(alloc, program, old, pool, method, counted, now) else {
            return Err(NoMemory);
        };
        *bytes = woven;
    }
    Ok(())
}

fn renew(
    alloc: Global,
    program: &Program,
    old: &Pool,
    pool: &Pool,
    method: &Method,
    counted: &[bool],
    code: &mut Code,
) -> Result<(), NoMemory>
    ensures { OnOk result (code.new ≡ woven_code program.now old.now pool.now method.now counted.now code.old) }
{
    let Ok(attributes) = table_by(alloc, program, pool, old_table(code), method) else {
        return Err(NoMemory);
    };
    code.attributes = attributes;
    let Ok(()) = renew_bytes(alloc, program, old, pool, method, counted, &mut code.code) else {
        return Err(NoMemory);
    };
    code.max_stack = method.max_stack;
    code.max_locals = method.max_locals;
    Ok(())
}

/// The Code attribute of a method that pauses: with pausable calls its code is written anew, else it stays byte for byte. Of its
/// attributes a StackMapTable is left.
pub fn woven_code(
    alloc: Global,
    program: &Program,
    old: &Pool,
    pool: &Pool,
    method: &Method,
    counted: &[bool],
    code: Code,
) -> Result<Code, NoMemory>
    ensures { IfOk result (λ c. c ≡ woven_code program.now old.now pool.now method.now counted.now code) }
{
    let mut woven = code;
    match renew(alloc, program, old, pool, method, counted, &mut woven) {
        Ok(()) => Ok(woven),
        Err(fault) => {
            drop(woven);
            Err(fault)
        }
    }
}
