//! Exception tables.

ghost use Rattle.std.specs.Prelude.{◌≡◌, ◌-◌, Some, IfOk, length};
ghost use Rattle.std.specs.List.{flat_map};
ghost use Rattle.kilim_link_spec.specs.Linked.{code_attribute, first_of};
ghost use Rattle.kilim_link_spec.specs.Mentions.{instrs_of};
ghost use Rattle.kilim_link_spec.specs.World.{World};
ghost use Rattle.kilim_program.specs.declared.names.ClassId.{ClassId};
ghost use Rattle.kilim_link_spec.specs.Faults.{bad_rows, begins_as_array, begins_at, handler_faults, is_bad_row, row_faults, row_stands};

use kilim_class_attributes::{Code, ExceptionHandler};
use kilim_class_code::opcodes::RawInstr;
use kilim_class_file::{ClassFile, MemberInfo, MemberName};
use kilim_class_pool::Pool;
use kilim_link_mentions::{code_attribute, instrs_of};
use kilim_link_spec::Problem;
use kilim_link_views::{class_text, member_descriptor, member_name};
use kilim_units::{NoMemory, Units};
use std::alloc::Global;

// Whether an instruction begins at a place.
fn begins_at(instrs: &[(u32, RawInstr)], at: u16) -> bool
    ensures { result ≡ begins_at instrs.now at }
{
    for placed in instrs {
        if placed.0 == u32::from(at) {
            return true;
        }
    }
    false
}

// Whether an entry is of instructions of the code, and its range isn't empty.
fn row_stands(code: &Code, instrs: &[(u32, RawInstr)], row: &ExceptionHandler) -> bool
    ensures { result ≡ row_stands code.now instrs.now row.now }
{
    begins_at(instrs, row.start_pc)
        && ((begins_at(instrs, row.end_pc) || usize::from(row.end_pc) == code.code.len())
            && (row.start_pc < row.end_pc && begins_at(instrs, row.handler_pc)))
}

fn begins_as_array(name: &[u16]) -> bool
    ensures { result ≡ begins_as_array name.now }
{
    match name.first() {
        Some(unit) => *unit == 91,
        None => false,
    }
}

fn is_bad_row(pool: &Pool, code: &Code, instrs: &[(u32, RawInstr)], row: &ExceptionHandler) -> bool
    ensures { result ≡ is_bad_row pool.now code.now instrs.now row.now }
{
    !row_stands(code, instrs, row) || begins_as_array(class_text(pool, row.catch_type))
}

// The number of the first entry that may not be.
fn first_bad_row(
    pool: &Pool,
    code: &Code,
    instrs: &[(u32, RawInstr)],
    rows: &[ExceptionHandler],
) -> Option<usize>
    requires { rows.now ≡ code.now.exception_table }
    ensures { result ≡ first_of (bad_rows pool.now instrs.now (Some code.now)) }
{
    let mut i: usize = 0;
    while i < rows.len() {
        if is_bad_row(pool, code, instrs, &rows[i]) {
            return Some(i);
        }
        i += 1;
    }
    None
}

// The number of the first entry of a method that may not be.
fn bad_row(alloc: Global, pool: &Pool, method: &MemberInfo) -> Result<Option<usize>, NoMemory>
    ensures { IfOk result (λ found. found ≡ first_of (bad_rows pool.now (instrs_of method.now) (code_attribute method.now))) }
{
    match code_attribute(method) {
        None => Ok(None),
        Some(code) => {
            let instrs = instrs_of(alloc, method)?;
            Ok(first_bad_row(
                pool,
                code,
                instrs.as_slice(),
                code.exception_table.as_slice(),
            ))
        }
    }
}

// The problem that tells it.
fn row_problem(
    alloc: Global,
    file: &ClassFile,
    method: &MemberInfo,
) -> Result<Option<Problem>, NoMemory>
    ensures { IfOk result (λ problem. problem ≡ first_of (row_faults file.now method.now)) }
{
    let Ok(found) = bad_row(alloc, &file.constant_pool, method) else {
        return Err(NoMemory);
    };
    let Some(number) = found else {
        return Ok(None);
    };
    let Ok(name) = Units::from_slice(alloc, member_name(file, method)) else {
        return Err(NoMemory);
    };
    let Ok(descriptor) = Units::from_slice(alloc, member_descriptor(file, method)) else {
        return Err(NoMemory);
    };
    Ok(Some(Problem::Handler(MemberName { name, descriptor }, number)))
}

fn first_in_methods(
    alloc: Global,
    file: &ClassFile,
    methods: &[MemberInfo],
) -> Result<Option<Problem>, NoMemory>
    ensures { IfOk result (λ found. found ≡ first_of (flat_map (row_faults file.now) methods.now)) }
{
    for method in methods {
        match row_problem(alloc, file, method) {
            Err(fault) => return Err(fault),
            Ok(Some(found)) => return Ok(Some(found)),
            Ok(None) => {}
        }
    }
    Ok(None)
}

/// The first entry of an exception table whose range is empty or isn't one of instructions, whose handler is none, or
/// that names an array (JVMS 4.7.3, 4.10.1.6); none where there is none. Of code that has a fault no entry stands.
/// Takes time linear in the code for each entry.
#[tactic(auto, unfolding(kilim_link_spec::specs::Faults::handler_faults))]
pub fn handler_broken(alloc: Global, file: &ClassFile) -> Result<Option<Problem>, NoMemory>
    ensures { IfOk result (λ found. (w : World) → (c : ClassId) → found ≡ first_of (handler_faults w file.now c)) }
{
    first_in_methods(alloc, file, file.methods.as_slice())
}
