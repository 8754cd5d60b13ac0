//! Reading debug tables.

ghost use Rattle.std.specs.Int.{w16};
ghost use Rattle.kilim_class_grammar.specs.Reader.{Reads, ReadsUnless, many, number_at, filled};
ghost use Rattle.kilim_explain_lines.specs.declared.tables.TableFault.TheVariants as fault;
ghost use Rattle.kilim_explain_lines.specs.Tables.{two_at, line_number_at, line_numbers_at, local_variable_at, local_variables_at};

use crate::tables::{LineNumber, LocalVariable, TableFault};
use kilim_class_grammar::u16_at;
use kilim_units::Seq;
use std::alloc::Global;

fn two_at(bytes: &[u8]) -> Result<((u16, u16), &[u8]), TableFault>
    ensures { Reads (λ x. (x.0, x.1.now)) result (two_at bytes.now) }
{
    match u16_at(TableFault::NoTable, bytes) {
        Ok((first, rest)) => match u16_at(TableFault::NoTable, rest) {
            Ok((second, rest)) => Ok(((first, second), rest)),
            Err(fault) => Err(fault),
        },
        Err(fault) => Err(fault),
    }
}

#[tactic(auto, unfolding(crate::specs::Tables::line_number_at))]
fn line_number_at(bytes: &[u8]) -> Result<(LineNumber, &[u8]), TableFault>
    ensures { Reads (λ x. (x.0, x.1.now)) result (line_number_at bytes.now) }
{
    match two_at(bytes) {
        Ok(((start_pc, line_number), rest)) => {
            let row = LineNumber {
                start_pc,
                line_number,
            };
            Ok((row, rest))
        }
        Err(fault) => Err(fault),
    }
}

#[tactic(auto, unfolding(crate::specs::Tables::local_variable_at))]
fn local_variable_at(bytes: &[u8]) -> Result<(LocalVariable, &[u8]), TableFault>
    ensures { Reads (λ x. (x.0, x.1.now)) result (local_variable_at bytes.now) }
{
    let ((start_pc, length), rest) = match two_at(bytes) {
        Ok(read) => read,
        Err(fault) => return Err(fault),
    };
    let ((name_index, descriptor_index), rest) = match two_at(rest) {
        Ok(read) => read,
        Err(fault) => return Err(fault),
    };
    match u16_at(TableFault::NoTable, rest) {
        Ok((index, rest)) => {
            let row = LocalVariable {
                start_pc,
                length,
                name_index,
                descriptor_index,
                index,
            };
            Ok((row, rest))
        }
        Err(fault) => Err(fault),
    }
}

fn so_many_lines_at(
    alloc: Global,
    count: u16,
    bytes: &[u8],
) -> Result<(Seq<LineNumber>, &[u8]), TableFault>
    ensures { ReadsUnless fault.Memory (λ x. (x.0, x.1.now)) result (many line_number_at count bytes.now) }
{
    let mut rows = Seq::new(alloc);
    let mut rest = bytes;
    for _ in 0..count {
        match line_number_at(rest) {
            Ok((row, after)) => {
                let Ok(()) = rows.push(row) else {
                    return Err(TableFault::Memory);
                };
                rest = after;
            }
            Err(fault) => return Err(fault),
        }
    }
    Ok((rows, rest))
}

fn so_many_variables_at(
    alloc: Global,
    count: u16,
    bytes: &[u8],
) -> Result<(Seq<LocalVariable>, &[u8]), TableFault>
    ensures { ReadsUnless fault.Memory (λ x. (x.0, x.1.now)) result (many local_variable_at count bytes.now) }
{
    let mut rows = Seq::new(alloc);
    let mut rest = bytes;
    for _ in 0..count {
        match local_variable_at(rest) {
            Ok((row, after)) => {
                let Ok(()) = rows.push(row) else {
                    return Err(TableFault::Memory);
                };
                rest = after;
            }
            Err(fault) => return Err(fault),
        }
    }
    Ok((rows, rest))
}

#[tactic(auto, unfolding(crate::specs::Tables::line_numbers_at))]
fn line_numbers_at(alloc: Global, bytes: &[u8]) -> Result<(Seq<LineNumber>, &[u8]), TableFault>
    ensures { ReadsUnless fault.Memory (λ x. (x.0, x.1.now)) result (line_numbers_at bytes.now) }
{
    match u16_at(TableFault::NoTable, bytes) {
        Ok((count, rest)) => so_many_lines_at(alloc, count, rest),
        Err(fault) => Err(fault),
    }
}

#[tactic(auto, unfolding(crate::specs::Tables::local_variables_at))]
fn local_variables_at(
    alloc: Global,
    bytes: &[u8],
) -> Result<(Seq<LocalVariable>, &[u8]), TableFault>
    ensures { ReadsUnless fault.Memory (λ x. (x.0, x.1.now)) result (local_variables_at bytes.now) }
{
    match u16_at(TableFault::NoTable, bytes) {
        Ok((count, rest)) => so_many_variables_at(alloc, count, rest),
        Err(fault) => Err(fault),
    }
}

/// The rows of a LineNumberTable (JVMS 4.7.12) that the bytes are: all of them, behind the attribute's length.
pub fn line_numbers(alloc: Global, bytes: &[u8]) -> Result<Seq<LineNumber>, TableFault>
    ensures { ReadsUnless fault.Memory (λ x. x) result (filled fault.NoTable line_numbers_at bytes.now) }
{
    match line_numbers_at(alloc, bytes) {
        Ok((rows, rest)) => {
            if rest.is_empty() {
                Ok(rows)
            } else {
                drop(rows);
                Err(TableFault::NoTable)
            }
        }
        Err(fault) => Err(fault),
    }
}

/// The rows of a LocalVariableTable (JVMS 4.7.13) that the bytes are.
pub fn local_variables(alloc: Global, bytes: &[u8]) -> Result<Seq<LocalVariable>, TableFault>
    ensures { ReadsUnless fault.Memory (λ x. x) result (filled fault.NoTable local_variables_at bytes.now) }
{
    match local_variables_at(alloc, bytes) {
        Ok((rows, rest)) => {
            if rest.is_empty() {
                Ok(rows)
            } else {
                drop(rows);
                Err(TableFault::NoTable)
            }
        }
        Err(fault) => Err(fault),
    }
}

/// The index of the source file's name, a Utf8, that the bytes of a SourceFile are (JVMS 4.7.10).
pub fn source_file(bytes: &[u8]) -> Result<u16, TableFault>
    ensures { Reads (λ x. x) result (filled fault.NoTable (number_at fault.NoTable w16) bytes.now) }
{
    match u16_at(TableFault::NoTable, bytes) {
        Ok((index, rest)) => {
            if rest.is_empty() {
                Ok(index)
            } else {
                Err(TableFault::NoTable)
            }
        }
        Err(fault) => Err(fault),
    }
}
