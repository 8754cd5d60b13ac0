//! What the stages say of the files.

ghost use Rattle.std.specs.Prelude.{◌≡◌, ◌≤◌, length};

use crate::words::Asked;
use kilim_command::{accepted_line, no_main};
use kilim_stages::woven_stage::{with_main, woven_program};
use kilim_stages::{Refusal, accepted, coded_methods};
use kilim_units::{NoMemory, Seq};
use std::alloc::Global;

/// What is to be written.
#[derive(Drop)]
pub enum Said {
    /// The line of accepted files.
    Accepted(Vec<u8>),
    /// A report, as kilim writes it.
    Report(Vec<u8>),
}

fn refused(refusal: Refusal) -> Result<Said, NoMemory> {
    match refusal {
        Refusal::Report(text) => Ok(Said::Report(text)),
        Refusal::NoMemory => Err(NoMemory),
    }
}

// The line of accepted files, or their report.
fn checked(alloc: Global, names: &[String], files: &[Seq<u8>]) -> Result<Said, NoMemory>
    requires few { length files.now ≤ 1000 }
    requires same { length names.now ≡ length files.now }
{
    match accepted(alloc, names, files) {
        Ok(isolated) => match accepted_line(alloc, files.len(), coded_methods(isolated)) {
            Ok(text) => Ok(Said::Accepted(text)),
            Err(_) => Err(NoMemory),
        },
        Err(refusal) => refused(refusal),
    }
}

// The report of a main class that isn't there; None where it is.
fn without_main(
    alloc: Global,
    names: &[String],
    files: &[Seq<u8>],
    main: &str,
) -> Result<Option<Said>, NoMemory>
    requires few { length files.now ≤ 1000 }
    requires same { length names.now ≡ length files.now }
{
    let units = units_of(alloc, main)?;
    match woven_program(alloc, names, files) {
        Ok(program) => match with_main(program, units.as_slice()) {
            Ok(Some((program, _))) => {
                drop(program);
                Ok(None)
            }
            Ok(None) => Ok(Some(Said::Report(no_main(alloc, units.as_slice())?))),
            Err(_) => Err(NoMemory),
        },
        Err(refusal) => Ok(Some(refused(refusal)?)),
    }
}

// A text as UTF-16 units.
fn units_of(alloc: Global, text: &str) -> Result<Vec<u16>, NoMemory> {
    let mut units = Vec::new(alloc);
    for c in text.chars() {
        let mut pair = [0u16; 2];
        let Ok(()) = units.extend_from_slice(c.encode_utf16(&mut pair)) else {
            return Err(NoMemory);
        };
    }
    Ok(units)
}

/// What the stages say of the bytes of the files: of reading, linking, typing and the rules; and where a main class is asked for, of weaving and
/// of that class.
pub fn said_of(alloc: Global, asked: &Asked<'_>, files: &[Seq<u8>]) -> Result<Said, NoMemory>
    requires few { length files.now ≤ 1000 }
    requires same { length asked.now.files.now ≡ length files.now }
{
    let names = asked.files;
    if let Some(main) = asked.main {
        if let Some(said) = without_main(alloc, names, files, main)? {
            return Ok(said);
        }
    }
    checked(alloc, names, files)
}
