//! An image to bytes.

ghost use Rattle.std.specs.Prelude.{◌≡◌, ◌++◌, ◌<◌, ◌^◌, length, IfOk, IfErr, IfSome, OnOk};
ghost use Rattle.std.specs.List.{flat_map};
ghost use Rattle.std.specs.Int.{w16, w32};
ghost use Rattle.kilim_class_grammar.specs.Spelling.{signed};
ghost use Rattle.kilim_run_journal.specs.Readable.{IsReadable};
ghost use Rattle.kilim_run_journal.specs.Text.{journal_text};
ghost use Rattle.kilim_image.specs.Text.{args_text, block, files_text, image_text};
ghost use Rattle.kilim_image.specs.Writing.{AreShort, HasSize, IsWriteFault, IsWritten};

use crate::fault::WriteFault;
use crate::image::{Image, Run};
use crate::limits::image_limit;
use kilim_class_grammar::{push_u8, push_u16, push_u32, push_u64};
use kilim_units::{NoMemory, Seq};
use std::alloc::Global;

fn push_each_arg(into: &mut Vec<u8>, args: &[i32]) -> Result<(), NoMemory>
    ensures { OnOk result (into.new.items ≡ into.old.items ++ flat_map (signed w32) args.now) }
{
    for arg in args {
        push_u32(into, arg.cast_unsigned())?;
    }
    Ok(())
}

fn push_args(into: &mut Vec<u8>, args: &Seq<i32>) -> Result<(), NoMemory>
    requires { length args.now < 2 ^ 8 }
    ensures { OnOk result (into.new.items ≡ into.old.items ++ args_text args.now) }
{
    push_u8(into, args.len() as u8)?;
    push_each_arg(into, args.as_slice())
}

// Bytes, behind their number of two bytes.
fn push_short_block(into: &mut Vec<u8>, bytes: &[u8]) -> Result<(), NoMemory>
    requires { length bytes.now < 2 ^ 16 }
    ensures { OnOk result (into.new.items ≡ into.old.items ++ block w16 bytes.now) }
{
    push_u16(into, bytes.len() as u16)?;
    into.extend_from_slice(bytes)?;
    Ok(())
}

// Bytes, behind their number of four bytes.
fn push_block(into: &mut Vec<u8>, bytes: &[u8]) -> Result<(), NoMemory>
    requires { length bytes.now < 2 ^ 32 }
    ensures { OnOk result (into.new.items ≡ into.old.items ++ block w32 bytes.now) }
{
    push_u32(into, bytes.len() as u32)?;
    into.extend_from_slice(bytes)?;
    Ok(())
}

fn push_each_file(into: &mut Vec<u8>, files: &[Seq<u8>]) -> Result<(), NoMemory>
    requires { AreShort files.now }
    ensures { OnOk result (into.new.items ≡ into.old.items ++ flat_map (block w32) files.now) }
{
    for file in files {
        push_block(into, file.as_slice())?;
    }
    Ok(())
}

fn push_files(into: &mut Vec<u8>, files: &Seq<Seq<u8>>) -> Result<(), NoMemory>
    requires few { length files.now < 2 ^ 16 }
    requires short { AreShort files.now }
    ensures { OnOk result (into.new.items ≡ into.old.items ++ files_text files.now) }
{
    push_u16(into, files.len() as u16)?;
    push_each_file(into, files.as_slice())
}

// How many bytes the class files take, if a number can say it.
fn size_of_files(files: &[Seq<u8>]) -> Option<usize>
    ensures { IfSome result (λ size. size ≡ length (flat_map (block w32) files.now)) }
{
    let mut size = 0usize;
    for file in files {
        let with_number = file.len().checked_add(4)?;
        size = size.checked_add(with_number)?;
    }
    Some(size)
}

// How many bytes the image has, if a number can say it.
fn size_of(run: &Run, text: &[u8]) -> Option<usize>
    requires { HasSize run.now }
    ensures { IfSome result (λ size. size ≡ length (image_text run.now text.now)) }
{
    let fixed = 23 + 4 * run.args.len() + run.main.len();
    let files = size_of_files(run.files.as_slice())?;
    let texts = files.checked_add(text.len())?;
    match texts.checked_add(fixed) {
        Some(size) => Some(size),
        None => None,
    }
}

fn push_image(into: &mut Vec<u8>, run: &Run, text: &[u8]) -> Result<(), NoMemory>
    requires sized { HasSize run.now }
    requires short { AreShort run.now.files }
    requires text { length text.now < 2 ^ 32 }
    ensures { OnOk result (into.new.items ≡ into.old.items ++ image_text run.now text.now) }
{
    into.extend_from_slice(b"KILM")?;
    push_u16(into, 1)?;
    push_u64(into, run.steps)?;
    push_args(into, &run.args)?;
    push_short_block(into, run.main.as_slice())?;
    push_files(into, &run.files)?;
    push_block(into, text)?;
    Ok(())
}

// The image of a run with this text as its journal.
fn image_of(alloc: Global, run: &Run, text: &[u8]) -> Result<Vec<u8>, WriteFault>
    requires { HasSize run.now }
    ensures written { IfOk result (λ bytes. IsWritten run.now text.now bytes.items) }
    ensures fault { IfErr result (IsWriteFault run.now text.now) }
{
    let Some(size) = size_of(run, text) else {
        // room: 2^64 bytes in memory
        return Err(WriteFault::Memory);
    };
    if size > image_limit() {
        return Err(WriteFault::TooLarge(size));
    }
    let mut bytes = Vec::new(alloc);
    match push_image(&mut bytes, run, text) {
        Ok(()) => Ok(bytes),
        Err(_) => Err(WriteFault::Memory),
    }
}

/// The bytes of an image, in time linear in their number: exactly where they are at most 16,777,216, but for want of memory.
pub fn write(alloc: Global, image: &Image) -> Result<Vec<u8>, WriteFault>
    requires sized { HasSize image.now.run }
    requires readable { IsReadable image.now.journal.items }
    ensures written { IfOk result (λ bytes. IsWritten image.now.run (journal_text image.now.journal.items) bytes.items) }
    ensures fault { IfErr result (IsWriteFault image.now.run (journal_text image.now.journal.items)) }
{
    match kilim_run_journal::text(alloc, &image.journal) {
        Ok(text) => image_of(alloc, &image.run, text.as_slice()),
        Err(_) => Err(WriteFault::Memory),
    }
}
