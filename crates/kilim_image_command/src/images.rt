//! An image and its bytes, or the line of why not.

ghost use Rattle.std.specs.Prelude.{◌≡◌, IfOk, List};
ghost use Rattle.kilim_image.specs.Journal.{IsImageFault};
ghost use Rattle.kilim_image.specs.declared.fault.ImageFault.TheVariants as fault;
ghost use Rattle.kilim_image.specs.declared.image.Run.{Run as Setting};
ghost use Rattle.kilim_image.specs.Writing.{HasSize, IsWritten};
ghost use Rattle.kilim_image_command.specs.Images.{IsFaultReport, IsImageOf, IsSizeReport};
ghost use Rattle.kilim_image_command.specs.Lines.{size_line};
ghost use Rattle.kilim_run_journal.specs.Readable.{IsReadable};
ghost use Rattle.kilim_run_journal.specs.Text.{journal_text};
ghost use Rattle.kilim_run_journal.specs.declared.entry.Entry.{Entry as Event};
ghost use Rattle.kilim_stages.specs.Parts.{IfReport, Refused};

use crate::lines::{fault_line, size_line};
use kilim_image::{Image, ImageFault, WriteFault, read, write};
use kilim_stages::Refusal;
use std::alloc::Global;

// The bytes aren't an image.
fn faulty(alloc: Global, found: ImageFault, bytes: &[u8]) -> Refusal
    requires is { IsImageFault bytes.now found }
    requires none { (run : Setting) (journal : List Event) → IsImageOf bytes.now run journal → found ≡ fault.Memory }
    ensures { Refused result (IsFaultReport bytes.now) }
{
    let _ = bytes;
    match fault_line(alloc, found) {
        Ok(text) => Refusal::Report(text),
        Err(_) => Refusal::NoMemory,
    }
}

// The image has too many bytes.
fn too_large(alloc: Global, size: usize) -> Refusal
    ensures { Refused result (λ text. text ≡ size_line size) }
{
    match size_line(alloc, size) {
        Ok(text) => Refusal::Report(text),
        Err(_) => Refusal::NoMemory,
    }
}

/// The image that bytes are, or the line of why they are none: the first fault of `ImageFault`, in its order.
pub fn image_of(alloc: Global, bytes: &[u8]) -> Result<Image, Refusal>
    ensures image { IfOk result (λ image. IsImageOf bytes.now image.run image.journal.items) }
    ensures report { IfReport result (IsFaultReport bytes.now) }
{
    match read(alloc, bytes) {
        Ok(image) => Ok(image),
        Err(fault) => Err(faulty(alloc, fault, bytes)),
    }
}

/// The bytes of an image, or the line of how many they would be, which are too many.
pub fn image_bytes(alloc: Global, image: &Image) -> Result<Vec<u8>, Refusal>
    requires sized { HasSize image.now.run }
    requires readable { IsReadable image.now.journal.items }
    ensures written { IfOk result (λ bytes. IsWritten image.now.run (journal_text image.now.journal.items) bytes.items) }
    ensures report { IfReport result (IsSizeReport image.now.run (journal_text image.now.journal.items)) }
{
    match write(alloc, image) {
        Ok(bytes) => Ok(bytes),
        Err(WriteFault::TooLarge(size)) => Err(too_large(alloc, size)),
        Err(WriteFault::Memory) => Err(Refusal::NoMemory),
    }
}
