//! Bytes to an image.

ghost use Rattle.std.specs.Prelude.{◌≡◌, ◌∷◌, ◌++◌, List, [], ℕ, take, IfOk, IfErr, MatchResult};
ghost use Rattle.std.specs.Int.{w16, w32, w64};
ghost use Rattle.kilim_class_grammar.specs.Reader.{Reads, ReadsUnless, both, many, number_at, signed_at};
ghost use Rattle.kilim_run_journal.specs.declared.entry.Entry.{Entry as Event};
ghost use Rattle.kilim_run_journal.specs.Text.{journal_text};
ghost use Rattle.kilim_image.specs.declared.fault.ImageFault.TheVariants as fault;
ghost use Rattle.kilim_image.specs.declared.image.Run.{Run as Setting};
ghost use Rattle.kilim_image.specs.Journal.{ImageFits, IsImageFault};
ghost use Rattle.kilim_image.specs.Laws.{ImagesAreSpelled, OneImage, PartsAreSpelled};
ghost use Rattle.kilim_image.specs.Reading.{args_at, begins_well, block_at, files_at, image_at, magic_at, parts_at, parts_of, read_image, version_at};
ghost use Rattle.kilim_image.specs.Text.{image_limit, image_text};

use crate::course::deeds_in;
use crate::fault::ImageFault;
use crate::image::{Image, Run};
use crate::limits::{image_limit, is_right};
use kilim_class_grammar::{bytes_at, u8_at, u16_at, u32_at, u64_at};
use kilim_units::Seq;
use std::alloc::Global;

// The first four bytes, as far as they are there.
fn first_four(bytes: &[u8]) -> &[u8]
    ensures { result.now ≡ take 4 bytes.now }
{
    if bytes.len() > 4 { &bytes[..4] } else { bytes }
}

#[tactic(auto, unfolding(crate::specs::Reading::begins_well))]
fn begins_well(bytes: &[u8]) -> bool
    ensures { result ≡ begins_well bytes.now }
{
    b"KILM".starts_with(first_four(bytes))
}

#[tactic(auto, unfolding(crate::specs::Reading::magic_at))]
fn magic_at(bytes: &[u8]) -> Result<(&[u8], &[u8]), ImageFault>
    ensures { Reads (λ x. (x.0.now, x.1.now)) result (magic_at bytes.now) }
{
    if !begins_well(bytes) {
        return Err(ImageFault::Magic);
    }
    bytes_at(ImageFault::Cut, 4, bytes)
}

#[tactic(auto, unfolding(crate::specs::Reading::version_at))]
fn version_at(bytes: &[u8]) -> Result<(u16, &[u8]), ImageFault>
    ensures { Reads (λ x. (x.0, x.1.now)) result (version_at bytes.now) }
{
    match u16_at(ImageFault::Cut, bytes) {
        Ok((version, rest)) => {
            if version == 1 {
                Ok((version, rest))
            } else {
                Err(ImageFault::Version(version))
            }
        }
        Err(fault) => Err(fault),
    }
}

// So many bytes, behind their number of two bytes.
#[tactic(auto, unfolding(crate::specs::Reading::block_at))]
fn short_block_at(bytes: &[u8]) -> Result<(&[u8], &[u8]), ImageFault>
    ensures { Reads (λ x. (x.0.now, x.1.now)) result (block_at w16 bytes.now) }
{
    match u16_at(ImageFault::Cut, bytes) {
        Ok((count, rest)) => bytes_at(ImageFault::Cut, usize::from(count), rest),
        Err(fault) => Err(fault),
    }
}

// So many bytes, behind their number of four bytes.
#[tactic(auto, unfolding(crate::specs::Reading::block_at))]
fn block_at(bytes: &[u8]) -> Result<(&[u8], &[u8]), ImageFault>
    ensures { Reads (λ x. (x.0.now, x.1.now)) result (block_at w32 bytes.now) }
{
    match u32_at(ImageFault::Cut, bytes) {
        Ok((count, rest)) => bytes_at(ImageFault::Cut, count as usize, rest),
        Err(fault) => Err(fault),
    }
}

fn arg_at(bytes: &[u8]) -> Result<(i32, &[u8]), ImageFault>
    ensures { Reads (λ x. (x.0, x.1.now)) result (signed_at fault.Cut w32 bytes.now) }
{
    match u32_at(ImageFault::Cut, bytes) {
        Ok((number, rest)) => Ok((number.cast_signed(), rest)),
        Err(fault) => Err(fault),
    }
}

fn so_many_args_at(alloc: Global, count: u8, bytes: &[u8]) -> Result<(Seq<i32>, &[u8]), ImageFault>
    ensures { ReadsUnless fault.Memory (λ x. (x.0, x.1.now)) result (many (signed_at fault.Cut w32) count bytes.now) }
{
    let mut args = Seq::new(alloc);
    let mut rest = bytes;
    for _ in 0..count {
        match arg_at(rest) {
            Ok((arg, after)) => {
                let Ok(()) = args.push(arg) else {
                    return Err(ImageFault::Memory);
                };
                rest = after;
            }
            Err(fault) => return Err(fault),
        }
    }
    Ok((args, rest))
}

#[tactic(auto, unfolding(crate::specs::Reading::args_at))]
fn args_at(alloc: Global, bytes: &[u8]) -> Result<(Seq<i32>, &[u8]), ImageFault>
    ensures { ReadsUnless fault.Memory (λ x. (x.0, x.1.now)) result (args_at bytes.now) }
{
    match u8_at(ImageFault::Cut, bytes) {
        Ok((count, rest)) => so_many_args_at(alloc, count, rest),
        Err(fault) => Err(fault),
    }
}

fn file_at(alloc: Global, bytes: &[u8]) -> Result<(Seq<u8>, &[u8]), ImageFault>
    ensures { ReadsUnless fault.Memory (λ x. (x.0, x.1.now)) result (block_at w32 bytes.now) }
{
    match block_at(bytes) {
        Ok((file, rest)) => match Vec::from_slice(alloc, file) {
            Ok(file) => Ok((Seq::from_vec(file), rest)),
            Err(_) => Err(ImageFault::Memory),
        },
        Err(fault) => Err(fault),
    }
}

fn so_many_files_at(
    alloc: Global,
    count: u16,
    bytes: &[u8],
) -> Result<(Seq<Seq<u8>>, &[u8]), ImageFault>
    ensures { ReadsUnless fault.Memory (λ x. (x.0, x.1.now)) result (many (block_at w32) count bytes.now) }
{
    let mut files = Seq::new(alloc);
    let mut rest = bytes;
    for _ in 0..count {
        match file_at(alloc, rest) {
            Ok((file, after)) => {
                let Ok(()) = files.push(file) else {
                    return Err(ImageFault::Memory);
                };
                rest = after;
            }
            Err(fault) => return Err(fault),
        }
    }
    Ok((files, rest))
}

#[tactic(auto, unfolding(crate::specs::Reading::files_at))]
fn files_at(alloc: Global, bytes: &[u8]) -> Result<(Seq<Seq<u8>>, &[u8]), ImageFault>
    ensures { ReadsUnless fault.Memory (λ x. (x.0, x.1.now)) result (files_at bytes.now) }
{
    match u16_at(ImageFault::Cut, bytes) {
        Ok((count, rest)) => so_many_files_at(alloc, count, rest),
        Err(fault) => Err(fault),
    }
}

// The most instructions of a task, and the numbers of the command line.
type Limits = (u64, Seq<i32>);

fn limits_at(alloc: Global, bytes: &[u8]) -> Result<(Limits, &[u8]), ImageFault>
    ensures { ReadsUnless fault.Memory (λ x. (x.0, x.1.now)) result (both (number_at fault.Cut w64) args_at bytes.now) }
{
    match u64_at(ImageFault::Cut, bytes) {
        Ok((steps, rest)) => match args_at(alloc, rest) {
            Ok((args, rest)) => Ok(((steps, args), rest)),
            Err(fault) => Err(fault),
        },
        Err(fault) => Err(fault),
    }
}

// The name of the main class, the class files, and the text of the journal.
type Texts<'a> = (&'a [u8], (Seq<Seq<u8>>, &'a [u8]));

fn texts_at(alloc: Global, bytes: &[u8]) -> Result<(Texts<'_>, &[u8]), ImageFault>
    ensures { ReadsUnless fault.Memory (λ x. ((x.0.0.now, (x.0.1.0, x.0.1.1.now)), x.1.now)) result (both (block_at w16) (both files_at (block_at w32)) bytes.now) }
{
    let (main, rest) = match short_block_at(bytes) {
        Ok(read) => read,
        Err(fault) => return Err(fault),
    };
    match files_at(alloc, rest) {
        Ok((files, rest)) => match block_at(rest) {
            Ok((text, rest)) => Ok(((main, (files, text)), rest)),
            Err(fault) => {
                drop(files);
                Err(fault)
            }
        },
        Err(fault) => Err(fault),
    }
}

// A run, with the text of its journal.
type Held<'a> = (Run, &'a [u8]);

#[tactic(auto, unfolding(crate::specs::Reading::parts_at))]
fn parts_at(alloc: Global, bytes: &[u8]) -> Result<(Held<'_>, &[u8]), ImageFault>
    ensures { ReadsUnless fault.Memory (λ x. (parts_of (x.0.0, x.0.1.now), x.1.now)) result (parts_at bytes.now) }
{
    let ((steps, args), rest) = match limits_at(alloc, bytes) {
        Ok(read) => read,
        Err(fault) => return Err(fault),
    };
    match texts_at(alloc, rest) {
        Ok(((main, (files, text)), rest)) => match Vec::from_slice(alloc, main) {
            Ok(main) => {
                let run = Run {
                    steps,
                    args,
                    main: Seq::from_vec(main),
                    files,
                };
                Ok(((run, text), rest))
            }
            Err(_) => Err(ImageFault::Memory),
        },
        Err(fault) => Err(fault),
    }
}

// Behind the magic number and the version.
fn front_at(bytes: &[u8]) -> Result<((&[u8], u16), &[u8]), ImageFault>
    ensures { Reads (λ x. ((x.0.0.now, x.0.1), x.1.now)) result (both magic_at version_at bytes.now) }
{
    match magic_at(bytes) {
        Ok((magic, rest)) => match version_at(rest) {
            Ok((version, rest)) => Ok(((magic, version), rest)),
            Err(fault) => Err(fault),
        },
        Err(fault) => Err(fault),
    }
}

#[tactic(auto, unfolding(crate::specs::Reading::image_at))]
fn image_at(alloc: Global, bytes: &[u8]) -> Result<(Held<'_>, &[u8]), ImageFault>
    ensures { ReadsUnless fault.Memory (λ x. ((x.0.0, x.0.1.now), x.1.now)) result (image_at bytes.now) }
{
    match front_at(bytes) {
        Ok((_, rest)) => parts_at(alloc, rest),
        Err(fault) => Err(fault),
    }
}

// A law: what is read as the parts of an image is spelled so, and what is spelled is read again.
fn parts_are_spelled()
    ensures { PartsAreSpelled }
{}

// The run, and the text of its journal, of all of the bytes.
#[tactic(auto, unfolding(crate::specs::Reading::read_image))]
fn held_in(alloc: Global, bytes: &[u8]) -> Result<Held<'_>, ImageFault>
    ensures { ReadsUnless fault.Memory (λ x. (x.0, x.1.now)) result (read_image bytes.now) }
{
    parts_are_spelled();
    if bytes.len() > image_limit() {
        return Err(ImageFault::TooLarge);
    }
    match image_at(alloc, bytes) {
        Ok((held, rest)) => {
            if !rest.is_empty() {
                drop(held);
                return Err(ImageFault::Extra(bytes.len() - rest.len()));
            }
            if is_right(&held.0) {
                Ok(held)
            } else {
                drop(held);
                Err(ImageFault::Number)
            }
        }
        Err(fault) => Err(fault),
    }
}

/// The image that bytes are, all of the bytes, in time linear in their number.
///
/// It answers `Ok` exactly where the bytes are the text of an image: at most 16,777,216 bytes, version 1, nothing behind the journal, numbers
/// that the words of a run may give, and a journal whose lines are entries, none of which says who waits. Else the fault is the first of
/// `ImageFault`, in its order.
pub fn read(alloc: Global, bytes: &[u8]) -> Result<Image, ImageFault>
    // What is read is spelled so.
    ensures found { IfOk result (λ image. ImageFits image.run image.journal.items × (bytes.now ≡ image_text image.run (journal_text image.journal.items))) }

    // What is spelled so is read.
    ensures only { (run : Setting) (journal : List Event) → ImageFits run journal → bytes.now ≡ image_text run (journal_text journal) → MatchResult result (λ image. (image.run ≡ run) × (image.journal.items ≡ journal)) (λ e. e ≡ fault.Memory) }

    // What each fault says: the first that stands, of lengths, then of numbers, then of the journal; of no memory it says nothing.
    ensures says { IfErr result (IsImageFault bytes.now) }
{
    images_are_spelled();
    // With the bytes read, the proof knows that each is below 256.
    let _bytes = bytes.first();
    match held_in(alloc, bytes) {
        Ok((run, text)) => match deeds_in(alloc, text) {
            Ok(journal) => Ok(Image { run, journal }),
            Err(fault) => {
                drop(run);
                Err(fault)
            }
        },
        Err(fault) => Err(fault),
    }
}

/// A law, and no work: what is read as a run with a text as its journal is spelled so and has a text, and what is spelled is read again.
pub fn images_are_spelled()
    ensures { ImagesAreSpelled }
{
    parts_are_spelled();
}

/// A law, and no work: no two images have one text.
pub fn one_image()
    ensures { OneImage }
{
    images_are_spelled();
    kilim_run_journal::texts_differ();
}
