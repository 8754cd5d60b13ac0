//! What a call leaves.

use crate::sorted::push_sorted;
use crate::world::World;
use kilim_case_text::Text;
use kilim_outside::{FailedCall, NamedFile};
use std::alloc::Global;

/// What a sum of bytes is multiplied with before the next byte is added.
const FACTOR: u32 = 31;

fn sum_of(bytes: &[u8]) -> u32 {
    let mut sum = 0u32;
    for byte in bytes {
        sum = sum.wrapping_mul(FACTOR).wrapping_add(u32::from(*byte));
    }
    sum
}

// The line of a file: its name, its length, and a sum of its bytes.
fn push_file(lines: &mut Text, name: &[u8], bytes: &[u8]) {
    lines.word("file ");
    lines.bytes(name);
    lines.word(" ");
    lines.number(bytes.len());
    lines.word(" ");
    lines.number(sum_of(bytes) as usize);
    lines.word("\n");
}

// Whether a file of that name and of these bytes is one of these.
fn is_among(files: &[NamedFile], name: &[u8], bytes: &[u8]) -> bool {
    for file in files {
        if file.name.as_slice() == name && file.bytes.as_slice() == bytes {
            return true;
        }
    }
    false
}

// The lines of the files that weren't there before, or weren't the same. A file that is written stands in front of the others.
fn push_new(lines: &mut Text, files: &[NamedFile], before: usize) {
    let (written, others) = files.split_at(files.len().saturating_sub(before));
    for file in written {
        if !is_among(others, file.name.as_slice(), file.bytes.as_slice()) {
            push_file(lines, file.name.as_slice(), file.bytes.as_slice());
        }
    }
}

/// The line of a status.
pub fn push_status(text: &mut Text, status: u8) {
    text.word("status ");
    text.number(usize::from(status));
    text.word("\n");
}

/// A line for each file that is new or another one than when there were so many, sorted.
pub fn push_files(text: &mut Text, alloc: Global, files: &[NamedFile], before: usize) {
    let mut lines = Text::new(alloc);
    push_new(&mut lines, files, before);
    match lines.whole() {
        Some(lines) => push_sorted(text, alloc, lines.as_slice()),
        None => text.lacks(),
    }
}

/// How often the folder was called, a line for each call that failed, in order, and whether the sink was called.
pub fn push_asked(text: &mut Text, world: &World) {
    text.word("calls ");
    text.number(world.files.calls as usize);
    text.word("\n");
    for call in world.files.faults.as_slice() {
        let (what, name) = match call {
            FailedCall::Read(name) => ("failed read ", name),
            FailedCall::Write(name) => ("failed write ", name),
        };
        text.word(what);
        text.bytes(name.as_slice());
        text.word("\n");
    }
    if world.out.calls == 0 {
        text.word("sink untouched\n");
    } else {
        text.word("sink called\n");
    }
}
