//! Calls of the top call over files and sinks in memory.

use crate::gates::{HoldGate, NoteGate};
use crate::left::{push_files, push_status};
use crate::sorted::push_sorted;
use crate::world::{World, load};
use kilim_case_text::Text;
use kilim_outside::{Gate, OpenGate};
use kilim_top::{kilim, kilim_alone};
use std::alloc::Global;
use std::rt::Files;
use std::sync::Wait;
use std::thread::Threads;

// The status of the call that takes no runtime.
fn alone(alloc: Global, world: &mut World) -> Option<u8> {
    let gate = OpenGate::new();
    kilim_alone(alloc, &world.words, &mut world.files, &mut world.out, &gate)
}

// The status of the call that takes a runtime, past a gate.
fn with_runtime<R: Threads + Wait + Sync, G: Gate>(
    rt: &R,
    alloc: Global,
    world: &mut World,
    gate: &G,
) -> u8 {
    kilim(
        rt,
        alloc,
        &world.words,
        &mut world.files,
        &mut world.out,
        gate,
    )
}

/// `call WORD..`: what the call of these words wrote, made by itself, a line with its status, and a line for each file that is new
/// or another one than before.
pub fn call_case<R: Files>(
    text: &mut Text,
    rt: &R,
    alloc: Global,
    words: &[String],
    world: &mut World,
) {
    if !load(rt, alloc, words, world) {
        text.lacks();
        return;
    }
    let before = world.files.files.len();
    let found = alone(alloc, world);
    text.bytes(world.out.bytes.as_slice());
    match found {
        Some(status) => push_status(text, status),
        None => text.word("needs workers\n"),
    }
    push_files(text, alloc, world.files.files.as_slice(), before);
}

// The status of a call, and the greatest number of records that its gate was told.
fn noted<R: Threads + Wait + Sync>(rt: &R, alloc: Global, world: &mut World) -> (u8, usize) {
    let gate = NoteGate::new();
    let status = with_runtime(rt, alloc, world, &gate);
    (status, gate.deepest())
}

/// `noted WORD..`: what the call that takes a runtime writes, its status, and the line of each file as for `call`. It answers the
/// greatest number of records that its gate was told.
pub fn noted_case<R: Files + Threads + Wait + Sync>(
    text: &mut Text,
    rt: &R,
    alloc: Global,
    words: &[String],
    world: &mut World,
) -> usize {
    if !load(rt, alloc, words, world) {
        text.lacks();
        return 0;
    }
    let before = world.files.files.len();
    let (status, deepest) = noted(rt, alloc, world);
    text.bytes(world.out.bytes.as_slice());
    push_status(text, status);
    push_files(text, alloc, world.files.files.as_slice(), before);
    deepest
}

// The status of a call, and whether the gate held a task in vain.
fn held<R: Threads + Wait + Sync>(rt: &R, alloc: Global, world: &mut World) -> (u8, bool) {
    let gate = HoldGate::new();
    let status = with_runtime(rt, alloc, world, &gate);
    (status, gate.missed())
}

/// `held WORD..`: the lines that the call of these words writes, sorted, its status, and whether the gate saw two tasks at once. It
/// holds the first task other than 0 until a second one runs.
pub fn held_case<R: Files + Threads + Wait + Sync>(
    text: &mut Text,
    rt: &R,
    alloc: Global,
    words: &[String],
    world: &mut World,
) {
    if !load(rt, alloc, words, world) {
        text.lacks();
        return;
    }
    let (status, missed) = held(rt, alloc, world);
    push_sorted(text, alloc, world.out.bytes.as_slice());
    text.word("status ");
    text.number(usize::from(status));
    text.word(if missed {
        ", missed\n"
    } else {
        ", two at once\n"
    });
}
