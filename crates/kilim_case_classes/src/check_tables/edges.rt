//! Where control goes along a method.

use kilim_case_text::Text;
use kilim_program::{Instr, Method};
use kilim_type_flow::{ends_path, jump_targets};
use std::alloc::Global;

// The places to which an instruction jumps.
fn push_targets(text: &mut Text, alloc: Global, instr: &Instr) {
    match jump_targets(alloc, instr) {
        Ok(targets) => {
            for to in targets.as_slice() {
                text.word(" ");
                text.number(*to as usize);
            }
        }
        Err(_) => text.lacks(),
    }
}

/// A line for each instruction of a method: its place, then the places to which control goes, with `next` for the next instruction.
pub fn edge_lines(text: &mut Text, alloc: Global, method: &Method) {
    for (place, instr) in method.code.as_slice() {
        text.number(*place as usize);
        if !ends_path(instr) {
            text.word(" next");
        }
        push_targets(text, alloc, instr);
        text.word("\n");
    }
}
