//! The live slots along a method.

use kilim_case_text::Text;
use kilim_program::lookups::{code_rises, method_at};
use kilim_program::{Method, MethodId, Program};
use kilim_type_flow::{LiveTable, live};
use std::alloc::Global;

// The line of a place: itself, then the locals that are live there.
fn push_line(text: &mut Text, table: &LiveTable, place: u32, locals: u16) {
    text.number(place as usize);
    for local in 0..locals {
        if table.is_live(place, local) {
            text.word(" ");
            text.number(usize::from(local));
        }
    }
    text.word("\n");
}

fn push_table(text: &mut Text, method: &Method, table: &LiveTable) {
    for (place, _) in method.code.as_slice() {
        push_line(text, table, *place, method.max_locals);
    }
}

// The lines of a method by its number.
fn push_lives(text: &mut Text, alloc: Global, program: &Program, id: MethodId) {
    let Some(method) = method_at(program, id) else {
        text.lacks();
        return;
    };
    code_rises(program, id, method);
    match live(alloc, method) {
        Ok(table) => push_table(text, method, &table),
        Err(_) => text.lacks(),
    }
}

/// The locals that are live at each place of the method of that number.
pub fn live_lines(text: &mut Text, alloc: Global, program: &Program, number: usize) {
    match u32::try_from(number) {
        Ok(number) => push_lives(text, alloc, program, MethodId(number)),
        Err(_) => text.lacks(),
    }
}
