//! The graphs along a method without jumps.

use kilim_case_text::Text;
use kilim_isolation::transfer;
use kilim_isolation_graph::{Graph, Label, Node, Standing};
use kilim_isolation_rules::StepFault;
use kilim_program::{Instr, Method, Program};
use kilim_type_flow::ends_path;
use kilim_type_spec::{Typed, VerifiedFrame};
use kilim_units::name_text;
use std::alloc::Global;

fn standing_word(standing: Standing) -> &'static str {
    match standing {
        Standing::Root => "root",
        Standing::Inner => "inner",
        Standing::Safe => "safe",
        Standing::Gone => "gone",
    }
}

// Appends the nodes that slots name, with commas between them.
fn push_slot(text: &mut Text, at: usize, slot: Option<usize>) {
    if at > 0 {
        text.word(",");
    }
    match slot {
        Some(node) => text.number(node),
        None => text.word("-"),
    }
}

fn push_slots(text: &mut Text, slots: &[Option<usize>]) {
    for (at, slot) in slots.iter().enumerate() {
        push_slot(text, at, *slot);
    }
}

fn push_locals(text: &mut Text, graph: &Graph) {
    let (front, more) = graph.locals.parts();
    push_slots(text, front);
    for at in front.len()..front.len().saturating_add(more) {
        push_slot(text, at, None);
    }
}

// How a node hangs on its parent: `.FIELD`, or `[]` for an element.
fn push_label(text: &mut Text, alloc: Global, program: &Program, label: Label) {
    match label {
        Label::Element => text.word("[]"),
        Label::Field(id) => match program.fields.as_slice().get(id.0 as usize) {
            Some(field) => {
                text.word(".");
                text.part(name_text(alloc, field.name.as_slice()).ok());
            }
            None => text.lacks(),
        },
    }
}

// A node: its number, its region, its standing, a star where it is the head, and where it hangs.
fn push_node(text: &mut Text, alloc: Global, program: &Program, number: usize, node: &Node) {
    text.word(" ");
    text.number(number);
    text.word(":");
    text.number(node.region);
    text.word(":");
    text.word(standing_word(node.standing));
    if node.head {
        text.word("*");
    }
    if let Some((parent, label)) = node.parent {
        text.word("<");
        text.number(parent);
        push_label(text, alloc, program, label);
    }
}

// A graph, and the end of its line.
fn push_graph(text: &mut Text, alloc: Global, program: &Program, graph: &Graph) {
    text.word(" ");
    push_locals(text, graph);
    text.word("|");
    push_slots(text, graph.stack.as_slice());
    for (number, node) in graph.nodes.as_slice().iter().enumerate() {
        push_node(text, alloc, program, number, node);
    }
    text.word("\n");
}

// A graph in canonical form, which ends the line.
fn canonical(text: &mut Text, alloc: Global, program: &Program, graph: &Graph) -> Option<Graph> {
    match graph.canonical(alloc, None) {
        Ok(graph) => {
            push_graph(text, alloc, program, &graph);
            Some(graph)
        }
        Err(_) => {
            text.lacks();
            None
        }
    }
}

// The graph at entry, with its line.
fn entry_graph(
    text: &mut Text,
    alloc: Global,
    program: &Program,
    method: &Method,
) -> Option<Graph> {
    text.word("entry");
    match Graph::entry(alloc, program, method) {
        Ok(graph) => canonical(text, alloc, program, &graph),
        Err(_) => {
            text.lacks();
            None
        }
    }
}

// The graph behind an instruction, with its line; nothing where the instruction breaks a rule, which the line then says.
fn next_graph(
    text: &mut Text,
    alloc: Global,
    program: &Program,
    method: &Method,
    graph: &Graph,
    before: &VerifiedFrame,
    placed: &(u32, Instr),
) -> Option<Graph> {
    text.number(placed.0 as usize);
    match transfer(alloc, program, method, graph, before, &placed.1, None) {
        Ok(left) => canonical(text, alloc, program, &left),
        Err(StepFault::Rule(rule)) => {
            text.word(" breaks ");
            text.number(usize::from(rule));
            text.word("\n");
            None
        }
        Err(StepFault::Memory) => {
            text.lacks();
            None
        }
    }
}

// The line of an instruction with the graph behind it, which takes the place of the one before; whether it breaks no rule.
fn push_next(
    text: &mut Text,
    alloc: Global,
    program: &Program,
    method: &Method,
    graph: &mut Graph,
    before: &VerifiedFrame,
    placed: &(u32, Instr),
) -> bool {
    match next_graph(text, alloc, program, method, graph, before, placed) {
        Some(left) => {
            *graph = left;
            true
        }
        None => false,
    }
}

// A line for the graph behind each instruction, up to the first that breaks a rule or ends the path.
fn push_path(
    text: &mut Text,
    alloc: Global,
    program: &Program,
    method: &Method,
    frames: &[VerifiedFrame],
    graph: &mut Graph,
) {
    for (at, placed) in method.code.as_slice().iter().enumerate() {
        let Some(before) = frames.get(at) else {
            text.lacks();
            return;
        };
        let goes_on = push_next(text, alloc, program, method, graph, before, placed);
        if !goes_on || ends_path(&placed.1) {
            return;
        }
    }
}

/// The graphs along a method, which has this number: a line for the one at entry, and behind each instruction, up to the first that breaks a
/// rule or ends the path.
pub fn graph_lines(text: &mut Text, alloc: Global, typed: &Typed, number: usize, method: &Method) {
    let Some(frames) = typed.frames.as_slice().get(number) else {
        text.lacks();
        return;
    };
    if let Some(mut graph) = entry_graph(text, alloc, &typed.program, method) {
        push_path(
            text,
            alloc,
            &typed.program,
            method,
            frames.as_slice(),
            &mut graph,
        );
    }
}
