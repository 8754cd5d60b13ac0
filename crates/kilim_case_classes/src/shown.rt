//! An instruction as a text.

use kilim_case_text::Text;
use kilim_class_code::opcodes::RawInstr;
use std::alloc::Global;

// The name of an instruction's variant, and the instruction's number.
fn variant(instr: &RawInstr) -> (&'static str, u8) {
    match instr {
        RawInstr::Plain(op) => ("Plain", *op),
        RawInstr::Byte(op, _) => ("Byte", *op),
        RawInstr::Short(op, _) => ("Short", *op),
        RawInstr::Local(op, _) => ("Local", *op),
        RawInstr::Constant(op, _) => ("Constant", *op),
        RawInstr::Index(op, _) => ("Index", *op),
        RawInstr::Iinc(op, _, _) => ("Iinc", *op),
        RawInstr::Jump(op, _) => ("Jump", *op),
        RawInstr::WideJump(op, _) => ("WideJump", *op),
        RawInstr::NewArray(op, _) => ("NewArray", *op),
        RawInstr::TableSwitch(op, _, _, _) => ("TableSwitch", *op),
        RawInstr::LookupSwitch(op, _, _) => ("LookupSwitch", *op),
        RawInstr::WideLocal(op, _) => ("WideLocal", *op),
        RawInstr::WideIinc(op, _, _) => ("WideIinc", *op),
    }
}

// The operands that are numbers: two at most.
fn operands(instr: &RawInstr) -> (Option<i64>, Option<i64>) {
    match instr {
        RawInstr::Plain(_) => (None, None),
        RawInstr::Byte(_, number) => (Some(i64::from(*number)), None),
        RawInstr::Short(_, number) => (Some(i64::from(*number)), None),
        RawInstr::Local(_, byte) | RawInstr::Constant(_, byte) | RawInstr::NewArray(_, byte) => {
            (Some(i64::from(*byte)), None)
        }
        RawInstr::Index(_, index) | RawInstr::WideLocal(_, index) => {
            (Some(i64::from(*index)), None)
        }
        RawInstr::Iinc(_, slot, number) => (Some(i64::from(*slot)), Some(i64::from(*number))),
        RawInstr::WideIinc(_, slot, number) => (Some(i64::from(*slot)), Some(i64::from(*number))),
        RawInstr::Jump(_, to) | RawInstr::WideJump(_, to) | RawInstr::LookupSwitch(_, to, _) => {
            (Some(*to), None)
        }
        RawInstr::TableSwitch(_, default, low, _) => (Some(*default), Some(i64::from(*low))),
    }
}

fn push_operand(text: &mut Text, operand: Option<i64>) {
    if let Some(number) = operand {
        text.word(", ");
        text.signed(number);
    }
}

// The list of a switch.
fn push_list(text: &mut Text, alloc: Global, instr: &RawInstr) {
    let list = match instr {
        RawInstr::TableSwitch(_, _, _, targets) => format!(in alloc; ", {targets:?}"),
        RawInstr::LookupSwitch(_, _, pairs) => format!(in alloc; ", {pairs:?}"),
        _ => return,
    };
    match list {
        Ok(list) => text.word(list.as_str()),
        Err(_) => text.lacks(),
    }
}

/// An instruction as it is written in the code of this project: its variant, and in brackets its number and what it has.
pub fn push_shown(text: &mut Text, alloc: Global, instr: &RawInstr) {
    let (name, op) = variant(instr);
    text.word(name);
    text.word("(");
    text.number(usize::from(op));
    let (first, second) = operands(instr);
    push_operand(text, first);
    push_operand(text, second);
    push_list(text, alloc, instr);
    text.word(")");
}
