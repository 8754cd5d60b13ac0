//! Code arrays and instructions, read and written again.

ghost use Rattle.kilim_class_code.specs.Exact.{BodyFits};
ghost use Rattle.kilim_class_code.specs.opcodes.Instr.{InstrFits};

use crate::shown::push_shown;
use kilim_case_text::Text;
use kilim_class_code::opcodes::{OpFault, RawInstr, read_instr, write_instr};
use kilim_class_code::{Body, CodeFault, decode, encode};
use std::alloc::Global;

// Code is asked for below this many bytes.
const CODE_LIMIT: usize = 65_536;

// Puts the bytes of a word, in decimal with commas between them, behind the others; whether that was possible.
fn push_bytes(bytes: &mut Vec<u8>, word: &str) -> bool {
    for byte in word.split(',') {
        match byte.parse::<u8>() {
            Ok(byte) if bytes.push(byte).is_ok() => {}
            _ => return false,
        }
    }
    true
}

// The words of a fault of one instruction.
fn op_words(fault: OpFault) -> &'static str {
    match fault {
        OpFault::Unknown(_) => "unknown",
        OpFault::LeftOut(_) => "left-out",
        OpFault::Cut => "cut",
        OpFault::Memory => "memory",
    }
}

fn push_fault(text: &mut Text, fault: CodeFault) {
    let at = match fault {
        CodeFault::Op(fault, at) => {
            text.word(op_words(fault));
            text.word(" at ");
            at
        }
        CodeFault::MidTarget(at, to) => {
            text.word("jumps to ");
            text.signed(to);
            text.word(" at ");
            at
        }
        CodeFault::FallsOff(at) => {
            text.word("goes on behind ");
            at
        }
        CodeFault::Memory => {
            text.lacks();
            0
        }
    };
    text.number(at as usize);
    text.word("\n");
}

fn push_body(text: &mut Text, alloc: Global, code: &[u8], body: &Body)
    requires { BodyFits body.now.code }
{
    text.number(body.code.len());
    match encode(alloc, body) {
        Ok(written) => text.word(if written.as_slice() == code {
            " instructions, same\n"
        } else {
            " instructions, another\n"
        }),
        Err(_) => text.lacks(),
    }
}

/// How many instructions a code array has and whether it is written in the same bytes, or its fault.
pub fn push_code(text: &mut Text, alloc: Global, code: &[u8]) {
    if code.len() >= CODE_LIMIT {
        text.lacks();
        return;
    }
    match decode(alloc, code) {
        Ok(body) => push_body(text, alloc, code, &body),
        Err(fault) => push_fault(text, fault),
    }
}

/// `code`, or `code BYTES`.
pub fn code_case(text: &mut Text, alloc: Global, words: &[String]) {
    let mut code = Vec::new(alloc);
    let is_read = match words {
        [] => true,
        [word] => push_bytes(&mut code, word.as_str()),
        _ => false,
    };
    if is_read {
        push_code(text, alloc, code.as_slice());
    } else {
        text.lacks();
    }
}

// Whether an instruction is written in the bytes from its place up to the next one's.
fn push_written(
    text: &mut Text,
    alloc: Global,
    code: &[u8],
    at: usize,
    instr: &RawInstr,
    next: usize,
)
    requires { InstrFits at instr.now }
{
    let mut written = Vec::new(alloc);
    if write_instr(instr, at, &mut written).is_err() {
        text.lacks();
    }
    text.word(if Some(written.as_slice()) == code.get(at..next) {
        ", same\n"
    } else {
        ", another\n"
    });
}

// An instruction at a place of code, the place behind it, and whether it is written in the same bytes.
fn push_instr(text: &mut Text, alloc: Global, code: &[u8], at: usize) {
    if at >= code.len() {
        text.lacks();
        return;
    }
    match read_instr(alloc, code, at) {
        Ok((instr, next)) => {
            push_shown(text, alloc, &instr);
            text.word(" to ");
            text.number(next);
            push_written(text, alloc, code, at, &instr, next);
        }
        Err(fault) => {
            text.word(op_words(fault));
            text.word("\n");
        }
    }
}

/// `instr AT BYTES`.
pub fn instr_case(text: &mut Text, alloc: Global, words: &[String]) {
    let [at, word] = words else {
        text.lacks();
        return;
    };
    let Ok(at) = at.parse::<usize>() else {
        text.lacks();
        return;
    };
    let mut code = Vec::new(alloc);
    if push_bytes(&mut code, word.as_str()) {
        push_instr(text, alloc, code.as_slice(), at);
    } else {
        text.lacks();
    }
}
