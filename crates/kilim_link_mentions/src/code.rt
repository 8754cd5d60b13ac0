//! The code of methods.

ghost use Rattle.std.specs.Prelude.{◌≡◌, IfOk};
ghost use Rattle.std.specs.List.{filter_map};
ghost use Rattle.std.specs.Option.{option_copied};
ghost use Rattle.kilim_link_spec.specs.Code.{decoded, index_in};
ghost use Rattle.kilim_link_spec.specs.Linked.{code_attribute, code_in, first_of};
ghost use Rattle.kilim_link_spec.specs.Mentions.{instrs_in, instrs_of};
ghost use Rattle.kilim_link_mentions.specs.Decoded.{code_found};

use kilim_class_attributes::{Attribute, Code, Info};
use kilim_class_code::opcodes::RawInstr;
use kilim_class_code::{Body, CodeFault, decode};
use kilim_class_file::MemberInfo;
use kilim_link_spec::decoded_is_decode;
use kilim_units::{NoMemory, Seq, no_room};
use std::alloc::Global;

fn code_in(info: &Info) -> Option<&Code>
    ensures { option_copied result ≡ code_in info.now }
{
    match info {
        Info::Code(code) => Some(code),
        _ => None,
    }
}

fn first_code(attributes: &[Attribute]) -> Option<&Code>
    ensures { option_copied result ≡ first_of (filter_map (λ a. code_in a.info) attributes.now) }
{
    for attribute in attributes {
        if let Some(code) = code_in(&attribute.info) {
            return Some(code);
        }
    }
    None
}

/// The Code attribute of a method, the first one where there are several; none where there is none (JVMS 4.7.3).
pub fn code_attribute(method: &MemberInfo) -> Option<&Code>
    ensures { option_copied result ≡ code_attribute method.now }
{
    first_code(method.attributes.as_slice())
}

/// The instructions of a code array with their places in bytes, or its first fault, which is never want of memory
/// (JVMS 4.7.3, 4.9). Code of 4,294,967,296 bytes or more, which no class file has, is answered as want of memory.
pub fn decoded(alloc: Global, code: &[u8]) -> Result<Result<Body, CodeFault>, NoMemory>
    ensures { IfOk result (λ found. decoded code.now ≡ code_found found) }
{
    decoded_is_decode();
    if code.len() >= 4_294_967_296 {
        // room: code of 2^32 bytes
        return Err(no_room());
    }
    match decode(alloc, code) {
        Ok(body) => Ok(Ok(body)),
        Err(CodeFault::Memory) => Err(NoMemory),
        Err(fault) => Ok(Err(fault)),
    }
}

// The instructions of code that is there and has no fault.
fn instrs_in(alloc: Global, code: Option<&Code>) -> Result<Seq<(u32, RawInstr)>, NoMemory>
    ensures { IfOk result (λ instrs. instrs ≡ instrs_in (option_copied code.entry)) }
{
    match code {
        None => Ok(Seq::new(alloc)),
        Some(code) => {
            let Ok(found) = decoded(alloc, code.code.as_slice()) else {
                return Err(NoMemory);
            };
            match found {
                Ok(body) => Ok(body.code),
                Err(_) => Ok(Seq::new(alloc)),
            }
        }
    }
}

/// The instructions of a method's code that has no fault, with their places in bytes; else none.
pub fn instrs_of(alloc: Global, method: &MemberInfo) -> Result<Seq<(u32, RawInstr)>, NoMemory>
    ensures { IfOk result (λ instrs. instrs ≡ instrs_of method.now) }
{
    instrs_in(alloc, code_attribute(method))
}

/// The number of an instruction and the index of the pool in it, where it has one.
pub fn index_in(instr: &RawInstr) -> Option<(u8, u16)>
    ensures { result ≡ index_in instr.now }
{
    match instr {
        RawInstr::Constant(number, index) => Some((*number, u16::from(*index))),
        RawInstr::Index(number, index) => Some((*number, *index)),
        _ => None,
    }
}
