//! Bytes to a code array.

ghost use Rattle.std.specs.Prelude.{◌≡◌, ◌⊎◌, ◌<◌, ◌^◌, ℕ, [], length, drop, Some, None, OnOk, IfOk, IfErr, MatchResult};
ghost use Rattle.kilim_class_code.specs.declared.body.Body.{Body};
ghost use Rattle.kilim_class_code.specs.declared.fault.CodeFault.{CodeFault};
ghost use Rattle.kilim_class_code.specs.declared.fault.CodeFault.TheVariants.{Memory};
ghost use Rattle.kilim_class_code.specs.Code.{code_text, ends, falls_off};
ghost use Rattle.kilim_class_code.specs.Exact.{IsCode, op_fault, body_fault, BodyFits, HasFault, IsUnlessMemory};
ghost use Rattle.kilim_class_code.specs.Marks.{PlacesBelow};

use crate::body::Body;
use crate::fault::CodeFault;
use crate::marks::mid_target;
use crate::opcodes::{OpFault, RawInstr, lengths, one_spelling, read_instr};
use kilim_units::Seq;
use std::alloc::Global;

fn op_fault(fault: OpFault, at: u32) -> CodeFault
    ensures { result ≡ op_fault at fault }
{
    match fault {
        OpFault::Memory => CodeFault::Memory,
        OpFault::Cut | OpFault::Unknown(_) | OpFault::LeftOut(_) => CodeFault::Op(fault, at),
    }
}

// The instructions of a code array, whatever their targets, put behind none.
fn push_instrs(
    alloc: Global,
    code: &[u8],
    instrs: &mut Seq<(u32, RawInstr)>,
) -> Result<(), CodeFault>
    requires len { length code.now < 2 ^ 32 }
    requires none { instrs.old ≡ [] }
    ensures found { OnOk result (IsCode code.now instrs.new) }
    ensures fault { IfErr result (λ e. (e ≡ Memory) ⊎ HasFault code.now e) }
{
    lengths();
    let mut at = 0;
    while at < code.len() {
        match read_instr(alloc, code, at) {
            Ok((instr, next)) => {
                let Ok(()) = instrs.push((at as u32, instr)) else {
                    return Err(CodeFault::Memory);
                };
                at = next;
            }
            Err(fault) => return Err(op_fault(fault, at as u32)),
        }
    }
    Ok(())
}

fn instrs_of(alloc: Global, code: &[u8]) -> Result<Seq<(u32, RawInstr)>, CodeFault>
    requires { length code.now < 2 ^ 32 }
    ensures found { IfOk result (λ instrs. IsCode code.now instrs) }
    ensures fault { IfErr result (λ e. (e ≡ Memory) ⊎ HasFault code.now e) }
{
    let mut instrs = Seq::new(alloc);
    match push_instrs(alloc, code, &mut instrs) {
        Ok(()) => Ok(instrs),
        Err(fault) => Err(fault),
    }
}

#[tactic(auto, unfolding(crate::specs::Code::ends))]
fn ends(instr: &RawInstr) -> bool
    ensures { result ≡ ends instr.now }
{
    match instr {
        RawInstr::Plain(op) => {
            *op == 172 || *op == 173 || *op == 176 || *op == 177 || *op == 191
        }
        RawInstr::Jump(op, _) => *op == 167,
        RawInstr::WideJump(_, _)
        | RawInstr::TableSwitch(_, _, _, _)
        | RawInstr::LookupSwitch(_, _, _) => true,
        _ => false,
    }
}

#[tactic(auto, unfolding(crate::specs::Code::falls_off))]
fn falls_off(code: &[(u32, RawInstr)]) -> Option<u32>
    ensures { result ≡ falls_off code.now }
{
    match code.last() {
        None => Some(0),
        Some((at, instr)) => { if ends(instr) { None } else { Some(*at) } }
    }
}

// Whether the targets and the end of instructions that stand one behind the other are as they have to be; else the
// first fault.
#[tactic(auto, unfolding(crate::specs::Exact::body_fault))]
fn check_body(alloc: Global, code: &[(u32, RawInstr)], len: usize) -> Result<(), CodeFault>
    requires { PlacesBelow len code.now }
    ensures ok { OnOk result (body_fault code.now ≡ None) }
    ensures err { IfErr result (λ e. (e ≡ Memory) ⊎ (body_fault code.now ≡ Some e)) }
{
    match mid_target(alloc, code, len) {
        Ok(Some((at, to))) => Err(CodeFault::MidTarget(at, to)),
        Ok(None) => match falls_off(code) {
            Some(at) => Err(CodeFault::FallsOff(at)),
            None => Ok(()),
        },
        Err(_) => Err(CodeFault::Memory),
    }
}

/// The instructions of a code array of fewer than 4,294,967,296 bytes, so that each place is a `u32`: in time linear
/// in their number. (A method's code has 1 to 65,535 bytes, JVMS 4.7.3, which isn't asked here. Code without bytes
/// falls off at 0.)
///
/// It answers `Ok` exactly for the text of instructions whose targets are places of instructions (JVMS 4.9.1) and
/// the last of which is a goto, goto_w, switch or return (JVMS 4.9.2), also where it can't be reached. Else the
/// fault is the first one: of one instruction over the whole code; then of a target, in code order, and of a switch
/// the default and then the targets in order; then of the end.
pub fn decode(alloc: Global, code: &[u8]) -> Result<Body, CodeFault>
    requires { length code.now < 2 ^ 32 }
    // What is read is spelled so.
    ensures found { IfOk result (λ body. BodyFits body.code) }
    ensures text { IfOk result (λ body. code.now ≡ code_text body.code) }

    // What is spelled so is read.
    ensures only { (body : Body) → BodyFits body.code → code.now ≡ code_text body.code → MatchResult result (λ read. read.code ≡ body.code) (λ e. e ≡ Memory) }

    // A fault is the first one, and the first one is found.
    ensures fault { IfErr result (λ e. (e ≡ Memory) ⊎ HasFault code.now e) }
    ensures first { (fault : CodeFault) → HasFault code.now fault → MatchResult result (λ read. ⊥) (IsUnlessMemory fault) }
{
    one_spelling();
    match instrs_of(alloc, code) {
        Ok(instrs) => match check_body(alloc, instrs.as_slice(), code.len()) {
            Ok(()) => Ok(Body { code: instrs }),
            Err(fault) => {
                drop(instrs);
                Err(fault)
            }
        },
        Err(fault) => Err(fault),
    }
}
