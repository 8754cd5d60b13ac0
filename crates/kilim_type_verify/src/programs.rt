//! The public call.

ghost use Rattle.std.specs.Prelude.{◌≡◌, ◌<◌, Some, IfOk, length, slice_get};
ghost use Rattle.kilim_type_verify.specs.Verified.{IsVerified, MethodsWalked};

use crate::walk::{Walked, walk};
use kilim_program::{Method, MethodId, Program};
use kilim_type_spec::{Typed, VerifiedFrame};
use kilim_type_step::discard;
use kilim_units::{NoMemory, Seq, no_room};
use std::alloc::Global;

/// Why a program isn't well typed, or wasn't verified.
#[derive(Drop)]
pub enum TypeFault {
    /// The program, unchanged, and its first fault: the method, the place, and the least rule that fails there.
    Rule(Program, MethodId, u32, u8),
    /// There was no memory; the program was dropped.
    Memory,
}

/// What comes of the methods of a program.
#[derive(Drop)]
pub enum Methods {
    /// The frames of each method, by number.
    Frames(Vec<Seq<VerifiedFrame>>),
    /// The first fault: the method, the place, the rule.
    Fault(MethodId, u32, u8),
}

fn method_of(methods: &[Method], at: usize) -> &Method
    requires { at < length methods.now }
    ensures { slice_get methods.now at ≡ Some result.now }
{
    &methods[at]
}

fn walk_methods(alloc: Global, program: &Program) -> Result<Methods, NoMemory>
    ensures { IfOk result (λ walked. MethodsWalked program.now walked) }
{
    let methods = program.methods.as_slice();
    let Ok(mut all) = Vec::with_capacity(alloc, methods.len()) else {
        return Err(NoMemory);
    };
    for number in 0..methods.len() {
        let method = method_of(methods, number);
        let Ok(walked) = walk(alloc, program, method) else {
            return Err(NoMemory);
        };
        match walked {
            Walked::Frames(frames) => {
                let Ok(()) = all.push(Seq::from_vec(frames)) else {
                    return Err(NoMemory);
                };
            }
            Walked::Fault(place, rule) => {
                let Ok(id) = u32::try_from(number) else {
                    // room: 2^32 methods
                    return Err(no_room());
                };
                return Ok(Methods::Fault(MethodId(id), place, rule));
            }
        }
    }
    Ok(Methods::Frames(all))
}

/// Verifies a program (JVMS 4.10.1): answers it with the frame at each place where each method with code is well typed. Else
/// it is handed back unchanged, with its first fault: the first method by number, of that the first place, of that the least
/// rule. Want of memory drops it.
pub fn verify(alloc: Global, program: Program) -> Result<Typed, TypeFault>
    ensures { IsVerified program result }
{
    // What a program keeps is known where it is opened.
    let _methods = &program.methods;
    let walked = walk_methods(alloc, &program);
    match walked {
        Ok(Methods::Frames(frames)) => Ok(Typed {
            program,
            frames: Seq::from_vec(frames),
        }),
        Ok(Methods::Fault(method, place, rule)) => {
            Err(TypeFault::Rule(program, method, place, rule))
        }
        Err(NoMemory) => {
            discard(program);
            Err(TypeFault::Memory)
        }
    }
}
