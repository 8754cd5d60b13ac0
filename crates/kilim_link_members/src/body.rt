//! What the code of a method comes to.

ghost use Rattle.std.specs.Prelude.{◌≡◌, Some, IfOk, length, option_copied};
ghost use Rattle.kilim_link_spec.specs.World.{declared_method};
ghost use Rattle.kilim_link_spec.specs.Code.{decoded, code_of};
ghost use Rattle.kilim_link_spec.specs.Linked.{no_body, body_in};
ghost use Rattle.kilim_link_members.specs.Parts.{parts_in};

use crate::frames::frames_in;
use crate::tables::handlers_in;
use kilim_class_attributes::Code;
use kilim_class_file::{ClassFile, MemberInfo};
use kilim_class_pool::Pool;
use kilim_link_code::code_of;
use kilim_link_mentions::decoded;
use kilim_link_spec::{Body, DeclaredMethod};
use kilim_link_world::World;
use kilim_program::{ClassId, Handler, Instr};
use kilim_units::{NoMemory, Seq, no_room};
use std::alloc::Global;

fn no_body(alloc: Global) -> Body
    ensures { result ≡ no_body }
{
    Body {
        max_stack: 0,
        max_locals: 0,
        code_length: 0,
        code: Seq::new(alloc),
        frames: Seq::new(alloc),
        handlers: Seq::new(alloc),
    }
}

// The instructions of code, where it has no fault and all that it names is there.
fn instrs_in(
    alloc: Global,
    world: &World,
    pool: &Pool,
    code: &[u8],
) -> Result<Option<Seq<(u32, Instr)>>, NoMemory>
    ensures { IfOk result (λ found. found ≡ code_of world.now pool.now (decoded code.now)) }
{
    match decoded(alloc, code) {
        Ok(Ok(body)) => code_of(alloc, world, pool, body.code.as_slice()),
        Ok(Err(_)) => Ok(None),
        Err(fault) => Err(fault),
    }
}

// The number of bytes of code; 4,294,967,296 or more are answered as want of memory.
fn length_of(code: &Code) -> Result<u32, NoMemory>
    ensures { IfOk result (λ count. count ≡ length code.now.code) }
{
    match u32::try_from(code.code.len()) {
        Ok(count) => Ok(count),
        // room: code of 2^32 bytes
        Err(_) => Err(no_room()),
    }
}

// The instructions and the exception table of code, where it has no fault and all that they name is there.
fn parts_in(
    alloc: Global,
    world: &World,
    pool: &Pool,
    code: &Code,
) -> Result<Option<(Seq<(u32, Instr)>, Seq<Handler>)>, NoMemory>
    ensures { IfOk result (λ parts. parts ≡ parts_in world.now pool.now code.now) }
{
    let Ok(instrs) = instrs_in(alloc, world, pool, code.code.as_slice()) else {
        return Err(NoMemory);
    };
    let Some(instrs) = instrs else {
        return Ok(None);
    };
    match handlers_in(alloc, world, pool, code.exception_table.as_slice()) {
        Ok(Some(handlers)) => Ok(Some((instrs, handlers))),
        Ok(None) => {
            drop(instrs);
            Ok(None)
        }
        Err(fault) => {
            drop(instrs);
            Err(fault)
        }
    }
}

// Of a method with code.
fn body_of(
    alloc: Global,
    world: &World,
    file: &ClassFile,
    class: ClassId,
    method: &MemberInfo,
    declared: &DeclaredMethod,
    code: &Code,
) -> Result<Option<Body>, NoMemory>
    requires { declared.now ≡ declared_method file.now method.now }
    ensures { IfOk result (λ body. body ≡ body_in world.now file.now class method.now (Some code.now)) }
{
    let Ok(code_length) = length_of(code) else {
        return Err(NoMemory);
    };
    let Ok(parts) = parts_in(alloc, world, &file.constant_pool, code) else {
        return Err(NoMemory);
    };
    let Some((instrs, handlers)) = parts else {
        return Ok(None);
    };
    match frames_in(alloc, world, file, class, declared, code) {
        Ok(Some(frames)) => Ok(Some(Body {
            max_stack: code.max_stack,
            max_locals: code.max_locals,
            code_length,
            code: instrs,
            frames,
            handlers,
        })),
        Ok(None) => {
            drop(instrs);
            drop(handlers);
            Ok(None)
        }
        Err(fault) => {
            drop(instrs);
            drop(handlers);
            Err(fault)
        }
    }
}

/// What the code of a method comes to in a program, where it has no fault and all that it and its frames name is there;
/// without code nothing (JVMS 4.7.3).
pub fn body_in(
    alloc: Global,
    world: &World,
    file: &ClassFile,
    class: ClassId,
    method: &MemberInfo,
    declared: &DeclaredMethod,
    code: Option<&Code>,
) -> Result<Option<Body>, NoMemory>
    requires { declared.now ≡ declared_method file.now method.now }
    ensures { IfOk result (λ body. body ≡ body_in world.now file.now class method.now (option_copied code.entry)) }
{
    match code {
        Some(code) => body_of(alloc, world, file, class, method, declared, code),
        None => Ok(Some(no_body(alloc))),
    }
}
