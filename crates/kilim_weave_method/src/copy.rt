//! Copies of methods and their parts.

ghost use Rattle.std.specs.Prelude.{◌≡◌, ◌<◌, Some, length, slice_get, IfOk};

use kilim_program::{Frame, Handler, Instr, Method, Qualifier, Ty};
use kilim_units::{NoMemory, Seq, Units};
use kilim_weave_code::copied;
use std::alloc::Global;

/// What a method owns beside its code: its name, its parameters with what it may do with them, and its handlers.
#[derive(Drop)]
pub struct Head {
    pub name: Units,
    pub params: Seq<Ty>,
    pub qualifiers: Seq<Qualifier>,
    pub handlers: Seq<Handler>,
}

/// The same head.
pub fn copy_head(method: &Method) -> Result<Head, NoMemory>
    ensures { IfOk result (λ h. h ≡ record { name = method.now.name; params = method.now.params; qualifiers = method.now.qualifiers; handlers = method.now.handlers }) }
{
    let Ok(name) = method.name.clone() else {
        return Err(NoMemory);
    };
    let Ok(params) = method.params.clone() else {
        return Err(NoMemory);
    };
    let Ok(qualifiers) = method.qualifiers.clone() else {
        return Err(NoMemory);
    };
    let Ok(handlers) = method.handlers.clone() else {
        return Err(NoMemory);
    };
    Ok(Head {
        name,
        params,
        qualifiers,
        handlers,
    })
}

/// A method with another head and other code. Takes no memory.
pub fn with_parts(
    method: &Method,
    head: Head,
    code: Seq<(u32, Instr)>,
    frames: Seq<(u32, Frame)>,
) -> Method
    ensures { result ≡ record method.now { name = head.name; params = head.params; qualifiers = head.qualifiers; handlers = head.handlers; code = code; frames = frames } }
{
    Method {
        name: head.name,
        owner: method.owner,
        params: head.params,
        result: method.result,
        is_static: method.is_static,
        is_private: method.is_private,
        is_abstract: method.is_abstract,
        built_in: method.built_in,
        pausable: method.pausable,
        receiver: method.receiver,
        qualifiers: head.qualifiers,
        max_stack: method.max_stack,
        max_locals: method.max_locals,
        code_length: method.code_length,
        code,
        frames,
        handlers: head.handlers,
    }
}

fn instr_at(code: &[(u32, Instr)], at: usize) -> &(u32, Instr)
    requires { at < length code.now }
    ensures { slice_get code.now at ≡ Some result.now }
{
    &code[at]
}

fn copy_code(alloc: Global, code: &[(u32, Instr)]) -> Result<Seq<(u32, Instr)>, NoMemory>
    ensures { IfOk result (λ s. s ≡ code.now) }
{
    let mut all = Seq::new(alloc);
    for at in 0..code.len() {
        let entry = instr_at(code, at);
        let Ok(instr) = copied(&entry.1) else {
            return Err(NoMemory);
        };
        let Ok(()) = all.push((entry.0, instr)) else {
            return Err(NoMemory);
        };
    }
    Ok(all)
}

fn copy_frame(frame: &Frame) -> Result<Frame, NoMemory>
    ensures { IfOk result (λ f. f ≡ frame.now) }
{
    let Ok(locals) = frame.locals.clone() else {
        return Err(NoMemory);
    };
    let Ok(stack) = frame.stack.clone() else {
        return Err(NoMemory);
    };
    Ok(Frame { locals, stack })
}

fn frame_at(frames: &[(u32, Frame)], at: usize) -> &(u32, Frame)
    requires { at < length frames.now }
    ensures { slice_get frames.now at ≡ Some result.now }
{
    &frames[at]
}

fn copy_frames(alloc: Global, frames: &[(u32, Frame)]) -> Result<Seq<(u32, Frame)>, NoMemory>
    ensures { IfOk result (λ s. s ≡ frames.now) }
{
    let mut all = Seq::new(alloc);
    for at in 0..frames.len() {
        let entry = frame_at(frames, at);
        let Ok(frame) = copy_frame(&entry.1) else {
            return Err(NoMemory);
        };
        let Ok(()) = all.push((entry.0, frame)) else {
            return Err(NoMemory);
        };
    }
    Ok(all)
}

// What a method does: its code and its frames.
#[derive(Drop)]
struct Body {
    code: Seq<(u32, Instr)>,
    frames: Seq<(u32, Frame)>,
}

fn copy_body(alloc: Global, method: &Method) -> Result<Body, NoMemory>
    ensures { IfOk result (λ b. b ≡ record { code = method.now.code; frames = method.now.frames }) }
{
    let Ok(code) = copy_code(alloc, method.code.as_slice()) else {
        return Err(NoMemory);
    };
    let Ok(frames) = copy_frames(alloc, method.frames.as_slice()) else {
        return Err(NoMemory);
    };
    Ok(Body { code, frames })
}

/// The same method with another head.
pub fn with_head(alloc: Global, method: &Method, head: Head) -> Result<Method, NoMemory>
    ensures { IfOk result (λ m. m ≡ record method.now { name = head.name; params = head.params; qualifiers = head.qualifiers; handlers = head.handlers }) }
{
    match copy_body(alloc, method) {
        Ok(body) => Ok(with_parts(method, head, body.code, body.frames)),
        Err(fault) => {
            drop(head);
            Err(fault)
        }
    }
}

/// The same method.
pub fn copy_method(alloc: Global, method: &Method) -> Result<Method, NoMemory>
    ensures { IfOk result (λ m. m ≡ method.now) }
{
    let head = copy_head(method)?;
    with_head(alloc, method, head)
}
