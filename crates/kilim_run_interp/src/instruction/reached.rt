//! What calls reach, in a table by the number of the method that is named: found once, and then told.

ghost use Rattle.std.specs.Prelude.{◌≡◌, ◌<◌, true, false, length, option_copied, slice_get, Some, IfOk, IfSome};
ghost use Rattle.kilim_program.specs.Names.{method_at};
ghost use Rattle.kilim_program.specs.declared.instr.Instr.TheVariants.{Invokestatic, Invokevirtual};
ghost use Rattle.kilim_run_machine.specs.Does.{does};
ghost use Rattle.kilim_run_rows.specs.Outcome.{is_stuck, Shows};
ghost use Rattle.kilim_run_interp.specs.instruction.Reached.{AreReached, IsReach, asked_in, asked_type, by_class_in, called_in, called_type};
ghost use Rattle.kilim_program.specs.declared.ty.Base.TheVariants as a_base;

use crate::instruction::calls::{chosen, is_handed_out, is_of_message, is_text_method};
use kilim_program::lookups::{class_at, class_named, method_at};
use kilim_program::{Base, ClassId, Instr, Method, MethodId, Program, Ty, Value};
use kilim_run_rows::Moved;
use kilim_run_state::Heap;
use kilim_run_state::frames::Frame;
use kilim_units::NoMemory;
use std::alloc::Global;

/// What `invokestatic` of a method comes to.
#[derive(Clone, Copy)]
pub enum ByClass {
    /// It is a built-in method that is handed out.
    Asked,
    /// It has code.
    Called,
    /// The instruction does it itself.
    Done,
}

/// What calls of one method come to, as far as the method and the kind of the receiver tell it.
#[derive(Clone, Copy)]
pub struct Reach {
    /// How many parameters the method has.
    pub count: usize,
    /// By `invokestatic`.
    pub by_class: ByClass,
    /// The built-in method that `invokevirtual` on the fiber selects.
    pub on_fiber: Option<MethodId>,
    /// The built-in method that `invokevirtual` on a mailbox selects.
    pub on_mailbox: Option<MethodId>,
    /// The class that declares it, and the method with code that `invokevirtual` on an object of just that class selects.
    pub on_own: Option<(ClassId, MethodId)>,
}

// What is told of calls on objects takes a search through the methods of a class for each of them, so only small classes are asked.
const MOST_METHODS: usize = 64;

fn by_class(program: &Program, named: &Method) -> ByClass
    ensures { result ≡ by_class_in program.now (Some named.now) }
{
    if is_handed_out(program, named) {
        return ByClass::Asked;
    }
    if named.built_in {
        ByClass::Done
    } else {
        ByClass::Called
    }
}

// The built-in method that a call on an object of that type selects.
fn asked_type(program: &Program, named: &Method, method: MethodId, ty: Ty) -> Option<MethodId>
    ensures { result ≡ asked_type program.now named.now method (Some ty) }
{
    if is_text_method(program, named) {
        return None;
    }
    let id = chosen(program, named, method, ty);
    match method_at(program, id) {
        Some(target) => if target.built_in && !is_of_message(target) {
            Some(id)
        } else {
            None
        },
        None => None,
    }
}

// The same on an object of the class of that name. Only calls of built-in methods are told.
fn asked_on(program: &Program, named: &Method, method: MethodId, name: &[u8]) -> Option<MethodId>
    ensures { IfSome result (λ id. asked_in program.now method name.now (Some named.now) ≡ Some id) }
{
    if !named.built_in {
        return None;
    }
    let Ok(found) = class_named(program, name) else {
        return None;
    };
    let Some(class) = found else {
        return None;
    };
    let ty = Ty {
        dims: 0,
        base: Base::Class(class),
    };
    asked_type(program, named, method, ty)
}

// The method with code that a call on an object of that type selects.
fn called_type(program: &Program, named: &Method, method: MethodId, ty: Ty) -> Option<MethodId>
    ensures { result ≡ called_type program.now named.now method ty }
{
    if is_text_method(program, named) {
        return None;
    }
    let id = chosen(program, named, method, ty);
    match method_at(program, id) {
        Some(target) => { if target.built_in { None } else { Some(id) } }
        None => None,
    }
}

// The same on an object of the class that declares the method. Only calls of methods of small classes are told.
fn called_on(program: &Program, named: &Method, method: MethodId) -> Option<(ClassId, MethodId)>
    ensures { IfSome result (λ both. called_in program.now method both.0 (Some named.now) ≡ Some both.1) }
{
    if named.built_in || named.is_static {
        return None;
    }
    let Some(class) = class_at(program, named.owner) else {
        return None;
    };
    if class.methods.len() > MOST_METHODS {
        return None;
    }
    let ty = Ty {
        dims: 0,
        base: Base::Class(named.owner),
    };
    match called_type(program, named, method, ty) {
        Some(id) => Some((named.owner, id)),
        None => None,
    }
}

fn reach_of(program: &Program, method: MethodId, named: &Method) -> Reach
    requires { method_at program.now method ≡ Some named.now }
    ensures { IsReach program.now method result }
{
    let on_fiber = asked_on(program, named, method, b"kilim/Fiber");
    let on_mailbox = asked_on(program, named, method, b"kilim/Mailbox");
    Reach {
        count: named.params.len(),
        by_class: by_class(program, named),
        on_fiber,
        on_mailbox,
        on_own: called_on(program, named, method),
    }
}

/// What calls of each method come to.
pub fn reach_table(alloc: Global, program: &Program) -> Result<Vec<Reach>, NoMemory>
    ensures { IfOk result (λ table. AreReached program.now table.items) }
{
    let mut table = Vec::new(alloc);
    for at in 0..program.methods.len() {
        let Ok(number) = u32::try_from(at) else {
            return Ok(table);
        };
        let method = MethodId(number);
        let Some(named) = method_at(program, method) else {
            return Ok(table);
        };
        let reach = reach_of(program, method, named);
        let Ok(()) = table.push(reach) else {
            return Err(NoMemory);
        };
    }
    Ok(table)
}

#[inline(always)]
fn reach_at(table: &[Reach], method: MethodId) -> Option<&Reach>
    ensures { option_copied result ≡ slice_get table.now method.0 }
{
    table.get(method.0 as usize)
}

// `invokestatic`.
#[inline(always)]
fn told_static(
    table: &[Reach],
    method: MethodId,
    program: &Program,
    own: &Method,
    next: u32,
    frame: &Frame,
    heap: &Heap,
) -> Option<Moved>
    requires table { AreReached program.now table.now }
    requires fine { is_stuck (does program.now own.now (Invokestatic method) next frame.now.locals frame.now.stack.values heap.now) ≡ false }
    ensures { IfSome result (λ moved. Shows own.now (does program.now own.now (Invokestatic method) next frame.now.locals frame.now.stack.values heap.now) next moved frame.now frame.now heap.now heap.now) }
{
    let _ = program;
    let _ = own;
    let _ = frame;
    let _ = heap;
    let Some(reach) = reach_at(table, method) else {
        return None;
    };
    match reach.by_class {
        ByClass::Asked => Some(Moved::Asked(method, reach.count)),
        ByClass::Called => Some(Moved::Called(method, reach.count)),
        ByClass::Done => None,
    }
}

// Whether a type is that of the objects of a class.
#[inline(always)]
fn is_of(ty: Ty, class: ClassId) -> bool
    ensures { result ≡ true → ty ≡ record { dims = 0; base = a_base.Class class } }
{
    if ty.dims > 0 {
        return false;
    }
    match ty.base {
        Base::Class(found) => found.0 == class.0,
        _ => false,
    }
}

// `invokevirtual`.
#[inline(always)]
fn told_virtual(
    table: &[Reach],
    method: MethodId,
    program: &Program,
    own: &Method,
    next: u32,
    frame: &Frame,
    heap: &Heap,
) -> Option<Moved>
    requires table { AreReached program.now table.now }
    requires fine { is_stuck (does program.now own.now (Invokevirtual method) next frame.now.locals frame.now.stack.values heap.now) ≡ false }
    ensures { IfSome result (λ moved. Shows own.now (does program.now own.now (Invokevirtual method) next frame.now.locals frame.now.stack.values heap.now) next moved frame.now frame.now heap.now heap.now) }
{
    let _ = program;
    let _ = own;
    let Some(reach) = reach_at(table, method) else {
        return None;
    };
    let count = reach.count;
    let height = frame.stack.len();
    if count >= height {
        return None;
    }
    match frame.stack.peek(count) {
        Value::Fiber => match reach.on_fiber {
            Some(id) => Some(Moved::Asked(id, count + 1)),
            None => None,
        },
        Value::Box(name) => {
            let _ = name;
            match reach.on_mailbox {
                Some(id) => Some(Moved::Asked(id, count + 1)),
                None => None,
            }
        }
        Value::Ref(at) => {
            let Some((class, id)) = reach.on_own else {
                return None;
            };
            if is_of(heap.class(*at), class) {
                Some(Moved::Called(id, count + 1))
            } else {
                None
            }
        }
        _ => None,
    }
}

/// What a call comes to, where the table tells it. Nothing is done, and no name is looked at.
#[inline(always)]
pub fn told(
    table: &[Reach],
    instr: &Instr,
    program: &Program,
    own: &Method,
    next: u32,
    frame: &Frame,
    heap: &Heap,
) -> Option<Moved>
    requires table { AreReached program.now table.now }
    requires fine { is_stuck (does program.now own.now instr.now next frame.now.locals frame.now.stack.values heap.now) ≡ false }
    ensures { IfSome result (λ moved. Shows own.now (does program.now own.now instr.now next frame.now.locals frame.now.stack.values heap.now) next moved frame.now frame.now heap.now heap.now) }
{
    match *instr {
        Instr::Invokestatic(method) => {
            told_static(table, method, program, own, next, frame, heap)
        }
        Instr::Invokevirtual(method) => {
            told_virtual(table, method, program, own, next, frame, heap)
        }
        _ => None,
    }
}
