//! The built-in methods that are handed out in woven form, by their names.

ghost use Rattle.std.specs.Prelude.{◌≡◌, codes, Some, None, IfSome, IfNone};
ghost use Rattle.kilim_program.specs.Lengths.{is_reference};
ghost use Rattle.kilim_run_machine.specs.Natives as a_native;
ghost use Rattle.kilim_run_machine.specs.Natives.{is_built_in_constructor, is_handed_out_of, is_of, is_of_message, takes_object, natives, native_named, native_of};
ghost use Rattle.kilim_fiber_steps.specs.records.natives.Natives.{meaning, member_meant};

use kilim_program::lookups::{class_at, method_at};
use kilim_program::{Base, Method, MethodId, Program, Ty};
use kilim_units::Units;

/// A member of `kilim/Fiber`.
#[derive(Clone, Copy)]
pub enum Member {
    Pc,
    Down,
    Up,
    /// Of an int, of a long and of a reference.
    Save,
    Place,
    /// Of an int, of a long and of a reference.
    Restore,
    Receiver,
}

/// A built-in method that is handed out.
#[derive(Clone, Copy)]
pub enum Native {
    /// `kilim/Task.execute` of the built-in class, which does nothing.
    Execute,
    Start,
    Put,
    /// A put that waits where its mailbox is full.
    PutWait,
    /// The constructor that bounds a mailbox.
    Bound,
    Get,
    Getnb,
    /// Of an int, of a long or of a string.
    Print,
    Yield,
    ArgCount,
    Arg,
    OfFiber(Member),
}

fn of_task(name: &Units) -> Option<Native>
    ensures some { IfSome result (λ n. native_named natives (codes "kilim/Task") name.now ≡ Some (meaning n)) }
    ensures none { IfNone result (native_named natives (codes "kilim/Task") name.now ≡ None) }
{
    if name.is_text(b"start") {
        return Some(Native::Start);
    }
    if name.is_text(b"execute") {
        return Some(Native::Execute);
    }
    None
}

fn of_mailbox(name: &Units) -> Option<Native>
    ensures some { IfSome result (λ n. native_named natives (codes "kilim/Mailbox") name.now ≡ Some (meaning n)) }
    ensures none { IfNone result (native_named natives (codes "kilim/Mailbox") name.now ≡ None) }
{
    if name.is_text(b"put") {
        return Some(Native::Put);
    }
    if name.is_text(b"putw") {
        return Some(Native::PutWait);
    }
    if name.is_text(b"<init>") {
        return Some(Native::Bound);
    }
    if name.is_text(b"get") {
        return Some(Native::Get);
    }
    if name.is_text(b"getnb") {
        return Some(Native::Getnb);
    }
    None
}

fn of_sys(name: &Units) -> Option<Native>
    ensures some { IfSome result (λ n. native_named natives (codes "kilim/Sys") name.now ≡ Some (meaning n)) }
    ensures none { IfNone result (native_named natives (codes "kilim/Sys") name.now ≡ None) }
{
    if name.is_text(b"print") {
        return Some(Native::Print);
    }
    if name.is_text(b"yield") {
        return Some(Native::Yield);
    }
    if name.is_text(b"argCount") {
        return Some(Native::ArgCount);
    }
    if name.is_text(b"arg") {
        return Some(Native::Arg);
    }
    None
}

fn of_fiber(name: &Units) -> Option<Member>
    ensures some { IfSome result (λ m. native_named natives (codes "kilim/Fiber") name.now ≡ Some (a_native.OfFiber (member_meant m))) }
    ensures none { IfNone result (native_named natives (codes "kilim/Fiber") name.now ≡ None) }
{
    if name.is_text(b"pc") {
        return Some(Member::Pc);
    }
    if name.is_text(b"down") {
        return Some(Member::Down);
    }
    if name.is_text(b"up") {
        return Some(Member::Up);
    }
    if name.is_text(b"saveI") || name.is_text(b"saveJ") || name.is_text(b"saveA") {
        return Some(Member::Save);
    }
    if name.is_text(b"place") {
        return Some(Member::Place);
    }
    if name.is_text(b"restI") || name.is_text(b"restJ") || name.is_text(b"restA") {
        return Some(Member::Restore);
    }
    if name.is_text(b"receiver") {
        return Some(Member::Receiver);
    }
    None
}

fn fiber_member(name: &Units) -> Option<Native>
    ensures some { IfSome result (λ n. native_named natives (codes "kilim/Fiber") name.now ≡ Some (meaning n)) }
    ensures none { IfNone result (native_named natives (codes "kilim/Fiber") name.now ≡ None) }
{
    match of_fiber(name) {
        Some(member) => Some(Native::OfFiber(member)),
        None => None,
    }
}

fn named(class: &Units, name: &Units) -> Option<Native>
    ensures some { IfSome result (λ n. native_named natives class.now name.now ≡ Some (meaning n)) }
    ensures none { IfNone result (native_named natives class.now name.now ≡ None) }
{
    if class.is_text(b"kilim/Fiber") {
        return fiber_member(name);
    }
    if class.is_text(b"kilim/Mailbox") {
        return of_mailbox(name);
    }
    if class.is_text(b"kilim/Sys") {
        return of_sys(name);
    }
    if class.is_text(b"kilim/Task") {
        return of_task(name);
    }
    None
}

fn is_built_in_constructor(method: &Method) -> bool
    ensures { result ≡ is_built_in_constructor method.now }
{
    method.built_in && method.name.is_text(b"<init>") && method.params.is_empty()
}

fn is_reference(ty: &Ty) -> bool
    ensures { result ≡ is_reference ty.now }
{
    ty.dims > 0 || matches!(ty.base, Base::Class(_))
}

fn takes_object(params: &[Ty]) -> bool
    ensures { result ≡ takes_object params.now }
{
    params.len() == 1 && is_reference(&params[0])
}

// What the instructions do themselves with the message of an exception.
fn is_of_message(method: &Method) -> bool
    ensures { result ≡ is_of_message method.now }
{
    method.built_in
        && (method.name.is_text(b"<init>") && takes_object(method.params.as_slice())
            || method.name.is_text(b"getMessage"))
}

fn is_of(class: &Units, name: &[u8], method: &Method) -> bool
    ensures { result ≡ is_of class.now name.now method.now }
{
    method.built_in && class.is_text(name)
}

fn is_handed_out(class: &Units, method: &Method) -> bool
    ensures { result ≡ is_handed_out_of class.now method.now }
{
    method.built_in
        && !(is_built_in_constructor(method)
            || is_of(class, b"java/lang/String", method)
            || (is_of(class, b"kilim/Sys", method) && method.name.is_text(b"take"))
            || is_of_message(method))
}

/// Which built-in method it is, where it is one that is handed out.
pub fn native_of(program: &Program, id: MethodId) -> Option<Native>
    ensures some { IfSome result (λ n. native_of program.now id ≡ Some (meaning n)) }
    ensures none { IfNone result (native_of program.now id ≡ None) }
{
    let Some(method) = method_at(program, id) else {
        return None;
    };
    let Some(class) = class_at(program, method.owner) else {
        return None;
    };
    if !is_handed_out(&class.name, method) {
        return None;
    }
    named(&class.name, &method.name)
}
