//! Calls (JVMS 2.11.8), with the built-in methods that an instruction does itself.

ghost use Rattle.std.specs.Prelude.{◌≡◌, ◌≤◌, ◌<◌, ◌∷◌, [], false, true, codes, length, reverse, take, drop, option_copied, Some};
ghost use Rattle.kilim_program.specs.declared.instr.Instr.TheVariants.{Invokevirtual, Invokespecial, Invokestatic};
ghost use Rattle.kilim_program.specs.Lengths.{is_reference};
ghost use Rattle.kilim_program.specs.Names.{method_at};
ghost use Rattle.kilim_run_machine.specs.Natives.{is_built_in_constructor, is_built_in_of, is_get_message, is_handed_out, is_message_constructor, is_of_message, is_take, is_text_method, takes_object};
ghost use Rattle.kilim_run_machine.specs.Effect.{Calls, Asks, on_value, on_values, as_receiver, as_class, text_of};
ghost use Rattle.kilim_run_machine.specs.Does.{does, chosen, special, calls_method, calls_on, calls_text, gives_message, keeps_message, takes_element, is_text};
ghost use Rattle.kilim_run_interp.specs.instruction.Calls.{built_in_target, on_call, Reaches, unit_in};
ghost use Rattle.std.specs.Str.{bytes_eq};
ghost use Rattle.kilim_run_rows.specs.Types.{is_found};
ghost use Rattle.kilim_run_rows.specs.Outcome.{is_stuck, height, Shows, SameFrame};

use kilim_program::lookups::{class_at, method_at, selected};
use kilim_program::{Base, FieldId, Method, MethodId, Program, Ty, Value};
use kilim_run_rows::{Moved, index_in, is_none, read_field, type_of};
use kilim_run_state::frames::Frame;
use kilim_run_state::{EndCause, Heap};
use kilim_units::Units;

/// What a call on an object reaches.
#[derive(Clone, Copy)]
pub enum Target {
    /// The receiver is null.
    NoReceiver,
    WithCode(MethodId),
    /// A built-in method that is handed out.
    BuiltIn(MethodId),
    /// The constructor of an exception that is given the message.
    KeepsMessage,
    /// `getMessage`.
    GivesMessage,
    /// There is no such method, which no verified program has.
    Nowhere,
    NoMemory,
}

// ---- built-in methods

fn is_built_in_constructor(method: &Method) -> bool
    ensures { result ≡ is_built_in_constructor method.now }
{
    method.built_in && method.name.is_text(b"<init>") && method.params.is_empty()
}

fn is_built_in_of(program: &Program, class: &[u8], method: &Method) -> bool
    ensures { result ≡ is_built_in_of program.now class.now method.now }
{
    if !method.built_in {
        return false;
    }
    match class_at(program, method.owner) {
        Some(found) => found.name.is_text(class),
        None => class.is_empty(),
    }
}

pub(crate) fn is_text_method(program: &Program, method: &Method) -> bool
    ensures { result ≡ is_text_method program.now method.now }
{
    is_built_in_of(program, b"java/lang/String", method)
}

fn is_take(program: &Program, method: &Method) -> bool
    ensures { result ≡ is_take program.now method.now }
{
    is_built_in_of(program, b"kilim/Sys", method) && method.name.is_text(b"take")
}

fn is_reference(ty: &Ty) -> bool
    ensures { result ≡ is_reference ty.now }
{
    ty.dims > 0 || matches!(ty.base, Base::Class(_))
}

fn takes_object(params: &[Ty]) -> bool
    ensures { result ≡ takes_object params.now }
{
    params.len() == 1 && is_reference(&params[0])
}

fn is_message_constructor(method: &Method) -> bool
    ensures { result ≡ is_message_constructor method.now }
{
    method.built_in && method.name.is_text(b"<init>") && takes_object(method.params.as_slice())
}

fn is_get_message(method: &Method) -> bool
    ensures { result ≡ is_get_message method.now }
{
    method.built_in && method.name.is_text(b"getMessage")
}

pub(crate) fn is_of_message(method: &Method) -> bool
    ensures { result ≡ is_of_message method.now }
{
    is_message_constructor(method) || is_get_message(method)
}

pub(crate) fn is_handed_out(program: &Program, method: &Method) -> bool
    ensures { result ≡ is_handed_out program.now method.now }
{
    method.built_in
        && !(is_built_in_constructor(method)
            || is_text_method(program, method)
            || is_take(program, method)
            || is_of_message(method))
}

// ---- which method is called

pub(crate) fn chosen(program: &Program, named: &Method, method: MethodId, ty: Ty) -> MethodId
    ensures { result ≡ chosen program.now named.now method ty }
{
    if named.is_private || ty.dims > 0 {
        return method;
    }
    match ty.base {
        Base::Class(class) => match selected(program, class, named) {
            Some(found) => found,
            None => method,
        },
        Base::Bool | Base::Byte | Base::Char | Base::Short | Base::Int | Base::Long => method,
    }
}

fn special(program: &Program, own: &Method, named: &Method, method: MethodId) -> MethodId
    ensures { result ≡ special program.now own.now named.now method }
{
    if named.name.is_text(b"<init>") || named.owner.0 == own.owner.0 {
        return method;
    }
    let Some(class) = class_at(program, own.owner) else {
        return method;
    };
    let Some(up) = class.superclass else {
        return method;
    };
    match selected(program, up, named) {
        Some(found) => found,
        None => method,
    }
}

// What a call of a built-in method that has a receiver comes to.
fn built_in_target(id: MethodId, method: &Method) -> Target
    ensures { result ≡ built_in_target id method.now }
{
    if is_message_constructor(method) {
        return Target::KeepsMessage;
    }
    if is_get_message(method) {
        return Target::GivesMessage;
    }
    Target::BuiltIn(id)
}

fn reached(
    program: &Program,
    named: &Method,
    method: MethodId,
    receiver: &Value,
    heap: &Heap,
) -> Target
    requires { is_found receiver.now heap.now ≡ true }
    ensures { Reaches program.now named.now method receiver.now heap.now result }
{
    let Ok(class) = type_of(program, receiver, heap) else {
        return Target::NoMemory;
    };
    let Some(ty) = class else {
        return Target::NoReceiver;
    };
    let id = chosen(program, named, method, ty);
    match method_at(program, id) {
        Some(target) => {
            if target.built_in {
                built_in_target(id, target)
            } else {
                Target::WithCode(id)
            }
        }
        None => Target::Nowhere,
    }
}

// ---- methods of strings

// `length()I`
fn text_length(named: &Method, own: &Method, next: u32, frame: &mut Frame, heap: &Heap) -> Moved
    requires fine { is_stuck (on_value frame.old.stack.values (λ receiver rest. calls_text named.now [] next frame.old.locals rest heap.now receiver)) ≡ false }
    requires room { height (on_value frame.old.stack.values (λ receiver rest. calls_text named.now [] next frame.old.locals rest heap.now receiver)) ≤ frame.old.stack.room }
    ensures step { Shows own.now (on_value frame.old.stack.values (λ receiver rest. calls_text named.now [] next frame.old.locals rest heap.now receiver)) next result frame.old frame.new heap.now heap.now }
    ensures same { SameFrame frame.old frame.new }
{
    match frame.stack.pop() {
        Value::Text(units) => {
            let low = (units.len() % 4_294_967_296) as u32;
            frame.stack.push(Value::Int(low.cast_signed()));
            Moved::Next
        }
        Value::Null => Moved::Raised(EndCause::Null),
        _ => unreachable!(),
    }
}

// `equals(Ljava/lang/Object;)Z`
fn text_equals(named: &Method, own: &Method, next: u32, frame: &mut Frame, heap: &Heap) -> Moved
    requires named { bytes_eq named.now.name (codes "equals") ≡ true }
    requires fine { is_stuck (on_call 1 frame.old.stack.values (λ args receiver rest. calls_text named.now (reverse args) next frame.old.locals rest heap.now receiver)) ≡ false }
    requires room { height (on_call 1 frame.old.stack.values (λ args receiver rest. calls_text named.now (reverse args) next frame.old.locals rest heap.now receiver)) ≤ frame.old.stack.room }
    ensures step { Shows own.now (on_call 1 frame.old.stack.values (λ args receiver rest. calls_text named.now (reverse args) next frame.old.locals rest heap.now receiver)) next result frame.old frame.new heap.now heap.now }
    ensures same { SameFrame frame.old frame.new }
{
    let other = frame.stack.pop();
    match frame.stack.pop() {
        Value::Text(units) => {
            let bit = if is_same_text(&units, &other) { 1 } else { 0 };
            frame.stack.push(Value::Int(bit));
            Moved::Next
        }
        Value::Null => Moved::Raised(EndCause::Null),
        _ => unreachable!(),
    }
}

fn is_same_text(units: &Units, other: &Value) -> bool
    ensures { result ≡ is_text units.now (text_of other.now) }
{
    match other {
        Value::Text(text) => units.is_same(text),
        _ => false,
    }
}

// `charAt(I)C`
fn text_char(named: &Method, own: &Method, next: u32, frame: &mut Frame, heap: &Heap) -> Moved
    requires named { bytes_eq named.now.name (codes "equals") ≡ false }
    requires fine { is_stuck (on_call 1 frame.old.stack.values (λ args receiver rest. calls_text named.now (reverse args) next frame.old.locals rest heap.now receiver)) ≡ false }
    requires room { height (on_call 1 frame.old.stack.values (λ args receiver rest. calls_text named.now (reverse args) next frame.old.locals rest heap.now receiver)) ≤ frame.old.stack.room }
    ensures step { Shows own.now (on_call 1 frame.old.stack.values (λ args receiver rest. calls_text named.now (reverse args) next frame.old.locals rest heap.now receiver)) next result frame.old frame.new heap.now heap.now }
    ensures same { SameFrame frame.old frame.new }
{
    let other = frame.stack.pop();
    match frame.stack.pop() {
        Value::Text(units) => {
            let Value::Int(index) = other else {
                unreachable!()
            };
            match unit_at(units.as_slice(), &index) {
                Some(unit) => {
                    frame.stack.push(Value::Int(i32::from(unit)));
                    Moved::Next
                }
                None => Moved::Raised(EndCause::Index),
            }
        }
        Value::Null => Moved::Raised(EndCause::Null),
        _ => unreachable!(),
    }
}

#[inline(always)]
fn unit_at(units: &[u16], index: &i32) -> Option<u16>
    ensures { result ≡ unit_in units.now index.now }
{
    if *index < 0 {
        return None;
    }
    units.get(*index as usize).copied()
}

fn call_text(named: &Method, own: &Method, next: u32, frame: &mut Frame, heap: &Heap) -> Moved
    requires fine { is_stuck (on_call (length named.now.params) frame.old.stack.values (λ args receiver rest. calls_text named.now (reverse args) next frame.old.locals rest heap.now receiver)) ≡ false }
    requires room { height (on_call (length named.now.params) frame.old.stack.values (λ args receiver rest. calls_text named.now (reverse args) next frame.old.locals rest heap.now receiver)) ≤ frame.old.stack.room }
    ensures step { Shows own.now (on_call (length named.now.params) frame.old.stack.values (λ args receiver rest. calls_text named.now (reverse args) next frame.old.locals rest heap.now receiver)) next result frame.old frame.new heap.now heap.now }
    ensures same { SameFrame frame.old frame.new }
{
    let count = named.params.len();
    if is_none(frame.stack.peek(count)) {
        return Moved::Raised(EndCause::Null);
    }
    if count == 0 {
        text_length(named, own, next, frame, heap)
    } else if count > 1 {
        unreachable!()
    } else {
        text_of_one(named, own, next, frame, heap)
    }
}

fn text_of_one(named: &Method, own: &Method, next: u32, frame: &mut Frame, heap: &Heap) -> Moved
    requires fine { is_stuck (on_call 1 frame.old.stack.values (λ args receiver rest. calls_text named.now (reverse args) next frame.old.locals rest heap.now receiver)) ≡ false }
    requires room { height (on_call 1 frame.old.stack.values (λ args receiver rest. calls_text named.now (reverse args) next frame.old.locals rest heap.now receiver)) ≤ frame.old.stack.room }
    ensures step { Shows own.now (on_call 1 frame.old.stack.values (λ args receiver rest. calls_text named.now (reverse args) next frame.old.locals rest heap.now receiver)) next result frame.old frame.new heap.now heap.now }
    ensures same { SameFrame frame.old frame.new }
{
    if named.name.is_text(b"equals") {
        text_equals(named, own, next, frame, heap)
    } else {
        text_char(named, own, next, frame, heap)
    }
}

// ---- `kilim/Sys.take`

fn take_element(own: &Method, next: u32, frame: &mut Frame, heap: &mut Heap) -> Moved
    requires fine { is_stuck (takes_element next frame.old.locals frame.old.stack.values heap.old) ≡ false }
    requires room { height (takes_element next frame.old.locals frame.old.stack.values heap.old) ≤ frame.old.stack.room }
    ensures step { Shows own.now (takes_element next frame.old.locals frame.old.stack.values heap.old) next result frame.old frame.new heap.old heap.new }
    ensures same { SameFrame frame.old frame.new }
{
    let i = frame.stack.pop_int();
    let Some(at) = frame.stack.pop_object() else {
        return Moved::Raised(EndCause::Null);
    };
    let Some(index) = index_in(heap, at, i) else {
        return Moved::Raised(EndCause::Index);
    };
    let Ok(value) = heap.element(at, index).clone() else {
        return Moved::NoMemory;
    };
    frame.stack.push(value);
    heap.set_element(at, index, Value::Null);
    Moved::Next
}

// ---- the message of an exception

// `<init>(Ljava/lang/String;)V`
fn keep_message(count: usize, own: &Method, next: u32, frame: &mut Frame, heap: &mut Heap) -> Moved
    requires fine { is_stuck (on_call count frame.old.stack.values (λ args receiver rest. keeps_message (receiver ∷ reverse args) next frame.old.locals rest heap.old)) ≡ false }
    requires room { height (on_call count frame.old.stack.values (λ args receiver rest. keeps_message (receiver ∷ reverse args) next frame.old.locals rest heap.old)) ≤ frame.old.stack.room }
    ensures step { Shows own.now (on_call count frame.old.stack.values (λ args receiver rest. keeps_message (receiver ∷ reverse args) next frame.old.locals rest heap.old)) next result frame.old frame.new heap.old heap.new }
    ensures same { SameFrame frame.old frame.new }
{
    if count != 1 {
        unreachable!()
    }
    keep_one(own, next, frame, heap)
}

fn keep_one(own: &Method, next: u32, frame: &mut Frame, heap: &mut Heap) -> Moved
    requires fine { is_stuck (on_call 1 frame.old.stack.values (λ args receiver rest. keeps_message (receiver ∷ reverse args) next frame.old.locals rest heap.old)) ≡ false }
    requires room { height (on_call 1 frame.old.stack.values (λ args receiver rest. keeps_message (receiver ∷ reverse args) next frame.old.locals rest heap.old)) ≤ frame.old.stack.room }
    ensures step { Shows own.now (on_call 1 frame.old.stack.values (λ args receiver rest. keeps_message (receiver ∷ reverse args) next frame.old.locals rest heap.old)) next result frame.old frame.new heap.old heap.new }
    ensures same { SameFrame frame.old frame.new }
{
    let message = frame.stack.pop();
    let Some(at) = frame.stack.pop_object() else {
        return Moved::Raised(EndCause::Null);
    };
    heap.set_field(at, FieldId(0), message);
    Moved::Next
}

// `getMessage()Ljava/lang/String;`: it reads the field.
#[tactic(auto, unfolding(kilim_run_machine::specs::Does::does))]
fn give_message(
    count: usize,
    program: &Program,
    own: &Method,
    next: u32,
    frame: &mut Frame,
    heap: &Heap,
) -> Moved
    requires fine { is_stuck (on_call count frame.old.stack.values (λ args receiver rest. gives_message (receiver ∷ reverse args) next frame.old.locals rest heap.now)) ≡ false }
    requires room { height (on_call count frame.old.stack.values (λ args receiver rest. gives_message (receiver ∷ reverse args) next frame.old.locals rest heap.now)) ≤ frame.old.stack.room }
    ensures step { Shows own.now (on_call count frame.old.stack.values (λ args receiver rest. gives_message (receiver ∷ reverse args) next frame.old.locals rest heap.now)) next result frame.old frame.new heap.now heap.now }
    ensures same { SameFrame frame.old frame.new }
{
    if count != 0 {
        unreachable!()
    }
    read_field(FieldId(0), program, own, next, frame, heap)
}

// ---- the instructions

/// `invokestatic`.
#[tactic(auto, unfolding(kilim_run_machine::specs::Does::does))]
#[inline(always)]
pub fn call_static(
    method: MethodId,
    program: &Program,
    own: &Method,
    next: u32,
    frame: &mut Frame,
    heap: &mut Heap,
) -> Moved
    requires fine { is_stuck (does program.now own.now (Invokestatic method) next frame.old.locals frame.old.stack.values heap.old) ≡ false }
    requires room { height (does program.now own.now (Invokestatic method) next frame.old.locals frame.old.stack.values heap.old) ≤ frame.old.stack.room }
    ensures step { Shows own.now (does program.now own.now (Invokestatic method) next frame.old.locals frame.old.stack.values heap.old) next result frame.old frame.new heap.old heap.new }
    ensures same { SameFrame frame.old frame.new }
{
    let Some(named) = method_at(program, method) else {
        unreachable!()
    };
    let count = named.params.len();
    if is_handed_out(program, named) {
        return Moved::Asked(method, count);
    }
    if named.built_in {
        return take_element(own, next, frame, heap);
    }
    Moved::Called(method, count)
}

/// `invokespecial`.
#[tactic(auto, unfolding(kilim_run_machine::specs::Does::does))]
#[inline(always)]
pub fn call_special(
    method: MethodId,
    program: &Program,
    own: &Method,
    next: u32,
    frame: &mut Frame,
    heap: &mut Heap,
) -> Moved
    requires fine { is_stuck (does program.now own.now (Invokespecial method) next frame.old.locals frame.old.stack.values heap.old) ≡ false }
    requires room { height (does program.now own.now (Invokespecial method) next frame.old.locals frame.old.stack.values heap.old) ≤ frame.old.stack.room }
    ensures step { Shows own.now (does program.now own.now (Invokespecial method) next frame.old.locals frame.old.stack.values heap.old) next result frame.old frame.new heap.old heap.new }
    ensures same { SameFrame frame.old frame.new }
{
    let Some(named) = method_at(program, method) else {
        unreachable!()
    };
    if is_built_in_constructor(named) {
        return match frame.stack.pop() {
            Value::Null => Moved::Raised(EndCause::Null),
            _ => Moved::Next,
        };
    }
    call_named(method, named, program, own, next, frame, heap)
}

/// `invokevirtual`.
#[tactic(auto, unfolding(kilim_run_machine::specs::Does::does))]
#[inline(always)]
pub fn call_virtual(
    method: MethodId,
    program: &Program,
    own: &Method,
    next: u32,
    frame: &mut Frame,
    heap: &mut Heap,
) -> Moved
    requires fine { is_stuck (does program.now own.now (Invokevirtual method) next frame.old.locals frame.old.stack.values heap.old) ≡ false }
    requires room { height (does program.now own.now (Invokevirtual method) next frame.old.locals frame.old.stack.values heap.old) ≤ frame.old.stack.room }
    ensures step { Shows own.now (does program.now own.now (Invokevirtual method) next frame.old.locals frame.old.stack.values heap.old) next result frame.old frame.new heap.old heap.new }
    ensures same { SameFrame frame.old frame.new }
{
    let Some(named) = method_at(program, method) else {
        unreachable!()
    };
    if is_text_method(program, named) {
        return call_text(named, own, next, frame, heap);
    }
    call_chosen(method, named, program, own, next, frame, heap)
}

// `invokespecial` of another method than a built-in constructor.
fn call_named(
    method: MethodId,
    named: &Method,
    program: &Program,
    own: &Method,
    next: u32,
    frame: &mut Frame,
    heap: &mut Heap,
) -> Moved
    requires there { method_at program.now method ≡ Some named.now }
    requires other { is_built_in_constructor named.now ≡ false }
    requires fine { is_stuck (does program.now own.now (Invokespecial method) next frame.old.locals frame.old.stack.values heap.old) ≡ false }
    requires room { height (does program.now own.now (Invokespecial method) next frame.old.locals frame.old.stack.values heap.old) ≤ frame.old.stack.room }
    ensures step { Shows own.now (does program.now own.now (Invokespecial method) next frame.old.locals frame.old.stack.values heap.old) next result frame.old frame.new heap.old heap.new }
    ensures same { SameFrame frame.old frame.new }
{
    let count = named.params.len();
    let height = frame.stack.len();
    if count >= height {
        unreachable!()
    }
    if is_none(frame.stack.peek(count)) {
        return Moved::Raised(EndCause::Null);
    }
    let id = special(program, own, named, method);
    let Some(target) = method_at(program, id) else {
        unreachable!()
    };
    if !target.built_in {
        return Moved::Called(id, count + 1);
    }
    if is_message_constructor(target) {
        return keep_message(count, own, next, frame, heap);
    }
    if is_get_message(target) {
        return give_message(count, program, own, next, frame, heap);
    }
    Moved::Asked(id, count + 1)
}

// `invokevirtual` of a method of no string.
fn call_chosen(
    method: MethodId,
    named: &Method,
    program: &Program,
    own: &Method,
    next: u32,
    frame: &mut Frame,
    heap: &mut Heap,
) -> Moved
    requires there { method_at program.now method ≡ Some named.now }
    requires other { is_text_method program.now named.now ≡ false }
    requires fine { is_stuck (does program.now own.now (Invokevirtual method) next frame.old.locals frame.old.stack.values heap.old) ≡ false }
    requires room { height (does program.now own.now (Invokevirtual method) next frame.old.locals frame.old.stack.values heap.old) ≤ frame.old.stack.room }
    ensures step { Shows own.now (does program.now own.now (Invokevirtual method) next frame.old.locals frame.old.stack.values heap.old) next result frame.old frame.new heap.old heap.new }
    ensures same { SameFrame frame.old frame.new }
{
    let count = named.params.len();
    let height = frame.stack.len();
    if count >= height {
        unreachable!()
    }
    match reached(program, named, method, frame.stack.peek(count), heap) {
        Target::WithCode(id) => Moved::Called(id, count + 1),
        Target::BuiltIn(id) => Moved::Asked(id, count + 1),
        Target::KeepsMessage => keep_message(count, own, next, frame, heap),
        Target::GivesMessage => give_message(count, program, own, next, frame, heap),
        Target::NoReceiver => Moved::Raised(EndCause::Null),
        Target::Nowhere => unreachable!(),
        Target::NoMemory => Moved::NoMemory,
    }
}
