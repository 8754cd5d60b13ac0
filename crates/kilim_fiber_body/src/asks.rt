//! A built-in method that is called.

ghost use Rattle.std.specs.Prelude.{◌≡◌, ◌<◌, ◌+◌, ◌^◌, ◌∷◌, [], false, true, length, Some, None, IfOk, OnOk};
ghost use Rattle.kilim_program.specs.declared.value.Value.TheVariants as a_value;
ghost use Rattle.kilim_run_machine.specs.Natives as a_native;
ghost use Rattle.kilim_program.specs.Program.{Program as AProgram};
ghost use Rattle.kilim_run_machine.specs.Natives.{native_of};
ghost use Rattle.kilim_run_state.specs.frames.Calls.{answered};
ghost use Rattle.kilim_run_state.specs.Shapes.{shape_of};
ghost use Rattle.kilim_run_machine.specs.Raising.{other_index, raised_class, unwound};
ghost use Rattle.kilim_run_interp.specs.Catching.{IsRaised};
ghost use Rattle.kilim_run_interp.specs.Step.{AreRoomy};
ghost use Rattle.kilim_run_model.specs.State.{Setting};
ghost use Rattle.kilim_run_model.specs.Lone.{narrowed, arg_at, printed};
ghost use Rattle.kilim_fiber_laws.specs.woven_kin.Nexts.{Goes, Stands, counted, with_result, arg_next, bound_next, get_next, print_next, put_next, put_wait_next, putw_next, message_next, raised, start_next, wait_again, wait_next, native_next, asks_next, yield_next, spent_or};
ghost use Rattle.kilim_fiber_spec.specs.Fibers.{is_rewinding};
ghost use Rattle.kilim_fiber_body.specs.Body.{aside_in, standing_at, behind_at, operands_in, RoomyIn, RoomIn, HasFrames, HasOperands};
ghost use Rattle.kilim_fiber_body.specs.Comes.{CanGive, IsGivenBy, IsMade, CanAsk, Comes, ComesBy, HasRoomFor, IsNear, is_other};
ghost use Rattle.kilim_fiber_body.specs.Operands.{AreCopies};
ghost use Rattle.kilim_fiber_steps.specs.records.natives.Natives.{meaning};

use crate::body::{Apart, Body, Came};
use crate::code::Code;
use crate::gifts::{Gift, take_gift};
use crate::members::{ask_member, pass_on};
use crate::operands::{Operands, copy_operands};
use crate::pass::{give, pass};
use kilim_fiber_steps::records::natives::Native;
use kilim_program::{BoxName, MethodId, Program, Value};
use kilim_run_interp::{raise_behind, raised_class};
use kilim_run_state::frames::Frames;
use kilim_run_state::{EndCause, Heap, Limits, Shape, Token};
use kilim_units::{NoMemory, Seq, unmet};
use std::alloc::Global;
use std::mem::replace;

/// It goes on behind a method without a result.
pub fn go_on(program: &Program, body: &mut Body)
    requires frames { HasFrames body.old.frames }
    requires roomy { RoomyIn program.now body.old.frames }
    requires counts { body.old.count + 1 < 2 ^ 64 }
    ensures stands { standing_at 0 body.new ≡ counted (behind_at 0 body.old) }
    ensures roomy { RoomyIn program.now body.new.frames }
    ensures counted { body.new.count ≡ body.old.count + 1 }
{
    let Some(frames) = &mut body.frames else {
        unreachable!()
    };
    pass(program, frames);
    body.count += 1;
}

/// It goes on behind a method with a result.
pub fn go_on_with(program: &Program, body: &mut Body, value: Value)
    requires roomy { RoomyIn program.now body.old.frames }
    requires room { RoomIn program.now body.old.frames }
    requires counts { body.old.count + 1 < 2 ^ 64 }
    ensures stands { standing_at 0 body.new ≡ with_result (Some value) (counted (behind_at 0 body.old)) }
    ensures roomy { RoomyIn program.now body.new.frames }
    ensures counted { body.new.count ≡ body.old.count + 1 }
{
    let Some(frames) = &mut body.frames else {
        unreachable!()
    };
    give(program, frames, value);
    body.count += 1;
}

// The low 32 bits as a signed number.
fn narrowed(n: usize) -> i32
    ensures { result ≡ narrowed n }
{
    let low = (n % 4_294_967_296) as u32;
    low.cast_signed()
}

// `argCount`
fn count_args(program: &Program, limits: &Limits, body: &mut Body) -> Came
    requires roomy { RoomyIn program.now body.old.frames }
    requires room { RoomIn program.now body.old.frames }
    requires counts { body.old.count + 1 < 2 ^ 64 }
    ensures comes { Comes 0 (Goes (with_result (Some (a_value.Int (narrowed (length limits.now.args)))) (counted (behind_at 0 body.old)))) body.new result }
    ensures roomy { RoomyIn program.now body.new.frames }
    ensures counted { IsNear body.old.count body.new.count }
    ensures room { HasRoomFor program.now body.new result }
{
    go_on_with(program, body, Value::Int(narrowed(limits.args.len())));
    Came::On
}

// The number of an index among the arguments.
fn arg_at(args: &Seq<i32>, index: &i32) -> Option<i32>
    ensures { result ≡ arg_at args.now index.now }
{
    match usize::try_from(*index) {
        Ok(at) => args.as_slice().get(at).copied(),
        Err(_) => None,
    }
}

// What is raised by a built-in method that was handed out goes to the frame that catches it, as a new object: its name.
fn raise_past(
    alloc: Global,
    program: &Program,
    cause: EndCause,
    frames: &mut Frames,
    heap: &mut Heap,
) -> Result<Option<u32>, NoMemory>
    requires { AreRoomy program.now frames.old }
    ensures roomy { OnOk result (AreRoomy program.now frames.new) }
    ensures raised { IfOk result (λ name. IsRaised program.now (raised_class program.now other_index cause) (λ c v. unwound program.now c v (answered frames.old)) name frames.new heap.old heap.new) }
{
    let Ok(class) = raised_class(program, b"java/lang/IndexOutOfBoundsException", cause) else {
        return Err(NoMemory);
    };
    raise_behind(alloc, program, class, frames, heap)
}

// It goes on at the handler of what a built-in method that was handed out raises, or ends.
fn raise_called(
    alloc: Global,
    program: &Program,
    cause: EndCause,
    body: &mut Body,
) -> Result<Came, NoMemory>
    requires frames { HasFrames body.old.frames }
    requires roomy { RoomyIn program.now body.old.frames }
    requires counts { body.old.count + 1 < 2 ^ 64 }
    ensures comes { IfOk result (λ came. ComesBy body.old.heap (λ x. raised program.now (behind_at x body.old) cause) body.new came) }
    ensures roomy { OnOk result (RoomyIn program.now body.new.frames) }
    ensures counted { OnOk result (IsNear body.old.count body.new.count) }
    ensures room { IfOk result (λ came. HasRoomFor program.now body.new came) }
{
    let Some(frames) = &mut body.frames else {
        unreachable!()
    };
    let Ok(caught) = raise_past(alloc, program, cause, frames, &mut body.heap) else {
        return Err(NoMemory);
    };
    match caught {
        Some(name) => {
            let _name = name;
            body.count += 1;
            Ok(Came::On)
        }
        None => Ok(Came::Ends(cause)),
    }
}

// `arg`
fn arg(
    alloc: Global,
    program: &Program,
    limits: &Limits,
    index: &i32,
    body: &mut Body,
) -> Result<Came, NoMemory>
    requires frames { HasFrames body.old.frames }
    requires roomy { RoomyIn program.now body.old.frames }
    requires room { RoomIn program.now body.old.frames }
    requires counts { body.old.count + 1 < 2 ^ 64 }
    ensures comes { IfOk result (λ came. ComesBy body.old.heap (λ x. arg_next program.now (behind_at x body.old) (arg_at limits.now.args index.now)) body.new came) }
    ensures roomy { OnOk result (RoomyIn program.now body.new.frames) }
    ensures counted { OnOk result (IsNear body.old.count body.new.count) }
    ensures room { IfOk result (λ came. HasRoomFor program.now body.new came) }
{
    match arg_at(&limits.args, index) {
        Some(number) => {
            go_on_with(program, body, Value::Int(number));
            Ok(Came::On)
        }
        None => raise_called(alloc, program, EndCause::Index, body),
    }
}

// The token of a printed value; other values aren't printed in verified code.
fn printed(value: &Value) -> Result<Token, NoMemory>
    requires { printed value.now ≡ None → ⊥ }
    ensures { IfOk result (λ token. printed value.now ≡ Some token) }
{
    match value {
        Value::Int(n) => Ok(Token::Int(*n)),
        Value::Long(n) => Ok(Token::Long(*n)),
        Value::Null => Ok(Token::Null),
        Value::Text(units) => Ok(Token::Text(units.clone()?)),
        Value::Ref(_) | Value::Box(_) | Value::Fiber => unreachable!(),
    }
}

fn one_token(alloc: Global, token: Token) -> Result<Shape, NoMemory>
    ensures { IfOk result (λ shape. shape ≡ token ∷ []) }
{
    let mut shape = Seq::new(alloc);
    let Ok(()) = shape.push(token) else {
        return Err(NoMemory);
    };
    Ok(shape)
}

// `print`
fn print(alloc: Global, program: &Program, value: &Value, body: &Body) -> Result<Came, NoMemory>
    requires frames { HasFrames body.now.frames }
    requires made { printed value.now ≡ None → ⊥ }
    ensures comes { IfOk result (λ came. Comes 0 (print_next (behind_at 0 body.now) (printed value.now)) body.now came) }
    ensures room { IfOk result (λ came. HasRoomFor program.now body.now came) }
{
    let _ = program;
    let _ = body;
    let Ok(token) = printed(value) else {
        return Err(NoMemory);
    };
    match one_token(alloc, token) {
        Ok(shape) => Ok(Came::Prints(shape)),
        Err(fault) => Err(fault),
    }
}

// `put` of a message
fn put_tree(
    alloc: Global,
    plain: &Program,
    program: &Program,
    mailbox: BoxName,
    root: u32,
    body: &mut Body,
) -> Result<Came, NoMemory>
    requires frames { HasFrames body.old.frames }
    requires roomy { RoomyIn program.now body.old.frames }
    requires gives { CanGive plain.now body.old.heap root }
    ensures comes { IfOk result (λ came. Comes 0 (put_next (behind_at 0 body.old) mailbox root (shape_of plain.now body.old.heap root)) body.new came) }
    ensures roomy { OnOk result (RoomyIn program.now body.new.frames) }
    ensures counted { OnOk result (IsNear body.old.count body.new.count) }
    ensures room { IfOk result (λ came. HasRoomFor program.now body.new came) }
{
    match take_gift(alloc, plain, root, &mut body.heap) {
        Ok(Gift::Tree(tree, shape)) => Ok(Came::Puts(mailbox, tree, shape)),
        Ok(Gift::TooLarge) => Ok(Came::Ends(EndCause::Large)),
        Err(fault) => Err(fault),
    }
}

// `put`
fn put(
    alloc: Global,
    plain: &Program,
    program: &Program,
    mailbox: BoxName,
    message: &Value,
    body: &mut Body,
) -> Result<Came, NoMemory>
    requires frames { HasFrames body.old.frames }
    requires roomy { RoomyIn program.now body.old.frames }
    requires counts { body.old.count + 1 < 2 ^ 64 }
    requires made { (p : AProgram) × (message_next p program.now (behind_at 0 body.old) mailbox message.now ≡ Stands → ⊥) }
    requires gives { IsGivenBy plain.now body.old.heap message.now }
    ensures comes { IfOk result (λ came. ComesBy body.old.heap (λ x. message_next plain.now program.now (behind_at x body.old) mailbox message.now) body.new came) }
    ensures roomy { OnOk result (RoomyIn program.now body.new.frames) }
    ensures counted { OnOk result (IsNear body.old.count body.new.count) }
    ensures room { IfOk result (λ came. HasRoomFor program.now body.new came) }
{
    match message {
        Value::Null => raise_called(alloc, program, EndCause::Null, body),
        Value::Ref(root) => put_tree(alloc, plain, program, mailbox, *root, body),
        _ => unreachable!(),
    }
}

// `putw` of a message, which leaves the heap at once
fn put_wait_tree(
    alloc: Global,
    plain: &Program,
    program: &Program,
    mailbox: BoxName,
    root: u32,
    body: &mut Body,
) -> Result<Came, NoMemory>
    requires frames { HasFrames body.old.frames }
    requires roomy { RoomyIn program.now body.old.frames }
    requires gives { CanGive plain.now body.old.heap root }
    ensures comes { IfOk result (λ came. Comes 0 (put_wait_next plain.now (behind_at 0 body.old) mailbox root (shape_of plain.now body.old.heap root)) body.new came) }
    ensures roomy { OnOk result (RoomyIn program.now body.new.frames) }
    ensures counted { OnOk result (IsNear body.old.count body.new.count) }
    ensures room { IfOk result (λ came. HasRoomFor program.now body.new came) }
{
    match take_gift(alloc, plain, root, &mut body.heap) {
        Ok(Gift::Tree(tree, shape)) => Ok(Came::PutWaits(mailbox, tree, shape)),
        Ok(Gift::TooLarge) => Ok(Came::Ends(EndCause::Large)),
        Err(fault) => Err(fault),
    }
}

// `putw`, where it isn't made again
fn put_wait(
    alloc: Global,
    plain: &Program,
    program: &Program,
    mailbox: BoxName,
    message: &Value,
    body: &mut Body,
) -> Result<Came, NoMemory>
    requires frames { HasFrames body.old.frames }
    requires roomy { RoomyIn program.now body.old.frames }
    requires counts { body.old.count + 1 < 2 ^ 64 }
    requires made { (p : AProgram) × (wait_next p program.now (behind_at 0 body.old) mailbox message.now ≡ Stands → ⊥) }
    requires gives { IsGivenBy plain.now body.old.heap message.now }
    ensures comes { IfOk result (λ came. ComesBy body.old.heap (λ x. wait_next plain.now program.now (behind_at x body.old) mailbox message.now) body.new came) }
    ensures roomy { OnOk result (RoomyIn program.now body.new.frames) }
    ensures counted { OnOk result (IsNear body.old.count body.new.count) }
    ensures room { IfOk result (λ came. HasRoomFor program.now body.new came) }
{
    match message {
        Value::Null => raise_called(alloc, program, EndCause::Null, body),
        Value::Ref(root) => put_wait_tree(alloc, plain, program, mailbox, *root, body),
        _ => unreachable!(),
    }
}

// `putw`, made again: its tree is what stands apart.
fn put_again(program: &Program, limits: &Limits, mailbox: BoxName, body: &mut Body) -> Came
    requires frames { HasFrames body.old.frames }
    requires roomy { RoomyIn program.now body.old.frames }
    requires waits { body.old.apart ≡ None → ⊥ }
    ensures comes { (set : Setting) → set.limits ≡ limits.now → Comes 0 (wait_again set (behind_at 0 body.old) (a_value.Box mailbox) (aside_in body.old.apart)) body.new result }
    ensures roomy { RoomyIn program.now body.new.frames }
    ensures counted { IsNear body.old.count body.new.count }
    ensures room { HasRoomFor program.now body.new result }
{
    let _ = program;
    let Some(apart) = replace(&mut body.apart, None) else {
        unreachable!()
    };
    if body.count >= limits.steps {
        drop(apart);
        return Came::Ends(EndCause::Spent);
    }
    let Apart { tree, shape } = apart;
    Came::PutWaits(mailbox, tree, shape)
}

// `putw`, where it isn't made again: a task that has done its instructions puts nothing any more.
fn put_first(
    alloc: Global,
    plain: &Program,
    program: &Program,
    limits: &Limits,
    receiver: &Value,
    message: &Value,
    body: &mut Body,
) -> Result<Came, NoMemory>
    requires frames { HasFrames body.old.frames }
    requires roomy { RoomyIn program.now body.old.frames }
    requires counts { body.old.count + 1 < 2 ^ 64 }
    requires forward { is_rewinding body.old.records ≡ false }
    requires can { CanAsk plain.now program.now limits.now (Some a_native.PutWait) (receiver.now ∷ message.now ∷ a_value.Fiber ∷ []) body.old }
    ensures comes { (set : Setting) → set.program ≡ plain.now → set.limits ≡ limits.now → IfOk result (λ came. ComesBy body.old.heap (λ x. putw_next set program.now (is_rewinding body.old.records) (behind_at x body.old) receiver.now message.now) body.new came) }
    ensures roomy { OnOk result (RoomyIn program.now body.new.frames) }
    ensures counted { OnOk result (IsNear body.old.count body.new.count) }
    ensures room { IfOk result (λ came. HasRoomFor program.now body.new came) }
{
    if body.count >= limits.steps {
        return Ok(Came::Ends(EndCause::Spent));
    }
    match receiver {
        Value::Box(mailbox) => put_wait(alloc, plain, program, *mailbox, message, body),
        _ => unreachable!(),
    }
}

// `putw`
fn put_or_wait(
    alloc: Global,
    plain: &Program,
    program: &Program,
    limits: &Limits,
    receiver: &Value,
    message: &Value,
    body: &mut Body,
) -> Result<Came, NoMemory>
    requires frames { HasFrames body.old.frames }
    requires roomy { RoomyIn program.now body.old.frames }
    requires counts { body.old.count + 1 < 2 ^ 64 }
    requires can { CanAsk plain.now program.now limits.now (Some a_native.PutWait) (receiver.now ∷ message.now ∷ a_value.Fiber ∷ []) body.old }
    ensures comes { (set : Setting) → set.program ≡ plain.now → set.limits ≡ limits.now → IfOk result (λ came. ComesBy body.old.heap (λ x. putw_next set program.now (is_rewinding body.old.records) (behind_at x body.old) receiver.now message.now) body.new came) }
    ensures roomy { OnOk result (RoomyIn program.now body.new.frames) }
    ensures counted { OnOk result (IsNear body.old.count body.new.count) }
    ensures room { IfOk result (λ came. HasRoomFor program.now body.new came) }
{
    if !body.records.is_rewinding() {
        return put_first(alloc, plain, program, limits, receiver, message, body);
    }
    match receiver {
        Value::Box(mailbox) => Ok(put_again(program, limits, *mailbox, body)),
        _ => unreachable!(),
    }
}

// `Mailbox(int)`: a bound is one or more.
fn bound(
    alloc: Global,
    program: &Program,
    mailbox: BoxName,
    most: &i32,
    body: &mut Body,
) -> Result<Came, NoMemory>
    requires frames { HasFrames body.old.frames }
    requires roomy { RoomyIn program.now body.old.frames }
    requires counts { body.old.count + 1 < 2 ^ 64 }
    ensures comes { IfOk result (λ came. ComesBy body.old.heap (λ x. bound_next program.now (behind_at x body.old) mailbox most.now) body.new came) }
    ensures roomy { OnOk result (RoomyIn program.now body.new.frames) }
    ensures counted { OnOk result (IsNear body.old.count body.new.count) }
    ensures room { IfOk result (λ came. HasRoomFor program.now body.new came) }
{
    match u32::try_from(*most) {
        Ok(0) => raise_called(alloc, program, EndCause::Size, body),
        Ok(number) => Ok(Came::Bounds(mailbox, number)),
        Err(_) => raise_called(alloc, program, EndCause::Size, body),
    }
}

// `start`
fn start(
    alloc: Global,
    plain: &Program,
    program: &Program,
    root: u32,
    body: &mut Body,
) -> Result<Came, NoMemory>
    requires frames { HasFrames body.old.frames }
    requires roomy { RoomyIn program.now body.old.frames }
    requires gives { CanGive plain.now body.old.heap root }
    ensures comes { IfOk result (λ came. Comes 0 (start_next (behind_at 0 body.old) root (shape_of plain.now body.old.heap root)) body.new came) }
    ensures roomy { OnOk result (RoomyIn program.now body.new.frames) }
    ensures counted { OnOk result (IsNear body.old.count body.new.count) }
    ensures room { IfOk result (λ came. HasRoomFor program.now body.new came) }
{
    match take_gift(alloc, plain, root, &mut body.heap) {
        Ok(Gift::Tree(tree, shape)) => Ok(Came::Starts(tree, shape)),
        Ok(Gift::TooLarge) => Ok(Came::Ends(EndCause::Large)),
        Err(fault) => Err(fault),
    }
}

// `yield`: made again it returns; one that is made counts, and pauses.
fn yield_now(alloc: Global, program: &Program, body: &mut Body) -> Came
    requires frames { HasFrames body.old.frames }
    requires roomy { RoomyIn program.now body.old.frames }
    requires counts { body.old.count + 1 < 2 ^ 64 }
    ensures comes { Comes 0 (yield_next (is_rewinding body.old.records) (behind_at 0 body.old)) body.new result }
    ensures roomy { RoomyIn program.now body.new.frames }
    ensures counted { IsNear body.old.count body.new.count }
    ensures room { HasRoomFor program.now body.new result }
{
    if body.records.is_rewinding() {
        body.records.end_rewinding(alloc);
        pass_on(program, body);
    } else {
        body.records.pause(alloc, Value::Null);
        go_on(program, body);
    }
    Came::On
}

// A static method without parameters.
fn ask_of_none(
    plain: &Program,
    program: &Program,
    limits: &Limits,
    native: Native,
    body: &mut Body,
) -> Result<Came, NoMemory>
    requires frames { HasFrames body.old.frames }
    requires roomy { RoomyIn program.now body.old.frames }
    requires counts { body.old.count + 1 < 2 ^ 64 }
    requires other { is_other native ≡ true }
    requires can { CanAsk plain.now program.now limits.now (Some (meaning native)) [] body.old }
    ensures comes { (set : Setting) → set.program ≡ plain.now → set.limits ≡ limits.now → IfOk result (λ came. Comes 0 (native_next set program.now (behind_at 0 body.old) (meaning native) []) body.new came) }
    ensures roomy { OnOk result (RoomyIn program.now body.new.frames) }
    ensures counted { OnOk result (IsNear body.old.count body.new.count) }
    ensures room { IfOk result (λ came. HasRoomFor program.now body.new came) }
{
    match native {
        Native::ArgCount => Ok(count_args(program, limits, body)),
        _ => unreachable!(),
    }
}

// A method that has the fiber alone.
fn ask_of_fiber(
    alloc: Global,
    plain: &Program,
    program: &Program,
    limits: &Limits,
    native: Native,
    body: &mut Body,
) -> Result<Came, NoMemory>
    requires frames { HasFrames body.old.frames }
    requires roomy { RoomyIn program.now body.old.frames }
    requires counts { body.old.count + 1 < 2 ^ 64 }
    requires other { is_other native ≡ true }
    requires can { CanAsk plain.now program.now limits.now (Some (meaning native)) (a_value.Fiber ∷ []) body.old }
    ensures comes { (set : Setting) → set.program ≡ plain.now → IfOk result (λ came. Comes 0 (native_next set program.now (behind_at 0 body.old) (meaning native) (a_value.Fiber ∷ [])) body.new came) }
    ensures roomy { OnOk result (RoomyIn program.now body.new.frames) }
    ensures counted { OnOk result (IsNear body.old.count body.new.count) }
    ensures room { IfOk result (λ came. HasRoomFor program.now body.new came) }
{
    match native {
        Native::Yield => Ok(yield_now(alloc, program, body)),
        _ => unreachable!(),
    }
}

// A method of one argument, which may be its receiver.
fn ask_of_one(
    alloc: Global,
    plain: &Program,
    program: &Program,
    limits: &Limits,
    native: Native,
    value: &Value,
    body: &mut Body,
) -> Result<Came, NoMemory>
    requires frames { HasFrames body.old.frames }
    requires roomy { RoomyIn program.now body.old.frames }
    requires counts { body.old.count + 1 < 2 ^ 64 }
    requires unlike { value.now ≡ a_value.Fiber → ⊥ }
    requires other { is_other native ≡ true }
    requires can { CanAsk plain.now program.now limits.now (Some (meaning native)) (value.now ∷ []) body.old }
    ensures comes { (set : Setting) → set.program ≡ plain.now → set.limits ≡ limits.now → IfOk result (λ came. ComesBy body.old.heap (λ x. native_next set program.now (behind_at x body.old) (meaning native) (value.now ∷ [])) body.new came) }
    ensures roomy { OnOk result (RoomyIn program.now body.new.frames) }
    ensures counted { OnOk result (IsNear body.old.count body.new.count) }
    ensures room { IfOk result (λ came. HasRoomFor program.now body.new came) }
{
    match native {
        Native::Start => match value {
            Value::Ref(root) => start(alloc, plain, program, *root, body),
            _ => unreachable!(),
        },
        Native::Getnb => match value {
            Value::Box(mailbox) => Ok(Came::Probes(*mailbox)),
            _ => unreachable!(),
        },
        Native::Print => print(alloc, program, value, body),
        Native::Arg => match value {
            Value::Int(index) => arg(alloc, program, limits, index, body),
            _ => unreachable!(),
        },
        _ => unreachable!(),
    }
}

// A method of one argument with the fiber behind it.
fn ask_with_fiber(
    plain: &Program,
    program: &Program,
    limits: &Limits,
    native: Native,
    value: &Value,
    body: &mut Body,
) -> Result<Came, NoMemory>
    requires frames { HasFrames body.old.frames }
    requires roomy { RoomyIn program.now body.old.frames }
    requires counts { body.old.count + 1 < 2 ^ 64 }
    requires other { is_other native ≡ true }
    requires can { CanAsk plain.now program.now limits.now (Some (meaning native)) (value.now ∷ a_value.Fiber ∷ []) body.old }
    ensures comes { (set : Setting) → set.program ≡ plain.now → set.limits ≡ limits.now → IfOk result (λ came. Comes 0 (native_next set program.now (behind_at 0 body.old) (meaning native) (value.now ∷ a_value.Fiber ∷ [])) body.new came) }
    ensures roomy { OnOk result (RoomyIn program.now body.new.frames) }
    ensures counted { OnOk result (IsNear body.old.count body.new.count) }
    ensures room { IfOk result (λ came. HasRoomFor program.now body.new came) }
{
    match (native, value) {
        (Native::Execute, Value::Ref(_)) => {
            go_on(program, body);
            Ok(Came::On)
        }
        (Native::Get, _) => Ok(takes(program, limits, value, body)),
        _ => unreachable!(),
    }
}

// `get`: a task that has done its instructions takes nothing any more.
fn takes(program: &Program, limits: &Limits, value: &Value, body: &Body) -> Came
    requires room { RoomIn program.now body.now.frames }
    requires made { IsMade program.now limits.now (behind_at 0 body.now) (value.now ∷ a_value.Fiber ∷ []) (Some a_native.Get) }
    ensures comes { (set : Setting) → set.limits ≡ limits.now → Comes 0 (spent_or set true body.now.count (get_next (behind_at 0 body.now) value.now)) body.now result }
    ensures room { HasRoomFor program.now body.now result }
{
    let _ = program;
    if body.count >= limits.steps {
        return Came::Ends(EndCause::Spent);
    }
    match value {
        Value::Box(mailbox) => Came::Takes(*mailbox),
        _ => unreachable!(),
    }
}

// A method of two arguments.
fn ask_of_two(
    alloc: Global,
    plain: &Program,
    program: &Program,
    limits: &Limits,
    native: Native,
    first: &Value,
    second: &Value,
    body: &mut Body,
) -> Result<Came, NoMemory>
    requires frames { HasFrames body.old.frames }
    requires roomy { RoomyIn program.now body.old.frames }
    requires counts { body.old.count + 1 < 2 ^ 64 }
    requires other { is_other native ≡ true }
    requires unlike { second.now ≡ a_value.Fiber → ⊥ }
    requires can { CanAsk plain.now program.now limits.now (Some (meaning native)) (first.now ∷ second.now ∷ []) body.old }
    ensures comes { (set : Setting) → set.program ≡ plain.now → IfOk result (λ came. ComesBy body.old.heap (λ x. native_next set program.now (behind_at x body.old) (meaning native) (first.now ∷ second.now ∷ [])) body.new came) }
    ensures roomy { OnOk result (RoomyIn program.now body.new.frames) }
    ensures counted { OnOk result (IsNear body.old.count body.new.count) }
    ensures room { IfOk result (λ came. HasRoomFor program.now body.new came) }
{
    match native {
        Native::Put => match first {
            Value::Box(mailbox) => put(alloc, plain, program, *mailbox, second, body),
            _ => unreachable!(),
        },
        Native::Bound => match (first, second) {
            (Value::Box(mailbox), Value::Int(most)) => bound(alloc, program, *mailbox, most, body),
            _ => unreachable!(),
        },
        _ => unreachable!(),
    }
}

// A method of two arguments with the fiber behind them.
fn ask_of_three(
    alloc: Global,
    plain: &Program,
    program: &Program,
    limits: &Limits,
    native: Native,
    first: &Value,
    second: &Value,
    third: &Value,
    body: &mut Body,
) -> Result<Came, NoMemory>
    requires frames { HasFrames body.old.frames }
    requires roomy { RoomyIn program.now body.old.frames }
    requires counts { body.old.count + 1 < 2 ^ 64 }
    requires other { is_other native ≡ true }
    requires can { CanAsk plain.now program.now limits.now (Some (meaning native)) (first.now ∷ second.now ∷ third.now ∷ []) body.old }
    ensures comes { (set : Setting) → set.program ≡ plain.now → set.limits ≡ limits.now → IfOk result (λ came. ComesBy body.old.heap (λ x. native_next set program.now (behind_at x body.old) (meaning native) (first.now ∷ second.now ∷ third.now ∷ [])) body.new came) }
    ensures roomy { OnOk result (RoomyIn program.now body.new.frames) }
    ensures counted { OnOk result (IsNear body.old.count body.new.count) }
    ensures room { IfOk result (λ came. HasRoomFor program.now body.new came) }
{
    match native {
        Native::PutWait => match third {
            Value::Fiber => put_or_wait(alloc, plain, program, limits, first, second, body),
            _ => unreachable!(),
        },
        _ => unreachable!(),
    }
}

// A method of one argument, or of the fiber alone.
fn ask_of_any_one(
    alloc: Global,
    plain: &Program,
    program: &Program,
    limits: &Limits,
    native: Native,
    value: &Value,
    body: &mut Body,
) -> Result<Came, NoMemory>
    requires frames { HasFrames body.old.frames }
    requires roomy { RoomyIn program.now body.old.frames }
    requires counts { body.old.count + 1 < 2 ^ 64 }
    requires other { is_other native ≡ true }
    requires can { CanAsk plain.now program.now limits.now (Some (meaning native)) (value.now ∷ []) body.old }
    ensures comes { (set : Setting) → set.program ≡ plain.now → set.limits ≡ limits.now → IfOk result (λ came. ComesBy body.old.heap (λ x. native_next set program.now (behind_at x body.old) (meaning native) (value.now ∷ [])) body.new came) }
    ensures roomy { OnOk result (RoomyIn program.now body.new.frames) }
    ensures counted { OnOk result (IsNear body.old.count body.new.count) }
    ensures room { IfOk result (λ came. HasRoomFor program.now body.new came) }
{
    match value {
        Value::Fiber => ask_of_fiber(alloc, plain, program, limits, native, body),
        value => ask_of_one(alloc, plain, program, limits, native, value, body),
    }
}

// A method of two arguments, the fiber the second one or not.
fn ask_of_any_two(
    alloc: Global,
    plain: &Program,
    program: &Program,
    limits: &Limits,
    native: Native,
    first: &Value,
    second: &Value,
    body: &mut Body,
) -> Result<Came, NoMemory>
    requires frames { HasFrames body.old.frames }
    requires roomy { RoomyIn program.now body.old.frames }
    requires counts { body.old.count + 1 < 2 ^ 64 }
    requires other { is_other native ≡ true }
    requires can { CanAsk plain.now program.now limits.now (Some (meaning native)) (first.now ∷ second.now ∷ []) body.old }
    ensures comes { (set : Setting) → set.program ≡ plain.now → set.limits ≡ limits.now → IfOk result (λ came. ComesBy body.old.heap (λ x. native_next set program.now (behind_at x body.old) (meaning native) (first.now ∷ second.now ∷ [])) body.new came) }
    ensures roomy { OnOk result (RoomyIn program.now body.new.frames) }
    ensures counted { OnOk result (IsNear body.old.count body.new.count) }
    ensures room { IfOk result (λ came. HasRoomFor program.now body.new came) }
{
    match second {
        Value::Fiber => ask_with_fiber(plain, program, limits, native, first, body),
        second => ask_of_two(alloc, plain, program, limits, native, first, second, body),
    }
}

// A method that is no member of `kilim/Fiber`, with copies of its operands.
fn ask_with(
    alloc: Global,
    plain: &Program,
    program: &Program,
    limits: &Limits,
    native: Native,
    operands: &Operands,
    body: &mut Body,
) -> Result<Came, NoMemory>
    requires frames { HasFrames body.old.frames }
    requires operands { AreCopies (operands_in body.old.frames) operands.now }
    requires roomy { RoomyIn program.now body.old.frames }
    requires counts { body.old.count + 1 < 2 ^ 64 }
    requires other { is_other native ≡ true }
    requires can { CanAsk plain.now program.now limits.now (Some (meaning native)) (operands_in body.old.frames) body.old }
    ensures comes { (set : Setting) → set.program ≡ plain.now → set.limits ≡ limits.now → IfOk result (λ came. ComesBy body.old.heap (λ x. native_next set program.now (behind_at x body.old) (meaning native) (operands_in body.old.frames)) body.new came) }
    ensures roomy { OnOk result (RoomyIn program.now body.new.frames) }
    ensures counted { OnOk result (IsNear body.old.count body.new.count) }
    ensures room { IfOk result (λ came. HasRoomFor program.now body.new came) }
{
    match operands {
        Operands::None => ask_of_none(plain, program, limits, native, body),
        Operands::One(value) => ask_of_any_one(alloc, plain, program, limits, native, value, body),
        Operands::Two(first, second) => {
            ask_of_any_two(alloc, plain, program, limits, native, first, second, body)
        }
        Operands::Three(first, second, third) => ask_of_three(
            alloc, plain, program, limits, native, first, second, third, body,
        ),
        Operands::More => unreachable!(),
    }
}

// A method that is no member of `kilim/Fiber`.
fn ask_other(
    alloc: Global,
    plain: &Program,
    program: &Program,
    limits: &Limits,
    native: Native,
    body: &mut Body,
) -> Result<Came, NoMemory>
    requires frames { HasFrames body.old.frames }
    requires operands { HasOperands body.old.frames }
    requires roomy { RoomyIn program.now body.old.frames }
    requires counts { body.old.count + 1 < 2 ^ 64 }
    requires other { is_other native ≡ true }
    requires can { CanAsk plain.now program.now limits.now (Some (meaning native)) (operands_in body.old.frames) body.old }
    ensures comes { (set : Setting) → set.program ≡ plain.now → set.limits ≡ limits.now → IfOk result (λ came. ComesBy body.old.heap (λ x. native_next set program.now (behind_at x body.old) (meaning native) (operands_in body.old.frames)) body.new came) }
    ensures roomy { OnOk result (RoomyIn program.now body.new.frames) }
    ensures counted { OnOk result (IsNear body.old.count body.new.count) }
    ensures room { IfOk result (λ came. HasRoomFor program.now body.new came) }
{
    let Some(frames) = &body.frames else {
        unreachable!()
    };
    let Ok(operands) = copy_operands(frames) else {
        return Err(NoMemory);
    };
    let asked = ask_with(alloc, plain, program, limits, native, &operands, body);
    drop(operands);
    asked
}

/// A built-in method that is called. A call that no verified code makes is answered want of memory.
pub fn ask(
    alloc: Global,
    code: &Code,
    limits: &Limits,
    method: MethodId,
    body: &mut Body,
) -> Result<Came, NoMemory>
    requires frames { HasFrames body.old.frames }
    requires operands { HasOperands body.old.frames }
    requires roomy { RoomyIn code.now.program body.old.frames }
    requires counts { body.old.count + 1 < 2 ^ 64 }
    requires can { CanAsk code.now.plain code.now.program limits.now (native_of code.now.program method) (operands_in body.old.frames) body.old }
    ensures comes { (set : Setting) → set.program ≡ code.now.plain → set.limits ≡ limits.now → IfOk result (λ came. ComesBy body.old.heap (λ x. asks_next set code.now.program (behind_at x body.old) (operands_in body.old.frames) (native_of code.now.program method)) body.new came) }
    ensures roomy { OnOk result (RoomyIn code.now.program body.new.frames) }
    ensures counted { OnOk result (IsNear body.old.count body.new.count) }
    ensures room { IfOk result (λ came. HasRoomFor code.now.program body.new came) }
{
    let Some(native) = code.native(method) else {
        // unmet: such a method is one of those that are handed out
        return Err(unmet());
    };
    match native {
        Native::OfFiber(member) => ask_member(alloc, &code.program, member, body),
        native => ask_other(alloc, &code.plain, &code.program, limits, native, body),
    }
}
