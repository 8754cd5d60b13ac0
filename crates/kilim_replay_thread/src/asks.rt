//! A built-in method that is called.

ghost use Rattle.std.specs.Prelude.{◌≡◌, ◌<◌, ◌≤◌, ◌+◌, ◌^◌, ◌∷◌, [], length, Some, None, IfOk, OnOk};
ghost use Rattle.kilim_program.specs.declared.value.Value.TheVariants as a_value;
ghost use Rattle.kilim_run_machine.specs.Natives.{native_of};
ghost use Rattle.kilim_run_state.specs.Shapes.{shape_of};
ghost use Rattle.kilim_run_model.specs.State.{Setting};
ghost use Rattle.kilim_run_model.specs.Lone.{Goes, pushed, narrowed, arg_at, arg_next, printed, print_next, message_next, put_next, put_wait_next, wait_next, bound_next, start_next, native_next, asks_next};
ghost use Rattle.kilim_fiber_steps.specs.records.natives.Natives.{meaning};
ghost use Rattle.kilim_replay_laws.specs.shared.Shared.{HeapServes};
ghost use Rattle.kilim_replay_thread.specs.Comes.{CanAsk, CanBegin, CanShow, Comes, HasRoomFor, IsNear, IsOnOrEnd, IsOther, IsPutWait, IsShownMessage, SuitsCall};
ghost use Rattle.kilim_replay_thread.specs.Live.{HasFrames, HasOperands, RoomIn, RoomyIn, behind_at, operands_in};
ghost use Rattle.kilim_replay_thread.specs.Operands.{AreCopies};

use crate::operands::{Operands, copy_operands};
use crate::pass::{go_on, go_on_with};
use crate::raising::raise_called;
use crate::task::{Came, Live, World};
use kilim_fiber_steps::records::natives::{Native, native_of};
use kilim_program::{BoxName, MethodId, Program, Value};
use kilim_run_state::{EndCause, Limits, Shape, Token};
use kilim_run_trees::shape_at;
use kilim_units::{NoMemory, Seq};
use std::alloc::Global;

// The low 32 bits as a signed number.
fn narrowed(n: usize) -> i32
    ensures { result ≡ narrowed n }
{
    let low = (n % 4_294_967_296) as u32;
    low.cast_signed()
}

// `argCount`
fn count_args(program: &Program, limits: &Limits, task: u32, world: &World, live: &mut Live) -> Came
    requires roomy { RoomyIn program.now live.old.frames }
    requires room { RoomIn program.now live.old.frames }
    requires counts { live.old.done + 1 < 2 ^ 64 }
    ensures comes { Comes task (Goes (pushed (a_value.Int (narrowed (length limits.now.args))) (behind_at task world.now live.old))) world.now live.old world.now live.new result }
    ensures other { IsOther result }
    ensures roomy { RoomyIn program.now live.new.frames }
    ensures counted { IsNear live.old.done live.new.done }
    ensures room { HasRoomFor program.now world.now live.new result }
{
    let _ = task;
    let _ = world;
    go_on_with(program, live, Value::Int(narrowed(limits.args.len())));
    Came::On
}

// The number of an index among the arguments.
fn arg_at(args: &Seq<i32>, index: &i32) -> Option<i32>
    ensures { result ≡ arg_at args.now index.now }
{
    match usize::try_from(*index) {
        Ok(at) => args.as_slice().get(at).copied(),
        Err(_) => None,
    }
}

// `arg`
fn arg(
    alloc: Global,
    program: &Program,
    limits: &Limits,
    index: &i32,
    task: u32,
    world: &mut World,
    live: &mut Live,
) -> Result<Came, NoMemory>
    requires frames { HasFrames live.old.frames }
    requires roomy { RoomyIn program.now live.old.frames }
    requires room { RoomIn program.now live.old.frames }
    requires counts { live.old.done + 1 < 2 ^ 64 }
    ensures comes { IfOk result (λ came. Comes task (arg_next program.now (behind_at task world.old live.old) (arg_at limits.now.args index.now)) world.old live.old world.new live.new came) }
    ensures other { IfOk result IsOther }
    ensures roomy { OnOk result (RoomyIn program.now live.new.frames) }
    ensures counted { OnOk result (IsNear live.old.done live.new.done) }
    ensures room { IfOk result (λ came. HasRoomFor program.now world.new live.new came) }
    ensures kept { OnOk result (world.new.kept ≡ world.old.kept) }
{
    match arg_at(&limits.args, index) {
        Some(number) => {
            go_on_with(program, live, Value::Int(number));
            Ok(Came::On)
        }
        None => raise_called(alloc, program, EndCause::Index, task, world, live),
    }
}

// The token of a printed value; no verified code prints another one.
fn printed(value: &Value) -> Result<Token, NoMemory>
    requires { printed value.now ≡ None → ⊥ }
    ensures { IfOk result (λ token. printed value.now ≡ Some token) }
{
    match value {
        Value::Int(n) => Ok(Token::Int(*n)),
        Value::Long(n) => Ok(Token::Long(*n)),
        Value::Null => Ok(Token::Null),
        Value::Text(units) => Ok(Token::Text(units.clone()?)),
        Value::Ref(_) | Value::Box(_) | Value::Fiber => unreachable!(),
    }
}

fn one_token(alloc: Global, token: Token) -> Result<Shape, NoMemory>
    ensures { IfOk result (λ shape. shape ≡ token ∷ []) }
{
    let mut shape = Seq::new(alloc);
    let Ok(()) = shape.push(token) else {
        return Err(NoMemory);
    };
    Ok(shape)
}

// `print`
fn print(
    alloc: Global,
    program: &Program,
    value: &Value,
    task: u32,
    world: &World,
    live: &Live,
) -> Result<Came, NoMemory>
    requires frames { HasFrames live.now.frames }
    requires made { printed value.now ≡ None → ⊥ }
    ensures comes { IfOk result (λ came. Comes task (print_next (behind_at task world.now live.now) (printed value.now)) world.now live.now world.now live.now came) }
    ensures other { IfOk result IsOther }
    ensures room { IfOk result (λ came. HasRoomFor program.now world.now live.now came) }
{
    let _ = program;
    let _ = task;
    let _ = world;
    let _ = live;
    let Ok(token) = printed(value) else {
        return Err(NoMemory);
    };
    match one_token(alloc, token) {
        Ok(shape) => Ok(Came::Prints(shape)),
        Err(fault) => Err(fault),
    }
}

// `put` of a message
fn put_tree(
    alloc: Global,
    program: &Program,
    mailbox: BoxName,
    root: u32,
    task: u32,
    world: &World,
    live: &Live,
) -> Result<Came, NoMemory>
    requires frames { HasFrames live.now.frames }
    requires shown { CanShow program.now world.now.heap root }
    ensures comes { IfOk result (λ came. Comes task (put_next (behind_at task world.now live.now) mailbox root (shape_of program.now world.now.heap root)) world.now live.now world.now live.now came) }
    ensures other { IfOk result IsOther }
    ensures room { IfOk result (λ came. HasRoomFor program.now world.now live.now came) }
{
    let _ = task;
    let _ = live;
    match shape_at(alloc, program, &world.heap, root) {
        Ok(Some(shape)) => Ok(Came::Puts(mailbox, root, shape)),
        Ok(None) => Ok(Came::Ends(EndCause::Large)),
        Err(fault) => Err(fault),
    }
}

// `put`
fn put(
    alloc: Global,
    program: &Program,
    mailbox: BoxName,
    message: &Value,
    task: u32,
    world: &mut World,
    live: &mut Live,
) -> Result<Came, NoMemory>
    requires frames { HasFrames live.old.frames }
    requires roomy { RoomyIn program.now live.old.frames }
    requires counts { live.old.done + 1 < 2 ^ 64 }
    requires shown { IsShownMessage program.now world.old.heap message.now }
    ensures comes { IfOk result (λ came. Comes task (message_next program.now (behind_at task world.old live.old) mailbox message.now) world.old live.old world.new live.new came) }
    ensures other { IfOk result IsOther }
    ensures roomy { OnOk result (RoomyIn program.now live.new.frames) }
    ensures counted { OnOk result (IsNear live.old.done live.new.done) }
    ensures room { IfOk result (λ came. HasRoomFor program.now world.new live.new came) }
    ensures kept { OnOk result (world.new.kept ≡ world.old.kept) }
{
    match message {
        Value::Null => raise_called(alloc, program, EndCause::Null, task, world, live),
        Value::Ref(root) => put_tree(alloc, program, mailbox, *root, task, world, live),
        _ => unreachable!(),
    }
}

// `putw` of a message
fn put_wait_tree(
    alloc: Global,
    program: &Program,
    mailbox: BoxName,
    root: u32,
    task: u32,
    world: &World,
    live: &Live,
) -> Result<Came, NoMemory>
    requires frames { HasFrames live.now.frames }
    requires shown { CanShow program.now world.now.heap root }
    ensures comes { IfOk result (λ came. Comes task (put_wait_next (behind_at task world.now live.now) mailbox root (shape_of program.now world.now.heap root)) world.now live.now world.now live.now came) }
    ensures waits { IfOk result (IsPutWait mailbox (a_value.Ref root)) }
    ensures room { IfOk result (λ came. HasRoomFor program.now world.now live.now came) }
{
    let _ = task;
    let _ = live;
    match shape_at(alloc, program, &world.heap, root) {
        Ok(Some(shape)) => Ok(Came::PutsWaiting(mailbox, root, shape)),
        Ok(None) => Ok(Came::TooLarge(mailbox, root)),
        Err(fault) => Err(fault),
    }
}

// `putw`
fn put_wait(
    alloc: Global,
    program: &Program,
    mailbox: BoxName,
    message: &Value,
    task: u32,
    world: &mut World,
    live: &mut Live,
) -> Result<Came, NoMemory>
    requires frames { HasFrames live.old.frames }
    requires roomy { RoomyIn program.now live.old.frames }
    requires counts { live.old.done + 1 < 2 ^ 64 }
    requires shown { IsShownMessage program.now world.old.heap message.now }
    ensures comes { IfOk result (λ came. Comes task (wait_next program.now (behind_at task world.old live.old) mailbox message.now) world.old live.old world.new live.new came) }
    ensures waits { IfOk result (IsPutWait mailbox message.now) }
    ensures roomy { OnOk result (RoomyIn program.now live.new.frames) }
    ensures counted { OnOk result (IsNear live.old.done live.new.done) }
    ensures room { IfOk result (λ came. HasRoomFor program.now world.new live.new came) }
    ensures kept { OnOk result (world.new.kept ≡ world.old.kept) }
{
    match message {
        Value::Null => raise_called(alloc, program, EndCause::Null, task, world, live),
        Value::Ref(root) => put_wait_tree(alloc, program, mailbox, *root, task, world, live),
        _ => unreachable!(),
    }
}

// the constructor that bounds a mailbox
fn bound(
    alloc: Global,
    program: &Program,
    mailbox: BoxName,
    most: &i32,
    task: u32,
    world: &mut World,
    live: &mut Live,
) -> Result<Came, NoMemory>
    requires frames { HasFrames live.old.frames }
    requires roomy { RoomyIn program.now live.old.frames }
    requires counts { live.old.done + 1 < 2 ^ 64 }
    ensures comes { IfOk result (λ came. Comes task (bound_next program.now (behind_at task world.old live.old) mailbox most.now) world.old live.old world.new live.new came) }
    ensures other { IfOk result IsOther }
    ensures roomy { OnOk result (RoomyIn program.now live.new.frames) }
    ensures counted { OnOk result (IsNear live.old.done live.new.done) }
    ensures room { IfOk result (λ came. HasRoomFor program.now world.new live.new came) }
    ensures kept { OnOk result (world.new.kept ≡ world.old.kept) }
{
    match u32::try_from(*most) {
        Ok(0) => raise_called(alloc, program, EndCause::Size, task, world, live),
        Ok(number) => Ok(Came::Bounds(mailbox, number)),
        Err(_) => raise_called(alloc, program, EndCause::Size, task, world, live),
    }
}

// `start`
fn start(
    alloc: Global,
    program: &Program,
    root: u32,
    task: u32,
    world: &World,
    live: &Live,
) -> Result<Came, NoMemory>
    requires frames { HasFrames live.now.frames }
    requires shown { CanShow program.now world.now.heap root }
    requires begins { CanBegin program.now world.now.heap root }
    ensures comes { IfOk result (λ came. Comes task (start_next (behind_at task world.now live.now) root (shape_of program.now world.now.heap root)) world.now live.now world.now live.now came) }
    ensures other { IfOk result IsOther }
    ensures room { IfOk result (λ came. HasRoomFor program.now world.now live.now came) }
{
    let _ = task;
    let _ = live;
    match shape_at(alloc, program, &world.heap, root) {
        Ok(Some(shape)) => Ok(Came::Starts(root, shape)),
        Ok(None) => Ok(Came::Ends(EndCause::Large)),
        Err(fault) => Err(fault),
    }
}

// A method without arguments.
fn ask_of_none(
    program: &Program,
    limits: &Limits,
    native: Native,
    task: u32,
    world: &World,
    live: &mut Live,
) -> Result<Came, NoMemory>
    requires frames { HasFrames live.old.frames }
    requires roomy { RoomyIn program.now live.old.frames }
    requires counts { live.old.done + 1 < 2 ^ 64 }
    requires can { CanAsk program.now (Some (meaning native)) [] world.now live.old }
    ensures comes { (set : Setting) → set.program ≡ program.now → set.limits ≡ limits.now → IfOk result (λ came. Comes task (native_next set (behind_at task world.now live.old) (meaning native) []) world.now live.old world.now live.new came) }
    ensures suits { IfOk result (SuitsCall (Some (meaning native)) []) }
    ensures roomy { OnOk result (RoomyIn program.now live.new.frames) }
    ensures counted { OnOk result (IsNear live.old.done live.new.done) }
    ensures room { IfOk result (λ came. HasRoomFor program.now world.now live.new came) }
{
    match native {
        Native::Yield => {
            go_on(program, live);
            Ok(Came::On)
        }
        Native::ArgCount => Ok(count_args(program, limits, task, world, live)),
        _ => unreachable!(),
    }
}

// A method of one argument, which may be its receiver.
fn ask_of_one(
    alloc: Global,
    program: &Program,
    limits: &Limits,
    native: Native,
    value: &Value,
    task: u32,
    world: &mut World,
    live: &mut Live,
) -> Result<Came, NoMemory>
    requires frames { HasFrames live.old.frames }
    requires roomy { RoomyIn program.now live.old.frames }
    requires counts { live.old.done + 1 < 2 ^ 64 }
    requires can { CanAsk program.now (Some (meaning native)) (value.now ∷ []) world.old live.old }
    ensures comes { (set : Setting) → set.program ≡ program.now → set.limits ≡ limits.now → IfOk result (λ came. Comes task (native_next set (behind_at task world.old live.old) (meaning native) (value.now ∷ [])) world.old live.old world.new live.new came) }
    ensures suits { IfOk result (SuitsCall (Some (meaning native)) (value.now ∷ [])) }
    ensures roomy { OnOk result (RoomyIn program.now live.new.frames) }
    ensures counted { OnOk result (IsNear live.old.done live.new.done) }
    ensures room { IfOk result (λ came. HasRoomFor program.now world.new live.new came) }
    ensures kept { OnOk result (world.new.kept ≡ world.old.kept) }
{
    match native {
        Native::Execute => match value {
            Value::Ref(_) => {
                go_on(program, live);
                Ok(Came::On)
            }
            _ => unreachable!(),
        },
        Native::Start => match value {
            Value::Ref(root) => start(alloc, program, *root, task, world, live),
            _ => unreachable!(),
        },
        Native::Get => match value {
            Value::Box(mailbox) => Ok(Came::Takes(*mailbox)),
            _ => unreachable!(),
        },
        Native::Getnb => match value {
            Value::Box(mailbox) => Ok(Came::Probes(*mailbox)),
            _ => unreachable!(),
        },
        Native::Print => print(alloc, program, value, task, world, live),
        Native::Arg => match value {
            Value::Int(index) => arg(alloc, program, limits, index, task, world, live),
            _ => unreachable!(),
        },
        _ => unreachable!(),
    }
}

// A method of two arguments.
fn ask_of_two(
    alloc: Global,
    program: &Program,
    native: Native,
    first: &Value,
    second: &Value,
    task: u32,
    world: &mut World,
    live: &mut Live,
) -> Result<Came, NoMemory>
    requires frames { HasFrames live.old.frames }
    requires roomy { RoomyIn program.now live.old.frames }
    requires counts { live.old.done + 1 < 2 ^ 64 }
    requires can { CanAsk program.now (Some (meaning native)) (first.now ∷ second.now ∷ []) world.old live.old }
    ensures comes { (set : Setting) → set.program ≡ program.now → IfOk result (λ came. Comes task (native_next set (behind_at task world.old live.old) (meaning native) (first.now ∷ second.now ∷ [])) world.old live.old world.new live.new came) }
    ensures suits { IfOk result (SuitsCall (Some (meaning native)) (first.now ∷ second.now ∷ [])) }
    ensures roomy { OnOk result (RoomyIn program.now live.new.frames) }
    ensures counted { OnOk result (IsNear live.old.done live.new.done) }
    ensures room { IfOk result (λ came. HasRoomFor program.now world.new live.new came) }
    ensures kept { OnOk result (world.new.kept ≡ world.old.kept) }
{
    match native {
        Native::Put => match first {
            Value::Box(mailbox) => put(alloc, program, *mailbox, second, task, world, live),
            _ => unreachable!(),
        },
        Native::PutWait => match first {
            Value::Box(mailbox) => put_wait(alloc, program, *mailbox, second, task, world, live),
            _ => unreachable!(),
        },
        Native::Bound => match (first, second) {
            (Value::Box(mailbox), Value::Int(most)) => {
                bound(alloc, program, *mailbox, most, task, world, live)
            }
            _ => unreachable!(),
        },
        _ => unreachable!(),
    }
}

// The method, with copies of its operands.
fn ask_with(
    alloc: Global,
    program: &Program,
    limits: &Limits,
    native: Native,
    operands: &Operands,
    task: u32,
    world: &mut World,
    live: &mut Live,
) -> Result<Came, NoMemory>
    requires frames { HasFrames live.old.frames }
    requires operands { AreCopies (operands_in live.old.frames) operands.now }
    requires roomy { RoomyIn program.now live.old.frames }
    requires counts { live.old.done + 1 < 2 ^ 64 }
    requires can { CanAsk program.now (Some (meaning native)) (operands_in live.old.frames) world.old live.old }
    ensures comes { (set : Setting) → set.program ≡ program.now → set.limits ≡ limits.now → IfOk result (λ came. Comes task (native_next set (behind_at task world.old live.old) (meaning native) (operands_in live.old.frames)) world.old live.old world.new live.new came) }
    ensures suits { IfOk result (SuitsCall (Some (meaning native)) (operands_in live.old.frames)) }
    ensures roomy { OnOk result (RoomyIn program.now live.new.frames) }
    ensures counted { OnOk result (IsNear live.old.done live.new.done) }
    ensures room { IfOk result (λ came. HasRoomFor program.now world.new live.new came) }
    ensures kept { OnOk result (world.new.kept ≡ world.old.kept) }
{
    match operands {
        Operands::None => ask_of_none(program, limits, native, task, world, live),
        Operands::One(value) => ask_of_one(
            alloc, program, limits, native, value, task, world, live,
        ),
        Operands::Two(first, second) => ask_of_two(
            alloc, program, native, first, second, task, world, live,
        ),
        Operands::More => unreachable!(),
    }
}

/// A built-in method that is called, with the operands that the frames tell.
pub fn ask(
    alloc: Global,
    program: &Program,
    limits: &Limits,
    method: MethodId,
    task: u32,
    world: &mut World,
    live: &mut Live,
) -> Result<Came, NoMemory>
    requires frames { HasFrames live.old.frames }
    requires operands { HasOperands live.old.frames }
    requires roomy { RoomyIn program.now live.old.frames }
    requires counts { live.old.done + 1 < 2 ^ 64 }
    requires can { CanAsk program.now (native_of program.now method) (operands_in live.old.frames) world.old live.old }
    ensures comes { (set : Setting) → set.program ≡ program.now → set.limits ≡ limits.now → IfOk result (λ came. Comes task (asks_next set (behind_at task world.old live.old) (operands_in live.old.frames) (native_of program.now method)) world.old live.old world.new live.new came) }
    ensures suits { IfOk result (SuitsCall (native_of program.now method) (operands_in live.old.frames)) }
    ensures roomy { OnOk result (RoomyIn program.now live.new.frames) }
    ensures counted { OnOk result (IsNear live.old.done live.new.done) }
    ensures room { IfOk result (λ came. HasRoomFor program.now world.new live.new came) }
    ensures kept { OnOk result (world.new.kept ≡ world.old.kept) }
{
    let Some(native) = native_of(program, method) else {
        unreachable!()
    };
    let Some(frames) = &live.frames else {
        unreachable!()
    };
    let Ok(operands) = copy_operands(frames) else {
        return Err(NoMemory);
    };
    let asked = ask_with(alloc, program, limits, native, &operands, task, world, live);
    drop(operands);
    asked
}
