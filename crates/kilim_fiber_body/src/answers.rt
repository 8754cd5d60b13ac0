//! What a body is answered.

ghost use Rattle.std.specs.Prelude.{◌≡◌, ◌<◌, ◌+◌, ◌^◌, Some, IfOk, OnOk};
ghost use Rattle.std.specs.List.{AllByRecursion};
ghost use Rattle.kilim_program.specs.declared.value.Value.TheVariants as a_value;
ghost use Rattle.kilim_run_trees.specs.Shaping.{Suits};
ghost use Rattle.kilim_fiber_laws.specs.woven_kin.Nexts.{counted, paused_at, taken_at, waiting_at, with_result};
ghost use Rattle.kilim_fiber_body.specs.Answers.{HasFound, HasTaken, Received};
ghost use Rattle.kilim_fiber_body.specs.Body.{behind_at, standing_at, HasFrames, RoomyIn, RoomIn};

use crate::asks::{go_on, go_on_with};
use crate::body::{Apart, Body};
use crate::members::{pass_on, pass_with};
use kilim_program::{BoxName, Program, Value};
use kilim_run_state::Shape;
use kilim_run_trees::{Tree, put_in, shape};
use kilim_units::NoMemory;
use std::alloc::Global;

/// What it put, started or printed is done.
pub fn done(program: &Program, body: &mut Body)
    requires frames { HasFrames body.old.frames }
    requires roomy { RoomyIn program.now body.old.frames }
    requires counts { body.old.count + 1 < 2 ^ 64 }
    ensures stands { standing_at 0 body.new ≡ counted (behind_at 0 body.old) }
    ensures roomy { RoomyIn program.now body.new.frames }
{
    go_on(program, body);
}

/// There was no message where it looked for one.
pub fn found_none(program: &Program, body: &mut Body)
    requires roomy { RoomyIn program.now body.old.frames }
    requires room { RoomIn program.now body.old.frames }
    requires counts { body.old.count + 1 < 2 ^ 64 }
    ensures stands { standing_at 0 body.new ≡ with_result (Some a_value.Null) (counted (behind_at 0 body.old)) }
    ensures roomy { RoomyIn program.now body.new.frames }
{
    go_on_with(program, body, Value::Null);
}

/// The mailbox of a `putw` is full: it pauses, and its tree stands apart.
pub fn wait(
    alloc: Global,
    program: &Program,
    mailbox: BoxName,
    tree: Tree,
    shape: Shape,
    body: &mut Body,
)
    requires frames { HasFrames body.old.frames }
    requires roomy { RoomyIn program.now body.old.frames }
    ensures stands { standing_at 0 body.new ≡ waiting_at mailbox (behind_at 0 (record body.old { apart = Some (record { tree = tree; shape = shape }) })) }
    ensures roomy { RoomyIn program.now body.new.frames }
{
    body.apart = Some(Apart { tree, shape });
    body.records.pause(alloc, Value::Box(mailbox));
    pass_on(program, body);
}

/// What waited to be put is: a `putw` ends a rewinding.
pub fn put_done(alloc: Global, program: &Program, body: &mut Body)
    requires frames { HasFrames body.old.frames }
    requires roomy { RoomyIn program.now body.old.frames }
    requires counts { body.old.count + 1 < 2 ^ 64 }
    ensures stands { standing_at 0 body.new ≡ taken_at (behind_at 0 body.old) }
    ensures roomy { RoomyIn program.now body.new.frames }
{
    body.records.end_rewinding(alloc);
    go_on(program, body);
}

/// The mailbox of a `get` is empty: it pauses.
pub fn pause(alloc: Global, program: &Program, mailbox: BoxName, body: &mut Body)
    requires roomy { RoomyIn program.now body.old.frames }
    requires room { RoomIn program.now body.old.frames }
    ensures stands { standing_at 0 body.new ≡ paused_at mailbox (behind_at 0 body.old) }
    ensures roomy { RoomyIn program.now body.new.frames }
{
    body.records.pause(alloc, Value::Box(mailbox));
    pass_with(program, body, Value::Null);
}

// A tree comes into the heap: its shape, and the place of its root.
fn tree_comes(plain: &Program, tree: Tree, body: &mut Body) -> Result<(Shape, u32), NoMemory>
    requires suits { AllByRecursion (Suits plain.now) tree }
    ensures { IfOk result (λ came. Received plain.now body.old body.new tree came.0 came.1) }
{
    let Ok(shape) = shape(plain, &tree) else {
        return Err(NoMemory);
    };
    let Ok(root) = put_in(&mut body.heap, tree) else {
        return Err(NoMemory);
    };
    Ok((shape, root))
}

/// A message comes for a `get`, which ends a rewinding. The answer is its shape.
pub fn take(
    alloc: Global,
    plain: &Program,
    program: &Program,
    tree: Tree,
    body: &mut Body,
) -> Result<Shape, NoMemory>
    requires suits { AllByRecursion (Suits plain.now) tree }
    requires roomy { RoomyIn program.now body.old.frames }
    requires room { RoomIn program.now body.old.frames }
    requires counts { body.old.count + 1 < 2 ^ 64 }
    ensures { IfOk result (λ shape. HasTaken plain.now program.now body.old body.new tree shape) }
{
    let Ok((shape, root)) = tree_comes(plain, tree, body) else {
        return Err(NoMemory);
    };
    body.records.end_rewinding(alloc);
    go_on_with(program, body, Value::Ref(root));
    Ok(shape)
}

/// A message is there where it looked for one. The answer is its shape.
pub fn found(
    plain: &Program,
    program: &Program,
    tree: Tree,
    body: &mut Body,
) -> Result<Shape, NoMemory>
    requires suits { AllByRecursion (Suits plain.now) tree }
    requires roomy { RoomyIn program.now body.old.frames }
    requires room { RoomIn program.now body.old.frames }
    requires counts { body.old.count + 1 < 2 ^ 64 }
    ensures { IfOk result (λ shape. HasFound plain.now program.now body.old body.new tree shape) }
{
    let Ok((shape, root)) = tree_comes(plain, tree, body) else {
        return Err(NoMemory);
    };
    go_on_with(program, body, Value::Ref(root));
    Ok(shape)
}
