//! The bodies with which tasks begin.

ghost use Rattle.std.specs.Prelude.{◌≡◌, IfOk};
ghost use Rattle.kilim_fiber_body.specs.Begins.{BodyBegins, BodyBoots, IsFresh};
ghost use Rattle.kilim_fiber_body.specs.Body.{RoomyIn};

use crate::begin::{begun_on, begun_with};
use crate::body::Body;
use kilim_fiber_steps::records::Records;
use kilim_fiber_steps::records::natives::execute_of;
use kilim_program::main_class::constructor_of;
use kilim_program::{Base, ClassId, Program, Value};
use kilim_run_interp::instruction::new_object;
use kilim_run_state::Heap;
use kilim_run_state::frames::Frames;
use kilim_run_trees::{Tree, put_in};
use kilim_units::{NoMemory, unmet};
use std::alloc::Global;

fn new_body(
    alloc: Global,
    program: &Program,
    frames: Option<Frames>,
    heap: Heap,
    kept: Option<u32>,
) -> Body
    requires { RoomyIn program.now frames }
    ensures fresh { IsFresh program.now result }
    ensures frames { result.frames ≡ frames }
    ensures heap { result.heap ≡ heap }
    ensures kept { result.kept ≡ kept }
{
    let _ = program;
    let idle = frames.is_none();
    Body {
        frames,
        idle,
        records: Records::new(alloc),
        heap,
        count: 0,
        boxes: 0,
        kept,
        apart: None,
    }
}

/// The body with which a task begins on the tree of its object.
pub fn begun_body(alloc: Global, program: &Program, tree: Tree) -> Result<Body, NoMemory>
    ensures { IfOk result (λ body. BodyBegins program.now tree body) }
{
    let mut heap = Heap::new(alloc);
    let Ok(root) = put_in(&mut heap, tree) else {
        return Err(NoMemory);
    };
    let Base::Class(class) = heap.class(root).base else {
        // unmet: what is started is a task object, and no array
        return Err(unmet());
    };
    let method = execute_of(program, class);
    let Ok(frames) = begun_on(alloc, program, method, root) else {
        return Err(NoMemory);
    };
    Ok(new_body(alloc, program, frames, heap, None))
}

/// The body of task 0.
pub fn first_body(
    alloc: Global,
    plain: &Program,
    program: &Program,
    main: ClassId,
) -> Result<Body, NoMemory>
    ensures { IfOk result (λ body. BodyBoots plain.now program.now main body) }
{
    let Ok(object) = new_object(alloc, plain, main) else {
        return Err(NoMemory);
    };
    let mut heap = Heap::new(alloc);
    let Ok(root) = heap.add(object) else {
        return Err(NoMemory);
    };
    let method = constructor_of(program, main);
    let mut args = Vec::new(alloc);
    let Ok(()) = args.push(Value::Ref(root)) else {
        return Err(NoMemory);
    };
    let Ok(frames) = begun_with(alloc, program, method, args) else {
        return Err(NoMemory);
    };
    Ok(new_body(alloc, program, frames, heap, Some(root)))
}
