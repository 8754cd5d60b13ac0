//! A tree that is put or started leaves the heap.

ghost use Rattle.std.specs.Prelude.{IfOk};
ghost use Rattle.kilim_fiber_body.specs.Comes.{CanGive, GiftIs};

use kilim_program::Program;
use kilim_run_state::{Heap, Shape};
use kilim_run_trees::{MoveFault, Tree, reserve_tree, shape, take_out};
use kilim_units::NoMemory;
use std::alloc::Global;

/// What leaves.
#[derive(Drop)]
pub enum Gift {
    /// The tree, with its shape.
    Tree(Tree, Shape),
    /// Nothing: the tree has too many objects.
    TooLarge,
}

/// The tree at a place leaves the heap.
pub fn take_gift(
    alloc: Global,
    program: &Program,
    root: u32,
    heap: &mut Heap,
) -> Result<Gift, NoMemory>
    requires { CanGive program.now heap.old root }
    ensures { IfOk result (λ gift. GiftIs program.now root heap.old heap.new gift) }
{
    match reserve_tree(alloc, heap, root) {
        Ok(room) => {
            let tree = take_out(heap, root, room);
            let Ok(shape) = shape(program, &tree) else {
                return Err(NoMemory);
            };
            Ok(Gift::Tree(tree, shape))
        }
        Err(MoveFault::TooLarge) => Ok(Gift::TooLarge),
        Err(MoveFault::Memory) => Err(NoMemory),
    }
}
