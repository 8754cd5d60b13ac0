//! Copies of shapes.

ghost use Rattle.std.specs.Prelude.{◌≡◌, IfOk};

use kilim_run_state::Shape;
use kilim_units::NoMemory;
use std::alloc::Global;

/// A copy of a shape.
pub fn copy(alloc: Global, shape: &Shape) -> Result<Shape, NoMemory>
    ensures { IfOk result (λ copy. copy ≡ shape.now) }
{
    let _ = alloc;
    let Ok(copy) = shape.clone() else {
        return Err(NoMemory);
    };
    Ok(copy)
}
