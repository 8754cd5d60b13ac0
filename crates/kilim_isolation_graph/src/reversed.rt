//! Lists, the other way round.

ghost use Rattle.std.specs.Prelude.{◌≡◌, reverse, IfOk};

use kilim_units::NoMemory;
use std::alloc::Global;

/// The items, the last of them first.
pub fn turned<T: Copy + Drop>(alloc: Global, items: &[T]) -> Result<Vec<T>, NoMemory>
    ensures { IfOk result (λ v. v.items ≡ reverse items.now) }
{
    let Ok(mut turned) = Vec::from_slice(alloc, items) else {
        return Err(NoMemory);
    };
    turned.reverse();
    Ok(turned)
}
