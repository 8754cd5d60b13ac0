//! The types of descriptors in a program.

ghost use Rattle.std.specs.Prelude.{◌≡◌, IfOk, option_copied};
ghost use Rattle.kilim_link_spec.specs.Types.{types_in, result_in};

use kilim_class_descriptors::FieldText;
use kilim_link_world::World;
use kilim_link_world::types::type_in;
use kilim_program::Ty;
use kilim_units::{NoMemory, Seq};
use std::alloc::Global;

/// The types of several descriptors in a program, where all are there (JVMS 4.3.2).
pub fn types_in(
    alloc: Global,
    world: &World,
    texts: &[FieldText],
) -> Result<Option<Seq<Ty>>, NoMemory>
    ensures { IfOk result (λ types. types ≡ types_in world.now texts.now) }
{
    let mut types = Seq::new(alloc);
    for text in texts {
        match type_in(world, text) {
            Some(ty) => {
                let Ok(()) = types.push(ty) else {
                    return Err(NoMemory);
                };
            }
            None => return Ok(None),
        }
    }
    Ok(Some(types))
}

/// The type of a result in a program, where it is there; for void that there is none (JVMS 4.3.3).
pub fn result_in(world: &World, text: Option<&FieldText>) -> Option<Option<Ty>>
    ensures { result ≡ result_in world.now (option_copied text.entry) }
{
    match text {
        Some(text) => match type_in(world, text) {
            Some(ty) => Some(Some(ty)),
            None => None,
        },
        None => Some(None),
    }
}
