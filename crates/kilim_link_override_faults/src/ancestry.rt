//! What is known of a world's methods beside those of superclasses.

ghost use Rattle.std.specs.Prelude.{◌≡◌, ◌∷◌, ◌<◌, ◌^◌, IfOk, length};
ghost use Rattle.std.specs.List.{list_any};
ghost use Rattle.kilim_program.specs.Keeps.{ancestors_of};
ghost use Rattle.kilim_link_override_faults.specs.Ancestry.{Knows};
ghost use Rattle.kilim_link_override_faults.specs.Apart.{has_apart};

use crate::apart::apart_of;
use crate::heritage::Heritage;
use kilim_link_inherited::Nearest;
use kilim_link_world::{Signature, World};
use kilim_program::ClassId;
use kilim_units::NoMemory;
use std::alloc::Global;

/// What is known of a world's methods beside those of superclasses, made once for all classes, so that no line of
/// superclasses need be gone up for each method.
#[derive(Drop)]
pub struct Ancestry {
    // What each class inherits.
    pub heritage: Heritage,
    // Where a method differs from the nearest one that it overrides, or from the first one beside it.
    pub apart: Nearest,
}

impl Ancestry {
    /// Of a world.
    pub fn new(alloc: Global, world: &World) -> Result<Ancestry, NoMemory>
        requires few { length world.now.classes < 2 ^ 32 }
        ensures { IfOk result (λ a. Knows world.now a) }
    {
        let heritage = Heritage::new(alloc, world)?;
        match apart_of(alloc, world, &heritage) {
            Ok(apart) => Ok(Ancestry { heritage, apart }),
            Err(fault) => {
                drop(heritage);
                Err(fault)
            }
        }
    }

    /// Whether a class or an ancestor declares a method of that name and descriptor that differs from the nearest one
    /// that it overrides, or from the first one of its name and descriptor beside it.
    #[tactic(auto, using(crate::proofs::Telling::apart_known))]
    pub fn has_apart(&self, world: &World, class: ClassId, signature: &Signature) -> bool
        requires { Knows world.now self.now }
        ensures { result ≡ list_any (has_apart world.now signature.now.name signature.now.descriptor) (class ∷ ancestors_of world.now.outline class) }
    {
        self.apart.find(class, signature).is_some()
    }
}
