//! Names with descriptors as keys.

ghost use Rattle.std.specs.Prelude.{◌≡◌, IfOk};

use kilim_link_world::Signature;
use kilim_units::{NoMemory, Units};

/// A name and a descriptor as a key.
pub fn signature_of(name: &Units, descriptor: &Units) -> Result<Signature, NoMemory>
    ensures name { IfOk result (λ s. s.name ≡ name.now) }
    ensures descriptor { IfOk result (λ s. s.descriptor ≡ descriptor.now) }
{
    let Ok(name) = name.clone() else {
        return Err(NoMemory);
    };
    let Ok(descriptor) = descriptor.clone() else {
        return Err(NoMemory);
    };
    Ok(Signature { name, descriptor })
}
