//! Names with descriptors as keys.

ghost use Rattle.std.specs.Prelude.{◌≡◌, IfOk};

use kilim_link_inherited::Signature;
use kilim_units::{NoMemory, Units};

/// A name and a descriptor as a key.
pub fn key_of(name: &Units, descriptor: &Units) -> Result<Signature, NoMemory>
    ensures name { IfOk result (λ key. key.name ≡ name.now) }
    ensures descriptor { IfOk result (λ key. key.descriptor ≡ descriptor.now) }
{
    let Ok(name) = name.clone() else {
        return Err(NoMemory);
    };
    let Ok(descriptor) = descriptor.clone() else {
        return Err(NoMemory);
    };
    Ok(Signature { name, descriptor })
}
