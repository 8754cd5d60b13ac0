//! Assignability of verification types.

ghost use Rattle.std.specs.Prelude.{◌≡◌, ◌↔◌, IsTrue};
ghost use Rattle.kilim_type_spec.specs.Step.{assignable};

use kilim_program::{Program, VType};

/// Whether a value of the one verification type may flow where the other is declared (JVMS 4.10.1.2): every type to
/// itself and to `Top`, null to every reference, an object's type to those that it fits. An object that isn't
/// initialized yet goes to its own type and to `Top` alone. Takes no memory.
pub fn assignable(program: &Program, from: &VType, to: &VType) -> bool
    ensures { result ≡ assignable program.now from.now to.now }
{
    match to {
        VType::Top => true,
        VType::Int | VType::Long | VType::Null | VType::UninitThis | VType::Uninit(_) => {
            is_same(from, to)
        }
        VType::Object(ty) => match from {
            VType::Null => true,
            VType::Object(other) => program.fits_type(other, ty),
            VType::Top | VType::Int | VType::Long | VType::UninitThis | VType::Uninit(_) => false,
        },
    }
}

fn is_same(from: &VType, to: &VType) -> bool
    ensures { IsTrue result ↔ (from.now ≡ to.now) }
{
    *from == *to
}
