//! Declared frames.

ghost use Rattle.std.specs.Prelude.{◌≡◌, ◌<◌, Some, is_some, length, slice_get};
ghost use Rattle.kilim_type_spec.specs.Typed.{declared};

use kilim_program::{Frame, Method};
use kilim_type_step::declared_at;

/// The entry of a number.
pub fn entry_at(frames: &[(u32, Frame)], at: usize) -> &(u32, Frame)
    requires { at < length frames.now }
    ensures { slice_get frames.now at ≡ Some result.now }
{
    &frames[at]
}

/// Whether a frame is declared at a place.
pub fn is_declared(method: &Method, at: u32) -> bool
    ensures { result ≡ is_some (declared method.now at) }
{
    declared_at(method, at).is_some()
}
