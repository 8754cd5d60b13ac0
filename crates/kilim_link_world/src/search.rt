//! Members by their places and numbers.

ghost use Rattle.std.specs.Prelude.{◌≡◌, ◌<◌, ◌-◌, length, min, option_map, slice_index};
ghost use Rattle.kilim_program.specs.BuiltIn.{method_id};
ghost use Rattle.kilim_link_spec.specs.World.{field_id};
ghost use Rattle.kilim_link_world.specs.Agrees.{indexed};

use kilim_link_inherited::{Index, Signature};
use kilim_program::{ClassId, FieldId, MethodId};
use kilim_units::Seq;

/// The places of a member among those of its class, none where it has none.
pub fn places_in<'a>(indices: &'a Seq<Index>, class: ClassId, signature: &Signature) -> &'a [u32]
    ensures { result.now ≡ indexed indices.now class.0 signature.now.name signature.now.descriptor }
{
    match indices.as_slice().get(class.0 as usize) {
        Some(index) => index.places(signature),
        None => &[],
    }
}

/// The number of a class's first member; past the end the last one.
pub fn first_in(firsts: &Seq<u32>, class: ClassId) -> u32
    requires { 0 < length firsts.now }
    ensures { result ≡ slice_index firsts.now (min class.0 (length firsts.now - 1)) }
{
    let firsts = firsts.as_slice();
    let last = firsts.len() - 1;
    let at = class.0 as usize;
    if at < last { firsts[at] } else { firsts[last] }
}

/// The method of a number.
pub fn method_of(number: Option<u32>) -> Option<MethodId>
    ensures { result ≡ option_map method_id number }
{
    match number {
        Some(number) => Some(MethodId(number)),
        None => None,
    }
}

/// The field of a number.
pub fn field_of(number: Option<u32>) -> Option<FieldId>
    ensures { result ≡ option_map field_id number }
{
    match number {
        Some(number) => Some(FieldId(number)),
        None => None,
    }
}
