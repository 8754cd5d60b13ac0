//! Texts and types.

ghost use Rattle.std.specs.Prelude.{◌≡◌, ◌<◌, ◌^◌, ◌++◌, map, option_map, IfOk, OnOk};
ghost use Rattle.kilim_link_views.specs.built_ins.Rows.{type_of};

use crate::built_ins::rows::Kind;
use kilim_program::{Base, ClassId, Ty};
use kilim_units::{NoMemory, Units};
use std::alloc::Global;

/// The units of an ASCII text.
pub fn text(alloc: Global, ascii: &[u8]) -> Result<Units, NoMemory>
    ensures { IfOk result (λ text. text ≡ ascii.now) }
{
    let mut units = Vec::new(alloc);
    for byte in ascii {
        let Ok(()) = units.push(u16::from(*byte)) else {
            return Err(NoMemory);
        };
    }
    let Ok(text) = Units::from_vec(alloc, units) else {
        return Err(NoMemory);
    };
    Ok(text)
}

// The type of a kind.
fn type_of(first: u32, kind: Kind) -> Ty
    requires { first < 2 ^ 31 }
    ensures { result ≡ type_of first kind }
{
    let (dims, base) = match kind {
        Kind::Bool => (0, Base::Bool),
        Kind::Char => (0, Base::Char),
        Kind::Int => (0, Base::Int),
        Kind::Long => (0, Base::Long),
        Kind::Object(class) => (0, Base::Class(ClassId(first + u32::from(class)))),
        Kind::Objects(class) => (1, Base::Class(ClassId(first + u32::from(class)))),
    };
    Ty { dims, base }
}

/// The type of a result.
pub fn gives_of(first: u32, kind: Option<Kind>) -> Option<Ty>
    requires { first < 2 ^ 31 }
    ensures { result ≡ option_map (type_of first) kind }
{
    match kind {
        Some(kind) => Some(type_of(first, kind)),
        None => None,
    }
}

/// Appends the types of some kinds.
pub fn push_types(types: &mut Vec<Ty>, first: u32, kinds: &[Kind]) -> Result<(), NoMemory>
    requires { first < 2 ^ 31 }
    ensures { OnOk result (types.new.items ≡ types.old.items ++ map (type_of first) kinds.now) }
{
    for kind in kinds {
        let Ok(()) = types.push(type_of(first, *kind)) else {
            return Err(NoMemory);
        };
    }
    Ok(())
}
