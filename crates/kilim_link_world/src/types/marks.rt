//! Qualifiers by annotations.

ghost use Rattle.std.specs.Prelude.{◌≡◌, ℕ, List, codes};
ghost use Rattle.std.specs.List.{flat_map};
ghost use Rattle.std.specs.Str.{bytes_eq};
ghost use Rattle.kilim_link_spec.specs.Qualified.{names_one, annotated_as};
ghost use Rattle.kilim_link_world.specs.types.Params.{first_mark, types_at, all_at};

use kilim_program::Qualifier;
use kilim_units::{Seq, Units};

// The qualifier of the first of three marks that is there.
fn first_mark(free: bool, cuttable: bool, safe: bool, default: Qualifier) -> Qualifier
    ensures { result ≡ first_mark free cuttable safe default }
{
    if free {
        Qualifier::Free
    } else if cuttable {
        Qualifier::Cuttable
    } else if safe {
        Qualifier::Safe
    } else {
        default
    }
}

// Whether an annotation is of a type.
fn is_type(annotation: &Units, text: &[u8]) -> bool
    ensures { result ≡ bytes_eq text.now annotation.now }
{
    annotation.is_text(text)
}

// Whether one of some annotations is of a type.
fn names_one(types: &[Units], text: &[u8]) -> bool
    ensures { result ≡ names_one types.now text.now }
{
    for annotation in types {
        if is_type(annotation, text) {
            return true;
        }
    }
    false
}

/// The qualifier that these annotations give (own): Free before Cuttable before Safe, else the default.
pub fn annotated_as(types: &[Units], default: Qualifier) -> Qualifier
    ensures { result ≡ annotated_as types.now default }
{
    let free = names_one(types, b"Lkilim/Free;");
    let cuttable = names_one(types, b"Lkilim/Cuttable;");
    let safe = names_one(types, b"Lkilim/Safe;");
    first_mark(free, cuttable, safe, default)
}

// What an attribute says of the parameter at a place.
fn types_at(attribute: &Seq<Seq<Units>>, at: usize) -> &[Units]
    ensures { result.now ≡ types_at at attribute.now }
{
    match attribute.as_slice().get(at) {
        Some(types) => types.as_slice(),
        None => &[],
    }
}

// Whether one of the attributes says that annotation of the parameter at a place.
fn one_names(attributes: &[Seq<Seq<Units>>], at: usize, text: &[u8]) -> bool
    ensures { result ≡ names_one (all_at at attributes.now) text.now }
{
    for attribute in attributes {
        if names_one(types_at(attribute, at), text) {
            return true;
        }
    }
    false
}

/// The qualifier that these attributes give the parameter at a place (own), else the default.
pub fn annotated_at(attributes: &[Seq<Seq<Units>>], at: usize, default: Qualifier) -> Qualifier
    ensures { result ≡ annotated_as (all_at at attributes.now) default }
{
    let free = one_names(attributes, at, b"Lkilim/Free;");
    let cuttable = one_names(attributes, at, b"Lkilim/Cuttable;");
    let safe = one_names(attributes, at, b"Lkilim/Safe;");
    first_mark(free, cuttable, safe, default)
}
