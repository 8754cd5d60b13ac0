//! Whether classes and members are equal.

ghost use Rattle.std.specs.Prelude.{◌≡◌, true};

use crate::same_programs::lists::{
    same_code, same_field_ids, same_frames, same_handlers, same_method_ids, same_qualifiers,
    same_tys,
};
use crate::same_programs::parts::{same_constant, same_result, same_ty, same_units};
use kilim_program::{Class, Field, Method};

fn same_class(one: &Class, other: &Class) -> bool
    ensures { result ≡ true → one.now ≡ other.now }
{
    same_units(&one.name, &other.name)
        && one.superclass == other.superclass
        && one.is_abstract == other.is_abstract
        && one.message == other.message
        && same_field_ids(one.fields.as_slice(), other.fields.as_slice())
        && same_method_ids(one.methods.as_slice(), other.methods.as_slice())
}

fn same_field(one: &Field, other: &Field) -> bool
    ensures { result ≡ true → one.now ≡ other.now }
{
    same_units(&one.name, &other.name)
        && same_ty(&one.ty, &other.ty)
        && one.owner == other.owner
        && one.is_static == other.is_static
        && one.is_private == other.is_private
        && same_constant(&one.constant, &other.constant)
}

// The name, the class and the types.
fn same_heads(one: &Method, other: &Method) -> bool
    ensures name { result ≡ true → one.now.name ≡ other.now.name }
    ensures owner { result ≡ true → one.now.owner ≡ other.now.owner }
    ensures params { result ≡ true → one.now.params ≡ other.now.params }
    ensures result_type { result ≡ true → one.now.result ≡ other.now.result }
{
    same_units(&one.name, &other.name)
        && one.owner == other.owner
        && same_tys(one.params.as_slice(), other.params.as_slice())
        && same_result(one.result, other.result)
}

// The marks.
fn same_marks(one: &Method, other: &Method) -> bool
    ensures is_static { result ≡ true → one.now.is_static ≡ other.now.is_static }
    ensures is_private { result ≡ true → one.now.is_private ≡ other.now.is_private }
    ensures is_abstract { result ≡ true → one.now.is_abstract ≡ other.now.is_abstract }
    ensures built_in { result ≡ true → one.now.built_in ≡ other.now.built_in }
    ensures pausable { result ≡ true → one.now.pausable ≡ other.now.pausable }
    ensures receiver { result ≡ true → one.now.receiver ≡ other.now.receiver }
    ensures qualifiers { result ≡ true → one.now.qualifiers ≡ other.now.qualifiers }
{
    one.is_static == other.is_static
        && one.is_private == other.is_private
        && one.is_abstract == other.is_abstract
        && one.built_in == other.built_in
        && one.pausable == other.pausable
        && one.receiver == other.receiver
        && same_qualifiers(one.qualifiers.as_slice(), other.qualifiers.as_slice())
}

// The code, its frames and its table.
fn same_bodies(one: &Method, other: &Method) -> bool
    ensures max_stack { result ≡ true → one.now.max_stack ≡ other.now.max_stack }
    ensures max_locals { result ≡ true → one.now.max_locals ≡ other.now.max_locals }
    ensures code_length { result ≡ true → one.now.code_length ≡ other.now.code_length }
    ensures code { result ≡ true → one.now.code ≡ other.now.code }
    ensures frames { result ≡ true → one.now.frames ≡ other.now.frames }
    ensures handlers { result ≡ true → one.now.handlers ≡ other.now.handlers }
{
    one.max_stack == other.max_stack
        && one.max_locals == other.max_locals
        && one.code_length == other.code_length
        && same_code(one.code.as_slice(), other.code.as_slice())
        && same_frames(one.frames.as_slice(), other.frames.as_slice())
        && same_handlers(one.handlers.as_slice(), other.handlers.as_slice())
}

fn same_method(one: &Method, other: &Method) -> bool
    ensures { result ≡ true → one.now ≡ other.now }
{
    same_heads(one, other) && same_marks(one, other) && same_bodies(one, other)
}

/// Two lists of classes.
pub fn same_classes(one: &[Class], other: &[Class]) -> bool
    ensures { result ≡ true → one.now ≡ other.now }
{
    let mut rest = other;
    for x in one {
        let [y, later @ ..] = rest else {
            return false;
        };
        if !same_class(x, y) {
            return false;
        }
        rest = later;
    }
    rest.is_empty()
}

/// Two lists of methods.
pub fn same_methods(one: &[Method], other: &[Method]) -> bool
    ensures { result ≡ true → one.now ≡ other.now }
{
    let mut rest = other;
    for x in one {
        let [y, later @ ..] = rest else {
            return false;
        };
        if !same_method(x, y) {
            return false;
        }
        rest = later;
    }
    rest.is_empty()
}

/// Two lists of fields.
pub fn same_fields(one: &[Field], other: &[Field]) -> bool
    ensures { result ≡ true → one.now ≡ other.now }
{
    let mut rest = other;
    for x in one {
        let [y, later @ ..] = rest else {
            return false;
        };
        if !same_field(x, y) {
            return false;
        }
        rest = later;
    }
    rest.is_empty()
}
