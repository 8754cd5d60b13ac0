//! Whether lists are equal.

ghost use Rattle.std.specs.Prelude.{◌≡◌, true};

use crate::same_programs::instrs::same_instr;
use crate::same_programs::parts::same_frame;
use kilim_program::{FieldId, Frame, Handler, Instr, MethodId, Qualifier, Ty, VType};

fn same_qualifier(one: Qualifier, other: Qualifier) -> bool
    ensures { result ≡ true → one ≡ other }
{
    one == other
}

fn same_match(one: &(i32, u32), other: &(i32, u32)) -> bool
    ensures { result ≡ true → one.now ≡ other.now }
{
    one.0 == other.0 && one.1 == other.1
}

fn same_placed_frame(one: &(u32, Frame), other: &(u32, Frame)) -> bool
    ensures { result ≡ true → one.now ≡ other.now }
{
    one.0 == other.0 && same_frame(&one.1, &other.1)
}

fn same_placed_instr(one: &(u32, Instr), other: &(u32, Instr)) -> bool
    ensures { result ≡ true → one.now ≡ other.now }
{
    one.0 == other.0 && same_instr(&one.1, &other.1)
}

/// Two lists of types.
pub fn same_tys(one: &[Ty], other: &[Ty]) -> bool
    ensures { result ≡ true → one.now ≡ other.now }
{
    one == other
}

/// Two lists of verification types.
pub fn same_slots(one: &[VType], other: &[VType]) -> bool
    ensures { result ≡ true → one.now ≡ other.now }
{
    one == other
}

/// Two lists of qualifiers.
pub fn same_qualifiers(one: &[Qualifier], other: &[Qualifier]) -> bool
    ensures { result ≡ true → one.now ≡ other.now }
{
    let mut rest = other;
    for x in one {
        let [y, later @ ..] = rest else {
            return false;
        };
        if !same_qualifier(*x, *y) {
            return false;
        }
        rest = later;
    }
    rest.is_empty()
}

/// Two lists of places.
pub fn same_places(one: &[u32], other: &[u32]) -> bool
    ensures { result ≡ true → one.now ≡ other.now }
{
    one == other
}

/// Two lists of matches with their places.
pub fn same_matches(one: &[(i32, u32)], other: &[(i32, u32)]) -> bool
    ensures { result ≡ true → one.now ≡ other.now }
{
    let mut rest = other;
    for x in one {
        let [y, later @ ..] = rest else {
            return false;
        };
        if !same_match(x, y) {
            return false;
        }
        rest = later;
    }
    rest.is_empty()
}

/// Two lists of fields by their numbers.
pub fn same_field_ids(one: &[FieldId], other: &[FieldId]) -> bool
    ensures { result ≡ true → one.now ≡ other.now }
{
    one == other
}

/// Two lists of methods by their numbers.
pub fn same_method_ids(one: &[MethodId], other: &[MethodId]) -> bool
    ensures { result ≡ true → one.now ≡ other.now }
{
    one == other
}

/// Two lists of frames with their places.
pub fn same_frames(one: &[(u32, Frame)], other: &[(u32, Frame)]) -> bool
    ensures { result ≡ true → one.now ≡ other.now }
{
    let mut rest = other;
    for x in one {
        let [y, later @ ..] = rest else {
            return false;
        };
        if !same_placed_frame(x, y) {
            return false;
        }
        rest = later;
    }
    rest.is_empty()
}

/// Two lists of instructions with their places.
pub fn same_code(one: &[(u32, Instr)], other: &[(u32, Instr)]) -> bool
    ensures { result ≡ true → one.now ≡ other.now }
{
    let mut rest = other;
    for x in one {
        let [y, later @ ..] = rest else {
            return false;
        };
        if !same_placed_instr(x, y) {
            return false;
        }
        rest = later;
    }
    rest.is_empty()
}

/// Two exception tables.
pub fn same_handlers(one: &[Handler], other: &[Handler]) -> bool
    ensures { result ≡ true → one.now ≡ other.now }
{
    one == other
}
