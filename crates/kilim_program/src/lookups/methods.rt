//! Which method a call on an object selects (JVMS 5.4.6, own).

ghost use Rattle.std.specs.Prelude.{◌≡◌, ◌++◌, option_copied};
ghost use Rattle.std.specs.List.{flat_map};
ghost use Rattle.kilim_program.specs.Names.{method_at, methods_of, line_up_to, first_that};
ghost use Rattle.kilim_program.specs.Same.{same_type, same_types, same_result, same_signature, answers, selected};
ghost use Rattle.kilim_program.specs.lookups.Lines.{selected_of};

use crate::lookups::classes::{class_at, same_base};
use crate::{ClassId, Method, MethodId, Program, Ty};

/// The method of an id, none past the end.
pub fn method_at(program: &Program, method: MethodId) -> Option<&Method>
    ensures { option_copied result ≡ method_at program.now method }
{
    program.methods.as_slice().get(method.0 as usize)
}

fn same_type(a: Ty, b: Ty) -> bool
    ensures { result ≡ same_type a b }
{
    a.dims == b.dims && same_base(a.base, b.base)
}

fn same_types(a: &[Ty], b: &[Ty]) -> bool
    ensures { result ≡ same_types a.now b.now }
{
    if a.len() != b.len() {
        return false;
    }
    for (at, ty) in a.iter().enumerate() {
        if !same_type(*ty, b[at]) {
            return false;
        }
    }
    true
}

fn same_result(a: Option<Ty>, b: Option<Ty>) -> bool
    ensures { result ≡ same_result a b }
{
    match (a, b) {
        (None, None) => true,
        (Some(left), Some(right)) => same_type(left, right),
        _ => false,
    }
}

fn same_signature(a: &Method, b: &Method) -> bool
    ensures { result ≡ same_signature a.now b.now }
{
    a.name.is_same(&b.name)
        && same_types(a.params.as_slice(), b.params.as_slice())
        && same_result(a.result, b.result)
}

fn answers(program: &Program, named: &Method, method: MethodId) -> bool
    ensures { result ≡ answers named.now (method_at program.now method) }
{
    match method_at(program, method) {
        Some(other) => !other.is_private && same_signature(named, other),
        None => false,
    }
}

fn first_answer(program: &Program, named: &Method, methods: &[MethodId]) -> Option<MethodId>
    ensures { result ≡ first_that (λ m. answers named.now (method_at program.now m)) methods.now }
{
    for method in methods {
        if answers(program, named, *method) {
            return Some(*method);
        }
    }
    None
}

/// The method that a call on an object of a class selects: the first one of the name and descriptor of the named
/// one, from the class up, that isn't private. Takes no memory.
#[tactic(auto, using(crate::proofs::lookups::Lists::first_left, crate::proofs::lookups::Lists::first_right))]
pub fn selected(program: &Program, class: ClassId, named: &Method) -> Option<MethodId>
    ensures { result ≡ selected program.now class named.now }
{
    let mut at = class;
    let mut left = program.classes.len();
    while left > 0 {
        let Some(found) = class_at(program, at) else {
            return None;
        };
        if let Some(method) = first_answer(program, named, found.methods.as_slice()) {
            return Some(method);
        }
        let Some(up) = found.superclass else {
            return None;
        };
        at = up;
        left -= 1;
    }
    None
}
