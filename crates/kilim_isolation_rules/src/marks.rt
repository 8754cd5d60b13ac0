//! What slots name and hold, and whether kinds are mixed.

ghost use Rattle.std.specs.Prelude.{◌≡◌};
ghost use Rattle.kilim_isolation_rules.specs.Marks as spec;

use kilim_isolation_graph::Graph;
use kilim_program::{Kind, Program, VType};

/// Whether a slot names what is gone.
pub fn names_gone(graph: &Graph, name: Option<usize>) -> bool
    ensures { result ≡ spec.names_gone graph.now name }
{
    match name {
        None => false,
        Some(node) => graph.standing(node).is_gone(),
    }
}

/// Whether a slot names a safe object.
pub fn names_safe(graph: &Graph, name: Option<usize>) -> bool
    ensures { result ≡ spec.names_safe graph.now name }
{
    match name {
        None => false,
        Some(node) => graph.standing(node).is_safe(),
    }
}

/// Whether a slot names a tree that isn't a known root.
pub fn names_no_root(graph: &Graph, name: Option<usize>) -> bool
    ensures { result ≡ spec.names_no_root graph.now name }
{
    match name {
        None => false,
        Some(node) => !graph.standing(node).is_root(),
    }
}

/// Whether a type is a tree.
pub fn is_tree(program: &Program, ty: VType) -> bool
    ensures { result ≡ spec.is_tree program.now ty }
{
    match ty {
        VType::Object(ty) => match program.kind(&ty) {
            Kind::Tree => true,
            Kind::Value | Kind::Private => false,
        },
        VType::Top
        | VType::Int
        | VType::Long
        | VType::Null
        | VType::UninitThis
        | VType::Uninit(_) => false,
    }
}

fn is_private(program: &Program, ty: VType) -> bool
    ensures { result ≡ spec.is_private program.now ty }
{
    match ty {
        VType::Object(ty) => match program.kind(&ty) {
            Kind::Private => true,
            Kind::Value | Kind::Tree => false,
        },
        VType::Top
        | VType::Int
        | VType::Long
        | VType::Null
        | VType::UninitThis
        | VType::Uninit(_) => false,
    }
}

/// Whether a tree flows into a private type.
pub fn mixes(program: &Program, ty: VType, into: VType) -> bool
    ensures { result ≡ spec.mixes program.now ty into }
{
    is_tree(program, ty) && is_private(program, into)
}

/// Whether some type of a list flows into the one at its place, and a tree becomes private.
pub fn any_mixes(program: &Program, types: &[VType], into: &[VType]) -> bool
    ensures { result ≡ spec.any_mixes program.now types.now into.now }
{
    let mut at = 0;
    while at < types.len() && at < into.len() {
        if mixes(program, types[at], into[at]) {
            return true;
        }
        at += 1;
    }
    false
}

/// Whether the stack names nothing that is gone.
pub fn stack_lives(graph: &Graph) -> bool
    ensures { result ≡ spec.stack_lives graph.now }
{
    for name in graph.stack.as_slice() {
        if names_gone(graph, *name) {
            return false;
        }
    }
    true
}
