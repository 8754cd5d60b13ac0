//! The graph with which a method begins.

ghost use Rattle.std.specs.Prelude.{◌≡◌, ◌++◌, [], ◌∷◌, ◌-◌, ◌<◌, ◌^◌, length, replicate, IfOk};
ghost use Rattle.kilim_type_spec.specs.Step.{vtype};
ghost use Rattle.kilim_isolation_graph.specs.Entry as spec;
ghost use Rattle.kilim_isolation_graph.specs.Nodes as list;

use crate::graph::Graph;
use crate::node::{Node, Standing};
use crate::slots::Slots;
use kilim_program::{Base, Kind, Method, Program, Qualifier, Ty};
use kilim_units::{NoMemory, Seq};
use std::alloc::Global;

/// A parameter, or the receiver.
#[derive(Clone, Copy)]
pub struct Parameter {
    pub ty: Ty,
    pub qualifier: Qualifier,
}

/// What a method may do with a tree of that type that it is handed; none where the type is no tree. Takes no memory.
pub fn quality(program: &Program, ty: &Ty, qualifier: Qualifier) -> Option<Qualifier>
    ensures { result ≡ spec.quality program.now ty.now qualifier }
{
    match program.kind(ty) {
        Kind::Tree => Some(qualifier),
        Kind::Value | Kind::Private => None,
    }
}

// The parameters behind those that are there.
fn push_parameters(
    tys: &[Ty],
    qualifiers: &[Qualifier],
    list: &mut Seq<Parameter>,
) -> Result<(), NoMemory>
    ensures { IfOk result (λ u. list.new ≡ list.old ++ spec.declared_parameters tys.now qualifiers.now) }
{
    for at in 0..tys.len().min(qualifiers.len()) {
        let Ok(()) = list.push(Parameter {
            ty: tys[at],
            qualifier: qualifiers[at],
        }) else {
            return Err(NoMemory);
        };
    }
    Ok(())
}

/// The parameters; the receiver is the first one.
pub fn parameters_of(alloc: Global, method: &Method) -> Result<Seq<Parameter>, NoMemory>
    ensures { IfOk result (λ list. list ≡ spec.parameters_of method.now) }
{
    let mut list = Seq::new(alloc);
    if !method.is_static {
        let Ok(()) = list.push(Parameter {
            ty: Ty {
                dims: 0,
                base: Base::Class(method.owner),
            },
            qualifier: method.receiver,
        }) else {
            return Err(NoMemory);
        };
    }
    let Ok(()) = push_parameters(
        method.params.as_slice(),
        method.qualifiers.as_slice(),
        &mut list,
    ) else {
        return Err(NoMemory);
    };
    Ok(list)
}

fn tree_name(program: &Program, ty: &Ty, number: usize) -> Option<usize>
    ensures { result ≡ spec.tree_name program.now ty.now number }
{
    match program.kind(ty) {
        Kind::Tree => Some(number),
        Kind::Value | Kind::Private => None,
    }
}

fn is_long(ty: &Ty) -> bool
    ensures { result ≡ spec.is_long_type ty.now }
{
    if ty.dims > 0 {
        return false;
    }
    match ty.base {
        Base::Long => true,
        Base::Bool | Base::Byte | Base::Char | Base::Short | Base::Int | Base::Class(_) => false,
    }
}

// The slots of a parameter behind those that are there.
fn push_slots(locals: &mut Seq<Option<usize>>, ty: &Ty, name: Option<usize>) -> Result<(), NoMemory>
    ensures { IfOk result (λ u. locals.new ≡ locals.old ++ spec.name_slots (vtype ty.now) name []) }
{
    let Ok(()) = locals.push(name) else {
        return Err(NoMemory);
    };
    if is_long(ty) {
        let Ok(()) = locals.push(None) else {
            return Err(NoMemory);
        };
    }
    Ok(())
}

fn entry_names(
    alloc: Global,
    program: &Program,
    parameters: &[Parameter],
) -> Result<Seq<Option<usize>>, NoMemory>
    ensures { IfOk result (λ names. names ≡ spec.entry_names program.now parameters.now 0) }
{
    let mut names = Seq::new(alloc);
    for (number, parameter) in parameters.iter().enumerate() {
        let Ok(()) = push_slots(
            &mut names,
            &parameter.ty,
            tree_name(program, &parameter.ty, number),
        ) else {
            return Err(NoMemory);
        };
    }
    Ok(names)
}

fn entry_node(quality: Option<Qualifier>, number: usize) -> Node
    requires { number < 2 ^ 63 }
    ensures { result ≡ spec.entry_node quality number }
{
    let (region, standing, head) = match quality {
        None => (0, Standing::Gone, false),
        Some(Qualifier::Free) => (number + 1, Standing::Root, true),
        Some(Qualifier::Cuttable) => (number + 1, Standing::Inner, true),
        Some(Qualifier::Safe) => (0, Standing::Safe, false),
    };
    Node {
        region,
        standing,
        head,
        parent: None,
    }
}

fn entry_nodes(
    alloc: Global,
    program: &Program,
    parameters: &[Parameter],
) -> Result<Seq<Node>, NoMemory>
    ensures { IfOk result (λ nodes. nodes ≡ list.listed (λ k. spec.entry_node (spec.quality_from program.now parameters.now k) k) (length parameters.now)) }
{
    let mut nodes = Seq::new(alloc);
    for (number, parameter) in parameters.iter().enumerate() {
        let Ok(()) = nodes.push(entry_node(
            quality(program, &parameter.ty, parameter.qualifier),
            number,
        )) else {
            return Err(NoMemory);
        };
    }
    Ok(nodes)
}

impl Graph {
    #[tactic(auto, unfolding(crate::specs::Entry::entry_nodes))]
    /// The graph with which a method begins, before its canonical form is taken: a free parameter is a root and the head of a
    /// region of its own, a cuttable one is the head of a region of its own, all safe ones are of one region. The receiver
    /// counts as a parameter.
    pub fn entry(alloc: Global, program: &Program, method: &Method) -> Result<Graph, NoMemory>
        ensures { IfOk result (λ graph. graph ≡ spec.entry_nodes program.now method.now) }
    {
        let Ok(parameters) = parameters_of(alloc, method) else {
            return Err(NoMemory);
        };
        let Ok(names) = entry_names(alloc, program, parameters.as_slice()) else {
            return Err(NoMemory);
        };
        let more = usize::from(method.max_locals).saturating_sub(names.len());
        let Ok(nodes) = entry_nodes(alloc, program, parameters.as_slice()) else {
            return Err(NoMemory);
        };
        Ok(Graph {
            locals: Slots::new(names, more),
            stack: Seq::new(alloc),
            nodes,
        })
    }
}
