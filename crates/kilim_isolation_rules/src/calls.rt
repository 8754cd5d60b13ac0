//! Calls: the arguments with their rules, and then the result.

ghost use Rattle.std.specs.Prelude.{◌≡◌, ◌++◌, [], length, reverse, take, IfOk, OnOk, option_copied};
ghost use Rattle.std.specs.List.{list_any};
ghost use Rattle.kilim_program.specs.Same.{is_constructor};
ghost use Rattle.kilim_isolation_rules.specs.Calls as spec;
ghost use Rattle.kilim_isolation_rules.specs.Marks.{marked};
ghost use Rattle.kilim_isolation_graph.specs.Graphs.{popped, slot};
ghost use Rattle.kilim_isolation_graph.specs.declared.graph.Graph.{Graph as AGraph};
ghost use Rattle.kilim_type_spec.specs.Step.{peek};

use crate::deed::{Broken, Passed, none_broken};
use crate::growth::{give, pop, push};
use crate::marks::{mixes, names_no_root, names_safe};
use crate::shuffles::first;
use crate::steps::{cut, give_away};
use kilim_isolation_graph::{Graph, quality, slot_at, turned, type_at};
use kilim_program::{Base, Method, Program, Qualifier, Ty, VType};
use kilim_units::{NoMemory, Seq};
use std::alloc::Global;

fn is_free(quality: Option<Qualifier>) -> bool
    ensures { result ≡ spec.is_free quality }
{
    match quality {
        Some(Qualifier::Free) => true,
        Some(Qualifier::Cuttable | Qualifier::Safe) | None => false,
    }
}

fn is_cuttable(quality: Option<Qualifier>) -> bool
    ensures { result ≡ spec.is_cuttable quality }
{
    match quality {
        Some(Qualifier::Cuttable) => true,
        Some(Qualifier::Free | Qualifier::Safe) | None => false,
    }
}

fn quality_in(program: &Program, argument: &Passed) -> Option<Qualifier>
    ensures { result ≡ spec.quality_in program.now argument.now }
{
    if argument.is_begun {
        return Some(argument.qualifier);
    }
    quality(program, &argument.into, argument.qualifier)
}

fn is_not_free(program: &Program, graph: &Graph, argument: &Passed) -> bool
    ensures { result ≡ spec.is_not_free program.now graph.now argument.now }
{
    is_free(quality_in(program, argument)) && names_no_root(graph, argument.name)
}

fn is_mixed(program: &Program, argument: &Passed) -> bool
    ensures { result ≡ spec.is_mixed program.now argument.now }
{
    !argument.is_begun && mixes(program, argument.ty, VType::Object(argument.into))
}

fn is_not_cuttable(program: &Program, graph: &Graph, argument: &Passed) -> bool
    ensures { result ≡ spec.is_not_cuttable program.now graph.now argument.now }
{
    is_cuttable(quality_in(program, argument)) && names_safe(graph, argument.name)
}

fn same_region(graph: &Graph, a: Option<usize>, b: Option<usize>) -> bool
    ensures { result ≡ spec.same_region graph.now a b }
{
    match (a, b) {
        (Some(a), Some(b)) => graph.region(a) == graph.region(b),
        (Some(_), None) | (None, _) => false,
    }
}

fn is_owned(quality: Option<Qualifier>) -> bool
    ensures { result ≡ spec.is_owned quality }
{
    is_free(quality) || is_cuttable(quality)
}

fn shares(program: &Program, graph: &Graph, a: &Passed, b: &Passed) -> bool
    ensures { result ≡ spec.shares program.now graph.now a.now b.now }
{
    same_region(graph, a.name, b.name)
        && (is_owned(quality_in(program, a)) || is_owned(quality_in(program, b)))
}

fn any_not_free(program: &Program, graph: &Graph, arguments: &[Passed]) -> bool
    ensures { result ≡ list_any (spec.is_not_free program.now graph.now) arguments.now }
{
    for argument in arguments {
        if is_not_free(program, graph, argument) {
            return true;
        }
    }
    false
}

fn any_mixed(program: &Program, arguments: &[Passed]) -> bool
    ensures { result ≡ list_any (spec.is_mixed program.now) arguments.now }
{
    for argument in arguments {
        if is_mixed(program, argument) {
            return true;
        }
    }
    false
}

fn any_not_cuttable(program: &Program, graph: &Graph, arguments: &[Passed]) -> bool
    ensures { result ≡ list_any (spec.is_not_cuttable program.now graph.now) arguments.now }
{
    for argument in arguments {
        if is_not_cuttable(program, graph, argument) {
            return true;
        }
    }
    false
}

fn shares_any(program: &Program, graph: &Graph, a: &Passed, others: &[Passed]) -> bool
    ensures { result ≡ list_any (spec.shares program.now graph.now a.now) others.now }
{
    for b in others {
        if shares(program, graph, a, b) {
            return true;
        }
    }
    false
}

fn any_shared(program: &Program, graph: &Graph, arguments: &[Passed]) -> bool
    ensures { result ≡ spec.any_two (spec.shares program.now graph.now) arguments.now }
{
    let mut left = arguments;
    while let Some((first, others)) = left.split_first() {
        if shares_any(program, graph, first, others) {
            return true;
        }
        left = others;
    }
    false
}

// The parameters with what is passed for them, behind those that are there.
fn push_passed(
    tys: &[Ty],
    qualifiers: &[Qualifier],
    names: &[Option<usize>],
    types: &[VType],
    passed: &mut Seq<Passed>,
) -> Result<(), NoMemory>
    ensures { IfOk result (λ u. passed.new ≡ passed.old ++ spec.parameters tys.now qualifiers.now names.now types.now) }
{
    let count = tys
        .len()
        .min(qualifiers.len())
        .min(names.len())
        .min(types.len());
    for at in 0..count {
        let Ok(()) = passed.push(Passed {
            name: names[at],
            ty: types[at],
            into: tys[at],
            qualifier: qualifiers[at],
            is_begun: false,
        }) else {
            return Err(NoMemory);
        };
    }
    Ok(())
}

fn is_constructor(method: &Method) -> bool
    ensures { result ≡ is_constructor method.now }
{
    method.name.is_text(b"<init>")
}

// The parameters of a method with what is passed for them, behind what is there.
fn push_parameters(
    alloc: Global,
    callee: &Method,
    graph: &Graph,
    types: &[VType],
    passed: &mut Seq<Passed>,
) -> Result<(), NoMemory>
    ensures { IfOk result (λ u. passed.new ≡ passed.old ++ spec.parameters callee.now.params callee.now.qualifiers (reverse (take (length callee.now.params) graph.now.stack)) (reverse (take (length callee.now.params) types.now))) }
{
    let count = callee.params.len();
    let Ok(names) = turned::<Option<usize>>(alloc, first(graph.stack.as_slice(), count)) else {
        return Err(NoMemory);
    };
    let Ok(above) = turned::<VType>(alloc, first(types, count)) else {
        return Err(NoMemory);
    };
    push_passed(
        callee.params.as_slice(),
        callee.qualifiers.as_slice(),
        &names,
        &above,
        passed,
    )
}

// The receiver of a call.
fn receiver(callee: &Method, graph: &Graph, types: &[VType]) -> Passed
    ensures { result ≡ spec.receiver callee.now (slot graph.now.stack (length callee.now.params)) (peek types.now (length callee.now.params)) }
{
    let count = callee.params.len();
    Passed {
        name: slot_at(graph.stack.as_slice(), count),
        ty: type_at(types, count),
        into: Ty {
            dims: 0,
            base: Base::Class(callee.owner),
        },
        qualifier: callee.receiver,
        is_begun: is_constructor(callee),
    }
}

fn all_passed(
    alloc: Global,
    callee: &Method,
    graph: &Graph,
    types: &[VType],
) -> Result<Seq<Passed>, NoMemory>
    ensures { IfOk result (λ passed. passed ≡ spec.all_passed callee.now graph.now types.now) }
{
    let mut passed = Seq::new(alloc);
    if !callee.is_static {
        let Ok(()) = passed.push(receiver(callee, graph, types)) else {
            return Err(NoMemory);
        };
    }
    let Ok(()) = push_parameters(alloc, callee, graph, types, &mut passed) else {
        return Err(NoMemory);
    };
    Ok(passed)
}

// What is left of a graph by one argument.
fn pass(
    alloc: Global,
    program: &Program,
    graph: &mut Graph,
    argument: &Passed,
) -> Result<(), NoMemory>
    ensures { OnOk result (graph.new ≡ spec.after_arguments (spec.more_arguments (spec.quality_in program.now argument.now) argument.now.name []) graph.old) }
{
    let Some(name) = argument.name else {
        return Ok(());
    };
    match quality_in(program, argument) {
        Some(Qualifier::Free) => {
            let Ok(nodes) = give_away(alloc, graph.nodes.as_slice(), name) else {
                return Err(NoMemory);
            };
            graph.nodes = nodes;
            Ok(())
        }
        Some(Qualifier::Cuttable) => {
            let Ok(nodes) = cut(alloc, graph.nodes.as_slice(), name, None, 0) else {
                return Err(NoMemory);
            };
            graph.nodes = nodes;
            Ok(())
        }
        Some(Qualifier::Safe) | None => Ok(()),
    }
}

// What is left of a graph by the arguments of a call.
fn pass_all(
    alloc: Global,
    program: &Program,
    arguments: &[Passed],
    graph: &mut Graph,
) -> Result<(), NoMemory>
    ensures { OnOk result (graph.new ≡ spec.after_call program.now arguments.now graph.old) }
{
    for argument in arguments {
        let Ok(()) = pass(alloc, program, graph, argument) else {
            return Err(NoMemory);
        };
    }
    Ok(())
}

// Takes the arguments of a call.
#[tactic(auto, using(crate::proofs::Slots::drop_both, crate::proofs::Slots::drop_none))]
fn pop_arguments(alloc: Global, callee: &Method, graph: &mut Graph) -> Result<(), NoMemory>
    ensures { OnOk result (graph.new ≡ popped (spec.takes_from callee.now) graph.old) }
{
    let Ok(()) = pop(alloc, graph, callee.params.len()) else {
        return Err(NoMemory);
    };
    if callee.is_static {
        return Ok(());
    }
    pop(alloc, graph, 1)
}

fn give_result(program: &Program, result_ty: Option<Ty>, graph: &mut Graph) -> Result<(), NoMemory>
    ensures { OnOk result (graph.new ≡ spec.given_result program.now result_ty graph.old) }
{
    match result_ty {
        None => Ok(()),
        Some(ty) => give(graph, program.kind(&ty)),
    }
}

// The rules that the arguments of a call break.
fn broken_by(program: &Program, graph: &Graph, arguments: &[Passed]) -> Broken
    ensures { (left : AGraph) → marked result left ≡ spec.passes_with program.now arguments.now graph.now left }
{
    let mut broken = none_broken();
    broken.not_free = any_not_free(program, graph, arguments);
    broken.shared = any_shared(program, graph, arguments);
    broken.mixed = any_mixed(program, arguments);
    broken.not_cuttable = any_not_cuttable(program, graph, arguments);
    broken
}

// The graph after a call.
fn call(
    alloc: Global,
    program: &Program,
    callee: &Method,
    arguments: &[Passed],
    graph: &mut Graph,
) -> Result<(), NoMemory>
    ensures { OnOk result (graph.new ≡ spec.given_result program.now callee.now.result (popped (spec.takes_from callee.now) (spec.after_call program.now arguments.now graph.old))) }
{
    let Ok(()) = pass_all(alloc, program, arguments, graph) else {
        return Err(NoMemory);
    };
    let Ok(()) = pop_arguments(alloc, callee, graph) else {
        return Err(NoMemory);
    };
    give_result(program, callee.result, graph)
}

// A call with these arguments.
fn call_with(
    alloc: Global,
    program: &Program,
    callee: &Method,
    arguments: &[Passed],
    graph: &mut Graph,
) -> Result<Broken, NoMemory>
    ensures { IfOk result (λ broken. marked broken graph.new ≡ spec.calls_with program.now callee.now arguments.now graph.old) }
{
    let broken = broken_by(program, graph, arguments);
    let Ok(()) = call(alloc, program, callee, arguments, graph) else {
        return Err(NoMemory);
    };
    Ok(broken)
}

// One slot on the stack, which names no node.
fn leave_one(alloc: Global, graph: &mut Graph) -> Result<(), NoMemory>
    ensures { OnOk result (graph.new ≡ spec.handler_graph graph.old) }
{
    graph.stack = Seq::new(alloc);
    push(graph, None)
}

// A call with these arguments that raises.
fn raise_with(
    alloc: Global,
    program: &Program,
    arguments: &[Passed],
    graph: &mut Graph,
) -> Result<Broken, NoMemory>
    ensures { IfOk result (λ broken. marked broken graph.new ≡ spec.raises_with program.now arguments.now graph.old) }
{
    let broken = broken_by(program, graph, arguments);
    let Ok(()) = pass_all(alloc, program, arguments, graph) else {
        return Err(NoMemory);
    };
    let Ok(()) = leave_one(alloc, graph) else {
        return Err(NoMemory);
    };
    Ok(broken)
}

/// A call that raises; one of no method takes no arguments.
pub fn raise_in_call(
    alloc: Global,
    program: &Program,
    graph: &mut Graph,
    types: &[VType],
    callee: Option<&Method>,
) -> Result<Broken, NoMemory>
    ensures { IfOk result (λ broken. marked broken graph.new ≡ spec.call_raises program.now graph.old types.now (option_copied callee.entry)) }
{
    let Some(callee) = callee else {
        let Ok(()) = leave_one(alloc, graph) else {
            return Err(NoMemory);
        };
        return Ok(none_broken());
    };
    let Ok(arguments) = all_passed(alloc, callee, graph, types) else {
        return Err(NoMemory);
    };
    raise_with(alloc, program, arguments.as_slice(), graph)
}

/// A call; one of no method changes nothing.
pub fn call_method(
    alloc: Global,
    program: &Program,
    graph: &mut Graph,
    types: &[VType],
    callee: Option<&Method>,
) -> Result<Broken, NoMemory>
    ensures { IfOk result (λ broken. marked broken graph.new ≡ spec.calls program.now graph.old types.now (option_copied callee.entry)) }
{
    let Some(callee) = callee else {
        return Ok(none_broken());
    };
    let Ok(arguments) = all_passed(alloc, callee, graph, types) else {
        return Err(NoMemory);
    };
    call_with(alloc, program, callee, arguments.as_slice(), graph)
}
