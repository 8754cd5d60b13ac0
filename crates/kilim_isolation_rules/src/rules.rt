//! The step of an instruction.

ghost use Rattle.std.specs.Prelude.{◌≡◌, ◌++◌, [], None, Result, Ok, Err, MatchResult, replicate, IfOk, OnOk, option_copied};
ghost use Rattle.kilim_program.specs.declared.class.Method.{Method};
ghost use Rattle.kilim_program.specs.declared.ty.Base.TheVariants as Base;
ghost use Rattle.kilim_program.specs.Names.{field_of};
ghost use Rattle.kilim_program.specs.Program.{Program};
ghost use Rattle.kilim_type_spec.specs.Step.{Types};
ghost use Rattle.kilim_isolation_rules.specs.Actions.{deed_by};
ghost use Rattle.kilim_isolation_rules.specs.Actions as actions;
ghost use Rattle.kilim_isolation_graph.specs.Graphs.{popped};
ghost use Rattle.kilim_isolation_rules.specs.Marks.{marked, plain};
ghost use Rattle.kilim_isolation_rules.specs.Marks as marks;
ghost use Rattle.kilim_isolation_rules.specs.Answers.{IsStep};
ghost use Rattle.kilim_isolation_rules.specs.Rules as spec;

use crate::action::{Action, Words, action_of};
use crate::calls::{call_method, raise_in_call};
use crate::deed::{Broken, Deed, as_deed, none_broken};
use crate::fields::{gets_element, gets_field, puts_element, puts_field};
use crate::growth::{copied, give, pop, push, set_local};
use crate::marks::{mixes, names_gone, names_no_root, stack_lives};
use crate::shuffles::shuffled;
use kilim_isolation_graph::{Graph, slot_at, type_at};
use kilim_program::lookups::method_at;
use kilim_program::{Base, ClassId, Field, FieldId, Instr, Kind, Method, Program, Ty, VType};
use kilim_units::{NoMemory, Seq};
use std::alloc::Global;

/// Why a step gives no graph.
#[derive(Clone, Copy)]
pub enum StepFault {
    /// The least rule that is broken: 1 to 7, or 9.
    Rule(u8),
    Memory,
}

fn field_of(program: &Program, id: FieldId) -> Option<&Field>
    ensures { option_copied result ≡ field_of program.now id }
{
    program.fields.as_slice().get(id.0 as usize)
}

fn class_ty(class: ClassId) -> Ty
    ensures { result ≡ record { dims = 0; base = Base.Class class } }
{
    Ty {
        dims: 0,
        base: Base::Class(class),
    }
}

// So many items are given, which name no node.
fn push_none(graph: &mut Graph, count: usize) -> Result<(), NoMemory>
    ensures { OnOk result (graph.new ≡ record graph.old { stack = replicate count None ++ graph.old.stack }) }
{
    for _ in 0..count {
        let Ok(()) = push(graph, None) else {
            return Err(NoMemory);
        };
    }
    Ok(())
}

// So many items are taken from the stack, and so many given, which name no node.
fn passes(alloc: Global, graph: &mut Graph, takes: usize, gives: usize) -> Result<Broken, NoMemory>
    ensures { IfOk result (λ broken. marked broken graph.new ≡ plain (spec.passed_by takes gives graph.old)) }
{
    let Ok(()) = pop(alloc, graph, takes) else {
        return Err(NoMemory);
    };
    let Ok(()) = push_none(graph, gives) else {
        return Err(NoMemory);
    };
    Ok(none_broken())
}

// So many items are taken from the stack, and a new object of a kind is given.
fn makes(alloc: Global, graph: &mut Graph, takes: usize, kind: Kind) -> Result<Broken, NoMemory>
    ensures { IfOk result (λ broken. marked broken graph.new ≡ plain (marks.given kind (popped takes graph.old))) }
{
    let Ok(()) = pop(alloc, graph, takes) else {
        return Err(NoMemory);
    };
    let Ok(()) = give(graph, kind) else {
        return Err(NoMemory);
    };
    Ok(none_broken())
}

fn loads_reference(graph: &mut Graph, slot: u16) -> Result<Broken, NoMemory>
    ensures { IfOk result (λ broken. marked broken graph.new ≡ actions.reference_loaded graph.old slot) }
{
    let name = graph.locals.get(usize::from(slot));
    let mut broken = none_broken();
    broken.gone = names_gone(graph, name);
    let Ok(()) = push(graph, name) else {
        return Err(NoMemory);
    };
    Ok(broken)
}

fn stores_reference(alloc: Global, graph: &mut Graph, slot: u16) -> Result<Broken, NoMemory>
    ensures { IfOk result (λ broken. marked broken graph.new ≡ actions.reference_stored graph.old slot) }
{
    let name = slot_at(graph.stack.as_slice(), 0);
    let Ok(()) = pop(alloc, graph, 1) else {
        return Err(NoMemory);
    };
    let Ok(()) = set_local(graph, usize::from(slot), name) else {
        return Err(NoMemory);
    };
    Ok(none_broken())
}

fn stores_value(
    alloc: Global,
    graph: &mut Graph,
    slot: u16,
    is_long: bool,
) -> Result<Broken, NoMemory>
    ensures { IfOk result (λ broken. marked broken graph.new ≡ plain (actions.value_stored slot is_long graph.old)) }
{
    let Ok(()) = pop(alloc, graph, 1) else {
        return Err(NoMemory);
    };
    let Ok(()) = set_local(graph, usize::from(slot), None) else {
        return Err(NoMemory);
    };
    if !is_long {
        return Ok(none_broken());
    }
    let Ok(()) = set_local(graph, usize::from(slot) + 1, None) else {
        return Err(NoMemory);
    };
    Ok(none_broken())
}

fn shuffles(
    alloc: Global,
    graph: &mut Graph,
    types: &[VType],
    words: Words,
) -> Result<Broken, NoMemory>
    ensures { IfOk result (λ broken. marked broken graph.new ≡ actions.words_shuffled graph.old types.now words) }
{
    let Ok(stack) = shuffled(alloc, words, types, graph.stack.as_slice()) else {
        return Err(NoMemory);
    };
    graph.stack = stack;
    Ok(none_broken())
}

// A new array of references, by the type of its elements.
fn makes_references(
    alloc: Global,
    program: &Program,
    graph: &mut Graph,
    element: Ty,
) -> Result<Broken, NoMemory>
    ensures { IfOk result (λ broken. marked broken graph.new ≡ actions.references_made program.now graph.old element) }
{
    let kind = program.kind(&Ty {
        dims: 1,
        base: element.base,
    });
    makes(alloc, graph, 1, kind)
}

fn gets_static(
    alloc: Global,
    program: &Program,
    graph: &mut Graph,
    id: FieldId,
) -> Result<Broken, NoMemory>
    ensures { IfOk result (λ broken. (m : Method) (f : Types) → marked broken graph.new ≡ deed_by program.now m graph.old f (Action.GetsStatic id)) }
{
    match field_of(program, id) {
        None => passes(alloc, graph, 0, 0),
        Some(_) => passes(alloc, graph, 0, 1),
    }
}

// A value is returned, or nothing.
fn returns(alloc: Global, graph: &mut Graph) -> Broken
    ensures { marked result graph.new ≡ plain (record graph.old { stack = [] }) }
{
    graph.stack = Seq::new(alloc);
    none_broken()
}

fn result_mixes(program: &Program, method: &Method, ty: VType) -> bool
    ensures { result ≡ spec.result_mixes program.now method.now.result ty }
{
    match method.result {
        None => false,
        Some(into) => mixes(program, ty, VType::Object(into)),
    }
}

fn returns_reference(
    alloc: Global,
    program: &Program,
    method: &Method,
    graph: &mut Graph,
    types: &[VType],
) -> Broken
    ensures { marked result graph.new ≡ spec.returns program.now method.now graph.old types.now }
{
    let mut broken = none_broken();
    broken.not_free = names_no_root(graph, slot_at(graph.stack.as_slice(), 0));
    broken.mixed = result_mixes(program, method, type_at(types, 0));
    graph.stack = Seq::new(alloc);
    broken
}

fn casts(program: &Program, types: &[VType], into: Ty) -> Broken
    ensures { (g : Graph) → marked result g ≡ actions.cast program.now g types.now into }
{
    let from = type_at(types, 0);
    let to = VType::Object(into);
    let mut broken = none_broken();
    broken.mixed = mixes(program, from, to) || mixes(program, to, from);
    broken
}

// What an action does, by the types of the stack, the top first.
fn act(
    alloc: Global,
    program: &Program,
    method: &Method,
    graph: &mut Graph,
    types: &[VType],
    action: Action,
) -> Result<Broken, NoMemory>
    ensures { IfOk result (λ broken. (f : Types) → f.stack ≡ types.now → marked broken graph.new ≡ deed_by program.now method.now graph.old f action) }
{
    match action {
        Action::Passes(takes, gives) => passes(alloc, graph, takes, gives),
        Action::LoadsReference(slot) => loads_reference(graph, slot),
        Action::StoresReference(slot) => stores_reference(alloc, graph, slot),
        Action::StoresValue(slot, is_long) => stores_value(alloc, graph, slot, is_long),
        Action::Shuffles(words) => shuffles(alloc, graph, types, words),
        Action::MakesObject(class) => makes(alloc, graph, 0, program.kind(&class_ty(class))),
        Action::MakesValues => makes(alloc, graph, 1, Kind::Tree),
        Action::MakesReferences(ty) => makes_references(alloc, program, graph, ty),
        Action::GetsStatic(id) => gets_static(alloc, program, graph, id),
        Action::GetsField(id) => gets_field(alloc, program, graph, id, field_of(program, id)),
        Action::PutsField(id) => puts_field(
            alloc,
            program,
            graph,
            types,
            id,
            field_of(program, id),
        ),
        Action::GetsElement => gets_element(alloc, program, graph, types),
        Action::PutsElement => puts_element(alloc, program, graph, types),
        Action::Calls(id) => call_method(alloc, program, graph, types, method_at(program, id)),
        Action::ReturnsReference => Ok(returns_reference(alloc, program, method, graph, types)),
        Action::Returns => Ok(returns(alloc, graph)),
        Action::Casts(ty) => Ok(casts(program, types, ty)),
    }
}

/// What an instruction does to a graph, with a mark for each rule that it breaks, by the types of the stack, the top first.
pub fn deed_of(
    alloc: Global,
    program: &Program,
    method: &Method,
    graph: &Graph,
    types: &[VType],
    instr: &Instr,
) -> Result<Deed, NoMemory>
    ensures { IfOk result (λ deed. (f : Types) → f.stack ≡ types.now → deed ≡ spec.deed program.now method.now graph.now f instr.now) }
{
    let Ok(mut new) = copied(alloc, graph) else {
        return Err(NoMemory);
    };
    match act(alloc, program, method, &mut new, types, action_of(instr)) {
        Ok(broken) => Ok(as_deed(broken, new)),
        Err(fault) => {
            drop(new);
            Err(fault)
        }
    }
}

// What an instruction makes of a graph where it raises.
#[tactic(auto, unfolding(crate::specs::Rules::raised_deed))]
fn raise(
    alloc: Global,
    program: &Program,
    graph: &mut Graph,
    types: &[VType],
    instr: &Instr,
) -> Result<Broken, NoMemory>
    ensures { IfOk result (λ broken. (f : Types) → f.stack ≡ types.now → marked broken graph.new ≡ spec.raised_deed program.now graph.old f instr.now) }
{
    let callee = match *instr {
        Instr::Invokevirtual(id) | Instr::Invokespecial(id) | Instr::Invokestatic(id) => {
            method_at(program, id)
        }
        _ => None,
    };
    raise_in_call(alloc, program, graph, types, callee)
}

/// What an instruction does to a graph where it raises, with a mark for each rule that it breaks: a call takes its arguments, every
/// other one changes nothing; then the stack is one slot that names no node.
pub fn raised_deed_of(
    alloc: Global,
    program: &Program,
    graph: &Graph,
    types: &[VType],
    instr: &Instr,
) -> Result<Deed, NoMemory>
    ensures { IfOk result (λ deed. (f : Types) → f.stack ≡ types.now → deed ≡ spec.raised_deed program.now graph.now f instr.now) }
{
    let Ok(mut new) = copied(alloc, graph) else {
        return Err(NoMemory);
    };
    match raise(alloc, program, &mut new, types, instr) {
        Ok(broken) => Ok(as_deed(broken, new)),
        Err(fault) => {
            drop(new);
            Err(fault)
        }
    }
}

// The least rule that a deed breaks.
fn keeps(deed: &Deed, flows: bool) -> Result<(), u8>
    ensures { MatchResult result (λ u. spec.judged deed.now flows ≡ Ok deed.now.graph) (λ rule. spec.judged deed.now flows ≡ Err rule) }
{
    if deed.not_free {
        Err(1)
    } else if deed.gone {
        Err(2)
    } else if deed.safe_changed {
        Err(3)
    } else if deed.cycle {
        Err(4)
    } else if deed.shared {
        Err(5)
    } else if deed.mixed || flows {
        Err(6)
    } else if deed.not_cuttable {
        Err(7)
    } else if !stack_lives(&deed.graph) {
        Err(9)
    } else {
        Ok(())
    }
}

/// The graph of a deed, or the least rule that it breaks; `flows` says that the flow to the next place mixes kinds. Takes no
/// memory.
pub fn judge(deed: Deed, flows: bool) -> Result<Graph, StepFault>
    ensures { IsStep (spec.judged deed flows) result }
{
    match keeps(&deed, flows) {
        Ok(()) => Ok(deed.graph),
        Err(rule) => Err(StepFault::Rule(rule)),
    }
}
