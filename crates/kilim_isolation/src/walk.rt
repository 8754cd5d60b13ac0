//! The steps of a method's instructions.

ghost use Rattle.std.specs.Prelude.{◌≡◌, ◌<◌, ◌++◌, ◌∷◌, [], map, true, length, Some, None, Ok, Err, IfOk, OnOk, option_copied};
ghost use Rattle.std.specs.Option.{option_map, IfSome};
ghost use Rattle.kilim_program.specs.Lengths.{fetched};
ghost use Rattle.kilim_program.specs.Names.{method_at};
ghost use Rattle.kilim_isolation_paths.specs.Paths.{target};
ghost use Rattle.kilim_isolation_paths.specs.declared.machine.Exit.TheVariants as exit;
ghost use Rattle.kilim_type_spec.specs.Typed.{covers, frame_types};
ghost use Rattle.kilim_isolation_graph.specs.Canonical.{canonical_at};
ghost use Rattle.kilim_isolation_rules.specs.Answers.{IsStep};
ghost use Rattle.kilim_isolation.specs.Answers.{IsStepOf};
ghost use Rattle.kilim_isolation.specs.Tables.{IsTable, places_of};
ghost use Rattle.kilim_isolation.specs.Walks as spec;

use crate::exits::exits_of;
use crate::tables::{declared_by, fetch, frame_by};
use crate::{to_handler, transfer};
use kilim_isolation_graph::Graph;
use kilim_isolation_paths::Exit;
use kilim_isolation_rules::StepFault;
use kilim_program::{Frame, Handler, Instr, Method, MethodId, Program};
use kilim_type_spec::VerifiedFrame;
use kilim_units::{NoMemory, Seq};
use std::alloc::Global;

/// A law, and no work: the code of a program's method is whole, and each of its handlers is the place of an instruction.
pub fn whole(program: &Program, id: MethodId, method: &Method)
    requires { method_at program.now id ≡ Some method.now }
    ensures { spec.is_walkable method.now ≡ true }
{
    let _classes = &program.classes;
}

// Where the instruction at a place leads.
fn leads_to(
    alloc: Global,
    method: &Method,
    code_at: &[usize],
    place: u32,
) -> Result<Seq<Option<u32>>, NoMemory>
    requires table { IsTable code_at.now (places_of method.now.code) method.now.code_length }
    requires place { place < method.now.code_length }
    ensures { IfOk result (λ exits. exits ≡ spec.exits_of (fetched method.now.code method.now.code_length place)) }
{
    match fetch(method, code_at, place) {
        None => Ok(Seq::new(alloc)),
        Some((instr, next)) => exits_of(alloc, instr, next),
    }
}

// The exits of an instruction that is done.
fn push_leads(exits: &mut Seq<Exit>, places: &[Option<u32>]) -> Result<(), NoMemory>
    ensures { OnOk result (exits.new ≡ exits.old ++ map exit.To places.now) }
{
    for to in places {
        let Ok(()) = exits.push(Exit::To(*to)) else {
            return Err(NoMemory);
        };
    }
    Ok(())
}

fn covers(handler: &Handler, place: u32) -> bool
    ensures { result ≡ covers handler.now place }
{
    handler.start <= place && place < handler.end
}

// A handler, where its range has a place.
fn push_handler(exits: &mut Seq<Exit>, handler: &Handler, place: u32) -> Result<(), NoMemory>
    ensures { OnOk result (exits.new ≡ exits.old ++ spec.handled_at (handler.now ∷ []) place) }
{
    if !covers(handler, place) {
        return Ok(());
    }
    let Ok(()) = exits.push(Exit::Handler(handler.at)) else {
        return Err(NoMemory);
    };
    Ok(())
}

// The handlers whose range has a place.
fn push_handlers(exits: &mut Seq<Exit>, handlers: &[Handler], place: u32) -> Result<(), NoMemory>
    ensures { OnOk result (exits.new ≡ exits.old ++ spec.handled_at handlers.now place) }
{
    for handler in handlers {
        let Ok(()) = push_handler(exits, handler, place) else {
            return Err(NoMemory);
        };
    }
    Ok(())
}

/// The exits of a place: where the instruction leads when it is done, then the handlers whose range has it.
pub fn exits_at(
    alloc: Global,
    method: &Method,
    code_at: &[usize],
    place: u32,
) -> Result<Seq<Exit>, NoMemory>
    requires table { IsTable code_at.now (places_of method.now.code) method.now.code_length }
    requires place { place < method.now.code_length }
    ensures { IfOk result (λ exits. exits ≡ spec.exits_at method.now place) }
{
    let Ok(places) = leads_to(alloc, method, code_at, place) else {
        return Err(NoMemory);
    };
    let mut exits = Seq::new(alloc);
    let Ok(()) = push_leads(&mut exits, places.as_slice()) else {
        return Err(NoMemory);
    };
    let Ok(()) = push_handlers(&mut exits, method.handlers.as_slice(), place) else {
        return Err(NoMemory);
    };
    Ok(exits)
}

fn canonical(alloc: Global, graph: &Graph, after: Option<&Frame>) -> Result<Graph, StepFault>
    ensures { IsStep (Ok (canonical_at (option_map frame_types (option_copied after.entry)) graph.now)) result }
{
    match graph.canonical(alloc, after) {
        Ok(graph) => Ok(graph),
        Err(NoMemory) => Err(StepFault::Memory),
    }
}

// A step of an instruction, with the verified frame there.
fn step_by(
    alloc: Global,
    program: &Program,
    method: &Method,
    graph: &Graph,
    before: &VerifiedFrame,
    instr: &Instr,
    exit: Exit,
    after: Option<&Frame>,
) -> Result<Graph, StepFault>
    ensures { IsStepOf program.now method.now graph.now (frame_types before.now) instr.now exit (option_map frame_types (option_copied after.entry)) result }
{
    let left = match exit {
        Exit::To(_) => transfer(alloc, program, method, graph, before, instr, after),
        Exit::Handler(_) => to_handler(alloc, program, graph, before, instr, after),
    };
    match left {
        Ok(left) => {
            let stepped = canonical(alloc, &left, after);
            drop(left);
            stepped
        }
        Err(fault) => Err(fault),
    }
}

// The frame that is declared at the place of an exit, or none.
fn declared_to<'a>(method: &'a Method, frames_at: &[usize], exit: Option<u32>) -> Option<&'a Frame>
    requires table { IsTable frames_at.now (places_of method.now.frames) method.now.code_length }
    requires place { IfSome exit (λ to. to < method.now.code_length) }
    ensures { option_map frame_types (option_copied result) ≡ spec.declared_to method.now exit }
{
    match exit {
        None => None,
        Some(to) => declared_by(method, frames_at, to),
    }
}

/// The step at a place towards an exit: the graph there in its canonical form, or the least rule that is broken.
#[tactic(auto, unfolding(crate::specs::Walks::step))]
pub fn step(
    alloc: Global,
    program: &Program,
    method: &Method,
    code_at: &[usize],
    frames_at: &[usize],
    frames: &[VerifiedFrame],
    place: u32,
    graph: &Graph,
    exit: Exit,
) -> Result<Graph, StepFault>
    requires code { IsTable code_at.now (places_of method.now.code) method.now.code_length }
    requires declared { IsTable frames_at.now (places_of method.now.frames) method.now.code_length }
    requires place { place < method.now.code_length }
    requires exit { IfSome (target exit) (λ to. to < method.now.code_length) }
    ensures { IsStep (spec.step program.now method.now frames.now place graph.now exit) result }
{
    let Some((instr, _)) = fetch(method, code_at, place) else {
        return Err(StepFault::Rule(0));
    };
    let after = declared_to(method, frames_at, exit.target());
    match frame_by(method, code_at, frames, place) {
        Some(before) => step_by(alloc, program, method, graph, before, instr, exit, after),
        None => {
            let Ok(nothing) = VerifiedFrame::new(alloc, &[], 0, &[]) else {
                return Err(StepFault::Memory);
            };
            let stepped = step_by(alloc, program, method, graph, &nothing, instr, exit, after);
            drop(nothing);
            stepped
        }
    }
}
