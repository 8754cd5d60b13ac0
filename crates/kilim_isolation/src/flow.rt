//! The step of an instruction on a path.

ghost use Rattle.std.specs.Prelude.{◌≡◌, IfOk, option_copied};
ghost use Rattle.std.specs.Option.{option_map};
ghost use Rattle.kilim_type_spec.specs.Typed.{frame_types};
ghost use Rattle.kilim_isolation_rules.specs.Answers.{IsLeft, IsStep};
ghost use Rattle.kilim_isolation_rules.specs.Marks.{flow_mixes};
ghost use Rattle.kilim_isolation_rules.specs.Rules as spec;
ghost use Rattle.kilim_isolation.specs.Made.{is_new};

use kilim_isolation_graph::{Graph, turned};
use kilim_isolation_rules::{Deed, StepFault, any_mixes, deed_of, judge, raised_deed_of};
use kilim_program::{Frame, Instr, Method, Program, VType};
use kilim_type_spec::VerifiedFrame;
use kilim_type_step::{State, StepFault as TypeFault, state_of, type_step};
use kilim_units::NoMemory;
use std::alloc::Global;

fn is_new(instr: &Instr) -> bool
    ensures { result ≡ is_new instr.now }
{
    match instr {
        Instr::New(_) => true,
        _ => false,
    }
}

// The types that an instruction leaves, or none where it breaks a rule of typing.
#[tactic(auto, using(crate::proofs::Left::left_new, crate::proofs::Left::left_else))]
fn left(
    alloc: Global,
    program: &Program,
    method: &Method,
    before: &VerifiedFrame,
    instr: &Instr,
) -> Result<Option<State>, NoMemory>
    ensures { IfOk result (λ left. IsLeft (spec.left_by program.now method.now instr.now (frame_types before.now)) left) }
{
    let Ok(frame) = before.frame(alloc) else {
        return Err(NoMemory);
    };
    let Ok(mut state) = state_of(alloc, &frame) else {
        return Err(NoMemory);
    };
    drop(frame);
    if is_new(instr) {
        let Ok(()) = state.push(VType::Top) else {
            return Err(NoMemory);
        };
        return Ok(Some(state));
    }
    match type_step(alloc, program, method, 0, instr, &mut state) {
        Ok(()) => Ok(Some(state)),
        Err(TypeFault::Rule(_)) => Ok(None),
        Err(TypeFault::Memory) => Err(NoMemory),
    }
}

// Whether a tree becomes private where types flow into a declared frame.
fn mixes_into(
    alloc: Global,
    program: &Program,
    state: &State,
    frame: &Frame,
) -> Result<bool, NoMemory>
    ensures { IfOk result (λ mix. mix ≡ flow_mixes program.now state.now (frame_types frame.now)) }
{
    let Ok(from) = turned::<VType>(alloc, state.stack()) else {
        return Err(NoMemory);
    };
    let Ok(into) = turned::<VType>(alloc, frame.stack.as_slice()) else {
        return Err(NoMemory);
    };
    Ok(
        any_mixes(program, state.locals(), frame.locals.as_slice())
            || any_mixes(program, &from, &into),
    )
}

// Whether a tree becomes private in the frame that is declared at the next place, where one is.
fn flows_mix(
    alloc: Global,
    program: &Program,
    method: &Method,
    before: &VerifiedFrame,
    instr: &Instr,
    after: Option<&Frame>,
) -> Result<bool, NoMemory>
    ensures { IfOk result (λ mix. mix ≡ spec.any_flow_mixes program.now (spec.left_by program.now method.now instr.now (frame_types before.now)) (option_map frame_types (option_copied after.entry))) }
{
    let Some(frame) = after else {
        return Ok(false);
    };
    match left(alloc, program, method, before, instr) {
        Ok(Some(state)) => {
            let mixes = mixes_into(alloc, program, &state, frame);
            drop(state);
            mixes
        }
        Ok(None) => Ok(false),
        Err(NoMemory) => Err(NoMemory),
    }
}

// The types of the stack, the top first.
fn stack_of(alloc: Global, before: &VerifiedFrame) -> Result<Vec<VType>, NoMemory>
    ensures { IfOk result (λ types. types.items ≡ (frame_types before.now).stack) }
{
    let Ok(stack) = before.stack(alloc) else {
        return Err(NoMemory);
    };
    let types = turned::<VType>(alloc, &stack);
    drop(stack);
    types
}

// What an instruction does to a graph.
fn deed(
    alloc: Global,
    program: &Program,
    method: &Method,
    graph: &Graph,
    before: &VerifiedFrame,
    instr: &Instr,
) -> Result<Deed, NoMemory>
    ensures { IfOk result (λ deed. deed ≡ spec.deed program.now method.now graph.now (frame_types before.now) instr.now) }
{
    let Ok(types) = stack_of(alloc, before) else {
        return Err(NoMemory);
    };
    let deed = deed_of(alloc, program, method, graph, &types, instr);
    drop(types);
    deed
}

// What an instruction does to a graph where it raises.
fn raised(
    alloc: Global,
    program: &Program,
    graph: &Graph,
    before: &VerifiedFrame,
    instr: &Instr,
) -> Result<Deed, NoMemory>
    ensures { IfOk result (λ deed. deed ≡ spec.raised_deed program.now graph.now (frame_types before.now) instr.now) }
{
    let Ok(types) = stack_of(alloc, before) else {
        return Err(NoMemory);
    };
    let deed = raised_deed_of(alloc, program, graph, &types, instr);
    drop(types);
    deed
}

// Whether a tree becomes private in a local of the frame that is declared at a handler.
fn locals_mix(
    alloc: Global,
    program: &Program,
    before: &VerifiedFrame,
    after: Option<&Frame>,
) -> Result<bool, NoMemory>
    ensures { IfOk result (λ mix. mix ≡ spec.locals_mix program.now (frame_types before.now) (option_map frame_types (option_copied after.entry))) }
{
    let Some(frame) = after else {
        return Ok(false);
    };
    let Ok(locals) = before.locals(alloc) else {
        return Err(NoMemory);
    };
    Ok(any_mixes(program, &locals, frame.locals.as_slice()))
}

/// The graph that an instruction leaves to a handler, or the least of the rules 1, 5, 6 and 7 that it breaks: of a call the
/// argument rules count, every other instruction changes nothing; then the stack is one slot that names no node. `before` is the
/// verified frame at the instruction, `after` the one that is declared at the handler, or none. The graph is the one before its
/// canonical form there is taken.
#[tactic(auto, unfolding(kilim_isolation_rules::specs::Rules::to_handler))]
pub fn to_handler(
    alloc: Global,
    program: &Program,
    graph: &Graph,
    before: &VerifiedFrame,
    instr: &Instr,
    after: Option<&Frame>,
) -> Result<Graph, StepFault>
    ensures { IsStep (spec.to_handler program.now graph.now (frame_types before.now) instr.now (option_map frame_types (option_copied after.entry))) result }
{
    let mixes = match locals_mix(alloc, program, before, after) {
        Ok(mixes) => mixes,
        Err(NoMemory) => return Err(StepFault::Memory),
    };
    match raised(alloc, program, graph, before, instr) {
        Ok(deed) => judge(deed, mixes),
        Err(NoMemory) => Err(StepFault::Memory),
    }
}

/// The graph that an instruction leaves, or the least of the rules 1 to 7 and 9 that it breaks. `before` is the verified frame at
/// the instruction, `after` the one that is declared at the next place of the path, or none. The graph is the one before its
/// canonical form at the next place is taken.
#[tactic(auto, unfolding(kilim_isolation_rules::specs::Rules::moves))]
pub fn transfer(
    alloc: Global,
    program: &Program,
    method: &Method,
    graph: &Graph,
    before: &VerifiedFrame,
    instr: &Instr,
    after: Option<&Frame>,
) -> Result<Graph, StepFault>
    ensures { IsStep (spec.moves program.now method.now graph.now (frame_types before.now) instr.now (option_map frame_types (option_copied after.entry))) result }
{
    let flows = match flows_mix(alloc, program, method, before, instr, after) {
        Ok(flows) => flows,
        Err(NoMemory) => return Err(StepFault::Memory),
    };
    match deed(alloc, program, method, graph, before, instr) {
        Ok(deed) => judge(deed, flows),
        Err(NoMemory) => Err(StepFault::Memory),
    }
}
