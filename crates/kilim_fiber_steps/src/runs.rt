//! Several steps of a task, one after the other, some of which count.

ghost use Rattle.std.specs.Prelude.{◌≡◌, ◌<◌, ◌≤◌, ◌+◌, ◌&&◌, ◌∷◌, ℕ, List, Bool, true, false, not, Some, IfOk, IfSome, OnOk, drop, length};
ghost use Rattle.kilim_program.specs.Lengths.{first_place};
ghost use Rattle.kilim_program.specs.lookups.Places.{Rising};
ghost use Rattle.kilim_program.specs.Names.{method_at};
ghost use Rattle.kilim_run_state.specs.declared.frames.frame.Frame.{Frame as AFrame};
ghost use Rattle.kilim_run_state.specs.frames.Calls.{activation, below_of, calls_of};
ghost use Rattle.kilim_run_interp.specs.Run.{IsFine};
ghost use Rattle.kilim_run_interp.specs.Catching.{IsRaised};
ghost use Rattle.kilim_run_interp.specs.Step.{AreRoomy, CanSettle, StandsAt};
ghost use Rattle.kilim_run_machine.specs.Effect.{Effect};
ghost use Rattle.kilim_run_state.specs.Machine.{Activation, Objects};
ghost use Rattle.kilim_run_machine.specs.Moves.{Move, move_by};
ghost use Rattle.kilim_run_machine.specs.Moves as a_move;
ghost use Rattle.kilim_run_machine.specs.Raising.{index_at, raised_class, thrown};
ghost use Rattle.kilim_run_rows.specs.Outcome.{Shows};
ghost use Rattle.kilim_run_machine.specs.Natives as native;
ghost use Rattle.kilim_run_machine.specs.Natives.{native_of};
ghost use Rattle.kilim_run_interp.specs.instruction.Reached.{AreReached};
ghost use Rattle.kilim_fiber_spec.specs.Fibers.{is_rewinding, marks_of};
ghost use Rattle.kilim_fiber_steps.specs.Counted.{IsCountedSafe, tick_if};
ghost use Rattle.kilim_fiber_steps.specs.Legs.{Does, DoesNear, IsCountedLeg, Settles, standing};
ghost use Rattle.kilim_fiber_steps.specs.Marks.{IsMarked};
ghost use Rattle.kilim_fiber_steps.specs.Woven.{HasFiberRun, IsCall, IsFiberLeg, IsFiberSafe};
ghost use Rattle.kilim_fiber_steps.specs.records.natives.Natives.{member_meant};
ghost use Rattle.kilim_fiber_steps.specs.records.natives.Tables.{AreNatives};

use crate::members::{do_member, do_yield};
use crate::places::{Places, mark_of, marks_of, number_at, number_near, place_at};
use crate::records::Records;
use crate::records::natives::{Member, Native, native_at};
use kilim_program::lookups::{code_rises, instr_at, method_at};
use kilim_program::{ClassId, Instr, Method, MethodId, Program};
use kilim_run_interp::instruction::{Reach, act, act_near, told};
use kilim_run_interp::{Stepped, await_answer, index_name, raise_at, raised_class, settle, throw};
use kilim_run_rows::Moved;
use kilim_run_state::frames::{Frame, Frames, no_frame};
use kilim_run_state::{EndCause, Heap};
use kilim_units::{NoMemory, Seq, unmet};
use std::alloc::Global;
use std::mem::replace;

// One run makes at most so many steps, whether they count or not.
const MOST_TOGETHER: u64 = 67_108_864;

/// What ended a run of steps. Where the frames wait for an answer, nothing else was changed.
#[derive(Clone, Copy)]
pub enum Halted {
    /// The task went on as far as one run goes, and may go on.
    Stops,
    /// The next instruction counts, and as many are counted as may be.
    Spent,
    /// It wants a new mailbox.
    NewBox,
    /// It calls a built-in method that is handed out. The arguments are the operands that the frames tell, on the stack of
    /// the top frame.
    Asks(MethodId),
    /// The last frame returns.
    Returned,
    /// The task ends.
    Ended(EndCause),
}

/// How many steps were counted, and what ended them.
#[derive(Clone, Copy)]
pub struct CountedRun {
    pub steps: u64,
    /// The mark of the next instruction; of no account where the run only stops.
    pub mark: bool,
    pub halted: Halted,
}

// What ends the steps of one frame.
#[derive(Clone, Copy)]
enum Halt {
    // No step is left.
    Stops,
    // The next instruction counts, and as many are counted as may be.
    Spent,
    // The mark of the next instruction, and what came of it, which isn't settled yet; with the place behind it.
    Leaves(bool, Moved, u32),
    // The next instruction is none of those that the loop does.
    Far,
    // One step is done that the loop doesn't do, and isn't taken off yet.
    On,
    // The next place has no mark.
    Lost,
}

// What came of one instruction.
#[derive(Clone, Copy)]
enum One {
    // The frame goes on: whether the instruction counted, and what is likely the number of the next one.
    Goes(bool, usize),
    Halts(Halt),
}

// What came of one instruction that is done in the loop over a frame.
#[derive(Clone, Copy)]
enum Near {
    // The frame goes on.
    Goes,
    Halts(Halt),
}

// What the next instruction of a frame calls, as far as that is told by numbers.
#[derive(Clone, Copy)]
enum Call {
    // A member of `kilim/Fiber`: with so many operands, and the number of the instruction behind it.
    Member(Member, usize, usize),
    // A `yield`, with the same. One that counts may.
    Yields(usize, usize),
    Halts(Halt),
}

// The same, with the number of the next instruction.
#[derive(Clone, Copy)]
struct Gone {
    at: usize,
    left: u64,
    fuel: u64,
    halt: Halt,
}

// Steps of one frame: how many are left that count, and how many at all, and what ended them.
#[derive(Clone, Copy)]
struct Leg {
    left: u64,
    fuel: u64,
    halt: Halt,
}

// Whether marked instructions count.
#[inline(always)]
fn is_live(records: &Records) -> bool
    ensures { result ≡ not (is_rewinding records.now) }
{
    !records.is_rewinding()
}

// Whether an instruction with that mark counts.
#[inline(always)]
fn counts_by(mark: bool, live: bool) -> bool
    ensures { result ≡ (mark && live) }
{
    mark && live
}

// Whether it counts, and none is left that may.
#[inline(always)]
fn is_spent(counts: bool, left: u64) -> bool
    ensures yes { result ≡ true → (counts ≡ true) × (left ≡ 0) }
    ensures no { result ≡ false → counts ≡ true → 0 < left }
{
    counts && left == 0
}

// One less is left, if an instruction counted.
#[inline(always)]
fn less_if(counts: bool, left: u64) -> u64
    requires { counts ≡ true → 0 < left }
    ensures { left ≡ tick_if counts result }
{
    if counts { left - 1 } else { left }
}

// One instruction of the top frame, unless it counts and none is left that may.
fn do_one(
    alloc: Global,
    program: &Program,
    own: &Method,
    marks: &[bool],
    table: &[u32],
    live: bool,
    left: u64,
    frames: &mut Frames,
    heap: &mut Heap,
    hint: usize,
) -> One
    requires own { method_at program.now frames.old.top.method ≡ Some own.now }
    requires fine { (mark : Bool) → IsMarked own.now.code marks.now own.now.code_length frames.old.top.pc mark → ((mark && live) ≡ true → 0 < left) → IsFine program.now (activation frames.old.top) (below_of frames.old) heap.old }
    requires roomy { AreRoomy program.now frames.old }
    ensures roomy { AreRoomy program.now frames.new }
    ensures same { frames.new.top.method ≡ frames.old.top.method }
    ensures does { Does program.now own.now marks.now live left frames.old heap.old result frames.new heap.new }
{
    code_rises(program, frames.top.method, own);
    let code = own.code.as_slice();
    let end = own.code_length;
    let Some((at, mark)) = number_at(code, marks, end, frames.top.pc, hint) else {
        return One::Halts(Halt::Lost);
    };
    let counts = counts_by(mark, live);
    if is_spent(counts, left) {
        return One::Halts(Halt::Spent);
    }
    let found = instr_at(code, end, at);
    let next = found.1;
    let moved = act(alloc, found.0, program, own, next, &mut frames.top, heap);
    match moved {
        Moved::Next => {
            frames.top.pc = next;
            One::Goes(counts, at + 1)
        }
        Moved::Made(name) => {
            let _made = name;
            frames.top.pc = next;
            One::Goes(counts, at + 1)
        }
        Moved::Jump(to) => {
            frames.top.pc = to;
            One::Goes(counts, number_near(table, to))
        }
        _ => One::Halts(Halt::Leaves(mark, moved, next)),
    }
}

// The number behind one, where there is one.
#[inline(always)]
fn number_behind(code: &[(u32, Instr)], at: usize) -> Option<usize>
    requires { at < length code.now }
    ensures { IfSome result (λ next. (next ≡ at + 1) × (next < length code.now)) }
{
    if at + 1 < code.len() {
        Some(at + 1)
    } else {
        None
    }
}

// The number of the instruction at a place that is jumped to.
#[inline(always)]
fn number_of(
    code: &[(u32, Instr)],
    marks: &[bool],
    end: u32,
    table: &[u32],
    to: u32,
) -> Option<usize>
    requires { Rising code.now }
    ensures { IfSome result (λ at. (at < length code.now) × (first_place (drop at code.now) end ≡ to)) }
{
    match number_at(code, marks, end, to, number_near(table, to)) {
        Some(found) => Some(found.0),
        None => None,
    }
}

// The caller of `act_near` that is a loop over one frame.
struct InLoop;

// One instruction of a frame, by its number, unless it counts and none is left that may. `frames` are those below. Where the frame goes on, `at` is
// the number of the next one.
#[inline(always)]
fn do_near(
    program: &Program,
    own: &Method,
    code: &[(u32, Instr)],
    marks: &[bool],
    table: &[u32],
    live: bool,
    left: &mut u64,
    frames: &Frames,
    frame: &mut Frame,
    heap: &mut Heap,
    at: &mut usize,
) -> Near
    requires own { method_at program.now frame.old.method ≡ Some own.now }
    requires code { code.now ≡ own.now.code }
    requires rising { Rising code.now }
    requires within { at.old < length code.now }
    requires marked { length marks.now ≡ length code.now }
    requires fine { (mark : Bool) → IsMarked own.now.code marks.now own.now.code_length (first_place (drop at.old own.now.code) own.now.code_length) mark → ((mark && live) ≡ true → 0 < left.old) → IsFine program.now (activation (standing own.now frames.now frame.old at.old).top) (below_of frames.now) heap.old }
    requires roomy { AreRoomy program.now (standing own.now frames.now frame.old at.old) }
    ensures roomy { AreRoomy program.now (standing own.now frames.now frame.new at.new) }
    ensures same { frame.new.method ≡ frame.old.method }
    ensures within { at.new < length code.now }
    ensures does { DoesNear program.now own.now marks.now live left.old frames.now frame.old at.old heap.old result frame.new at.new left.new heap.new }
{
    let _ = frames;
    let end = own.code_length;
    let mark = mark_of(code, marks, end, *at);
    let costs = counts_by(mark, live);
    if is_spent(costs, *left) {
        return Near::Halts(Halt::Spent);
    }
    let found = instr_at(code, end, *at);
    match act_near::<InLoop>(found.0, program, own, found.1, frame, heap) {
        Some(Moved::Next) => {
            let next = *at + 1;
            if next < code.len() {
                *at = next;
                *left = less_if(costs, *left);
                Near::Goes
            } else {
                Near::Halts(Halt::Lost)
            }
        }
        Some(Moved::Jump(to)) => match number_of(code, marks, end, table, to) {
            Some(next) => {
                *at = next;
                *left = less_if(costs, *left);
                Near::Goes
            }
            None => Near::Halts(Halt::Lost),
        },
        Some(moved) => {
            let mark = mark_of(code, marks, end, *at);
            let behind = instr_at(code, end, *at);
            Near::Halts(Halt::Leaves(mark, moved, behind.1))
        }
        None => Near::Halts(Halt::Far),
    }
}

// Puts a frame back on top, at a place.
#[inline(always)]
fn put_back(frames: &mut Frames, frame: Frame, place: u32)
    ensures { frames.new ≡ record frames.old { top = record frame { pc = place } } }
{
    let mut frame = frame;
    frame.pc = place;
    frames.top = frame;
}

// Steps of a frame, at most so many that count, and so many at all, up to the first that isn't done here. `frames` are those below.
#[inline(always)]
fn go_near(
    program: &Program,
    own: &Method,
    code: &[(u32, Instr)],
    marks: &[bool],
    table: &[u32],
    counted: &Seq<Seq<bool>>,
    live: bool,
    frames: &Frames,
    frame: &mut Frame,
    heap: &mut Heap,
    first: usize,
    limit: u64,
    most: u64,
) -> Gone
    requires own { method_at program.now frame.old.method ≡ Some own.now }
    requires marks { marks_of counted.now frame.old.method ≡ marks.now }
    requires code { code.now ≡ own.now.code }
    requires rising { Rising code.now }
    requires within { first < length code.now }
    requires marked { length marks.now ≡ length code.now }
    requires safe { IsCountedSafe program.now counted.now live limit (calls_of (standing own.now frames.now frame.old first)) heap.old }
    requires roomy { AreRoomy program.now (standing own.now frames.now frame.old first) }
    ensures roomy { AreRoomy program.now (standing own.now frames.now frame.new result.at) }
    ensures same { frame.new.method ≡ frame.old.method }
    ensures within { result.at < length code.now }
    ensures leg { IsCountedLeg program.now own.now counted.now live limit most (calls_of (standing own.now frames.now frame.old first)) heap.old result.left result.fuel result.halt (standing own.now frames.now frame.new result.at) heap.new }
{
    let _ = counted;
    let mut at = first;
    let mut left = limit;
    let mut fuel = most;
    while fuel > 0 {
        match do_near(
            program, own, code, marks, table, live, &mut left, frames, frame, heap, &mut at,
        ) {
            Near::Goes => fuel -= 1,
            Near::Halts(halt) => {
                return Gone {
                    at,
                    left,
                    fuel,
                    halt,
                };
            }
        }
    }
    Gone {
        at,
        left,
        fuel: 0,
        halt: Halt::Stops,
    }
}

// The member of `kilim/Fiber` that a method is.
#[inline(always)]
fn member_at(program: &Program, natives: &[Option<Native>], method: MethodId) -> Option<Member>
    requires { AreNatives program.now natives.now }
    ensures { IfSome result (λ member. native_of program.now method ≡ Some (native.OfFiber (member_meant member))) }
{
    let _ = program;
    match native_at(natives, method) {
        Some(Native::OfFiber(member)) => Some(member),
        _ => None,
    }
}

// Whether a method is `yield`.
#[inline(always)]
fn is_yield(program: &Program, natives: &[Option<Native>], method: MethodId) -> bool
    requires { AreNatives program.now natives.now }
    ensures { result ≡ true → native_of program.now method ≡ Some native.Yield }
{
    let _ = program;
    match native_at(natives, method) {
        Some(Native::Yield) => true,
        _ => false,
    }
}

// What the next instruction of a frame calls, unless it counts and none is left that may. Nothing is done.
#[inline(always)]
fn call_near(
    program: &Program,
    own: &Method,
    code: &[(u32, Instr)],
    marks: &[bool],
    natives: &[Option<Native>],
    reached: &[Reach],
    live: bool,
    left: u64,
    frames: &Frames,
    frame: &Frame,
    heap: &Heap,
    at: usize,
) -> Call
    requires natives { AreNatives program.now natives.now }
    requires reached { AreReached program.now reached.now }
    requires own { method_at program.now frame.now.method ≡ Some own.now }
    requires code { code.now ≡ own.now.code }
    requires rising { Rising code.now }
    requires within { at < length code.now }
    requires marked { length marks.now ≡ length code.now }
    requires fine { (mark : Bool) → IsMarked own.now.code marks.now own.now.code_length (first_place (drop at own.now.code) own.now.code_length) mark → ((mark && live) ≡ true → 0 < left) → IsFine program.now (activation (standing own.now frames.now frame.now at).top) (below_of frames.now) heap.now }
    requires roomy { AreRoomy program.now (standing own.now frames.now frame.now at) }
    ensures { IsCall program.now own.now marks.now live left frames.now frame.now at heap.now result }
{
    let _ = frames;
    let end = own.code_length;
    let mark = mark_of(code, marks, end, at);
    let costs = counts_by(mark, live);
    if is_spent(costs, left) {
        return Call::Halts(Halt::Spent);
    }
    let found = instr_at(code, end, at);
    let Some(moved) = told(reached, found.0, program, own, found.1, frame, heap) else {
        return Call::Halts(Halt::Far);
    };
    if let Moved::Asked(id, count) = moved {
        let Some(behind) = number_behind(code, at) else {
            return Call::Halts(Halt::Lost);
        };
        if let Some(member) = member_at(program, natives, id) {
            return Call::Member(member, count, behind);
        }
        if is_yield(program, natives, id) {
            if !is_spent(live, left) {
                return Call::Yields(count, behind);
            }
        }
    }
    Call::Halts(Halt::Leaves(mark, moved, found.1))
}

// Steps of the top frame, members of `kilim/Fiber` and `yield`, at most so many that count, and so many at all, up to the first that isn't done here.
fn run_near(
    alloc: Global,
    program: &Program,
    own: &Method,
    marks: &[bool],
    table: &[u32],
    counted: &Seq<Seq<bool>>,
    natives: &[Option<Native>],
    reached: &[Reach],
    frames: &mut Frames,
    records: &mut Records,
    heap: &mut Heap,
    limit: u64,
    most: u64,
) -> Result<Leg, NoMemory>
    requires natives { AreNatives program.now natives.now }
    requires reached { AreReached program.now reached.now }
    requires own { method_at program.now frames.old.top.method ≡ Some own.now }
    requires marks { marks_of counted.now frames.old.top.method ≡ marks.now }
    requires safe { IsFiberSafe program.now counted.now limit (calls_of frames.old) heap.old records.old }
    requires roomy { AreRoomy program.now frames.old }
    ensures roomy { OnOk result (AreRoomy program.now frames.new) }
    ensures same { OnOk result (frames.new.top.method ≡ frames.old.top.method) }
    ensures leg { IfOk result (λ leg. IsFiberLeg program.now own.now counted.now limit most (calls_of frames.old) heap.old records.old leg.left leg.fuel leg.halt frames.new heap.new records.new) }
{
    code_rises(program, frames.top.method, own);
    let code = own.code.as_slice();
    let end = own.code_length;
    if marks.len() != code.len() {
        return Ok(Leg {
            left: limit,
            fuel: most,
            halt: Halt::Lost,
        });
    }
    let Some(first) = number_of(code, marks, end, table, frames.top.pc) else {
        return Ok(Leg {
            left: limit,
            fuel: most,
            halt: Halt::Lost,
        });
    };
    let mut at = first;
    let mut left = limit;
    let mut fuel = most;
    let method = frames.top.method;
    let mut frame = replace(&mut frames.top, no_frame(alloc, method));
    'members: loop {
        let live = is_live(records);
        let gone = go_near(
            program, own, code, marks, table, counted, live, frames, &mut frame, heap, at, left,
            fuel,
        );
        match gone.halt {
            Halt::Far => match call_near(
                program, own, code, marks, natives, reached, live, gone.left, frames, &frame, heap,
                gone.at,
            ) {
                Call::Member(member, count, behind) => {
                    let Ok(()) = do_member(alloc, member, count, &mut frame, records) else {
                        drop(frame);
                        return Err(NoMemory);
                    };
                    at = behind;
                    left = gone.left;
                    fuel = gone.fuel - 1;
                }
                Call::Yields(count, behind) => {
                    do_yield(alloc, live, count, &mut frame, records);
                    at = behind;
                    left = less_if(live, gone.left);
                    fuel = gone.fuel - 1;
                }
                Call::Halts(halt) => {
                    put_back(frames, frame, place_at(code, end, gone.at));
                    return Ok(Leg {
                        left: gone.left,
                        fuel: gone.fuel,
                        halt,
                    });
                }
            },
            halt => {
                put_back(frames, frame, place_at(code, end, gone.at));
                return Ok(Leg {
                    left: gone.left,
                    fuel: gone.fuel,
                    halt,
                });
            }
        }
    }
}

// Steps of the top frame, at most so many that count, and so many at all.
fn run_frame(
    alloc: Global,
    program: &Program,
    own: &Method,
    marks: &[bool],
    table: &[u32],
    counted: &Seq<Seq<bool>>,
    natives: &[Option<Native>],
    reached: &[Reach],
    frames: &mut Frames,
    records: &mut Records,
    heap: &mut Heap,
    limit: u64,
    most: u64,
) -> Result<Leg, NoMemory>
    requires natives { AreNatives program.now natives.now }
    requires reached { AreReached program.now reached.now }
    requires own { method_at program.now frames.old.top.method ≡ Some own.now }
    requires marks { marks_of counted.now frames.old.top.method ≡ marks.now }
    requires safe { IsFiberSafe program.now counted.now limit (calls_of frames.old) heap.old records.old }
    requires roomy { AreRoomy program.now frames.old }
    ensures roomy { OnOk result (AreRoomy program.now frames.new) }
    ensures leg { IfOk result (λ leg. IsFiberLeg program.now own.now counted.now limit most (calls_of frames.old) heap.old records.old leg.left leg.fuel leg.halt frames.new heap.new records.new) }
{
    let Ok(leg) = run_near(
        alloc, program, own, marks, table, counted, natives, reached, frames, records, heap, limit,
        most,
    ) else {
        return Err(NoMemory);
    };
    match leg.halt {
        Halt::Far => {
            let live = is_live(records);
            let hint = number_near(table, frames.top.pc);
            match do_one(
                alloc, program, own, marks, table, live, leg.left, frames, heap, hint,
            ) {
                One::Goes(counts, near) => {
                    let _near = near;
                    Ok(Leg {
                        left: less_if(counts, leg.left),
                        fuel: leg.fuel,
                        halt: Halt::On,
                    })
                }
                One::Halts(halt) => Ok(Leg {
                    left: leg.left,
                    fuel: leg.fuel,
                    halt,
                }),
            }
        }
        _ => Ok(leg),
    }
}

// What is raised at the instruction goes to the frame that catches it, as a new object: its name.
fn raise_in(
    alloc: Global,
    program: &Program,
    cause: EndCause,
    frames: &mut Frames,
    heap: &mut Heap,
) -> Result<Option<u32>, NoMemory>
    requires roomy { AreRoomy program.now frames.old }
    ensures roomy { OnOk result (AreRoomy program.now frames.new) }
    ensures raised { IfOk result (λ name. IsRaised program.now (raised_class program.now (index_at program.now (activation frames.old.top)) cause) (λ c v. thrown program.now c v (activation frames.old.top) (below_of frames.old)) name frames.new heap.old heap.new) }
{
    let index = index_name(program, &frames.top);
    let Ok(class) = raised_class(program, index, cause) else {
        return Err(NoMemory);
    };
    raise_at(alloc, program, class, frames, heap)
}

// The instruction raises that: the task goes on at its handler, or ends.
fn raised(
    alloc: Global,
    program: &Program,
    cause: EndCause,
    frames: &mut Frames,
    heap: &mut Heap,
) -> Result<Option<Halted>, NoMemory>
    requires roomy { AreRoomy program.now frames.old }
    ensures roomy { OnOk result (AreRoomy program.now frames.new) }
    ensures settles { (m : Move) (top : Activation) (below : List Activation) (h : Objects) → m ≡ a_move.Raises cause → StandsAt (top ∷ below) frames.old → heap.old ≡ h → IfOk result (λ halted. Settles program.now top below m halted frames.new h heap.new) }
{
    let Ok(caught) = raise_in(alloc, program, cause, frames, heap) else {
        return Err(NoMemory);
    };
    match caught {
        Some(name) => {
            let _name = name;
            Ok(None)
        }
        None => Ok(Some(Halted::Ended(cause))),
    }
}

// The instruction throws an object: the task goes on at its handler, or ends.
fn threw(
    alloc: Global,
    program: &Program,
    class: ClassId,
    object: u32,
    cause: EndCause,
    frames: &mut Frames,
) -> Result<Option<Halted>, NoMemory>
    requires roomy { AreRoomy program.now frames.old }
    ensures roomy { OnOk result (AreRoomy program.now frames.new) }
    ensures settles { (m : Move) (top : Activation) (below : List Activation) (h k : Objects) → m ≡ a_move.Throws object class cause → StandsAt (top ∷ below) frames.old → k ≡ h → IfOk result (λ halted. Settles program.now top below m halted frames.new h k) }
{
    let Ok(caught) = throw(alloc, program, class, object, frames) else {
        return Err(NoMemory);
    };
    if caught {
        Ok(None)
    } else {
        Ok(Some(Halted::Ended(cause)))
    }
}

// Settles what came of an instruction: what halts the run, or nothing where the task goes on.
fn go_on(
    alloc: Global,
    program: &Program,
    own: &Method,
    moved: Moved,
    next: u32,
    frames: &mut Frames,
    heap: &mut Heap,
) -> Result<Option<Halted>, NoMemory>
    requires can { CanSettle program.now moved frames.old }
    requires roomy { AreRoomy program.now frames.old }
    ensures roomy { OnOk result (AreRoomy program.now frames.new) }
    ensures settles { (e : Effect) (before : AFrame) (h : Objects) → Shows own.now e next moved before frames.old.top h heap.old → before.method ≡ frames.old.top.method → IfOk result (λ halted. Settles program.now (activation before) (below_of frames.old) (move_by program.now e (activation before) (below_of frames.old)) halted frames.new h heap.new) }
{
    if let Moved::Asked(id, count) = moved {
        await_answer(count, next, frames);
        return Ok(Some(Halted::Asks(id)));
    }
    let Ok(stepped) = settle(alloc, program, own, moved, next, frames) else {
        return Err(NoMemory);
    };
    match stepped {
        Stepped::Went => Ok(None),
        Stepped::NewBox => Ok(Some(Halted::NewBox)),
        Stepped::Returned => Ok(Some(Halted::Returned)),
        Stepped::Raised(cause) => raised(alloc, program, cause, frames, heap),
        Stepped::Thrown(object, class, cause) => {
            threw(alloc, program, class, object, cause, frames)
        }
        Stepped::Ended(cause) => Ok(Some(Halted::Ended(cause))),
        Stepped::AtNative(call) => {
            let _call = call;
            // unmet: such a call was asked above
            Err(unmet())
        }
    }
}

/// Steps of a task by woven code, of instructions of whatever mark, as long as it goes on: those that `settle` of kilim_run_interp makes of what an
/// instruction comes to, and members of `kilim/Fiber` and `yield`. While the fiber doesn't rewind, those instructions count that are marked, at most so many. Want of
/// memory is also answered where a place has no mark.
pub fn run_counted(
    alloc: Global,
    program: &Program,
    counted: &Seq<Seq<bool>>,
    places: &Places,
    natives: &[Option<Native>],
    reached: &[Reach],
    frames: &mut Frames,
    records: &mut Records,
    heap: &mut Heap,
    limit: u64,
) -> Result<CountedRun, NoMemory>
    requires natives { AreNatives program.now natives.now }
    requires reached { AreReached program.now reached.now }
    requires safe { IsFiberSafe program.now counted.now limit (calls_of frames.old) heap.old records.old }
    requires roomy { AreRoomy program.now frames.old }
    ensures roomy { OnOk result (AreRoomy program.now frames.new) }
    ensures run { IfOk result (λ ran. HasFiberRun program.now counted.now limit (calls_of frames.old) heap.old records.old ran.steps ran.mark ran.halted frames.new heap.new records.new) }
{
    let mut left = limit;
    let mut fuel = MOST_TOGETHER;
    'steps: loop {
        let method = frames.top.method;
        let Some(own) = method_at(program, method) else {
            // unmet: frames are of methods of the program
            return Err(unmet());
        };
        let Some(marks) = marks_of(counted, method) else {
            // unmet: each method has its marks
            return Err(unmet());
        };
        let marks = marks.as_slice();
        let table = places.of_method(method);
        let Ok(leg) = run_frame(
            alloc, program, own, marks, table, counted, natives, reached, frames, records, heap,
            left, fuel,
        ) else {
            return Err(NoMemory);
        };
        match leg.halt {
            Halt::Stops => {
                return Ok(CountedRun {
                    steps: limit - leg.left,
                    mark: false,
                    halted: Halted::Stops,
                });
            }
            Halt::Spent => {
                return Ok(CountedRun {
                    steps: limit - leg.left,
                    mark: true,
                    halted: Halted::Spent,
                });
            }
            // unmet: each instruction at which a frame stands has a mark
            Halt::Lost => return Err(unmet()),
            // unmet: `run_frame` has done what is far
            Halt::Far => return Err(unmet()),
            Halt::On => {
                left = leg.left;
                fuel = leg.fuel - 1;
            }
            Halt::Leaves(mark, moved, next) => {
                let live = is_live(records);
                let Ok(halted) = go_on(alloc, program, own, moved, next, frames, heap) else {
                    return Err(NoMemory);
                };
                match halted {
                    Some(halted) => {
                        return Ok(CountedRun {
                            steps: limit - leg.left,
                            mark,
                            halted,
                        });
                    }
                    None => {}
                }
                left = less_if(counts_by(mark, live), leg.left);
                fuel = leg.fuel - 1;
            }
        }
    }
}
