//! The frames of a task's calls.

ghost use Rattle.std.specs.Prelude.{◌≡◌, ◌≤◌, ◌<◌, ◌∷◌, [], true, false, Some, length, take, drop, reverse, slice_get, slice_set, MatchOption, OnOk};
ghost use Rattle.kilim_run_state.specs.frames.Stacked.{begun_with};

use crate::frames::frame::{Frame, no_frame};
use kilim_program::{MethodId, Value};
use std::alloc::{AllocError, Global};
use std::marker::Model;
use std::mem::swap;

/// The frames below the top one. Contracts see them as a list, the topmost first.
#[derive(Drop)]
pub struct Callers {
    // The frames, the lowest first, and behind them frames that are done with, whose memory is used again.
    frames: Vec<Frame>,
    // How many they are.
    level: usize,
}

impl Model for Callers {
    ghost use Rattle.std.specs.Prelude.{List, ◌≤◌, length, reverse, take};
    ghost use Rattle.kilim_run_state.specs.declared.frames.frame.Frame as a_frame;

    ghost Value = { List a_frame.Frame };

    ghost view = { λ c. reverse (take c.level c.frames.items) };

    ghost invariant = { λ c. c.level ≤ length c.frames.items };
}

impl Callers {
    /// No frame. Takes no memory.
    pub fn new(alloc: Global) -> Callers
        ensures { result ≡ [] }
    {
        Callers {
            frames: Vec::new(alloc),
            level: 0,
        }
    }

    /// How many they are.
    pub fn len(&self) -> usize
        ensures { result ≡ length self.now }
    {
        self.level
    }

    /// Takes the topmost frame off, where there is one.
    pub fn pop(&mut self) -> Option<Frame>
        ensures { MatchOption result ((self.old ≡ []) × (self.new ≡ [])) (λ frame. self.old ≡ frame ∷ self.new) }
    {
        if self.level == 0 {
            return None;
        }
        self.frames.truncate(self.level);
        self.level -= 1;
        self.frames.pop()
    }

    /// Takes the topmost frame off, where there is one, and puts it in the place of `top`, whose memory is kept.
    pub fn go_back(&mut self, top: &mut Frame) -> bool
        ensures yes { result ≡ true → self.old ≡ top.new ∷ self.new }
        ensures no { result ≡ false → (self.old ≡ []) × (self.new ≡ []) × (top.new ≡ top.old) }
    {
        if self.level == 0 {
            return false;
        }
        self.level -= 1;
        exchange(&mut self.frames, self.level, top);
        true
    }

    /// A call of a method, with so many arguments on top of the stack of `top`, so many slots for locals and room for so many values. `top` goes on
    /// at a place, without them, and comes below the frame with which the method begins.
    #[tactic(auto, using(crate::proofs::frames::Levels::put_behind))]
    pub fn call(
        &mut self,
        alloc: Global,
        top: &mut Frame,
        method: MethodId,
        count: usize,
        slots: usize,
        room: usize,
        next: u32,
    ) -> Result<(), AllocError>
        requires { count ≤ length top.old.stack.values }
        ensures below { OnOk result (self.new ≡ record top.old { pc = next; stack = record top.old.stack { values = drop count top.old.stack.values } } ∷ self.old) }
        ensures top { OnOk result (top.new ≡ record { method = method; pc = 0; locals = begun_with (reverse (take count top.old.stack.values)) slots; stack = record { values = []; room = room } }) }
    {
        let Ok(()) = lengthen(alloc, &mut self.frames, self.level, method) else {
            return Err(AllocError);
        };
        let Ok(()) = begin_at(
            &mut self.frames,
            self.level,
            method,
            top.stack.topmost(count),
            slots,
            room,
        ) else {
            return Err(AllocError);
        };
        top.stack.drop_top(count);
        top.pc = next;
        exchange(&mut self.frames, self.level, top);
        self.level += 1;
        Ok(())
    }
}

// A frame and the one at a place, each in the place of the other.
fn exchange(frames: &mut Vec<Frame>, at: usize, top: &mut Frame)
    requires { at < length frames.old.items }
    ensures top { slice_get frames.old.items at ≡ Some top.new }
    ensures frames { frames.new.items ≡ slice_set frames.old.items at top.old }
{
    swap(&mut frames[at], top);
}

// There is a frame at a place, some one of that method where there was none.
fn lengthen(
    alloc: Global,
    frames: &mut Vec<Frame>,
    at: usize,
    method: MethodId,
) -> Result<(), AllocError>
    requires { at ≤ length frames.old.items }
    ensures same { take at frames.new.items ≡ take at frames.old.items }
    ensures long { at ≤ length frames.new.items }
    ensures there { OnOk result (at < length frames.new.items) }
{
    if at < frames.len() {
        return Ok(());
    }
    let Ok(()) = frames.push(no_frame(alloc, method)) else {
        return Err(AllocError);
    };
    Ok(())
}

// The frame at a place becomes one with which a method begins.
fn begin_at(
    frames: &mut Vec<Frame>,
    at: usize,
    method: MethodId,
    arguments: &[Value],
    slots: usize,
    room: usize,
) -> Result<(), AllocError>
    requires { at < length frames.old.items }
    ensures same { take at frames.new.items ≡ take at frames.old.items }
    ensures long { length frames.new.items ≡ length frames.old.items }
    ensures there { OnOk result (slice_get frames.new.items at ≡ Some (record { method = method; pc = 0; locals = begun_with arguments.now slots; stack = record { values = []; room = room } })) }
{
    begin(&mut frames[at], method, arguments, slots, room)
}

// A frame becomes one with which a method begins.
fn begin(
    frame: &mut Frame,
    method: MethodId,
    arguments: &[Value],
    slots: usize,
    room: usize,
) -> Result<(), AllocError>
    ensures { OnOk result (frame.new ≡ record { method = method; pc = 0; locals = begun_with arguments.now slots; stack = record { values = []; room = room } }) }
{
    frame.method = method;
    frame.pc = 0;
    let Ok(()) = frame.locals.begin(arguments, slots) else {
        return Err(AllocError);
    };
    frame.stack.begin(room)
}

/// The frames of a task's calls, at least one.
#[derive(Drop)]
pub struct Frames {
    pub top: Frame,
    pub below: Callers,
    /// How many operands the instruction takes off that waits for an answer.
    pub operands: usize,
    /// The place behind that instruction.
    pub next: u32,
}
