//! Verified frames.

ghost use Rattle.std.specs.Prelude.{◌≡◌, IfOk};
ghost use Rattle.kilim_type_spec.specs.Step.{peek};
ghost use Rattle.kilim_type_spec.specs.Typed.{padded};

use crate::shared::SharedTypes;
use kilim_program::{Frame, VType};
use kilim_units::Seq;
use std::alloc::{AllocError, Global};
use std::marker::Model;

/// The frame that verification finds at an instruction. It shares with the one before it what is the same, and keeps no `Top` behind
/// the last local that was written. Contracts see the whole frame.
#[derive(Drop)]
pub struct VerifiedFrame {
    locals: SharedTypes,
    stack: SharedTypes,
    count: u16,
}

impl Model for VerifiedFrame {
    ghost use Rattle.kilim_program.specs.declared.verified.Frame.{Frame};
    ghost use Rattle.kilim_type_spec.specs.Typed.{padded};

    ghost Value = { Frame };

    ghost view = { λ f. record { locals = padded f.count f.locals; stack = f.stack } };
}

#[tactic(auto, using(crate::proofs::Padded::peek_at, crate::proofs::Padded::peek_past))]
fn type_at(types: &[VType], slot: usize) -> VType
    ensures { result ≡ peek types.now slot }
{
    if slot < types.len() {
        types[slot]
    } else {
        VType::Top
    }
}

// The first so many slots.
fn padded(alloc: Global, types: &[VType], count: u16) -> Result<Vec<VType>, AllocError>
    ensures { IfOk result (λ v. v.items ≡ padded count types.now) }
{
    let Ok(mut slots) = Vec::with_capacity(alloc, usize::from(count)) else {
        return Err(AllocError);
    };
    for at in 0..usize::from(count) {
        let Ok(()) = slots.push(type_at(types, at)) else {
            return Err(AllocError);
        };
    }
    Ok(slots)
}

impl VerifiedFrame {
    /// A frame of so many locals, of which these are the first ones; the others are `Top`. The stack has its bottom first.
    pub fn new(
        alloc: Global,
        locals: &[VType],
        count: u16,
        stack: &[VType],
    ) -> Result<VerifiedFrame, AllocError>
        ensures { IfOk result (λ frame. frame ≡ record { locals = padded count locals.now; stack = stack.now }) }
    {
        let Ok(locals) = SharedTypes::new(alloc, locals) else {
            return Err(AllocError);
        };
        let Ok(stack) = SharedTypes::new(alloc, stack) else {
            return Err(AllocError);
        };
        Ok(VerifiedFrame {
            locals,
            stack,
            count,
        })
    }

    /// The same, which shares with this frame what is the same.
    pub fn next(
        &self,
        alloc: Global,
        locals: &[VType],
        count: u16,
        stack: &[VType],
    ) -> Result<VerifiedFrame, AllocError>
        ensures { IfOk result (λ frame. frame ≡ record { locals = padded count locals.now; stack = stack.now }) }
    {
        let Ok(locals) = self.locals.next(alloc, locals) else {
            return Err(AllocError);
        };
        let Ok(stack) = self.stack.next(alloc, stack) else {
            return Err(AllocError);
        };
        Ok(VerifiedFrame {
            locals,
            stack,
            count,
        })
    }

    /// The types of all locals, by slot.
    pub fn locals(&self, alloc: Global) -> Result<Vec<VType>, AllocError>
        ensures { IfOk result (λ locals. locals.items ≡ self.now.locals) }
    {
        let Ok(written) = self.locals.types(alloc) else {
            return Err(AllocError);
        };
        padded(alloc, &written, self.count)
    }

    /// The types of the stack, the bottom first.
    pub fn stack(&self, alloc: Global) -> Result<Vec<VType>, AllocError>
        ensures { IfOk result (λ stack. stack.items ≡ self.now.stack) }
    {
        self.stack.types(alloc)
    }

    /// The whole frame.
    pub fn frame(&self, alloc: Global) -> Result<Frame, AllocError>
        ensures { IfOk result (λ frame. frame ≡ self.now) }
    {
        let Ok(locals) = self.locals(alloc) else {
            return Err(AllocError);
        };
        let Ok(stack) = self.stack(alloc) else {
            return Err(AllocError);
        };
        Ok(Frame {
            locals: Seq::from_vec(locals),
            stack: Seq::from_vec(stack),
        })
    }
}
