//! The types of locals and stack, as instructions change them.

ghost use Rattle.std.specs.Prelude.{◌≡◌, ◌+◌, ◌-◌, ◌^◌, ◌∷◌, ◌++◌, [], take, ◌<◌, ◌≤◌, nat_le, length, drop, Option, Some, false, slice_get, IfOk, OnOk, reverse};
ghost use Rattle.std.specs.List.{list_any};
ghost use Rattle.kilim_type_spec.specs.Step.{peek, poke, stored, words, size, replaced, is_same, is_long, split_long, with_half};

use kilim_program::VType;
use std::alloc::{AllocError, Global};
use std::marker::Model;

/// The types of the locals, by slot, where a slot past the end is `Top`; those of the stack, the bottom first; and whether
/// the object that a constructor makes isn't initialized yet. Contracts see the stack from the top.
#[derive(Drop)]
pub struct State {
    locals: Vec<VType>,
    stack: Vec<VType>,
    unset: bool,
}

impl Model for State {
    ghost use Rattle.std.specs.Prelude.{reverse};
    ghost use Rattle.kilim_type_spec.specs.Step.{Types};

    ghost Value = { Types };

    ghost view = { λ s. record { locals = s.locals.items; stack = reverse s.stack.items; unset = s.unset } };
}

/// The size of a type, in words of the stack or in slots.
pub fn size(t: VType) -> u16
    ensures value { result ≡ size t }
    ensures small { result ≤ 2 }
{
    match t {
        VType::Long => 2,
        VType::Top
        | VType::Int
        | VType::Null
        | VType::UninitThis
        | VType::Uninit(_)
        | VType::Object(_) => 1,
    }
}

/// Whether types have at most so many words.
#[tactic(auto, using(crate::proofs::Types::words_drop))]
pub fn are_within(types: &[VType], most: u16) -> bool
    ensures { result ≡ nat_le (words types.now) most }
{
    let mut left = most;
    for t in types {
        let taken = size(*t);
        if taken > left {
            return false;
        }
        left -= taken;
    }
    true
}

fn is_same(a: VType, b: VType) -> bool
    ensures { result ≡ is_same a b }
{
    match a {
        VType::UninitThis => match b {
            VType::UninitThis => true,
            VType::Top
            | VType::Int
            | VType::Long
            | VType::Null
            | VType::Uninit(_)
            | VType::Object(_) => false,
        },
        VType::Uninit(at) => match b {
            VType::Uninit(other) => at == other,
            VType::Top
            | VType::Int
            | VType::Long
            | VType::Null
            | VType::UninitThis
            | VType::Object(_) => false,
        },
        VType::Top | VType::Int | VType::Long | VType::Null | VType::Object(_) => false,
    }
}

// Another type in place of an uninitialized one, wherever it stands.
#[tactic(auto, using(crate::proofs::Types::part_end))]
fn replace(types: &mut Vec<VType>, old: VType, new: VType)
    ensures { types.new.items ≡ replaced old new types.old.items }
{
    for t in types.iter_mut() {
        if is_same(old, *t) {
            *t = new;
        }
    }
}

/// Whether an uninitialized type is among some types.
pub fn is_among(types: &[VType], t: VType) -> bool
    ensures { result ≡ list_any (is_same t) types.now }
{
    types.iter().any(|other| is_same(t, *other))
}

/// Whether a type has two words.
pub fn is_long(t: VType) -> bool
    ensures { result ≡ is_long t }
{
    match t {
        VType::Long => true,
        VType::Top
        | VType::Int
        | VType::Null
        | VType::UninitThis
        | VType::Uninit(_)
        | VType::Object(_) => false,
    }
}

#[tactic(auto, using(crate::proofs::Types::peek_at, crate::proofs::Types::peek_past))]
/// The type of a slot; one past the end is Top.
pub fn type_at(types: &[VType], slot: usize) -> VType
    ensures { result ≡ peek types.now slot }
{
    if slot < types.len() {
        types[slot]
    } else {
        VType::Top
    }
}

// A slot gets a type; slots between the last one and it are Top.
#[tactic(auto, using(crate::proofs::Types::poke_end, crate::proofs::Types::poke_set))]
fn poke(types: &mut Vec<VType>, slot: usize, t: VType) -> Result<(), AllocError>
    ensures { OnOk result (types.new.items ≡ poke types.old.items slot t) }
{
    while types.len() < slot {
        let Ok(()) = types.push(VType::Top) else {
            return Err(AllocError);
        };
    }
    if slot == types.len() {
        let Ok(()) = types.push(t) else {
            return Err(AllocError);
        };
    } else {
        types[slot] = t;
    }
    Ok(())
}

// The slot leaves no long in the one before it.
#[tactic(auto, using(crate::proofs::Types::split_kept, crate::proofs::Types::split_poked, crate::proofs::Types::split_first))]
fn split_long(types: &mut Vec<VType>, slot: usize) -> Result<(), AllocError>
    ensures { OnOk result (types.new.items ≡ split_long types.old.items slot) }
{
    if slot == 0 {
        return Ok(());
    }
    if is_long(type_at(types, slot - 1)) {
        let Ok(()) = poke(types, slot - 1, VType::Top) else {
            return Err(AllocError);
        };
        return Ok(());
    }
    Ok(())
}

// A long takes the slot behind, too.
#[tactic(auto, using(crate::proofs::Types::half_kept, crate::proofs::Types::half_poked))]
fn with_half(types: &mut Vec<VType>, slot: usize, t: VType) -> Result<(), AllocError>
    requires { slot < 2 ^ 32 }
    ensures { OnOk result (types.new.items ≡ with_half t types.old.items slot) }
{
    if is_long(t) {
        let Ok(()) = poke(types, slot + 1, VType::Top) else {
            return Err(AllocError);
        };
        return Ok(());
    }
    Ok(())
}

// The last of the types first.
#[tactic(auto, using(crate::proofs::Shuffled::reversed_all))]
fn push_reversed(stack: &mut Vec<VType>, types: &[VType]) -> Result<(), AllocError>
    ensures { OnOk result (stack.new.items ≡ stack.old.items ++ reverse types.now) }
{
    let mut left = types.len();
    while left > 0 {
        left -= 1;
        let Ok(()) = stack.push(types[left]) else {
            return Err(AllocError);
        };
    }
    Ok(())
}

impl State {
    /// A state of these types, the bottom of the stack first.
    pub fn new(locals: Vec<VType>, stack: Vec<VType>, unset: bool) -> Self
        ensures { result ≡ record { locals = locals.items; stack = reverse stack.items; unset = unset } }
    {
        State {
            locals,
            stack,
            unset,
        }
    }

    /// The types of the locals.
    pub fn locals(&self) -> &[VType]
        ensures { result.now ≡ self.now.locals }
    {
        &self.locals
    }

    /// The types of the stack, the bottom first.
    pub fn stack(&self) -> &[VType]
        ensures { self.now.stack ≡ reverse result.now }
    {
        &self.stack
    }

    /// Whether the object that the constructor makes isn't initialized yet.
    pub fn is_unset(&self) -> bool
        ensures { result ≡ self.now.unset }
    {
        self.unset
    }

    /// The type of a local.
    pub fn local(&self, slot: u16) -> VType
        ensures { result ≡ peek self.now.locals slot }
    {
        type_at(&self.locals, usize::from(slot))
    }

    /// The number of types on the stack.
    pub fn height(&self) -> usize
        ensures { result ≡ length self.now.stack }
    {
        self.stack.len()
    }

    /// The type so far below the top, none below the bottom.
    pub fn below(&self, count: usize) -> Option<VType>
        ensures { result ≡ slice_get self.now.stack count }
    {
        if count < self.stack.len() {
            Some(self.stack[self.stack.len() - 1 - count])
        } else {
            None
        }
    }

    /// Whether what is left without the topmost types has at most so many words.
    #[tactic(auto, using(crate::proofs::Types::words_rest))]
    pub fn rest_is_within(&self, without: usize, most: u16) -> bool
        ensures { result ≡ nat_le (words (drop without self.now.stack)) most }
    {
        let rest = self.stack.len().saturating_sub(without);
        are_within(&self.stack[..rest], most)
    }

    /// Puts a type on the stack. For want of memory the state is as it was.
    pub fn push(&mut self, t: VType) -> Result<(), AllocError>
        ensures { OnOk result (self.new ≡ record self.old { stack = t ∷ self.old.stack }) }
    {
        let Ok(()) = self.stack.push(t) else {
            return Err(AllocError);
        };
        Ok(())
    }

    /// Takes the topmost types away.
    #[tactic(auto, using(crate::proofs::Types::drop_reverse))]
    pub fn drop_top(&mut self, count: usize)
        ensures { self.new ≡ record self.old { stack = drop count self.old.stack } }
    {
        let rest = self.stack.len().saturating_sub(count);
        self.stack.truncate(rest);
    }

    /// Nothing is left on the stack.
    pub fn clear(&mut self)
        ensures { self.new ≡ record self.old { stack = [] } }
    {
        self.stack.clear();
    }

    /// The topmost types, the top first; all where there are fewer.
    pub fn top(&self, alloc: Global, count: usize) -> Result<Vec<VType>, AllocError>
        ensures { IfOk result (λ v. v.items ≡ take count self.now.stack) }
    {
        let rest = self.stack.len().saturating_sub(count);
        let Ok(mut top) = Vec::from_slice(alloc, &self.stack[rest..]) else {
            return Err(AllocError);
        };
        top.reverse();
        Ok(top)
    }

    /// Puts types on the stack, the first of them on top.
    #[tactic(auto, using(crate::proofs::Shuffled::pushed_reversed))]
    pub fn push_all(&mut self, types: &[VType]) -> Result<(), AllocError>
        ensures { OnOk result (self.new ≡ record self.old { stack = types.now ++ self.old.stack }) }
    {
        push_reversed(&mut self.stack, types)
    }

    /// Whether the stack has at least so many words.
    #[tactic(auto, using(crate::proofs::Shuffled::is_within, crate::proofs::Shuffled::none_needed))]
    pub fn has_words(&self, least: u16) -> bool
        ensures { result ≡ nat_le least (words self.now.stack) }
    {
        if least == 0 {
            return true;
        }
        !are_within(&self.stack, least - 1)
    }

    /// Whether so many words more are at most so many.
    #[tactic(auto, using(crate::proofs::Shuffled::room_after, crate::proofs::Shuffled::too_many))]
    pub fn has_room(&self, more: u16, most: u16) -> bool
        ensures { result ≡ nat_le (words self.now.stack + more) most }
    {
        if most < more {
            return false;
        }
        are_within(&self.stack, most - more)
    }

    /// A type in a local. It leaves no half of a long.
    pub fn store(&mut self, slot: u16, t: VType) -> Result<(), AllocError>
        ensures { OnOk result (self.new ≡ record self.old { locals = stored self.old.locals slot t }) }
    {
        let slot = usize::from(slot);
        let Ok(()) = split_long(&mut self.locals, slot) else {
            return Err(AllocError);
        };
        let Ok(()) = poke(&mut self.locals, slot, t) else {
            return Err(AllocError);
        };
        with_half(&mut self.locals, slot, t)
    }

    /// Whether the uninitialized type is on the stack.
    #[tactic(auto, using(crate::proofs::Types::any_reverse))]
    pub fn has_on_stack(&self, t: VType) -> bool
        ensures { result ≡ list_any (is_same t) self.now.stack }
    {
        is_among(&self.stack, t)
    }

    /// Another type in place of an uninitialized one in the locals.
    pub fn replace_in_locals(&mut self, old: VType, new: VType)
        ensures { self.new ≡ record self.old { locals = replaced old new self.old.locals } }
    {
        replace(&mut self.locals, old, new);
    }

    /// And on the stack.
    #[tactic(auto, using(crate::proofs::Types::replaced_reverse))]
    pub fn replace_on_stack(&mut self, old: VType, new: VType)
        ensures { self.new ≡ record self.old { stack = replaced old new self.old.stack } }
    {
        replace(&mut self.stack, old, new);
    }

    /// The object that the constructor makes is initialized.
    pub fn set(&mut self)
        ensures { self.new ≡ record self.old { unset = false } }
    {
        self.unset = false;
    }
}
