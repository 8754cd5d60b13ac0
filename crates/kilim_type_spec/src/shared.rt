//! Lists of types that share their parts.

ghost use Rattle.std.specs.Prelude.{◌≡◌, ◌↔◌, ◌<◌, ◌≤◌, IsTrue, IfOk, OnOk, length};
ghost use Rattle.kilim_type_spec.specs.Parts.{joined};

use kilim_program::VType;
use std::alloc::{AllocError, Global};
use std::marker::Model;
use std::sync::Arc;

// So many types are in a part; fewer in the last one.
const PART: usize = 64;

/// A part of a list of types; lists may share it.
#[derive(Drop)]
pub struct Part {
    types: Arc<Vec<VType>, Global>,
}

impl Model for Part {
    ghost use Rattle.std.specs.Prelude.{List};
    ghost use Rattle.kilim_program.specs.declared.verified.VType.{VType};

    ghost Value = { List VType };

    ghost view = { λ p. p.types.value.items };
}

impl Part {
    fn new(alloc: Global, types: &[VType]) -> Result<Part, AllocError>
        ensures { IfOk result (λ part. part ≡ types.now) }
    {
        let Ok(types) = Vec::from_slice(alloc, types) else {
            return Err(AllocError);
        };
        let Ok(types) = Arc::new(alloc, types) else {
            return Err(AllocError);
        };
        Ok(Part { types })
    }

    fn share(&self) -> Result<Part, AllocError>
        ensures { IfOk result (λ part. part ≡ self.now) }
    {
        let Ok(types) = Arc::try_clone(&self.types) else {
            return Err(AllocError);
        };
        Ok(Part { types })
    }

    fn types(&self) -> &[VType]
        ensures { result.now ≡ self.now }
    {
        self.types.as_slice()
    }
}

fn same_types(one: &[VType], other: &[VType]) -> bool
    ensures { IsTrue result ↔ (one.now ≡ other.now) }
{
    if one.len() != other.len() {
        return false;
    }
    for at in 0..one.len() {
        if one[at] != other[at] {
            return false;
        }
    }
    true
}

// Whether these are the types of parts.
fn are_of(parts: &[Part], types: &[VType]) -> bool
    ensures { IsTrue result → joined parts.now ≡ types.now }
{
    let mut left = types;
    for part in parts {
        let count = part.types().len();
        if left.len() < count {
            return false;
        }
        let (front, rest) = left.split_at(count);
        if !same_types(part.types(), front) {
            return false;
        }
        left = rest;
    }
    left.is_empty()
}

// A part of these types: that of the number, where it has them.
fn part_like(
    alloc: Global,
    parts: &[Part],
    number: usize,
    types: &[VType],
) -> Result<Part, AllocError>
    ensures { IfOk result (λ part. part ≡ types.now) }
{
    if number < parts.len() && same_types(parts[number].types(), types) {
        return parts[number].share();
    }
    Part::new(alloc, types)
}

// Parts of these types, those that are there where they have them.
fn parts_like(alloc: Global, old: &[Part], types: &[VType]) -> Result<Vec<Part>, AllocError>
    ensures { IfOk result (λ parts. joined parts.items ≡ types.now) }
{
    let mut parts = Vec::new(alloc);
    let mut left = types;
    while left.len() > 0 {
        let count = if left.len() < PART { left.len() } else { PART };
        let (front, rest) = left.split_at(count);
        let Ok(part) = part_like(alloc, old, parts.len(), front) else {
            return Err(AllocError);
        };
        let Ok(()) = parts.push(part) else {
            return Err(AllocError);
        };
        left = rest;
    }
    Ok(parts)
}

/// A list of types. Lists that were made one after the other share the parts in which they agree.
#[derive(Drop)]
pub struct SharedTypes {
    parts: Arc<Vec<Part>, Global>,
}

impl Model for SharedTypes {
    ghost use Rattle.std.specs.Prelude.{List};
    ghost use Rattle.kilim_program.specs.declared.verified.VType.{VType};
    ghost use Rattle.kilim_type_spec.specs.Parts.{joined};

    ghost Value = { List VType };

    ghost view = { λ s. joined s.parts.value.items };
}

impl SharedTypes {
    fn from_parts(alloc: Global, parts: Vec<Part>) -> Result<SharedTypes, AllocError>
        ensures { IfOk result (λ list. list ≡ joined parts.items) }
    {
        let Ok(parts) = Arc::new(alloc, parts) else {
            return Err(AllocError);
        };
        Ok(SharedTypes { parts })
    }

    /// A list of these types.
    pub fn new(alloc: Global, types: &[VType]) -> Result<SharedTypes, AllocError>
        ensures { IfOk result (λ list. list ≡ types.now) }
    {
        let Ok(parts) = parts_like(alloc, &[], types) else {
            return Err(AllocError);
        };
        SharedTypes::from_parts(alloc, parts)
    }

    fn share(&self) -> Result<SharedTypes, AllocError>
        ensures { IfOk result (λ list. list ≡ self.now) }
    {
        let Ok(parts) = Arc::try_clone(&self.parts) else {
            return Err(AllocError);
        };
        Ok(SharedTypes { parts })
    }

    fn is(&self, types: &[VType]) -> bool
        ensures { IsTrue result → self.now ≡ types.now }
    {
        are_of(self.parts.as_slice(), types)
    }

    /// A list of these types, which shares with this one the parts that are the same.
    pub fn next(&self, alloc: Global, types: &[VType]) -> Result<SharedTypes, AllocError>
        ensures { IfOk result (λ list. list ≡ types.now) }
    {
        if self.is(types) {
            return self.share();
        }
        let Ok(parts) = parts_like(alloc, self.parts.as_slice(), types) else {
            return Err(AllocError);
        };
        SharedTypes::from_parts(alloc, parts)
    }

    /// The types.
    pub fn types(&self, alloc: Global) -> Result<Vec<VType>, AllocError>
        ensures { IfOk result (λ types. types.items ≡ self.now) }
    {
        let parts = self.parts.as_slice();
        let mut types = Vec::new(alloc);
        for part in parts {
            let Ok(()) = types.extend_from_slice(part.types()) else {
                return Err(AllocError);
            };
        }
        Ok(types)
    }
}
