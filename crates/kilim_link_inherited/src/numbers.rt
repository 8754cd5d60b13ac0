//! Numbers for signatures.

ghost use Rattle.std.specs.Prelude.{◌≡◌, List, ℕ, Some, None, IfOk};
ghost use Rattle.kilim_link_inherited.specs.Numbers.{number_at, Numbered, Keeps};

use crate::signature::Signature;
use kilim_units::{NoMemory, no_room};
use std::alloc::Global;
use std::collections::BTreeMap;

/// A number for each signature that was added, and no number for two.
#[derive(Drop)]
pub struct Numbers {
    places: BTreeMap<Signature, u32>,
    // The next number.
    next: u32,
}

impl Numbers {
    /// No signature has a number. Takes no memory.
    pub fn new(alloc: Global) -> Self
        ensures none { (name descriptor : List ℕ) → number_at result.places name descriptor ≡ None }
        ensures numbered { Numbered result.places result.next }
    {
        Numbers {
            places: BTreeMap::new(alloc),
            next: 0,
        }
    }

    /// The number of a signature, none where it wasn't added.
    pub fn number(&self, signature: &Signature) -> Option<u32>
        ensures { result ≡ number_at self.now.places signature.now.name signature.now.descriptor }
    {
        self.places.get(signature).copied()
    }

    /// The number of a signature, a new one where it has none. Numbers that were given stay, for want of memory too;
    /// that is answered as well where there are as many as numbers of 32 bits.
    pub fn add(&mut self, signature: &Signature) -> Result<u32, NoMemory>
        requires { Numbered self.old.places self.old.next }
        ensures here { IfOk result (λ k. number_at self.new.places signature.now.name signature.now.descriptor ≡ Some k) }
        ensures kept { Keeps (number_at self.old.places) (number_at self.new.places) }
        ensures numbered { Numbered self.new.places self.new.next }
    {
        if let Some(number) = self.number(signature) {
            return Ok(number);
        }
        let number = self.next;
        if number == u32::MAX {
            // room: 2^32 names with descriptors
            return Err(no_room());
        }
        let Ok(copy) = signature.copied() else {
            return Err(NoMemory);
        };
        let Ok(_) = self.places.insert(copy, number) else {
            return Err(NoMemory);
        };
        self.next = number + 1;
        Ok(number)
    }
}
