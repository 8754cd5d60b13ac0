//! Where names stand in lists.

ghost use Rattle.std.specs.Prelude.{◌≡◌, ◌++◌, ◌∷◌, [], List, ℕ, OnOk, if◌then◌else◌};
ghost use Rattle.kilim_link_inherited.specs.Index.{positions, same_signature};

use crate::signature::Signature;
use kilim_units::NoMemory;
use std::alloc::Global;
use std::collections::BTreeMap;

/// The places of each name with its descriptor in a list, in order.
#[derive(Drop)]
pub struct Index {
    places: BTreeMap<Signature, Vec<u32>>,
}

impl Index {
    /// No name stands anywhere. Takes no memory.
    pub fn new(alloc: Global) -> Self
        ensures { (name descriptor : List ℕ) → positions result.places name descriptor ≡ [] }
    {
        Index {
            places: BTreeMap::new(alloc),
        }
    }

    /// The places of a name with its descriptor, none where it stands nowhere.
    pub fn places(&self, signature: &Signature) -> &[u32]
        ensures { result.now ≡ positions self.now.places signature.now.name signature.now.descriptor }
    {
        match self.places.get(signature) {
            Some(places) => places.as_slice(),
            None => &[],
        }
    }

    /// One more place, behind the others of that name and descriptor.
    pub fn add(&mut self, alloc: Global, signature: Signature, place: u32) -> Result<(), NoMemory>
        ensures { OnOk result ((name descriptor : List ℕ) → positions self.new.places name descriptor ≡ (if same_signature signature name descriptor then positions self.old.places name descriptor ++ place ∷ [] else positions self.old.places name descriptor)) }
    {
        let mut places = match self.places.remove(&signature) {
            Some(places) => places,
            None => Vec::new(alloc),
        };
        let Ok(()) = places.push(place) else {
            return Err(NoMemory);
        };
        let Ok(_) = self.places.insert(signature, places) else {
            return Err(NoMemory);
        };
        Ok(())
    }
}
