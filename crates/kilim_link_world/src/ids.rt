//! Classes by their names.

ghost use Rattle.std.specs.Prelude.{◌≡◌, ◌<◌, ◌^◌, List, ℕ, length, if◌then◌else◌, Some, None, option_map, IfOk, OnOk};
ghost use Rattle.std.specs.Str.{bytes_eq};
ghost use Rattle.kilim_program.specs.BuiltIn.{class_id};
ghost use Rattle.kilim_link_spec.specs.World.{or_else};
ghost use Rattle.kilim_link_world.specs.Ids.{id_in, named_in};

use kilim_link_spec::ClassView;
use kilim_program::ClassId;
use kilim_units::{NoMemory, Units};
use std::alloc::Global;
use std::collections::BTreeMap;

/// The first place of each name among some classes.
#[derive(Drop)]
pub struct Ids {
    places: BTreeMap<Units, u32>,
}

// One more place for a name that has none.
fn add_first(places: &mut BTreeMap<Units, u32>, name: &Units, place: u32) -> Result<(), NoMemory>
    ensures { OnOk result ((other : List ℕ) → id_in places.new other ≡ or_else (id_in places.old other) (if bytes_eq name.now other then Some place else None)) }
{
    if !places.contains_key(name) {
        let Ok(key) = name.clone() else {
            return Err(NoMemory);
        };
        let Ok(_) = places.insert(key, place) else {
            return Err(NoMemory);
        };
    }
    Ok(())
}

impl Ids {
    /// Of these classes.
    pub fn new(alloc: Global, classes: &[ClassView]) -> Result<Self, NoMemory>
        requires { length classes.now < 2 ^ 32 }
        ensures { IfOk result (λ ids. (name : List ℕ) → id_in ids.places name ≡ named_in name classes.now) }
    {
        let mut places: BTreeMap<Units, u32> = BTreeMap::new(alloc);
        let mut i: u32 = 0;
        while (i as usize) < classes.len() {
            let Ok(()) = add_first(&mut places, &classes[i as usize].name, i) else {
                return Err(NoMemory);
            };
            i += 1;
        }
        Ok(Ids { places })
    }

    /// The first place of a name, none where no class has it.
    pub fn place(&self, name: &Units) -> Option<u32>
        ensures { result ≡ id_in self.now.places name.now }
    {
        self.places.get(name).copied()
    }

    /// The class of a name, the first one where there are several.
    pub fn class(&self, name: &Units) -> Option<ClassId>
        ensures { result ≡ option_map class_id (id_in self.now.places name.now) }
    {
        match self.place(name) {
            Some(place) => Some(ClassId(place)),
            None => None,
        }
    }
}
