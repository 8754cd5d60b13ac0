//! The nearest class that says something of a member.

ghost use Rattle.std.specs.Prelude.{◌≡◌, ◌≤◌, true, false, IfOk, length};
ghost use Rattle.kilim_link_inherited.specs.Known.{known, KeysNamed, KnowsNone, KnowsSome, Tells};

use crate::entries::all_entries;
use crate::said::Said;
use crate::{Inherited, Numbers, Signature};
use kilim_program::ClassId;
use kilim_units::{NoMemory, Seq};
use std::alloc::Global;

/// What each class inherits of each member that some class says something of.
#[derive(Drop)]
pub struct Nearest {
    numbers: Numbers,
    inherited: Inherited,
}

impl Nearest {
    /// Of the superclass of each class and of what each class says. A class may be its own ancestor.
    pub fn new(
        alloc: Global,
        ups: &[Option<ClassId>],
        said: &[Seq<Said>],
    ) -> Result<Nearest, NoMemory>
        requires { length said.now ≤ length ups.now }
        ensures { IfOk result (λ it. Tells it ups.now said.now) }
    {
        let mut numbers = Numbers::new(alloc);
        let Ok(entries) = all_entries(alloc, &mut numbers, said) else {
            return Err(NoMemory);
        };
        let Ok(inherited) = Inherited::new(alloc, ups, entries.as_slice()) else {
            return Err(NoMemory);
        };
        Ok(Nearest { numbers, inherited })
    }

    /// What the first class of a class's line says of a member that says something of it; none where it says that there
    /// is none, where no class says anything, and past the end.
    pub fn find(&self, class: ClassId, signature: &Signature) -> Option<u32>
        ensures { result ≡ known self.now class signature.now.name signature.now.descriptor }
    {
        match self.numbers.number(signature) {
            Some(number) => self.inherited.find(class, number),
            None => None,
        }
    }

    /// Whether a class inherits nothing of any name; exactly so where each key that something is inherited of is the number
    /// of a name, as `new` makes it.
    pub fn has_none(&self, class: ClassId) -> bool
        ensures none { result ≡ true → KnowsNone self.now class }
        ensures some { KeysNamed self.now → result ≡ false → KnowsSome self.now class }
    {
        self.inherited.has_none(class)
    }
}
