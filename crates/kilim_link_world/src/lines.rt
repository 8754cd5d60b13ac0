//! Superclasses: of each class, and all the way up.

ghost use Rattle.std.specs.Prelude.{◌≡◌, IfOk, map};
ghost use Rattle.kilim_program.specs.Names.{line_of};
ghost use Rattle.kilim_link_world.specs.Superclasses.{AreSuperclasses};

use crate::outline::Outline;
use kilim_program::{Class, ClassId};
use kilim_units::{NoMemory, Seq};
use std::alloc::Global;

/// The superclass of each class.
pub fn superclasses_of(alloc: Global, classes: &[Class]) -> Result<Seq<Option<ClassId>>, NoMemory>
    ensures { IfOk result (λ ups. ups ≡ map (λ class. class.superclass) classes.now) }
{
    let mut ups: Seq<Option<ClassId>> = Seq::new(alloc);
    for class in classes {
        let Ok(()) = ups.push(class.superclass) else {
            return Err(NoMemory);
        };
    }
    Ok(ups)
}

impl Outline {
    /// A class, its superclass, and so on up, at most as many as there are classes.
    pub fn line(&self, alloc: Global, class: ClassId) -> Result<Seq<ClassId>, NoMemory>
        ensures { IfOk result (λ line. line ≡ line_of self.now class) }
    {
        let mut line: Seq<ClassId> = Seq::new(alloc);
        let mut at = class;
        let mut left = self.classes.len();
        while left > 0 {
            let Ok(()) = line.push(at) else {
                return Err(NoMemory);
            };
            let Some(up) = self.superclass_of(at) else {
                return Ok(line);
            };
            at = up;
            left -= 1;
        }
        Ok(line)
    }

    /// The superclass of each class.
    pub fn superclasses(&self, alloc: Global) -> Result<Seq<Option<ClassId>>, NoMemory>
        ensures { IfOk result (λ ups. AreSuperclasses self.now ups) }
    {
        superclasses_of(alloc, self.classes.as_slice())
    }
}
