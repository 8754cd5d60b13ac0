//! What the classes of a world are.

ghost use Rattle.std.specs.Prelude.{◌≡◌};
ghost use Rattle.kilim_program.specs.Names.{is_task};
ghost use Rattle.kilim_program.specs.Kinds.{class_kind, kind_of, is_message};

use crate::world::World;
use kilim_program::{ClassId, Kind, Ty};

impl World {
    /// Whether a class is `kilim/Task` or a subclass of it (own).
    pub fn is_task(&self, class: ClassId) -> bool
        ensures { result ≡ is_task self.now.outline class }
    {
        self.outline().is_task(class)
    }

    /// Whether a class is a message: it is `kilim/Message`, or implements it, itself or by a superclass (own).
    pub fn is_message(&self, class: ClassId) -> bool
        ensures { result ≡ is_message self.now.outline class }
    {
        self.outline().is_message(class)
    }

    /// The kind of a class (own); private past the end.
    pub fn class_kind(&self, class: ClassId) -> Kind
        ensures { result ≡ class_kind self.now.outline class }
    {
        self.outline().class_kind(class)
    }

    /// The kind of a type (own).
    pub fn kind_of(&self, ty: &Ty) -> Kind
        ensures { result ≡ kind_of self.now.outline ty.now }
    {
        self.outline().kind_of(ty)
    }
}
