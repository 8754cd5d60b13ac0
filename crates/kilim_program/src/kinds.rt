//! The kinds of types.

ghost use Rattle.std.specs.Prelude.{◌≡◌, ◌+◌, codes, length, option_copied};
ghost use Rattle.std.specs.List.{list_any};
ghost use Rattle.kilim_program.specs.Names.{class_at, line_up_to, is_task, is_named_task};
ghost use Rattle.kilim_program.specs.Kinds.{is_value_class, class_kind, base_kind, kind_of, array_kind};

use crate::class::{Class, Program};
use crate::lookups::class_at;
use crate::names::ClassId;
use crate::ty::{Base, Kind, Ty};
use kilim_units::Units;

fn is_value_class(name: &Units) -> bool
    ensures { result ≡ is_value_class name.now }
{
    name.is_text(b"java/lang/String") || name.is_text(b"kilim/Mailbox")
}

fn array_kind(kind: Kind) -> Kind
    ensures { result ≡ array_kind kind }
{
    match kind {
        Kind::Value | Kind::Tree => Kind::Tree,
        Kind::Private => Kind::Private,
    }
}

impl Program {
    // The class of an id, none past the end.
    pub(crate) fn class_at(&self, class: ClassId) -> Option<&Class>
        ensures { option_copied result ≡ class_at self.now class }
    {
        class_at(self, class)
    }

    // Whether a class, or one of its superclasses, is `kilim/Task`, among so many classes from it up.
    pub(crate) fn is_task_within(&self, class: ClassId, most: usize) -> bool
        ensures { result ≡ list_any (is_named_task self.now) (line_up_to self.now most class) }
    {
        let mut at = class;
        let mut left = most;
        while left > 0 {
            let Some(found) = self.class_at(at) else {
                return false;
            };
            if found.name.is_text(b"kilim/Task") {
                return true;
            }
            let Some(up) = found.superclass else {
                return false;
            };
            at = up;
            left -= 1;
        }
        false
    }

    fn class_kind(&self, class: ClassId) -> Kind
        ensures { result ≡ class_kind self.now class }
    {
        let Some(found) = self.class_at(class) else {
            return Kind::Private;
        };
        if is_value_class(&found.name) {
            Kind::Value
        } else if self.is_task_within(class, self.classes.len()) || found.message {
            Kind::Tree
        } else {
            Kind::Private
        }
    }

    fn base_kind(&self, base: Base) -> Kind
        ensures { result ≡ base_kind self.now base }
    {
        match base {
            Base::Class(class) => self.class_kind(class),
            Base::Bool | Base::Byte | Base::Char | Base::Short | Base::Int | Base::Long => {
                Kind::Value
            }
        }
    }

    /// The kind of a type (own): what may refer to what, and what a message may carry. Values are the int-like
    /// types, long, strings and mailboxes; trees are tasks, messages, and arrays of values and of trees; every other
    /// class, and each array of a private type, is private. A program has no array of tasks. Takes no memory.
    pub fn kind(&self, ty: &Ty) -> Kind
        ensures { result ≡ kind_of self.now ty.now }
    {
        let kind = self.base_kind(ty.base);
        if ty.dims == 0 { kind } else { array_kind(kind) }
    }
}
