//! Which type fits which.

ghost use Rattle.std.specs.Prelude.{◌≡◌, ◌==◌, codes};
ghost use Rattle.std.specs.List.{list_any};
ghost use Rattle.kilim_program.specs.Names.{line_up_to, line_of};
ghost use Rattle.kilim_program.specs.Kinds.{is_message};
ghost use Rattle.kilim_program.specs.Fits.{fits_type, base_assignable, class_assignable, is_object_base, is_named};
ghost use Rattle.kilim_program.specs.declared.names.ClassId.{ClassId};

use crate::class::Program;
use crate::lookups::same_base;
use crate::names::ClassId;
use crate::ty::{Base, Ty};

impl Program {
    fn is_object_class(&self, class: ClassId) -> bool
        ensures { result ≡ is_named self.now (codes "java/lang/Object") class }
    {
        match self.class_at(class) {
            Some(found) => found.name.is_text(b"java/lang/Object"),
            None => false,
        }
    }

    fn is_message_class(&self, class: ClassId) -> bool
        ensures { result ≡ is_named self.now (codes "kilim/Message") class }
    {
        match self.class_at(class) {
            Some(found) => found.name.is_text(b"kilim/Message"),
            None => false,
        }
    }

    // Whether a class, or one of its superclasses, is that one, among so many classes from it up.
    fn is_below_within(&self, class: ClassId, up: ClassId, most: usize) -> bool
        ensures { result ≡ list_any (λ (c : ClassId). c.0 == up.0) (line_up_to self.now most class) }
    {
        let mut at = class;
        let mut left = most;
        while left > 0 {
            if at.0 == up.0 {
                return true;
            }
            let Some(found) = self.class_at(at) else {
                return false;
            };
            let Some(next) = found.superclass else {
                return false;
            };
            at = next;
            left -= 1;
        }
        false
    }

    // Whether a class, or one of its superclasses, implements the interface, among so many classes from it up.
    fn is_message_within(&self, class: ClassId, most: usize) -> bool
        ensures { result ≡ list_any (is_message self.now) (line_up_to self.now most class) }
    {
        let mut at = class;
        let mut left = most;
        while left > 0 {
            let Some(found) = self.class_at(at) else {
                return false;
            };
            if found.message {
                return true;
            }
            let Some(up) = found.superclass else {
                return false;
            };
            at = up;
            left -= 1;
        }
        false
    }

    /// Whether a class is that one or one of its subclasses. Takes no memory.
    pub fn is_subclass(&self, class: ClassId, up: ClassId) -> bool
        ensures { result ≡ list_any (λ (c : ClassId). c.0 == up.0) (line_of self.now class) }
    {
        self.is_below_within(class, up, self.classes.len())
    }

    fn class_fits(&self, from: ClassId, to: ClassId) -> bool
        ensures { result ≡ class_assignable self.now from to }
    {
        self.is_subclass(from, to)
            || self.is_object_class(to)
            || (self.is_message_class(to) && self.is_message_within(from, self.classes.len()))
    }

    fn base_fits(&self, from: Base, to: Base) -> bool
        ensures { result ≡ base_assignable self.now from to }
    {
        match from {
            Base::Class(from) => match to {
                Base::Class(to) => self.class_fits(from, to),
                Base::Bool | Base::Byte | Base::Char | Base::Short | Base::Int | Base::Long => {
                    false
                }
            },
            Base::Bool | Base::Byte | Base::Char | Base::Short | Base::Int | Base::Long => {
                same_base(from, to)
            }
        }
    }

    fn is_object_base(&self, base: Base) -> bool
        ensures { result ≡ is_object_base self.now base }
    {
        match base {
            Base::Class(class) => self.is_object_class(class),
            Base::Bool | Base::Byte | Base::Char | Base::Short | Base::Int | Base::Long => false,
        }
    }

    /// Whether a reference to an object or an array of the one type may stand where the other is declared (JVMS
    /// 4.10.1.2, 5.1): a class to itself and its superclasses, an implementer to `kilim/Message`, an array to
    /// `java/lang/Object` and to arrays of what its elements fit; a primitive type to itself alone. Takes no memory.
    #[tactic(auto, using(crate::proofs::Upward::same_dims, crate::proofs::Upward::more_dims, crate::proofs::Upward::fewer_dims), unfolding(crate::specs::Fits::fits_type))]
    pub fn fits_type(&self, from: &Ty, to: &Ty) -> bool
        ensures { result ≡ fits_type self.now from.now to.now }
    {
        let (more, fewer) = (from.dims, to.dims);
        if more < fewer {
            return false;
        }
        if fewer < more {
            return self.is_object_base(to.base);
        }
        self.base_fits(from.base, to.base)
    }
}
