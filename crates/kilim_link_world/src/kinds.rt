//! The kinds of classes and types, by classes without members.

ghost use Rattle.std.specs.Prelude.{◌≡◌, Some, codes, length, option_copied};
ghost use Rattle.std.specs.Str.{bytes_eq};
ghost use Rattle.kilim_program.specs.declared.ty.Kind.TheVariants as kind;
ghost use Rattle.kilim_program.specs.Names.{class_at, class_name, is_task};
ghost use Rattle.kilim_program.specs.Kinds.{is_value_class, class_kind, base_kind, kind_of, array_kind, is_message, is_task_base, is_task_type, is_value_kind, is_tree_kind, is_private_kind, field_may_hold};
ghost use Rattle.kilim_program.specs.Keeps.{superclass_of, is_object, superclass_fits, is_int_like, is_long, is_string_base, constant_fits};

use crate::outline::Outline;
use crate::tasks::mark_in;
use kilim_program::{Base, Class, ClassId, Kind, Ty, Value};
use kilim_units::Units;

fn is_value_class(name: &Units) -> bool
    ensures { result ≡ is_value_class name.now }
{
    name.is_text(b"java/lang/String") || name.is_text(b"kilim/Mailbox")
}

fn array_kind(kind: Kind) -> Kind
    ensures { result ≡ array_kind kind }
{
    match kind {
        Kind::Value | Kind::Tree => Kind::Tree,
        Kind::Private => Kind::Private,
    }
}

fn is_value_kind(kind: Kind) -> bool
    ensures { result ≡ is_value_kind kind }
{
    match kind {
        Kind::Value => true,
        Kind::Tree | Kind::Private => false,
    }
}

fn is_tree_kind(kind: Kind) -> bool
    ensures { result ≡ is_tree_kind kind }
{
    match kind {
        Kind::Tree => true,
        Kind::Value | Kind::Private => false,
    }
}

fn is_private_kind(kind: Kind) -> bool
    ensures { result ≡ is_private_kind kind }
{
    match kind {
        Kind::Private => true,
        Kind::Value | Kind::Tree => false,
    }
}

fn is_int_like(base: Base) -> bool
    ensures { result ≡ is_int_like base }
{
    match base {
        Base::Long | Base::Class(_) => false,
        Base::Bool | Base::Byte | Base::Char | Base::Short | Base::Int => true,
    }
}

fn is_long(base: Base) -> bool
    ensures { result ≡ is_long base }
{
    match base {
        Base::Long => true,
        Base::Bool | Base::Byte | Base::Char | Base::Short | Base::Int | Base::Class(_) => false,
    }
}

impl Outline {
    /// The class of an id, none past the end.
    pub fn class_at(&self, class: ClassId) -> Option<&Class>
        ensures { option_copied result ≡ class_at self.now class }
    {
        self.classes.as_slice().get(class.0 as usize)
    }

    /// The superclass of a class; none past the end too.
    pub fn superclass_of(&self, class: ClassId) -> Option<ClassId>
        ensures { result ≡ superclass_of (class_at self.now class) }
    {
        match self.class_at(class) {
            Some(found) => found.superclass,
            None => None,
        }
    }

    // Whether a class has an ASCII text as its name; one past the end has the empty name.
    fn is_named(&self, class: ClassId, text: &[u8]) -> bool
        ensures { result ≡ bytes_eq (class_name self.now class) text.now }
    {
        match self.class_at(class) {
            Some(found) => found.name.is_text(text),
            None => text.is_empty(),
        }
    }

    /// Whether a class is `kilim/Task` or a subclass of it (own).
    pub fn is_task(&self, class: ClassId) -> bool
        ensures { result ≡ is_task self.now class }
    {
        mark_in(&self.tasks, class)
    }

    /// Whether a class is a message: it is `kilim/Message`, or implements it, itself or by a superclass (own).
    pub fn is_message(&self, class: ClassId) -> bool
        ensures { result ≡ is_message self.now class }
    {
        match self.class_at(class) {
            Some(found) => found.message,
            None => false,
        }
    }

    /// The kind of a class (own); private past the end.
    pub fn class_kind(&self, class: ClassId) -> Kind
        ensures { result ≡ class_kind self.now class }
    {
        let Some(found) = self.class_at(class) else {
            return Kind::Private;
        };
        if is_value_class(&found.name) {
            Kind::Value
        } else if self.is_task(class) || found.message {
            Kind::Tree
        } else {
            Kind::Private
        }
    }

    fn base_kind(&self, base: Base) -> Kind
        ensures { result ≡ base_kind self.now base }
    {
        match base {
            Base::Class(class) => self.class_kind(class),
            Base::Bool | Base::Byte | Base::Char | Base::Short | Base::Int | Base::Long => {
                Kind::Value
            }
        }
    }

    /// The kind of a type (own).
    pub fn kind_of(&self, ty: &Ty) -> Kind
        ensures { result ≡ kind_of self.now ty.now }
    {
        let kind = self.base_kind(ty.base);
        if ty.dims == 0 { kind } else { array_kind(kind) }
    }

    fn is_task_base(&self, base: Base) -> bool
        ensures { result ≡ is_task_base self.now base }
    {
        match base {
            Base::Class(class) => self.is_task(class),
            Base::Bool | Base::Byte | Base::Char | Base::Short | Base::Int | Base::Long => false,
        }
    }

    fn is_task_type(&self, ty: &Ty) -> bool
        ensures { result ≡ is_task_type self.now ty.now }
    {
        ty.dims == 0 && self.is_task_base(ty.base)
    }

    // Whether a field of a tree may hold a type.
    fn tree_may_hold(&self, ty: &Ty) -> bool
        ensures { result ≡ field_may_hold self.now kind.Tree ty.now }
    {
        let kind = self.kind_of(ty);
        is_value_kind(kind) || (is_tree_kind(kind) && !self.is_task_type(ty))
    }

    // Whether a field of a private class may hold a type.
    fn private_may_hold(&self, ty: &Ty) -> bool
        ensures { result ≡ field_may_hold self.now kind.Private ty.now }
    {
        let kind = self.kind_of(ty);
        is_value_kind(kind) || is_private_kind(kind)
    }

    /// Whether a field of this type may stand in a class of this kind (own): in a tree a value, or a tree that is no
    /// task; in a private class a value or a private type.
    pub fn field_may_hold(&self, kind: Kind, ty: &Ty) -> bool
        ensures { result ≡ field_may_hold self.now kind ty.now }
    {
        match kind {
            Kind::Value => false,
            Kind::Tree => self.tree_may_hold(ty),
            Kind::Private => self.private_may_hold(ty),
        }
    }

    fn is_object(&self, class: ClassId) -> bool
        ensures { result ≡ is_object self.now class }
    {
        self.is_named(class, b"java/lang/Object")
    }

    // Whether a class is of a kind that may have that superclass.
    fn superclass_fits_at(&self, class: ClassId, up: ClassId) -> bool
        ensures { result ≡ superclass_fits self.now class (Some up) }
    {
        if self.is_message(class) {
            self.is_object(up) || self.is_message(up)
        } else {
            !is_private_kind(self.class_kind(class)) || is_private_kind(self.class_kind(up))
        }
    }

    /// Whether a class is of a kind that may have this superclass (own): that of a message is `java/lang/Object` or a
    /// message, that of a private class private. Only `java/lang/Object` has none.
    pub fn superclass_fits(&self, class: ClassId, up: Option<ClassId>) -> bool
        ensures { result ≡ superclass_fits self.now class up }
    {
        match up {
            Some(up) => self.superclass_fits_at(class, up),
            None => self.is_object(class),
        }
    }

    fn is_string_base(&self, base: Base) -> bool
        ensures { result ≡ is_string_base self.now base }
    {
        match base {
            Base::Class(class) => self.is_named(class, b"java/lang/String"),
            Base::Bool | Base::Byte | Base::Char | Base::Short | Base::Int | Base::Long => false,
        }
    }

    /// Whether a static field of this type may have this constant (JVMS 4.7.2): an int where it is int-like, a long
    /// where it is long, a text where it is a string.
    pub fn constant_fits(&self, ty: &Ty, value: Option<&Value>) -> bool
        ensures { result ≡ constant_fits self.now ty.now (option_copied value.entry) }
    {
        match value {
            Some(Value::Int(_)) => ty.dims == 0 && is_int_like(ty.base),
            Some(Value::Long(_)) => ty.dims == 0 && is_long(ty.base),
            Some(Value::Text(_)) => ty.dims == 0 && self.is_string_base(ty.base),
            Some(Value::Null | Value::Ref(_) | Value::Box(_) | Value::Fiber) | None => false,
        }
    }
}
