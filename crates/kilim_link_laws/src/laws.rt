//! Laws about the definitions. No program calls them to do work.

ghost use Rattle.kilim_link_laws.specs.Bridge.{BaredAgrees, OutlineAgrees, OutlineIsBared};
ghost use Rattle.kilim_link_laws.specs.Facts.{EachIsNamed, BuiltInIsLast, FieldsFit, MembersAreOwned, NamesDiffer, NoneIsBoth, NoneIsItsAncestor, NoneIsLeftAbstract, NoneIsNamedAsArray, OverridingAgrees, OwnClassesFit, SuperclassesFit};

use kilim_link_spec::{linked_in_parts, none_has_a_problem, none_of_each_kind};

/// A law, and no work: what only looks at names, superclasses and marks is the same without the members.
pub fn bared_agrees()
    ensures { BaredAgrees }
{}

/// A law, and no work: the outline of a world is the program that its files link to, without its members.
pub fn outline_is_bared()
    ensures { OutlineIsBared }
{
    linked_in_parts();
    none_has_a_problem();
    none_of_each_kind();
}

/// A law, and no work: so what only looks at names, superclasses and marks is the same of both.
pub fn outline_agrees()
    ensures { OutlineAgrees }
{
    bared_agrees();
    outline_is_bared();
}

/// A law, and no work: no class of files that link well is its own ancestor.
pub fn none_is_its_ancestor()
    ensures { NoneIsItsAncestor }
{
    linked_in_parts();
    none_has_a_problem();
    none_of_each_kind();
}

/// A law, and no work: of files that link well no class is a task and a message.
pub fn none_is_both()
    ensures { NoneIsBoth }
{
    linked_in_parts();
    none_has_a_problem();
    none_of_each_kind();
}

/// A law, and no work: of files that link well each superclass is of a kind that its class may extend.
pub fn superclasses_fit()
    ensures { SuperclassesFit }
{
    linked_in_parts();
    none_has_a_problem();
    none_of_each_kind();
}

/// A law, and no work: the last classes of a program are the built-in ones, and of its other methods exactly the abstract ones have no code.
pub fn built_in_is_last()
    ensures { BuiltInIsLast }
{
    linked_in_parts();
    none_has_a_problem();
    none_of_each_kind();
}

/// A law, and no work: of files that link well a class's members are those that name it as owner, each once, in their order.
pub fn members_are_owned()
    ensures { MembersAreOwned }
{
    linked_in_parts();
    none_has_a_problem();
    none_of_each_kind();
}

/// A law, and no work: of files that link well no two classes have one name, and no two members of a class one name and descriptor.
pub fn names_differ()
    ensures { NamesDiffer }
{
    linked_in_parts();
    none_has_a_problem();
    none_of_each_kind();
}

/// A law, and no work: of files that link well no class has a name that begins with `[`.
pub fn none_is_named_as_array()
    ensures { NoneIsNamedAsArray }
{
    linked_in_parts();
    none_has_a_problem();
    none_of_each_kind();
}

/// A law, and no work: of files that link well no class has an empty name.
pub fn each_is_named()
    ensures { EachIsNamed }
{
    linked_in_parts();
    none_has_a_problem();
    none_of_each_kind();
}

/// A law, and no work: of files that link well each field holds what its class's kind allows.
pub fn fields_fit()
    ensures { FieldsFit }
{
    linked_in_parts();
    none_has_a_problem();
    none_of_each_kind();
}

/// A law, and no work: of files that link well an overriding method agrees with what it overrides.
pub fn overriding_agrees()
    ensures { OverridingAgrees }
{
    linked_in_parts();
    none_has_a_problem();
    none_of_each_kind();
}

/// A law, and no work: of files that link well a class that isn't abstract neither declares nor inherits an abstract method.
pub fn none_is_left_abstract()
    ensures { NoneIsLeftAbstract }
{
    linked_in_parts();
    none_has_a_problem();
    none_of_each_kind();
}

/// A law, and no work: of files that link well no class is `kilim/Fiber`, and each extends a class of the files, `java/lang/Object` or `kilim/Task`.
pub fn own_classes_fit()
    ensures { OwnClassesFit }
{
    linked_in_parts();
    none_has_a_problem();
    none_of_each_kind();
}
