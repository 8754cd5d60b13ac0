//! Problems of a class itself, and of the classes that it names.

ghost use Rattle.std.specs.Prelude.{◌≡◌, ◌&&◌, IfOk, filter, option_copied};
ghost use Rattle.kilim_program.specs.BuiltIn.{is_exception};
ghost use Rattle.kilim_link_spec.specs.Mentions.{class_names};
ghost use Rattle.kilim_link_spec.specs.World.{class_of};
ghost use Rattle.kilim_link_spec.specs.Faults.{class_missing, circular, both_kinds, super_kind, is_missing, is_open, is_open_class, may_extend};
ghost use Rattle.kilim_link_spec.specs.Qualified.{has_fiber};
ghost use Rattle.kilim_link_spec.specs.Linked.{first_of};

use kilim_class_file::ClassFile;
use kilim_link_spec::{ClassView, Problem};
use kilim_link_views::super_name;
use kilim_link_world::World;
use kilim_program::{ClassId, Form};
use kilim_units::{NoMemory, Units};
use std::alloc::Global;

/// Whether a form has the class `kilim/Fiber`.
pub fn has_fiber(form: Form) -> bool
    ensures { result ≡ has_fiber form }
{
    match form {
        Form::Plain => false,
        Form::Woven => true,
    }
}

// Whether a class is neither given nor built in.
fn is_missing(world: &World, name: &Units) -> bool
    ensures { result ≡ is_missing world.now name.now }
{
    world.class_of(name).is_none() && (has_fiber(world.form()) || !name.is_text(b"kilim/Fiber"))
}

fn first_missing<'a>(world: &World, names: &'a [Units]) -> Option<&'a Units>
    ensures { option_copied result ≡ first_of (filter (is_missing world.now) names.now) }
{
    for name in names {
        if is_missing(world, name) {
            return Some(name);
        }
    }
    None
}

/// The first class that a file names and that is neither given nor built in (JVMS 5.3), where `names` are those that
/// it names. In plain form `kilim/Fiber` is left out instead.
#[tactic(auto, unfolding(kilim_link_spec::specs::Faults::class_missing))]
pub fn class_missing(
    world: &World,
    file: &ClassFile,
    class: ClassId,
    names: &[Units],
) -> Result<Option<Problem>, NoMemory>
    requires { names.now ≡ class_names file.now }
    ensures { IfOk result (λ found. found ≡ first_of (class_missing world.now file.now class)) }
{
    match first_missing(world, names) {
        Some(name) => Ok(Some(Problem::Missing(name.clone()?))),
        None => Ok(None),
    }
}

/// Whether the class is its own ancestor (JVMS 5.3.5).
#[tactic(auto, unfolding(kilim_link_spec::specs::Faults::circular))]
pub fn circular(
    world: &World,
    file: &ClassFile,
    class: ClassId,
) -> Result<Option<Problem>, NoMemory>
    ensures { IfOk result (λ found. found ≡ first_of (circular world.now file.now class)) }
{
    if world.is_circular(class) {
        Ok(Some(Problem::Circular))
    } else {
        Ok(None)
    }
}

/// Whether the class is a task and a message, itself or by its ancestors (own).
#[tactic(auto, unfolding(kilim_link_spec::specs::Faults::both_kinds))]
pub fn both_kinds(
    world: &World,
    file: &ClassFile,
    class: ClassId,
) -> Result<Option<Problem>, NoMemory>
    ensures { IfOk result (λ found. found ≡ first_of (both_kinds world.now file.now class)) }
{
    let outline = world.outline();
    let both = outline.is_task(class) && outline.is_message(class);
    if both {
        Ok(Some(Problem::Both))
    } else {
        Ok(None)
    }
}

// Whether a name is that of a class of exceptions that is built in.
fn is_exception(name: &Units) -> bool
    ensures { result ≡ is_exception name.now }
{
    name.is_text(b"java/lang/Throwable")
        || name.is_text(b"java/lang/Exception")
        || name.is_text(b"java/lang/RuntimeException")
        || name.is_text(b"java/lang/ArithmeticException")
        || name.is_text(b"java/lang/NullPointerException")
        || name.is_text(b"java/lang/NegativeArraySizeException")
        || name.is_text(b"java/lang/ClassCastException")
        || name.is_text(b"java/lang/ArrayStoreException")
        || name.is_text(b"java/lang/IndexOutOfBoundsException")
        || name.is_text(b"java/lang/ArrayIndexOutOfBoundsException")
        || name.is_text(b"java/lang/StringIndexOutOfBoundsException")
}

// Whether a class may be extended.
fn is_open(view: &ClassView) -> bool
    ensures { result ≡ is_open view.now }
{
    !view.is_final
        && (!view.is_built_in
            || (view.name.is_text(b"java/lang/Object")
                || (view.name.is_text(b"kilim/Task") || is_exception(&view.name))))
}

fn is_open_class(view: Option<&ClassView>) -> bool
    ensures { result ≡ is_open_class (option_copied view.entry) }
{
    match view {
        Some(view) => is_open(view),
        None => true,
    }
}

fn may_extend(world: &World, class: ClassId, superclass: Option<ClassId>) -> bool
    ensures { result ≡ may_extend world.now class superclass }
{
    match superclass {
        Some(up) => {
            is_open_class(world.view_at(up)) && world.outline().superclass_fits(class, Some(up))
        }
        None => true,
    }
}

/// Whether the superclass is final (JVMS 4.10), built in and not open, or of a kind that the class may not extend
/// (own).
#[tactic(auto, unfolding(kilim_link_spec::specs::Faults::super_kind))]
pub fn super_kind(
    alloc: Global,
    world: &World,
    file: &ClassFile,
    class: ClassId,
) -> Result<Option<Problem>, NoMemory>
    ensures { IfOk result (λ found. found ≡ first_of (super_kind world.now file.now class)) }
{
    let name = Units::from_slice(alloc, super_name(file))?;
    let fits = may_extend(world, class, world.class_of(&name));
    if fits {
        Ok(None)
    } else {
        Ok(Some(Problem::SuperKind))
    }
}
