//! Classes without their members, from those that are declared.

ghost use Rattle.std.specs.Prelude.{◌≡◌, ◌<◌, ◌^◌, List, ℕ, IfOk, length, map};
ghost use Rattle.kilim_link_spec.specs.World.{outlined, outline_with, outline_of};
ghost use Rattle.kilim_link_world.specs.Ids.{id_in, named_in};
ghost use Rattle.kilim_link_world.specs.Outlining.{superclass_in, without_members, mark_at};

use crate::ids::Ids;
use crate::outline::Outline;
use crate::tasks::{message_marks, task_marks};
use kilim_link_spec::ClassView;
use kilim_program::{Class, ClassId, Form};
use kilim_units::{NoMemory, Seq, Units};
use std::alloc::Global;

// The class of a name, where there is a name.
fn class_named(ids: &Ids, name: &Option<Units>) -> Option<ClassId>
    ensures { result ≡ superclass_in ids.now name.now }
{
    match name {
        Some(name) => ids.class(name),
        None => None,
    }
}

// One class without its members.
fn without_members(
    alloc: Global,
    view: &ClassView,
    ids: &Ids,
    message: bool,
) -> Result<Class, NoMemory>
    ensures { IfOk result (λ class. class ≡ without_members ids.now view.now message) }
{
    Ok(Class {
        name: view.name.clone()?,
        superclass: class_named(ids, &view.superclass),
        is_abstract: view.is_abstract,
        message,
        fields: Seq::new(alloc),
        methods: Seq::new(alloc),
    })
}

// The classes without their members, with these marks.
fn outlined(
    alloc: Global,
    classes: &[ClassView],
    ids: &Ids,
    marks: &Seq<bool>,
) -> Result<Seq<Class>, NoMemory>
    requires marked { length marks.now ≡ length classes.now }
    requires named { (name : List ℕ) → id_in ids.now.places name ≡ named_in name classes.now }
    ensures { IfOk result (λ list. list ≡ outlined classes.now (λ c v. mark_at marks.now c) 0 classes.now) }
{
    let mut list: Seq<Class> = Seq::new(alloc);
    let mut i = 0;
    while i < classes.len() {
        let message = *marks.get(i);
        let Ok(class) = without_members(alloc, &classes[i], ids, message) else {
            return Err(NoMemory);
        };
        let Ok(()) = list.push(class) else {
            return Err(NoMemory);
        };
        i += 1;
    }
    Ok(list)
}

// The outline of classes, with these marks.
fn outline_with(
    alloc: Global,
    form: Form,
    classes: &[ClassView],
    ids: &Ids,
    marks: &Seq<bool>,
) -> Result<Outline, NoMemory>
    requires few { length classes.now < 2 ^ 32 }
    requires marked { length marks.now ≡ length classes.now }
    requires named { (name : List ℕ) → id_in ids.now.places name ≡ named_in name classes.now }
    ensures { IfOk result (λ outline. outline ≡ outline_with form classes.now (λ c v. mark_at marks.now c)) }
{
    let Ok(classes) = outlined(alloc, classes, ids, marks) else {
        return Err(NoMemory);
    };
    let Ok(tasks) = task_marks(alloc, classes.as_slice()) else {
        return Err(NoMemory);
    };
    Ok(Outline {
        classes,
        form,
        tasks,
    })
}

// Which classes are marked themselves.
fn own_marks(alloc: Global, classes: &[ClassView]) -> Result<Seq<bool>, NoMemory>
    ensures { IfOk result (λ marks. marks ≡ map (λ v. v.is_marked) classes.now) }
{
    let mut marks: Seq<bool> = Seq::new(alloc);
    for class in classes {
        let Ok(()) = marks.push(class.is_marked) else {
            return Err(NoMemory);
        };
    }
    Ok(marks)
}

impl Outline {
    /// Of the classes that are declared: a superclass is there where its name is, and those are messages that are
    /// marked, themselves or by a superclass.
    pub fn new(
        alloc: Global,
        form: Form,
        classes: &[ClassView],
        ids: &Ids,
    ) -> Result<Self, NoMemory>
        requires few { length classes.now < 2 ^ 32 }
        requires named { (name : List ℕ) → id_in ids.now.places name ≡ named_in name classes.now }
        ensures { IfOk result (λ outline. outline ≡ outline_of form classes.now) }
    {
        let Ok(own) = own_marks(alloc, classes) else {
            return Err(NoMemory);
        };
        let Ok(marked) = outlined(alloc, classes, ids, &own) else {
            return Err(NoMemory);
        };
        let Ok(marks) = message_marks(alloc, marked.as_slice()) else {
            return Err(NoMemory);
        };
        outline_with(alloc, form, classes, ids, &marks)
    }
}
