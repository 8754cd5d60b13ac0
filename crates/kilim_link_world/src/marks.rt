//! Marks that classes inherit.

ghost use Rattle.std.specs.Prelude.{◌≡◌, ◌<◌, ◌≤◌, ◌^◌, IfOk, is_some, length, map};
ghost use Rattle.std.specs.List.{list_any};
ghost use Rattle.kilim_program.specs.BuiltIn.{class_id};
ghost use Rattle.kilim_link_inherited.specs.Inherited.{line_in};
ghost use Rattle.kilim_link_inherited.specs.Roots.{inherits, IsRight};
ghost use Rattle.kilim_link_world.specs.Agrees.{each_below};
ghost use Rattle.kilim_link_world.specs.Outlining.{mark_at};
ghost use Rattle.kilim_link_world.specs.Superclasses.{mark_entries};

use crate::lines::superclasses_of;
use kilim_link_inherited::{Entry, Inherited};
use kilim_program::{Class, ClassId};
use kilim_units::{NoMemory, Seq};
use std::alloc::Global;

// What a class says that is marked, or isn't: marks have one key.
fn mark_entries(alloc: Global, mark: bool) -> Result<Seq<Entry>, NoMemory>
    ensures { IfOk result (λ entries. entries ≡ mark_entries mark) }
{
    let mut entries: Seq<Entry> = Seq::new(alloc);
    if mark {
        let value = Some(0);
        let Ok(()) = entries.push(Entry { key: 0, value }) else {
            return Err(NoMemory);
        };
    }
    Ok(entries)
}

// The same of each class.
fn all_mark_entries(alloc: Global, own: &[bool]) -> Result<Seq<Seq<Entry>>, NoMemory>
    ensures { IfOk result (λ entries. entries ≡ map mark_entries own.now) }
{
    let mut entries: Seq<Seq<Entry>> = Seq::new(alloc);
    for mark in own {
        let Ok(said) = mark_entries(alloc, *mark) else {
            return Err(NoMemory);
        };
        let Ok(()) = entries.push(said) else {
            return Err(NoMemory);
        };
    }
    Ok(entries)
}

// Which of so many classes inherit a mark.
fn marks_of(alloc: Global, inherited: &Inherited, count: usize) -> Result<Seq<bool>, NoMemory>
    requires { count < 2 ^ 32 }
    ensures { IfOk result (λ marks. marks ≡ each_below (λ k. is_some (inherits inherited.now (class_id k) 0)) count) }
{
    let mut marks: Seq<bool> = Seq::new(alloc);
    let mut i: u32 = 0;
    while (i as usize) < count {
        let Ok(()) = marks.push(inherited.find(ClassId(i), 0).is_some()) else {
            return Err(NoMemory);
        };
        i += 1;
    }
    Ok(marks)
}

// Where classes inherit marks, by the superclass of each class and by which are marked themselves.
fn marks_above(alloc: Global, ups: &[Option<ClassId>], own: &[bool]) -> Result<Inherited, NoMemory>
    requires { length own.now ≤ length ups.now }
    ensures { IfOk result (λ it. IsRight ups.now (map mark_entries own.now) it) }
{
    let Ok(entries) = all_mark_entries(alloc, own) else {
        return Err(NoMemory);
    };
    Inherited::new(alloc, ups, entries.as_slice())
}

/// Which classes are marked themselves or by a superclass, by which are marked themselves.
pub fn inherited_marks(
    alloc: Global,
    classes: &[Class],
    own: &Seq<bool>,
) -> Result<Seq<bool>, NoMemory>
    requires few { length classes.now < 2 ^ 32 }
    requires one_each { length own.now ≡ length classes.now }
    ensures { IfOk result (λ marks. marks ≡ each_below (λ k. list_any (mark_at own.now) (line_in (map (λ class. class.superclass) classes.now) (class_id k))) (length classes.now)) }
{
    let Ok(ups) = superclasses_of(alloc, classes) else {
        return Err(NoMemory);
    };
    let Ok(inherited) = marks_above(alloc, ups.as_slice(), own.as_slice()) else {
        return Err(NoMemory);
    };
    marks_of(alloc, &inherited, classes.len())
}
