//! Which classes are tasks, and which are messages.

ghost use Rattle.std.specs.Prelude.{◌≡◌, ◌<◌, ◌^◌, IfOk, codes, length, map};
ghost use Rattle.std.specs.Str.{bytes_eq};
ghost use Rattle.kilim_program.specs.declared.class.Form.{Form};
ghost use Rattle.kilim_program.specs.BuiltIn.{class_id};
ghost use Rattle.kilim_program.specs.Names.{is_task};
ghost use Rattle.kilim_link_spec.specs.World.{is_message_by};
ghost use Rattle.kilim_link_world.specs.Agrees.{each_below};
ghost use Rattle.kilim_link_world.specs.Outlining.{bare, mark_at};

use crate::marks::inherited_marks;
use kilim_program::{Class, ClassId};
use kilim_units::{NoMemory, Seq};
use std::alloc::Global;

// Which classes have the name `kilim/Task`.
fn named_tasks(alloc: Global, classes: &[Class]) -> Result<Seq<bool>, NoMemory>
    ensures { IfOk result (λ marks. marks ≡ map (λ class. bytes_eq class.name (codes "kilim/Task")) classes.now) }
{
    let mut marks: Seq<bool> = Seq::new(alloc);
    for class in classes {
        let Ok(()) = marks.push(class.name.is_text(b"kilim/Task")) else {
            return Err(NoMemory);
        };
    }
    Ok(marks)
}

/// Which classes are `kilim/Task` or a subclass of it (own).
pub fn task_marks(alloc: Global, classes: &[Class]) -> Result<Seq<bool>, NoMemory>
    requires { length classes.now < 2 ^ 32 }
    ensures { IfOk result (λ marks. (form : Form) → marks ≡ each_below (λ k. is_task (bare classes.now form) (class_id k)) (length classes.now)) }
{
    let Ok(own) = named_tasks(alloc, classes) else {
        return Err(NoMemory);
    };
    inherited_marks(alloc, classes, &own)
}

// Which classes are messages themselves.
fn own_messages(alloc: Global, classes: &[Class]) -> Result<Seq<bool>, NoMemory>
    ensures { IfOk result (λ marks. marks ≡ map (λ class. class.message) classes.now) }
{
    let mut marks: Seq<bool> = Seq::new(alloc);
    for class in classes {
        let Ok(()) = marks.push(class.message) else {
            return Err(NoMemory);
        };
    }
    Ok(marks)
}

/// Which classes are messages, themselves or by a superclass (own).
pub fn message_marks(alloc: Global, classes: &[Class]) -> Result<Seq<bool>, NoMemory>
    requires { length classes.now < 2 ^ 32 }
    ensures { IfOk result (λ marks. (form : Form) → marks ≡ each_below (λ k. is_message_by (bare classes.now form) (class_id k)) (length classes.now)) }
{
    let Ok(own) = own_messages(alloc, classes) else {
        return Err(NoMemory);
    };
    inherited_marks(alloc, classes, &own)
}

/// The mark of a class, none past the end.
pub fn mark_in(marks: &Seq<bool>, class: ClassId) -> bool
    ensures { result ≡ mark_at marks.now class }
{
    let mark = marks.as_slice().get(class.0 as usize).copied();
    mark.unwrap_or(false)
}
