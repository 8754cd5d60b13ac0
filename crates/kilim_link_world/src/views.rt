//! The classes as they are declared.

ghost use Rattle.std.specs.Prelude.{◌≡◌, ◌++◌, IfOk, map};
ghost use Rattle.kilim_program.specs.BuiltIn.{built_in_classes_in};
ghost use Rattle.kilim_link_spec.specs.World.{built_ins, view_of_built_in, view_of_file};

use kilim_class_file::ClassFile;
use kilim_link_spec::ClassView;
use kilim_link_views::{built_in_views, view_of_file};
use kilim_program::Form;
use kilim_units::{NoMemory, Seq};
use std::alloc::Global;

// The classes of files, in their order.
fn file_views(alloc: Global, files: &[ClassFile]) -> Result<Seq<ClassView>, NoMemory>
    ensures { IfOk result (λ views. views ≡ map view_of_file files.now) }
{
    let mut views: Seq<ClassView> = Seq::new(alloc);
    for file in files {
        let Ok(view) = view_of_file(alloc, file) else {
            return Err(NoMemory);
        };
        let Ok(()) = views.push(view) else {
            return Err(NoMemory);
        };
    }
    Ok(views)
}

/// The classes of files in their order, and behind them the built-in ones of a form.
pub fn views_of(alloc: Global, files: &[ClassFile], form: Form) -> Result<Seq<ClassView>, NoMemory>
    ensures { IfOk result (λ views. views ≡ map view_of_file files.now ++ map (view_of_built_in (built_ins form)) (built_in_classes_in form 0 0)) }
{
    let Ok(views) = file_views(alloc, files) else {
        return Err(NoMemory);
    };
    let Ok(more) = built_in_views(alloc, form) else {
        return Err(NoMemory);
    };
    let mut views = views.into_vec();
    let mut more = more.into_vec();
    let Ok(()) = views.append(&mut more) else {
        return Err(NoMemory);
    };
    Ok(Seq::from_vec(views))
}
