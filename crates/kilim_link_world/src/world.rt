//! The classes of some files and the built-in ones.

ghost use Rattle.std.specs.Prelude.{◌≡◌, ◌<◌, ◌≤◌, ◌^◌, suc, IfOk, length, option_copied, sum_by};
ghost use Rattle.std.specs.List.{AllByRecursion};
ghost use Rattle.kilim_class_file.specs.Text.{ClassFits};
ghost use Rattle.kilim_link_spec.specs.Faults.{is_circular};
ghost use Rattle.kilim_link_spec.specs.World.{world_of, world_with, class_of, view_at, declared_methods, first_method, first_field, is_method, find_method, find_field};
ghost use Rattle.kilim_program.specs.Keeps.{ancestors_of};
ghost use Rattle.kilim_link_world.specs.Agrees.{method_count, field_count};
ghost use Rattle.kilim_link_world.specs.Superclasses.{AreSuperclasses};
ghost use Rattle.kilim_link_inherited.specs.Index.{places_from};

use crate::outline::Outline;
use crate::parts::{Parts, parts_of};
use crate::search::{field_of, first_in, method_of, places_in};
use crate::views::views_of;
use kilim_class_file::ClassFile;
use kilim_link_inherited::Signature;
use kilim_link_spec::ClassView;
use kilim_program::{ClassId, FieldId, Form, MethodId};
use kilim_units::{NoMemory, Seq, Units};
use std::alloc::Global;
use std::marker::Model;

/// The classes of some files in their order, and behind them the built-in ones of a form, with their names and members
/// in ordered maps. A class is its place in this list. Contracts see the form, the classes, and the classes without
/// their members.
#[derive(Drop)]
pub struct World {
    form: Form,
    classes: Seq<ClassView>,
    // Superclasses, names, and places and numbers of members.
    parts: Parts,
}

impl Model for World {
    ghost use Rattle.kilim_link_spec.specs.World as whole;

    ghost Value = { whole.World };

    ghost use Rattle.kilim_link_world.specs.Agrees.{Agrees};

    ghost view = { λ w. record { form = w.form; classes = w.classes; outline = w.parts.lines.outline } };

    ghost invariant = { λ w. Agrees w.form w.classes w.parts.lines.outline w.parts.lines.ids w.parts.lines.superclasses w.parts.lines.lineages w.parts.members.methods w.parts.members.first_methods w.parts.members.first_fields w.parts.nearest.methods w.parts.nearest.fields };
}

impl World {
    /// Of some files, in a form.
    pub fn new(alloc: Global, files: &[ClassFile], form: Form) -> Result<World, NoMemory>
        requires few { length files.now ≤ 1000 }
        requires sized { AllByRecursion ClassFits files.now }
        ensures { IfOk result (λ w. w ≡ world_of files.now form) }
    {
        let Ok(classes) = views_of(alloc, files, form) else {
            return Err(NoMemory);
        };
        World::of_views(alloc, form, classes)
    }

    /// Of classes as they are declared, in a form.
    pub fn of_views(alloc: Global, form: Form, classes: Seq<ClassView>) -> Result<World, NoMemory>
        requires few { length classes < 2 ^ 32 }
        requires methods_fit { sum_by method_count classes < 2 ^ 32 }
        requires fields_fit { suc (sum_by field_count classes) < 2 ^ 32 }
        ensures { IfOk result (λ w. w ≡ world_with form classes) }
    {
        let Ok(parts) = parts_of(alloc, form, classes.as_slice()) else {
            return Err(NoMemory);
        };
        Ok(World {
            form,
            classes,
            parts,
        })
    }

    /// The form.
    pub fn form(&self) -> Form
        ensures { result ≡ self.now.form }
    {
        self.form
    }

    /// The classes without their members.
    pub fn outline(&self) -> &Outline
        ensures { result.now ≡ self.now.outline }
    {
        &self.parts.lines.outline
    }

    /// The class of a name, the first one where there are several (JVMS 5.3).
    pub fn class_of(&self, name: &Units) -> Option<ClassId>
        ensures { result ≡ class_of self.now name.now }
    {
        self.parts.lines.ids.class(name)
    }

    /// A class as it is declared, none past the end.
    pub fn view_at(&self, class: ClassId) -> Option<&ClassView>
        ensures { option_copied result ≡ view_at self.now class }
    {
        self.classes.as_slice().get(class.0 as usize)
    }

    /// The classes as they are declared.
    pub fn classes(&self) -> &[ClassView]
        ensures { result.now ≡ self.now.classes }
    {
        self.classes.as_slice()
    }

    /// The superclass of each class.
    pub fn superclasses(&self) -> &[Option<ClassId>]
        ensures are { AreSuperclasses self.now.outline result.now }
        ensures counted { length result.now ≡ length self.now.classes }
    {
        self.parts.lines.superclasses.as_slice()
    }

    /// The superclass of a class, its superclass, and so on up, at most as many as there are classes: one that is its
    /// own ancestor is met again. None past the end.
    pub fn ancestors(&self, alloc: Global, class: ClassId) -> Result<Seq<ClassId>, NoMemory>
        ensures { IfOk result (λ classes. classes ≡ ancestors_of self.now.outline class) }
    {
        match self.outline().superclass_of(class) {
            Some(up) => self.outline().line(alloc, up),
            None => Ok(Seq::new(alloc)),
        }
    }

    /// Whether a class is its own ancestor (JVMS 5.3.5).
    #[tactic(auto, unfolding(kilim_link_spec::specs::Faults::is_circular))]
    pub fn is_circular(&self, class: ClassId) -> bool
        ensures { result ≡ is_circular self.now class }
    {
        match self.outline().superclass_of(class) {
            Some(up) => self.parts.lines.lineages.find(up, class.0).is_some(),
            None => false,
        }
    }

    /// The number of a class's first method, where methods are numbered class by class in declared order; past the end
    /// the number of all methods.
    pub fn first_method(&self, class: ClassId) -> u32
        ensures { result ≡ first_method self.now class }
    {
        first_in(&self.parts.members.first_methods, class)
    }

    /// The number of a class's first field, where fields are numbered class by class in declared order; past the end
    /// the number of all fields.
    pub fn first_field(&self, class: ClassId) -> u32
        ensures { result ≡ first_field self.now class }
    {
        first_in(&self.parts.members.first_fields, class)
    }

    /// The places of a method among those that a class declares, in order; none past the end.
    pub fn methods_named(&self, class: ClassId, signature: &Signature) -> &[u32]
        ensures { result.now ≡ places_from (is_method signature.now.name signature.now.descriptor) 0 (declared_methods self.now class) }
    {
        places_in(&self.parts.members.methods, class, signature)
    }

    /// The method of that name and descriptor of a class, or of its nearest ancestor that has one (JVMS 5.4.3.3, own);
    /// in one class the first; none past the end.
    pub fn find_method(&self, class: ClassId, signature: &Signature) -> Option<MethodId>
        ensures { result ≡ find_method self.now class signature.now.name signature.now.descriptor }
    {
        method_of(self.parts.nearest.methods.find(class, signature))
    }

    /// The field of that name and descriptor of a class, or of its nearest ancestor that has one (JVMS 5.4.3.2, own);
    /// in one class the first; none past the end.
    pub fn find_field(&self, class: ClassId, signature: &Signature) -> Option<FieldId>
        ensures { result ≡ find_field self.now class signature.now.name signature.now.descriptor }
    {
        field_of(self.parts.nearest.fields.find(class, signature))
    }
}
