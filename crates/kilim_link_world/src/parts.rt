//! What a world keeps beside its classes.

ghost use Rattle.std.specs.Prelude.{◌≡◌, ◌<◌, ◌==◌, ◌^◌, List, ℕ, suc, IfOk, is_some, length, option_map, slice_get, sum_by};
ghost use Rattle.std.specs.List.{list_any};
ghost use Rattle.kilim_program.specs.declared.names.ClassId as number;
ghost use Rattle.kilim_program.specs.BuiltIn.{method_id};
ghost use Rattle.kilim_program.specs.Names.{line_of};
ghost use Rattle.kilim_program.specs.Program.{Program};
ghost use Rattle.kilim_link_inherited.specs.Index.{places_from};
ghost use Rattle.kilim_link_inherited.specs.Known.{known};
ghost use Rattle.kilim_link_inherited.specs.Roots.{inherits};
ghost use Rattle.kilim_link_spec.specs.World.{outline_of, is_method, methods_at, field_id, find_method, find_field};
ghost use Rattle.kilim_link_world.specs.Agrees.{Agrees, method_count, field_count, field_firsts_of, firsts_of, indexed};
ghost use Rattle.kilim_link_world.specs.Ids.{id_in, named_in};
ghost use Rattle.kilim_link_world.specs.Superclasses.{AreSuperclasses};

use crate::ids::Ids;
use crate::lineages::lineages_of;
use crate::members::{field_firsts, method_firsts, method_indices};
use crate::nearest::{nearest_fields, nearest_methods};
use crate::outline::Outline;
use kilim_link_inherited::{Index, Inherited, Nearest};
use kilim_link_spec::ClassView;
use kilim_program::{ClassId, Form};
use kilim_units::{NoMemory, Seq};
use std::alloc::Global;

/// Classes by their names, and their superclasses.
#[derive(Drop)]
pub struct Lines {
    pub outline: Outline,
    pub ids: Ids,
    /// The superclass of each class.
    pub superclasses: Seq<Option<ClassId>>,
    /// Which classes stand in the lines of others.
    pub lineages: Inherited,
}

/// Members of classes.
#[derive(Drop)]
pub struct Members {
    /// Where each class has its methods.
    pub methods: Seq<Index>,
    /// The number of each class's first method, and of one behind the last.
    pub first_methods: Seq<u32>,
    /// The same of fields.
    pub first_fields: Seq<u32>,
}

/// The numbers of the nearest members.
#[derive(Drop)]
pub struct NearestMembers {
    pub methods: Nearest,
    pub fields: Nearest,
}

/// Members of classes, and the nearest ones.
#[derive(Drop)]
pub struct AllMembers {
    pub own: Members,
    pub nearest: NearestMembers,
}

/// Superclasses, names, and places and numbers of members.
#[derive(Drop)]
pub struct Parts {
    pub lines: Lines,
    pub members: Members,
    pub nearest: NearestMembers,
}

// The lines of the classes that are declared.
fn lines_of(alloc: Global, form: Form, classes: &[ClassView]) -> Result<Lines, NoMemory>
    requires { length classes.now < 2 ^ 32 }
    ensures outlined { IfOk result (λ l. l.outline ≡ outline_of form classes.now) }
    ensures named { IfOk result (λ l. (name : List ℕ) → id_in l.ids.places name ≡ named_in name classes.now) }
    ensures superclasses { IfOk result (λ l. AreSuperclasses l.outline l.superclasses) }
    ensures lineages { IfOk result (λ l. (c : number.ClassId) (k : ℕ) → k < length classes.now → is_some (inherits l.lineages c k) ≡ list_any (λ d. d.0 == k) (line_of l.outline c)) }
{
    let Ok(ids) = Ids::new(alloc, classes) else {
        return Err(NoMemory);
    };
    let Ok(outline) = Outline::new(alloc, form, classes, &ids) else {
        return Err(NoMemory);
    };
    let Ok(superclasses) = outline.superclasses(alloc) else {
        return Err(NoMemory);
    };
    match lineages_of(alloc, superclasses.as_slice()) {
        Ok(lineages) => Ok(Lines {
            outline,
            ids,
            superclasses,
            lineages,
        }),
        Err(fault) => {
            drop(superclasses);
            drop(outline);
            drop(ids);
            Err(fault)
        }
    }
}

// The members of the classes that are declared.
fn members_of(alloc: Global, classes: &[ClassView]) -> Result<Members, NoMemory>
    requires methods_fit { sum_by method_count classes.now < 2 ^ 32 }
    requires fields_fit { suc (sum_by field_count classes.now) < 2 ^ 32 }
    ensures methods { IfOk result (λ m. (c : ℕ) (name descriptor : List ℕ) → indexed m.methods c name descriptor ≡ places_from (is_method name descriptor) 0 (methods_at (slice_get classes.now c))) }
    ensures first_methods { IfOk result (λ m. m.first_methods ≡ firsts_of method_count classes.now) }
    ensures first_fields { IfOk result (λ m. m.first_fields ≡ field_firsts_of classes.now) }
{
    let Ok(methods) = method_indices(alloc, classes) else {
        return Err(NoMemory);
    };
    let Ok(first_methods) = method_firsts(alloc, classes) else {
        return Err(NoMemory);
    };
    let Ok(first_fields) = field_firsts(alloc, classes) else {
        return Err(NoMemory);
    };
    Ok(Members {
        methods,
        first_methods,
        first_fields,
    })
}

// The nearest members, by the superclass of each class.
fn nearest_of(
    alloc: Global,
    classes: &[ClassView],
    ups: &[Option<ClassId>],
) -> Result<NearestMembers, NoMemory>
    requires one_each { length ups.now ≡ length classes.now }
    requires methods_fit { sum_by method_count classes.now < 2 ^ 32 }
    requires fields_fit { suc (sum_by field_count classes.now) < 2 ^ 32 }
    ensures methods { IfOk result (λ n. (form : Form) (outline : Program) → AreSuperclasses outline ups.now → (c : number.ClassId) (name descriptor : List ℕ) → option_map method_id (known n.methods c name descriptor) ≡ find_method (record { form = form; classes = classes.now; outline = outline }) c name descriptor) }
    ensures fields { IfOk result (λ n. (form : Form) (outline : Program) → AreSuperclasses outline ups.now → (c : number.ClassId) (name descriptor : List ℕ) → option_map field_id (known n.fields c name descriptor) ≡ find_field (record { form = form; classes = classes.now; outline = outline }) c name descriptor) }
{
    let Ok(methods) = nearest_methods(alloc, classes, ups) else {
        return Err(NoMemory);
    };
    match nearest_fields(alloc, classes, ups) {
        Ok(fields) => Ok(NearestMembers { methods, fields }),
        Err(fault) => {
            drop(methods);
            Err(fault)
        }
    }
}

// The members of the classes that are declared and the nearest ones, by the superclass of each class.
fn all_members_of(
    alloc: Global,
    classes: &[ClassView],
    ups: &[Option<ClassId>],
) -> Result<AllMembers, NoMemory>
    requires one_each { length ups.now ≡ length classes.now }
    requires methods_fit { sum_by method_count classes.now < 2 ^ 32 }
    requires fields_fit { suc (sum_by field_count classes.now) < 2 ^ 32 }
    ensures methods { IfOk result (λ m. (c : ℕ) (name descriptor : List ℕ) → indexed m.own.methods c name descriptor ≡ places_from (is_method name descriptor) 0 (methods_at (slice_get classes.now c))) }
    ensures first_methods { IfOk result (λ m. m.own.first_methods ≡ firsts_of method_count classes.now) }
    ensures first_fields { IfOk result (λ m. m.own.first_fields ≡ field_firsts_of classes.now) }
    ensures nearest_methods { IfOk result (λ m. (form : Form) (outline : Program) → AreSuperclasses outline ups.now → (c : number.ClassId) (name descriptor : List ℕ) → option_map method_id (known m.nearest.methods c name descriptor) ≡ find_method (record { form = form; classes = classes.now; outline = outline }) c name descriptor) }
    ensures nearest_fields { IfOk result (λ m. (form : Form) (outline : Program) → AreSuperclasses outline ups.now → (c : number.ClassId) (name descriptor : List ℕ) → option_map field_id (known m.nearest.fields c name descriptor) ≡ find_field (record { form = form; classes = classes.now; outline = outline }) c name descriptor) }
{
    let Ok(own) = members_of(alloc, classes) else {
        return Err(NoMemory);
    };
    match nearest_of(alloc, classes, ups) {
        Ok(nearest) => Ok(AllMembers { own, nearest }),
        Err(fault) => {
            drop(own);
            Err(fault)
        }
    }
}

/// Of the classes that are declared.
pub fn parts_of(alloc: Global, form: Form, classes: &[ClassView]) -> Result<Parts, NoMemory>
    requires few { length classes.now < 2 ^ 32 }
    requires methods_fit { sum_by method_count classes.now < 2 ^ 32 }
    requires fields_fit { suc (sum_by field_count classes.now) < 2 ^ 32 }
    ensures { IfOk result (λ p. Agrees form classes.now p.lines.outline p.lines.ids p.lines.superclasses p.lines.lineages p.members.methods p.members.first_methods p.members.first_fields p.nearest.methods p.nearest.fields) }
{
    let Ok(lines) = lines_of(alloc, form, classes) else {
        return Err(NoMemory);
    };
    match all_members_of(alloc, classes, lines.superclasses.as_slice()) {
        Ok(members) => Ok(Parts {
            lines,
            members: members.own,
            nearest: members.nearest,
        }),
        Err(fault) => {
            drop(lines);
            Err(fault)
        }
    }
}
