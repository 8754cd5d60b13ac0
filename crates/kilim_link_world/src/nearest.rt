//! What each class says of its members, their numbers, and the numbers of the nearest ones.

ghost use Rattle.std.specs.Prelude.{◌≡◌, ◌+◌, ◌<◌, ◌≤◌, ◌^◌, List, ℕ, suc, IfOk, length, option_map, slice_get, sum_by, take};
ghost use Rattle.std.specs.List.{position_from};
ghost use Rattle.kilim_program.specs.declared.names.ClassId as ids;
ghost use Rattle.kilim_program.specs.declared.class.Form.{Form};
ghost use Rattle.kilim_program.specs.BuiltIn.{method_id};
ghost use Rattle.kilim_program.specs.Program.{Program};
ghost use Rattle.kilim_link_spec.specs.World.{is_method, is_field, methods_at, fields_at, field_id, find_method, find_field};
ghost use Rattle.kilim_link_inherited.specs.Known.{known};
ghost use Rattle.kilim_link_inherited.specs.Nearest.{said_by, says};
ghost use Rattle.kilim_link_world.specs.Agrees.{method_count, field_count, fields_before, placed};
ghost use Rattle.kilim_link_world.specs.Superclasses.{AreSuperclasses};

use crate::keys::key_of;
use kilim_link_inherited::{Nearest, Said};
use kilim_link_spec::{ClassView, DeclaredField, DeclaredMethod};
use kilim_program::ClassId;
use kilim_units::{NoMemory, Seq};
use std::alloc::Global;

// What a class says of its methods, the first of which has this number.
fn methods_said(
    alloc: Global,
    methods: &[DeclaredMethod],
    first: u32,
) -> Result<Seq<Said>, NoMemory>
    requires { first + length methods.now < 2 ^ 32 }
    ensures { IfOk result (λ said. (name descriptor : List ℕ) → said_by said name descriptor ≡ placed first (position_from (is_method name descriptor) 0 methods.now)) }
{
    let mut said: Seq<Said> = Seq::new(alloc);
    let mut i: u32 = 0;
    while (i as usize) < methods.len() {
        let method = &methods[i as usize];
        let Ok(signature) = key_of(&method.name, &method.descriptor) else {
            return Err(NoMemory);
        };
        let value = Some(first + i);
        let Ok(()) = said.push(Said { signature, value }) else {
            return Err(NoMemory);
        };
        i += 1;
    }
    Ok(said)
}

// The same of its fields.
fn fields_said(alloc: Global, fields: &[DeclaredField], first: u32) -> Result<Seq<Said>, NoMemory>
    requires { first + length fields.now < 2 ^ 32 }
    ensures { IfOk result (λ said. (name descriptor : List ℕ) → said_by said name descriptor ≡ placed first (position_from (is_field name descriptor) 0 fields.now)) }
{
    let mut said: Seq<Said> = Seq::new(alloc);
    let mut i: u32 = 0;
    while (i as usize) < fields.len() {
        let field = &fields[i as usize];
        let Ok(signature) = key_of(&field.name, &field.descriptor) else {
            return Err(NoMemory);
        };
        let value = Some(first + i);
        let Ok(()) = said.push(Said { signature, value }) else {
            return Err(NoMemory);
        };
        i += 1;
    }
    Ok(said)
}

// What each class says of its methods: their numbers.
fn all_methods_said(alloc: Global, classes: &[ClassView]) -> Result<Seq<Seq<Said>>, NoMemory>
    requires { sum_by method_count classes.now < 2 ^ 32 }
    ensures counted { IfOk result (λ said. length said ≡ length classes.now) }
    ensures said { IfOk result (λ said. (c : ids.ClassId) (name descriptor : List ℕ) → says said name descriptor c ≡ placed (sum_by method_count (take c.0 classes.now)) (position_from (is_method name descriptor) 0 (methods_at (slice_get classes.now c.0)))) }
{
    let mut said: Seq<Seq<Said>> = Seq::new(alloc);
    let mut total: u32 = 0;
    let mut i = 0;
    while i < classes.len() {
        let methods = classes[i].methods.as_slice();
        let Ok(own) = methods_said(alloc, methods, total) else {
            return Err(NoMemory);
        };
        let Ok(()) = said.push(own) else {
            return Err(NoMemory);
        };
        total += methods.len() as u32;
        i += 1;
    }
    Ok(said)
}

// What each class says of its fields: their numbers.
fn all_fields_said(alloc: Global, classes: &[ClassView]) -> Result<Seq<Seq<Said>>, NoMemory>
    requires { suc (sum_by field_count classes.now) < 2 ^ 32 }
    ensures counted { IfOk result (λ said. length said ≡ length classes.now) }
    ensures said { IfOk result (λ said. (c : ids.ClassId) (name descriptor : List ℕ) → says said name descriptor c ≡ placed (fields_before classes.now c.0) (position_from (is_field name descriptor) 0 (fields_at (slice_get classes.now c.0)))) }
{
    let mut said: Seq<Seq<Said>> = Seq::new(alloc);
    let mut total: u32 = 1;
    let mut i = 0;
    while i < classes.len() {
        let fields = classes[i].fields.as_slice();
        let Ok(own) = fields_said(alloc, fields, total) else {
            return Err(NoMemory);
        };
        let Ok(()) = said.push(own) else {
            return Err(NoMemory);
        };
        total += fields.len() as u32;
        i += 1;
    }
    Ok(said)
}

/// The numbers of the nearest methods, by the superclass of each class.
pub fn nearest_methods(
    alloc: Global,
    classes: &[ClassView],
    ups: &[Option<ClassId>],
) -> Result<Nearest, NoMemory>
    requires one_each { length ups.now ≡ length classes.now }
    requires fit { sum_by method_count classes.now < 2 ^ 32 }
    ensures { IfOk result (λ it. (form : Form) (outline : Program) → AreSuperclasses outline ups.now → (c : ids.ClassId) (name descriptor : List ℕ) → option_map method_id (known it c name descriptor) ≡ find_method (record { form = form; classes = classes.now; outline = outline }) c name descriptor) }
{
    let Ok(said) = all_methods_said(alloc, classes) else {
        return Err(NoMemory);
    };
    Nearest::new(alloc, ups, said.as_slice())
}

/// The numbers of the nearest fields.
pub fn nearest_fields(
    alloc: Global,
    classes: &[ClassView],
    ups: &[Option<ClassId>],
) -> Result<Nearest, NoMemory>
    requires one_each { length ups.now ≡ length classes.now }
    requires fit { suc (sum_by field_count classes.now) < 2 ^ 32 }
    ensures { IfOk result (λ it. (form : Form) (outline : Program) → AreSuperclasses outline ups.now → (c : ids.ClassId) (name descriptor : List ℕ) → option_map field_id (known it c name descriptor) ≡ find_field (record { form = form; classes = classes.now; outline = outline }) c name descriptor) }
{
    let Ok(said) = all_fields_said(alloc, classes) else {
        return Err(NoMemory);
    };
    Nearest::new(alloc, ups, said.as_slice())
}
