//! Where each class has its methods, and the numbers of the first members.

ghost use Rattle.std.specs.Prelude.{◌≡◌, ◌<◌, ◌^◌, List, ℕ, suc, IfOk, length, slice_get, sum_by};
ghost use Rattle.kilim_link_spec.specs.World.{is_method, methods_at};
ghost use Rattle.kilim_link_world.specs.Agrees.{method_count, field_count, field_firsts_of, firsts_of, indexed};
ghost use Rattle.kilim_link_inherited.specs.Index.{positions, places_from};

use crate::keys::key_of;
use kilim_link_inherited::Index;
use kilim_link_spec::{ClassView, DeclaredMethod};
use kilim_units::{NoMemory, Seq};
use std::alloc::Global;

// Where some methods stand.
fn index_of_methods(alloc: Global, methods: &[DeclaredMethod]) -> Result<Index, NoMemory>
    requires { length methods.now < 2 ^ 32 }
    ensures { IfOk result (λ index. (name descriptor : List ℕ) → positions index.places name descriptor ≡ places_from (is_method name descriptor) 0 methods.now) }
{
    let mut index = Index::new(alloc);
    let mut i: u32 = 0;
    while (i as usize) < methods.len() {
        let method = &methods[i as usize];
        let Ok(key) = key_of(&method.name, &method.descriptor) else {
            return Err(NoMemory);
        };
        let Ok(()) = index.add(alloc, key, i) else {
            return Err(NoMemory);
        };
        i += 1;
    }
    Ok(index)
}

/// Where each class has its methods.
pub fn method_indices(alloc: Global, classes: &[ClassView]) -> Result<Seq<Index>, NoMemory>
    requires { sum_by method_count classes.now < 2 ^ 32 }
    ensures { IfOk result (λ indices. (c : ℕ) (name descriptor : List ℕ) → indexed indices c name descriptor ≡ places_from (is_method name descriptor) 0 (methods_at (slice_get classes.now c))) }
{
    let mut indices: Seq<Index> = Seq::new(alloc);
    let mut i = 0;
    while i < classes.len() {
        let Ok(index) = index_of_methods(alloc, classes[i].methods.as_slice()) else {
            return Err(NoMemory);
        };
        let Ok(()) = indices.push(index) else {
            return Err(NoMemory);
        };
        i += 1;
    }
    Ok(indices)
}

/// The number of each class's first method, and of one behind the last.
pub fn method_firsts(alloc: Global, classes: &[ClassView]) -> Result<Seq<u32>, NoMemory>
    requires { sum_by method_count classes.now < 2 ^ 32 }
    ensures { IfOk result (λ firsts. firsts ≡ firsts_of method_count classes.now) }
{
    let mut firsts: Seq<u32> = Seq::new(alloc);
    let mut total: u32 = 0;
    let mut i = 0;
    while i < classes.len() {
        let Ok(()) = firsts.push(total) else {
            return Err(NoMemory);
        };
        total += classes[i].methods.len() as u32;
        i += 1;
    }
    let Ok(()) = firsts.push(total) else {
        return Err(NoMemory);
    };
    Ok(firsts)
}

/// The number of each class's first field, and of one behind the last.
pub fn field_firsts(alloc: Global, classes: &[ClassView]) -> Result<Seq<u32>, NoMemory>
    requires { suc (sum_by field_count classes.now) < 2 ^ 32 }
    ensures { IfOk result (λ firsts. firsts ≡ field_firsts_of classes.now) }
{
    let mut firsts: Seq<u32> = Seq::new(alloc);
    let mut total: u32 = 1;
    let mut i = 0;
    while i < classes.len() {
        let Ok(()) = firsts.push(total) else {
            return Err(NoMemory);
        };
        total += classes[i].fields.len() as u32;
        i += 1;
    }
    let Ok(()) = firsts.push(total) else {
        return Err(NoMemory);
    };
    Ok(firsts)
}
