//! Objects in places. A place that is free again is taken again.

ghost use Rattle.std.specs.Prelude.{◌≡◌, ◌<◌, ◌≤◌, ◌++◌, ◌∷◌, [], length, Some, None, IfOk, IfErr, IsSome, slice_index_or, slice_set, vec_len, vec_capacity};
ghost use Rattle.std.specs.FinMap.{empty, get, insert, remove as without};
ghost use Rattle.kilim_run_state.specs.Words.{IsThere, class_at, length_at, field_at, element_at, with_field_in, with_field, with_element, changed_one, field_from, element_from};
ghost use Rattle.kilim_run_state.specs.declared.value.Object.{Object};
ghost use Rattle.kilim_run_state.specs.Shapes.{field_in};
ghost use Rattle.kilim_run_state.specs.Places.{IsArena, IsPlaceOf};

use crate::Object;
use kilim_program::{FieldId, Ty, Value};
use kilim_units::Seq;
use std::alloc::Global;
use std::marker::Model;
use std::mem::replace;

/// Objects by their places. Contracts see a finite map.
#[derive(Drop)]
pub struct Heap {
    places: Vec<Option<Object>>,
    free: Vec<u32>,
}

impl Model for Heap {
    ghost use Rattle.kilim_run_state.specs.Machine.{Objects};
    ghost use Rattle.kilim_run_state.specs.Places.{objects_from, IsArena};
    ghost use Rattle.std.specs.Prelude.{vec_capacity};
    ghost use Rattle.std.specs.Coded.{coded_ℕ};
    ghost use Rattle.std.specs.FinMap.{code};
    ghost use Rattle.kilim_run_state.specs.contracts.value.Object as object;

    ghost Value = { Objects };

    ghost coded = { code coded_ℕ object.the_row.coded };

    ghost view = { λ h. objects_from 0 h.places.items };

    ghost invariant = { λ h. IsArena h.places.items h.free.items (vec_capacity h.free) };
}

impl Heap {
    /// The heap without objects. Takes no memory.
    pub fn new(alloc: Global) -> Heap
        ensures { result ≡ empty }
    {
        Heap {
            places: Vec::new(alloc),
            free: Vec::new(alloc),
        }
    }

    /// The object at a place.
    pub fn object(&self, at: u32) -> &Object
        requires { IsThere self.now at }
        ensures { get self.now at ≡ Some result.now }
    {
        match &self.places[at as usize] {
            Some(object) => object,
            None => unreachable!(),
        }
    }

    /// The class of an object, or the type of an array.
    pub fn class(&self, at: u32) -> Ty
        requires { IsThere self.now at }
        ensures { class_at self.now at ≡ Some result }
    {
        self.object(at).class
    }

    /// The value of a field.
    pub fn field(&self, at: u32, field: FieldId) -> &Value
        requires there { IsThere self.now at }
        requires field { IsSome (field_at self.now at field) }
        ensures { field_at self.now at field ≡ Some result.now }
    {
        let object = self.object(at);
        field_of(object.fields.as_slice(), field)
    }

    /// The number of elements of an array.
    pub fn length(&self, at: u32) -> usize
        requires { IsThere self.now at }
        ensures { length_at self.now at ≡ Some result }
    {
        self.object(at).elements.len()
    }

    /// An element of an array.
    pub fn element(&self, at: u32, index: usize) -> &Value
        requires there { IsThere self.now at }
        requires element { IsSome (element_at self.now at index) }
        ensures { element_at self.now at index ≡ Some result.now }
    {
        self.object(at).elements.get(index)
    }

    /// Another value in a field. Takes no memory.
    pub fn set_field(&mut self, at: u32, field: FieldId, value: Value)
        requires there { IsThere self.old at }
        requires field { IsSome (field_at self.old at field) }
        ensures { self.new ≡ with_field self.old at field value }
    {
        set_field_at(&mut self.places, at as usize, field, value);
    }

    /// Another value as an element. Takes no memory.
    pub fn set_element(&mut self, at: u32, index: usize, value: Value)
        requires there { IsThere self.old at }
        requires element { IsSome (element_at self.old at index) }
        ensures { self.new ≡ with_element self.old at index value }
    {
        set_element_at(&mut self.places, at as usize, index, value);
    }

    /// Adds an object at a free place. For want of memory the object comes back.
    pub fn add(&mut self, object: Object) -> Result<u32, Object>
        ensures ok { IfOk result (λ at. (get self.old at ≡ None) × (self.new ≡ insert self.old at object)) }
        ensures err { IfErr result (λ back. (back ≡ object) × (self.new ≡ self.old)) }
    {
        match self.free.pop() {
            Some(at) => {
                fill(&mut self.places, at as usize, object);
                Ok(at)
            }
            None => add_at_end(&mut self.places, &mut self.free, object),
        }
    }

    /// Takes an object out. Takes no memory.
    pub fn remove(&mut self, at: u32) -> Object
        requires { IsThere self.old at }
        ensures object { get self.old at ≡ Some result }
        ensures left { self.new ≡ without self.old at }
    {
        let object = exchange(&mut self.places, at as usize, None);
        self.free.push_reserved(at);
        object
    }

    /// Puts an object in the place of another one. Takes no memory.
    pub fn replace(&mut self, at: u32, object: Object) -> Object
        requires { IsThere self.old at }
        ensures object { get self.old at ≡ Some result }
        ensures left { self.new ≡ insert self.old at object }
    {
        exchange(&mut self.places, at as usize, Some(object))
    }
}

fn fill(places: &mut Vec<Option<Object>>, at: usize, object: Object)
    requires { at < length places.old.items }
    ensures { places.new.items ≡ slice_set places.old.items at (Some object) }
{
    places[at] = Some(object);
}

fn exchange(places: &mut Vec<Option<Object>>, at: usize, object: Option<Object>) -> Object
    requires { IsSome (slice_index_or places.old.items at None) }
    ensures object { slice_index_or places.old.items at None ≡ Some result }
    ensures places { places.new.items ≡ slice_set places.old.items at object }
{
    match replace(&mut places[at], object) {
        Some(old) => old,
        None => unreachable!(),
    }
}

// A new place at the end, with room in the list of free places for all.
fn add_at_end(
    places: &mut Vec<Option<Object>>,
    free: &mut Vec<u32>,
    object: Object,
) -> Result<u32, Object>
    requires none { length free.old.items ≡ 0 }
    requires arena { IsArena places.old.items free.old.items (vec_capacity free.old) }
    ensures arena { IsArena places.new.items free.new.items (vec_capacity free.new) }
    ensures ok { IfOk result (λ at. (at ≡ length places.old.items) × (places.new.items ≡ places.old.items ++ Some object ∷ [])) }
    ensures err { IfErr result (λ back. (back ≡ object) × (places.new.items ≡ places.old.items)) }
{
    let at = places.len();
    if at >= 4_294_967_295 {
        return Err(object);
    }
    if free.reserve(at + 1).is_err() {
        return Err(object);
    }
    if places.reserve(1).is_err() {
        return Err(object);
    }
    places.push_reserved(Some(object));
    Ok(at as u32)
}

fn field_of(fields: &[(FieldId, Value)], field: FieldId) -> &Value
    requires { IsSome (field_in fields.now field) }
    ensures { field_in fields.now field ≡ Some result.now }
{
    let at = place_of(fields, field);
    &fields[at].1
}

// The place of the first field of that name.
fn place_of(fields: &[(FieldId, Value)], field: FieldId) -> usize
    requires { IsSome (field_in fields.now field) }
    ensures { IsPlaceOf fields.now field result }
{
    for i in 0..fields.len() {
        if fields[i].0.0 == field.0 {
            return i;
        }
    }
    unreachable!()
}

fn set_field_in(fields: &mut Seq<(FieldId, Value)>, field: FieldId, value: Value)
    requires { IsSome (field_in fields.old field) }
    ensures { fields.new ≡ with_field_in fields.old field value }
{
    let at = place_of(fields.as_slice(), field);
    set_at(&mut fields.items, at, value);
}

// Another value in a field of the object at a place.
#[inline(always)]
fn set_field_at(places: &mut Vec<Option<Object>>, at: usize, field: FieldId, value: Value)
    requires { IsSome (field_from (slice_index_or places.old.items at None) field) }
    ensures { places.new.items ≡ slice_set places.old.items at (changed_one (λ (o : Object). record o { fields = with_field_in o.fields field value }) (slice_index_or places.old.items at None)) }
{
    set_field_of(&mut places[at], field, value);
}

#[inline(always)]
fn set_field_of(place: &mut Option<Object>, field: FieldId, value: Value)
    requires { IsSome (field_from place.old field) }
    ensures { place.new ≡ changed_one (λ (o : Object). record o { fields = with_field_in o.fields field value }) place.old }
{
    match place {
        Some(object) => set_field_in(&mut object.fields, field, value),
        None => unreachable!(),
    }
}

// Another value as an element of the object at a place.
#[inline(always)]
fn set_element_at(places: &mut Vec<Option<Object>>, at: usize, index: usize, value: Value)
    requires { IsSome (element_from (slice_index_or places.old.items at None) index) }
    ensures { places.new.items ≡ slice_set places.old.items at (changed_one (λ (o : Object). record o { elements = slice_set o.elements index value }) (slice_index_or places.old.items at None)) }
{
    set_element_of(&mut places[at], index, value);
}

#[inline(always)]
fn set_element_of(place: &mut Option<Object>, index: usize, value: Value)
    requires { IsSome (element_from place.old index) }
    ensures { place.new ≡ changed_one (λ (o : Object). record o { elements = slice_set o.elements index value }) place.old }
{
    match place {
        Some(object) => set_element_in(&mut object.elements, index, value),
        None => unreachable!(),
    }
}

fn set_at(fields: &mut Vec<(FieldId, Value)>, at: usize, value: Value)
    requires { at < length fields.old.items }
    ensures { (d : FieldId × Value) → fields.new.items ≡ slice_set fields.old.items at ((slice_index_or fields.old.items at d).0, value) }
{
    let field = &mut fields[at];
    field.1 = value;
}

fn set_element_in(elements: &mut Seq<Value>, index: usize, value: Value)
    requires { index < length elements.old }
    ensures { elements.new ≡ slice_set elements.old index value }
{
    elements.items[index] = value;
}
