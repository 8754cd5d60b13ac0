//! Names that are declared twice.

ghost use Rattle.std.specs.Prelude.{◌≡◌, ◌<◌, ◌^◌, ◌++◌, ◌&&◌, ◌||◌, IfOk, OnOk, [], List, ℕ, length, take, option_copied};
ghost use Rattle.std.specs.List.{list_any};
ghost use Rattle.std.specs.Str.{bytes_eq};
ghost use Rattle.kilim_link_spec.specs.Faults.{declared_twice, is_given_before, is_built_in_name, repeated, repeated_names, same_member};
ghost use Rattle.kilim_link_spec.specs.Linked.{first_of};
ghost use Rattle.kilim_link_spec.specs.World.{member_name, member_descriptor, outline_of, world_of};
ghost use Rattle.kilim_link_faults.specs.Seen.{seen_in};

use kilim_class_file::{ClassFile, MemberInfo};
use kilim_link_spec::{ClassView, Problem};
use kilim_link_views::{member_descriptor, member_name, own_name};
use kilim_link_world::{Signature, World};
use kilim_program::ClassId;
use kilim_units::{NoMemory, Units};
use std::alloc::Global;
use std::collections::BTreeMap;

fn is_same(a: &[u16], b: &[u16]) -> bool
    ensures { result ≡ bytes_eq a.now b.now }
{
    a == b
}

fn is_named(view: &ClassView, name: &[u16]) -> bool
    ensures { result ≡ bytes_eq view.now.name name.now }
{
    is_same(view.name.as_slice(), name)
}

fn is_built_in_named(view: &ClassView, name: &[u16]) -> bool
    ensures { result ≡ (view.now.is_built_in && bytes_eq view.now.name name.now) }
{
    view.is_built_in && is_named(view, name)
}

// Whether a class of that name stands before this one, as the first of that name then does.
fn is_earlier(world: &World, class: ClassId, name: &Units) -> bool
    requires outlined { world.now.outline ≡ outline_of world.now.form world.now.classes }
    ensures { result ≡ list_any (λ v. bytes_eq v.name name.now) (take class.0 world.now.classes) }
{
    match world.class_of(name) {
        Some(first) => first.0 < class.0,
        None => false,
    }
}

// Whether a built-in class of the form has that name; those stand behind the classes of the files.
fn is_built_in_name(world: &World, files: &[ClassFile], name: &[u16]) -> bool
    requires few { length world.now.classes < 2 ^ 32 }
    requires whole { world.now ≡ world_of files.now world.now.form }
    ensures { result ≡ is_built_in_name world.now name.now }
{
    let mut i = files.len() as u32;
    while i < u32::MAX {
        let Some(view) = world.view_at(ClassId(i)) else {
            return false;
        };
        if is_built_in_named(view, name) {
            return true;
        }
        i += 1;
    }
    false
}

fn is_given_before(world: &World, files: &[ClassFile], class: ClassId, name: &Units) -> bool
    requires few { length world.now.classes < 2 ^ 32 }
    requires whole { world.now ≡ world_of files.now world.now.form }
    ensures { result ≡ is_given_before world.now class name.now }
{
    is_earlier(world, class, name) || is_built_in_name(world, files, name.as_slice())
}

fn signature_in(alloc: Global, file: &ClassFile, member: &MemberInfo) -> Result<Signature, NoMemory>
    ensures name { IfOk result (λ s. s.name ≡ member_name file.now member.now) }
    ensures descriptor { IfOk result (λ s. s.descriptor ≡ member_descriptor file.now member.now) }
{
    let Ok(name) = Units::from_slice(alloc, member_name(file, member)) else {
        return Err(NoMemory);
    };
    let Ok(descriptor) = Units::from_slice(alloc, member_descriptor(file, member)) else {
        return Err(NoMemory);
    };
    Ok(Signature { name, descriptor })
}

fn has_seen(seen: &BTreeMap<Signature, ()>, signature: &Signature) -> bool
    ensures { result ≡ seen_in seen.now signature.now.name signature.now.descriptor }
{
    seen.contains_key(signature)
}

fn add_seen(seen: &mut BTreeMap<Signature, ()>, signature: Signature) -> Result<(), NoMemory>
    ensures { OnOk result ((name descriptor : List ℕ) → seen_in seen.new name descriptor ≡ ((bytes_eq name signature.name && bytes_eq descriptor signature.descriptor) || seen_in seen.old name descriptor)) }
{
    seen.insert(signature, ())?;
    Ok(())
}

fn first_repeated<'a>(
    alloc: Global,
    file: &ClassFile,
    members: &'a [MemberInfo],
) -> Result<Option<&'a MemberInfo>, NoMemory>
    ensures { IfOk result (λ found. option_copied found ≡ first_of (repeated (same_member file.now) [] members.now)) }
{
    let mut seen: BTreeMap<Signature, ()> = BTreeMap::new(alloc);
    for member in members {
        let Ok(signature) = signature_in(alloc, file, member) else {
            return Err(NoMemory);
        };
        if has_seen(&seen, &signature) {
            return Ok(Some(member));
        }
        let Ok(()) = add_seen(&mut seen, signature) else {
            return Err(NoMemory);
        };
    }
    Ok(None)
}

fn repeated_in(
    alloc: Global,
    file: &ClassFile,
    members: &[MemberInfo],
) -> Result<Option<Problem>, NoMemory>
    ensures { IfOk result (λ found. found ≡ first_of (repeated_names file.now members.now)) }
{
    match first_repeated(alloc, file, members) {
        Ok(Some(member)) => match Units::from_slice(alloc, member_name(file, member)) {
            Ok(name) => Ok(Some(Problem::Twice(name))),
            Err(_) => Err(NoMemory),
        },
        Ok(None) => Ok(None),
        Err(fault) => Err(fault),
    }
}

#[tactic(auto, using(crate::proofs::Firsts::here, crate::proofs::Firsts::later))]
fn repeated_in_either(alloc: Global, file: &ClassFile) -> Result<Option<Problem>, NoMemory>
    ensures { IfOk result (λ found. found ≡ first_of (repeated_names file.now file.now.fields ++ repeated_names file.now file.now.methods)) }
{
    match repeated_in(alloc, file, file.fields.as_slice()) {
        Ok(Some(problem)) => return Ok(Some(problem)),
        Ok(None) => {}
        Err(fault) => return Err(fault),
    }
    repeated_in(alloc, file, file.methods.as_slice())
}

/// The first of these: a class of the name of this one was given before it or is built in, a field has the name and the
/// descriptor of an earlier one, a method has (JVMS 4.5, 4.6).
#[tactic(auto, unfolding(kilim_link_spec::specs::Faults::declared_twice))]
pub fn declared_twice(
    alloc: Global,
    world: &World,
    files: &[ClassFile],
    file: &ClassFile,
    class: ClassId,
) -> Result<Option<Problem>, NoMemory>
    requires few { length world.now.classes < 2 ^ 32 }
    requires whole { world.now ≡ world_of files.now world.now.form }
    ensures { IfOk result (λ found. found ≡ first_of (declared_twice world.now file.now class)) }
{
    let name = Units::from_slice(alloc, own_name(file))?;
    if is_given_before(world, files, class, &name) {
        return Ok(Some(Problem::Twice(name)));
    }
    repeated_in_either(alloc, file)
}
