//! The first fault of all.

ghost use Rattle.std.specs.Prelude.{◌≡◌, ◌++◌, ◌<◌, ◌≤◌, ◌^◌, IfOk, length};
ghost use Rattle.kilim_link_spec.specs.Faults.{problems_of, first_fault, faults_in, circular, member_missing};
ghost use Rattle.kilim_link_spec.specs.Linked.{first_of};
ghost use Rattle.kilim_link_spec.specs.Mentions.{mentions_of, class_names};
ghost use Rattle.kilim_link_spec.specs.World.{world_of};
ghost use Rattle.kilim_link_override_faults.specs.Ancestry.{Knows};
ghost use Rattle.kilim_link_faults.specs.Parts.{last_kinds, code_kinds, later_kinds};

use crate::class::{both_kinds, circular, class_missing, super_kind};
use crate::fields::field_kinds;
use crate::members::member_missing;
use crate::twice::declared_twice;
use kilim_class_file::ClassFile;
use kilim_link_file_faults::{
    code_broken, descriptor_broken, handler_broken, left_out_problem, name_broken,
};
use kilim_link_mentions::{class_names, members_named, mentions_of};
use kilim_link_override_faults::{Ancestry, abstract_left, override_differs};
use kilim_link_spec::{LinkFault, Mention, Problem};
use kilim_link_views::own_name;
use kilim_link_world::World;
use kilim_program::{ClassId, Form};
use kilim_units::{NoMemory, Seq, Units};
use std::alloc::Global;

#[tactic(auto, using(crate::proofs::Firsts::here, crate::proofs::Firsts::later))]
fn last_kinds(
    alloc: Global,
    world: &World,
    file: &ClassFile,
    class: ClassId,
    ancestry: &Ancestry,
) -> Result<Option<Problem>, NoMemory>
    requires { Knows world.now ancestry.now }
    ensures { IfOk result (λ found. found ≡ first_of (last_kinds world.now file.now class)) }
{
    match super_kind(alloc, world, file, class) {
        Ok(Some(problem)) => return Ok(Some(problem)),
        Ok(None) => {}
        Err(fault) => return Err(fault),
    }
    match name_broken(file) {
        Ok(Some(problem)) => return Ok(Some(problem)),
        Ok(None) => {}
        Err(fault) => return Err(fault),
    }
    match abstract_left(alloc, world, ancestry, file, class) {
        Ok(Some(problem)) => return Ok(Some(problem)),
        Ok(None) => {}
        Err(fault) => return Err(fault),
    }
    handler_broken(alloc, file)
}

#[tactic(auto, using(crate::proofs::Firsts::here, crate::proofs::Firsts::later))]
fn code_kinds(
    alloc: Global,
    world: &World,
    file: &ClassFile,
    class: ClassId,
    mentions: &[Mention],
    ancestry: &Ancestry,
) -> Result<Option<Problem>, NoMemory>
    requires mentioned { mentions.now ≡ mentions_of file.now }
    requires known { Knows world.now ancestry.now }
    ensures { IfOk result (λ found. found ≡ first_of (code_kinds world.now file.now class)) }
{
    match override_differs(alloc, world, file, class, ancestry) {
        Ok(Some(problem)) => return Ok(Some(problem)),
        Ok(None) => {}
        Err(fault) => return Err(fault),
    }
    match code_broken(alloc, file) {
        Ok(Some(problem)) => return Ok(Some(problem)),
        Ok(None) => {}
        Err(fault) => return Err(fault),
    }
    match descriptor_broken(alloc, mentions, file) {
        Ok(Some(problem)) => return Ok(Some(problem)),
        Ok(None) => {}
        Err(fault) => return Err(fault),
    }
    last_kinds(alloc, world, file, class, ancestry)
}

#[tactic(auto, using(crate::proofs::Firsts::here, crate::proofs::Firsts::later))]
fn later_kinds(
    alloc: Global,
    world: &World,
    file: &ClassFile,
    class: ClassId,
    mentions: &[Mention],
    names: &[Units],
    ancestry: &Ancestry,
) -> Result<Option<Problem>, NoMemory>
    requires mentioned { mentions.now ≡ mentions_of file.now }
    requires named { names.now ≡ class_names file.now }
    requires known { Knows world.now ancestry.now }
    ensures { IfOk result (λ found. found ≡ first_of (later_kinds world.now file.now class)) }
{
    match left_out_problem(alloc, world, file, mentions, names) {
        Ok(Some(problem)) => return Ok(Some(problem)),
        Ok(None) => {}
        Err(fault) => return Err(fault),
    }
    match both_kinds(world, file, class) {
        Ok(Some(problem)) => return Ok(Some(problem)),
        Ok(None) => {}
        Err(fault) => return Err(fault),
    }
    match field_kinds(alloc, world, file, class) {
        Ok(Some(problem)) => return Ok(Some(problem)),
        Ok(None) => {}
        Err(fault) => return Err(fault),
    }
    code_kinds(alloc, world, file, class, mentions, ancestry)
}

// The kinds from its own ancestor on.
#[tactic(auto, using(crate::proofs::Firsts::here, crate::proofs::Firsts::later))]
fn from_circular(
    alloc: Global,
    world: &World,
    file: &ClassFile,
    class: ClassId,
    mentions: &[Mention],
    names: &[Units],
    ancestry: &Ancestry,
) -> Result<Option<Problem>, NoMemory>
    requires mentioned { mentions.now ≡ mentions_of file.now }
    requires named { names.now ≡ class_names file.now }
    requires known { Knows world.now ancestry.now }
    ensures { IfOk result (λ found. found ≡ first_of (circular world.now file.now class ++ (member_missing world.now file.now class ++ later_kinds world.now file.now class))) }
{
    match circular(world, file, class) {
        Ok(Some(problem)) => return Ok(Some(problem)),
        Ok(None) => {}
        Err(fault) => return Err(fault),
    }
    let Ok(members) = members_named(alloc, file) else {
        return Err(NoMemory);
    };
    match member_missing(alloc, world, file, class, members.as_slice()) {
        Ok(Some(problem)) => return Ok(Some(problem)),
        Ok(None) => {}
        Err(fault) => return Err(fault),
    }
    later_kinds(alloc, world, file, class, mentions, names, ancestry)
}

#[tactic(auto, unfolding(kilim_link_spec::specs::Mentions::class_names))]
fn names_of(alloc: Global, file: &ClassFile, mentions: &[Mention]) -> Result<Seq<Units>, NoMemory>
    requires { mentions.now ≡ mentions_of file.now }
    ensures { IfOk result (λ names. names ≡ class_names file.now) }
{
    class_names(alloc, mentions)
}

/// The first problem of a class: of its kinds the first, and of one kind the first place in the order of the file's
/// bytes (own).
#[tactic(auto, using(crate::proofs::Firsts::here, crate::proofs::Firsts::later), unfolding(kilim_link_spec::specs::Faults::problems_of))]
pub fn first_problem(
    alloc: Global,
    world: &World,
    files: &[ClassFile],
    file: &ClassFile,
    class: ClassId,
    ancestry: &Ancestry,
) -> Result<Option<Problem>, NoMemory>
    requires few { length world.now.classes < 2 ^ 32 }
    requires known { Knows world.now ancestry.now }
    requires whole { world.now ≡ world_of files.now world.now.form }
    ensures { IfOk result (λ found. found ≡ first_of (problems_of world.now file.now class)) }
{
    match declared_twice(alloc, world, files, file, class) {
        Ok(Some(problem)) => return Ok(Some(problem)),
        Ok(None) => {}
        Err(fault) => return Err(fault),
    }
    let Ok(mentions) = mentions_of(alloc, file) else {
        return Err(NoMemory);
    };
    let Ok(names) = names_of(alloc, file, mentions.as_slice()) else {
        return Err(NoMemory);
    };
    match class_missing(world, file, class, names.as_slice()) {
        Ok(Some(problem)) => return Ok(Some(problem)),
        Ok(None) => {}
        Err(fault) => return Err(fault),
    }
    from_circular(
        alloc,
        world,
        file,
        class,
        mentions.as_slice(),
        names.as_slice(),
        ancestry,
    )
}

// The first problem of a class, with its name.
fn fault_in(
    alloc: Global,
    world: &World,
    files: &[ClassFile],
    file: &ClassFile,
    class: ClassId,
    ancestry: &Ancestry,
) -> Result<Option<LinkFault>, NoMemory>
    requires few { length world.now.classes < 2 ^ 32 }
    requires known { Knows world.now ancestry.now }
    requires whole { world.now ≡ world_of files.now world.now.form }
    ensures { IfOk result (λ found. found ≡ first_of (faults_in world.now file.now class)) }
{
    let Ok(name) = Units::from_slice(alloc, own_name(file)) else {
        return Err(NoMemory);
    };
    match first_problem(alloc, world, files, file, class, ancestry) {
        Ok(Some(problem)) => Ok(Some(LinkFault::InClass(name, problem))),
        Ok(None) => Ok(None),
        Err(fault) => Err(fault),
    }
}

// The first problem of the first class that has one, by what is known of methods beside those of superclasses.
fn first_known(
    alloc: Global,
    world: &World,
    files: &[ClassFile],
    form: Form,
    ancestry: &Ancestry,
) -> Result<Option<LinkFault>, NoMemory>
    requires few { length files.now ≤ 1000 }
    requires whole { world.now ≡ world_of files.now form }
    requires known { Knows world.now ancestry.now }
    ensures { IfOk result (λ found. found ≡ first_fault files.now form) }
{
    let mut i: u32 = 0;
    while (i as usize) < files.len() {
        match fault_in(
            alloc,
            world,
            files,
            &files[i as usize],
            ClassId(i),
            ancestry,
        ) {
            Ok(Some(fault)) => return Ok(Some(fault)),
            Ok(None) => {}
            Err(fault) => return Err(fault),
        }
        i += 1;
    }
    Ok(None)
}

/// Why files don't link (own): the first problem of the first class that has one. Files without one link.
pub fn first_fault(
    alloc: Global,
    world: &World,
    files: &[ClassFile],
    form: Form,
) -> Result<Option<LinkFault>, NoMemory>
    requires few { length files.now ≤ 1000 }
    requires whole { world.now ≡ world_of files.now form }
    ensures { IfOk result (λ found. found ≡ first_fault files.now form) }
{
    let ancestry = Ancestry::new(alloc, world)?;
    let found = first_known(alloc, world, files, form, &ancestry);
    drop(ancestry);
    found
}
