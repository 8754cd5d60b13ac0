//! Members that code names and that aren't there.

ghost use Rattle.std.specs.Prelude.{◌≡◌, IfOk, filter, option_copied};
ghost use Rattle.kilim_link_spec.specs.Mentions.{members_named};
ghost use Rattle.kilim_link_spec.specs.declared.named.Member.TheVariants.{Field, Method};
ghost use Rattle.kilim_link_spec.specs.declared.named.Named.TheVariants.{AClass};
ghost use Rattle.kilim_link_spec.specs.Faults.{member_missing, lacks_member, owner_lacks, class_lacks, is_no_member, ref_of, no_member_of};
ghost use Rattle.kilim_link_spec.specs.Linked.{first_of};

use crate::class::has_fiber;
use kilim_class_file::ClassFile;
use kilim_link_mentions::named_by;
use kilim_link_override_faults::signature_of;
use kilim_link_spec::{Member, MemberOf, Named, Problem};
use kilim_link_world::World;
use kilim_program::ClassId;
use kilim_units::{NoMemory, Units};
use std::alloc::Global;

fn lacks_field(world: &World, member: &MemberOf, class: ClassId) -> Result<bool, NoMemory>
    ensures { IfOk result (λ lacks. lacks ≡ lacks_member world.now (Field member.now) class) }
{
    let signature = signature_of(&member.name, &member.descriptor)?;
    Ok(world.find_field(class, &signature).is_none())
}

fn lacks_method(world: &World, member: &MemberOf, class: ClassId) -> Result<bool, NoMemory>
    ensures { IfOk result (λ lacks. lacks ≡ lacks_member world.now (Method member.now) class) }
{
    let signature = signature_of(&member.name, &member.descriptor)?;
    Ok(world.find_method(class, &signature).is_none())
}

// Whether neither a class nor an ancestor of it has the member.
fn lacks_member(world: &World, member: &Member, class: ClassId) -> Result<bool, NoMemory>
    ensures { IfOk result (λ lacks. lacks ≡ lacks_member world.now member.now class) }
{
    match member {
        Member::Field(field) => lacks_field(world, field, class),
        Member::Method(method) => lacks_method(world, method, class),
    }
}

// A class that isn't there lacks each member too.
fn class_lacks(world: &World, member: &Member, class: Option<ClassId>) -> Result<bool, NoMemory>
    ensures { IfOk result (λ lacks. lacks ≡ class_lacks (lacks_member world.now member.now) class) }
{
    match class {
        Some(class) => lacks_member(world, member, class),
        None => Ok(true),
    }
}

fn named_lacks(world: &World, member: &Member, name: &Units) -> Result<bool, NoMemory>
    ensures { IfOk result (λ lacks. lacks ≡ owner_lacks world.now (lacks_member world.now member.now) (AClass name.now)) }
{
    if has_fiber(world.form()) || !name.is_text(b"kilim/Fiber") {
        class_lacks(world, member, world.class_of(name))
    } else {
        Ok(false)
    }
}

// Whether what a member names as its owner lacks it.
fn owner_lacks(world: &World, member: &Member, owner: &Named) -> Result<bool, NoMemory>
    ensures { IfOk result (λ lacks. lacks ≡ owner_lacks world.now (lacks_member world.now member.now) owner.now) }
{
    match owner {
        Named::AClass(name) => named_lacks(world, member, name),
        Named::AnArray(_) | Named::Malformed(_) => Ok(true),
    }
}

// The owner, the name and the descriptor of a member that code names.
fn ref_of(member: &Member) -> &MemberOf
    ensures { result.now ≡ ref_of member.now }
{
    match member {
        Member::Field(field) => field,
        Member::Method(method) => method,
    }
}

fn is_no_member(alloc: Global, world: &World, member: &Member) -> Result<bool, NoMemory>
    ensures { IfOk result (λ missing. missing ≡ is_no_member world.now member.now) }
{
    let owner = named_by(alloc, ref_of(member).owner.as_slice())?;
    owner_lacks(world, member, &owner)
}

fn first_missing<'a>(
    alloc: Global,
    world: &World,
    members: &'a [Member],
) -> Result<Option<&'a Member>, NoMemory>
    ensures { IfOk result (λ found. option_copied found ≡ first_of (filter (is_no_member world.now) members.now)) }
{
    for member in members {
        match is_no_member(alloc, world, member) {
            Ok(true) => return Ok(Some(member)),
            Ok(false) => {}
            Err(fault) => return Err(fault),
        }
    }
    Ok(None)
}

fn no_member_of(member: &MemberOf) -> Result<Problem, NoMemory>
    ensures { IfOk result (λ problem. problem ≡ no_member_of member.now) }
{
    let Ok(owner) = member.owner.clone() else {
        return Err(NoMemory);
    };
    let Ok(name) = member.name.clone() else {
        return Err(NoMemory);
    };
    let Ok(descriptor) = member.descriptor.clone() else {
        return Err(NoMemory);
    };
    Ok(Problem::NoMember(MemberOf {
        owner,
        name,
        descriptor,
    }))
}

/// The first member that the code of a class names and that neither its owner nor an ancestor of it has (JVMS 5.4.3.2,
/// 5.4.3.3), where `members` are those that its code names. An array has none; of `kilim/Fiber` in plain form nothing
/// is asked.
#[tactic(auto, unfolding(kilim_link_spec::specs::Faults::member_missing))]
pub fn member_missing(
    alloc: Global,
    world: &World,
    file: &ClassFile,
    class: ClassId,
    members: &[Member],
) -> Result<Option<Problem>, NoMemory>
    requires { members.now ≡ members_named file.now }
    ensures { IfOk result (λ found. found ≡ first_of (member_missing world.now file.now class)) }
{
    match first_missing(alloc, world, members) {
        Ok(Some(member)) => match no_member_of(ref_of(member)) {
            Ok(problem) => Ok(Some(problem)),
            Err(fault) => Err(fault),
        },
        Ok(None) => Ok(None),
        Err(fault) => Err(fault),
    }
}
