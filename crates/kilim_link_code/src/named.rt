//! What the index of an instruction names, in a program.

ghost use Rattle.std.specs.Prelude.{◌≡◌, Some, IfOk};
ghost use Rattle.kilim_link_spec.specs.Code.{field_found, method_found, typed_instr, instr_with};
ghost use Rattle.kilim_link_spec.specs.Types.{class_named_by, named_by};
ghost use Rattle.kilim_link_spec.specs.declared.named.Operand.TheVariants.{AField, AMethod};

use crate::tables::{constant_instr, field_instr, method_instr, type_instr};
use kilim_link_mentions::named_by;
use kilim_link_spec::{MemberOf, Named, Operand};
use kilim_link_world::types::{class_named_by, type_named};
use kilim_link_world::{Signature, World};
use kilim_program::{ClassId, FieldId, Instr, MethodId};
use kilim_units::{NoMemory, Units};
use std::alloc::Global;

// The class that is named as the owner of a member, which is no array.
fn owner_class(alloc: Global, world: &World, owner: &Units) -> Result<Option<ClassId>, NoMemory>
    ensures { IfOk result (λ found. found ≡ class_named_by world.now (named_by owner.now)) }
{
    let Ok(owner) = named_by(alloc, owner.as_slice()) else {
        return Err(NoMemory);
    };
    Ok(class_named_by(world, &owner))
}

// The owner of a member, and its name with its descriptor as a key.
fn parted(member: MemberOf) -> (Units, Signature)
    ensures owner { result.0 ≡ member.owner }
    ensures name { result.1.name ≡ member.name }
    ensures descriptor { result.1.descriptor ≡ member.descriptor }
{
    let signature = Signature {
        name: member.name,
        descriptor: member.descriptor,
    };
    (member.owner, signature)
}

// The field that code names, where its class, which is no array, or an ancestor has it (JVMS 5.4.3.2).
fn field_found(
    alloc: Global,
    world: &World,
    owner: &Units,
    signature: &Signature,
) -> Result<Option<FieldId>, NoMemory>
    ensures { IfOk result (λ found. found ≡ field_found world.now (record { owner = owner.now; name = signature.now.name; descriptor = signature.now.descriptor })) }
{
    match owner_class(alloc, world, owner) {
        Ok(Some(class)) => Ok(world.find_field(class, signature)),
        Ok(None) => Ok(None),
        Err(fault) => Err(fault),
    }
}

// The method that code names, where its class, which is no array, or an ancestor has it (JVMS 5.4.3.3).
fn method_found(
    alloc: Global,
    world: &World,
    owner: &Units,
    signature: &Signature,
) -> Result<Option<MethodId>, NoMemory>
    ensures { IfOk result (λ found. found ≡ method_found world.now (record { owner = owner.now; name = signature.now.name; descriptor = signature.now.descriptor })) }
{
    match owner_class(alloc, world, owner) {
        Ok(Some(class)) => Ok(world.find_method(class, signature)),
        Ok(None) => Ok(None),
        Err(fault) => Err(fault),
    }
}

// `new`, which takes a class alone, or an instruction over a type.
fn typed_instr(world: &World, number: u8, class: &Named) -> Option<Instr>
    ensures { result ≡ typed_instr world.now number class.now }
{
    if number == 187 {
        match class_named_by(world, class) {
            Some(found) => Some(Instr::New(found)),
            None => None,
        }
    } else {
        match type_named(world, class) {
            Some(ty) => type_instr(number, ty),
            None => None,
        }
    }
}

fn access(
    alloc: Global,
    world: &World,
    number: u8,
    member: MemberOf,
) -> Result<Option<Instr>, NoMemory>
    ensures { IfOk result (λ instr. instr ≡ instr_with world.now number (Some (AField member))) }
{
    let (owner, signature) = parted(member);
    let found = field_found(alloc, world, &owner, &signature);
    drop(signature);
    drop(owner);
    match found {
        Ok(Some(field)) => Ok(field_instr(number, field)),
        Ok(None) => Ok(None),
        Err(fault) => Err(fault),
    }
}

fn call(
    alloc: Global,
    world: &World,
    number: u8,
    member: MemberOf,
) -> Result<Option<Instr>, NoMemory>
    ensures { IfOk result (λ instr. instr ≡ instr_with world.now number (Some (AMethod member))) }
{
    let (owner, signature) = parted(member);
    let found = method_found(alloc, world, &owner, &signature);
    drop(signature);
    drop(owner);
    match found {
        Ok(Some(method)) => Ok(method_instr(number, method)),
        Ok(None) => Ok(None),
        Err(fault) => Err(fault),
    }
}

/// The instruction of a number with what its index names; none where that isn't there (JVMS 6.5).
pub fn instr_with(
    alloc: Global,
    world: &World,
    number: u8,
    operand: Option<Operand>,
) -> Result<Option<Instr>, NoMemory>
    ensures { IfOk result (λ instr. instr ≡ instr_with world.now number operand) }
{
    let Some(operand) = operand else {
        return Ok(None);
    };
    match operand {
        Operand::AConstant(value) => Ok(constant_instr(number, value)),
        Operand::AField(member) => access(alloc, world, number, member),
        Operand::AMethod(member) => call(alloc, world, number, member),
        Operand::AType(class) => Ok(typed_instr(world, number, &class)),
    }
}
