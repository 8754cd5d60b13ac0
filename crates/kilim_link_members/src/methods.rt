//! Methods.

ghost use Rattle.std.specs.Prelude.{◌≡◌, Some, IfOk};
ghost use Rattle.kilim_link_spec.specs.World.{declared_method};
ghost use Rattle.kilim_link_spec.specs.Qualified.{qualified};
ghost use Rattle.kilim_link_spec.specs.Types.{method_text};
ghost use Rattle.kilim_link_spec.specs.Linked.{method_with, linked_method};

use crate::body::body_in;
use crate::types::{result_in, types_in};
use kilim_class_descriptors::MethodText;
use kilim_class_file::{ClassFile, MemberInfo};
use kilim_link_mentions::{code_attribute, method_text};
use kilim_link_spec::{Body, DeclaredMethod, Qualified};
use kilim_link_views::declared_method;
use kilim_link_world::World;
use kilim_link_world::types::qualified;
use kilim_program::{ClassId, Method, Ty};
use kilim_units::{NoMemory, Seq, Units};
use std::alloc::Global;

// The name of a method, and its qualifiers.
fn heading(
    alloc: Global,
    world: &World,
    class: ClassId,
    declared: &DeclaredMethod,
    text: &MethodText,
) -> Result<(Units, Qualified), NoMemory>
    requires { Some text.now ≡ method_text declared.now.descriptor }
    ensures name { IfOk result (λ h. h.0 ≡ declared.now.name) }
    ensures qualified { IfOk result (λ h. h.1 ≡ qualified world.now class declared.now) }
{
    let Ok(q) = qualified(alloc, world, class, declared, Some(text)) else {
        return Err(NoMemory);
    };
    let Ok(name) = declared.name.clone() else {
        return Err(NoMemory);
    };
    Ok((name, q))
}

// A method with its types and its body.
fn method_with(
    alloc: Global,
    world: &World,
    file: &ClassFile,
    class: ClassId,
    method: &MemberInfo,
    declared: &DeclaredMethod,
    text: &MethodText,
    params: Seq<Ty>,
    gives: Option<Ty>,
    body: Body,
) -> Result<Option<Method>, NoMemory>
    requires declared { declared.now ≡ declared_method file.now method.now }
    requires text { Some text.now ≡ method_text declared.now.descriptor }
    ensures { IfOk result (λ found. found ≡ Some (method_with world.now file.now class method.now params gives body)) }
{
    match heading(alloc, world, class, declared, text) {
        Ok((name, q)) => Ok(Some(Method {
            name,
            owner: class,
            params,
            result: gives,
            is_static: declared.is_static,
            is_private: declared.is_private,
            is_abstract: declared.is_abstract,
            built_in: false,
            pausable: declared.pausable,
            receiver: q.receiver,
            qualifiers: q.params,
            max_stack: body.max_stack,
            max_locals: body.max_locals,
            code_length: body.code_length,
            code: body.code,
            frames: body.frames,
            handlers: body.handlers,
        })),
        Err(fault) => {
            drop(params);
            drop(body);
            Err(fault)
        }
    }
}

// A method of which the descriptor is well formed.
fn linked_with(
    alloc: Global,
    world: &World,
    file: &ClassFile,
    class: ClassId,
    method: &MemberInfo,
    declared: &DeclaredMethod,
    text: &MethodText,
) -> Result<Option<Method>, NoMemory>
    requires declared { declared.now ≡ declared_method file.now method.now }
    requires text { Some text.now ≡ method_text declared.now.descriptor }
    ensures { IfOk result (λ found. found ≡ linked_method world.now file.now class method.now) }
{
    let Some(gives) = result_in(world, text.result.as_ref()) else {
        return Ok(None);
    };
    let Ok(types) = types_in(alloc, world, text.params.as_slice()) else {
        return Err(NoMemory);
    };
    let Some(params) = types else {
        return Ok(None);
    };
    let code = code_attribute(method);
    let Ok(found) = body_in(alloc, world, file, class, method, declared, code) else {
        return Err(NoMemory);
    };
    let Some(body) = found else {
        return Ok(None);
    };
    method_with(
        alloc, world, file, class, method, declared, text, params, gives, body,
    )
}

// A method as it is declared, in a program.
fn linked_declared(
    alloc: Global,
    world: &World,
    file: &ClassFile,
    class: ClassId,
    method: &MemberInfo,
    declared: &DeclaredMethod,
) -> Result<Option<Method>, NoMemory>
    requires { declared.now ≡ declared_method file.now method.now }
    ensures { IfOk result (λ found. found ≡ linked_method world.now file.now class method.now) }
{
    match method_text(alloc, &declared.descriptor) {
        Ok(Some(text)) => {
            let found = linked_with(alloc, world, file, class, method, declared, &text);
            drop(text);
            found
        }
        Ok(None) => Ok(None),
        Err(fault) => Err(fault),
    }
}

/// A method of a class in a program (JVMS 4.6), where its types, and all that its code and its frames name, are there.
/// Code of 4,294,967,296 bytes or more, which no class file has, is answered as want of memory.
pub fn linked_method(
    alloc: Global,
    world: &World,
    file: &ClassFile,
    class: ClassId,
    method: &MemberInfo,
) -> Result<Option<Method>, NoMemory>
    ensures { IfOk result (λ found. found ≡ linked_method world.now file.now class method.now) }
{
    let Ok(declared) = declared_method(alloc, file, method) else {
        return Err(NoMemory);
    };
    let found = linked_declared(alloc, world, file, class, method, &declared);
    drop(declared);
    found
}
