//! What is left out of methods and classes.

ghost use Rattle.std.specs.Prelude.{◌≡◌, ◌&&◌, not, codes, IfOk};
ghost use Rattle.std.specs.List.{list_any, filter_map, flat_map};
ghost use Rattle.std.specs.Str.{bytes_eq};
ghost use Rattle.std.specs.Option.{option_copied};
ghost use Rattle.kilim_link_mentions.specs.Decoded.{code_found};
ghost use Rattle.kilim_link_spec.specs.Code.{decoded};
ghost use Rattle.kilim_link_spec.specs.Linked.{code_attribute, first_of};
ghost use Rattle.kilim_link_spec.specs.LeftOut.{decoded_in, has_fiber_name, has_initializer, has_interface, has_method_flag, has_pausable_constructor, has_pausable_handlers, has_row, is_fiber, left_out_op, left_out_ops};
ghost use Rattle.kilim_link_spec.specs.Mentions.{class_names};
ghost use Rattle.kilim_link_spec.specs.Qualified.{has_fiber, is_constructor_name};
ghost use Rattle.kilim_link_spec.specs.World.{class_text, interface_names, is_pausable, member_name};

use kilim_class_attributes::Code;
use kilim_class_code::opcodes::OpFault;
use kilim_class_code::{Body, CodeFault};
use kilim_class_file::{ClassFile, MemberInfo};
use kilim_link_mentions::{code_attribute, decoded};
use kilim_link_views::{class_text, has_flag, is_pausable, is_text, member_name, own_name};
use kilim_link_world::World;
use kilim_program::Form;
use kilim_units::{NoMemory, Units};
use std::alloc::Global;

// The number of a left-out instruction, where it is the fault of decoded code.
fn left_out_number(found: &Result<Body, CodeFault>) -> Option<u8>
    ensures { result ≡ left_out_op (code_found found.now) }
{
    match found {
        Err(CodeFault::Op(OpFault::LeftOut(number), _)) => Some(*number),
        _ => None,
    }
}

// The same of a method, where it has code.
fn left_out_in(alloc: Global, method: &MemberInfo) -> Result<Option<u8>, NoMemory>
    ensures { IfOk result (λ found. found ≡ first_of (filter_map left_out_op (decoded_in (code_attribute method.now)))) }
{
    match code_attribute(method) {
        None => Ok(None),
        Some(code) => {
            let found = decoded(alloc, code.code.as_slice())?;
            Ok(left_out_number(&found))
        }
    }
}

fn first_left_out(alloc: Global, methods: &[MemberInfo]) -> Result<Option<u8>, NoMemory>
    ensures { IfOk result (λ found. found ≡ first_of (flat_map (λ m. filter_map left_out_op (decoded_in (code_attribute m))) methods.now)) }
{
    for method in methods {
        match left_out_in(alloc, method) {
            Err(fault) => return Err(fault),
            Ok(Some(found)) => return Ok(Some(found)),
            Ok(None) => {}
        }
    }
    Ok(None)
}

/// The number of the first left-out instruction that is the first fault of a method's code (own).
#[tactic(auto, using(crate::proofs::Firsts::ops))]
pub fn left_out_op(alloc: Global, file: &ClassFile) -> Result<Option<u8>, NoMemory>
    ensures { IfOk result (λ found. found ≡ first_of (left_out_ops file.now)) }
{
    first_left_out(alloc, file.methods.as_slice())
}

/// Whether a method is named `<clinit>` (JVMS 2.9).
pub fn has_initializer(file: &ClassFile) -> bool
    ensures { result ≡ has_initializer file.now }
{
    for method in file.methods.as_slice() {
        if is_text(member_name(file, method), b"<clinit>") {
            return true;
        }
    }
    false
}

/// Whether a method has this flag.
pub fn has_method_flag(flag: u16, file: &ClassFile) -> bool
    ensures { result ≡ has_method_flag flag file.now }
{
    for method in file.methods.as_slice() {
        if has_flag(flag, method.access_flags) {
            return true;
        }
    }
    false
}

fn any_other_index(file: &ClassFile) -> bool
    ensures { result ≡ list_any (λ i. not (bytes_eq (class_text file.now.constant_pool i) (codes "kilim/Message"))) file.now.interfaces }
{
    file.interfaces.as_slice().iter().any(|index| !is_text(
        class_text(&file.constant_pool, *index),
        b"kilim/Message",
    ))
}

fn lists_another(file: &ClassFile) -> bool
    ensures { result ≡ list_any (λ name. not (bytes_eq name (codes "kilim/Message"))) (interface_names file.now) }
{
    any_other_index(file)
}

/// Whether the class is an interface, or lists another interface than `kilim/Message` (own).
pub fn has_interface(file: &ClassFile) -> bool
    ensures { result ≡ has_interface file.now }
{
    has_flag(0x0200, file.access_flags) || lists_another(file)
}

// Whether it is a constructor that pauses.
fn is_pausable_constructor(file: &ClassFile, method: &MemberInfo) -> bool
    ensures { result ≡ (is_constructor_name (member_name file.now method.now) && is_pausable file.now.constant_pool method.now) }
{
    is_text(member_name(file, method), b"<init>") && is_pausable(&file.constant_pool, method)
}

/// Whether a constructor pauses (own).
pub fn has_pausable_constructor(file: &ClassFile) -> bool
    ensures { result ≡ has_pausable_constructor file.now }
{
    for method in file.methods.as_slice() {
        if is_pausable_constructor(file, method) {
            return true;
        }
    }
    false
}

// Whether code has an exception table with a row (JVMS 4.7.3).
fn has_row(code: Option<&Code>) -> bool
    ensures { result ≡ has_row (option_copied code.entry) }
{
    match code {
        None => false,
        Some(code) => !code.exception_table.as_slice().is_empty(),
    }
}

fn is_pausable_with_row(file: &ClassFile, method: &MemberInfo) -> bool
    ensures { result ≡ (has_row (code_attribute method.now) && is_pausable file.now.constant_pool method.now) }
{
    has_row(code_attribute(method)) && is_pausable(&file.constant_pool, method)
}

/// Whether the code of some method that pauses has an exception table with a row (JVMS 4.7.3), also where it has a fault.
pub fn has_pausable_handlers(file: &ClassFile) -> bool
    ensures { result ≡ has_pausable_handlers file.now }
{
    for method in file.methods.as_slice() {
        if is_pausable_with_row(file, method) {
            return true;
        }
    }
    false
}

fn has_fiber(form: Form) -> bool
    ensures { result ≡ has_fiber form }
{
    match form {
        Form::Plain => false,
        Form::Woven => true,
    }
}

// Whether one of these names is `kilim/Fiber`.
fn is_fiber_named(names: &[Units]) -> bool
    ensures { result ≡ list_any is_fiber names.now }
{
    for name in names {
        if name.is_text(b"kilim/Fiber") {
            return true;
        }
    }
    false
}

/// Whether, in plain form, the class is named `kilim/Fiber`, or names such a class (own).
pub fn has_fiber_name(world: &World, file: &ClassFile, names: &[Units]) -> bool
    requires { names.now ≡ class_names file.now }
    ensures { result ≡ has_fiber_name world.now file.now }
{
    !has_fiber(world.form()) && (is_text(own_name(file), b"kilim/Fiber") || is_fiber_named(names))
}
