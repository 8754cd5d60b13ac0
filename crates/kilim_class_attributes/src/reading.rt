//! Reading attributes.

ghost use Rattle.std.specs.Prelude.{◌≡◌, ◌≤◌, List, [], ◌++◌, ℕ, length, drop, IfOk, MatchResult};
ghost use Rattle.std.specs.List.{list_any};
ghost use Rattle.kilim_class_grammar.specs.Format.{IsAtFront};
ghost use Rattle.kilim_class_grammar.specs.Reader.{Reads, ReadsUnless};
ghost use Rattle.kilim_class_attributes.specs.declared.parts.fault.AttributeFault.TheVariants as fault;
ghost use Rattle.kilim_class_attributes.specs.Lists.{many_after};
ghost use Rattle.kilim_class_attributes.specs.Forms.{stands_once, unless_twice};
ghost use Rattle.kilim_class_attributes.specs.declared.attribute.Attribute.{Attribute};
ghost use Rattle.kilim_class_attributes.specs.Attributes.{info_is, repeats, attribute_of, attribute_at, attributes_at, attributes_text, AttributesAreSized, AttributesFit};
ghost use Rattle.kilim_class_attributes.specs.Laws.{IsReadAgain, FitIsSized};

use crate::attribute::{Attribute, Info, Place};
use crate::form::{form_at, named_bytes_at};
use crate::info_reading::info_of;
use crate::laws::attributes_are_spelled;
use crate::parts::{AttributeFault, AttributeName, parts_are_spelled};
use kilim_class_grammar::u16_at;
use kilim_class_pool::Pool;
use kilim_units::Seq;
use std::alloc::Global;

// Whether an attribute has this form, of those that may stand once.
fn is_of(form: AttributeName, attribute: &Attribute) -> bool
    ensures { result ≡ info_is form attribute.now.info }
{
    match form {
        AttributeName::ConstantValue => matches!(attribute.info, Info::ConstantValue(_)),
        AttributeName::Code => matches!(attribute.info, Info::Code(_)),
        AttributeName::StackMapTable => matches!(attribute.info, Info::StackMapTable(_)),
        AttributeName::Exceptions => matches!(attribute.info, Info::Exceptions(_)),
        _ => false,
    }
}

fn stands(form: AttributeName, before: &[Attribute]) -> bool
    ensures { result ≡ list_any (λ a. info_is form a.info) before.now }
{
    for attribute in before {
        if is_of(form, attribute) {
            return true;
        }
    }
    false
}

fn stands_once(form: AttributeName) -> bool
    ensures { result ≡ stands_once form }
{
    matches!(
        form,
        AttributeName::ConstantValue
            | AttributeName::Code
            | AttributeName::StackMapTable
            | AttributeName::Exceptions
    )
}

// Whether an attribute that may stand once stands already. Looks at those before it only where its form may stand
// once, so that a list takes linear time.
fn repeats(form: AttributeName, before: &[Attribute]) -> bool
    ensures { result ≡ repeats form before.now }
{
    stands_once(form) && stands(form, before)
}

fn unless_twice(
    form: Option<AttributeName>,
    before: &[Attribute],
) -> Result<Option<AttributeName>, AttributeFault>
    ensures { Reads (λ x. x) result (unless_twice repeats form before.now) }
{
    match form {
        Some(name) => {
            if repeats(name, before) {
                Err(AttributeFault::Twice(name))
            } else {
                Ok(Some(name))
            }
        }
        None => Ok(None),
    }
}

#[tactic(auto, unfolding(crate::specs::Attributes::attribute_of))]
fn attribute_of(
    alloc: Global,
    pool: &Pool,
    place: Place,
    before: &[Attribute],
    name: u16,
    content: &[u8],
) -> Result<Attribute, AttributeFault>
    ensures { ReadsUnless fault.Memory (λ x. x) result (attribute_of pool.now place before.now (name, content.now)) }
{
    let form = match form_at(pool, place, name) {
        Ok(form) => form,
        Err(fault) => return Err(fault),
    };
    let once = match unless_twice(form, before) {
        Ok(once) => once,
        Err(fault) => return Err(fault),
    };
    match info_of(alloc, pool, once, content) {
        Ok(info) => Ok(Attribute {
            attribute_name_index: name,
            info,
        }),
        Err(fault) => Err(fault),
    }
}

#[tactic(auto, unfolding(crate::specs::Attributes::attribute_at))]
fn attribute_at<'a>(
    alloc: Global,
    pool: &Pool,
    place: Place,
    before: &[Attribute],
    bytes: &'a [u8],
) -> Result<(Attribute, &'a [u8]), AttributeFault>
    ensures { ReadsUnless fault.Memory (λ x. (x.0, x.1.now)) result (attribute_at pool.now place before.now bytes.now) }
{
    match named_bytes_at(AttributeFault::Cut, bytes) {
        Ok(((name, content), rest)) => match attribute_of(
            alloc, pool, place, before, name, content,
        ) {
            Ok(attribute) => Ok((attribute, rest)),
            Err(fault) => Err(fault),
        },
        Err(fault) => Err(fault),
    }
}

// So many attributes, put behind none, and the bytes behind them.
fn push_attributes_at<'a>(
    alloc: Global,
    pool: &Pool,
    place: Place,
    count: u16,
    bytes: &'a [u8],
    attributes: &mut Seq<Attribute>,
) -> Result<&'a [u8], AttributeFault>
    requires none { attributes.old ≡ [] }
    ensures { ReadsUnless fault.Memory (λ rest. (attributes.new, rest.now)) result (many_after (attribute_at pool.now place) [] count bytes.now) }
{
    let mut rest = bytes;
    for _ in 0..count {
        match attribute_at(alloc, pool, place, attributes.as_slice(), rest) {
            Ok((attribute, after)) => {
                let Ok(()) = attributes.push(attribute) else {
                    return Err(AttributeFault::Memory);
                };
                rest = after;
            }
            Err(fault) => return Err(fault),
        }
    }
    Ok(rest)
}

fn so_many_attributes_at<'a>(
    alloc: Global,
    pool: &Pool,
    place: Place,
    count: u16,
    bytes: &'a [u8],
) -> Result<(Seq<Attribute>, &'a [u8]), AttributeFault>
    ensures { ReadsUnless fault.Memory (λ x. (x.0, x.1.now)) result (many_after (attribute_at pool.now place) [] count bytes.now) }
{
    let mut attributes = Seq::new(alloc);
    match push_attributes_at(alloc, pool, place, count, bytes, &mut attributes) {
        Ok(rest) => Ok((attributes, rest)),
        Err(fault) => Err(fault),
    }
}

#[tactic(auto, unfolding(crate::specs::Attributes::attributes_at, crate::specs::Lists::listed))]
fn attributes_at<'a>(
    alloc: Global,
    pool: &Pool,
    place: Place,
    bytes: &'a [u8],
) -> Result<(Seq<Attribute>, &'a [u8]), AttributeFault>
    ensures { ReadsUnless fault.Memory (λ x. (x.0, x.1.now)) result (attributes_at pool.now place bytes.now) }
{
    match u16_at(AttributeFault::Cut, bytes) {
        Ok((count, rest)) => so_many_attributes_at(alloc, pool, place, count, rest),
        Err(fault) => Err(fault),
    }
}

/// The attributes of a list at the front of bytes, a count of two bytes and so many attributes (JVMS 4.7), and the
/// place behind them; more bytes may follow. In time linear in the bytes.
///
/// It answers `Ok` exactly for attributes that are spelled there. Else the fault is that of the first part that can't
/// be read: of an attribute whether its bytes are all there (Cut), then its name (BadIndex), then whether it stands
/// twice (Twice), then its content from the first byte on (Length, FrameTag, BadIndex).
pub fn read_all(
    alloc: Global,
    pool: &Pool,
    bytes: &[u8],
    place: Place,
) -> Result<(Seq<Attribute>, usize), AttributeFault>
    // What the definition reads is answered, or its fault.
    ensures read { ReadsUnless fault.Memory (λ x. (x.0, drop x.1 bytes.now)) result (attributes_at pool.now place bytes.now) }

    // What is read is spelled so.
    ensures found { IfOk result (λ x. IsAtFront attributes_text (AttributesFit pool.now place) bytes.now x.0 x.1) }
    ensures within { IfOk result (λ x. x.1 ≤ length bytes.now) }

    // It can be written.
    ensures sized { IfOk result (λ x. AttributesAreSized x.0) }

    // What is spelled so is read.
    ensures only { (attributes : List Attribute) (rest : List ℕ) → AttributesFit pool.now place attributes → bytes.now ≡ attributes_text attributes ++ rest → MatchResult result (λ x. (x.0 ≡ attributes) × (x.1 ≡ length (attributes_text attributes))) (λ e. e ≡ fault.Memory) }
{
    parts_are_spelled();
    attributes_are_spelled();
    match attributes_at(alloc, pool, place, bytes) {
        Ok((attributes, rest)) => {
            let end = bytes.len() - rest.len();
            Ok((attributes, end))
        }
        Err(fault) => Err(fault),
    }
}

/// A law, and no work: what was written is read again, whatever follows, and all that has a text can be written.
pub fn read_again()
    ensures again { IsReadAgain }
    ensures sized { FitIsSized }
{
    parts_are_spelled();
    attributes_are_spelled();
}
