//! Attributes of methods: exceptions, and qualifiers as annotations.

ghost use Rattle.std.specs.Prelude.{◌≡◌, ◌<◌, ◌++◌, ◌∷◌, [], length, IfErr, IfOk, OnOk};
ghost use Rattle.std.specs.List.{flat_map, list_any};
ghost use Rattle.kilim_class_attributes.specs.declared.parts.annotation.AnnotationPart.TheVariants.{Annotation, Annotations};
ghost use Rattle.kilim_class_pool.specs.declared.fault.AddFault.TheVariants as add;
ghost use Rattle.kilim_class_grammar.specs.Reader.{ReadsUnless};
ghost use Rattle.kilim_class_builder.specs.Adding.{text_added};
ghost use Rattle.kilim_class_builder.specs.Gathered.{appended};
ghost use Rattle.kilim_class_builder.specs.Members.{all_parts, annotation_of, annotations_added, exceptions_added, given_added, is_given, is_same, is_some_of, parameter_parts, parameters_added, qualifier_text, receiver_added, used_added};

use crate::adding::{add_ascii_class, add_text, one};
use kilim_class_attributes::parts::AnnotationPart;
use kilim_class_attributes::{Attribute, Info};
use kilim_class_pool::{AddFault, Pool};
use kilim_program::Qualifier;
use kilim_units::{NoMemory, Seq};
use std::alloc::{AllocError, Global};

// ---- exceptions

/// Adds the Exceptions of a method that pauses.
#[tactic(auto, unfolding(crate::specs::Members::exceptions_added))]
pub fn exceptions(
    alloc: Global,
    pool: &mut Pool,
    pausable: bool,
    all: &mut Seq<Attribute>,
) -> Result<(), AddFault>
    ensures { ReadsUnless add.Memory (λ done. (all.new, pool.new)) result (appended all.old (exceptions_added pausable pool.old)) }
{
    if !pausable {
        return Ok(());
    }
    let name = add_text(alloc, pool, b"Exceptions")?;
    let class = add_ascii_class(alloc, pool, b"kilim/Pausable")?;
    let classes = one(alloc, class)?;
    all.push(Attribute {
        attribute_name_index: name,
        info: Info::Exceptions(classes),
    })?;
    Ok(())
}

// ---- the receiver

fn add_qualifier(alloc: Global, pool: &mut Pool, q: Qualifier) -> Result<u16, AddFault>
    ensures { ReadsUnless add.Memory (λ index. (index, pool.new)) result (text_added (qualifier_text q) pool.old) }
{
    match q {
        Qualifier::Free => add_text(alloc, pool, b"Lkilim/Free;"),
        Qualifier::Cuttable => add_text(alloc, pool, b"Lkilim/Cuttable;"),
        Qualifier::Safe => add_text(alloc, pool, b"Lkilim/Safe;"),
    }
}

// A list of one annotation without values.
fn one_annotation(alloc: Global, ty: u16) -> Result<Seq<AnnotationPart>, AllocError>
    ensures { IfOk result (λ parts. parts ≡ Annotations 1 ∷ Annotation ty 0 ∷ []) }
{
    let mut parts = Seq::new(alloc);
    parts.push(AnnotationPart::Annotations(1))?;
    parts.push(AnnotationPart::Annotation(ty, 0))?;
    Ok(parts)
}

/// The annotations of a method: the qualifier of its receiver.
#[tactic(auto, unfolding(crate::specs::Members::receiver_added))]
pub fn receiver(
    alloc: Global,
    pool: &mut Pool,
    qualifier: Option<Qualifier>,
) -> Result<Option<Attribute>, AddFault>
    ensures { ReadsUnless add.Memory (λ a. (a, pool.new)) result (receiver_added qualifier pool.old) }
{
    let Some(q) = qualifier else {
        return Ok(None);
    };
    let name = add_text(alloc, pool, b"RuntimeInvisibleAnnotations")?;
    let ty = add_qualifier(alloc, pool, q)?;
    let parts = one_annotation(alloc, ty)?;
    Ok(Some(Attribute {
        attribute_name_index: name,
        info: Info::RuntimeInvisibleAnnotations(parts),
    }))
}

// ---- parameters

fn is_same(q: Qualifier, other: Qualifier) -> bool
    ensures { result ≡ is_same q other }
{
    match (q, other) {
        (Qualifier::Free, Qualifier::Free)
        | (Qualifier::Cuttable, Qualifier::Cuttable)
        | (Qualifier::Safe, Qualifier::Safe) => true,
        _ => false,
    }
}

fn is_some_of(q: Qualifier, other: &Option<Qualifier>) -> bool
    ensures { result ≡ is_some_of q other.now }
{
    match other {
        None => false,
        Some(found) => is_same(q, *found),
    }
}

fn is_used(qs: &[Option<Qualifier>], q: Qualifier) -> bool
    ensures { result ≡ list_any (is_some_of q) qs.now }
{
    for other in qs {
        if is_some_of(q, other) {
            return true;
        }
    }
    false
}

fn is_given(q: &Option<Qualifier>) -> bool
    ensures { result ≡ is_given q.now }
{
    q.is_some()
}

fn are_given(qs: &[Option<Qualifier>]) -> bool
    ensures { result ≡ list_any is_given qs.now }
{
    for q in qs {
        if is_given(q) {
            return true;
        }
    }
    false
}

fn add_used(
    alloc: Global,
    pool: &mut Pool,
    qs: &[Option<Qualifier>],
    q: Qualifier,
) -> Result<u16, AddFault>
    ensures { ReadsUnless add.Memory (λ index. (index, pool.new)) result (used_added qs.now q pool.old) }
{
    if is_used(qs, q) {
        add_qualifier(alloc, pool, q)
    } else {
        Ok(0)
    }
}

// The indices of the types of the three annotations.
#[derive(Clone, Copy)]
struct Types {
    free: u16,
    cuttable: u16,
    safe: u16,
}

fn type_of(types: Types, q: Qualifier) -> u16
    ensures { Annotations 1 ∷ Annotation result 0 ∷ [] ≡ annotation_of types.free types.cuttable types.safe q }
{
    match q {
        Qualifier::Free => types.free,
        Qualifier::Cuttable => types.cuttable,
        Qualifier::Safe => types.safe,
    }
}

fn push_parameter(
    parts: &mut Vec<AnnotationPart>,
    types: Types,
    q: &Option<Qualifier>,
) -> Result<(), NoMemory>
    ensures { OnOk result (parts.new.items ≡ parts.old.items ++ parameter_parts types.free types.cuttable types.safe q.now) }
{
    match q {
        None => parts.push(AnnotationPart::Annotations(0))?,
        Some(found) => {
            parts.push(AnnotationPart::Annotations(1))?;
            parts.push(AnnotationPart::Annotation(type_of(types, *found), 0))?;
        }
    }
    Ok(())
}

// The parts of all parameters. More than 255 have no text: they are answered as want of memory.
#[tactic(auto, unfolding(crate::specs::Members::all_parts))]
fn all_parts(
    alloc: Global,
    types: Types,
    qs: &[Option<Qualifier>],
) -> Result<Seq<AnnotationPart>, NoMemory>
    ensures { IfOk result (λ parts. parts ≡ all_parts types.free types.cuttable types.safe qs.now) }
{
    if qs.len() > 255 {
        return Err(NoMemory);
    }
    let mut parts = Vec::new(alloc);
    parts.push(AnnotationPart::Parameters(qs.len() as u8))?;
    for q in qs {
        push_parameter(&mut parts, types, q)?;
    }
    Ok(Seq::from_vec(parts))
}

fn parts_or_fault(
    alloc: Global,
    types: Types,
    qs: &[Option<Qualifier>],
) -> Result<Seq<AnnotationPart>, AddFault>
    ensures ok { IfOk result (λ parts. parts ≡ all_parts types.free types.cuttable types.safe qs.now) }
    ensures err { IfErr result (λ e. e ≡ add.Memory) }
{
    match all_parts(alloc, types, qs) {
        Ok(parts) => Ok(parts),
        Err(_) => Err(AddFault::Memory),
    }
}

// The annotations of all parameters.
#[tactic(auto, unfolding(crate::specs::Members::annotations_added))]
fn annotations(
    alloc: Global,
    pool: &mut Pool,
    qs: &[Option<Qualifier>],
) -> Result<Seq<AnnotationPart>, AddFault>
    ensures { ReadsUnless add.Memory (λ parts. (parts, pool.new)) result (annotations_added qs.now pool.old) }
{
    let free = add_used(alloc, pool, qs, Qualifier::Free)?;
    let cuttable = add_used(alloc, pool, qs, Qualifier::Cuttable)?;
    let safe = add_used(alloc, pool, qs, Qualifier::Safe)?;
    let types = Types {
        free,
        cuttable,
        safe,
    };
    parts_or_fault(alloc, types, qs)
}

#[tactic(auto, unfolding(crate::specs::Members::given_added))]
fn given(
    alloc: Global,
    pool: &mut Pool,
    qs: &[Option<Qualifier>],
    all: &mut Seq<Attribute>,
) -> Result<(), AddFault>
    ensures { ReadsUnless add.Memory (λ done. (all.new, pool.new)) result (appended all.old (given_added qs.now pool.old)) }
{
    let name = add_text(alloc, pool, b"RuntimeInvisibleParameterAnnotations")?;
    let parts = annotations(alloc, pool, qs)?;
    all.push(Attribute {
        attribute_name_index: name,
        info: Info::RuntimeInvisibleParameterAnnotations(parts),
    })?;
    Ok(())
}

/// Adds the annotations of a method's parameters: their qualifiers.
#[tactic(auto, unfolding(crate::specs::Members::parameters_added))]
pub fn parameters(
    alloc: Global,
    pool: &mut Pool,
    qs: &[Option<Qualifier>],
    all: &mut Seq<Attribute>,
) -> Result<(), AddFault>
    ensures { ReadsUnless add.Memory (λ done. (all.new, pool.new)) result (appended all.old (parameters_added qs.now pool.old)) }
{
    if are_given(qs) {
        given(alloc, pool, qs, all)
    } else {
        Ok(())
    }
}
