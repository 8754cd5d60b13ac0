//! The class of nodes.

ghost use Rattle.std.specs.Prelude.{◌≡◌, ◌∷◌, ◌++◌, [], IfOk, OnOk};
ghost use Rattle.kilim_demo.specs.Node.{free_second, node_code, node_file, node_pool};
ghost use Rattle.kilim_demo.specs.Parts.{class_file, code_attribute, field, method};

use crate::assembler::*;
use crate::parts::{Sizes, empty_file, push_code_attribute, push_field, push_method};
use crate::pool::{Constant, add_all};
use kilim_class_attributes::parts::AnnotationPart;
use kilim_class_attributes::{Attribute, Info};
use kilim_class_file::{ClassFile, MemberInfo};
use kilim_class_pool::Pool;
use kilim_units::{NoMemory, Seq};
use std::alloc::Global;

// The entries of the class of nodes.
const ENTRIES: &[Constant] = &[
    Constant::Text(b"D/Node"),
    Constant::Class(1),
    Constant::Text(b"java/lang/Object"),
    Constant::Class(3),
    Constant::Text(b"kilim/Message"),
    Constant::Class(5),
    Constant::Text(b"v"),
    Constant::Text(b"I"),
    Constant::Text(b"next"),
    Constant::Text(b"LD/Node;"),
    Constant::Text(b"<init>"),
    Constant::Text(b"(ILD/Node;)V"),
    Constant::Text(b"()V"),
    Constant::NameAndType(11, 13),
    Constant::Method(4, 14),
    Constant::NameAndType(7, 8),
    Constant::Field(2, 16),
    Constant::NameAndType(9, 10),
    Constant::Field(2, 18),
    Constant::Text(b"Code"),
    Constant::Text(b"RuntimeVisibleParameterAnnotations"),
    Constant::Text(b"Lkilim/Free;"),
];

// The code of the constructor.
const CONSTRUCTOR: &[Op] = &[
    Op::Plain(ALOAD_0),
    Op::Pair(INVOKESPECIAL, 15),
    Op::Plain(ALOAD_0),
    Op::Plain(ILOAD_1),
    Op::Pair(PUTFIELD, 17),
    Op::Plain(ALOAD_0),
    Op::Plain(ALOAD_2),
    Op::Pair(PUTFIELD, 19),
    Op::Plain(RETURN),
];

#[tactic(auto, unfolding(crate::specs::Node::node_pool))]
fn add_entries(alloc: Global, pool: &mut Pool) -> Result<(), NoMemory>
    ensures { OnOk result (pool.new ≡ pool.old ++ node_pool) }
{
    add_all(alloc, pool, ENTRIES)
}

#[tactic(auto, unfolding(crate::specs::Node::node_code))]
fn node_code(alloc: Global) -> Result<Vec<u8>, NoMemory>
    ensures { IfOk result (λ code. code.items ≡ node_code) }
{
    code_of(alloc, CONSTRUCTOR)
}

fn push_free_second(alloc: Global, attributes: &mut Seq<Attribute>) -> Result<(), NoMemory>
    ensures { OnOk result (attributes.new ≡ attributes.old ++ free_second ∷ []) }
{
    let parts = [
        AnnotationPart::Parameters(2),
        AnnotationPart::Annotations(0),
        AnnotationPart::Annotations(1),
        AnnotationPart::Annotation(22, 0),
    ];
    let Ok(parts) = Vec::from_slice(alloc, &parts) else {
        return Err(NoMemory);
    };
    let attribute = Attribute {
        attribute_name_index: 21,
        info: Info::RuntimeVisibleParameterAnnotations(Seq::from_vec(parts)),
    };
    match attributes.push(attribute) {
        Ok(()) => Ok(()),
        Err(_) => Err(NoMemory),
    }
}

fn push_attributes(alloc: Global, attributes: &mut Seq<Attribute>) -> Result<(), NoMemory>
    ensures { OnOk result (attributes.new ≡ attributes.old ++ code_attribute 20 2 3 node_code [] ∷ free_second ∷ []) }
{
    let sizes = Sizes {
        stack: 2,
        locals: 3,
    };
    let Ok(code) = node_code(alloc) else {
        return Err(NoMemory);
    };
    let Ok(()) = push_code_attribute(alloc, attributes, 20, sizes, code, Seq::new(alloc)) else {
        return Err(NoMemory);
    };
    push_free_second(alloc, attributes)
}

fn push_constructor(alloc: Global, methods: &mut Seq<MemberInfo>) -> Result<(), NoMemory>
    ensures { OnOk result (methods.new ≡ methods.old ++ method 0 11 12 (code_attribute 20 2 3 node_code [] ∷ free_second ∷ []) ∷ []) }
{
    let mut attributes = Seq::new(alloc);
    let Ok(()) = push_attributes(alloc, &mut attributes) else {
        return Err(NoMemory);
    };
    push_method(methods, 0, 11, 12, attributes)
}

#[tactic(auto, unfolding(crate::specs::Node::node_file))]
fn fill(alloc: Global, file: &mut ClassFile) -> Result<(), NoMemory>
    requires { file.old ≡ class_file [] [] [] [] }
    ensures { OnOk result (file.new ≡ node_file) }
{
    let Ok(()) = add_entries(alloc, &mut file.constant_pool) else {
        return Err(NoMemory);
    };
    let Ok(()) = file.interfaces.push(6) else {
        return Err(NoMemory);
    };
    let Ok(()) = push_field(alloc, &mut file.fields, 7, 8) else {
        return Err(NoMemory);
    };
    let Ok(()) = push_field(alloc, &mut file.fields, 9, 10) else {
        return Err(NoMemory);
    };
    push_constructor(alloc, &mut file.methods)
}

/// The class file of nodes.
pub fn node_file(alloc: Global) -> Result<ClassFile, NoMemory>
    ensures { IfOk result (λ file. file ≡ node_file) }
{
    let mut file = empty_file(alloc);
    match fill(alloc, &mut file) {
        Ok(()) => Ok(file),
        Err(refused) => {
            drop(file);
            Err(refused)
        }
    }
}
