//! Parts of class files.

ghost use Rattle.std.specs.Prelude.{◌≡◌, ◌∷◌, ◌++◌, [], IfOk, OnOk};
ghost use Rattle.kilim_demo.specs.Parts.{class_file, code_attribute, exceptions_attribute, field, frames_attribute, method};

use kilim_class_attributes::parts::Frame;
use kilim_class_attributes::{Attribute, Code, CodeAttribute, CodeInfo, Info};
use kilim_class_file::{ClassFile, MemberInfo};
use kilim_class_pool::Pool;
use kilim_units::{NoMemory, Seq};
use std::alloc::Global;

/// ACC_SUPER (JVMS 4.1).
const SUPER: u16 = 0x20;

/// ACC_PUBLIC (JVMS 4.6).
pub const PUBLIC: u16 = 1;

/// Adds a field that is neither private nor static behind the others, by the indices of its name and its descriptor.
pub fn push_field(
    alloc: Global,
    fields: &mut Seq<MemberInfo>,
    name: u16,
    descriptor: u16,
) -> Result<(), NoMemory>
    ensures { OnOk result (fields.new ≡ fields.old ++ field name descriptor ∷ []) }
{
    fields.push(MemberInfo {
        access_flags: 0,
        name_index: name,
        descriptor_index: descriptor,
        attributes: Seq::new(alloc),
    })?;
    Ok(())
}

/// Adds a method behind the others, by the indices of its name and its descriptor.
pub fn push_method(
    methods: &mut Seq<MemberInfo>,
    flags: u16,
    name: u16,
    descriptor: u16,
    attributes: Seq<Attribute>,
) -> Result<(), NoMemory>
    ensures { OnOk result (methods.new ≡ methods.old ++ method flags name descriptor attributes ∷ []) }
{
    methods.push(MemberInfo {
        access_flags: flags,
        name_index: name,
        descriptor_index: descriptor,
        attributes,
    })?;
    Ok(())
}

/// The sizes of a method's stack and locals.
#[derive(Clone, Copy)]
pub struct Sizes {
    pub stack: u16,
    pub locals: u16,
}

/// Adds a Code attribute without handlers behind the others, with these attributes inside.
pub fn push_code_attribute(
    alloc: Global,
    attributes: &mut Seq<Attribute>,
    name: u16,
    sizes: Sizes,
    code: Vec<u8>,
    inside: Seq<CodeAttribute>,
) -> Result<(), NoMemory>
    ensures { OnOk result (attributes.new ≡ attributes.old ++ code_attribute name sizes.stack sizes.locals code.items inside ∷ []) }
{
    attributes.push(Attribute {
        attribute_name_index: name,
        info: Info::Code(Code {
            max_stack: sizes.stack,
            max_locals: sizes.locals,
            code: Seq::from_vec(code),
            exception_table: Seq::new(alloc),
            attributes: inside,
        }),
    })?;
    Ok(())
}

/// A StackMapTable attribute, alone.
pub fn frames_inside(
    alloc: Global,
    name: u16,
    frames: Seq<Frame>,
) -> Result<Seq<CodeAttribute>, NoMemory>
    ensures { IfOk result (λ inside. inside ≡ frames_attribute name frames ∷ []) }
{
    one(
        alloc,
        CodeAttribute {
            attribute_name_index: name,
            info: CodeInfo::StackMapTable(frames),
        },
    )
}

/// An Exceptions attribute with one class, behind other attributes.
pub fn push_exceptions(
    alloc: Global,
    attributes: &mut Seq<Attribute>,
    name: u16,
    class: u16,
) -> Result<(), NoMemory>
    ensures { OnOk result (attributes.new ≡ attributes.old ++ exceptions_attribute name class ∷ []) }
{
    let Ok(classes) = one(alloc, class) else {
        return Err(NoMemory);
    };
    let attribute = Attribute {
        attribute_name_index: name,
        info: Info::Exceptions(classes),
    };
    match attributes.push(attribute) {
        Ok(()) => Ok(()),
        Err(_) => Err(NoMemory),
    }
}

/// A class file without entries and members, which names its own class by the index 2 and the superclass by 4.
pub fn empty_file(alloc: Global) -> ClassFile
    ensures { result ≡ class_file [] [] [] [] }
{
    ClassFile {
        minor_version: 0,
        major_version: 52,
        constant_pool: Pool::new(alloc),
        access_flags: SUPER,
        this_class: 2,
        super_class: 4,
        interfaces: Seq::new(alloc),
        fields: Seq::new(alloc),
        methods: Seq::new(alloc),
        attributes: Seq::new(alloc),
    }
}

/// A list of one.
pub fn one<T: Drop>(alloc: Global, first: T) -> Result<Seq<T>, NoMemory>
    ensures { IfOk result (λ xs. xs ≡ first ∷ []) }
{
    let mut items = Seq::new(alloc);
    let Ok(()) = items.push(first) else {
        return Err(NoMemory);
    };
    Ok(items)
}
