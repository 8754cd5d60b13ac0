//! The structures of a class file.

use kilim_class_attributes::Attribute;
use kilim_class_pool::Pool;
use kilim_units::Seq;

/// A field (JVMS 4.5) or a method (JVMS 4.6): the two structures have the same items.
#[derive(Drop)]
pub struct MemberInfo {
    pub access_flags: u16,
    /// The index of the name, a Utf8.
    pub name_index: u16,
    /// The index of the descriptor, a Utf8.
    pub descriptor_index: u16,
    pub attributes: Seq<Attribute>,
}

/// A class file (JVMS 4.1), without the magic number and the counts, which its lists tell.
#[derive(Drop)]
pub struct ClassFile {
    /// 0 in each file that is accepted.
    pub minor_version: u16,
    /// 52 in each file that is accepted.
    pub major_version: u16,
    pub constant_pool: Pool,
    pub access_flags: u16,
    /// The index of a Class.
    pub this_class: u16,
    /// The index of a Class.
    pub super_class: u16,
    /// The indices of classes.
    pub interfaces: Seq<u16>,
    pub fields: Seq<MemberInfo>,
    pub methods: Seq<MemberInfo>,
    pub attributes: Seq<Attribute>,
}
