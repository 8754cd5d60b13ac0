//! The entries of a constant pool.

ghost use Rattle.std.specs.Prelude.{◌≡◌, ◌↔◌, IsTrue};

use kilim_units::Units;

/// An entry of a constant pool (JVMS 4.4), with indices of other entries as they stand in the file. Float and Double
/// constants are their bits.
#[derive(Drop)]
pub enum Entry {
    /// Tag 1, a text (JVMS 4.4.7).
    Utf8(Units),
    /// Tag 3 (JVMS 4.4.4).
    Integer(i32),
    /// Tag 4: the bits of a float (JVMS 4.4.4).
    Float(u32),
    /// Tag 5; takes two indices (JVMS 4.4.5).
    Long(i64),
    /// Tag 6: the bits of a double; takes two indices (JVMS 4.4.5).
    Double(u64),
    /// Tag 7: a name, which is a Utf8 (JVMS 4.4.1).
    Class(u16),
    /// Tag 8: a Utf8 (JVMS 4.4.3).
    String(u16),
    /// Tag 9: a Class and a NameAndType (JVMS 4.4.2).
    Fieldref(u16, u16),
    /// Tag 10: a Class and a NameAndType (JVMS 4.4.2).
    Methodref(u16, u16),
    /// Tag 11: a Class and a NameAndType (JVMS 4.4.2).
    InterfaceMethodref(u16, u16),
    /// Tag 12: a name and a descriptor, each a Utf8 (JVMS 4.4.6).
    NameAndType(u16, u16),
    /// Tag 15: a kind from 1 to 9, and a member (JVMS 4.4.8).
    MethodHandle(u8, u16),
    /// Tag 16: a descriptor, which is a Utf8 (JVMS 4.4.9).
    MethodType(u16),
    /// Tag 18: a place in the table of bootstrap methods, which the pool doesn't tell, and a NameAndType
    /// (JVMS 4.4.10).
    InvokeDynamic(u16, u16),
}

impl Entry {
    /// Whether two entries are equal.
    pub fn is_same(&self, other: &Entry) -> bool
        ensures { IsTrue result ↔ (self.now ≡ other.now) }
    {
        match (self, other) {
            (Entry::Utf8(a), Entry::Utf8(b)) => a.is_same(b),
            (Entry::Integer(a), Entry::Integer(b)) => a == b,
            (Entry::Float(a), Entry::Float(b)) => a == b,
            (Entry::Long(a), Entry::Long(b)) => a == b,
            (Entry::Double(a), Entry::Double(b)) => a == b,
            (Entry::Class(a), Entry::Class(b))
            | (Entry::String(a), Entry::String(b))
            | (Entry::MethodType(a), Entry::MethodType(b)) => a == b,
            (Entry::Fieldref(a, c), Entry::Fieldref(b, d))
            | (Entry::Methodref(a, c), Entry::Methodref(b, d))
            | (Entry::InterfaceMethodref(a, c), Entry::InterfaceMethodref(b, d))
            | (Entry::NameAndType(a, c), Entry::NameAndType(b, d))
            | (Entry::InvokeDynamic(a, c), Entry::InvokeDynamic(b, d)) => a == b && c == d,
            (Entry::MethodHandle(a, c), Entry::MethodHandle(b, d)) => a == b && c == d,
            _ => false,
        }
    }
}
