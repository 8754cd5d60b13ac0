//! What a woven class file needs of its constant pool.

use kilim_units::Units;

/// An entry that a woven class file needs in its constant pool (JVMS 4.4), with those that it refers to.
#[derive(Drop)]
pub enum Need {
    /// A text.
    AText(Units),
    /// A class, or an array by its descriptor (JVMS 4.4.1), by its name.
    AClass(Units),
    /// A method, by the name of its class, its name and its descriptor.
    AMethod(Units, Units, Units),
    /// A method by the indices of its class and its name as the file has them, and another descriptor than the file's.
    ACall(u16, u16, Units),
}
