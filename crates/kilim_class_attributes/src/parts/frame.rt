//! The frames of a StackMapTable.

use kilim_units::Seq;

/// A verification type of a frame (JVMS 4.7.4). A long or a double stands for both of its places.
#[derive(Clone, Copy, PartialEq, Eq)]
pub enum VerificationType {
    /// Tag 0.
    Top,
    /// Tag 1.
    Integer,
    /// Tag 2.
    Float,
    /// Tag 3.
    Double,
    /// Tag 4.
    Long,
    /// Tag 5.
    Null,
    /// Tag 6.
    UninitializedThis,
    /// Tag 7: the index of a Class.
    Object(u16),
    /// Tag 8: the place of the `new` instruction that made it, in bytes from the begin of the code.
    Uninitialized(u16),
}

/// A frame in the form in which it is written (JVMS 4.7.4). An offset delta is in bytes of the code.
#[derive(Drop)]
pub enum Frame {
    /// Tags 0 to 63: the offset delta. The locals of the frame before, and an empty stack.
    Same(u8),
    /// Tags 64 to 127: the offset delta, 0 to 63, and the one item on the stack.
    SameLocals1StackItem(u8, VerificationType),
    /// Tag 247: the same, the offset delta in two bytes.
    SameLocals1StackItemExtended(u16, VerificationType),
    /// Tags 250, 249 and 248: how many of the last locals are absent, 1 to 3, and the offset delta.
    Chop(u8, u16),
    /// Tag 251: the offset delta. The locals of the frame before, and an empty stack.
    SameExtended(u16),
    /// Tags 252 to 254: the offset delta, and 1 to 3 more locals.
    Append(u16, Seq<VerificationType>),
    /// Tag 255: the offset delta, all locals, and the items on the stack, the lowest first.
    Full(u16, Seq<VerificationType>, Seq<VerificationType>),
}
