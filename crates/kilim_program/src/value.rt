//! Values.

use crate::names::BoxName;
use kilim_units::Units;

/// A value of a local, of the operand stack, of a field or of an element (JVMS 2.6). The types boolean,
/// byte, char, short and int are all `Int`. Strings and mailboxes are values and no objects.
#[derive(Clone, Drop)]
pub enum Value {
    Int(i32),
    Long(i64),
    Null,
    /// An object, by its place in a heap.
    Ref(u32),
    /// A string, by its contents.
    Text(Units),
    /// A mailbox, by its name.
    Box(BoxName),
    /// The fiber that woven code is handed.
    Fiber,
}
