//! Places in a program's lists, and the names of mailboxes.

/// A class, as its place in the program's list of classes.
#[derive(Clone, Copy, PartialEq, Eq)]
pub struct ClassId(pub u32);

/// A method, as its place in the program's list of methods.
#[derive(Clone, Copy, PartialEq, Eq)]
pub struct MethodId(pub u32);

/// A field, as its place in the program's list of fields.
#[derive(Clone, Copy, PartialEq, Eq)]
pub struct FieldId(pub u32);

/// A mailbox, by the task that made it and its number among that task's mailboxes, from 0.
#[derive(Clone, Copy, PartialEq, Eq)]
pub struct BoxName {
    /// The number of the task that made it.
    pub task: u32,
    /// Its number among that task's mailboxes.
    pub number: u32,
}
