//! The rows of debug tables.

/// A row of a LineNumberTable (JVMS 4.7.12).
#[derive(Clone, Copy)]
pub struct LineNumber {
    /// The place of the first instruction of the line.
    pub start_pc: u16,
    pub line_number: u16,
}

/// A row of a LocalVariableTable (JVMS 4.7.13).
#[derive(Clone, Copy)]
pub struct LocalVariable {
    /// The first place at which the variable has a value.
    pub start_pc: u16,
    /// For how many bytes of code it has.
    pub length: u16,
    /// The index of the name, a Utf8.
    pub name_index: u16,
    /// The index of the descriptor, a Utf8.
    pub descriptor_index: u16,
    /// The slot of the variable, the first one of two.
    pub index: u16,
}

/// Why bytes are no table.
#[derive(Clone, Copy)]
pub enum TableFault {
    /// They end inside the table, or some are left behind it.
    NoTable,
    /// Want of memory.
    Memory,
}
