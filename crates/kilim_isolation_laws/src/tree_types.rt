//! Objects that fit are as their classes declare, and the trees of them are those that the declared types allow: laws about
//! definitions, which no program calls to do work.

ghost use Rattle.kilim_isolation_laws.specs.tree_types.Laws.{ObjectsAreFormed, TreesAreAllowed};

/// A law, and no work: each object of a heap that fits has just the fields that its class declares, or is an array.
pub fn objects_are_formed()
    ensures { ObjectsAreFormed }
{}

/// A law, and no work: the shape of a tree in a heap that fits is one that the program's declared types allow.
pub fn trees_are_allowed()
    ensures { TreesAreAllowed }
{}
