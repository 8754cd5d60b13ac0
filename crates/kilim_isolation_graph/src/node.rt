//! The nodes of a shape graph.

ghost use Rattle.std.specs.Prelude.{◌≡◌};
ghost use Rattle.kilim_isolation_graph.specs.Nodes as list;

use kilim_program::FieldId;

/// What a method may do with the object that a node stands for.
#[derive(Clone, Copy, PartialEq, Eq)]
pub enum Standing {
    /// It is the known root of a whole tree: nothing holds it.
    Root,
    /// Something may hold it. It may be changed, and subtrees may be cut from it.
    Inner,
    /// It may be neither changed nor handed on. Its value fields may be written.
    Safe,
    /// It was given away, or may have moved.
    Gone,
}

impl Standing {
    /// Whether it is the known root of a whole tree.
    pub fn is_root(self) -> bool
        ensures { result ≡ list.is_root self }
    {
        match self {
            Standing::Root => true,
            Standing::Inner | Standing::Safe | Standing::Gone => false,
        }
    }

    /// Whether it may be neither changed nor handed on.
    pub fn is_safe(self) -> bool
        ensures { result ≡ list.is_safe self }
    {
        match self {
            Standing::Safe => true,
            Standing::Root | Standing::Inner | Standing::Gone => false,
        }
    }

    /// Whether it was given away, or may have moved.
    pub fn is_gone(self) -> bool
        ensures { result ≡ list.is_gone self }
    {
        match self {
            Standing::Gone => true,
            Standing::Root | Standing::Inner | Standing::Safe => false,
        }
    }
}

/// Where an object hangs on its parent.
#[derive(Clone, Copy, PartialEq, Eq)]
pub enum Label {
    Field(FieldId),
    /// An element of an array, at any place.
    Element,
}

/// What is known of an object, or of null, for which it stands.
#[derive(Clone, Copy, PartialEq, Eq)]
pub struct Node {
    /// The tree, or part of a tree, to which it belongs. Nodes of different regions have no object in common.
    pub region: usize,
    pub standing: Standing,
    /// Whether its region began with it.
    pub head: bool,
    /// The node of the object that holds it, where that is known, and where it hangs there.
    pub parent: Option<(usize, Label)>,
}

#[tactic(auto, using(crate::proofs::Lists::node_is, crate::proofs::Lists::node_past))]
/// The node of a number; a number that is no node's counts as one of a gone node. Takes no memory.
pub fn node_at(nodes: &[Node], at: usize) -> Node
    ensures { result ≡ list.node_at nodes.now at }
{
    if at < nodes.len() {
        nodes[at]
    } else {
        Node {
            region: 0,
            standing: Standing::Gone,
            head: false,
            parent: None,
        }
    }
}
