//! What an instruction makes of a graph, and which rules it breaks.

ghost use Rattle.std.specs.Prelude.{◌≡◌};
ghost use Rattle.kilim_isolation_rules.specs.Marks as spec;

use kilim_isolation_graph::Graph;
use kilim_program::{Qualifier, Ty, VType};

/// What one instruction does to a graph: a mark for each rule that it breaks, and the graph that it leaves. That the stack
/// it leaves names nothing that is gone is asked of the graph.
#[derive(Drop)]
pub struct Deed {
    /// A tree that isn't a known root is put, started, stored, returned or passed as free.
    pub not_free: bool,
    /// A local is read whose object was given away or may have moved.
    pub gone: bool,
    /// A tree field or an element of a safe object is stored.
    pub safe_changed: bool,
    /// A root is stored into its own tree.
    pub cycle: bool,
    /// A call gets two arguments of one region, one of them free or cuttable.
    pub shared: bool,
    /// A tree becomes private, or a private object a tree.
    pub mixed: bool,
    /// A safe object is passed as cuttable.
    pub not_cuttable: bool,
    pub graph: Graph,
}

/// A mark for each rule that an instruction breaks, as a deed has them.
#[derive(Clone, Copy)]
pub struct Broken {
    pub not_free: bool,
    pub gone: bool,
    pub safe_changed: bool,
    pub cycle: bool,
    pub shared: bool,
    pub mixed: bool,
    pub not_cuttable: bool,
}

/// No rule is broken.
pub fn none_broken() -> Broken
    ensures { result ≡ spec.none_broken }
{
    Broken {
        not_free: false,
        gone: false,
        safe_changed: false,
        cycle: false,
        shared: false,
        mixed: false,
        not_cuttable: false,
    }
}

/// The deed that leaves a graph and breaks these rules.
pub fn as_deed(broken: Broken, graph: Graph) -> Deed
    ensures { result ≡ spec.marked broken graph }
{
    Deed {
        not_free: broken.not_free,
        gone: broken.gone,
        safe_changed: broken.safe_changed,
        cycle: broken.cycle,
        shared: broken.shared,
        mixed: broken.mixed,
        not_cuttable: broken.not_cuttable,
        graph,
    }
}

/// An argument of a call; the receiver is one.
#[derive(Clone, Copy)]
pub struct Passed {
    /// The node that it names.
    pub name: Option<usize>,
    /// Its verified type.
    pub ty: VType,
    /// The parameter's type.
    pub into: Ty,
    pub qualifier: Qualifier,
    /// Whether it is the receiver of a constructor.
    pub is_begun: bool,
}
