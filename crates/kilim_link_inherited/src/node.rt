//! The nodes of trees of keys, each tree by the place of its topmost node.

ghost use Rattle.std.specs.Prelude.{◌≡◌, ◌++◌, ◌∷◌, [], length, slice_get, IfOk};

use kilim_units::{NoMemory, Seq, no_room};

/// A node of a tree of keys. A key goes down by its binary digits, the lowest first.
#[derive(Clone, Copy)]
pub enum Node {
    /// No key has a value.
    Empty,
    /// One key, of which this is left here, and its value.
    Leaf(u32, u32),
    /// The places of the trees of the even keys and of the odd keys, by what is left of a key behind its lowest digit.
    Branch(u32, u32),
}

/// One more node, and its place. Where places would not fit, it is want of memory.
pub fn add(nodes: &mut Seq<Node>, node: Node) -> Result<u32, NoMemory>
    ensures { IfOk result (λ at. (nodes.new ≡ nodes.old ++ node ∷ []) × (at ≡ length nodes.old)) }
{
    let at = nodes.len();
    if at >= 0xffff_ffff {
        // room: 2^32 nodes of maps, some 25 GB
        return Err(no_room());
    }
    nodes.push(node)?;
    Ok(at as u32)
}

/// The topmost node of a tree, none past the end.
pub fn node_at(nodes: &[Node], tree: u32) -> Option<Node>
    ensures { result ≡ slice_get nodes.now tree }
{
    nodes.get(tree as usize).copied()
}
