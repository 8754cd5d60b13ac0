//! Look-up in a tree of keys.

ghost use Rattle.std.specs.Prelude.{◌≡◌, ◌^◌, true, false};
ghost use Rattle.kilim_link_inherited.specs.Trees.{HasNone, HasSome, value_at, key_levels};

use crate::node::{Node, node_at};

/// How many digits a key has.
#[tactic(auto, unfolding(crate::specs::Trees::key_levels))]
pub fn key_levels() -> u32
    ensures levels { result ≡ key_levels }
    ensures fits { 2 ^ 32 ≡ 2 ^ key_levels }
{
    32
}

/// The value of a key in a tree with so many levels.
pub fn value_at(nodes: &[Node], levels: u32, tree: u32, key: u32) -> Option<u32>
    ensures { result ≡ value_at nodes.now levels tree key }
{
    match node_at(nodes, tree) {
        Some(Node::Leaf(rest, value)) => { if rest == key { Some(value) } else { None } }
        Some(Node::Branch(even, odd)) => {
            if levels == 0 {
                None
            } else if key % 2 == 0 {
                value_at(nodes, levels - 1, even, key / 2)
            } else {
                value_at(nodes, levels - 1, odd, key / 2)
            }
        }
        _ => None,
    }
}

/// Whether some number has a value in a tree with so many levels. Both trees of a branch are searched, so that it is
/// true of each list of nodes; as trees are made, the first one that isn't empty has a value.
pub fn has_any(nodes: &[Node], levels: u32, tree: u32) -> bool
    ensures some { result ≡ true → HasSome nodes.now levels tree }
    ensures none { result ≡ false → HasNone nodes.now levels tree }
{
    match node_at(nodes, tree) {
        Some(Node::Leaf(_, _)) => true,
        Some(Node::Branch(even, odd)) => {
            levels > 0 && (has_any(nodes, levels - 1, even) || has_any(nodes, levels - 1, odd))
        }
        _ => false,
    }
}
