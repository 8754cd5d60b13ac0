//! Trees of keys with one more key, or one less: the old tree stays.

ghost use Rattle.std.specs.Prelude.{◌≡◌, ◌<◌, ◌^◌, true, length, IfOk};
ghost use Rattle.kilim_link_inherited.specs.Inherited.{said_in, said_or};
ghost use Rattle.kilim_link_inherited.specs.Trees.{IsTable, Makes, Has, Fits, HasOnly, IsAlone, Joins, Opens, changed_at, value_at, key_levels};

use crate::entry::Entry;
use crate::lookup::{key_levels, value_at};
use crate::node::{Node, add, node_at};
use kilim_units::{NoMemory, Seq};

/// Whether no other key than this one has a value, as is seen at the topmost node.
pub fn is_alone(nodes: &[Node], tree: u32, key: u32) -> bool
    ensures { result ≡ true → IsAlone nodes.now tree key }
{
    match node_at(nodes, tree) {
        Some(Node::Leaf(rest, _)) => rest == key,
        Some(Node::Branch(_, _)) => false,
        _ => true,
    }
}

/// The tree of one key, the empty one where there is no value.
pub fn leaf(nodes: &mut Seq<Node>, key: u32, value: Option<u32>) -> Result<u32, NoMemory>
    requires { IsTable nodes.old }
    ensures { IfOk result (λ made. Makes nodes.old nodes.new made × HasOnly nodes.new made key value) }
{
    match value {
        Some(value) => add(nodes, Node::Leaf(key, value)),
        None => Ok(0),
    }
}

/// The tree of two trees.
pub fn branch(nodes: &mut Seq<Node>, even: u32, odd: u32) -> Result<u32, NoMemory>
    requires table { IsTable nodes.old }
    requires even { even < length nodes.old }
    requires odd { odd < length nodes.old }
    ensures { IfOk result (λ made. Makes nodes.old nodes.new made × Joins nodes.old nodes.new even odd made) }
{
    if even == 0 && odd == 0 {
        // The empty tree has no second node.
        Ok(0)
    } else {
        add(nodes, Node::Branch(even, odd))
    }
}

/// The trees of the even keys and of the odd keys of a tree.
pub fn opened(nodes: &mut Seq<Node>, tree: u32) -> Result<(u32, u32), NoMemory>
    requires { IsTable nodes.old }
    ensures { IfOk result (λ made. Opens nodes.old nodes.new tree made.0 made.1) }
{
    match node_at(nodes.as_slice(), tree) {
        Some(Node::Branch(even, odd)) => Ok((even, odd)),
        Some(Node::Leaf(rest, value)) => {
            let Ok(below) = add(nodes, Node::Leaf(rest / 2, value)) else {
                return Err(NoMemory);
            };
            Ok(if rest % 2 == 0 {
                (below, 0)
            } else {
                (0, below)
            })
        }
        Some(Node::Empty) => Ok((0, 0)),
        None => Ok((0, 0)),
    }
}

/// A tree with so many levels, where a key has this value, and each other one the value that it had.
pub fn put(
    nodes: &mut Seq<Node>,
    levels: u32,
    tree: u32,
    key: u32,
    value: Option<u32>,
) -> Result<u32, NoMemory>
    requires table { IsTable nodes.old }
    requires fits { Fits nodes.old levels tree }
    requires key { key < 2 ^ levels }
    ensures { IfOk result (λ made. Makes nodes.old nodes.new made × Has nodes.new levels made (changed_at key value (value_at nodes.old levels tree))) }
{
    if levels == 0 || is_alone(nodes.as_slice(), tree, key) {
        return leaf(nodes, key, value);
    }
    let Ok((even, odd)) = opened(nodes, tree) else {
        return Err(NoMemory);
    };
    if key % 2 == 0 {
        let Ok(even) = put(nodes, levels - 1, even, key / 2, value) else {
            return Err(NoMemory);
        };
        branch(nodes, even, odd)
    } else {
        let Ok(odd) = put(nodes, levels - 1, odd, key / 2, value) else {
            return Err(NoMemory);
        };
        branch(nodes, even, odd)
    }
}

/// The tree where one entry stands before what the tree has.
pub fn put_entry(nodes: &mut Seq<Node>, tree: u32, entry: Entry) -> Result<u32, NoMemory>
    requires table { IsTable nodes.old }
    requires inside { tree < length nodes.old }
    requires fits { Fits nodes.old key_levels tree }
    ensures { IfOk result (λ made. Makes nodes.old nodes.new made × Has nodes.new key_levels made (changed_at entry.key entry.value (value_at nodes.old key_levels tree)) × Fits nodes.new key_levels made) }
{
    if value_at(nodes.as_slice(), key_levels(), tree, entry.key) == entry.value {
        // Nothing changes, and nothing is made.
        return Ok(tree);
    }
    put(nodes, key_levels(), tree, entry.key, entry.value)
}

/// The tree where entries stand before what the tree has, the first of a key before the others.
pub fn put_entries(nodes: &mut Seq<Node>, tree: u32, entries: &[Entry]) -> Result<u32, NoMemory>
    requires table { IsTable nodes.old }
    requires inside { tree < length nodes.old }
    requires fits { Fits nodes.old key_levels tree }
    ensures { IfOk result (λ made. Makes nodes.old nodes.new made × Has nodes.new key_levels made (λ k. said_or (said_in entries.now k) (value_at nodes.old key_levels tree k)) × Fits nodes.new key_levels made) }
{
    let mut made = tree;
    let mut left = entries.len();
    while left > 0 {
        left -= 1;
        let Ok(next) = put_entry(nodes, made, entries[left]) else {
            return Err(NoMemory);
        };
        made = next;
    }
    Ok(made)
}
