//! The trees of classes, each from its superclass's.

ghost use Rattle.std.specs.Prelude.{◌≡◌, [], ◌≤◌, ◌<◌, ◌^◌, ℕ, true, None, Some, IfOk, OnOk, is_some, length, slice_set};
ghost use Rattle.kilim_program.specs.declared.names.ClassId.{ClassId};
ghost use Rattle.kilim_link_inherited.specs.Fronts.{IsFront, said_onto};
ghost use Rattle.kilim_link_inherited.specs.Inherited.{said_at, said_in};
ghost use Rattle.kilim_link_inherited.specs.Roots.{root_at, MadeBelow, Keeps, Sound};
ghost use Rattle.kilim_link_inherited.specs.Trees.{IsTable, Makes, Has, Fits, value_at, key_levels};

use crate::entry::Entry;
use crate::node::{Node, add};
use crate::order::{superclass_in, superclasses_first};
use crate::put::put_entries;
use kilim_program::ClassId;
use kilim_units::{NoMemory, Seq, no_room};
use std::alloc::Global;

/// The tree of a class, none where it isn't made.
pub fn root_of(roots: &[Option<u32>], class: ClassId) -> Option<u32>
    ensures { result ≡ root_at roots.now class }
{
    match roots.get(class.0 as usize) {
        Some(root) => *root,
        None => None,
    }
}

/// The entries of a class, none past the end.
pub fn entries_of(entries: &[Seq<Entry>], class: ClassId) -> &[Entry]
    ensures { (k : ℕ) → said_in result.now k ≡ said_at entries.now k class }
{
    match entries.get(class.0 as usize) {
        Some(entries) => entries.as_slice(),
        None => &[],
    }
}

/// The first classes of a line, and the tree that their entries are put onto.
#[derive(Drop)]
pub struct Front {
    pub classes: Seq<ClassId>,
    pub base: u32,
}

// The classes of the front of a class's line, put behind none, and the tree that their entries are put onto.
fn push_front(
    roots: &[Option<u32>],
    ups: &[Option<ClassId>],
    class: ClassId,
    classes: &mut Seq<ClassId>,
) -> Result<u32, NoMemory>
    requires none { classes.old ≡ [] }
    ensures { IfOk result (λ base. IsFront ups.now roots.now class classes.new base) }
{
    let mut at = class;
    let mut left = ups.len();
    while left > 0 {
        let Ok(()) = classes.push(at) else {
            return Err(NoMemory);
        };
        let Some(up) = superclass_in(ups, at) else {
            return Ok(0);
        };
        if up == class {
            return Ok(0);
        }
        if let Some(base) = root_of(roots, up) {
            return Ok(base);
        }
        at = up;
        left -= 1;
    }
    Ok(0)
}

/// The front of a class's line up to the first class above it whose tree is made. Where the line ends before that, comes
/// back to the class or has as many classes as there are, it says no more, and the front is put onto the empty tree.
pub fn front_of(
    alloc: Global,
    roots: &[Option<u32>],
    ups: &[Option<ClassId>],
    class: ClassId,
) -> Result<Front, NoMemory>
    ensures { IfOk result (λ front. IsFront ups.now roots.now class front.classes front.base) }
{
    let mut classes: Seq<ClassId> = Seq::new(alloc);
    match push_front(roots, ups, class, &mut classes) {
        Ok(base) => Ok(Front { classes, base }),
        Err(fault) => Err(fault),
    }
}

/// The tree where the entries of classes stand before what the tree has, those of the first class before the others.
pub fn put_classes(
    nodes: &mut Seq<Node>,
    tree: u32,
    entries: &[Seq<Entry>],
    classes: &[ClassId],
) -> Result<u32, NoMemory>
    requires table { IsTable nodes.old }
    requires inside { tree < length nodes.old }
    requires fits { Fits nodes.old key_levels tree }
    ensures { IfOk result (λ made. Makes nodes.old nodes.new made × Has nodes.new key_levels made (λ k. said_onto entries.now k classes.now (value_at nodes.old key_levels tree k)) × Fits nodes.new key_levels made) }
{
    let mut made = tree;
    let mut left = classes.len();
    while left > 0 {
        left -= 1;
        let own = entries_of(entries, classes[left]);
        let Ok(next) = put_entries(nodes, made, own) else {
            return Err(NoMemory);
        };
        made = next;
    }
    Ok(made)
}

/// No class's tree is made.
pub fn no_roots(alloc: Global, count: usize) -> Result<Seq<Option<u32>>, NoMemory>
    ensures none { IfOk result (λ roots. (c : ClassId) → root_at roots c ≡ None) }
    ensures count { IfOk result (λ roots. length roots ≡ count) }
{
    let mut roots: Seq<Option<u32>> = Seq::new(alloc);
    for _ in 0..count {
        let Ok(()) = roots.push(None) else {
            return Err(NoMemory);
        };
    }
    Ok(roots)
}

/// A class's tree is made. Past the end nothing changes.
pub fn set_root(roots: &mut Seq<Option<u32>>, class: ClassId, root: u32)
    ensures { roots.new ≡ slice_set roots.old class.0 (Some root) }
{
    let at = class.0 as usize;
    if at < roots.items.len() {
        roots.items[at] = Some(root);
    }
}

/// Makes a class's tree.
pub fn make_tree(
    alloc: Global,
    nodes: &mut Seq<Node>,
    roots: &mut Seq<Option<u32>>,
    ups: &[Option<ClassId>],
    entries: &[Seq<Entry>],
    class: ClassId,
) -> Result<(), NoMemory>
    requires said { length entries.now ≤ length ups.now }
    requires sound { Sound ups.now entries.now nodes.old roots.old }
    ensures sound { OnOk result (Sound ups.now entries.now nodes.new roots.new) }
    ensures kept { OnOk result (Keeps roots.old roots.new) }
    ensures made { OnOk result (class.0 < length roots.old → is_some (root_at roots.new class) ≡ true) }
{
    if root_of(roots.as_slice(), class).is_some() {
        return Ok(());
    }
    let Ok(front) = front_of(alloc, roots.as_slice(), ups, class) else {
        return Err(NoMemory);
    };
    let Ok(root) = put_classes(nodes, front.base, entries, front.classes.as_slice()) else {
        return Err(NoMemory);
    };
    set_root(roots, class, root);
    Ok(())
}

/// Makes the trees of classes, each behind its superclass's.
pub fn make_trees(
    alloc: Global,
    nodes: &mut Seq<Node>,
    roots: &mut Seq<Option<u32>>,
    ups: &[Option<ClassId>],
    entries: &[Seq<Entry>],
) -> Result<(), NoMemory>
    requires said { length entries.now ≤ length ups.now }
    requires sound { Sound ups.now entries.now nodes.old roots.old }
    ensures sound { OnOk result (Sound ups.now entries.now nodes.new roots.new) }
    ensures kept { OnOk result (Keeps roots.old roots.new) }
{
    let Ok(order) = superclasses_first(alloc, ups) else {
        return Err(NoMemory);
    };
    for class in order.as_slice() {
        let Ok(()) = make_tree(alloc, nodes, roots, ups, entries, *class) else {
            return Err(NoMemory);
        };
    }
    Ok(())
}

/// Makes the trees of all classes that aren't made.
pub fn make_all(
    alloc: Global,
    nodes: &mut Seq<Node>,
    roots: &mut Seq<Option<u32>>,
    ups: &[Option<ClassId>],
    entries: &[Seq<Entry>],
) -> Result<(), NoMemory>
    requires said { length entries.now ≤ length ups.now }
    requires sound { Sound ups.now entries.now nodes.old roots.old }
    ensures sound { OnOk result (Sound ups.now entries.now nodes.new roots.new) }
    ensures made { OnOk result (MadeBelow (length roots.old) roots.new) }
{
    for place in 0..roots.len() {
        let Ok(number) = u32::try_from(place) else {
            // room: 2^32 classes
            return Err(no_room());
        };
        let Ok(()) = make_tree(alloc, nodes, roots, ups, entries, ClassId(number)) else {
            return Err(NoMemory);
        };
    }
    Ok(())
}

/// Makes the trees of all classes, where there is no node and no tree.
pub fn make(
    alloc: Global,
    nodes: &mut Seq<Node>,
    roots: &mut Seq<Option<u32>>,
    ups: &[Option<ClassId>],
    entries: &[Seq<Entry>],
) -> Result<(), NoMemory>
    requires said { length entries.now ≤ length ups.now }
    requires nodes { nodes.old ≡ [] }
    requires none { (c : ClassId) → root_at roots.old c ≡ None }
    ensures sound { OnOk result (Sound ups.now entries.now nodes.new roots.new) }
    ensures made { OnOk result (MadeBelow (length roots.old) roots.new) }
{
    let Ok(_) = add(nodes, Node::Empty) else {
        return Err(NoMemory);
    };
    let Ok(()) = make_trees(alloc, nodes, roots, ups, entries) else {
        return Err(NoMemory);
    };
    make_all(alloc, nodes, roots, ups, entries)
}
