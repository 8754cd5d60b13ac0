//! What each class inherits.

ghost use Rattle.std.specs.Prelude.{◌≡◌, ◌≤◌, true, false, IfOk, length};
ghost use Rattle.kilim_link_inherited.specs.Roots.{inherits, InheritsNone, InheritsSome, IsRight, OnlyKeys};

use crate::class_trees::{make, no_roots, root_of};
use crate::entry::Entry;
use crate::lookup::{has_any, key_levels, value_at};
use crate::node::Node;
use kilim_program::ClassId;
use kilim_units::{NoMemory, Seq};
use std::alloc::Global;
use std::marker::Model;

/// What each class inherits, of each key.
#[derive(Drop)]
pub struct Inherited {
    nodes: Seq<Node>,
    roots: Seq<Option<u32>>,
}

impl Model for Inherited {
    ghost use Rattle.kilim_link_inherited.specs.Roots.{OnlyKeys};
    ghost use Rattle.kilim_link_inherited.specs.Trees.{Forest};

    ghost Value = { Forest };

    ghost view = { λ it. record { nodes = it.nodes; roots = it.roots } };

    ghost invariant = { λ it. OnlyKeys (record { nodes = it.nodes; roots = it.roots }) };
}

impl Inherited {
    /// Of the superclass of each class and of what each class says. A class may be its own ancestor.
    pub fn new(
        alloc: Global,
        ups: &[Option<ClassId>],
        entries: &[Seq<Entry>],
    ) -> Result<Inherited, NoMemory>
        requires { length entries.now ≤ length ups.now }
        ensures { IfOk result (λ it. IsRight ups.now entries.now it) }
    {
        let mut roots = no_roots(alloc, ups.len())?;
        let mut nodes: Seq<Node> = Seq::new(alloc);
        match make(alloc, &mut nodes, &mut roots, ups, entries) {
            Ok(()) => Ok(Inherited { nodes, roots }),
            Err(fault) => Err(fault),
        }
    }

    /// What a class inherits of a key: what the first class of its line says that says something; none where that says
    /// that there is none, where no class says anything, and past the end. Of a number that is no key, being 2^32 or more,
    /// no class inherits anything.
    #[tactic(auto, unfolding(crate::specs::Roots::inherits))]
    pub fn find(&self, class: ClassId, key: u32) -> Option<u32>
        ensures found { result ≡ inherits self.now class key }
        ensures keys { OnlyKeys self.now }
    {
        match root_of(self.roots.as_slice(), class) {
            Some(root) => value_at(self.nodes.as_slice(), key_levels(), root, key),
            None => None,
        }
    }

    /// Whether a class inherits no value of any number; where it does, then one of some key.
    #[tactic(auto, unfolding(crate::specs::Roots::inherits))]
    pub fn has_none(&self, class: ClassId) -> bool
        ensures none { result ≡ true → InheritsNone self.now class }
        ensures some { result ≡ false → InheritsSome self.now class }
    {
        match root_of(self.roots.as_slice(), class) {
            Some(root) => !has_any(self.nodes.as_slice(), key_levels(), root),
            None => true,
        }
    }
}
