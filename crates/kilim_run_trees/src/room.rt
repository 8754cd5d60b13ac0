//! Room for a tree.

use kilim_run_state::Object;
use std::marker::Model;

/// Room for a tree. Contracts see its root and the number of its objects.
#[derive(Drop)]
pub struct Room {
    pub(crate) root: u32,
    pub(crate) count: usize,
    pub(crate) objects: Vec<Object>,
    pub(crate) stack: Vec<u32>,
}

impl Model for Room {
    ghost use Rattle.std.specs.Prelude.{◌≡◌, ◌≤◌, [], vec_capacity, vec_len};
    ghost use Rattle.std.specs.Coded.{code_by, coded×, coded_ℕ};
    ghost use Rattle.std.specs.Prelude.{ℕ};
    ghost use Rattle.std.proofs.Common.{refl};
    ghost use Rattle.kilim_run_trees.specs.Room.{RoomFor, HasRoom};

    ghost Value = { RoomFor };

    ghost view = { λ r. record { root = r.root; count = r.count } };

    ghost invariant = { λ r. HasRoom r.count r.objects.items (vec_capacity r.objects) r.stack.items (vec_capacity r.stack) };
}
