//! A tree on its own.

use kilim_run_state::Object;
use std::marker::Model;

/// A tree. Contracts see its objects in preorder, with places in this list as references.
#[derive(Drop)]
pub struct Tree {
    pub(crate) objects: Vec<Object>,
}

impl Model for Tree {
    ghost use Rattle.std.specs.Prelude.{List};
    ghost use Rattle.std.specs.Coded.{coded_list};
    ghost use Rattle.kilim_run_state.specs.declared.value.Object.{Object};
    ghost use Rattle.kilim_run_state.specs.contracts.value.Object as object;
    ghost use Rattle.kilim_run_trees.specs.Moved.{IsTreeList};

    ghost Value = { List Object };

    ghost coded = { coded_list object.the_row.coded };

    ghost view = { λ t. t.objects.items };

    ghost invariant = { λ t. IsTreeList t.objects.items };
}
