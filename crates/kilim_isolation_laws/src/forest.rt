//! How the nodes of shape graphs stand for objects of a heap: the heap of trees is one forest, and what the isolation rules do to a
//! graph keeps the relation between graphs and heap, for all frames of a thread at once. Laws, and no work.

ghost use Rattle.kilim_isolation_laws.specs.forest.Laws.{CallKeeps, CanonicalKeeps, MetOnce, PutKeeps, StoreKeeps};

/// Laws, and no work: a store, a put and a call that break no rule keep the relation of all frames, and so does the canonical
/// form; no object is met twice below any object.
pub fn relation_is_kept()
    ensures store { StoreKeeps }
    ensures put { PutKeeps }
    ensures once { MetOnce }
    ensures call { CallKeeps }
    ensures canonical { CanonicalKeeps }
{}
