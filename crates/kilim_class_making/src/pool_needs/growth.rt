//! What fits over a constant pool fits over a longer one: laws, and no code that does work.

ghost use Rattle.kilim_class_making.specs.pool_needs.growth.Growth.{FilesStay, PartsStay, PoolsGrow};

/// A law, and no work: each part of a class file that fits over a pool fits over each pool in which the old indices name the
/// same entries.
pub fn parts_stay()
    ensures { PartsStay }
{}

/// A law, and no work: the parts of a class file fit over each pool that fits itself and in which the old indices name the same
/// entries.
pub fn files_stay()
    ensures { FilesStay }
{}

/// A law, and no work: a pool that fits still does with entries behind it that have texts and name what they have to, and its old
/// indices name the same entries.
pub fn pools_grow()
    ensures { PoolsGrow }
{}
