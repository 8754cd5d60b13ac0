//! Whether two pools are equal.

ghost use Rattle.std.specs.Prelude.{◌≡◌, true, option_copied};

use kilim_class_pool::{Entry, Pool};

// Whether two indices name equal entries, or both none.
fn same_named(one: Option<&Entry>, other: Option<&Entry>) -> bool
    ensures { result ≡ true → option_copied one.entry ≡ option_copied other.entry }
{
    match one {
        Some(a) => match other {
            Some(b) => a.is_same(b),
            None => false,
        },
        None => other.is_none(),
    }
}

/// Whether two pools have equal entries.
pub fn same_pools(one: &Pool, other: &Pool) -> bool
    ensures { result ≡ true → one.now ≡ other.now }
{
    let count = one.count();
    if other.count() != count {
        return false;
    }
    for index in 0..count {
        if !same_named(one.entry(index), other.entry(index)) {
            return false;
        }
    }
    true
}
