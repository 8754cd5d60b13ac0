//! The broken rules that were found.

ghost use Rattle.std.specs.Prelude.{◌≡◌, ◌<◌, ◌≤◌, ◌++◌, ◌∷◌, [], ℕ, List, Option, Result, length, slice_get, IsTrue, ◌↔◌, IfOk, OnOk, OnErr, IfSome};
ghost use Rattle.std.specs.List.{AllByRecursion, AllZip};
ghost use Rattle.kilim_isolation_paths.specs.Search.{before, noted};

use kilim_units::NoMemory;

/// A rule that is broken at a place, and the entry whose path breaks it.
#[derive(Clone, Copy)]
pub struct Found {
    pub pc: u32,
    pub rule: u8,
    pub at: usize,
}

fn is_before(f: &Found, g: &Found) -> bool
    ensures { result ≡ before f.now g.now }
{
    f.pc < g.pc || (f.pc == g.pc && f.rule < g.rule)
}

/// Puts the fault in its place, unless there is one with its place and rule.
pub fn note(found: &mut Vec<Found>, new: Found) -> Result<(), NoMemory>
    ensures ok { OnOk result (found.new.items ≡ noted found.old.items new) }
{
    let mut k = 0;
    while k < found.len() && is_before(&found[k], &new) {
        k += 1;
    }
    if k == found.len() || is_before(&new, &found[k]) {
        found.insert(k, new)?;
    }
    Ok(())
}
