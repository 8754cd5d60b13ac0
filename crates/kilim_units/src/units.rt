//! Texts as UTF-16 units.

ghost use Rattle.std.specs.Prelude.{◌≡◌, ◌↔◌, List, ℕ, length, IsTrue, IfOk};
ghost use Rattle.std.specs.Str.{bytes_eq};

use std::alloc::{AllocError, Global};
use std::cmp::Ordering;
use std::marker::Model;
use std::sync::Arc;

/// A name or a text as its UTF-16 units (JVMS 4.4.7): a class name in its internal form, as
/// `java/lang/Object`, a member's name, a descriptor, or a string. Surrogates stand for themselves. The units are
/// shared: a clone has the same ones, and no copy of them is made.
#[derive(Drop)]
pub struct Units {
    units: Arc<Vec<u16>, Global>,
}

impl Model for Units {
    ghost Value = { List ℕ };

    ghost view = { λ u. u.units.value.items };
}

impl Clone for Units {
    ghost is_clone = { λ a b. b ≡ a };

    fn clone(&self) -> Result<Units, AllocError> {
        Ok(Units {
            units: Arc::try_clone(&self.units)?,
        })
    }
}

impl PartialEq for Units {
    ghost use Rattle.std.specs.Cmp.Lexicographic.{pointwise};
    ghost use Rattle.std.specs.Prelude.{◌==◌};
    ghost use Rattle.std.proofs.Common.{rules};
    ghost use Rattle.std.specs.Cmp.Rules.{comparing};

    ghost eq = { pointwise ◌==◌ };

    ghost laws = { Prim.search (comparing, rules) };

    fn eq(&self, other: &Units) -> bool {
        *self.units == *other.units
    }
}

impl Eq for Units {
    ghost use Rattle.std.proofs.Common.{rules};
    ghost use Rattle.std.specs.Cmp.Rules.{comparing};

    ghost laws = { Prim.search (comparing, rules) };
}

// The order of their units, so that texts can be keys of ordered maps.
impl Ord for Units {
    ghost use Rattle.std.specs.Ordering.{nat_cmp};
    ghost use Rattle.std.specs.Cmp.Lexicographic.{slice_cmp};
    ghost use Rattle.std.proofs.Common.{rules};
    ghost use Rattle.std.specs.Cmp.Rules.{comparing};

    ghost cmp = { slice_cmp nat_cmp };

    ghost total = { Prim.search (comparing, rules) };

    ghost matches_partial_cmp = { Prim.search (comparing, rules) };

    ghost matches_eq = { Prim.search (comparing, rules) };

    fn cmp(&self, other: &Units) -> Ordering {
        (*self.units).cmp(&*other.units)
    }
}

impl PartialOrd for Units {
    ghost use Rattle.std.specs.Ordering.{nat_cmp, as_partial_cmp};
    ghost use Rattle.std.specs.Cmp.Lexicographic.{slice_cmp};
    ghost use Rattle.std.specs.Cmp.{partial_order_from_own_ties};
    ghost use Rattle.std.proofs.Common.{rules};
    ghost use Rattle.std.specs.Cmp.Rules.{comparing};

    ghost partial_cmp = { as_partial_cmp (slice_cmp nat_cmp) };

    ghost laws = { partial_order_from_own_ties (Prim.search (comparing, rules)) (Prim.search (comparing, rules)) };

    fn partial_cmp(&self, other: &Units) -> Option<Ordering> {
        Some(self.cmp(other))
    }
}

impl Units {
    /// The text of a vector of units. For want of memory the vector is dropped.
    pub fn from_vec(alloc: Global, units: Vec<u16>) -> Result<Self, AllocError>
        ensures { IfOk result (λ text. text ≡ units.items) }
    {
        Ok(Units {
            units: Arc::new(alloc, units)?,
        })
    }

    /// The text of a slice of units.
    pub fn from_slice(alloc: Global, units: &[u16]) -> Result<Self, AllocError>
        ensures { IfOk result (λ text. text ≡ units.now) }
    {
        Units::from_vec(alloc, Vec::from_slice(alloc, units)?)
    }

    /// The number of units.
    pub fn len(&self) -> usize
        ensures { result ≡ length self.now }
    {
        self.units.len()
    }

    /// Whether there is no unit.
    pub fn is_empty(&self) -> bool
        ensures { IsTrue result ↔ (length self.now ≡ 0) }
    {
        self.units.is_empty()
    }

    /// The units as a slice.
    pub fn as_slice(&self) -> &[u16]
        ensures { result.now ≡ self.now }
    {
        self.units.as_slice()
    }

    /// Whether two texts have the same units.
    pub fn is_same(&self, other: &Units) -> bool
        ensures { IsTrue result ↔ (self.now ≡ other.now) }
    {
        self.units.as_slice() == other.units.as_slice()
    }

    /// Whether these are the units of an ASCII text.
    pub fn is_text(&self, text: &[u8]) -> bool
        ensures { result ≡ bytes_eq self.now text.now }
    {
        is_ascii(self.as_slice(), text)
    }
}

fn is_ascii(units: &[u16], text: &[u8]) -> bool
    ensures { result ≡ bytes_eq units.now text.now }
{
    if units.len() != text.len() {
        return false;
    }
    for (i, unit) in units.iter().enumerate() {
        if *unit != u16::from(text[i]) {
            return false;
        }
    }
    true
}
