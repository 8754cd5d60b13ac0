//! Names with descriptors, in an order.

ghost use Rattle.std.specs.Prelude.{◌≡◌, IfOk};

use kilim_units::{NoMemory, Units};
use std::cmp::Ordering;

/// The name and the descriptor of a member (JVMS 4.3), as a key of maps.
#[derive(Drop)]
pub struct Signature {
    pub name: Units,
    pub descriptor: Units,
}

impl PartialEq for Signature {
    ghost use Rattle.std.specs.Cmp.Lexicographic.{pointwise};
    ghost use Rattle.std.specs.Prelude.{◌==◌};
    ghost use Rattle.std.specs.Ordering.{on, eq_of_both};
    ghost use Rattle.std.proofs.Common.{rules};
    ghost use Rattle.std.specs.Cmp.Rules.{comparing};

    ghost eq = { eq_of_both (on (λ s. s.name) (pointwise ◌==◌)) (on (λ s. s.descriptor) (pointwise ◌==◌)) };

    ghost laws = { Prim.search (comparing, rules) };

    fn eq(&self, other: &Signature) -> bool {
        self.name.as_slice() == other.name.as_slice()
            && self.descriptor.as_slice() == other.descriptor.as_slice()
    }
}

impl Eq for Signature {
    ghost use Rattle.std.proofs.Common.{rules};
    ghost use Rattle.std.specs.Cmp.Rules.{comparing};

    ghost laws = { Prim.search (comparing, rules) };
}

impl Ord for Signature {
    ghost use Rattle.std.specs.Ordering.{nat_cmp, on, then_cmp};
    ghost use Rattle.std.specs.Cmp.Lexicographic.{slice_cmp};
    ghost use Rattle.std.proofs.Common.{rules};
    ghost use Rattle.std.specs.Cmp.Rules.{comparing};

    ghost cmp = { then_cmp (on (λ s. s.name) (slice_cmp nat_cmp)) (on (λ s. s.descriptor) (slice_cmp nat_cmp)) };

    ghost total = { Prim.search (comparing, rules) };

    ghost matches_partial_cmp = { Prim.search (comparing, rules) };

    ghost matches_eq = { Prim.search (comparing, rules) };

    fn cmp(&self, other: &Signature) -> Ordering {
        self.name.as_slice().cmp(other.name.as_slice()).then(
            self.descriptor.as_slice().cmp(other.descriptor.as_slice()),
        )
    }
}

impl PartialOrd for Signature {
    ghost use Rattle.std.specs.Ordering.{nat_cmp, on, then_cmp, as_partial_cmp};
    ghost use Rattle.std.specs.Cmp.Lexicographic.{slice_cmp};
    ghost use Rattle.std.specs.Cmp.{partial_order_from_own_ties};
    ghost use Rattle.std.proofs.Common.{rules};
    ghost use Rattle.std.specs.Cmp.Rules.{comparing};

    ghost partial_cmp = { as_partial_cmp (then_cmp (on (λ s. s.name) (slice_cmp nat_cmp)) (on (λ s. s.descriptor) (slice_cmp nat_cmp))) };

    ghost laws = { partial_order_from_own_ties (Prim.search (comparing, rules)) (Prim.search (comparing, rules)) };

    fn partial_cmp(&self, other: &Signature) -> Option<Ordering> {
        Some(self.cmp(other))
    }
}

impl Signature {
    /// The same name and descriptor once more.
    pub fn copied(&self) -> Result<Signature, NoMemory>
        ensures { IfOk result (λ copy. copy ≡ self.now) }
    {
        let Ok(name) = self.name.clone() else {
            return Err(NoMemory);
        };
        let Ok(descriptor) = self.descriptor.clone() else {
            return Err(NoMemory);
        };
        Ok(Signature { name, descriptor })
    }
}
