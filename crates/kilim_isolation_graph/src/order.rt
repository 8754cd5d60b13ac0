//! Numbers in an order, each once, and where each stands.

ghost use Rattle.std.specs.Prelude.{◌≡◌, false, [], ◌∷◌, ◌++◌, if◌then◌else◌, IfOk};
ghost use Rattle.kilim_isolation_graph.specs.Canonical as canonical;

use crate::numbers::{index_of, is_among};
use kilim_units::{NoMemory, Seq};
use std::alloc::Global;
use std::marker::Model;

/// Numbers in an order. Where one below a limit stands is found by a table.
#[derive(Drop)]
pub struct Order {
    numbers: Seq<usize>,
    table: Vec<usize>,
}

impl Model for Order {
    ghost use Rattle.std.specs.Prelude.{List, ℕ};
    ghost use Rattle.kilim_isolation_graph.specs.Orders.{AreMarks};

    ghost Value = { List ℕ };

    ghost view = { λ o. o.numbers };

    ghost invariant = { λ o. AreMarks o.table.items o.numbers };
}

impl Order {
    // No number yet, and a limit.
    fn new(alloc: Global, limit: usize) -> Result<Order, NoMemory>
        ensures { IfOk result (λ order. order ≡ []) }
    {
        let Ok(table) = vec![in alloc; 0usize; limit] else {
            return Err(NoMemory);
        };
        Ok(Order {
            numbers: Seq::new(alloc),
            table,
        })
    }

    /// The numbers.
    pub fn as_slice(&self) -> &[usize]
        ensures { result.now ≡ self.now }
    {
        self.numbers.as_slice()
    }

    /// Whether a number is among them.
    #[tactic(auto, using(crate::proofs::Orders::is_marked, crate::proofs::Orders::not_marked))]
    pub fn is_among(&self, wanted: usize) -> bool
        ensures { result ≡ canonical.is_among wanted self.now }
    {
        if wanted < self.table.len() {
            return self.table[wanted] > 0;
        }
        is_among(self.numbers.as_slice(), wanted)
    }

    /// Where a number stands, or how many there are.
    #[tactic(auto, using(crate::proofs::Orders::marked_at, crate::proofs::Orders::marked_none))]
    pub fn index_of(&self, wanted: usize) -> usize
        ensures { result ≡ canonical.index_of wanted self.now }
    {
        if wanted < self.table.len() {
            let mark = self.table[wanted];
            if mark == 0 {
                return self.numbers.len();
            }
            return mark - 1;
        }
        index_of(self.numbers.as_slice(), wanted)
    }

    // A number that isn't among them, behind them.
    fn push(&mut self, number: usize) -> Result<(), NoMemory>
        requires { canonical.is_among number self.old ≡ false }
        ensures { IfOk result (λ u. self.new ≡ self.old ++ number ∷ []) }
    {
        let Ok(()) = self.numbers.push(number) else {
            return Err(NoMemory);
        };
        if number < self.table.len() {
            self.table[number] = self.numbers.len();
        }
        Ok(())
    }

    // A number behind them, unless it is one of them.
    fn push_first(&mut self, number: usize) -> Result<(), NoMemory>
        ensures { IfOk result (λ u. self.new ≡ (if canonical.is_among number self.old then self.old else self.old ++ number ∷ [])) }
    {
        if self.is_among(number) {
            return Ok(());
        }
        self.push(number)
    }
}

/// Each number once, where it stands first. Most of them are below the limit.
pub fn firsts(alloc: Global, numbers: &[usize], limit: usize) -> Result<Order, NoMemory>
    ensures { IfOk result (λ order. order ≡ canonical.firsts [] numbers.now) }
{
    let Ok(mut order) = Order::new(alloc, limit) else {
        return Err(NoMemory);
    };
    for number in numbers {
        let Ok(()) = order.push_first(*number) else {
            return Err(NoMemory);
        };
    }
    Ok(order)
}
