//! Numbers in a list.

ghost use Rattle.std.specs.Prelude.{◌≡◌};
ghost use Rattle.kilim_isolation_graph.specs.Canonical as canonical;

/// Whether a number is in the list.
pub fn is_among(numbers: &[usize], wanted: usize) -> bool
    ensures { result ≡ canonical.is_among wanted numbers.now }
{
    for number in numbers {
        if *number == wanted {
            return true;
        }
    }
    false
}

/// Where a number stands first, or how many there are.
pub fn index_of(numbers: &[usize], wanted: usize) -> usize
    ensures { result ≡ canonical.index_of wanted numbers.now }
{
    let mut at = 0;
    for number in numbers {
        if *number == wanted {
            return at;
        }
        at += 1;
    }
    at
}
