//! Numbers as words.

ghost use Rattle.std.specs.Prelude.{◌≡◌, ◌≤◌, ◌^◌, ◌<◌, IfSome, FitsSigned, pos, neg_ℤ, codes};
ghost use Rattle.std.specs.List.{list_all};
ghost use Rattle.std.specs.Option.{option_copied};
ghost use Rattle.kilim_command.specs.grammar.Numbers.{in_range, is_alone, is_digit, as_negative, as_positive, int_by, is_number, most_int, number_in};
ghost use Rattle.kilim_command.specs.grammar.Words.{value_behind};

fn is_digit(b: u8) -> bool
    ensures { result ≡ is_digit b }
{
    48 <= b && b <= 57
}

fn are_digits(bytes: &[u8]) -> bool
    ensures { result ≡ list_all is_digit bytes.now }
{
    for byte in bytes {
        if !is_digit(*byte) {
            return false;
        }
    }
    true
}

fn is_alone(behind: &[u8]) -> bool
    ensures { result ≡ is_alone behind.now }
{
    match behind {
        [] => true,
        [_, ..] => false,
    }
}

// Whether the bytes are digits, with no zero before others.
fn is_number(bytes: &[u8]) -> bool
    ensures { result ≡ is_number bytes.now }
{
    match bytes {
        [] => false,
        [b, behind @ ..] => are_digits(bytes) && (*b != 48 || is_alone(behind)),
    }
}

fn in_range(least: u64, most: u64, n: u64) -> Option<u64>
    ensures number { result ≡ in_range least most n }
    ensures most { IfSome result (λ n. n ≤ most) }
{
    if least <= n && n <= most {
        Some(n)
    } else {
        None
    }
}

/// The number that a word writes, where it is one from `least` to `most`: decimal, without a plus or leading zeros.
pub fn number_in(least: u64, most: u64, word: &str) -> Option<u64>
    ensures number { result ≡ number_in least most word.now }
    ensures most { IfSome result (λ n. n ≤ most) }
{
    if !is_number(word.as_bytes()) {
        return None;
    }
    match word.parse::<u64>() {
        Ok(n) => in_range(least, most, n),
        Err(_) => None,
    }
}

/// What stands behind the front of a word that begins so.
pub fn value_behind<'a>(front: &str, word: &'a str) -> Option<&'a str>
    ensures { option_copied result ≡ value_behind front.now word.now }
{
    word.strip_prefix(front)
}

fn positive(n: Option<u64>) -> Option<i32>
    requires { IfSome n (λ n. n ≤ 2147483647) }
    ensures { result ≡ as_positive n }
{
    match n {
        Some(n) => Some(n as i32),
        None => None,
    }
}

fn negative(n: Option<u64>) -> Option<i32>
    requires { IfSome n (λ n. n ≤ 2147483648) }
    ensures { result ≡ as_negative n }
{
    match n {
        Some(n) => Some((-(n as i64)) as i32),
        None => None,
    }
}

/// The integer of 32 bits that a word writes.
pub fn int_of(word: &str) -> Option<i32>
    ensures { result ≡ int_by word.now (value_behind (codes "-") word.now) }
{
    match value_behind("-", word) {
        Some(digits) => negative(number_in(1, 2147483648, digits)),
        None => positive(number_in(0, 2147483647, word)),
    }
}
