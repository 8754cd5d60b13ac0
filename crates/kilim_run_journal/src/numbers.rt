//! Numbers, words and mailboxes at the front of bytes. Where the text of one stands there, with an end behind it, the
//! answer is that one and the bytes behind it. Elsewhere it may be anything.

ghost use Rattle.std.specs.Prelude.{◌≡◌, ◌<◌, ◌≤◌, ◌^◌, ◌∷◌, ◌++◌, not, length, true, IfSome, IsSomeAnd, List, ℕ, ℤ, FitsSigned};
ghost use Rattle.std.specs.Int.{w32, w64};
ghost use Rattle.std.specs.Int.Signed.{mag};
ghost use Rattle.std.specs.Fmt.{decimal, signed_decimal};
ghost use Rattle.std.specs.List.{list_all, prefix_len};
ghost use Rattle.kilim_program.specs.declared.names.BoxName.{BoxName as Name};
ghost use Rattle.kilim_run_journal.specs.Text.{box_text};
ghost use Rattle.kilim_run_journal.specs.Readable.{BoxFits};
ghost use Rattle.kilim_run_journal.specs.Fronts.{is_number_unit, is_in_word, ends_at, opens};

use kilim_program::BoxName;

// The bytes behind a word that stands at the front.
pub fn after<'a>(bytes: &'a [u8], word: &[u8]) -> Option<&'a [u8]>
    ensures right { (tail : List ℕ) → bytes.now ≡ word.now ++ tail → IsSomeAnd result (λ r. r.now ≡ tail) }
    ensures some { IfSome result (λ r. bytes.now ≡ word.now ++ r.now) }
{
    bytes.strip_prefix(word)
}

pub fn is_number_unit(unit: u8) -> bool
    ensures { result ≡ is_number_unit unit }
{
    unit.is_ascii_digit() || unit == b'-'
}

fn is_in_word(unit: u8) -> bool
    ensures { result ≡ is_in_word unit }
{
    !(unit == b'"' || unit == b'(' || unit == b')' || unit == b',' || unit == b'\n')
}

fn number_end(bytes: &[u8]) -> usize
    ensures within { result ≤ length bytes.now }
    ensures place { result ≡ prefix_len is_number_unit bytes.now }
{
    for (i, unit) in bytes.iter().enumerate() {
        if !is_number_unit(*unit) {
            return i;
        }
    }
    bytes.len()
}

fn word_end(bytes: &[u8]) -> usize
    ensures within { result ≤ length bytes.now }
    ensures place { result ≡ prefix_len is_in_word bytes.now }
{
    for (i, unit) in bytes.iter().enumerate() {
        if !is_in_word(*unit) {
            return i;
        }
    }
    bytes.len()
}

// Whether the first word is the name of an object.
pub fn opens(bytes: &[u8]) -> bool
    ensures { result ≡ opens bytes.now }
{
    let end = word_end(bytes);
    end < bytes.len() && bytes[end] == b'('
}

// The first word.
pub fn word_at(bytes: &[u8]) -> &[u8]
    ensures { (a x : List ℕ) → list_all is_in_word a ≡ true → ends_at is_in_word x ≡ true → bytes.now ≡ a ++ x → result.now ≡ a }
{
    &bytes[..word_end(bytes)]
}

fn number_text(bytes: &[u8]) -> (&[u8], &[u8])
    ensures { (a x : List ℕ) → list_all is_number_unit a ≡ true → ends_at is_number_unit x ≡ true → bytes.now ≡ a ++ x → (result.0.now ≡ a) × (result.1.now ≡ x) }
{
    bytes.split_at(number_end(bytes))
}

fn parsed(text: &[u8]) -> Option<u64>
    ensures { (n : ℕ) → n < 2 ^ 64 → text.now ≡ decimal n → result ≡ Some n }
{
    match str::from_utf8(text) {
        Ok(text) => text.parse::<u64>().ok(),
        Err(_) => None,
    }
}

fn parsed_signed(text: &[u8]) -> Option<i64>
    ensures { (z : ℤ) → FitsSigned w64 z → text.now ≡ signed_decimal z → result ≡ Some z }
{
    match str::from_utf8(text) {
        Ok(text) => text.parse::<i64>().ok(),
        Err(_) => None,
    }
}

// A number.
pub fn number_at(bytes: &[u8]) -> Option<(u64, &[u8])>
    ensures { (n : ℕ) (x : List ℕ) → n < 2 ^ 64 → ends_at is_number_unit x ≡ true → bytes.now ≡ decimal n ++ x → IsSomeAnd result (λ r. (r.0 ≡ n) × (r.1.now ≡ x)) }
{
    let (text, rest) = number_text(bytes);
    match parsed(text) {
        Some(n) => Some((n, rest)),
        None => None,
    }
}

// A number of 32 bits.
pub fn small_at(bytes: &[u8]) -> Option<(u32, &[u8])>
    ensures { (n : ℕ) (x : List ℕ) → n < 2 ^ 32 → ends_at is_number_unit x ≡ true → bytes.now ≡ decimal n ++ x → IsSomeAnd result (λ r. (r.0 ≡ n) × (r.1.now ≡ x)) }
{
    let Some((n, rest)) = number_at(bytes) else {
        return None;
    };
    match u32::try_from(n) {
        Ok(n) => Some((n, rest)),
        Err(_) => None,
    }
}

// A signed number.
pub fn signed_at(bytes: &[u8]) -> Option<(i64, &[u8])>
    ensures { (z : ℤ) (x : List ℕ) → FitsSigned w64 z → ends_at is_number_unit x ≡ true → bytes.now ≡ signed_decimal z ++ x → IsSomeAnd result (λ r. (r.0 ≡ z) × (r.1.now ≡ x)) }
{
    let (text, rest) = number_text(bytes);
    match parsed_signed(text) {
        Some(z) => Some((z, rest)),
        None => None,
    }
}

// A mailbox.
pub fn box_at(bytes: &[u8]) -> Option<(BoxName, &[u8])>
    ensures right { (b : Name) (x : List ℕ) → BoxFits b → ends_at is_number_unit x ≡ true → bytes.now ≡ box_text b ++ x → IsSomeAnd result (λ r. (r.0 ≡ b) × (r.1.now ≡ x)) }
    ensures fits { IfSome result (λ r. BoxFits r.0) }
{
    let Some((task, rest)) = small_at(bytes) else {
        return None;
    };
    let Some(rest) = after(rest, b".") else {
        return None;
    };
    match small_at(rest) {
        Some((number, rest)) => Some((BoxName { task, number }, rest)),
        None => None,
    }
}
