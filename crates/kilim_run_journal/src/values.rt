//! Texts, tokens and shapes at the front of bytes. Where the text of one stands there, with an end behind it, the answer
//! is that one and the bytes behind it. Elsewhere it may be another one.

ghost use Rattle.std.specs.Prelude.{◌≡◌, ◌<◌, ◌≤◌, ◌+◌, ◌*◌, ◌^◌, ◌∷◌, ◌++◌, ◌/◌, ◌%◌, [], Bool, true, false, length, IfOk, IfSome, IsSomeAnd, List, ℕ, ℤ, Some, FitsSigned};
ghost use Rattle.std.specs.Int.{w32, w64};
ghost use Rattle.std.specs.Fmt.{signed_decimal};
ghost use Rattle.std.specs.List.{flat_map};
ghost use Rattle.kilim_program.specs.declared.names.BoxName.{BoxName as Name};
ghost use Rattle.kilim_run_state.specs.declared.value.Token.{Token as Part};
ghost use Rattle.kilim_run_state.specs.declared.value.Token.TheVariants as part;
ghost use Rattle.kilim_units.specs.NameText.{hex_digit, escape, name_text};
ghost use Rattle.kilim_run_journal.specs.Text.{box_text, text_unit, token_text, shape_text, is_followed, tokens_text, comma_before};
ghost use Rattle.kilim_run_journal.specs.Readable.{BoxFits, UnitsFit, TokenFits, ShapeFits, is_value};
ghost use Rattle.kilim_run_journal.specs.Fronts.{AfterValue, IsEnded, unit_text, opens, begun_behind};

use crate::numbers::{after, box_at, is_number_unit, opens, signed_at};
use crate::pieces::is_followed;
use kilim_run_state::{Shape, Token};
use kilim_units::{NoMemory, Seq, Units, no_room};
use std::alloc::Global;

fn hex_value(digit: u8) -> Option<u16>
    ensures right { (d : ℕ) → d < 16 → digit ≡ hex_digit d → result ≡ Some d }
    ensures small { IfSome result (λ d. d < 16) }
{
    match digit {
        b'0'..=b'9' => Some(u16::from(digit - b'0')),
        b'a'..=b'f' => Some(u16::from(digit - b'a') + 10),
        _ => None,
    }
}

// The number of four hexadecimal digits.
fn four_digits(digits: &[u8]) -> Option<u16>
    requires { length digits.now ≡ 4 }
    ensures { (a b c d : ℕ) → a < 16 → b < 16 → c < 16 → d < 16 → digits.now ≡ hex_digit a ∷ hex_digit b ∷ hex_digit c ∷ hex_digit d ∷ [] → result ≡ Some (a * 4096 + b * 256 + c * 16 + d) }
{
    let Some(a) = hex_value(digits[0]) else {
        return None;
    };
    let Some(b) = hex_value(digits[1]) else {
        return None;
    };
    let Some(c) = hex_value(digits[2]) else {
        return None;
    };
    let Some(d) = hex_value(digits[3]) else {
        return None;
    };
    Some(a * 4096 + b * 256 + c * 16 + d)
}

// A unit that is written as an escape, behind its backslash.
fn escaped_at(bytes: &[u8]) -> Option<(u16, &[u8])>
    ensures right { (u : ℕ) (x : List ℕ) → u < 2 ^ 16 → 92 ∷ bytes.now ≡ escape u ++ x → IsSomeAnd result (λ r. (r.0 ≡ u) × (r.1.now ≡ x)) }
    ensures less { IfSome result (λ r. length r.1.now < length bytes.now) }
    ensures small { IfSome result (λ r. r.0 < 2 ^ 16) }
{
    if bytes.len() < 5 {
        return None;
    }
    let (escape, rest) = bytes.split_at(5);
    match four_digits(&escape[1..]) {
        Some(unit) => Some((unit, rest)),
        None => None,
    }
}

// A unit, as it stands or as an escape.
fn unit_at(bytes: &[u8]) -> Option<(u16, &[u8])>
    ensures right { (stands : ℕ → Bool) (u : ℕ) (x : List ℕ) → stands 92 ≡ false → u < 2 ^ 16 → bytes.now ≡ unit_text stands u ++ x → IsSomeAnd result (λ r. (r.0 ≡ u) × (r.1.now ≡ x)) }
    ensures less { IfSome result (λ r. length r.1.now < length bytes.now) }
    ensures small { IfSome result (λ r. r.0 < 2 ^ 16) }
{
    match bytes.split_first() {
        None => None,
        Some((first, rest)) => {
            if *first == b'\\' {
                escaped_at(rest)
            } else {
                Some((u16::from(*first), rest))
            }
        }
    }
}

// Units up to what ends them, and the bytes behind that.
fn units_at(alloc: Global, end: u8, bytes: &[u8]) -> Result<Option<(Units, &[u8])>, NoMemory>
    ensures right { (stands : ℕ → Bool) (us : List ℕ) (x : List ℕ) → stands 92 ≡ false → stands end ≡ false → (end ≡ 92 → ⊥) → UnitsFit us → bytes.now ≡ flat_map (unit_text stands) us ++ (end ∷ x) → IfOk result (λ found. IsSomeAnd found (λ r. (r.0 ≡ us) × (r.1.now ≡ x))) }
    ensures fits { IfOk result (λ found. IfSome found (λ r. UnitsFit r.0)) }
{
    let mut units = Vec::new(alloc);
    let mut rest = bytes;
    while let Some((first, others)) = rest.split_first() {
        if *first == end {
            let Ok(text) = Units::from_vec(alloc, units) else {
                return Err(NoMemory);
            };
            return Ok(Some((text, others)));
        }
        match unit_at(rest) {
            Some((unit, behind)) => {
                let Ok(()) = units.push(unit) else {
                    return Err(NoMemory);
                };
                rest = behind;
            }
            None => return Ok(None),
        }
    }
    Ok(None)
}

// The beginning of an object.
fn open_at(alloc: Global, bytes: &[u8]) -> Result<Option<(Token, &[u8])>, NoMemory>
    ensures right { (name x : List ℕ) → UnitsFit name → bytes.now ≡ token_text (part.Open name) ++ x → IfOk result (λ found. IsSomeAnd found (λ r. (r.0 ≡ part.Open name) × (r.1.now ≡ x))) }
    ensures fits { IfOk result (λ found. IfSome found (λ r. TokenFits r.0)) }
{
    let Ok(found) = units_at(alloc, b'(', bytes) else {
        return Err(NoMemory);
    };
    match found {
        Some((name, rest)) => Ok(Some((Token::Open(name), rest))),
        None => Ok(None),
    }
}

// A text, behind its first quotation mark.
fn text_at(alloc: Global, bytes: &[u8]) -> Result<Option<(Token, &[u8])>, NoMemory>
    ensures right { (units x : List ℕ) → UnitsFit units → 34 ∷ bytes.now ≡ token_text (part.Text units) ++ x → IfOk result (λ found. IsSomeAnd found (λ r. (r.0 ≡ part.Text units) × (r.1.now ≡ x))) }
    ensures fits { IfOk result (λ found. IfSome found (λ r. TokenFits r.0)) }
{
    let Ok(found) = units_at(alloc, b'"', bytes) else {
        return Err(NoMemory);
    };
    match found {
        Some((units, rest)) => Ok(Some((Token::Text(units), rest))),
        None => Ok(None),
    }
}

// An int or a long.
fn number_token_at(bytes: &[u8]) -> Option<(Token, &[u8])>
    ensures int { (n : ℤ) (x : List ℕ) → FitsSigned w32 n → AfterValue x → bytes.now ≡ token_text (part.Int n) ++ x → IsSomeAnd result (λ r. (r.0 ≡ part.Int n) × (r.1.now ≡ x)) }
    ensures long { (n : ℤ) (x : List ℕ) → FitsSigned w64 n → bytes.now ≡ token_text (part.Long n) ++ x → IsSomeAnd result (λ r. (r.0 ≡ part.Long n) × (r.1.now ≡ x)) }
    ensures fits { IfSome result (λ r. TokenFits r.0) }
{
    let Some((n, rest)) = signed_at(bytes) else {
        return None;
    };
    match after(rest, b"L") {
        Some(behind) => Some((Token::Long(n), behind)),
        None => match i32::try_from(n) {
            Ok(n) => Some((Token::Int(n), rest)),
            Err(_) => None,
        },
    }
}

// A mailbox, behind its `@`.
fn box_token_at(bytes: &[u8]) -> Option<(Token, &[u8])>
    ensures right { (b : Name) (x : List ℕ) → BoxFits b → AfterValue x → 64 ∷ bytes.now ≡ token_text (part.Box b) ++ x → IsSomeAnd result (λ r. (r.0 ≡ part.Box b) × (r.1.now ≡ x)) }
    ensures fits { IfSome result (λ r. TokenFits r.0) }
{
    match box_at(bytes) {
        Some((name, rest)) => Some((Token::Box(name), rest)),
        None => None,
    }
}

fn null_at(bytes: &[u8]) -> Option<(Token, &[u8])>
    ensures right { (x : List ℕ) → bytes.now ≡ token_text part.Null ++ x → IsSomeAnd result (λ r. (r.0 ≡ part.Null) × (r.1.now ≡ x)) }
    ensures fits { IfSome result (λ r. TokenFits r.0) }
{
    match after(bytes, b"null") {
        Some(rest) => Some((Token::Null, rest)),
        None => None,
    }
}

// A token that doesn't begin an object.
fn plain_at(alloc: Global, bytes: &[u8]) -> Result<Option<(Token, &[u8])>, NoMemory>
    ensures right { (t : Part) (x : List ℕ) → opens bytes.now ≡ false → TokenFits t → IsEnded t x → bytes.now ≡ token_text t ++ x → IfOk result (λ found. IsSomeAnd found (λ r. (r.0 ≡ t) × (r.1.now ≡ x))) }
    ensures fits { IfOk result (λ found. IfSome found (λ r. TokenFits r.0)) }
{
    match bytes.split_first() {
        None => Ok(None),
        Some((first, rest)) => {
            if is_number_unit(*first) {
                Ok(number_token_at(bytes))
            } else if *first == b'"' {
                text_at(alloc, rest)
            } else if *first == b')' {
                Ok(Some((Token::Close, rest)))
            } else if *first == b'@' {
                Ok(box_token_at(rest))
            } else {
                Ok(null_at(bytes))
            }
        }
    }
}

// A token.
fn token_at(alloc: Global, bytes: &[u8]) -> Result<Option<(Token, &[u8])>, NoMemory>
    ensures right { (t : Part) (x : List ℕ) → TokenFits t → IsEnded t x → bytes.now ≡ token_text t ++ x → IfOk result (λ found. IsSomeAnd found (λ r. (r.0 ≡ t) × (r.1.now ≡ x))) }
    ensures fits { IfOk result (λ found. IfSome found (λ r. TokenFits r.0)) }
{
    if opens(bytes) {
        open_at(alloc, bytes)
    } else {
        plain_at(alloc, bytes)
    }
}

// Behind the comma that may stand before a token.
fn behind_comma(follows: bool, bytes: &[u8]) -> &[u8]
    ensures { (t : Part) (x : List ℕ) → bytes.now ≡ comma_before follows t ++ (token_text t ++ x) → result.now ≡ token_text t ++ x }
{
    if !follows {
        return bytes;
    }
    match after(bytes, b",") {
        Some(rest) => rest,
        None => bytes,
    }
}

// A token, and a comma before it.
fn next_at(alloc: Global, follows: bool, bytes: &[u8]) -> Result<Option<(Token, &[u8])>, NoMemory>
    ensures right { (t : Part) (x : List ℕ) → TokenFits t → IsEnded t x → bytes.now ≡ comma_before follows t ++ (token_text t ++ x) → IfOk result (λ found. IsSomeAnd found (λ r. (r.0 ≡ t) × (r.1.now ≡ x))) }
    ensures fits { IfOk result (λ found. IfSome found (λ r. TokenFits r.0)) }
    ensures less { IfOk result (λ found. IfSome found (λ r. length r.1.now < length bytes.now)) }
{
    let Ok(found) = token_at(alloc, behind_comma(follows, bytes)) else {
        return Err(NoMemory);
    };
    match found {
        None => Ok(None),
        Some((token, rest)) => {
            if rest.len() < bytes.len() {
                Ok(Some((token, rest)))
            } else {
                Ok(None)
            }
        }
    }
}

// How many objects have begun and not ended behind a token, where so many have before it.
fn begun_behind(begun: usize, token: &Token) -> Result<Option<usize>, NoMemory>
    ensures { IfOk result (λ now. now ≡ begun_behind begun token.now) }
{
    match token {
        Token::Open(_) => match begun.checked_add(1) {
            Some(now) => Ok(Some(now)),
            // room: 2^64 tokens in memory
            None => Err(no_room()),
        },
        Token::Close => Ok(begun.checked_sub(1)),
        _ => Ok(Some(begun)),
    }
}

// The tokens of a shape, put behind none, at the end of a line; whether there is one.
fn push_tokens(alloc: Global, bytes: &[u8], tokens: &mut Seq<Token>) -> Result<bool, NoMemory>
    requires none { tokens.old ≡ [] }
    ensures right { (ts : List Part) (x : List ℕ) → is_value ts ≡ true → ShapeFits ts → bytes.now ≡ shape_text ts ++ (10 ∷ x) → IfOk result (λ whole. (whole ≡ true) × (tokens.new ≡ ts)) }
    ensures value { IfOk result (λ whole. whole ≡ true → (is_value tokens.new ≡ true) × ShapeFits tokens.new) }
{
    let mut begun = 0;
    let mut follows = false;
    let mut rest = bytes;
    while !rest.is_empty() {
        let Ok(next) = next_at(alloc, follows, rest) else {
            return Err(NoMemory);
        };
        match next {
            None => return Ok(false),
            Some((token, behind)) => {
                let Ok(open) = begun_behind(begun, &token) else {
                    return Err(NoMemory);
                };
                match open {
                    None => return Ok(false),
                    Some(now) => {
                        follows = is_followed(&token);
                        let Ok(()) = tokens.push(token) else {
                            return Err(NoMemory);
                        };
                        if now == 0 {
                            return Ok(true);
                        }
                        begun = now;
                        rest = behind;
                    }
                }
            }
        }
    }
    Ok(false)
}

// A shape, at the end of a line.
pub fn shape_at(alloc: Global, bytes: &[u8]) -> Result<Option<Shape>, NoMemory>
    ensures right { (ts : List Part) (x : List ℕ) → is_value ts ≡ true → ShapeFits ts → bytes.now ≡ shape_text ts ++ (10 ∷ x) → IfOk result (λ found. found ≡ Some ts) }
    ensures value { IfOk result (λ found. IfSome found (λ shape. (is_value shape ≡ true) × ShapeFits shape)) }
{
    let mut tokens = Seq::new(alloc);
    match push_tokens(alloc, bytes, &mut tokens) {
        Ok(true) => Ok(Some(tokens)),
        Ok(false) => Ok(None),
        Err(fault) => Err(fault),
    }
}
