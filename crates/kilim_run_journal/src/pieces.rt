//! The parts of a line.

ghost use Rattle.std.specs.Prelude.{◌≡◌, ◌<◌, ◌+◌, ◌++◌, ◌∷◌, [], codes, length, OnOk, IfOk};
ghost use Rattle.std.specs.List.{flat_map};
ghost use Rattle.std.specs.Fmt.{decimal, signed_decimal};
ghost use Rattle.kilim_units.specs.NameText.{escape, name_text};
ghost use Rattle.kilim_run_journal.specs.Text.{box_text, stands_in_text, text_unit, token_text, comma_before, is_followed, tokens_text, shape_text};

use kilim_program::BoxName;
use kilim_run_state::Token;
use kilim_units::{push_escape, push_name};
use std::alloc::AllocError;

pub fn push_byte(out: &mut Vec<u8>, byte: u8) -> Result<(), AllocError>
    ensures { OnOk result (out.new.items ≡ out.old.items ++ byte ∷ []) }
{
    let Ok(()) = out.push(byte) else {
        return Err(AllocError);
    };
    Ok(())
}

fn push_digit(out: &mut Vec<u8>, digit: u64) -> Result<(), AllocError>
    requires { digit < 10 }
    ensures { OnOk result (out.new.items ≡ out.old.items ++ (48 + digit) ∷ []) }
{
    push_byte(out, b'0' + digit as u8)
}

// A number in decimal, digit by digit: no memory is taken but what the text itself needs.
#[tactic(auto, using(std::proofs::lemmas::Fmt::decimal_digit))]
pub fn push_number(out: &mut Vec<u8>, n: u64) -> Result<(), AllocError>
    ensures { OnOk result (out.new.items ≡ out.old.items ++ decimal n) }
{
    if n < 10 {
        return push_digit(out, n);
    }
    let Ok(()) = push_number(out, n / 10) else {
        return Err(AllocError);
    };
    push_digit(out, n % 10)
}

// A signed number in decimal.
pub fn push_signed(out: &mut Vec<u8>, n: i64) -> Result<(), AllocError>
    ensures { OnOk result (out.new.items ≡ out.old.items ++ signed_decimal n) }
{
    if n < 0 {
        let Ok(()) = push_byte(out, b'-') else {
            return Err(AllocError);
        };
    }
    push_number(out, n.unsigned_abs())
}

// A number behind a word.
pub fn push_number_behind(out: &mut Vec<u8>, word: &[u8], n: u64) -> Result<(), AllocError>
    ensures { OnOk result (out.new.items ≡ out.old.items ++ (word.now ++ decimal n)) }
{
    let Ok(()) = out.extend_from_slice(word) else {
        return Err(AllocError);
    };
    push_number(out, n)
}

// A mailbox.
pub fn push_box(out: &mut Vec<u8>, name: BoxName) -> Result<(), AllocError>
    ensures { OnOk result (out.new.items ≡ out.old.items ++ box_text name) }
{
    let Ok(()) = push_number(out, u64::from(name.task)) else {
        return Err(AllocError);
    };
    push_number_behind(out, b".", u64::from(name.number))
}

// A mailbox behind a word.
pub fn push_box_behind(out: &mut Vec<u8>, word: &[u8], name: BoxName) -> Result<(), AllocError>
    ensures { OnOk result (out.new.items ≡ out.old.items ++ (word.now ++ box_text name)) }
{
    let Ok(()) = out.extend_from_slice(word) else {
        return Err(AllocError);
    };
    push_box(out, name)
}

fn stands_in_text(unit: u16) -> bool
    ensures { result ≡ stands_in_text unit }
{
    (32..=126).contains(&unit) && !(unit == 34 || unit == 92)
}

fn push_text_unit(out: &mut Vec<u8>, unit: u16) -> Result<(), AllocError>
    ensures { OnOk result (out.new.items ≡ out.old.items ++ text_unit unit) }
{
    if stands_in_text(unit) {
        push_byte(out, unit as u8)
    } else {
        push_escape(out, unit)
    }
}

// The units of a text, without its quotation marks.
fn push_text(out: &mut Vec<u8>, units: &[u16]) -> Result<(), AllocError>
    ensures { OnOk result (out.new.items ≡ out.old.items ++ flat_map text_unit units.now) }
{
    for unit in units {
        let Ok(()) = push_text_unit(out, *unit) else {
            return Err(AllocError);
        };
    }
    Ok(())
}

fn push_open(out: &mut Vec<u8>, name: &[u16]) -> Result<(), AllocError>
    ensures { OnOk result (out.new.items ≡ out.old.items ++ (name_text name.now ++ codes "(")) }
{
    let Ok(()) = push_name(out, name) else {
        return Err(AllocError);
    };
    push_byte(out, b'(')
}

fn push_long(out: &mut Vec<u8>, n: i64) -> Result<(), AllocError>
    ensures { OnOk result (out.new.items ≡ out.old.items ++ (signed_decimal n ++ codes "L")) }
{
    let Ok(()) = push_signed(out, n) else {
        return Err(AllocError);
    };
    push_byte(out, b'L')
}

// A text in its quotation marks.
fn push_quoted(out: &mut Vec<u8>, units: &[u16]) -> Result<(), AllocError>
    ensures { OnOk result (out.new.items ≡ out.old.items ++ (34 ∷ (flat_map text_unit units.now ++ 34 ∷ []))) }
{
    let Ok(()) = push_byte(out, b'"') else {
        return Err(AllocError);
    };
    let Ok(()) = push_text(out, units) else {
        return Err(AllocError);
    };
    push_byte(out, b'"')
}

fn push_token(out: &mut Vec<u8>, token: &Token) -> Result<(), AllocError>
    ensures { OnOk result (out.new.items ≡ out.old.items ++ token_text token.now) }
{
    match token {
        Token::Open(name) => push_open(out, name.as_slice()),
        Token::Close => push_byte(out, b')'),
        Token::Int(n) => push_signed(out, i64::from(*n)),
        Token::Long(n) => push_long(out, *n),
        Token::Null => out.extend_from_slice(b"null"),
        Token::Text(units) => push_quoted(out, units.as_slice()),
        Token::Box(name) => push_box_behind(out, b"@", *name),
    }
}

fn push_comma(out: &mut Vec<u8>, follows: bool, token: &Token) -> Result<(), AllocError>
    ensures { OnOk result (out.new.items ≡ out.old.items ++ comma_before follows token.now) }
{
    if follows && !matches!(token, Token::Close) {
        let Ok(()) = push_byte(out, b',') else {
            return Err(AllocError);
        };
    }
    Ok(())
}

pub fn is_followed(token: &Token) -> bool
    ensures { result ≡ is_followed token.now }
{
    !matches!(token, Token::Open(_))
}

// The tokens of a shape.
pub fn push_shape(out: &mut Vec<u8>, shape: &[Token]) -> Result<(), AllocError>
    ensures { OnOk result (out.new.items ≡ out.old.items ++ shape_text shape.now) }
{
    let mut follows = false;
    for token in shape {
        let Ok(()) = push_comma(out, follows, token) else {
            return Err(AllocError);
        };
        let Ok(()) = push_token(out, token) else {
            return Err(AllocError);
        };
        follows = is_followed(token);
    }
    Ok(())
}

// A shape behind a word.
pub fn push_shape_behind(out: &mut Vec<u8>, word: &[u8], shape: &[Token]) -> Result<(), AllocError>
    ensures { OnOk result (out.new.items ≡ out.old.items ++ (word.now ++ shape_text shape.now)) }
{
    let Ok(()) = out.extend_from_slice(word) else {
        return Err(AllocError);
    };
    push_shape(out, shape)
}
