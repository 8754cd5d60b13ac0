//! Whether two acts are the same.

ghost use Rattle.std.specs.Prelude.{◌≡◌, ◌↔◌, IsTrue};
ghost use Rattle.kilim_run_state.specs.declared.value.Token.TheVariants as a_token;
ghost use Rattle.kilim_run_journal.specs.declared.entry.Act.TheVariants as an_act;

use kilim_program::BoxName;
use kilim_run_journal::{Act, Entry};
use kilim_run_state::{EndCause, Shape, Token};
use kilim_units::Units;

fn is_open(token: &Token, name: &Units) -> bool
    ensures { IsTrue result ↔ (token.now ≡ a_token.Open name.now) }
{
    match token {
        Token::Open(other) => other.is_same(name),
        _ => false,
    }
}

fn is_close(token: &Token) -> bool
    ensures { IsTrue result ↔ (token.now ≡ a_token.Close) }
{
    match token {
        Token::Close => true,
        _ => false,
    }
}

fn is_int(token: &Token, n: &i32) -> bool
    ensures { IsTrue result ↔ (token.now ≡ a_token.Int n.now) }
{
    match token {
        Token::Int(m) => *m == *n,
        _ => false,
    }
}

fn is_long(token: &Token, n: &i64) -> bool
    ensures { IsTrue result ↔ (token.now ≡ a_token.Long n.now) }
{
    match token {
        Token::Long(m) => *m == *n,
        _ => false,
    }
}

fn is_null(token: &Token) -> bool
    ensures { IsTrue result ↔ (token.now ≡ a_token.Null) }
{
    match token {
        Token::Null => true,
        _ => false,
    }
}

fn is_text(token: &Token, units: &Units) -> bool
    ensures { IsTrue result ↔ (token.now ≡ a_token.Text units.now) }
{
    match token {
        Token::Text(other) => other.is_same(units),
        _ => false,
    }
}

fn same_box(a: BoxName, b: BoxName) -> bool
    ensures { IsTrue result ↔ (a ≡ b) }
{
    a.task == b.task && a.number == b.number
}

fn is_box(token: &Token, name: BoxName) -> bool
    ensures { IsTrue result ↔ (token.now ≡ a_token.Box name) }
{
    match token {
        Token::Box(other) => same_box(*other, name),
        _ => false,
    }
}

fn same_token(a: &Token, b: &Token) -> bool
    ensures { IsTrue result ↔ (a.now ≡ b.now) }
{
    match b {
        Token::Open(name) => is_open(a, name),
        Token::Close => is_close(a),
        Token::Int(n) => is_int(a, n),
        Token::Long(n) => is_long(a, n),
        Token::Null => is_null(a),
        Token::Text(units) => is_text(a, units),
        Token::Box(name) => is_box(a, *name),
    }
}

fn same_tokens(a: &[Token], b: &[Token]) -> bool
    ensures { IsTrue result ↔ (a.now ≡ b.now) }
{
    if a.len() != b.len() {
        return false;
    }
    for k in 0..a.len() {
        if !same_token(&a[k], &b[k]) {
            return false;
        }
    }
    true
}

fn same_shape(a: &Shape, b: &Shape) -> bool
    ensures { IsTrue result ↔ (a.now ≡ b.now) }
{
    same_tokens(a.as_slice(), b.as_slice())
}

fn is_put(act: &Act, name: BoxName, n: u64, shape: &Shape) -> bool
    ensures { IsTrue result ↔ (act.now ≡ an_act.Put name n shape.now) }
{
    match act {
        Act::Put(other, m, tokens) => {
            same_box(*other, name) && *m == n && same_shape(tokens, shape)
        }
        _ => false,
    }
}

fn is_take(act: &Act, name: BoxName, n: u64) -> bool
    ensures { IsTrue result ↔ (act.now ≡ an_act.Take name n) }
{
    match act {
        Act::Take(other, m) => same_box(*other, name) && *m == n,
        _ => false,
    }
}

fn is_empty(act: &Act, name: BoxName) -> bool
    ensures { IsTrue result ↔ (act.now ≡ an_act.Empty name) }
{
    match act {
        Act::Empty(other) => same_box(*other, name),
        _ => false,
    }
}

fn is_start(act: &Act, task: u32, shape: &Shape) -> bool
    ensures { IsTrue result ↔ (act.now ≡ an_act.Start task shape.now) }
{
    match act {
        Act::Start(other, tokens) => *other == task && same_shape(tokens, shape),
        _ => false,
    }
}

fn is_print(act: &Act, shape: &Shape) -> bool
    ensures { IsTrue result ↔ (act.now ≡ an_act.Print shape.now) }
{
    match act {
        Act::Print(tokens) => same_shape(tokens, shape),
        _ => false,
    }
}

fn same_cause(a: EndCause, b: EndCause) -> bool
    ensures { IsTrue result ↔ (a ≡ b) }
{
    a as u8 == b as u8
}

fn is_end(act: &Act, cause: EndCause) -> bool
    ensures { IsTrue result ↔ (act.now ≡ an_act.End cause) }
{
    match act {
        Act::End(other) => same_cause(*other, cause),
        _ => false,
    }
}

fn is_wait(act: &Act, name: BoxName) -> bool
    ensures { IsTrue result ↔ (act.now ≡ an_act.Wait name) }
{
    match act {
        Act::Wait(other) => same_box(*other, name),
        _ => false,
    }
}

fn is_bound(act: &Act, name: BoxName, most: u32) -> bool
    ensures { IsTrue result ↔ (act.now ≡ an_act.Bound name most) }
{
    match act {
        Act::Bound(other, n) => same_box(*other, name) && *n == most,
        _ => false,
    }
}

/// Whether two acts are the same.
pub fn same_act(a: &Act, b: &Act) -> bool
    ensures { IsTrue result ↔ (a.now ≡ b.now) }
{
    match b {
        Act::Put(name, n, shape) => is_put(a, *name, *n, shape),
        Act::Take(name, n) => is_take(a, *name, *n),
        Act::Empty(name) => is_empty(a, *name),
        Act::Start(task, shape) => is_start(a, *task, shape),
        Act::Print(shape) => is_print(a, shape),
        Act::End(cause) => is_end(a, *cause),
        Act::Wait(name) => is_wait(a, *name),
        Act::Bound(name, most) => is_bound(a, *name, *most),
    }
}

/// Whether two entries are the same.
pub fn same_entry(a: &Entry, b: &Entry) -> bool
    ensures { IsTrue result ↔ (a.now ≡ b.now) }
{
    a.task == b.task && same_act(&a.act, &b.act)
}
