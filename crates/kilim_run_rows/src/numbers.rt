//! Arithmetic on ints and longs (JVMS 2.11.3 and 2.11.4).

ghost use Rattle.std.specs.Prelude.{◌≡◌, ◌≤◌, false};
ghost use Rattle.kilim_run_machine.specs.Does.{int_binary, int_division, int_unary, long_binary, long_division, long_shift, compared, to_byte, to_char, to_short, to_int, does};
ghost use Rattle.kilim_program.specs.declared.instr.Instr.TheVariants.{I2l, L2i, Lneg, Lcmp};
ghost use Rattle.kilim_run_rows.specs.Operations.{int_of, long_of, int_quotient, long_quotient, int_shift, long_shift_of, int_of_one, holds};
ghost use Rattle.kilim_run_rows.specs.Outcome.{is_stuck, height, Shows, SameFrame};
ghost use Rattle.std.specs.Int.{w32, w64, IsNonZero};

use crate::outcome::Moved;
use kilim_program::{Method, Program, Value};
use kilim_run_state::frames::Frame;
use kilim_run_state::{EndCause, Heap};

/// An operation on two numbers that always has an answer.
#[derive(Clone, Copy)]
pub enum Binary {
    Add,
    Sub,
    Mul,
    And,
    Or,
    Xor,
}

/// A division.
#[derive(Clone, Copy)]
pub enum Division {
    Quotient,
    Remainder,
}

/// A shift.
#[derive(Clone, Copy)]
pub enum Shift {
    Left,
    /// To the right, with the sign.
    Right,
    /// To the right, with zeros.
    Down,
}

/// An operation on one int.
#[derive(Clone, Copy)]
pub enum Unary {
    Negated,
    Byte,
    Char,
    Short,
}

/// A comparison of two ints.
#[derive(Clone, Copy)]
pub enum Test {
    Eq,
    Ne,
    Lt,
    Ge,
    Gt,
    Le,
}

impl Binary {
    #[inline(always)]
    fn of_ints(self, a: i32, b: i32) -> i32
        ensures { result ≡ int_of self a b }
    {
        match self {
            Binary::Add => a.wrapping_add(b),
            Binary::Sub => a.wrapping_sub(b),
            Binary::Mul => a.wrapping_mul(b),
            Binary::And => a & b,
            Binary::Or => a | b,
            Binary::Xor => a ^ b,
        }
    }

    #[inline(always)]
    fn of_longs(self, a: i64, b: i64) -> i64
        ensures { result ≡ long_of self a b }
    {
        match self {
            Binary::Add => a.wrapping_add(b),
            Binary::Sub => a.wrapping_sub(b),
            Binary::Mul => a.wrapping_mul(b),
            Binary::And => a & b,
            Binary::Or => a | b,
            Binary::Xor => a ^ b,
        }
    }
}

impl Division {
    #[inline(always)]
    fn of_ints(self, a: i32, b: i32) -> i32
        requires { IsNonZero w32 b }
        ensures { result ≡ int_quotient self a b }
    {
        match self {
            Division::Quotient => a.wrapping_div(b),
            Division::Remainder => a.wrapping_rem(b),
        }
    }

    #[inline(always)]
    fn of_longs(self, a: i64, b: i64) -> i64
        requires { IsNonZero w64 b }
        ensures { result ≡ long_quotient self a b }
    {
        match self {
            Division::Quotient => a.wrapping_div(b),
            Division::Remainder => a.wrapping_rem(b),
        }
    }
}

impl Shift {
    #[inline(always)]
    fn of_ints(self, a: i32, b: i32) -> i32
        ensures { result ≡ int_shift self a b }
    {
        match self {
            Shift::Left => a.wrapping_shl(b.cast_unsigned()),
            Shift::Right => a.wrapping_shr(b.cast_unsigned()),
            Shift::Down => a
                .cast_unsigned()
                .wrapping_shr(b.cast_unsigned())
                .cast_signed(),
        }
    }

    #[inline(always)]
    fn of_longs(self, a: i64, b: i32) -> i64
        ensures { result ≡ long_shift_of self a b }
    {
        match self {
            Shift::Left => a.wrapping_shl(b.cast_unsigned()),
            Shift::Right => a.wrapping_shr(b.cast_unsigned()),
            Shift::Down => a
                .cast_unsigned()
                .wrapping_shr(b.cast_unsigned())
                .cast_signed(),
        }
    }
}

impl Unary {
    #[inline(always)]
    fn of_int(self, a: i32) -> i32
        ensures { result ≡ int_of_one self a }
    {
        match self {
            Unary::Negated => a.wrapping_neg(),
            Unary::Byte => low_byte(a),
            Unary::Char => low_char(a),
            Unary::Short => low_short(a),
        }
    }
}

impl Test {
    /// Whether it holds of two ints.
    #[inline(always)]
    pub fn of_ints(self, a: i32, b: i32) -> bool
        ensures { result ≡ holds self a b }
    {
        match self {
            Test::Eq => a == b,
            Test::Ne => a != b,
            Test::Lt => a < b,
            Test::Ge => a >= b,
            Test::Gt => a > b,
            Test::Le => a <= b,
        }
    }
}

/// The low 8 bits, with their sign.
#[inline(always)]
pub fn low_byte(a: i32) -> i32
    ensures { result ≡ to_byte a }
{
    i32::from(((a.cast_unsigned() % 256) as u8).cast_signed())
}

/// The low 16 bits.
#[inline(always)]
pub fn low_char(a: i32) -> i32
    ensures { result ≡ to_char a }
{
    (a.cast_unsigned() % 65_536) as i32
}

/// The low 16 bits, with their sign.
#[inline(always)]
pub fn low_short(a: i32) -> i32
    ensures { result ≡ to_short a }
{
    i32::from(((a.cast_unsigned() % 65_536) as u16).cast_signed())
}

/// The low 32 bits, with their sign.
#[inline(always)]
pub fn low_int(a: i64) -> i32
    ensures { result ≡ to_int a }
{
    ((a.cast_unsigned() % 4_294_967_296) as u32).cast_signed()
}

// -1, 0 or 1
#[inline(always)]
fn compare(a: i64, b: i64) -> i32
    ensures { result ≡ compared a b }
{
    if a < b {
        -1
    } else if a == b {
        0
    } else {
        1
    }
}

/// Two ints give one.
#[inline(always)]
pub fn two_ints(operation: Binary, own: &Method, next: u32, frame: &mut Frame, heap: &Heap) -> Moved
    requires fine { is_stuck (int_binary (int_of operation) next frame.old.locals frame.old.stack.values heap.now) ≡ false }
    requires room { height (int_binary (int_of operation) next frame.old.locals frame.old.stack.values heap.now) ≤ frame.old.stack.room }
    ensures step { Shows own.now (int_binary (int_of operation) next frame.old.locals frame.old.stack.values heap.now) next result frame.old frame.new heap.now heap.now }
    ensures same { SameFrame frame.old frame.new }
{
    let b = frame.stack.pop_int();
    let a = frame.stack.pop_int();
    frame.stack.push(Value::Int(operation.of_ints(a, b)));
    Moved::Next
}

/// A shift of an int.
#[inline(always)]
pub fn shift_int(shift: Shift, own: &Method, next: u32, frame: &mut Frame, heap: &Heap) -> Moved
    requires fine { is_stuck (int_binary (int_shift shift) next frame.old.locals frame.old.stack.values heap.now) ≡ false }
    requires room { height (int_binary (int_shift shift) next frame.old.locals frame.old.stack.values heap.now) ≤ frame.old.stack.room }
    ensures step { Shows own.now (int_binary (int_shift shift) next frame.old.locals frame.old.stack.values heap.now) next result frame.old frame.new heap.now heap.now }
    ensures same { SameFrame frame.old frame.new }
{
    let b = frame.stack.pop_int();
    let a = frame.stack.pop_int();
    frame.stack.push(Value::Int(shift.of_ints(a, b)));
    Moved::Next
}

/// A division of ints. A divisor of zero ends the task.
#[inline(always)]
pub fn divide_ints(
    division: Division,
    own: &Method,
    next: u32,
    frame: &mut Frame,
    heap: &Heap,
) -> Moved
    requires fine { is_stuck (int_division (int_quotient division) next frame.old.locals frame.old.stack.values heap.now) ≡ false }
    requires room { height (int_division (int_quotient division) next frame.old.locals frame.old.stack.values heap.now) ≤ frame.old.stack.room }
    ensures step { Shows own.now (int_division (int_quotient division) next frame.old.locals frame.old.stack.values heap.now) next result frame.old frame.new heap.now heap.now }
    ensures same { SameFrame frame.old frame.new }
{
    let b = frame.stack.pop_int();
    let a = frame.stack.pop_int();
    if b == 0 {
        return Moved::Raised(EndCause::Zero);
    }
    frame.stack.push(Value::Int(division.of_ints(a, b)));
    Moved::Next
}

/// One int gives one.
#[inline(always)]
pub fn one_int(operation: Unary, own: &Method, next: u32, frame: &mut Frame, heap: &Heap) -> Moved
    requires fine { is_stuck (int_unary (int_of_one operation) next frame.old.locals frame.old.stack.values heap.now) ≡ false }
    requires room { height (int_unary (int_of_one operation) next frame.old.locals frame.old.stack.values heap.now) ≤ frame.old.stack.room }
    ensures step { Shows own.now (int_unary (int_of_one operation) next frame.old.locals frame.old.stack.values heap.now) next result frame.old frame.new heap.now heap.now }
    ensures same { SameFrame frame.old frame.new }
{
    let a = frame.stack.pop_int();
    frame.stack.push(Value::Int(operation.of_int(a)));
    Moved::Next
}

/// Two longs give one.
#[inline(always)]
pub fn two_longs(
    operation: Binary,
    own: &Method,
    next: u32,
    frame: &mut Frame,
    heap: &Heap,
) -> Moved
    requires fine { is_stuck (long_binary (long_of operation) next frame.old.locals frame.old.stack.values heap.now) ≡ false }
    requires room { height (long_binary (long_of operation) next frame.old.locals frame.old.stack.values heap.now) ≤ frame.old.stack.room }
    ensures step { Shows own.now (long_binary (long_of operation) next frame.old.locals frame.old.stack.values heap.now) next result frame.old frame.new heap.now heap.now }
    ensures same { SameFrame frame.old frame.new }
{
    let b = frame.stack.pop_long();
    let a = frame.stack.pop_long();
    frame.stack.push(Value::Long(operation.of_longs(a, b)));
    Moved::Next
}

/// A division of longs. A divisor of zero ends the task.
#[inline(always)]
pub fn divide_longs(
    division: Division,
    own: &Method,
    next: u32,
    frame: &mut Frame,
    heap: &Heap,
) -> Moved
    requires fine { is_stuck (long_division (long_quotient division) next frame.old.locals frame.old.stack.values heap.now) ≡ false }
    requires room { height (long_division (long_quotient division) next frame.old.locals frame.old.stack.values heap.now) ≤ frame.old.stack.room }
    ensures step { Shows own.now (long_division (long_quotient division) next frame.old.locals frame.old.stack.values heap.now) next result frame.old frame.new heap.now heap.now }
    ensures same { SameFrame frame.old frame.new }
{
    let b = frame.stack.pop_long();
    let a = frame.stack.pop_long();
    if b == 0 {
        return Moved::Raised(EndCause::Zero);
    }
    frame.stack.push(Value::Long(division.of_longs(a, b)));
    Moved::Next
}

/// A shift of a long by an int.
#[inline(always)]
pub fn shift_long(shift: Shift, own: &Method, next: u32, frame: &mut Frame, heap: &Heap) -> Moved
    requires fine { is_stuck (long_shift (long_shift_of shift) next frame.old.locals frame.old.stack.values heap.now) ≡ false }
    requires room { height (long_shift (long_shift_of shift) next frame.old.locals frame.old.stack.values heap.now) ≤ frame.old.stack.room }
    ensures step { Shows own.now (long_shift (long_shift_of shift) next frame.old.locals frame.old.stack.values heap.now) next result frame.old frame.new heap.now heap.now }
    ensures same { SameFrame frame.old frame.new }
{
    let b = frame.stack.pop_int();
    let a = frame.stack.pop_long();
    frame.stack.push(Value::Long(shift.of_longs(a, b)));
    Moved::Next
}

/// `lneg`.
#[tactic(auto, unfolding(kilim_run_machine::specs::Does::does))]
#[inline(always)]
pub fn negate_long(
    program: &Program,
    own: &Method,
    next: u32,
    frame: &mut Frame,
    heap: &Heap,
) -> Moved
    requires fine { is_stuck (does program.now own.now Lneg next frame.old.locals frame.old.stack.values heap.now) ≡ false }
    requires room { height (does program.now own.now Lneg next frame.old.locals frame.old.stack.values heap.now) ≤ frame.old.stack.room }
    ensures step { Shows own.now (does program.now own.now Lneg next frame.old.locals frame.old.stack.values heap.now) next result frame.old frame.new heap.now heap.now }
    ensures same { SameFrame frame.old frame.new }
{
    let a = frame.stack.pop_long();
    frame.stack.push(Value::Long(a.wrapping_neg()));
    Moved::Next
}

/// `lcmp`.
#[tactic(auto, unfolding(kilim_run_machine::specs::Does::does))]
#[inline(always)]
pub fn compare_longs(
    program: &Program,
    own: &Method,
    next: u32,
    frame: &mut Frame,
    heap: &Heap,
) -> Moved
    requires fine { is_stuck (does program.now own.now Lcmp next frame.old.locals frame.old.stack.values heap.now) ≡ false }
    requires room { height (does program.now own.now Lcmp next frame.old.locals frame.old.stack.values heap.now) ≤ frame.old.stack.room }
    ensures step { Shows own.now (does program.now own.now Lcmp next frame.old.locals frame.old.stack.values heap.now) next result frame.old frame.new heap.now heap.now }
    ensures same { SameFrame frame.old frame.new }
{
    let b = frame.stack.pop_long();
    let a = frame.stack.pop_long();
    frame.stack.push(Value::Int(compare(a, b)));
    Moved::Next
}

/// `i2l`.
#[tactic(auto, unfolding(kilim_run_machine::specs::Does::does))]
#[inline(always)]
pub fn int_to_long(
    program: &Program,
    own: &Method,
    next: u32,
    frame: &mut Frame,
    heap: &Heap,
) -> Moved
    requires fine { is_stuck (does program.now own.now I2l next frame.old.locals frame.old.stack.values heap.now) ≡ false }
    requires room { height (does program.now own.now I2l next frame.old.locals frame.old.stack.values heap.now) ≤ frame.old.stack.room }
    ensures step { Shows own.now (does program.now own.now I2l next frame.old.locals frame.old.stack.values heap.now) next result frame.old frame.new heap.now heap.now }
    ensures same { SameFrame frame.old frame.new }
{
    let a = frame.stack.pop_int();
    frame.stack.push(Value::Long(i64::from(a)));
    Moved::Next
}

/// `l2i`.
#[tactic(auto, unfolding(kilim_run_machine::specs::Does::does))]
#[inline(always)]
pub fn long_to_int(
    program: &Program,
    own: &Method,
    next: u32,
    frame: &mut Frame,
    heap: &Heap,
) -> Moved
    requires fine { is_stuck (does program.now own.now L2i next frame.old.locals frame.old.stack.values heap.now) ≡ false }
    requires room { height (does program.now own.now L2i next frame.old.locals frame.old.stack.values heap.now) ≤ frame.old.stack.room }
    ensures step { Shows own.now (does program.now own.now L2i next frame.old.locals frame.old.stack.values heap.now) next result frame.old frame.new heap.now heap.now }
    ensures same { SameFrame frame.old frame.new }
{
    let a = frame.stack.pop_long();
    frame.stack.push(Value::Int(low_int(a)));
    Moved::Next
}
