//! Which operation an instruction names, of those that differ in one word.

ghost use Rattle.std.specs.Prelude.{◌≡◌};
ghost use Rattle.kilim_run_interp.specs.instruction.Operations.{binary_of, shift_of, unary_of};

use kilim_program::Instr;
use kilim_run_rows::{Binary, Shift, Unary};

/// The operation of an instruction on two longs.
#[inline(always)]
pub fn binary_of(instr: &Instr) -> Binary
    ensures { result ≡ binary_of instr.now }
{
    match instr {
        Instr::Ladd => Binary::Add,
        Instr::Lsub => Binary::Sub,
        Instr::Lmul => Binary::Mul,
        Instr::Land => Binary::And,
        Instr::Lor => Binary::Or,
        _ => Binary::Xor,
    }
}

/// The shift of an instruction that shifts an int or a long.
#[inline(always)]
pub fn shift_of(instr: &Instr) -> Shift
    ensures { result ≡ shift_of instr.now }
{
    match instr {
        Instr::Ishl | Instr::Lshl => Shift::Left,
        Instr::Ishr | Instr::Lshr => Shift::Right,
        _ => Shift::Down,
    }
}

/// The operation of an instruction on one int.
#[inline(always)]
pub fn unary_of(instr: &Instr) -> Unary
    ensures { result ≡ unary_of instr.now }
{
    match instr {
        Instr::I2b => Unary::Byte,
        Instr::I2c => Unary::Char,
        Instr::I2s => Unary::Short,
        _ => Unary::Negated,
    }
}
