//! Instructions as they are written.

ghost use Rattle.std.specs.Prelude.{◌≡◌, IfOk};
ghost use Rattle.kilim_class_code.specs.declared.opcodes.instr.RawInstr.TheVariants.{TableSwitch, LookupSwitch};

use kilim_units::Seq;
use std::alloc::AllocError;

/// An instruction in the form in which it is written. First stands its number; in the two wide variants that is
/// the number behind `wide`. Targets are places, byte offsets in the code array.
#[derive(Drop)]
pub enum RawInstr {
    /// No operands.
    Plain(u8),
    /// A signed byte: `bipush`.
    Byte(u8, i8),
    /// A signed number of two bytes: `sipush`.
    Short(u8, i16),
    /// The slot of a local.
    Local(u8, u8),
    /// A pool index of one byte: `ldc`.
    Constant(u8, u8),
    /// A pool index of two bytes.
    Index(u8, u16),
    /// The slot of a local and what is added to it: `iinc`.
    Iinc(u8, u8, i8),
    /// The target of a jump of two bytes.
    Jump(u8, i64),
    /// The target of a jump of four bytes: `goto_w`.
    WideJump(u8, i64),
    /// The code of an element type: `newarray`.
    NewArray(u8, u8),
    /// The default, the lowest match, and the targets of the matches from there on.
    TableSwitch(u8, i64, i32, Seq<i64>),
    /// The default, and the matches with their targets.
    LookupSwitch(u8, i64, Seq<(i32, i64)>),
    /// The slot of a local, behind `wide`.
    WideLocal(u8, u16),
    /// The slot of a local and what is added to it, behind `wide`.
    WideIinc(u8, u16, i16),
}

impl Clone for RawInstr {
    ghost is_clone = { λ a b. b ≡ a };

    fn clone(&self) -> Result<RawInstr, AllocError> {
        match self {
            RawInstr::Plain(op) => Ok(RawInstr::Plain(*op)),
            RawInstr::Byte(op, number) => Ok(RawInstr::Byte(*op, *number)),
            RawInstr::Short(op, number) => Ok(RawInstr::Short(*op, *number)),
            RawInstr::Local(op, slot) => Ok(RawInstr::Local(*op, *slot)),
            RawInstr::Constant(op, index) => Ok(RawInstr::Constant(*op, *index)),
            RawInstr::Index(op, index) => Ok(RawInstr::Index(*op, *index)),
            RawInstr::Iinc(op, slot, number) => Ok(RawInstr::Iinc(*op, *slot, *number)),
            RawInstr::Jump(op, to) => Ok(RawInstr::Jump(*op, *to)),
            RawInstr::WideJump(op, to) => Ok(RawInstr::WideJump(*op, *to)),
            RawInstr::NewArray(op, code) => Ok(RawInstr::NewArray(*op, *code)),
            RawInstr::TableSwitch(op, default, low, targets) => {
                table_switch(*op, *default, *low, targets)
            }
            RawInstr::LookupSwitch(op, default, pairs) => lookup_switch(*op, *default, pairs),
            RawInstr::WideLocal(op, slot) => Ok(RawInstr::WideLocal(*op, *slot)),
            RawInstr::WideIinc(op, slot, number) => Ok(RawInstr::WideIinc(*op, *slot, *number)),
        }
    }
}

fn table_switch(op: u8, default: i64, low: i32, targets: &Seq<i64>) -> Result<RawInstr, AllocError>
    ensures { IfOk result (λ i. i ≡ TableSwitch op default low targets.now) }
{
    match targets.clone() {
        Ok(targets) => Ok(RawInstr::TableSwitch(op, default, low, targets)),
        Err(fault) => Err(fault),
    }
}

fn lookup_switch(op: u8, default: i64, pairs: &Seq<(i32, i64)>) -> Result<RawInstr, AllocError>
    ensures { IfOk result (λ i. i ≡ LookupSwitch op default pairs.now) }
{
    match pairs.clone() {
        Ok(pairs) => Ok(RawInstr::LookupSwitch(op, default, pairs)),
        Err(fault) => Err(fault),
    }
}
