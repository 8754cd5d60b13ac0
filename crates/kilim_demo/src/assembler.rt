//! Instructions as bytes (JVMS 6.5).

ghost use Rattle.std.specs.Prelude.{◌≡◌, ◌++◌, IfOk, OnOk};
ghost use Rattle.kilim_demo.specs.declared.assembler.Op.TheVariants.{Pair};
ghost use Rattle.kilim_demo.specs.Assembler.{bytes_of, code_of};

use kilim_class_grammar::push_u16;
use kilim_units::NoMemory;
use std::alloc::Global;

pub const ACONST_NULL: u8 = 1;

pub const ICONST_0: u8 = 3;

pub const BIPUSH: u8 = 16;

pub const SIPUSH: u8 = 17;

pub const ALOAD: u8 = 25;

pub const ILOAD_1: u8 = 27;

pub const ILOAD_3: u8 = 29;

pub const ALOAD_0: u8 = 42;

pub const ALOAD_1: u8 = 43;

pub const ALOAD_2: u8 = 44;

pub const ALOAD_3: u8 = 45;

pub const ASTORE: u8 = 58;

pub const ISTORE_1: u8 = 60;

pub const ISTORE_3: u8 = 62;

pub const ASTORE_2: u8 = 77;

pub const ASTORE_3: u8 = 78;

pub const DUP: u8 = 89;

pub const IADD: u8 = 96;

pub const IREM: u8 = 112;

pub const IINC: u8 = 132;

pub const IF_ICMPGE: u8 = 162;

pub const IF_ICMPGT: u8 = 163;

pub const GOTO: u8 = 167;

pub const RETURN: u8 = 177;

pub const GETFIELD: u8 = 180;

pub const PUTFIELD: u8 = 181;

pub const INVOKEVIRTUAL: u8 = 182;

pub const INVOKESPECIAL: u8 = 183;

pub const INVOKESTATIC: u8 = 184;

pub const NEW: u8 = 187;

pub const CHECKCAST: u8 = 192;

pub const IFNULL: u8 = 198;

/// An instruction: its number, and what stands behind it.
#[derive(Clone, Copy)]
pub enum Op {
    Plain(u8),
    Byte(u8, u8),
    /// An index, a number or a distance.
    Pair(u8, u16),
    Two(u8, u8, u8),
}

fn push_bytes(code: &mut Vec<u8>, bytes: &[u8]) -> Result<(), NoMemory>
    ensures { OnOk result (code.new.items ≡ code.old.items ++ bytes.now) }
{
    match code.extend_from_slice(bytes) {
        Ok(()) => Ok(()),
        Err(_) => Err(NoMemory),
    }
}

fn push_pair(code: &mut Vec<u8>, number: u8, n: u16) -> Result<(), NoMemory>
    ensures { OnOk result (code.new.items ≡ code.old.items ++ bytes_of (Pair number n)) }
{
    let Ok(()) = code.push(number) else {
        return Err(NoMemory);
    };
    match push_u16(code, n) {
        Ok(()) => Ok(()),
        Err(_) => Err(NoMemory),
    }
}

fn push_op(code: &mut Vec<u8>, op: Op) -> Result<(), NoMemory>
    ensures { OnOk result (code.new.items ≡ code.old.items ++ bytes_of op) }
{
    match op {
        Op::Plain(number) => push_bytes(code, &[number]),
        Op::Byte(number, n) => push_bytes(code, &[number, n]),
        Op::Pair(number, n) => push_pair(code, number, n),
        Op::Two(number, m, n) => push_bytes(code, &[number, m, n]),
    }
}

/// Adds instructions behind the code.
pub fn push_code(code: &mut Vec<u8>, ops: &[Op]) -> Result<(), NoMemory>
    ensures { OnOk result (code.new.items ≡ code.old.items ++ code_of ops.now) }
{
    for op in ops {
        let Ok(()) = push_op(code, *op) else {
            return Err(NoMemory);
        };
    }
    Ok(())
}

/// Instructions as bytes.
pub fn code_of(alloc: Global, ops: &[Op]) -> Result<Vec<u8>, NoMemory>
    ensures { IfOk result (λ code. code.items ≡ code_of ops.now) }
{
    let mut code = Vec::new(alloc);
    let Ok(()) = push_code(&mut code, ops) else {
        return Err(NoMemory);
    };
    Ok(code)
}
