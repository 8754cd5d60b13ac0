//! Copies.

ghost use Rattle.std.specs.Prelude.{◌≡◌, IfOk};

use crate::moved::{jump_to, target_of};
use kilim_program::Instr;
use kilim_units::NoMemory;

// One that holds a constant of the pool or the targets of a switch, or a jump. None other is left.
fn copied_owner(instr: &Instr) -> Result<Instr, NoMemory>
    ensures { IfOk result (λ i. i ≡ instr.now) }
{
    match instr {
        Instr::Ldc(value) => {
            let Ok(load) = value.clone() else {
                return Err(NoMemory);
            };
            Ok(Instr::Ldc(load))
        }
        Instr::LdcW(value) => {
            let Ok(wide) = value.clone() else {
                return Err(NoMemory);
            };
            Ok(Instr::LdcW(wide))
        }
        Instr::Ldc2W(value) => {
            let Ok(double) = value.clone() else {
                return Err(NoMemory);
            };
            Ok(Instr::Ldc2W(double))
        }
        Instr::Tableswitch(default, low, targets) => {
            let Ok(table) = targets.clone() else {
                return Err(NoMemory);
            };
            Ok(Instr::Tableswitch(*default, *low, table))
        }
        Instr::Lookupswitch(default, pairs) => {
            let Ok(lookup) = pairs.clone() else {
                return Err(NoMemory);
            };
            Ok(Instr::Lookupswitch(*default, lookup))
        }
        _ => jump_to(instr, target_of(instr)),
    }
}

// One with a constant, a local, a name or a type, or one of those below.
fn copied_local(instr: &Instr) -> Result<Instr, NoMemory>
    ensures { IfOk result (λ i. i ≡ instr.now) }
{
    match instr {
        Instr::Iconst(x) => Ok(Instr::Iconst(*x)),
        Instr::Lconst(x) => Ok(Instr::Lconst(*x)),
        Instr::Bipush(x) => Ok(Instr::Bipush(*x)),
        Instr::Sipush(x) => Ok(Instr::Sipush(*x)),
        Instr::Iload(x) => Ok(Instr::Iload(*x)),
        Instr::Lload(x) => Ok(Instr::Lload(*x)),
        Instr::Aload(x) => Ok(Instr::Aload(*x)),
        Instr::Istore(x) => Ok(Instr::Istore(*x)),
        Instr::Lstore(x) => Ok(Instr::Lstore(*x)),
        Instr::Astore(x) => Ok(Instr::Astore(*x)),
        Instr::Iinc(slot, by) => Ok(Instr::Iinc(*slot, *by)),
        Instr::Getstatic(x) => Ok(Instr::Getstatic(*x)),
        Instr::Getfield(x) => Ok(Instr::Getfield(*x)),
        Instr::Putfield(x) => Ok(Instr::Putfield(*x)),
        Instr::Invokevirtual(x) => Ok(Instr::Invokevirtual(*x)),
        Instr::Invokespecial(x) => Ok(Instr::Invokespecial(*x)),
        Instr::Invokestatic(x) => Ok(Instr::Invokestatic(*x)),
        Instr::New(x) => Ok(Instr::New(*x)),
        Instr::Newarray(x) => Ok(Instr::Newarray(*x)),
        Instr::Anewarray(x) => Ok(Instr::Anewarray(*x)),
        Instr::Checkcast(x) => Ok(Instr::Checkcast(*x)),
        Instr::Instanceof(x) => Ok(Instr::Instanceof(*x)),
        _ => copied_owner(instr),
    }
}

// One that computes, or one of those below.
fn copied_sum(instr: &Instr) -> Result<Instr, NoMemory>
    ensures { IfOk result (λ i. i ≡ instr.now) }
{
    match instr {
        Instr::Iadd => Ok(Instr::Iadd),
        Instr::Ladd => Ok(Instr::Ladd),
        Instr::Isub => Ok(Instr::Isub),
        Instr::Lsub => Ok(Instr::Lsub),
        Instr::Imul => Ok(Instr::Imul),
        Instr::Lmul => Ok(Instr::Lmul),
        Instr::Idiv => Ok(Instr::Idiv),
        Instr::Ldiv => Ok(Instr::Ldiv),
        Instr::Irem => Ok(Instr::Irem),
        Instr::Lrem => Ok(Instr::Lrem),
        Instr::Ineg => Ok(Instr::Ineg),
        Instr::Lneg => Ok(Instr::Lneg),
        Instr::Ishl => Ok(Instr::Ishl),
        Instr::Lshl => Ok(Instr::Lshl),
        Instr::Ishr => Ok(Instr::Ishr),
        Instr::Lshr => Ok(Instr::Lshr),
        Instr::Iushr => Ok(Instr::Iushr),
        Instr::Lushr => Ok(Instr::Lushr),
        Instr::Iand => Ok(Instr::Iand),
        Instr::Land => Ok(Instr::Land),
        Instr::Ior => Ok(Instr::Ior),
        Instr::Lor => Ok(Instr::Lor),
        Instr::Ixor => Ok(Instr::Ixor),
        Instr::Lxor => Ok(Instr::Lxor),
        Instr::I2l => Ok(Instr::I2l),
        Instr::L2i => Ok(Instr::L2i),
        Instr::I2b => Ok(Instr::I2b),
        Instr::I2c => Ok(Instr::I2c),
        Instr::I2s => Ok(Instr::I2s),
        Instr::Lcmp => Ok(Instr::Lcmp),
        _ => copied_local(instr),
    }
}

/// The same instruction.
pub fn copied(instr: &Instr) -> Result<Instr, NoMemory>
    ensures { IfOk result (λ i. i ≡ instr.now) }
{
    match instr {
        Instr::Nop => Ok(Instr::Nop),
        Instr::AconstNull => Ok(Instr::AconstNull),
        Instr::Iaload => Ok(Instr::Iaload),
        Instr::Laload => Ok(Instr::Laload),
        Instr::Aaload => Ok(Instr::Aaload),
        Instr::Baload => Ok(Instr::Baload),
        Instr::Caload => Ok(Instr::Caload),
        Instr::Saload => Ok(Instr::Saload),
        Instr::Iastore => Ok(Instr::Iastore),
        Instr::Lastore => Ok(Instr::Lastore),
        Instr::Aastore => Ok(Instr::Aastore),
        Instr::Bastore => Ok(Instr::Bastore),
        Instr::Castore => Ok(Instr::Castore),
        Instr::Sastore => Ok(Instr::Sastore),
        Instr::Arraylength => Ok(Instr::Arraylength),
        Instr::Ireturn => Ok(Instr::Ireturn),
        Instr::Lreturn => Ok(Instr::Lreturn),
        Instr::Areturn => Ok(Instr::Areturn),
        Instr::Return => Ok(Instr::Return),
        Instr::Athrow => Ok(Instr::Athrow),
        Instr::Pop => Ok(Instr::Pop),
        Instr::Pop2 => Ok(Instr::Pop2),
        Instr::Dup => Ok(Instr::Dup),
        Instr::DupX1 => Ok(Instr::DupX1),
        Instr::DupX2 => Ok(Instr::DupX2),
        Instr::Dup2 => Ok(Instr::Dup2),
        Instr::Dup2X1 => Ok(Instr::Dup2X1),
        Instr::Dup2X2 => Ok(Instr::Dup2X2),
        Instr::Swap => Ok(Instr::Swap),
        _ => copied_sum(instr),
    }
}
