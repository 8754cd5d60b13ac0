//! The instructions by their numbers (JVMS 6.5).

ghost use Rattle.std.specs.Prelude.{◌≡◌, Some};
ghost use Rattle.kilim_link_spec.specs.Code.{row, plain_instrs, local_instrs, jump_instrs, constant_instrs, field_instrs, method_instrs, type_instrs, array_codes, applied};
ghost use Rattle.kilim_link_code.specs.Groups.{from_array_loads, from_local_stores, from_array_stores, from_arithmetic, from_shifts, conversions_and_returns};

use kilim_program::{Base, FieldId, Instr, MethodId, Ty, Value};

// Conversions, a comparison, returns, the length of an array and what throws.
fn conversions_and_returns(number: u8) -> Option<Instr>
    ensures { result ≡ row conversions_and_returns number }
{
    match number {
        133 => Some(Instr::I2l),
        136 => Some(Instr::L2i),
        145 => Some(Instr::I2b),
        146 => Some(Instr::I2c),
        147 => Some(Instr::I2s),
        148 => Some(Instr::Lcmp),
        172 => Some(Instr::Ireturn),
        173 => Some(Instr::Lreturn),
        176 => Some(Instr::Areturn),
        177 => Some(Instr::Return),
        190 => Some(Instr::Arraylength),
        191 => Some(Instr::Athrow),
        _ => None,
    }
}

// Shifts and bit operations, and those behind them.
fn from_shifts(number: u8) -> Option<Instr>
    ensures { result ≡ row from_shifts number }
{
    match number {
        120 => Some(Instr::Ishl),
        121 => Some(Instr::Lshl),
        122 => Some(Instr::Ishr),
        123 => Some(Instr::Lshr),
        124 => Some(Instr::Iushr),
        125 => Some(Instr::Lushr),
        126 => Some(Instr::Iand),
        127 => Some(Instr::Land),
        128 => Some(Instr::Ior),
        129 => Some(Instr::Lor),
        130 => Some(Instr::Ixor),
        131 => Some(Instr::Lxor),
        _ => conversions_and_returns(number),
    }
}

// Arithmetic, and those behind it.
fn from_arithmetic(number: u8) -> Option<Instr>
    ensures { result ≡ row from_arithmetic number }
{
    match number {
        96 => Some(Instr::Iadd),
        97 => Some(Instr::Ladd),
        100 => Some(Instr::Isub),
        101 => Some(Instr::Lsub),
        104 => Some(Instr::Imul),
        105 => Some(Instr::Lmul),
        108 => Some(Instr::Idiv),
        109 => Some(Instr::Ldiv),
        112 => Some(Instr::Irem),
        113 => Some(Instr::Lrem),
        116 => Some(Instr::Ineg),
        117 => Some(Instr::Lneg),
        _ => from_shifts(number),
    }
}

// Stores to arrays and moves on the stack, and those behind them.
fn from_array_stores(number: u8) -> Option<Instr>
    ensures { result ≡ row from_array_stores number }
{
    match number {
        79 => Some(Instr::Iastore),
        80 => Some(Instr::Lastore),
        83 => Some(Instr::Aastore),
        84 => Some(Instr::Bastore),
        85 => Some(Instr::Castore),
        86 => Some(Instr::Sastore),
        87 => Some(Instr::Pop),
        88 => Some(Instr::Pop2),
        89 => Some(Instr::Dup),
        90 => Some(Instr::DupX1),
        91 => Some(Instr::DupX2),
        92 => Some(Instr::Dup2),
        93 => Some(Instr::Dup2X1),
        94 => Some(Instr::Dup2X2),
        95 => Some(Instr::Swap),
        _ => from_arithmetic(number),
    }
}

// Stores to local slots, and those behind them.
fn from_local_stores(number: u8) -> Option<Instr>
    ensures { result ≡ row from_local_stores number }
{
    match number {
        59 => Some(Instr::Istore(0)),
        60 => Some(Instr::Istore(1)),
        61 => Some(Instr::Istore(2)),
        62 => Some(Instr::Istore(3)),
        63 => Some(Instr::Lstore(0)),
        64 => Some(Instr::Lstore(1)),
        65 => Some(Instr::Lstore(2)),
        66 => Some(Instr::Lstore(3)),
        75 => Some(Instr::Astore(0)),
        76 => Some(Instr::Astore(1)),
        77 => Some(Instr::Astore(2)),
        78 => Some(Instr::Astore(3)),
        _ => from_array_stores(number),
    }
}

// Loads of references and from arrays, and those behind them.
fn from_array_loads(number: u8) -> Option<Instr>
    ensures { result ≡ row from_array_loads number }
{
    match number {
        42 => Some(Instr::Aload(0)),
        43 => Some(Instr::Aload(1)),
        44 => Some(Instr::Aload(2)),
        45 => Some(Instr::Aload(3)),
        46 => Some(Instr::Iaload),
        47 => Some(Instr::Laload),
        50 => Some(Instr::Aaload),
        51 => Some(Instr::Baload),
        52 => Some(Instr::Caload),
        53 => Some(Instr::Saload),
        _ => from_local_stores(number),
    }
}

/// The instruction of a number without operands, a short form as its long form; nothing for other numbers.
pub fn plain_instr(number: u8) -> Option<Instr>
    ensures { result ≡ row plain_instrs number }
{
    match number {
        0 => Some(Instr::Nop),
        1 => Some(Instr::AconstNull),
        2 => Some(Instr::Iconst(-1)),
        3 => Some(Instr::Iconst(0)),
        4 => Some(Instr::Iconst(1)),
        5 => Some(Instr::Iconst(2)),
        6 => Some(Instr::Iconst(3)),
        7 => Some(Instr::Iconst(4)),
        8 => Some(Instr::Iconst(5)),
        9 => Some(Instr::Lconst(0)),
        10 => Some(Instr::Lconst(1)),
        26 => Some(Instr::Iload(0)),
        27 => Some(Instr::Iload(1)),
        28 => Some(Instr::Iload(2)),
        29 => Some(Instr::Iload(3)),
        30 => Some(Instr::Lload(0)),
        31 => Some(Instr::Lload(1)),
        32 => Some(Instr::Lload(2)),
        33 => Some(Instr::Lload(3)),
        _ => from_array_loads(number),
    }
}

/// The load or the store of a local slot with this number; nothing for other numbers.
pub fn local_instr(number: u8, slot: u16) -> Option<Instr>
    ensures { result ≡ applied (row local_instrs number) (Some slot) }
{
    match number {
        21 => Some(Instr::Iload(slot)),
        22 => Some(Instr::Lload(slot)),
        25 => Some(Instr::Aload(slot)),
        54 => Some(Instr::Istore(slot)),
        55 => Some(Instr::Lstore(slot)),
        58 => Some(Instr::Astore(slot)),
        _ => None,
    }
}

/// The jump to a place with this number; nothing for other numbers.
pub fn jump_instr(number: u8, to: u32) -> Option<Instr>
    ensures { result ≡ applied (row jump_instrs number) (Some to) }
{
    match number {
        153 => Some(Instr::Ifeq(to)),
        154 => Some(Instr::Ifne(to)),
        155 => Some(Instr::Iflt(to)),
        156 => Some(Instr::Ifge(to)),
        157 => Some(Instr::Ifgt(to)),
        158 => Some(Instr::Ifle(to)),
        159 => Some(Instr::IfIcmpeq(to)),
        160 => Some(Instr::IfIcmpne(to)),
        161 => Some(Instr::IfIcmplt(to)),
        162 => Some(Instr::IfIcmpge(to)),
        163 => Some(Instr::IfIcmpgt(to)),
        164 => Some(Instr::IfIcmple(to)),
        165 => Some(Instr::IfAcmpeq(to)),
        166 => Some(Instr::IfAcmpne(to)),
        167 => Some(Instr::Goto(to)),
        198 => Some(Instr::Ifnull(to)),
        199 => Some(Instr::Ifnonnull(to)),
        200 => Some(Instr::GotoW(to)),
        _ => None,
    }
}

/// The load of a constant with this number; nothing for other numbers.
pub fn constant_instr(number: u8, value: Value) -> Option<Instr>
    ensures { result ≡ applied (row constant_instrs number) (Some value) }
{
    match number {
        18 => Some(Instr::Ldc(value)),
        19 => Some(Instr::LdcW(value)),
        20 => Some(Instr::Ldc2W(value)),
        _ => None,
    }
}

/// The access to a field with this number; nothing for other numbers.
pub fn field_instr(number: u8, field: FieldId) -> Option<Instr>
    ensures { result ≡ applied (row field_instrs number) (Some field) }
{
    match number {
        178 => Some(Instr::Getstatic(field)),
        180 => Some(Instr::Getfield(field)),
        181 => Some(Instr::Putfield(field)),
        _ => None,
    }
}

/// The call of a method with this number; nothing for other numbers.
pub fn method_instr(number: u8, method: MethodId) -> Option<Instr>
    ensures { result ≡ applied (row method_instrs number) (Some method) }
{
    match number {
        182 => Some(Instr::Invokevirtual(method)),
        183 => Some(Instr::Invokespecial(method)),
        184 => Some(Instr::Invokestatic(method)),
        _ => None,
    }
}

/// The instruction over a type with this number; nothing for other numbers.
pub fn type_instr(number: u8, ty: Ty) -> Option<Instr>
    ensures { result ≡ applied (row type_instrs number) (Some ty) }
{
    match number {
        189 => Some(Instr::Anewarray(ty)),
        192 => Some(Instr::Checkcast(ty)),
        193 => Some(Instr::Instanceof(ty)),
        _ => None,
    }
}

/// The type of the elements of an array that `newarray` makes by this code (JVMS table 6.5.newarray-A); nothing for
/// float, double and other codes.
pub fn array_code(code: u8) -> Option<Base>
    ensures { result ≡ row array_codes code }
{
    match code {
        4 => Some(Base::Bool),
        5 => Some(Base::Char),
        8 => Some(Base::Byte),
        9 => Some(Base::Short),
        10 => Some(Base::Int),
        11 => Some(Base::Long),
        _ => None,
    }
}
