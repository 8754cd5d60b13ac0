//! Whether instructions are equal.

ghost use Rattle.std.specs.Prelude.{◌≡◌, true};
ghost use Rattle.kilim_weave_file_sizes.specs.same_programs.Kinds.{jump_kind, kind, local_kind, name_of, named_kind, number_of, place_of, slot_of, sum_kind, type_of};

use crate::same_programs::lists::{same_matches, same_places};
use crate::same_programs::parts::{same_result, same_value};
use kilim_program::{Instr, Ty};

// That of one that names a class, a member or a type.
#[tactic(auto, unfolding(crate::specs::same_programs::Kinds::named_kind))]
fn named_kind(instr: &Instr) -> u8
    ensures { result ≡ named_kind instr.now }
{
    match instr {
        Instr::Getstatic(_) => 89,
        Instr::Getfield(_) => 90,
        Instr::Putfield(_) => 91,
        Instr::Invokevirtual(_) => 92,
        Instr::Invokespecial(_) => 93,
        Instr::Invokestatic(_) => 94,
        Instr::New(_) => 95,
        Instr::Newarray(_) => 96,
        Instr::Anewarray(_) => 97,
        Instr::Checkcast(_) => 98,
        Instr::Instanceof(_) => 99,
        _ => 0,
    }
}

// That of a jump, or of one below.
#[tactic(auto, unfolding(crate::specs::same_programs::Kinds::jump_kind))]
fn jump_kind(instr: &Instr) -> u8
    ensures { result ≡ jump_kind instr.now }
{
    match instr {
        Instr::Ifeq(_) => 71,
        Instr::Ifne(_) => 72,
        Instr::Iflt(_) => 73,
        Instr::Ifge(_) => 74,
        Instr::Ifgt(_) => 75,
        Instr::Ifle(_) => 76,
        Instr::Goto(_) => 77,
        Instr::Ifnull(_) => 78,
        Instr::Ifnonnull(_) => 79,
        Instr::GotoW(_) => 80,
        Instr::IfIcmpeq(_) => 81,
        Instr::IfIcmpne(_) => 82,
        Instr::IfIcmplt(_) => 83,
        Instr::IfIcmpge(_) => 84,
        Instr::IfIcmpgt(_) => 85,
        Instr::IfIcmple(_) => 86,
        Instr::IfAcmpeq(_) => 87,
        Instr::IfAcmpne(_) => 88,
        _ => named_kind(instr),
    }
}

// That of one with a constant or a local, or of those below.
#[tactic(auto, unfolding(crate::specs::same_programs::Kinds::local_kind))]
fn local_kind(instr: &Instr) -> u8
    ensures { result ≡ local_kind instr.now }
{
    match instr {
        Instr::Iconst(_) => 60,
        Instr::Lconst(_) => 61,
        Instr::Bipush(_) => 62,
        Instr::Sipush(_) => 63,
        Instr::Iload(_) => 64,
        Instr::Lload(_) => 65,
        Instr::Aload(_) => 66,
        Instr::Istore(_) => 67,
        Instr::Lstore(_) => 68,
        Instr::Astore(_) => 69,
        Instr::Iinc(_, _) => 70,
        _ => jump_kind(instr),
    }
}

// That of one that computes, or of those below.
#[tactic(auto, unfolding(crate::specs::same_programs::Kinds::sum_kind))]
fn sum_kind(instr: &Instr) -> u8
    ensures { result ≡ sum_kind instr.now }
{
    match instr {
        Instr::Iadd => 30,
        Instr::Ladd => 31,
        Instr::Isub => 32,
        Instr::Lsub => 33,
        Instr::Imul => 34,
        Instr::Lmul => 35,
        Instr::Idiv => 36,
        Instr::Ldiv => 37,
        Instr::Irem => 38,
        Instr::Lrem => 39,
        Instr::Ineg => 40,
        Instr::Lneg => 41,
        Instr::Ishl => 42,
        Instr::Lshl => 43,
        Instr::Ishr => 44,
        Instr::Lshr => 45,
        Instr::Iushr => 46,
        Instr::Lushr => 47,
        Instr::Iand => 48,
        Instr::Land => 49,
        Instr::Ior => 50,
        Instr::Lor => 51,
        Instr::Ixor => 52,
        Instr::Lxor => 53,
        Instr::I2l => 54,
        Instr::L2i => 55,
        Instr::I2b => 56,
        Instr::I2c => 57,
        Instr::I2s => 58,
        Instr::Lcmp => 59,
        _ => local_kind(instr),
    }
}

// The number of an instruction's kind; 0 for a load of a constant of the pool and for a switch.
#[tactic(auto, unfolding(crate::specs::same_programs::Kinds::kind))]
fn kind(instr: &Instr) -> u8
    ensures { result ≡ kind instr.now }
{
    match instr {
        Instr::Nop => 1,
        Instr::AconstNull => 2,
        Instr::Iaload => 3,
        Instr::Laload => 4,
        Instr::Aaload => 5,
        Instr::Baload => 6,
        Instr::Caload => 7,
        Instr::Saload => 8,
        Instr::Iastore => 9,
        Instr::Lastore => 10,
        Instr::Aastore => 11,
        Instr::Bastore => 12,
        Instr::Castore => 13,
        Instr::Sastore => 14,
        Instr::Arraylength => 15,
        Instr::Ireturn => 16,
        Instr::Lreturn => 17,
        Instr::Areturn => 18,
        Instr::Return => 19,
        Instr::Athrow => 20,
        Instr::Pop => 21,
        Instr::Pop2 => 22,
        Instr::Dup => 23,
        Instr::DupX1 => 24,
        Instr::DupX2 => 25,
        Instr::Dup2 => 26,
        Instr::Dup2X1 => 27,
        Instr::Dup2X2 => 28,
        Instr::Swap => 29,
        _ => sum_kind(instr),
    }
}

// Where a jump goes, or 0.
#[tactic(auto, unfolding(crate::specs::same_programs::Kinds::place_of))]
fn place(instr: &Instr) -> u32
    ensures { result ≡ place_of instr.now }
{
    match instr {
        Instr::Ifeq(to)
        | Instr::Ifne(to)
        | Instr::Iflt(to)
        | Instr::Ifge(to)
        | Instr::Ifgt(to)
        | Instr::Ifle(to)
        | Instr::Goto(to)
        | Instr::Ifnull(to)
        | Instr::Ifnonnull(to)
        | Instr::GotoW(to)
        | Instr::IfIcmpeq(to)
        | Instr::IfIcmpne(to)
        | Instr::IfIcmplt(to)
        | Instr::IfIcmpge(to)
        | Instr::IfIcmpgt(to)
        | Instr::IfIcmple(to)
        | Instr::IfAcmpeq(to)
        | Instr::IfAcmpne(to) => *to,
        _ => 0,
    }
}

// The local that is read or written, or 0.
#[tactic(auto, unfolding(crate::specs::same_programs::Kinds::slot_of))]
fn slot(instr: &Instr) -> u16
    ensures { result ≡ slot_of instr.now }
{
    match instr {
        Instr::Iload(slot)
        | Instr::Lload(slot)
        | Instr::Aload(slot)
        | Instr::Istore(slot)
        | Instr::Lstore(slot)
        | Instr::Astore(slot)
        | Instr::Iinc(slot, _) => *slot,
        _ => 0,
    }
}

// The number that is pushed or added, or 0.
#[tactic(auto, unfolding(crate::specs::same_programs::Kinds::number_of))]
fn number(instr: &Instr) -> i64
    ensures { result ≡ number_of instr.now }
{
    match instr {
        Instr::Iconst(n) => i64::from(*n),
        Instr::Lconst(n) => *n,
        Instr::Bipush(n) => i64::from(*n),
        Instr::Sipush(n) | Instr::Iinc(_, n) => i64::from(*n),
        _ => 0,
    }
}

// The number of the class or the member, or 0.
#[tactic(auto, unfolding(crate::specs::same_programs::Kinds::name_of))]
fn name(instr: &Instr) -> u32
    ensures { result ≡ name_of instr.now }
{
    match instr {
        Instr::Getstatic(x) | Instr::Getfield(x) | Instr::Putfield(x) => x.0,
        Instr::Invokevirtual(x) | Instr::Invokespecial(x) | Instr::Invokestatic(x) => x.0,
        Instr::New(x) => x.0,
        _ => 0,
    }
}

// The type, or none.
#[tactic(auto, unfolding(crate::specs::same_programs::Kinds::type_of))]
fn ty(instr: &Instr) -> Option<Ty>
    ensures { result ≡ type_of instr.now }
{
    match instr {
        Instr::Newarray(base) => Some(Ty {
            dims: 0,
            base: *base,
        }),
        Instr::Anewarray(ty) | Instr::Checkcast(ty) | Instr::Instanceof(ty) => Some(*ty),
        _ => None,
    }
}

// Whether their numbers are equal, of each sort.
fn same_numbers(one: &Instr, other: &Instr) -> bool
    ensures place { result ≡ true → place_of one.now ≡ place_of other.now }
    ensures slot { result ≡ true → slot_of one.now ≡ slot_of other.now }
    ensures number { result ≡ true → number_of one.now ≡ number_of other.now }
    ensures name { result ≡ true → name_of one.now ≡ name_of other.now }
{
    place(one) == place(other)
        && slot(one) == slot(other)
        && number(one) == number(other)
        && name(one) == name(other)
}

// Two that have a kind.
fn same_kinds(one: &Instr, other: &Instr) -> bool
    ensures { result ≡ true → one.now ≡ other.now }
{
    let kind_here = kind(one);
    if kind_here == 0 {
        return false;
    }
    if kind_here != kind(other) {
        return false;
    }
    if !same_numbers(one, other) {
        return false;
    }
    same_result(ty(one), ty(other))
}

// A load of a constant of the pool.
fn same_constant_load(one: &Instr, other: &Instr) -> bool
    ensures { result ≡ true → one.now ≡ other.now }
{
    match (one, other) {
        (Instr::Ldc(a), Instr::Ldc(b)) => same_value(a, b),
        (Instr::LdcW(a), Instr::LdcW(b)) => same_value(a, b),
        (Instr::Ldc2W(a), Instr::Ldc2W(b)) => same_value(a, b),
        _ => false,
    }
}

// A switch.
fn same_switch(one: &Instr, other: &Instr) -> bool
    ensures { result ≡ true → one.now ≡ other.now }
{
    match (one, other) {
        (Instr::Tableswitch(a, m, xs), Instr::Tableswitch(b, n, ys)) => {
            a == b && m == n && same_places(xs.as_slice(), ys.as_slice())
        }
        (Instr::Lookupswitch(a, xs), Instr::Lookupswitch(b, ys)) => {
            a == b && same_matches(xs.as_slice(), ys.as_slice())
        }
        _ => false,
    }
}

/// Two instructions.
pub fn same_instr(one: &Instr, other: &Instr) -> bool
    ensures { result ≡ true → one.now ≡ other.now }
{
    same_kinds(one, other) || same_constant_load(one, other) || same_switch(one, other)
}
