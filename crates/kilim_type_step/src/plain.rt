//! Instructions whose operands depend on nothing: arithmetic, constants, jumps, and elements of arrays of primitive types.

ghost use Rattle.std.specs.Prelude.{◌≡◌, true, [], option_to_list};
ghost use Rattle.kilim_program.specs.declared.class.Method.{Method};
ghost use Rattle.kilim_program.specs.Program.{Program};
ghost use Rattle.kilim_type_spec.specs.Step.{row, type_step, Takes};
ghost use Rattle.kilim_type_step.specs.Answers.{answers};
ghost use Rattle.kilim_type_step.specs.Families.{is_arithmetic, is_plain};
ghost use Rattle.kilim_type_step.specs.Operands.{operands_of};

use crate::apply::apply;
use crate::fault::StepFault;
use crate::operands::Taken;
use crate::state::State;
use kilim_program::{Base, Instr, Method, Program, VType};

const INT: Taken = Taken::Is(VType::Int);

const LONG: Taken = Taken::Is(VType::Long);

// What is taken, the top first.
const NOTHING: &[Taken] = &[];

const ONE_INT: &[Taken] = &[INT];

const ONE_LONG: &[Taken] = &[LONG];

const TWO_INTS: &[Taken] = &[INT, INT];

const TWO_LONGS: &[Taken] = &[LONG, LONG];

const SHIFTED_LONG: &[Taken] = &[INT, LONG];

const ANY_ARRAY: &[Taken] = &[Taken::Array];

const INT_ELEMENT: &[Taken] = &[INT, Taken::ArrayOf(Base::Int)];

const LONG_ELEMENT: &[Taken] = &[INT, Taken::ArrayOf(Base::Long)];

const BYTE_ELEMENT: &[Taken] = &[INT, Taken::Bytes];

const CHAR_ELEMENT: &[Taken] = &[INT, Taken::ArrayOf(Base::Char)];

const SHORT_ELEMENT: &[Taken] = &[INT, Taken::ArrayOf(Base::Short)];

const STORED_INT: &[Taken] = &[INT, INT, Taken::ArrayOf(Base::Int)];

const STORED_LONG: &[Taken] = &[LONG, INT, Taken::ArrayOf(Base::Long)];

const STORED_BYTE: &[Taken] = &[INT, INT, Taken::Bytes];

const STORED_CHAR: &[Taken] = &[INT, INT, Taken::ArrayOf(Base::Char)];

const STORED_SHORT: &[Taken] = &[INT, INT, Taken::ArrayOf(Base::Short)];

// What an instruction of arithmetic takes, and what it gives.
#[tactic(auto, unfolding(kilim_type_spec::specs::Step::row))]
fn arithmetic_row(instr: &Instr) -> (&'static [Taken], Option<VType>)
    requires { is_arithmetic instr.now ≡ true }
    ensures { (p : Program) (m : Method) → row p m instr.now ≡ Takes (operands_of result.0.now) (option_to_list result.1) [] }
{
    match instr {
        Instr::Ineg | Instr::I2b | Instr::I2c | Instr::I2s => (ONE_INT, Some(VType::Int)),
        Instr::I2l => (ONE_INT, Some(VType::Long)),
        Instr::L2i => (ONE_LONG, Some(VType::Int)),
        Instr::Lneg => (ONE_LONG, Some(VType::Long)),
        Instr::Iadd
        | Instr::Isub
        | Instr::Imul
        | Instr::Idiv
        | Instr::Irem
        | Instr::Ishl
        | Instr::Ishr
        | Instr::Iushr
        | Instr::Iand
        | Instr::Ior
        | Instr::Ixor => (TWO_INTS, Some(VType::Int)),
        Instr::Lcmp => (TWO_LONGS, Some(VType::Int)),
        Instr::Ladd
        | Instr::Lsub
        | Instr::Lmul
        | Instr::Ldiv
        | Instr::Lrem
        | Instr::Land
        | Instr::Lor
        | Instr::Lxor => (TWO_LONGS, Some(VType::Long)),
        Instr::Lshl | Instr::Lshr | Instr::Lushr => (SHIFTED_LONG, Some(VType::Long)),
        _ => unreachable!(),
    }
}

// What a constant, a jump, an element's instruction or one of arithmetic takes, and what it gives.
#[tactic(auto, unfolding(kilim_type_spec::specs::Step::row))]
fn plain_row(instr: &Instr) -> (&'static [Taken], Option<VType>)
    requires { is_plain instr.now ≡ true }
    ensures { (p : Program) (m : Method) → row p m instr.now ≡ Takes (operands_of result.0.now) (option_to_list result.1) [] }
{
    match instr {
        Instr::Nop | Instr::Goto(_) | Instr::GotoW(_) => (NOTHING, None),
        Instr::AconstNull => (NOTHING, Some(VType::Null)),
        Instr::Iconst(_) | Instr::Bipush(_) | Instr::Sipush(_) => (NOTHING, Some(VType::Int)),
        Instr::Lconst(_) => (NOTHING, Some(VType::Long)),
        Instr::Ifeq(_)
        | Instr::Ifne(_)
        | Instr::Iflt(_)
        | Instr::Ifge(_)
        | Instr::Ifgt(_)
        | Instr::Ifle(_)
        | Instr::Tableswitch(_, _, _)
        | Instr::Lookupswitch(_, _) => (ONE_INT, None),
        Instr::IfIcmpeq(_)
        | Instr::IfIcmpne(_)
        | Instr::IfIcmplt(_)
        | Instr::IfIcmpge(_)
        | Instr::IfIcmpgt(_)
        | Instr::IfIcmple(_) => (TWO_INTS, None),
        Instr::Arraylength => (ANY_ARRAY, Some(VType::Int)),
        Instr::Iaload => (INT_ELEMENT, Some(VType::Int)),
        Instr::Laload => (LONG_ELEMENT, Some(VType::Long)),
        Instr::Baload => (BYTE_ELEMENT, Some(VType::Int)),
        Instr::Caload => (CHAR_ELEMENT, Some(VType::Int)),
        Instr::Saload => (SHORT_ELEMENT, Some(VType::Int)),
        Instr::Iastore => (STORED_INT, None),
        Instr::Lastore => (STORED_LONG, None),
        Instr::Bastore => (STORED_BYTE, None),
        Instr::Castore => (STORED_CHAR, None),
        Instr::Sastore => (STORED_SHORT, None),
        _ => arithmetic_row(instr),
    }
}

/// Arithmetic, constants, jumps that test no reference, and elements of arrays of primitive types.
pub fn on_plain(
    program: &Program,
    method: &Method,
    at: u32,
    instr: &Instr,
    state: &mut State,
) -> Result<(), StepFault>
    requires { is_plain instr.now ≡ true }
    ensures { answers (type_step program.now method.now at instr.now state.old) result state.new }
{
    let plain = plain_row(instr);
    apply(program, method, state, plain.0, plain.1, &[])
}
