//! The instructions that neither call nor make anything, in code: those that a loop over one frame does, with the frame in its own variables.

ghost use Rattle.std.specs.Prelude.{◌≡◌, ◌≤◌, false};
ghost use Rattle.kilim_run_machine.specs.Does.{does};
ghost use Rattle.kilim_run_rows.specs.Outcome.{is_stuck, height, SameFrame};
ghost use Rattle.kilim_run_interp.specs.instruction.Near.{ShowsNear};

use crate::instruction::operations::{binary_of, shift_of, unary_of};
use kilim_program::{Instr, Method, Program, Value};
use kilim_run_rows::{
    Binary, Division, Moved, Test, array_length, cast, compare_longs, constant, copy_below_one,
    copy_below_two, copy_two, copy_two_below_one, copy_two_below_two, copy_word, divide_ints,
    divide_longs, increase, int_to_long, jump_by_match, jump_by_table, jump_on_int, jump_on_null,
    jump_on_references, jump_on_two_ints, load_constant, load_int, load_long, load_reference,
    long_to_int, negate_long, one_int, pop_two, pop_word, read_constant, read_field, read_int,
    read_long, read_reference, shift_int, shift_long, store_int, store_long, store_reference,
    swap_words, test_type, throw_object, two_ints, two_longs, write_field, write_int, write_long,
    write_narrowed, write_reference,
};
use kilim_run_state::Heap;
use kilim_run_state::frames::Frame;

/// One instruction of a frame, a line for each: none where it calls or makes something, and then nothing is done.
///
/// Each caller names a type of its own, and so has a copy that nobody else calls. The compiler puts such a copy into its one caller whatever its
/// size, while it leaves a function of this size where it is that two call: then a loop has its frame in memory at each instruction.
#[tactic(auto, unfolding(kilim_run_machine::specs::Does::does))]
#[inline(always)]
pub fn act_near<Caller>(
    instr: &Instr,
    program: &Program,
    own: &Method,
    next: u32,
    frame: &mut Frame,
    heap: &mut Heap,
) -> Option<Moved>
    requires fine { is_stuck (does program.now own.now instr.now next frame.old.locals frame.old.stack.values heap.old) ≡ false }
    requires room { height (does program.now own.now instr.now next frame.old.locals frame.old.stack.values heap.old) ≤ frame.old.stack.room }
    ensures step { ShowsNear own.now instr.now (does program.now own.now instr.now next frame.old.locals frame.old.stack.values heap.old) next result frame.old frame.new heap.old heap.new }
    ensures same { SameFrame frame.old frame.new }
{
    // Most instructions only read the heap.
    let read: &Heap = heap;
    match *instr {
        Instr::Nop => Some(Moved::Next),
        Instr::AconstNull => Some(constant(Value::Null, own, next, frame, read)),
        Instr::Iconst(n) => Some(constant(Value::Int(n), own, next, frame, read)),
        Instr::Lconst(n) => Some(constant(Value::Long(n), own, next, frame, read)),
        Instr::Bipush(n) => Some(constant(Value::Int(i32::from(n)), own, next, frame, read)),
        Instr::Sipush(n) => Some(constant(Value::Int(i32::from(n)), own, next, frame, read)),
        Instr::Ldc(ref value) | Instr::LdcW(ref value) | Instr::Ldc2W(ref value) => {
            Some(load_constant(value, own, next, frame, read))
        }
        Instr::Iload(slot) => Some(load_int(slot, program, own, next, frame, read)),
        Instr::Lload(slot) => Some(load_long(slot, program, own, next, frame, read)),
        Instr::Aload(slot) => Some(load_reference(slot, program, own, next, frame, read)),
        Instr::Istore(slot) => Some(store_int(slot, program, own, next, frame, read)),
        Instr::Lstore(slot) => Some(store_long(slot, program, own, next, frame, read)),
        Instr::Astore(slot) => Some(store_reference(slot, program, own, next, frame, read)),
        Instr::Iinc(slot, by) => Some(increase(slot, by, program, own, next, frame, read)),
        Instr::Iaload | Instr::Baload | Instr::Caload | Instr::Saload => {
            Some(read_int(own, next, frame, read))
        }
        Instr::Laload => Some(read_long(program, own, next, frame, read)),
        Instr::Aaload => Some(read_reference(program, own, next, frame, read)),
        Instr::Iastore => Some(write_int(program, own, next, frame, heap)),
        Instr::Lastore => Some(write_long(program, own, next, frame, heap)),
        Instr::Aastore => Some(write_reference(program, own, next, frame, heap)),
        Instr::Bastore | Instr::Castore | Instr::Sastore => {
            Some(write_narrowed(own, next, frame, heap))
        }
        Instr::Pop => Some(pop_word(program, own, next, frame, read)),
        Instr::Pop2 => Some(pop_two(program, own, next, frame, read)),
        Instr::Dup => Some(copy_word(program, own, next, frame, read)),
        Instr::DupX1 => Some(copy_below_one(program, own, next, frame, read)),
        Instr::DupX2 => Some(copy_below_two(program, own, next, frame, read)),
        Instr::Dup2 => Some(copy_two(program, own, next, frame, read)),
        Instr::Dup2X1 => Some(copy_two_below_one(program, own, next, frame, read)),
        Instr::Dup2X2 => Some(copy_two_below_two(program, own, next, frame, read)),
        Instr::Swap => Some(swap_words(program, own, next, frame, read)),
        Instr::Iadd => Some(two_ints(Binary::Add, own, next, frame, read)),
        Instr::Isub => Some(two_ints(Binary::Sub, own, next, frame, read)),
        Instr::Imul => Some(two_ints(Binary::Mul, own, next, frame, read)),
        Instr::Iand => Some(two_ints(Binary::And, own, next, frame, read)),
        Instr::Ior => Some(two_ints(Binary::Or, own, next, frame, read)),
        Instr::Ixor => Some(two_ints(Binary::Xor, own, next, frame, read)),
        Instr::Ladd | Instr::Lsub | Instr::Lmul | Instr::Land | Instr::Lor | Instr::Lxor => {
            Some(two_longs(binary_of(instr), own, next, frame, read))
        }
        Instr::Idiv => Some(divide_ints(Division::Quotient, own, next, frame, read)),
        Instr::Ldiv => Some(divide_longs(Division::Quotient, own, next, frame, read)),
        Instr::Irem => Some(divide_ints(Division::Remainder, own, next, frame, read)),
        Instr::Lrem => Some(divide_longs(Division::Remainder, own, next, frame, read)),
        Instr::Ishl | Instr::Ishr | Instr::Iushr => {
            Some(shift_int(shift_of(instr), own, next, frame, read))
        }
        Instr::Lshl | Instr::Lshr | Instr::Lushr => {
            Some(shift_long(shift_of(instr), own, next, frame, read))
        }
        Instr::Ineg | Instr::I2b | Instr::I2c | Instr::I2s => {
            Some(one_int(unary_of(instr), own, next, frame, read))
        }
        Instr::Lneg => Some(negate_long(program, own, next, frame, read)),
        Instr::I2l => Some(int_to_long(program, own, next, frame, read)),
        Instr::L2i => Some(long_to_int(program, own, next, frame, read)),
        Instr::Lcmp => Some(compare_longs(program, own, next, frame, read)),
        Instr::Ifeq(to) => Some(jump_on_int(Test::Eq, to, own, next, frame, read)),
        Instr::Ifne(to) => Some(jump_on_int(Test::Ne, to, own, next, frame, read)),
        Instr::Iflt(to) => Some(jump_on_int(Test::Lt, to, own, next, frame, read)),
        Instr::Ifge(to) => Some(jump_on_int(Test::Ge, to, own, next, frame, read)),
        Instr::Ifgt(to) => Some(jump_on_int(Test::Gt, to, own, next, frame, read)),
        Instr::Ifle(to) => Some(jump_on_int(Test::Le, to, own, next, frame, read)),
        Instr::IfIcmpeq(to) => Some(jump_on_two_ints(Test::Eq, to, own, next, frame, read)),
        Instr::IfIcmpne(to) => Some(jump_on_two_ints(Test::Ne, to, own, next, frame, read)),
        Instr::IfIcmplt(to) => Some(jump_on_two_ints(Test::Lt, to, own, next, frame, read)),
        Instr::IfIcmpge(to) => Some(jump_on_two_ints(Test::Ge, to, own, next, frame, read)),
        Instr::IfIcmpgt(to) => Some(jump_on_two_ints(Test::Gt, to, own, next, frame, read)),
        Instr::IfIcmple(to) => Some(jump_on_two_ints(Test::Le, to, own, next, frame, read)),
        Instr::IfAcmpeq(to) => Some(jump_on_references(true, to, own, next, frame, read)),
        Instr::IfAcmpne(to) => Some(jump_on_references(false, to, own, next, frame, read)),
        Instr::Ifnull(to) => Some(jump_on_null(true, to, own, next, frame, read)),
        Instr::Ifnonnull(to) => Some(jump_on_null(false, to, own, next, frame, read)),
        Instr::Goto(to) | Instr::GotoW(to) => Some(Moved::Jump(to)),
        Instr::Tableswitch(default, ref low, ref targets) => Some(jump_by_table(
            default, low, targets, program, own, next, frame, read,
        )),
        Instr::Lookupswitch(default, ref matches) => Some(jump_by_match(
            default, matches, program, own, next, frame, read,
        )),
        Instr::Ireturn | Instr::Lreturn | Instr::Areturn => Some(Moved::ReturnedValue),
        Instr::Return => Some(Moved::Returned),
        Instr::Getstatic(field) => Some(read_constant(field, program, own, next, frame, read)),
        Instr::Getfield(field) => Some(read_field(field, program, own, next, frame, read)),
        Instr::Putfield(field) => Some(write_field(field, program, own, next, frame, heap)),
        Instr::Arraylength => Some(array_length(program, own, next, frame, read)),
        Instr::Checkcast(ref ty) => Some(cast(ty, program, own, next, frame, read)),
        Instr::Instanceof(ref ty) => Some(test_type(ty, program, own, next, frame, read)),
        Instr::Athrow => Some(throw_object(program, own, next, frame, read)),
        Instr::Invokevirtual(_) => None,
        Instr::Invokespecial(_) => None,
        Instr::Invokestatic(_) => None,
        Instr::New(_) => None,
        Instr::Newarray(_) => None,
        Instr::Anewarray(_) => None,
    }
}
