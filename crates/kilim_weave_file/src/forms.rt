//! Instructions in the forms in which they are written.

ghost use Rattle.std.specs.Prelude.{◌≡◌, ◌+◌, ◌≤◌, pos, map, IfOk};
ghost use Rattle.kilim_class_code.specs.declared.opcodes.instr.RawInstr.TheVariants as raw;
ghost use Rattle.kilim_weave_file_spec.specs.Raw.{added_need, added_raw, index_or, int_form, local_form, long_form, moved_raw, old_need, pair_number, place_number, shortest, switched, target_of};

use crate::needs::{added_need, old_need};
use kilim_class_code::opcodes::RawInstr;
use kilim_class_making::pool_needs::{Need, index_of};
use kilim_class_pool::Pool;
use kilim_program::{Instr, Program};
use kilim_units::{NoMemory, Seq, unmet};
use std::alloc::Global;

const TABLESWITCH: u8 = 170;

const LOOKUPSWITCH: u8 = 171;

// A load or a store: `short` is the number of its form with slot 0, `long` that of its form with a slot.
fn local_form(short: u8, long: u8, slot: u16) -> RawInstr
    requires { short + 4 ≤ 255 }
    ensures { result ≡ local_form short long slot }
{
    if slot < 4 {
        RawInstr::Plain(short + slot as u8)
    } else if slot < 256 {
        RawInstr::Local(long, slot as u8)
    } else {
        RawInstr::WideLocal(long, slot)
    }
}

// Weaving adds none that isn't a short constant; another would be answered as want of memory.
fn int_form(n: i32) -> Result<RawInstr, NoMemory>
    ensures { IfOk result (λ r. r ≡ int_form n) }
{
    if n < 0 {
        return Ok(RawInstr::Plain(2));
    }
    if n > 5 {
        // unmet: weaving adds iconst up to 5 alone
        return Err(unmet());
    }
    Ok(RawInstr::Plain(3 + n as u8))
}

fn long_form(n: i64) -> Result<RawInstr, NoMemory>
    ensures { IfOk result (λ r. r ≡ long_form n) }
{
    if n < 0 {
        return Ok(RawInstr::Plain(9));
    }
    if n > 1 {
        // unmet: weaving adds lconst up to 1 alone
        return Err(unmet());
    }
    Ok(RawInstr::Plain(9 + n as u8))
}

fn place_numbers(alloc: Global, targets: &[u32]) -> Result<Seq<i64>, NoMemory>
    ensures { IfOk result (λ v. v ≡ map place_number targets.now) }
{
    let mut all = Vec::new(alloc);
    for to in targets {
        let Ok(()) = all.push(i64::from(*to)) else {
            return Err(NoMemory);
        };
    }
    Ok(Seq::from_vec(all))
}

fn pair_numbers(alloc: Global, pairs: &[(i32, u32)]) -> Result<Seq<(i32, i64)>, NoMemory>
    ensures { IfOk result (λ v. v ≡ map pair_number pairs.now) }
{
    let mut all = Vec::new(alloc);
    for pair in pairs {
        let Ok(()) = all.push((pair.0, i64::from(pair.1))) else {
            return Err(NoMemory);
        };
    }
    Ok(Seq::from_vec(all))
}

fn table_form(alloc: Global, default: u32, low: i32, targets: &[u32]) -> Result<RawInstr, NoMemory>
    ensures { IfOk result (λ r. r ≡ raw.TableSwitch 170 (pos default) low (map place_number targets.now)) }
{
    let Ok(all) = place_numbers(alloc, targets) else {
        return Err(NoMemory);
    };
    Ok(RawInstr::TableSwitch(TABLESWITCH, i64::from(default), low, all))
}

fn lookup_form(alloc: Global, default: u32, pairs: &[(i32, u32)]) -> Result<RawInstr, NoMemory>
    ensures { IfOk result (λ r. r ≡ raw.LookupSwitch 171 (pos default) (map pair_number pairs.now)) }
{
    let Ok(all) = pair_numbers(alloc, pairs) else {
        return Err(NoMemory);
    };
    Ok(RawInstr::LookupSwitch(LOOKUPSWITCH, i64::from(default), all))
}

fn copied(instr: &RawInstr) -> Result<RawInstr, NoMemory>
    ensures { IfOk result (λ r. r ≡ instr.now) }
{
    Ok(instr.clone()?)
}

// A load or a store in its shortest form; other instructions stay.
fn shortest(instr: &Instr, old: &RawInstr) -> Result<RawInstr, NoMemory>
    ensures { IfOk result (λ r. r ≡ shortest instr.now old.now) }
{
    match instr {
        Instr::Iload(slot) => Ok(local_form(26, 21, *slot)),
        Instr::Lload(slot) => Ok(local_form(30, 22, *slot)),
        Instr::Aload(slot) => Ok(local_form(42, 25, *slot)),
        Instr::Istore(slot) => Ok(local_form(59, 54, *slot)),
        Instr::Lstore(slot) => Ok(local_form(63, 55, *slot)),
        Instr::Astore(slot) => Ok(local_form(75, 58, *slot)),
        _ => copied(old),
    }
}

// Where an old jump goes now.
fn target_of(instr: &Instr) -> u32
    ensures { result ≡ target_of instr.now }
{
    match instr {
        Instr::Ifeq(to)
        | Instr::Ifne(to)
        | Instr::Iflt(to)
        | Instr::Ifge(to)
        | Instr::Ifgt(to)
        | Instr::Ifle(to)
        | Instr::IfIcmpeq(to)
        | Instr::IfIcmpne(to)
        | Instr::IfIcmplt(to)
        | Instr::IfIcmpge(to)
        | Instr::IfIcmpgt(to)
        | Instr::IfIcmple(to)
        | Instr::IfAcmpeq(to)
        | Instr::IfAcmpne(to)
        | Instr::Goto(to)
        | Instr::Ifnull(to)
        | Instr::Ifnonnull(to)
        | Instr::GotoW(to) => *to,
        _ => 0,
    }
}

// A switch where it goes now.
fn switched(alloc: Global, instr: &Instr, old: &RawInstr) -> Result<RawInstr, NoMemory>
    ensures { IfOk result (λ r. r ≡ switched instr.now old.now) }
{
    match instr {
        Instr::Tableswitch(default, low, targets) => {
            table_form(alloc, *default, *low, targets.as_slice())
        }
        Instr::Lookupswitch(default, pairs) => lookup_form(alloc, *default, pairs.as_slice()),
        _ => copied(old),
    }
}

fn index_or(pool: &Pool, index: u16, need: &Option<Need>) -> u16
    ensures { result ≡ index_or pool.now index need.now }
{
    match need {
        None => index,
        Some(need) => index_of(pool, need),
    }
}

// An instruction with its index, or with that of the method that is called with the fiber.
fn moved_index(
    alloc: Global,
    program: &Program,
    old: &Pool,
    pool: &Pool,
    instr: &Instr,
    was: &RawInstr,
    number: u8,
    index: u16,
) -> Result<RawInstr, NoMemory>
    ensures { IfOk result (λ r. r ≡ raw.Index number (index_or pool.now index (old_need program.now old.now instr.now was.now))) }
{
    let Ok(need) = old_need(alloc, program, old, instr, was) else {
        return Err(NoMemory);
    };
    let found = index_or(pool, index, &need);
    drop(need);
    Ok(RawInstr::Index(number, found))
}

/// An old instruction at its new place, with the indices of the new pool: it keeps its form and its index, but for jumps,
/// switches, loads, stores and pausable calls. The old pool says what it names.
#[tactic(auto, unfolding(kilim_weave_file_spec::specs::Raw::moved_raw))]
pub fn moved_raw(
    alloc: Global,
    program: &Program,
    old: &Pool,
    pool: &Pool,
    instr: &Instr,
    was: &RawInstr,
) -> Result<RawInstr, NoMemory>
    ensures { IfOk result (λ r. r ≡ moved_raw program.now old.now pool.now instr.now was.now) }
{
    match was {
        RawInstr::Plain(_) | RawInstr::Local(_, _) | RawInstr::WideLocal(_, _) => {
            shortest(instr, was)
        }
        RawInstr::Jump(number, _) => { Ok(RawInstr::Jump(*number, i64::from(target_of(instr)))) }
        RawInstr::WideJump(number, _) => {
            Ok(RawInstr::WideJump(*number, i64::from(target_of(instr))))
        }
        RawInstr::TableSwitch(_, _, _, _) | RawInstr::LookupSwitch(_, _, _) => {
            switched(alloc, instr, was)
        }
        RawInstr::Index(number, index) => {
            moved_index(alloc, program, old, pool, instr, was, *number, *index)
        }
        _ => copied(was),
    }
}

// An instruction that weaving adds, with the index of what it needs.
fn added_index(
    alloc: Global,
    program: &Program,
    pool: &Pool,
    instr: &Instr,
    number: u8,
) -> Result<RawInstr, NoMemory>
    ensures { IfOk result (λ r. r ≡ raw.Index number (index_or pool.now 0 (added_need program.now instr.now))) }
{
    let Ok(need) = added_need(alloc, program, instr) else {
        return Err(NoMemory);
    };
    let found = index_or(pool, 0, &need);
    drop(need);
    Ok(RawInstr::Index(number, found))
}

/// An instruction that weaving adds, with the indices of the new pool.
#[tactic(auto, unfolding(kilim_weave_file_spec::specs::Raw::added_raw))]
pub fn added_raw(
    alloc: Global,
    program: &Program,
    pool: &Pool,
    instr: &Instr,
) -> Result<RawInstr, NoMemory>
    ensures { IfOk result (λ r. r ≡ added_raw program.now pool.now instr.now) }
{
    match instr {
        Instr::Iload(_)
        | Instr::Lload(_)
        | Instr::Aload(_)
        | Instr::Istore(_)
        | Instr::Lstore(_)
        | Instr::Astore(_) => shortest(instr, &RawInstr::Plain(0)),
        Instr::AconstNull => Ok(RawInstr::Plain(1)),
        Instr::Iconst(n) => int_form(*n),
        Instr::Lconst(n) => long_form(*n),
        Instr::Bipush(n) => Ok(RawInstr::Byte(16, *n)),
        Instr::Sipush(n) => Ok(RawInstr::Short(17, *n)),
        Instr::Pop => Ok(RawInstr::Plain(87)),
        Instr::Pop2 => Ok(RawInstr::Plain(88)),
        Instr::Ireturn => Ok(RawInstr::Plain(172)),
        Instr::Lreturn => Ok(RawInstr::Plain(173)),
        Instr::Areturn => Ok(RawInstr::Plain(176)),
        Instr::Return => Ok(RawInstr::Plain(177)),
        Instr::Ifeq(to) => Ok(RawInstr::Jump(153, i64::from(*to))),
        Instr::Goto(to) => Ok(RawInstr::Jump(167, i64::from(*to))),
        Instr::Tableswitch(default, low, targets) => {
            table_form(alloc, *default, *low, targets.as_slice())
        }
        Instr::Invokevirtual(_) => added_index(alloc, program, pool, instr, 182),
        Instr::Invokestatic(_) => added_index(alloc, program, pool, instr, 184),
        Instr::Checkcast(_) => added_index(alloc, program, pool, instr, 192),
        _ => Ok(RawInstr::Plain(0)),
    }
}
