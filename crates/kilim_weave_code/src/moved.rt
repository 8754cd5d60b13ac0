//! Instructions with their targets moved (JVMS 6.5).

ghost use Rattle.std.specs.Prelude.{◌≡◌, ◌-◌, ◌<◌, Some, length, map, slice_get, IfOk};
ghost use Rattle.kilim_weave_pieces.specs.Items.{has_target, is_kept, size_of, target_of, Moves};
ghost use Rattle.kilim_weave_spec.specs.Woven as form;
ghost use Rattle.kilim_weave_pieces.specs.Places.{at_in};

use crate::copies::copied;
use kilim_program::Instr;
use kilim_units::{NoMemory, Seq, no_room, unmet};
use kilim_weave_pieces::{Places, Size, local_size};
use std::alloc::Global;

fn moved_places(alloc: Global, places: &Places, targets: &[u32]) -> Result<Seq<u32>, NoMemory>
    ensures { IfOk result (λ v. v ≡ map (at_in places.now) targets.now) }
{
    let mut all = Seq::new(alloc);
    for target in targets {
        let Ok(to) = places.at(*target) else {
            return Err(NoMemory);
        };
        let Ok(()) = all.push(to) else {
            return Err(NoMemory);
        };
    }
    Ok(all)
}

fn pair_at(pairs: &[(i32, u32)], at: usize) -> (i32, u32)
    requires { at < length pairs.now }
    ensures { slice_get pairs.now at ≡ Some result }
{
    pairs[at]
}

fn moved_pair(places: &Places, pair: (i32, u32)) -> Result<(i32, u32), NoMemory>
    ensures { IfOk result (λ moved. moved ≡ (pair.0, at_in places.now pair.1)) }
{
    let Ok(to) = places.at(pair.1) else {
        return Err(NoMemory);
    };
    Ok((pair.0, to))
}

fn moved_pairs(
    alloc: Global,
    places: &Places,
    pairs: &[(i32, u32)],
) -> Result<Seq<(i32, u32)>, NoMemory>
    ensures { IfOk result (λ v. v ≡ map (λ pair. (pair.0, at_in places.now pair.1)) pairs.now) }
{
    let mut all = Seq::new(alloc);
    for at in 0..pairs.len() {
        let pair = pair_at(pairs, at);
        let Ok(moved) = moved_pair(places, pair) else {
            return Err(NoMemory);
        };
        let Ok(()) = all.push(moved) else {
            return Err(NoMemory);
        };
    }
    Ok(all)
}

fn moved_table(
    alloc: Global,
    places: &Places,
    default: u32,
    low: i32,
    targets: &[u32],
) -> Result<Instr, NoMemory>
    ensures { IfOk result (λ i. i ≡ Instr.Tableswitch (at_in places.now default) low (map (at_in places.now) targets.now)) }
{
    let Ok(to) = places.at(default) else {
        return Err(NoMemory);
    };
    let Ok(table) = moved_places(alloc, places, targets) else {
        return Err(NoMemory);
    };
    Ok(Instr::Tableswitch(to, low, table))
}

fn moved_lookup(
    alloc: Global,
    places: &Places,
    default: u32,
    pairs: &[(i32, u32)],
) -> Result<Instr, NoMemory>
    ensures { IfOk result (λ i. i ≡ Instr.Lookupswitch (at_in places.now default) (form.moved_pairs (at_in places.now) pairs.now)) }
{
    let Ok(to) = places.at(default) else {
        return Err(NoMemory);
    };
    let Ok(all) = moved_pairs(alloc, places, pairs) else {
        return Err(NoMemory);
    };
    Ok(Instr::Lookupswitch(to, all))
}

/// Where a jump goes; 0 for others.
pub fn target_of(instr: &Instr) -> u32
    ensures { result ≡ target_of instr.now }
{
    match instr {
        Instr::Ifeq(to)
        | Instr::Ifne(to)
        | Instr::Iflt(to)
        | Instr::Ifge(to)
        | Instr::Ifgt(to)
        | Instr::Ifle(to)
        | Instr::Goto(to)
        | Instr::Ifnull(to)
        | Instr::Ifnonnull(to)
        | Instr::GotoW(to)
        | Instr::IfIcmpeq(to)
        | Instr::IfIcmpne(to)
        | Instr::IfIcmplt(to)
        | Instr::IfIcmpge(to)
        | Instr::IfIcmpgt(to)
        | Instr::IfIcmple(to)
        | Instr::IfAcmpeq(to)
        | Instr::IfAcmpne(to) => *to,
        _ => 0,
    }
}

/// A jump that goes to a place. None other is given to it.
pub fn jump_to(instr: &Instr, to: u32) -> Result<Instr, NoMemory>
    ensures { IfOk result (λ i. Moves to i instr.now) }
{
    match instr {
        Instr::Ifeq(_) => Ok(Instr::Ifeq(to)),
        Instr::Ifne(_) => Ok(Instr::Ifne(to)),
        Instr::Iflt(_) => Ok(Instr::Iflt(to)),
        Instr::Ifge(_) => Ok(Instr::Ifge(to)),
        Instr::Ifgt(_) => Ok(Instr::Ifgt(to)),
        Instr::Ifle(_) => Ok(Instr::Ifle(to)),
        Instr::Goto(_) => Ok(Instr::Goto(to)),
        Instr::Ifnull(_) => Ok(Instr::Ifnull(to)),
        Instr::Ifnonnull(_) => Ok(Instr::Ifnonnull(to)),
        Instr::GotoW(_) => Ok(Instr::GotoW(to)),
        Instr::IfIcmpeq(_) => Ok(Instr::IfIcmpeq(to)),
        Instr::IfIcmpne(_) => Ok(Instr::IfIcmpne(to)),
        Instr::IfIcmplt(_) => Ok(Instr::IfIcmplt(to)),
        Instr::IfIcmpge(_) => Ok(Instr::IfIcmpge(to)),
        Instr::IfIcmpgt(_) => Ok(Instr::IfIcmpgt(to)),
        Instr::IfIcmple(_) => Ok(Instr::IfIcmple(to)),
        Instr::IfAcmpeq(_) => Ok(Instr::IfAcmpeq(to)),
        Instr::IfAcmpne(_) => Ok(Instr::IfAcmpne(to)),
        // unmet: the caller's match has the jumps alone
        _ => Err(unmet()),
    }
}

// A jump, with its target moved.
fn moved_jump(places: &Places, instr: &Instr) -> Result<Instr, NoMemory>
    ensures { IfOk result (λ i. i ≡ form.moved_instr (at_in places.now) instr.now) }
{
    let Ok(to) = places.at(target_of(instr)) else {
        return Err(NoMemory);
    };
    jump_to(instr, to)
}

// Whether an instruction has a target: a jump or a switch.
fn has_target(instr: &Instr) -> bool
    ensures { result ≡ has_target instr.now }
{
    match instr {
        Instr::Ifeq(_)
        | Instr::Ifne(_)
        | Instr::Iflt(_)
        | Instr::Ifge(_)
        | Instr::Ifgt(_)
        | Instr::Ifle(_)
        | Instr::Goto(_)
        | Instr::Ifnull(_)
        | Instr::Ifnonnull(_)
        | Instr::GotoW(_)
        | Instr::IfIcmpeq(_)
        | Instr::IfIcmpne(_)
        | Instr::IfIcmplt(_)
        | Instr::IfIcmpge(_)
        | Instr::IfIcmpgt(_)
        | Instr::IfIcmple(_)
        | Instr::IfAcmpeq(_)
        | Instr::IfAcmpne(_)
        | Instr::Tableswitch(_, _, _)
        | Instr::Lookupswitch(_, _) => true,
        _ => false,
    }
}

// A jump or a switch, with its targets moved.
fn moved_targets(alloc: Global, places: &Places, instr: &Instr) -> Result<Instr, NoMemory>
    ensures { IfOk result (λ i. i ≡ form.moved_instr (at_in places.now) instr.now) }
{
    match instr {
        Instr::Tableswitch(default, low, targets) => {
            moved_table(alloc, places, *default, *low, targets.as_slice())
        }
        Instr::Lookupswitch(default, pairs) => {
            moved_lookup(alloc, places, *default, pairs.as_slice())
        }
        _ => moved_jump(places, instr),
    }
}

/// An instruction, with each target moved.
pub fn moved(alloc: Global, places: &Places, instr: &Instr) -> Result<Instr, NoMemory>
    ensures { IfOk result (λ i. i ≡ form.moved_instr (at_in places.now) instr.now) }
{
    if has_target(instr) {
        return moved_targets(alloc, places, instr);
    }
    copied(instr)
}

fn count_of(length: usize) -> Result<u32, NoMemory>
    ensures { IfOk result (λ n. n ≡ length) }
{
    match u32::try_from(length) {
        Ok(count) => Ok(count),
        // room: 2^32 targets of a switch
        Err(_) => Err(no_room()),
    }
}

// Whether an instruction keeps its length: all but loads and stores of locals, and switches.
fn is_kept(instr: &Instr) -> bool
    ensures { result ≡ is_kept instr.now }
{
    match instr {
        Instr::Iload(_)
        | Instr::Lload(_)
        | Instr::Aload(_)
        | Instr::Istore(_)
        | Instr::Lstore(_)
        | Instr::Astore(_)
        | Instr::Tableswitch(_, _, _)
        | Instr::Lookupswitch(_, _) => false,
        _ => true,
    }
}

/// The length of an old instruction in woven code. Want of memory comes only where a switch has too many targets.
pub fn old_size(instr: &Instr, place: u32, next: u32) -> Result<Size, NoMemory>
    ensures { IfOk result (λ s. size_of s ≡ form.old_size instr.now (next - place)) }
{
    if is_kept(instr) {
        return Ok(Size::Fixed(next.saturating_sub(place)));
    }
    match instr {
        Instr::Iload(slot)
        | Instr::Lload(slot)
        | Instr::Aload(slot)
        | Instr::Istore(slot)
        | Instr::Lstore(slot)
        | Instr::Astore(slot) => Ok(Size::Fixed(local_size(*slot))),
        Instr::Tableswitch(_, _, targets) => {
            let count = count_of(targets.len())?;
            Ok(Size::Table(count))
        }
        Instr::Lookupswitch(_, pairs) => {
            let count = count_of(pairs.len())?;
            Ok(Size::Lookup(count))
        }
        _ => unreachable!(),
    }
}
