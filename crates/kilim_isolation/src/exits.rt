//! The exits of an instruction.

ghost use Rattle.std.specs.Prelude.{◌≡◌, ◌∷◌, ◌++◌, [], Some, map, IfOk};
ghost use Rattle.kilim_isolation.specs.Walks.{exits_by};

use kilim_program::Instr;
use kilim_units::{NoMemory, Seq};
use std::alloc::Global;

fn one(alloc: Global, exit: Option<u32>) -> Result<Seq<Option<u32>>, NoMemory>
    ensures { IfOk result (λ exits. exits ≡ exit ∷ []) }
{
    let Ok(exits) = Vec::from_slice(alloc, &[exit]) else {
        return Err(NoMemory);
    };
    Ok(Seq::from_vec(exits))
}

fn two(alloc: Global, first: u32, second: u32) -> Result<Seq<Option<u32>>, NoMemory>
    ensures { IfOk result (λ exits. exits ≡ Some first ∷ Some second ∷ []) }
{
    let Ok(exits) = Vec::from_slice(alloc, &[Some(first), Some(second)]) else {
        return Err(NoMemory);
    };
    Ok(Seq::from_vec(exits))
}

fn of_table(alloc: Global, default: u32, targets: &[u32]) -> Result<Seq<Option<u32>>, NoMemory>
    ensures { IfOk result (λ exits. exits ≡ Some default ∷ map Some targets.now) }
{
    let Ok(mut exits) = one(alloc, Some(default)) else {
        return Err(NoMemory);
    };
    for to in targets {
        let Ok(()) = exits.push(Some(*to)) else {
            return Err(NoMemory);
        };
    }
    Ok(exits)
}

fn of_pairs(alloc: Global, default: u32, pairs: &[(i32, u32)]) -> Result<Seq<Option<u32>>, NoMemory>
    ensures { IfOk result (λ exits. exits ≡ Some default ∷ map Some (map (λ pair. pair.1) pairs.now)) }
{
    let Ok(mut exits) = one(alloc, Some(default)) else {
        return Err(NoMemory);
    };
    for pair in pairs {
        let Ok(()) = exits.push(Some(pair.1)) else {
            return Err(NoMemory);
        };
    }
    Ok(exits)
}

/// The exits of an instruction that is done, behind which the code goes on at a place: to the places where control may go from it,
/// or out where it returns. `athrow` has none.
#[tactic(auto, unfolding(kilim_program::specs::Lengths::jump_targets, kilim_program::specs::Lengths::ends_path))]
pub fn exits_of(alloc: Global, instr: &Instr, next: u32) -> Result<Seq<Option<u32>>, NoMemory>
    ensures { IfOk result (λ exits. exits ≡ exits_by instr.now next) }
{
    match instr {
        Instr::Tableswitch(default, _, targets) => of_table(alloc, *default, targets.as_slice()),
        Instr::Lookupswitch(default, pairs) => of_pairs(alloc, *default, pairs.as_slice()),
        Instr::Goto(to) | Instr::GotoW(to) => one(alloc, Some(*to)),
        Instr::Ifeq(to)
        | Instr::Ifne(to)
        | Instr::Iflt(to)
        | Instr::Ifge(to)
        | Instr::Ifgt(to)
        | Instr::Ifle(to)
        | Instr::IfIcmpeq(to)
        | Instr::IfIcmpne(to)
        | Instr::IfIcmplt(to)
        | Instr::IfIcmpge(to)
        | Instr::IfIcmpgt(to)
        | Instr::IfIcmple(to)
        | Instr::IfAcmpeq(to)
        | Instr::IfAcmpne(to)
        | Instr::Ifnull(to)
        | Instr::Ifnonnull(to) => two(alloc, next, *to),
        Instr::Ireturn | Instr::Lreturn | Instr::Areturn | Instr::Return => one(alloc, None),
        Instr::Athrow => Ok(Seq::new(alloc)),
        _ => one(alloc, Some(next)),
    }
}
