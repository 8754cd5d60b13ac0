//! Jump targets, and instructions that control doesn't go past.

ghost use Rattle.std.specs.Prelude.{◌≡◌, ◌∷◌, [], ℤ, ℕ, map, IfOk};
ghost use Rattle.kilim_program.specs.Lengths.{jump_targets, ends_path};

use kilim_program::Instr;
use std::alloc::{AllocError, Global};

fn one(alloc: Global, to: u32) -> Result<Vec<u32>, AllocError>
    ensures { IfOk result (λ v. v.items ≡ to ∷ []) }
{
    Vec::from_slice(alloc, &[to])
}

fn of_table(alloc: Global, first: u32, targets: &[u32]) -> Result<Vec<u32>, AllocError>
    ensures { IfOk result (λ v. v.items ≡ first ∷ targets.now) }
{
    let Ok(mut all) = one(alloc, first) else {
        return Err(AllocError);
    };
    let Ok(()) = all.extend_from_slice(targets) else {
        return Err(AllocError);
    };
    Ok(all)
}

fn of_pairs(alloc: Global, first: u32, pairs: &[(i32, u32)]) -> Result<Vec<u32>, AllocError>
    ensures { IfOk result (λ v. v.items ≡ first ∷ map (λ (pair : ℤ × ℕ). pair.1) pairs.now) }
{
    let Ok(mut all) = one(alloc, first) else {
        return Err(AllocError);
    };
    for pair in pairs {
        let Ok(()) = all.push(pair.1) else {
            return Err(AllocError);
        };
    }
    Ok(all)
}

/// Where control may go other than to the next instruction; of a switch the default first, then the targets in order.
#[tactic(auto, unfolding(kilim_program::specs::Lengths::jump_targets))]
pub fn jump_targets(alloc: Global, instr: &Instr) -> Result<Vec<u32>, AllocError>
    ensures { IfOk result (λ v. v.items ≡ jump_targets instr.now) }
{
    match instr {
        Instr::Ifeq(to)
        | Instr::Ifne(to)
        | Instr::Iflt(to)
        | Instr::Ifge(to)
        | Instr::Ifgt(to)
        | Instr::Ifle(to)
        | Instr::IfIcmpeq(to)
        | Instr::IfIcmpne(to)
        | Instr::IfIcmplt(to)
        | Instr::IfIcmpge(to)
        | Instr::IfIcmpgt(to)
        | Instr::IfIcmple(to)
        | Instr::IfAcmpeq(to)
        | Instr::IfAcmpne(to)
        | Instr::Goto(to)
        | Instr::Ifnull(to)
        | Instr::Ifnonnull(to)
        | Instr::GotoW(to) => one(alloc, *to),
        Instr::Tableswitch(first, _, targets) => of_table(alloc, *first, targets.as_slice()),
        Instr::Lookupswitch(first, pairs) => of_pairs(alloc, *first, pairs.as_slice()),
        _ => Ok(Vec::new(alloc)),
    }
}

/// Whether control doesn't go on to the next instruction: after goto, goto_w, the switches and the returns.
#[tactic(auto, unfolding(kilim_program::specs::Lengths::ends_path))]
pub fn ends_path(instr: &Instr) -> bool
    ensures { result ≡ ends_path instr.now }
{
    match instr {
        Instr::Goto(_)
        | Instr::Tableswitch(_, _, _)
        | Instr::Lookupswitch(_, _)
        | Instr::Ireturn
        | Instr::Lreturn
        | Instr::Areturn
        | Instr::Return
        | Instr::GotoW(_)
        | Instr::Athrow => true,
        _ => false,
    }
}
