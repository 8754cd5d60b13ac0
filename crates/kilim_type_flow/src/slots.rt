//! The locals that instructions read and write (JVMS 6.5).

ghost use Rattle.std.specs.Prelude.{◌≡◌, ℕ};
ghost use Rattle.kilim_type_spec.specs.Typed.{reads, writes};
ghost use Rattle.kilim_type_flow.specs.Marks.{is_slot};

use kilim_program::Instr;

/// The local that an instruction reads, if it reads one; of a long its first half.
pub fn slot_read(instr: &Instr) -> Option<u16>
    ensures { (k : ℕ) → reads instr.now k ≡ is_slot result k }
{
    match instr {
        Instr::Iload(slot) | Instr::Lload(slot) | Instr::Aload(slot) | Instr::Iinc(slot, _) => {
            Some(*slot)
        }
        _ => None,
    }
}

/// Whether an instruction writes a local, or one half of it.
pub fn writes(instr: &Instr, local: u16) -> bool
    ensures { result ≡ writes instr.now local }
{
    match instr {
        Instr::Istore(slot) | Instr::Astore(slot) | Instr::Iinc(slot, _) => *slot == local,
        Instr::Lstore(slot) => *slot == local || u32::from(*slot) + 1 == u32::from(local),
        _ => false,
    }
}
