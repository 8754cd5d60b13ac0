//! What instructions do to a graph, sorted by what the rules tell apart.

ghost use Rattle.std.specs.Prelude.{◌≡◌};
ghost use Rattle.kilim_isolation_rules.specs.Actions.{action, passing_action, word_action};

use kilim_program::{ClassId, FieldId, Instr, MethodId, Ty};

/// Which words pop, dup and swap forms take, pass over and give (JVMS 6.5, `pop` to `swap`).
pub enum Words {
    /// So many words are dropped.
    Drops(usize),
    /// So many words are copied below so many others.
    Copies(usize, usize),
    Swaps,
}

/// What an instruction does to a graph.
pub enum Action {
    /// So many items of the stack are taken, and so many given, which name no node.
    Passes(usize, usize),
    LoadsReference(u16),
    StoresReference(u16),
    /// A value is stored; whether it is a long.
    StoresValue(u16, bool),
    Shuffles(Words),
    MakesObject(ClassId),
    /// An array of values.
    MakesValues,
    /// An array of references, by the type of its elements.
    MakesReferences(Ty),
    GetsStatic(FieldId),
    GetsField(FieldId),
    PutsField(FieldId),
    GetsElement,
    PutsElement,
    Calls(MethodId),
    ReturnsReference,
    /// A value is returned, or nothing.
    Returns,
    Casts(Ty),
}

// What an instruction does that only passes values: how many items it takes and gives. Sums, comparisons and loads of elements take two and give one.
#[tactic(auto, unfolding(crate::specs::Actions::passing_action))]
fn passing_action(instr: &Instr) -> Action
    ensures { result ≡ passing_action instr.now }
{
    match instr {
        Instr::Nop | Instr::Iinc(_, _) | Instr::Goto(_) | Instr::GotoW(_) => Action::Passes(0, 0),
        Instr::AconstNull
        | Instr::Iconst(_)
        | Instr::Lconst(_)
        | Instr::Bipush(_)
        | Instr::Sipush(_)
        | Instr::Iload(_)
        | Instr::Lload(_)
        | Instr::Ldc(_)
        | Instr::LdcW(_)
        | Instr::Ldc2W(_) => Action::Passes(0, 1),
        Instr::Ineg
        | Instr::Lneg
        | Instr::I2l
        | Instr::L2i
        | Instr::I2b
        | Instr::I2c
        | Instr::I2s
        | Instr::Arraylength
        | Instr::Instanceof(_) => Action::Passes(1, 1),
        Instr::Ifeq(_)
        | Instr::Ifne(_)
        | Instr::Iflt(_)
        | Instr::Ifge(_)
        | Instr::Ifgt(_)
        | Instr::Ifle(_)
        | Instr::Ifnull(_)
        | Instr::Ifnonnull(_)
        | Instr::Tableswitch(_, _, _)
        | Instr::Lookupswitch(_, _)
        | Instr::Athrow => Action::Passes(1, 0),
        Instr::IfIcmpeq(_)
        | Instr::IfIcmpne(_)
        | Instr::IfIcmplt(_)
        | Instr::IfIcmpge(_)
        | Instr::IfIcmpgt(_)
        | Instr::IfIcmple(_)
        | Instr::IfAcmpeq(_)
        | Instr::IfAcmpne(_) => Action::Passes(2, 0),
        Instr::Iastore | Instr::Lastore | Instr::Bastore | Instr::Castore | Instr::Sastore =>
            Action::Passes(3, 0),
        _ => Action::Passes(2, 1),
    }
}

// What a pop, dup or swap form does, or one of those above.
#[tactic(auto, unfolding(crate::specs::Actions::word_action))]
fn word_action(instr: &Instr) -> Action
    ensures { result ≡ word_action instr.now }
{
    match instr {
        Instr::Pop => Action::Shuffles(Words::Drops(1)),
        Instr::Pop2 => Action::Shuffles(Words::Drops(2)),
        Instr::Dup => Action::Shuffles(Words::Copies(1, 0)),
        Instr::DupX1 => Action::Shuffles(Words::Copies(1, 1)),
        Instr::DupX2 => Action::Shuffles(Words::Copies(1, 2)),
        Instr::Dup2 => Action::Shuffles(Words::Copies(2, 0)),
        Instr::Dup2X1 => Action::Shuffles(Words::Copies(2, 1)),
        Instr::Dup2X2 => Action::Shuffles(Words::Copies(2, 2)),
        Instr::Swap => Action::Shuffles(Words::Swaps),
        _ => passing_action(instr),
    }
}

/// What an instruction does to a graph.
#[tactic(auto, unfolding(crate::specs::Actions::action))]
pub fn action_of(instr: &Instr) -> Action
    ensures { result ≡ action instr.now }
{
    match instr {
        Instr::Aload(slot) => Action::LoadsReference(*slot),
        Instr::Astore(slot) => Action::StoresReference(*slot),
        Instr::Istore(slot) => Action::StoresValue(*slot, false),
        Instr::Lstore(slot) => Action::StoresValue(*slot, true),
        Instr::New(class) => Action::MakesObject(*class),
        Instr::Newarray(_) => Action::MakesValues,
        Instr::Anewarray(ty) => Action::MakesReferences(*ty),
        Instr::Getstatic(field) => Action::GetsStatic(*field),
        Instr::Getfield(field) => Action::GetsField(*field),
        Instr::Putfield(field) => Action::PutsField(*field),
        Instr::Aaload => Action::GetsElement,
        Instr::Aastore => Action::PutsElement,
        Instr::Invokevirtual(id) | Instr::Invokespecial(id) | Instr::Invokestatic(id) =>
            Action::Calls(*id),
        Instr::Areturn => Action::ReturnsReference,
        Instr::Ireturn | Instr::Lreturn | Instr::Return => Action::Returns,
        Instr::Checkcast(ty) => Action::Casts(*ty),
        _ => word_action(instr),
    }
}
