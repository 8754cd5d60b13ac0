//! The call behind which a lower frame stands. A definition in `specs/`, and a law about it, which no program calls to do
//! work.

ghost use Rattle.kilim_run_model.specs.kin.frames.Laws.{CallsStandBehind};

/// A law, and no work: the instruction that is found behind the place of a lower frame is the call from which it came there.
pub fn calls_stand_behind()
    ensures { CallsStandBehind }
{}
