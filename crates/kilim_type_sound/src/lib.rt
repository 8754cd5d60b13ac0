//! Verified code never gets stuck: laws about the definitions of typing and of the machine. No program calls them to do work.
#![tactic(auto)]

ghost use Rattle.kilim_type_sound.specs.Alike.{CaughtAlike};
ghost use Rattle.kilim_type_sound.specs.Caught.{AllHandlersKeep, AllRaisesFit, ThrownIsThere, ThrowsFit};
ghost use Rattle.kilim_type_sound.specs.Left.{CaughtLeaves};
ghost use Rattle.kilim_type_sound.specs.Law.{AllAnswersFit, AreVerified, AreWanted, BeginningsFit, FactsHold, MovesFit};

/// A law, and no work: the next move of frames that fit the frames of verification is one, and what it leaves fits.
pub fn moves_fit()
    ensures { MovesFit }
{}

/// A law, and no work: what is wanted at a handler is wanted before each instruction in its range, and what flows there along with what it
/// catches fits the frame of verification.
pub fn all_handlers_keep()
    ensures { AllHandlersKeep }
{}

/// A law, and no work: where an object is thrown at an instruction of frames that fit, the frames from the first that catches it on fit.
pub fn throws_fit()
    ensures { ThrowsFit }
{}

/// A law, and no work: what an instruction of frames that fit throws is in the heap, and can be thrown.
pub fn thrown_is_there()
    ensures { ThrownIsThere }
{}

/// A law, and no work: where what is raised is caught, its new object and the frames from the first that catches it on fit.
pub fn all_raises_fit()
    ensures { AllRaisesFit }
{}

/// A law, and no work: what fits goes on fitting where what a frame waits for comes, and where objects come and go.
pub fn all_answers_fit()
    ensures { AllAnswersFit }
{}

/// A law, and no work: the frame with which a method begins on an object fits.
pub fn beginnings_fit()
    ensures { BeginningsFit }
{}

/// A law, and no work: what the step rests on follows from what every program keeps.
pub fn facts_hold()
    ensures { FactsHold }
{}

/// A law, and no work: a program whose methods are well typed by some frames is verified.
pub fn are_verified()
    ensures { AreVerified }
{}

/// A law, and no work: all locals may be wanted, or the live ones alone.
pub fn are_wanted()
    ensures { AreWanted }
{}

/// A law, and no work: an exception that is caught leaves each object as it was, and of the frames those from the catching one on, which
/// keeps its locals.
pub fn caught_leaves()
    ensures { CaughtLeaves }
{}

/// A law, and no work: frames of two programs that are alike catch alike, and frames below them whose methods have no exception table catch
/// nothing.
pub fn caught_alike()
    ensures { CaughtAlike }
{}
