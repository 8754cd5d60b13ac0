//! A woven fiber of an accepted program does what the task does, with nothing open on its run: calls can be made again at each pause.
//! Laws, and no code that does work.

ghost use Rattle.kilim_fiber_laws.specs.woven_served.ready.Law.{CallsAgain, ExecuteIsSame, OneBefore, TasksServe, ValuesFit, WovenFormsServe};

/// A law, and no work: what a frame holds fits its types in the woven program.
pub fn values_fit()
    ensures { ValuesFit }
{}

/// A law, and no work: a call made again enters the same method.
pub fn calls_again()
    ensures { CallsAgain }
{}

/// A law, and no work: the `execute` of a task class is the same method in the woven program.
pub fn execute_is_same()
    ensures { ExecuteIsSame }
{}

/// A law, and no work: before a place there stands one instruction.
pub fn one_stands_before()
    ensures { OneBefore }
{}

/// A law, and no work: a woven fiber of an accepted program does what the task does.
pub fn tasks_serve()
    ensures { TasksServe }
{}

/// A law, and no work: a fiber of each woven form of an accepted program does what the task does.
pub fn woven_forms_serve()
    ensures { WovenFormsServe }
{}
