//! A thread of accepted code keeps the relation between its frames, their shape graphs and its heap, move by move. Laws, and no work.

ghost use Rattle.kilim_isolation_laws.specs.reached_objects.graphs.Threads.{BeginningsKeep, MovesKeep, NewObjectsKeep, ThrowsKeep};

/// A law, and no work: each move of a thread of accepted code keeps its frames.
pub fn moves_keep()
    ensures { MovesKeep }
{}

/// A law, and no work: a thread that begins on a tree stands.
pub fn beginnings_keep()
    ensures { BeginningsKeep }
{}

/// A law, and no work: where accepted code throws an object, the frames that are left stand with their graphs.
pub fn throws_keep()
    ensures { ThrowsKeep }
{}

/// A law, and no work: a new private object changes no frame.
pub fn new_objects_keep()
    ensures { NewObjectsKeep }
{}
