//! A shape is that of one tree, whatever the names of its objects are. Definitions in `specs/`, and laws about them, which
//! no program calls to do work.

ghost use Rattle.kilim_run_model.specs.kin.trees.Laws.{ShapesAreKin, ShapesAreRead, TypesAreNamed};

/// A law, and no work: what is built of the shape of a tree is that tree, but for the names of its objects.
pub fn shapes_are_read()
    ensures { ShapesAreRead }
{}

/// A law, and no work: a tree has one shape, under whatever names its objects are.
pub fn shapes_are_kin()
    ensures { ShapesAreKin }
{}

/// A law, and no work: the type of an object is found by the name under which it is shown.
pub fn types_are_named()
    ensures { TypesAreNamed }
{}
