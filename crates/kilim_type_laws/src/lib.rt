//! Laws of well-typed code (JVMS 4.10.1): about the definitions of kilim_type_spec, and no code that does work.
#![tactic(auto)]

pub mod members;

ghost use Rattle.kilim_type_laws.specs.Laws.{AssignsItself, EdgesFlow, HandlersFlow, ListedFramesShow, LiveIsTyped, NoFaultWhereWellTyped, TypedByPlace};

/// A law, and no work: each verification type is assignable to itself.
pub fn assigns_itself()
    ensures { AssignsItself }
{}

/// A law, and no work: along each flow edge of a well-typed method, what the instruction leaves is assignable to the frame at the
/// place that the edge reaches.
pub fn edges_flow()
    ensures { EdgesFlow }
{}

/// A law, and no work: in a well-typed method the locals before an instruction in the range of a handler, with what it catches alone on
/// the stack, are assignable to the frame at the handler.
pub fn handlers_flow()
    ensures { HandlersFlow }
{}

/// A law, and no work: a live local has a type.
pub fn live_is_typed()
    ensures { LiveIsTyped }
{}

/// A law, and no work: the frame that is listed for a place shows the types there.
pub fn listed_frames_show()
    ensures { ListedFramesShow }
{}

/// A law, and no work: a well-typed program's methods are well typed by the frames at their places.
pub fn typed_by_place()
    ensures { TypedByPlace }
{}

/// A law, and no work: a well-typed program has no type fault.
pub fn no_fault_where_well_typed()
    ensures { NoFaultWhereWellTyped }
{}
