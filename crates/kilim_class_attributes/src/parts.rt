//! The parts of attributes that have parts of their own, read and written exactly: the frames of a StackMapTable
//! (JVMS 4.7.4) and the parts of annotations (JVMS 4.7.16); and the names and the faults of all attributes.
//!
//! A frame keeps the form in which it was written. An annotation is the list of its parts in the order of the
//! bytes, so that values in values are read without recursion, to any depth.

mod annotation;
mod annotation_reading;
mod annotation_writing;
mod fault;
mod frame;
mod frame_reading;
mod frame_writing;
mod index;
mod laws;
mod name;

pub use annotation::{AnnotationPart, PartKind};
pub use annotation_reading::parts_at;
pub use annotation_writing::push_parts;
pub use fault::AttributeFault;
pub use frame::{Frame, VerificationType};
pub use frame_reading::frames_at;
pub use frame_writing::push_frames;
pub use index::{EntryKind, index_at};
pub use laws::parts_are_spelled;
pub use name::{AttributeName, named};
