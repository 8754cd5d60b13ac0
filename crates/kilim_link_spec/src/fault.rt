//! Why class files are no program.

ghost use Rattle.std.specs.Prelude.{◌≡◌};

use kilim_class_code::CodeFault;
use kilim_class_file::MemberName;
use kilim_units::Units;
use std::alloc::{AllocError, AllocFailed};

/// A part of class files that this project leaves out. Where a class has several, the first of this list is named.
#[derive(Clone, Copy)]
pub enum LeftOutPart {
    /// The instruction with this number, or a float or double array by `newarray`.
    Opcode(u8),
    /// A descriptor, or an array's name, with a float or double type, or a frame with one.
    Float,
    /// A method `<clinit>` (JVMS 2.9).
    ClassInitializer,
    /// A static field without a ConstantValue of its type.
    StaticField,
    Synchronized,
    Native,
    /// The class is an interface, or lists another interface than `kilim/Message`.
    Interface,
    /// ACC_SUPER isn't set (JVMS table 4.1-A).
    NoSuperFlag,
    PausableConstructor,
    /// A method that pauses has an exception table with a row.
    PausableHandlers,
    /// An array of tasks.
    TaskArray,
    /// The name `kilim/Fiber`, in plain form.
    Fiber,
    /// Annotations on another number of parameters than the descriptor has.
    ParameterAnnotations,
}

/// A member as code names it.
#[derive(Drop)]
pub struct MemberOf {
    pub owner: Units,
    pub name: Units,
    pub descriptor: Units,
}

/// What a class has that no program has. The lower one in this list comes first, and of one kind the first in the
/// order of the file's bytes: the superclass, the interfaces, the fields, then for each method its descriptor, its code
/// and its frames. Of the class itself declared twice comes before of a member; of left-out parts and of abstract
/// methods the order is the one of their definitions.
#[derive(Drop)]
pub enum Problem {
    /// The class, or a field or a method, by its name, was declared before, or the class is a built-in one.
    Twice(Units),
    /// A class of this name is neither given nor built in.
    Missing(Units),
    /// The class is its own ancestor.
    Circular,
    /// The class that code names, and its ancestors, have no such member. In plain form `kilim/Fiber` is left out
    /// instead.
    NoMember(MemberOf),
    LeftOut(LeftOutPart),
    /// The class is a task and a message.
    Both,
    /// A field of the class may not hold its type.
    FieldKind(MemberName),
    /// A method differs from one that it overrides in pausability, in a qualifier or in being static, or overrides a
    /// final one.
    OverrideDiffers(MemberName),
    /// The code of a method is none, or an index in it names no entry of a kind that its instruction takes. It is
    /// never a part that is left out, and never want of memory.
    Code(MemberName, CodeFault),
    /// A text is no descriptor, or has more than 255 argument slots.
    Descriptor(Units),
    /// The superclass is final, built in other than `java/lang/Object`, `kilim/Task` and the classes of
    /// exceptions, or of a kind that this class may not have as its superclass.
    SuperKind,
    /// The name of the class has an empty part, or holds `.`, `;`, `[` or an unpaired surrogate, or takes more than
    /// 65,000 bytes of modified UTF-8.
    Name,
    /// The class isn't abstract and declares or inherits this abstract method, or declares it abstract and private or
    /// static.
    AbstractLeft(MemberName),
    /// An entry of the exception table of a method, by its number from 0 on: its range is empty or isn't one of
    /// instructions, its handler is none, or it names an array.
    Handler(MemberName, usize),
}

/// Why class files don't link.
#[derive(Drop)]
pub enum LinkFault {
    /// The first class in the order of the files that has a problem, and the first of its problems.
    InClass(Units, Problem),
    /// Want of memory.
    Memory,
}

impl From<AllocError> for LinkFault {
    ghost use Rattle.kilim_link_spec.specs.declared.fault.LinkFault.TheVariants as fault;

    ghost from_gives = { λ _ e. e ≡ fault.Memory };

    fn from(_: AllocError) -> LinkFault {
        LinkFault::Memory
    }
}

impl<T: Drop> From<AllocFailed<T>> for LinkFault {
    ghost use Rattle.kilim_link_spec.specs.declared.fault.LinkFault.TheVariants as fault;

    ghost from_gives = { λ _ e. e ≡ fault.Memory };

    fn from(_: AllocFailed<T>) -> LinkFault {
        LinkFault::Memory
    }
}
