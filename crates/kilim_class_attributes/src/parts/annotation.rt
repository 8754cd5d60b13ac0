//! The parts of annotations.

ghost use Rattle.std.specs.Prelude.{◌≡◌, ◌<◌, ◌-◌};
ghost use Rattle.kilim_class_attributes.specs.parts.Annotations.{asked};

/// A part of annotations, in the order of the bytes (JVMS 4.7.16): what stands there, and what kind of parts, and
/// how many of them, it asks for. Those follow it, each with all that it asks for in its turn.
#[derive(Clone, Copy, PartialEq, Eq)]
pub enum AnnotationPart {
    /// The number of parameters, of the attributes of parameters (JVMS 4.7.18). It asks for a list each.
    Parameters(u8),
    /// The number of annotations in a list, which it asks for.
    Annotations(u16),
    /// The type of an annotation, a Utf8, and the number of its element-value pairs, which it asks for.
    Annotation(u16, u16),
    /// The name of an element, a Utf8. It asks for its value.
    ElementName(u16),
    /// A value: the tag, one of `B C D F I J S Z s`, and the index of a constant (JVMS 4.7.16.1).
    Constant(u8, u16),
    /// A value, tag `e`: the type and the name of an enum constant, two Utf8.
    EnumConstant(u16, u16),
    /// A value, tag `c`: the return descriptor of a class, a Utf8.
    Class(u16),
    /// A value, tag `@`. It asks for an annotation.
    Nested,
    /// A value, tag `[`: the number of values, which it asks for.
    Array(u16),
}

/// The kinds of parts of annotations.
#[derive(Clone, Copy)]
pub enum PartKind {
    /// `Parameters`.
    ParameterCount,
    /// `Annotations`.
    AnnotationList,
    /// `Annotation`.
    OneAnnotation,
    /// `ElementName`.
    Pair,
    /// Every other part: an element value.
    Value,
}

/// So many parts of a kind.
#[derive(Clone, Copy)]
pub struct Asked {
    pub kind: PartKind,
    pub count: u16,
}

impl Asked {
    /// One fewer of them.
    pub(crate) fn one_less(self) -> Asked
        requires { 0 < self.count }
        ensures { result ≡ record self { count = self.count - 1 } }
    {
        Asked {
            kind: self.kind,
            count: self.count - 1,
        }
    }
}

impl AnnotationPart {
    // The kind of the parts that a part asks for; of those that ask for none it is that of values.
    fn asked_kind(&self) -> PartKind
        ensures { result ≡ (asked self.now).kind }
    {
        match self {
            AnnotationPart::Parameters(_) => PartKind::AnnotationList,
            AnnotationPart::Annotations(_) | AnnotationPart::Nested => PartKind::OneAnnotation,
            AnnotationPart::Annotation(_, _) => PartKind::Pair,
            _ => PartKind::Value,
        }
    }

    // How many parts a part asks for.
    fn asked_count(&self) -> u16
        ensures { result ≡ (asked self.now).count }
    {
        match self {
            AnnotationPart::Parameters(count) => u16::from(*count),
            AnnotationPart::Annotations(count)
            | AnnotationPart::Annotation(_, count)
            | AnnotationPart::Array(count) => *count,
            AnnotationPart::ElementName(_) | AnnotationPart::Nested => 1,
            AnnotationPart::Constant(_, _)
            | AnnotationPart::EnumConstant(_, _)
            | AnnotationPart::Class(_) => 0,
        }
    }

    /// What a part asks for.
    pub(crate) fn asked(&self) -> Asked
        ensures { result ≡ asked self.now }
    {
        Asked {
            kind: self.asked_kind(),
            count: self.asked_count(),
        }
    }
}
