//! The names of the attributes that are read into parts.

ghost use Rattle.std.specs.Prelude.{◌≡◌};
ghost use Rattle.kilim_class_attributes.specs.parts.Names.{name_text, named};

use kilim_units::Units;

/// The name of an attribute that is read into parts (JVMS 4.7).
#[derive(Clone, Copy)]
pub enum AttributeName {
    /// JVMS 4.7.2.
    ConstantValue,
    /// JVMS 4.7.3.
    Code,
    /// JVMS 4.7.4.
    StackMapTable,
    /// JVMS 4.7.5.
    Exceptions,
    /// JVMS 4.7.16.
    RuntimeVisibleAnnotations,
    /// JVMS 4.7.17.
    RuntimeInvisibleAnnotations,
    /// JVMS 4.7.18.
    RuntimeVisibleParameterAnnotations,
    /// JVMS 4.7.19.
    RuntimeInvisibleParameterAnnotations,
}

impl AttributeName {
    /// The name as it stands in class files.
    pub fn text(self) -> &'static str
        ensures { result.now ≡ name_text self }
    {
        match self {
            AttributeName::ConstantValue => "ConstantValue",
            AttributeName::Code => "Code",
            AttributeName::StackMapTable => "StackMapTable",
            AttributeName::Exceptions => "Exceptions",
            AttributeName::RuntimeVisibleAnnotations => "RuntimeVisibleAnnotations",
            AttributeName::RuntimeInvisibleAnnotations => "RuntimeInvisibleAnnotations",
            AttributeName::RuntimeVisibleParameterAnnotations => {
                "RuntimeVisibleParameterAnnotations"
            }
            AttributeName::RuntimeInvisibleParameterAnnotations => {
                "RuntimeInvisibleParameterAnnotations"
            }
        }
    }
}

/// The name that has these units, if any has.
#[tactic(auto, unfolding(crate::specs::parts::Names::named))]
pub fn named(units: &Units) -> Option<AttributeName>
    ensures { result ≡ named units.now }
{
    if units.is_text(b"ConstantValue") {
        Some(AttributeName::ConstantValue)
    } else if units.is_text(b"Code") {
        Some(AttributeName::Code)
    } else if units.is_text(b"StackMapTable") {
        Some(AttributeName::StackMapTable)
    } else if units.is_text(b"Exceptions") {
        Some(AttributeName::Exceptions)
    } else if units.is_text(b"RuntimeVisibleAnnotations") {
        Some(AttributeName::RuntimeVisibleAnnotations)
    } else if units.is_text(b"RuntimeInvisibleAnnotations") {
        Some(AttributeName::RuntimeInvisibleAnnotations)
    } else if units.is_text(b"RuntimeVisibleParameterAnnotations") {
        Some(AttributeName::RuntimeVisibleParameterAnnotations)
    } else if units.is_text(b"RuntimeInvisibleParameterAnnotations") {
        Some(AttributeName::RuntimeInvisibleParameterAnnotations)
    } else {
        None
    }
}
