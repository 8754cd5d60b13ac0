//! What instructions take.

ghost use Rattle.std.specs.Prelude.{◌≡◌, ◌∷◌, [], not};
ghost use Rattle.kilim_program.specs.Same.{same_base};
ghost use Rattle.kilim_type_spec.specs.Step.{meets, vtype, class_vtype, is_array_of, is_array_of_references, is_unset};
ghost use Rattle.kilim_type_step.specs.Operands.{operand_of};
ghost use Rattle.kilim_type_step.specs.Tests.{is_reference};

use kilim_program::{Base, ClassId, Program, Ty, VType};
use kilim_type_spec::assignable;

/// What an instruction takes from a slot.
#[derive(Clone, Copy)]
pub enum Taken {
    /// What is assignable to a type.
    Is(VType),
    /// A reference, initialized or not.
    Reference,
    /// That, and initialized.
    Initialized,
    /// Null, or an array of a primitive type.
    ArrayOf(Base),
    /// Null, or an array of bytes or of booleans.
    Bytes,
    /// Null, or an array of references.
    References,
    /// Null, or an array.
    Array,
    /// The object that a constructor of this class makes, or what is assignable to the class.
    Own(ClassId),
}

/// A further rule of an instruction.
#[derive(Clone, Copy)]
pub enum Also {
    /// The rule holds, or not.
    Needs(u8, bool),
    /// The topmost type is initialized.
    OneInitialized,
    /// The two topmost types are initialized.
    TwoInitialized,
    /// Rule 11: what is returned is of a reference type, to which the topmost type is assignable.
    Returns(VType),
    /// Below so many arguments stands an object of the class.
    Below(usize, ClassId),
}

/// The verification type of a value of a declared type.
#[tactic(auto, using(crate::proofs::Types::array_vtype))]
pub fn vtype(ty: Ty) -> VType
    ensures { result ≡ vtype ty }
{
    if ty.dims > 0 {
        return VType::Object(ty);
    }
    match ty.base {
        Base::Long => VType::Long,
        Base::Class(_) => VType::Object(ty),
        Base::Bool | Base::Byte | Base::Char | Base::Short | Base::Int => VType::Int,
    }
}

/// The type of an object of a class.
pub fn class_vtype(class: ClassId) -> VType
    ensures { result ≡ class_vtype class }
{
    VType::Object(Ty {
        dims: 0,
        base: Base::Class(class),
    })
}

fn is_same_base(a: Base, b: Base) -> bool
    ensures { result ≡ same_base a b }
{
    match a {
        Base::Class(a) => match b {
            Base::Class(b) => a.0 == b.0,
            Base::Bool | Base::Byte | Base::Char | Base::Short | Base::Int | Base::Long => false,
        },
        Base::Bool => b == Base::Bool,
        Base::Byte => b == Base::Byte,
        Base::Char => b == Base::Char,
        Base::Short => b == Base::Short,
        Base::Int => b == Base::Int,
        Base::Long => b == Base::Long,
    }
}

fn is_array_of(ty: Ty, base: Base) -> bool
    ensures { result ≡ is_array_of (base ∷ []) ty }
{
    ty.dims == 1 && is_same_base(ty.base, base)
}

fn is_array_of_bytes(ty: Ty) -> bool
    ensures { result ≡ is_array_of (Base.Byte ∷ Base.Bool ∷ []) ty }
{
    ty.dims == 1 && (is_same_base(ty.base, Base::Byte) || is_same_base(ty.base, Base::Bool))
}

fn is_array_of_references(ty: Ty) -> bool
    ensures { result ≡ is_array_of_references ty }
{
    if ty.dims > 1 {
        return true;
    }
    match ty.base {
        Base::Class(_) => ty.dims == 1,
        Base::Bool | Base::Byte | Base::Char | Base::Short | Base::Int | Base::Long => false,
    }
}

fn is_reference(t: VType) -> bool
    ensures { result ≡ is_reference t }
{
    match t {
        VType::Null | VType::UninitThis | VType::Uninit(_) | VType::Object(_) => true,
        VType::Top | VType::Int | VType::Long => false,
    }
}

fn is_initialized(t: VType) -> bool
    ensures { result ≡ not (is_unset t) }
{
    match t {
        VType::UninitThis | VType::Uninit(_) => false,
        VType::Top | VType::Int | VType::Long | VType::Null | VType::Object(_) => true,
    }
}

/// Whether a type is such as an instruction takes. Takes no memory.
#[tactic(auto, unfolding(kilim_type_spec::specs::Step::meets))]
pub fn meets(program: &Program, taken: Taken, t: VType) -> bool
    ensures { result ≡ meets program.now (operand_of taken) t }
{
    match taken {
        Taken::Is(wanted) => assignable(program, &t, &wanted),
        Taken::Reference => is_reference(t),
        Taken::Initialized => is_initialized(t),
        Taken::ArrayOf(base) => match t {
            VType::Null => true,
            VType::Object(ty) => is_array_of(ty, base),
            VType::Top | VType::Int | VType::Long | VType::UninitThis | VType::Uninit(_) => false,
        },
        Taken::Bytes => match t {
            VType::Null => true,
            VType::Object(ty) => is_array_of_bytes(ty),
            VType::Top | VType::Int | VType::Long | VType::UninitThis | VType::Uninit(_) => false,
        },
        Taken::References => match t {
            VType::Null => true,
            VType::Object(ty) => is_array_of_references(ty),
            VType::Top | VType::Int | VType::Long | VType::UninitThis | VType::Uninit(_) => false,
        },
        Taken::Array => match t {
            VType::Null => true,
            VType::Object(ty) => ty.dims > 0,
            VType::Top | VType::Int | VType::Long | VType::UninitThis | VType::Uninit(_) => false,
        },
        Taken::Own(class) => match t {
            VType::UninitThis => true,
            VType::Top
            | VType::Int
            | VType::Long
            | VType::Null
            | VType::Uninit(_)
            | VType::Object(_) => assignable(program, &t, &class_vtype(class)),
        },
    }
}
