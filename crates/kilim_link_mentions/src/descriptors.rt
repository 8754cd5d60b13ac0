//! Texts of descriptors and of class entries.

ghost use Rattle.std.specs.Prelude.{◌≡◌, IfOk};
ghost use Rattle.kilim_link_spec.specs.Types.{field_text, method_text, named_by};

use kilim_class_descriptors::{FieldText, MethodText, any_field, any_method};
use kilim_link_spec::Named;
use kilim_units::{NoMemory, Units};
use std::alloc::Global;

/// The type that the descriptor of a field is, or none where the text is no such descriptor (JVMS 4.3.2).
pub fn field_text(alloc: Global, units: &Units) -> Result<Option<FieldText>, NoMemory>
    ensures { IfOk result (λ found. found ≡ field_text units.now) }
{
    any_field(alloc, units)
}

/// The types of the descriptor of a method, of any number of argument slots, or none where the text is no such
/// descriptor (JVMS 4.3.3).
pub fn method_text(alloc: Global, units: &Units) -> Result<Option<MethodText>, NoMemory>
    ensures { IfOk result (λ found. found ≡ method_text units.now) }
{
    any_method(alloc, units)
}

/// What a text names as a class entry: an array where it begins with `[` (JVMS 4.4.1).
pub fn named_by(alloc: Global, name: &[u16]) -> Result<Named, NoMemory>
    ensures { IfOk result (λ found. found ≡ named_by name.now) }
{
    let Ok(text) = Units::from_slice(alloc, name) else {
        return Err(NoMemory);
    };
    match name {
        [91, ..] => {
            let Ok(found) = field_text(alloc, &text) else {
                return Err(NoMemory);
            };
            match found {
                Some(found) => Ok(Named::AnArray(found)),
                None => Ok(Named::Malformed(text)),
            }
        }
        _ => Ok(Named::AClass(text)),
    }
}
