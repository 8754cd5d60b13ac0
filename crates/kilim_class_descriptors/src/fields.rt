//! Types of fields.

ghost use Rattle.std.specs.Prelude.{◌≡◌, IfOk, IfErr, MatchResult};
ghost use Rattle.kilim_class_descriptors.specs.declared.types.FieldText.{FieldText};
ghost use Rattle.kilim_class_descriptors.specs.declared.fault.DescriptorFault.TheVariants.{Memory};
ghost use Rattle.kilim_class_descriptors.specs.Text.{field_text, FieldFits};
ghost use Rattle.kilim_class_descriptors.specs.Exact.{AtFirstPlace, FieldGives, spelled_by};
ghost use Rattle.std.specs.Option.{option_map};
ghost use Rattle.kilim_class_descriptors.specs.Reading.{Gives, split_name, class_at, base_at, field_behind, field_at, whole_field, Dims};

use crate::fault::{DescriptorFault, Stop};
use crate::types::{BaseText, FieldText};
use kilim_units::{NoMemory, Units};
use std::alloc::Global;

// A name up to the first semicolon, and the units behind that.
fn split_name(units: &[u16]) -> Option<(&[u16], &[u16])>
    ensures { option_map (λ x. (x.0.now, x.1.now)) result ≡ split_name units.now }
{
    for (at, unit) in units.iter().enumerate() {
        if *unit == 59 {
            let (name, rest) = units.split_at(at);
            return Some((name, &rest[1..]));
        }
    }
    None
}

#[tactic(auto, unfolding(crate::specs::Reading::class_at))]
fn class_at(alloc: Global, units: &[u16]) -> Result<(BaseText, &[u16]), Stop>
    ensures { Gives (λ x. (x.0, x.1.now)) result (class_at units.now) }
{
    match split_name(units) {
        None => Err(Stop::Left(0)),
        Some((name, rest)) => {
            if name.is_empty() {
                return Err(Stop::Left(units.len()));
            }
            match Units::from_slice(alloc, name) {
                Ok(name) => Ok((BaseText::Class(name), rest)),
                Err(_) => Err(Stop::Memory),
            }
        }
    }
}

#[tactic(auto, unfolding(crate::specs::Reading::base_at))]
fn base_at(alloc: Global, units: &[u16]) -> Result<(BaseText, &[u16]), Stop>
    ensures { Gives (λ x. (x.0, x.1.now)) result (base_at units.now) }
{
    let [unit, rest @ ..] = units else {
        return Err(Stop::Left(0));
    };
    let unit = *unit;
    if unit == 90 {
        Ok((BaseText::Bool, rest))
    } else if unit == 66 {
        Ok((BaseText::Byte, rest))
    } else if unit == 67 {
        Ok((BaseText::Char, rest))
    } else if unit == 83 {
        Ok((BaseText::Short, rest))
    } else if unit == 73 {
        Ok((BaseText::Int, rest))
    } else if unit == 74 {
        Ok((BaseText::Long, rest))
    } else if unit == 70 {
        Ok((BaseText::Float, rest))
    } else if unit == 68 {
        Ok((BaseText::Double, rest))
    } else if unit == 76 {
        class_at(alloc, rest)
    } else {
        Err(Stop::Left(units.len()))
    }
}

// The dimensions, and the units behind them.
#[tactic(auto, unfolding(crate::specs::Reading::field_at, crate::specs::Reading::field_behind))]
fn dims_at(units: &[u16]) -> Result<(u8, &[u16]), Stop>
    ensures { Dims units.now result }
{
    let mut dims = 0u8;
    let mut rest = units;
    while let [91, after @ ..] = rest {
        if dims == 255 {
            return Err(Stop::Left(rest.len()));
        }
        dims += 1;
        rest = after;
    }
    Ok((dims, rest))
}

/// The type at the front of some units.
#[tactic(auto, unfolding(crate::specs::Reading::field_at))]
pub fn field_at(alloc: Global, units: &[u16]) -> Result<(FieldText, &[u16]), Stop>
    ensures { Gives (λ x. (x.0, x.1.now)) result (field_at units.now) }
{
    match dims_at(units) {
        Ok((dims, rest)) => match base_at(alloc, rest) {
            Ok((base, rest)) => Ok((FieldText { dims, base }, rest)),
            Err(stop) => Err(stop),
        },
        Err(stop) => Err(stop),
    }
}

#[tactic(auto, unfolding(crate::specs::Reading::whole_field))]
fn whole_field(alloc: Global, units: &[u16]) -> Result<FieldText, Stop>
    ensures { Gives (λ f. f) result (whole_field units.now) }
{
    match field_at(alloc, units) {
        Ok((found, rest)) => {
            if rest.is_empty() {
                Ok(found)
            } else {
                drop(found);
                Err(Stop::Left(rest.len()))
            }
        }
        Err(stop) => Err(stop),
    }
}

/// The type that a field's descriptor spells, all of the text (JVMS 4.3.2).
///
/// It answers `Ok` exactly for the text of a type. Else it is `Malformed` at the first place where no descriptor
/// goes on like this, counted in UTF-16 units. Where memory runs out it is `Memory`.
pub fn field(alloc: Global, text: &Units) -> Result<FieldText, DescriptorFault>
    // What is read is spelled so.
    ensures found { IfOk result (λ f. FieldFits f × (text.now ≡ field_text f)) }

    // What is spelled so is read.
    ensures only { (f : FieldText) → FieldFits f → text.now ≡ field_text f → MatchResult result (λ g. g ≡ f) (λ e. e ≡ Memory) }

    // Which fault it is, and at which place.
    ensures exact { FieldGives text.now result }

    // What that place is: a descriptor begins with what stands before it, and none with the unit there too.
    ensures place { IfErr result (λ e. AtFirstPlace field_text FieldFits text.now e) }
{
    let units = text.as_slice();
    match whole_field(alloc, units) {
        Ok(found) => Ok(found),
        Err(Stop::Left(left)) => Err(DescriptorFault::Malformed(units.len() - left)),
        Err(Stop::Memory) => Err(DescriptorFault::Memory),
    }
}

/// The type that a text spells as a field's descriptor; nothing where it spells none.
pub fn any_field(alloc: Global, text: &Units) -> Result<Option<FieldText>, NoMemory>
    ensures { IfOk result (λ f. f ≡ spelled_by (whole_field text.now)) }
{
    match whole_field(alloc, text.as_slice()) {
        Ok(found) => Ok(Some(found)),
        Err(Stop::Left(_)) => Ok(None),
        Err(Stop::Memory) => Err(NoMemory),
    }
}
