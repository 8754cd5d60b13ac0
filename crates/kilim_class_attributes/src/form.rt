//! In what form an attribute is read, by its place and its name.

ghost use Rattle.std.specs.Prelude.{◌≡◌, ◌<◌, ◌^◌};
ghost use Rattle.kilim_class_grammar.specs.Reader.{Reads, is_empty};
ghost use Rattle.kilim_class_attributes.specs.Forms.{stands_in, form_in, form_of, form_at};
ghost use Rattle.kilim_class_attributes.specs.Lists.{named_bytes_at};

use crate::attribute::Place;
use crate::parts::{AttributeFault, AttributeName, named};
use kilim_class_grammar::{bytes_at, u16_at, u32_at};
use kilim_class_pool::{Entry, Pool};
use kilim_units::Units;

// Whether attributes of a name are read into parts at a place.
fn stands_in(place: Place, name: AttributeName) -> bool
    ensures { result ≡ stands_in place name }
{
    match place {
        Place::Class => matches!(
            name,
            AttributeName::RuntimeVisibleAnnotations | AttributeName::RuntimeInvisibleAnnotations
        ),
        Place::Field => matches!(
            name,
            AttributeName::ConstantValue
                | AttributeName::RuntimeVisibleAnnotations
                | AttributeName::RuntimeInvisibleAnnotations
        ),
        Place::Method => matches!(
            name,
            AttributeName::Code
                | AttributeName::Exceptions
                | AttributeName::RuntimeVisibleAnnotations
                | AttributeName::RuntimeInvisibleAnnotations
                | AttributeName::RuntimeVisibleParameterAnnotations
                | AttributeName::RuntimeInvisibleParameterAnnotations
        ),
        Place::Code => matches!(name, AttributeName::StackMapTable),
    }
}

#[tactic(auto, unfolding(crate::specs::Forms::form_of))]
fn form_of(place: Place, units: &Units) -> Option<AttributeName>
    ensures { result ≡ form_of place units.now }
{
    match named(units) {
        Some(name) => {
            if stands_in(place, name) {
                Some(name)
            } else {
                None
            }
        }
        None => None,
    }
}

/// The form of an attribute whose name has an index; BadIndex where it names no Utf8.
#[tactic(auto, unfolding(crate::specs::Forms::form_at))]
pub fn form_at(
    pool: &Pool,
    place: Place,
    index: u16,
) -> Result<Option<AttributeName>, AttributeFault>
    ensures { Reads (λ x. x) result (form_at pool.now place index) }
{
    match pool.entry(index) {
        Some(Entry::Utf8(units)) => Ok(form_of(place, units)),
        _ => Err(AttributeFault::BadIndex(index)),
    }
}

/// The index of a name, the bytes of an attribute, and the bytes behind it.
#[tactic(auto, unfolding(crate::specs::Lists::named_bytes_at))]
pub fn named_bytes_at(
    cut: AttributeFault,
    bytes: &[u8],
) -> Result<((u16, &[u8]), &[u8]), AttributeFault>
    ensures { Reads (λ x. ((x.0.0, x.0.1.now), x.1.now)) result (named_bytes_at cut bytes.now) }
{
    let (name, rest) = match u16_at(cut, bytes) {
        Ok(read) => read,
        Err(fault) => return Err(fault),
    };
    match u32_at(cut, rest) {
        Ok((size, rest)) => match bytes_at(cut, size as usize, rest) {
            Ok((content, rest)) => Ok(((name, content), rest)),
            Err(fault) => Err(fault),
        },
        Err(fault) => Err(fault),
    }
}
