//! Types of methods.

ghost use Rattle.std.specs.Prelude.{◌≡◌, ◌⊎◌, [], ◌<◌, ◌≤◌, ◌^◌, length, sum_by, IfOk, IfErr, MatchResult};
ghost use Rattle.kilim_class_descriptors.specs.declared.types.MethodText.{MethodText};
ghost use Rattle.kilim_class_descriptors.specs.declared.fault.DescriptorFault.TheVariants.{Memory, TooManySlots};
ghost use Rattle.kilim_class_descriptors.specs.Text.{method_text, MethodFits, is_wide, slots, slots_of};
ghost use Rattle.kilim_class_descriptors.specs.Reading.{Gives, param_at, params_at, result_at, whole_method};
ghost use Rattle.kilim_class_descriptors.specs.Exact.{AtFirstPlace, MethodGives, spelled_by};

use crate::fault::{DescriptorFault, Stop};
use crate::fields::field_at;
use crate::types::{BaseText, FieldText, MethodText};
use kilim_units::{NoMemory, Seq, Units};
use std::alloc::Global;

// The next parameter, or none at the closing parenthesis.
#[tactic(auto, unfolding(crate::specs::Reading::param_at))]
fn param_at(alloc: Global, units: &[u16]) -> Result<(Option<FieldText>, &[u16]), Stop>
    ensures { Gives (λ x. (x.0, x.1.now)) result (param_at units.now) }
{
    match units {
        [] => Err(Stop::Left(0)),
        [41, rest @ ..] => Ok((None, rest)),
        _ => match field_at(alloc, units) {
            Ok((param, rest)) => Ok((Some(param), rest)),
            Err(stop) => Err(stop),
        },
    }
}

// The parameters up to the closing parenthesis, put behind none, and the units behind it.
fn push_params<'a>(
    alloc: Global,
    units: &'a [u16],
    params: &mut Seq<FieldText>,
) -> Result<&'a [u16], Stop>
    requires none { params.old ≡ [] }
    ensures { Gives (λ rest. (params.new, rest.now)) result (params_at (length units.now) units.now) }
{
    let mut rest = units;
    for _ in 0..units.len() {
        match param_at(alloc, rest) {
            Ok((param, after)) => {
                let Some(param) = param else {
                    return Ok(after);
                };
                let Ok(()) = params.push(param) else {
                    return Err(Stop::Memory);
                };
                rest = after;
            }
            Err(stop) => return Err(stop),
        }
    }
    Err(Stop::Left(rest.len()))
}

fn params_at(alloc: Global, units: &[u16]) -> Result<(Seq<FieldText>, &[u16]), Stop>
    ensures { Gives (λ x. (x.0, x.1.now)) result (params_at (length units.now) units.now) }
{
    let mut params = Seq::new(alloc);
    match push_params(alloc, units, &mut params) {
        Ok(rest) => Ok((params, rest)),
        Err(stop) => Err(stop),
    }
}

#[tactic(auto, unfolding(crate::specs::Reading::result_at))]
fn result_at(alloc: Global, units: &[u16]) -> Result<(Option<FieldText>, &[u16]), Stop>
    ensures { Gives (λ x. (x.0, x.1.now)) result (result_at units.now) }
{
    match units {
        [] => Err(Stop::Left(0)),
        [86, rest @ ..] => Ok((None, rest)),
        _ => match field_at(alloc, units) {
            Ok((found, rest)) => Ok((Some(found), rest)),
            Err(stop) => Err(stop),
        },
    }
}

#[tactic(auto, unfolding(crate::specs::Reading::whole_method))]
fn whole_method(alloc: Global, units: &[u16]) -> Result<MethodText, Stop>
    ensures { Gives (λ m. m) result (whole_method units.now) }
{
    let [unit, rest @ ..] = units else {
        return Err(Stop::Left(0));
    };
    if *unit != 40 {
        return Err(Stop::Left(units.len()));
    }
    match params_at(alloc, rest) {
        Ok((params, rest)) => match result_at(alloc, rest) {
            Ok((result, rest)) => {
                if rest.is_empty() {
                    Ok(MethodText { params, result })
                } else {
                    Err(Stop::Left(rest.len()))
                }
            }
            Err(stop) => Err(stop),
        },
        Err(stop) => Err(stop),
    }
}

fn is_wide(base: &BaseText) -> bool
    ensures { result ≡ is_wide base.now }
{
    matches!(base, BaseText::Long | BaseText::Double)
}

fn slots(found: &FieldText) -> usize
    ensures slots { result ≡ slots found.now }
    ensures few { result ≤ 2 }
{
    if found.dims == 0 && is_wide(&found.base) {
        2
    } else {
        1
    }
}

// The argument slots of some parameters.
fn slots_of(params: &[FieldText]) -> usize
    requires { length params.now < 2 ^ 63 }
    ensures { result ≡ sum_by slots params.now }
{
    let mut sum = 0;
    for param in params {
        sum += slots(param);
    }
    sum
}

/// The types that a method's descriptor spells, all of the text (JVMS 4.3.3).
///
/// It answers `Ok` exactly for a descriptor whose parameters take at most 255 argument slots; a long and a
/// double take two, `this` isn't counted. Else it is `Malformed` at the first place where no descriptor goes on
/// like this, counted in UTF-16 units, or `TooManySlots` for the text of a descriptor with so many slots. Where
/// memory runs out it is `Memory`.
pub fn method(alloc: Global, text: &Units) -> Result<MethodText, DescriptorFault>
    // What is read is spelled so, and has few enough slots.
    ensures found { IfOk result (λ m. MethodFits m × (text.now ≡ method_text m) × (slots_of m ≤ 255)) }

    // What is spelled so, and has few enough slots, is read.
    ensures only { (m : MethodText) → MethodFits m → text.now ≡ method_text m → slots_of m ≤ 255 → MatchResult result (λ g. g ≡ m) (λ e. e ≡ Memory) }

    // What is spelled so, and has more, has too many.
    ensures many { (m : MethodText) → MethodFits m → text.now ≡ method_text m → 255 < slots_of m → MatchResult result (λ g. ⊥) (λ e. (e ≡ Memory) ⊎ (e ≡ TooManySlots (slots_of m))) }

    // Which fault it is, and at which place.
    ensures exact { MethodGives text.now result }

    // What that place is: a descriptor, of however many slots, begins with what stands before it, and none with the
    // unit there too.
    ensures place { IfErr result (λ e. AtFirstPlace method_text MethodFits text.now e) }
{
    let units = text.as_slice();
    match whole_method(alloc, units) {
        Ok(found) => {
            let slots = slots_of(found.params.as_slice());
            if slots > 255 {
                drop(found);
                Err(DescriptorFault::TooManySlots(slots))
            } else {
                Ok(found)
            }
        }
        Err(Stop::Left(left)) => Err(DescriptorFault::Malformed(units.len() - left)),
        Err(Stop::Memory) => Err(DescriptorFault::Memory),
    }
}

/// The argument slots that the parameters of a method take (JVMS 4.3.3): a long and a double take two, `this` isn't
/// counted.
pub fn argument_slots(method: &MethodText) -> usize
    requires { length method.now.params < 2 ^ 63 }
    ensures { result ≡ slots_of method.now }
{
    slots_of(method.params.as_slice())
}

/// The types that a text spells as a method's descriptor, however many argument slots they take; nothing where it
/// spells none.
pub fn any_method(alloc: Global, text: &Units) -> Result<Option<MethodText>, NoMemory>
    ensures { IfOk result (λ m. m ≡ spelled_by (whole_method text.now)) }
{
    match whole_method(alloc, text.as_slice()) {
        Ok(found) => Ok(Some(found)),
        Err(Stop::Left(_)) => Ok(None),
        Err(Stop::Memory) => Err(NoMemory),
    }
}
