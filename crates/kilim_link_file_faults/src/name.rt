//! Names of classes that are none.

ghost use Rattle.std.specs.Prelude.{◌≡◌, ◌==◌, ◌||◌, not, length, true, false, IfOk};
ghost use Rattle.std.specs.List.{list_all, slice_split};
ghost use Rattle.kilim_program.specs.declared.names.ClassId.{ClassId};
ghost use Rattle.kilim_program.specs.Names.{is_empty};
ghost use Rattle.kilim_class_mutf8.specs.Spelling.{spelling, unit_text};
ghost use Rattle.kilim_link_spec.specs.World.{World};
ghost use Rattle.kilim_link_spec.specs.Linked.{first_of};
ghost use Rattle.kilim_link_spec.specs.Faults.{are_paired, is_class_name, is_high, is_low, name_broken};
ghost use Rattle.kilim_link_file_faults.specs.Slashes.{parts_from};

use kilim_class_file::ClassFile;
use kilim_link_spec::Problem;
use kilim_link_views::own_name;
use kilim_units::NoMemory;

fn is_high(unit: u16) -> bool
    ensures { result ≡ is_high unit }
{
    0xD800 <= unit && unit <= 0xDBFF
}

fn is_low(unit: u16) -> bool
    ensures { result ≡ is_low unit }
{
    0xDC00 <= unit && unit <= 0xDFFF
}

// Whether each low surrogate stands behind a high one, and behind each high one a low one.
fn are_paired(units: &[u16]) -> bool
    ensures { result ≡ are_paired false units.now }
{
    let mut behind_high = false;
    for unit in units {
        if behind_high != is_low(*unit) {
            return false;
        }
        behind_high = is_high(*unit);
    }
    !behind_high
}

// Whether behind each slash, at the beginning too, stands neither another one nor the end.
fn parts_from(name: &[u16]) -> bool
    ensures { result ≡ parts_from true name.now }
{
    let mut begins = true;
    for unit in name {
        let is_slash = *unit == 47;
        if is_slash && begins {
            return false;
        }
        begins = is_slash;
    }
    !begins
}

// Whether no part between slashes is empty.
#[tactic(auto, using(crate::proofs::Slashes::parts_are_whole))]
fn has_whole_parts(name: &[u16]) -> bool
    ensures { result ≡ list_all (λ p. not (is_empty p)) (slice_split (λ u. u == 47) name.now) }
{
    parts_from(name)
}

// Whether it holds no `.`, `;` and `[`.
fn has_no_marks(name: &[u16]) -> bool
    ensures { result ≡ list_all (λ u. not (u == 46 || u == 59 || u == 91)) name.now }
{
    for unit in name {
        if *unit == 46 || *unit == 59 || *unit == 91 {
            return false;
        }
    }
    true
}

// The number of bytes that a unit takes (JVMS 4.4.7).
fn unit_length(unit: u16) -> u128
    ensures { result ≡ length (unit_text unit) }
{
    if 0 < unit && unit < 0x80 {
        1
    } else if unit < 0x800 {
        2
    } else {
        3
    }
}

// The number of bytes that a text takes (JVMS 4.4.7).
fn spelled_length(units: &[u16]) -> u128
    ensures { result ≡ length (spelling units.now) }
{
    let mut length = 0u128;
    for unit in units {
        length += unit_length(*unit);
    }
    length
}

#[tactic(auto, unfolding(kilim_link_spec::specs::Faults::is_class_name))]
fn is_class_name(name: &[u16]) -> bool
    ensures { result ≡ is_class_name name.now }
{
    has_whole_parts(name)
        && has_no_marks(name)
        && are_paired(name)
        && spelled_length(name) <= 65_000
}

/// That the name of the class is none: it has an empty part between slashes, holds `.`, `;`, `[` (JVMS 4.2.1) or an
/// unpaired surrogate, or takes more than 65,000 bytes of modified UTF-8 (own); none where it is a name. Takes linear
/// time.
#[tactic(auto, unfolding(kilim_link_spec::specs::Faults::name_broken))]
pub fn name_broken(file: &ClassFile) -> Result<Option<Problem>, NoMemory>
    ensures { IfOk result (λ found. (w : World) → (c : ClassId) → found ≡ first_of (name_broken w file.now c)) }
{
    if is_class_name(own_name(file)) {
        Ok(None)
    } else {
        Ok(Some(Problem::Name))
    }
}
