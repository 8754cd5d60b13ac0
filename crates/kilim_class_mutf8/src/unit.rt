//! One unit.

ghost use Rattle.std.specs.Prelude.{◌≡◌, ◌<◌, ◌≤◌};
ghost use Rattle.kilim_class_mutf8.specs.Spelling.{is_short};
ghost use Rattle.kilim_class_mutf8.specs.Reading.{continues, two_at, three_at, unit_at, Reads};

/// What is wrong with the unit at the front of bytes. A bad byte is named by its distance from the first.
#[derive(Clone, Copy)]
pub enum UnitFault {
    BadByte(u8),
    Cut,
    SecondSpelling,
}

fn is_short(u: u16) -> bool
    ensures { result ≡ is_short u }
{
    u > 0 && u < 0x80
}

fn continues(b: u8) -> bool
    ensures { result ≡ continues b }
{
    (0x80..0xC0).contains(&b)
}

#[tactic(auto, unfolding(crate::specs::Reading::two_at))]
fn two_at(b: u8, bytes: &[u8]) -> Result<(u16, &[u8]), UnitFault>
    requires low { 192 ≤ b }
    requires high { b < 224 }
    ensures { Reads result (two_at b bytes.now) }
{
    match bytes {
        [] => Err(UnitFault::Cut),
        [c, rest @ ..] => {
            if !continues(*c) {
                return Err(UnitFault::BadByte(1));
            }
            let unit = u16::from(b - 0xC0) * 64 + u16::from(*c - 0x80);
            if unit == 0 || unit >= 0x80 {
                Ok((unit, rest))
            } else {
                Err(UnitFault::SecondSpelling)
            }
        }
    }
}

#[tactic(auto, unfolding(crate::specs::Reading::three_at))]
fn three_at(b: u8, bytes: &[u8]) -> Result<(u16, &[u8]), UnitFault>
    requires low { 224 ≤ b }
    requires high { b < 240 }
    ensures { Reads result (three_at b bytes.now) }
{
    match bytes {
        [] | [_] => Err(UnitFault::Cut),
        [c, d, rest @ ..] => {
            if !continues(*c) {
                return Err(UnitFault::BadByte(1));
            }
            if !continues(*d) {
                return Err(UnitFault::BadByte(2));
            }
            let low = u16::from(*c - 0x80) * 64 + u16::from(*d - 0x80);
            let unit = u16::from(b - 0xE0) * 4096 + low;
            if unit >= 0x800 {
                Ok((unit, rest))
            } else {
                Err(UnitFault::SecondSpelling)
            }
        }
    }
}

/// The unit at the front of bytes, and the bytes behind it.
#[tactic(auto, unfolding(crate::specs::Reading::unit_at))]
pub fn unit_at(bytes: &[u8]) -> Result<(u16, &[u8]), UnitFault>
    ensures { Reads result (unit_at bytes.now) }
{
    match bytes {
        [] => Err(UnitFault::Cut),
        [b, rest @ ..] => {
            if is_short(u16::from(*b)) {
                Ok((u16::from(*b), rest))
            } else if *b >= 0xC0 && *b < 0xE0 {
                two_at(*b, rest)
            } else if *b >= 0xE0 && *b < 0xF0 {
                three_at(*b, rest)
            } else {
                Err(UnitFault::BadByte(0))
            }
        }
    }
}
