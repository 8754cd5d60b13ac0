//! Parts of bytes.

ghost use Rattle.std.specs.Prelude.{◌≡◌, ◌≤◌, take, drop, [], if◌then◌else◌, ◌&&◌, nat_le, length};

/// The bytes between two places; none where there aren't these places in this order.
pub fn between(bytes: &[u8], from: usize, to: usize) -> &[u8]
    ensures { result.now ≡ (if nat_le from to && nat_le to (length bytes.now) then drop from (take to bytes.now) else []) }
{
    if from <= to && to <= bytes.len() {
        &bytes[from..to]
    } else {
        &[]
    }
}

/// At most so many bytes of the front.
pub fn front(bytes: &[u8], most: usize) -> &[u8]
    ensures { result.now ≡ take most bytes.now }
{
    if bytes.len() > most {
        &bytes[..most]
    } else {
        bytes
    }
}

/// What stands behind so many words, each with a space behind it; nothing where there are fewer.
pub fn behind(line: &[u8], words: usize) -> &[u8] {
    let mut left = words;
    for (i, byte) in line.iter().enumerate() {
        if left == 0 {
            return between(line, i, line.len());
        }
        if *byte == b' ' {
            left -= 1;
        }
    }
    &[]
}

/// The word at the front: what stands before the first space.
pub fn word(line: &[u8]) -> &[u8] {
    for (i, byte) in line.iter().enumerate() {
        if *byte == b' ' {
            return between(line, 0, i);
        }
    }
    line
}
