//! Numbers and bytes at the front of bytes.

ghost use Rattle.std.specs.Int.{w8, w16, w32, w64};
ghost use Rattle.kilim_class_grammar.specs.Reader.{number_at, bytes_at, Reads};

/// A number of one byte, and the bytes behind it; `cut` where there is none.
pub fn u8_at<F: Drop>(cut: F, bytes: &[u8]) -> Result<(u8, &[u8]), F>
    ensures { Reads (λ x. (x.0, x.1.now)) result (number_at cut w8 bytes.now) }
{
    if bytes.is_empty() {
        return Err(cut);
    }
    let (front, rest) = bytes.split_at(1);
    Ok((u8::from_be_bytes([front[0]]), rest))
}

/// A number of two bytes, the highest first, and the bytes behind it; `cut` where fewer are there.
pub fn u16_at<F: Drop>(cut: F, bytes: &[u8]) -> Result<(u16, &[u8]), F>
    ensures { Reads (λ x. (x.0, x.1.now)) result (number_at cut w16 bytes.now) }
{
    if bytes.len() < 2 {
        return Err(cut);
    }
    let (front, rest) = bytes.split_at(2);
    Ok((u16::from_be_bytes([front[0], front[1]]), rest))
}

/// A number of four bytes, the highest first, and the bytes behind it; `cut` where fewer are there.
pub fn u32_at<F: Drop>(cut: F, bytes: &[u8]) -> Result<(u32, &[u8]), F>
    ensures { Reads (λ x. (x.0, x.1.now)) result (number_at cut w32 bytes.now) }
{
    if bytes.len() < 4 {
        return Err(cut);
    }
    let (front, rest) = bytes.split_at(4);
    let number = u32::from_be_bytes([front[0], front[1], front[2], front[3]]);
    Ok((number, rest))
}

/// A number of eight bytes, the highest first, and the bytes behind it; `cut` where fewer are there.
pub fn u64_at<F: Drop>(cut: F, bytes: &[u8]) -> Result<(u64, &[u8]), F>
    ensures { Reads (λ x. (x.0, x.1.now)) result (number_at cut w64 bytes.now) }
{
    match bytes.split_first_chunk() {
        Some((front, rest)) => Ok((u64::from_be_bytes(*front), rest)),
        None => Err(cut),
    }
}

/// So many bytes, and those behind them; `cut` where fewer are there.
pub fn bytes_at<F: Drop>(cut: F, count: usize, bytes: &[u8]) -> Result<(&[u8], &[u8]), F>
    ensures { Reads (λ x. (x.0.now, x.1.now)) result (bytes_at cut count bytes.now) }
{
    if bytes.len() < count {
        return Err(cut);
    }
    Ok(bytes.split_at(count))
}
