//! Bytes to a pool.

ghost use Rattle.std.specs.Prelude.{◌≡◌, ◌==◌, ◌⊎◌, ◌+◌, ◌<◌, ◌≤◌, ◌^◌, ◌++◌, if◌then◌else◌, List, length, drop, ℕ, nat_lt, false, true, [], IfOk, MatchResult};
ghost use Rattle.std.specs.Int.{w32, w64};
ghost use Rattle.kilim_class_grammar.specs.Reader.{Reads, ReadsUnless, made, number_at, signed_at};
ghost use Rattle.kilim_class_pool.specs.declared.entry.Entry.TheVariants.{Utf8, Integer, Float, Long, Double, MethodHandle};
ghost use Rattle.kilim_class_pool.specs.Tagged.{is_single, single, is_paired, paired};
ghost use Rattle.kilim_class_grammar.specs.Format.{Format, IsAtFront};
ghost use Rattle.kilim_class_pool.specs.declared.entry.Entry.{Entry};
ghost use Rattle.kilim_class_pool.specs.Entries.{is_wide};
ghost use Rattle.kilim_class_pool.specs.Spelling.{pool_text, PoolFits};
ghost use Rattle.kilim_class_pool.specs.declared.fault.PoolFault.TheVariants as pool;
ghost use Rattle.kilim_class_pool.specs.Reading.{text_at, pair_at, index_at, handle_at, reference_at, content_at, entry_at_index, entries_at, pool_at};
ghost use Rattle.kilim_class_pool.specs.Fronts.{PoolStays, PoolIsCutOrBroken};

use crate::entry::Entry;
use crate::fault::PoolFault;
use crate::pool::{Pool, is_wide};
use crate::refers::first_bad;
use kilim_class_grammar::{bytes_at, u8_at, u16_at, u32_at, u64_at};
use kilim_units::Units;
use std::alloc::Global;

#[tactic(auto, unfolding(crate::specs::Reading::text_at))]
fn text_at(alloc: Global, index: u16, bytes: &[u8]) -> Result<(Entry, &[u8]), PoolFault>
    ensures read { ReadsUnless pool.Memory (λ x. (x.0, x.1.now)) result (made Utf8 (text_at index) bytes.now) }
    ensures narrow { IfOk result (λ x. is_wide x.0 ≡ false) }
{
    let (len, rest) = match u16_at(PoolFault::Cut, bytes) {
        Ok(read) => read,
        Err(fault) => return Err(fault),
    };
    match bytes_at(PoolFault::Cut, usize::from(len), rest) {
        Ok((text, rest)) => match kilim_class_mutf8::read(alloc, text) {
            Ok(units) => Ok((Entry::Utf8(units), rest)),
            Err(kilim_class_mutf8::TextFault::Memory) => Err(PoolFault::Memory),
            Err(_) => Err(PoolFault::Text(index)),
        },
        Err(fault) => Err(fault),
    }
}

fn is_single(tag: u8) -> bool
    ensures { result ≡ is_single tag }
{
    tag == 7 || tag == 8 || tag == 16
}

fn single(tag: u8, index: u16) -> Entry
    ensures result { result ≡ single tag index }
    ensures narrow { is_wide result ≡ false }
{
    if tag == 7 {
        Entry::Class(index)
    } else if tag == 8 {
        Entry::String(index)
    } else {
        Entry::MethodType(index)
    }
}

fn single_at(tag: u8, bytes: &[u8]) -> Result<(Entry, &[u8]), PoolFault>
    ensures read { Reads (λ x. (x.0, x.1.now)) result (made (single tag) index_at bytes.now) }
    ensures narrow { IfOk result (λ x. is_wide x.0 ≡ false) }
{
    match u16_at(PoolFault::Cut, bytes) {
        Ok((index, rest)) => Ok((single(tag, index), rest)),
        Err(fault) => Err(fault),
    }
}

fn is_paired(tag: u8) -> bool
    ensures { result ≡ is_paired tag }
{
    tag == 9 || tag == 10 || tag == 11 || tag == 12 || tag == 18
}

fn paired(tag: u8, first: u16, second: u16) -> Entry
    ensures result { result ≡ paired tag (first, second) }
    ensures narrow { is_wide result ≡ false }
{
    if tag == 9 {
        Entry::Fieldref(first, second)
    } else if tag == 10 {
        Entry::Methodref(first, second)
    } else if tag == 11 {
        Entry::InterfaceMethodref(first, second)
    } else if tag == 12 {
        Entry::NameAndType(first, second)
    } else {
        Entry::InvokeDynamic(first, second)
    }
}

#[tactic(auto, unfolding(crate::specs::Reading::pair_at))]
fn paired_at(tag: u8, bytes: &[u8]) -> Result<(Entry, &[u8]), PoolFault>
    ensures read { Reads (λ x. (x.0, x.1.now)) result (made (paired tag) pair_at bytes.now) }
    ensures narrow { IfOk result (λ x. is_wide x.0 ≡ false) }
{
    match u16_at(PoolFault::Cut, bytes) {
        Ok((first, rest)) => match u16_at(PoolFault::Cut, rest) {
            Ok((second, rest)) => Ok((paired(tag, first, second), rest)),
            Err(fault) => Err(fault),
        },
        Err(fault) => Err(fault),
    }
}

#[tactic(auto, unfolding(crate::specs::Reading::handle_at))]
fn handle_at(bytes: &[u8]) -> Result<(Entry, &[u8]), PoolFault>
    ensures read { Reads (λ x. (x.0, x.1.now)) result (made (λ p. MethodHandle p.0 p.1) handle_at bytes.now) }
    ensures narrow { IfOk result (λ x. is_wide x.0 ≡ false) }
{
    match u8_at(PoolFault::Cut, bytes) {
        Ok((kind, rest)) => match u16_at(PoolFault::Cut, rest) {
            Ok((named, rest)) => Ok((Entry::MethodHandle(kind, named), rest)),
            Err(fault) => Err(fault),
        },
        Err(fault) => Err(fault),
    }
}

fn reference_at(index: u16, tag: u8, bytes: &[u8]) -> Result<(Entry, &[u8]), PoolFault>
    ensures read { Reads (λ x. (x.0, x.1.now)) result (reference_at index tag bytes.now) }
    ensures narrow { IfOk result (λ x. is_wide x.0 ≡ false) }
{
    if is_single(tag) {
        single_at(tag, bytes)
    } else if is_paired(tag) {
        paired_at(tag, bytes)
    } else if tag == 15 {
        handle_at(bytes)
    } else {
        Err(PoolFault::Tag(index, tag))
    }
}

// A number of four bytes.
fn four_at(tag: u8, bytes: &[u8]) -> Result<(Entry, &[u8]), PoolFault>
    ensures read { Reads (λ x. (x.0, x.1.now)) result (if tag == 3 then made Integer (signed_at pool.Cut w32) bytes.now else made Float (number_at pool.Cut w32) bytes.now) }
    ensures narrow { IfOk result (λ x. is_wide x.0 ≡ false) }
{
    match u32_at(PoolFault::Cut, bytes) {
        Ok((bits, rest)) => {
            if tag == 3 {
                Ok((Entry::Integer(bits.cast_signed()), rest))
            } else {
                Ok((Entry::Float(bits), rest))
            }
        }
        Err(fault) => Err(fault),
    }
}

// A number of eight bytes.
fn eight_at(tag: u8, bytes: &[u8]) -> Result<(Entry, &[u8]), PoolFault>
    ensures { Reads (λ x. (x.0, x.1.now)) result (if tag == 5 then made Long (signed_at pool.Cut w64) bytes.now else made Double (number_at pool.Cut w64) bytes.now) }
{
    match u64_at(PoolFault::Cut, bytes) {
        Ok((bits, rest)) => {
            if tag == 5 {
                Ok((Entry::Long(bits.cast_signed()), rest))
            } else {
                Ok((Entry::Double(bits), rest))
            }
        }
        Err(fault) => Err(fault),
    }
}

#[tactic(auto, unfolding(crate::specs::Reading::content_at))]
fn content_at(alloc: Global, index: u16, tag: u8, bytes: &[u8]) -> Result<(Entry, &[u8]), PoolFault>
    ensures read { ReadsUnless pool.Memory (λ x. (x.0, x.1.now)) result (content_at index tag bytes.now) }
    ensures wide { IfOk result (λ x. is_wide x.0 ≡ true → (tag ≡ 5) ⊎ (tag ≡ 6)) }
{
    if tag == 1 {
        text_at(alloc, index, bytes)
    } else if tag == 3 || tag == 4 {
        four_at(tag, bytes)
    } else if tag == 5 || tag == 6 {
        eight_at(tag, bytes)
    } else {
        reference_at(index, tag, bytes)
    }
}

#[tactic(auto, unfolding(crate::specs::Reading::entry_at_index))]
fn entry_at_index(
    alloc: Global,
    index: u16,
    room: bool,
    bytes: &[u8],
) -> Result<(Entry, &[u8]), PoolFault>
    ensures read { ReadsUnless pool.Memory (λ x. (x.0, x.1.now)) result (entry_at_index index room bytes.now) }
    ensures wide { IfOk result (λ x. is_wide x.0 ≡ true → room ≡ true) }
{
    match u8_at(PoolFault::Cut, bytes) {
        Ok((tag, rest)) => {
            if !room && (tag == 5 || tag == 6) {
                Err(PoolFault::BadIndex(index))
            } else {
                content_at(alloc, index, tag, rest)
            }
        }
        Err(fault) => Err(fault),
    }
}

// The entries of so many indices, from 1 on, put behind none, and the bytes behind them.
fn push_entries<'a>(
    alloc: Global,
    count: u16,
    bytes: &'a [u8],
    entries: &mut Pool,
) -> Result<&'a [u8], PoolFault>
    requires count { count + 1 < 2 ^ 16 }
    requires none { entries.old ≡ [] }
    ensures { ReadsUnless pool.Memory (λ rest. (entries.new, rest.now)) result (entries_at count false 1 bytes.now) }
{
    let mut second = false;
    let mut rest = bytes;
    for i in 0..count {
        if second {
            second = false;
        } else {
            match entry_at_index(alloc, i + 1, i + 1 < count, rest) {
                Ok((entry, after)) => {
                    second = is_wide(&entry);
                    let Ok(()) = entries.push(entry) else {
                        return Err(PoolFault::Memory);
                    };
                    rest = after;
                }
                Err(fault) => return Err(fault),
            }
        }
    }
    Ok(rest)
}

fn entries_at(alloc: Global, count: u16, bytes: &[u8]) -> Result<(Pool, &[u8]), PoolFault>
    requires { count + 1 < 2 ^ 16 }
    ensures { ReadsUnless pool.Memory (λ x. (x.0, x.1.now)) result (entries_at count false 1 bytes.now) }
{
    let mut entries = Pool::new(alloc);
    match push_entries(alloc, count, bytes, &mut entries) {
        Ok(rest) => Ok((entries, rest)),
        Err(fault) => Err(fault),
    }
}

#[tactic(auto, unfolding(crate::specs::Reading::pool_at))]
fn pool_at(alloc: Global, bytes: &[u8]) -> Result<(Pool, &[u8]), PoolFault>
    ensures { ReadsUnless pool.Memory (λ x. (x.0, x.1.now)) result (pool_at bytes.now) }
{
    match u16_at(PoolFault::Cut, bytes) {
        Ok((count, rest)) => {
            if count == 0 {
                return Err(PoolFault::BadIndex(0));
            }
            match entries_at(alloc, count - 1, rest) {
                Ok((pool, rest)) => match first_bad(&pool) {
                    Some(place) => {
                        drop(pool);
                        Err(PoolFault::BadIndex((place + 1) as u16))
                    }
                    None => Ok((pool, rest)),
                },
                Err(fault) => Err(fault),
            }
        }
        Err(fault) => Err(fault),
    }
}

impl Pool {
    /// The pool at the front of bytes (JVMS 4.4), and its length in bytes.
    ///
    /// It answers `Ok` exactly where the bytes begin with the text of a pool, whatever follows. Else the fault is that of
    /// the first part in file order that isn't spelled: of the count and the entries, and then of the indices in them.
    pub fn read(alloc: Global, bytes: &[u8]) -> Result<(Pool, usize), PoolFault>
        // What is read is spelled so.
        ensures found { IfOk result (λ x. IsAtFront pool_text PoolFits bytes.now x.0 x.1) }
        ensures within { IfOk result (λ x. x.1 ≤ length bytes.now) }

        // What is spelled so is read.
        ensures only { (entries : List Entry) (rest : List ℕ) → PoolFits entries → bytes.now ≡ pool_text entries ++ rest → MatchResult result (λ x. (x.0 ≡ entries) × (x.1 ≡ length (pool_text entries))) (λ e. e ≡ pool.Memory) }

        // The answer is that of reading the parts in order; of no memory it says nothing.
        ensures reads { ReadsUnless pool.Memory (λ x. (x.0, drop x.1 bytes.now)) result (pool_at bytes.now) }
    {
        pool_is_spelled();
        match pool_at(alloc, bytes) {
            Ok((pool, rest)) => Ok((pool, bytes.len() - rest.len())),
            Err(fault) => Err(fault),
        }
    }
}

/// A law, and no work: what is read as a pool is spelled so and has a text, and what is spelled is read again, whatever
/// follows.
pub fn pool_is_spelled()
    ensures { Format pool_text pool_at PoolFits }
{
    kilim_class_mutf8::units_are_spelled();
}

/// A law, and no work: each proper front of a pool's text is cut, and what is read and every other fault stays, whatever
/// follows: then nothing that follows could spell a pool.
pub fn pool_is_cut_or_broken()
    ensures stays { PoolStays }
    ensures fronts { PoolIsCutOrBroken }
{
    pool_is_spelled();
}
