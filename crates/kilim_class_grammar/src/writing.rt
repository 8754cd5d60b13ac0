//! Numbers at the end of bytes.

ghost use Rattle.std.specs.Prelude.{◌≡◌, ◌++◌, OnOk, OnErr};
ghost use Rattle.kilim_class_grammar.specs.Spelling.{u1, u2, u4, two_u4};

use std::alloc::AllocError;

/// Adds a number of one byte at the end. For want of memory the bytes stay as they were.
pub fn push_u8(into: &mut Vec<u8>, number: u8) -> Result<(), AllocError>
    ensures ok { OnOk result (into.new.items ≡ into.old.items ++ u1 number) }
    ensures err { OnErr result (into.new.items ≡ into.old.items) }
{
    into.extend_from_slice(&number.to_be_bytes())
}

/// Adds a number of two bytes at the end, the highest first. For want of memory the bytes stay as they were.
pub fn push_u16(into: &mut Vec<u8>, number: u16) -> Result<(), AllocError>
    ensures ok { OnOk result (into.new.items ≡ into.old.items ++ u2 number) }
    ensures err { OnErr result (into.new.items ≡ into.old.items) }
{
    into.extend_from_slice(&number.to_be_bytes())
}

/// Adds a number of four bytes at the end, the highest first. For want of memory the bytes stay as they were.
pub fn push_u32(into: &mut Vec<u8>, number: u32) -> Result<(), AllocError>
    ensures ok { OnOk result (into.new.items ≡ into.old.items ++ u4 number) }
    ensures err { OnErr result (into.new.items ≡ into.old.items) }
{
    into.extend_from_slice(&number.to_be_bytes())
}

/// Adds a number of eight bytes at the end, the highest first. For want of memory the bytes stay as they were.
pub fn push_u64(into: &mut Vec<u8>, number: u64) -> Result<(), AllocError>
    ensures ok { OnOk result (into.new.items ≡ into.old.items ++ two_u4 number) }
    ensures err { OnErr result (into.new.items ≡ into.old.items) }
{
    into.extend_from_slice(&number.to_be_bytes())
}
