//! The line of a class file that can't be read.

ghost use Rattle.std.specs.Prelude.{◌≡◌, ◌++◌, IfOk, OnOk, codes};
ghost use Rattle.kilim_reports.specs.ClassLines.{one_number, two_numbers, pool_words, attribute_words, fault_words, class_line};
ghost use Rattle.kilim_reports.specs.Names.{method_text};

use crate::lines::push_number;
use crate::names::push_method;
use crate::texts::{push, push_both};
use kilim_class_attributes::parts::AttributeFault;
use kilim_class_file::{ClassFault, MemberName};
use kilim_class_pool::PoolFault;
use kilim_units::NoMemory;
use std::alloc::Global;

fn push_one(text: &mut Vec<u8>, word: &[u8], number: u64) -> Result<(), NoMemory>
    ensures { OnOk result (text.new.items ≡ text.old.items ++ one_number word.now number) }
{
    let Ok(()) = push_both(text, word, b" ") else {
        return Err(NoMemory);
    };
    push_number(text, number)
}

fn push_two(text: &mut Vec<u8>, word: &[u8], first: u64, second: u64) -> Result<(), NoMemory>
    ensures { OnOk result (text.new.items ≡ text.old.items ++ two_numbers word.now first second) }
{
    let Ok(()) = push_one(text, word, first) else {
        return Err(NoMemory);
    };
    let Ok(()) = push(text, b" ") else {
        return Err(NoMemory);
    };
    push_number(text, second)
}

fn push_pool(text: &mut Vec<u8>, fault: PoolFault) -> Result<(), NoMemory>
    ensures { OnOk result (text.new.items ≡ text.old.items ++ pool_words fault) }
{
    match fault {
        PoolFault::Tag(index, tag) => {
            push_two(text, b"pool tag", u64::from(index), u64::from(tag))
        }
        PoolFault::BadIndex(index) => push_one(text, b"pool index", u64::from(index)),
        PoolFault::Text(index) => push_one(text, b"pool text", u64::from(index)),
        PoolFault::Cut | PoolFault::Memory => Ok(()),
    }
}

fn push_attribute(text: &mut Vec<u8>, fault: AttributeFault) -> Result<(), NoMemory>
    ensures { OnOk result (text.new.items ≡ text.old.items ++ attribute_words fault) }
{
    match fault {
        AttributeFault::Length(name) => {
            push_both(text, b"attribute length ", name.text().as_bytes())
        }
        AttributeFault::FrameTag(tag) => push_one(text, b"attribute frame", u64::from(tag)),
        AttributeFault::BadIndex(index) => push_one(text, b"attribute index", u64::from(index)),
        AttributeFault::Twice(name) => {
            push_both(text, b"attribute twice ", name.text().as_bytes())
        }
        AttributeFault::Cut | AttributeFault::Memory => Ok(()),
    }
}

fn push_code(text: &mut Vec<u8>, method: &MemberName) -> Result<(), NoMemory>
    ensures { OnOk result (text.new.items ≡ text.old.items ++ (codes "code " ++ method_text method.now)) }
{
    let Ok(()) = push(text, b"code ") else {
        return Err(NoMemory);
    };
    push_method(text, method)
}

fn push_fault(text: &mut Vec<u8>, fault: &ClassFault) -> Result<(), NoMemory>
    ensures { OnOk result (text.new.items ≡ text.old.items ++ fault_words fault.now) }
{
    match fault {
        ClassFault::Magic => push(text, b"magic"),
        ClassFault::Version(major, minor) => {
            push_two(text, b"version", u64::from(*major), u64::from(*minor))
        }
        ClassFault::Pool(fault) => push_pool(text, *fault),
        ClassFault::Attribute(fault) => push_attribute(text, *fault),
        ClassFault::Extra(at) => push_one(text, b"extra", *at as u64),
        ClassFault::Cut(at) => push_one(text, b"cut", *at as u64),
        ClassFault::TooLarge => push(text, b"too-large"),
        ClassFault::CodePresence(method) => push_code(text, method),
        ClassFault::Memory => Ok(()),
    }
}

fn push_line(text: &mut Vec<u8>, file: &str, fault: &ClassFault) -> Result<(), NoMemory>
    ensures { OnOk result (text.new.items ≡ text.old.items ++ class_line file.now fault.now) }
{
    let Ok(()) = push_both(text, b"class ", file.as_bytes()) else {
        return Err(NoMemory);
    };
    let Ok(()) = push(text, b" ") else {
        return Err(NoMemory);
    };
    let Ok(()) = push_fault(text, fault) else {
        return Err(NoMemory);
    };
    push(text, b"\n")
}

/// The line of a file that can't be read: `class`, the name of the file as it is given, and the words of its fault.
pub fn class_line(alloc: Global, file: &str, fault: &ClassFault) -> Result<Vec<u8>, NoMemory>
    ensures { IfOk result (λ text. text.items ≡ class_line file.now fault.now) }
{
    let mut text = Vec::new(alloc);
    let Ok(()) = push_line(&mut text, file, fault) else {
        return Err(NoMemory);
    };
    Ok(text)
}
