//! Bytes to a class file.

ghost use Rattle.std.specs.Prelude.{◌≡◌, ◌⊎◌, ◌++◌, List, [], ℕ, length, IfOk, IfErr, MatchResult};
ghost use Rattle.kilim_class_grammar.specs.Reader.{Reads, ReadsUnless, both, counted, many};
ghost use Rattle.kilim_class_grammar.specs.Format.{Format};
ghost use Rattle.kilim_class_pool.specs.Entries.{is_utf8, is_class};
ghost use Rattle.kilim_class_attributes.specs.declared.attribute.Place.TheVariants as place;
ghost use Rattle.kilim_class_file.specs.declared.class_file.ClassFile.{ClassFile};
ghost use Rattle.kilim_class_file.specs.declared.fault.ClassFault.{ClassFault};
ghost use Rattle.kilim_class_file.specs.declared.fault.ClassFault.TheVariants as fault;
ghost use Rattle.kilim_class_file.specs.Text.{class_text, ClassFits, size_limit};
ghost use Rattle.kilim_class_file.specs.Law.{ClassFilesAreSpelled, PartsAreSpelled};
ghost use Rattle.kilim_class_file.specs.Reading.{pool_fault, attribute_fault, u2_at, index_at, class_index_at, utf8_index_at, attributes_in, member_at, field_at, method_at, list_at, magic_at, version_at, front_at, names_at, lists_at, class_at, read_class};
ghost use Rattle.kilim_class_file.specs.Faults.{Says, FaultsAreTrue};
ghost use Rattle.kilim_class_file.specs.Parts.{name_of};

use crate::class_file::{ClassFile, MemberInfo};
use crate::fault::ClassFault;
use crate::members::{has_its_code, is_class, is_utf8, name_of};
use kilim_class_attributes::{Attribute, AttributeFault, Place, read_all};
use kilim_class_grammar::{u16_at, u32_at};
use kilim_class_pool::{Pool, PoolFault};
use kilim_units::Seq;
use std::alloc::Global;

fn pool_fault(len: usize, fault: PoolFault) -> ClassFault
    ensures { result ≡ pool_fault len fault }
{
    match fault {
        PoolFault::Cut => ClassFault::Cut(len),
        PoolFault::Memory => ClassFault::Memory,
        PoolFault::Tag(_, _) | PoolFault::BadIndex(_) | PoolFault::Text(_) => {
            ClassFault::Pool(fault)
        }
    }
}

fn attribute_fault(len: usize, fault: AttributeFault) -> ClassFault
    ensures { result ≡ attribute_fault len fault }
{
    match fault {
        AttributeFault::Cut => ClassFault::Cut(len),
        AttributeFault::Memory => ClassFault::Memory,
        AttributeFault::Length(_)
        | AttributeFault::FrameTag(_)
        | AttributeFault::BadIndex(_)
        | AttributeFault::Twice(_) => ClassFault::Attribute(fault),
    }
}

fn u2_at(len: usize, bytes: &[u8]) -> Result<(u16, &[u8]), ClassFault>
    ensures { Reads (λ x. (x.0, x.1.now)) result (u2_at len bytes.now) }
{
    u16_at(ClassFault::Cut(len), bytes)
}

#[tactic(auto, unfolding(crate::specs::Reading::index_at))]
fn class_index_at<'a>(
    len: usize,
    pool: &Pool,
    bytes: &'a [u8],
) -> Result<(u16, &'a [u8]), ClassFault>
    ensures { Reads (λ x. (x.0, x.1.now)) result (class_index_at len pool.now bytes.now) }
{
    match u2_at(len, bytes) {
        Ok((index, rest)) => {
            if is_class(pool.entry(index)) {
                Ok((index, rest))
            } else {
                Err(ClassFault::Pool(PoolFault::BadIndex(index)))
            }
        }
        Err(fault) => Err(fault),
    }
}

#[tactic(auto, unfolding(crate::specs::Reading::index_at))]
fn utf8_index_at<'a>(
    len: usize,
    pool: &Pool,
    bytes: &'a [u8],
) -> Result<(u16, &'a [u8]), ClassFault>
    ensures { Reads (λ x. (x.0, x.1.now)) result (utf8_index_at len pool.now bytes.now) }
{
    match u2_at(len, bytes) {
        Ok((index, rest)) => {
            if is_utf8(pool.entry(index)) {
                Ok((index, rest))
            } else {
                Err(ClassFault::Pool(PoolFault::BadIndex(index)))
            }
        }
        Err(fault) => Err(fault),
    }
}

fn attributes_in<'a>(
    alloc: Global,
    len: usize,
    pool: &Pool,
    place: Place,
    bytes: &'a [u8],
) -> Result<(Seq<Attribute>, &'a [u8]), ClassFault>
    ensures { ReadsUnless fault.Memory (λ x. (x.0, x.1.now)) result (attributes_in len pool.now place bytes.now) }
{
    match read_all(alloc, pool, bytes, place) {
        Ok((attributes, end)) => Ok((attributes, bytes.split_at(end).1)),
        Err(fault) => Err(attribute_fault(len, fault)),
    }
}

#[tactic(auto, unfolding(crate::specs::Reading::member_at))]
fn member_at<'a>(
    alloc: Global,
    len: usize,
    pool: &Pool,
    place: Place,
    bytes: &'a [u8],
) -> Result<(MemberInfo, &'a [u8]), ClassFault>
    ensures { ReadsUnless fault.Memory (λ x. (x.0, x.1.now)) result (member_at len pool.now place bytes.now) }
{
    let (access_flags, rest) = match u2_at(len, bytes) {
        Ok(read) => read,
        Err(fault) => return Err(fault),
    };
    let (name_index, rest) = match utf8_index_at(len, pool, rest) {
        Ok(read) => read,
        Err(fault) => return Err(fault),
    };
    match utf8_index_at(len, pool, rest) {
        Ok((descriptor_index, rest)) => match attributes_in(alloc, len, pool, place, rest) {
            Ok((attributes, rest)) => {
                let member = MemberInfo {
                    access_flags,
                    name_index,
                    descriptor_index,
                    attributes,
                };
                Ok((member, rest))
            }
            Err(fault) => Err(fault),
        },
        Err(fault) => Err(fault),
    }
}

// That a method has Code where it may not, or none where it has to.
fn code_presence(alloc: Global, pool: &Pool, method: &MemberInfo) -> ClassFault
    ensures { (result ≡ fault.Memory) ⊎ (result ≡ fault.CodePresence (name_of pool.now method.now)) }
{
    match name_of(alloc, pool, method) {
        Ok(name) => ClassFault::CodePresence(name),
        Err(_) => ClassFault::Memory,
    }
}

#[tactic(auto, unfolding(crate::specs::Reading::method_at))]
fn method_at<'a>(
    alloc: Global,
    len: usize,
    pool: &Pool,
    bytes: &'a [u8],
) -> Result<(MemberInfo, &'a [u8]), ClassFault>
    ensures { ReadsUnless fault.Memory (λ x. (x.0, x.1.now)) result (method_at len pool.now bytes.now) }
{
    match member_at(alloc, len, pool, Place::Method, bytes) {
        Ok((method, rest)) => {
            if has_its_code(&method) {
                Ok((method, rest))
            } else {
                let fault = code_presence(alloc, pool, &method);
                drop(method);
                Err(fault)
            }
        }
        Err(fault) => Err(fault),
    }
}

fn so_many_classes_at<'a>(
    alloc: Global,
    len: usize,
    pool: &Pool,
    count: u16,
    bytes: &'a [u8],
) -> Result<(Seq<u16>, &'a [u8]), ClassFault>
    ensures { ReadsUnless fault.Memory (λ x. (x.0, x.1.now)) result (many (class_index_at len pool.now) count bytes.now) }
{
    let mut classes = Seq::new(alloc);
    let mut rest = bytes;
    for _ in 0..count {
        match class_index_at(len, pool, rest) {
            Ok((class, after)) => {
                classes.push(class)?;
                rest = after;
            }
            Err(fault) => return Err(fault),
        }
    }
    Ok((classes, rest))
}

// So many fields, put behind none, and the bytes behind them.
fn push_fields_at<'a>(
    alloc: Global,
    len: usize,
    pool: &Pool,
    count: u16,
    bytes: &'a [u8],
    fields: &mut Seq<MemberInfo>,
) -> Result<&'a [u8], ClassFault>
    requires none { fields.old ≡ [] }
    ensures { ReadsUnless fault.Memory (λ rest. (fields.new, rest.now)) result (many (field_at len pool.now) count bytes.now) }
{
    let mut rest = bytes;
    for _ in 0..count {
        match member_at(alloc, len, pool, Place::Field, rest) {
            Ok((field, after)) => {
                fields.push(field)?;
                rest = after;
            }
            Err(fault) => return Err(fault),
        }
    }
    Ok(rest)
}

fn so_many_fields_at<'a>(
    alloc: Global,
    len: usize,
    pool: &Pool,
    count: u16,
    bytes: &'a [u8],
) -> Result<(Seq<MemberInfo>, &'a [u8]), ClassFault>
    ensures { ReadsUnless fault.Memory (λ x. (x.0, x.1.now)) result (many (field_at len pool.now) count bytes.now) }
{
    let mut fields = Seq::new(alloc);
    match push_fields_at(alloc, len, pool, count, bytes, &mut fields) {
        Ok(rest) => Ok((fields, rest)),
        Err(fault) => Err(fault),
    }
}

// So many methods, put behind none, and the bytes behind them.
fn push_methods_at<'a>(
    alloc: Global,
    len: usize,
    pool: &Pool,
    count: u16,
    bytes: &'a [u8],
    methods: &mut Seq<MemberInfo>,
) -> Result<&'a [u8], ClassFault>
    requires none { methods.old ≡ [] }
    ensures { ReadsUnless fault.Memory (λ rest. (methods.new, rest.now)) result (many (method_at len pool.now) count bytes.now) }
{
    let mut rest = bytes;
    for _ in 0..count {
        match method_at(alloc, len, pool, rest) {
            Ok((method, after)) => {
                methods.push(method)?;
                rest = after;
            }
            Err(fault) => return Err(fault),
        }
    }
    Ok(rest)
}

fn so_many_methods_at<'a>(
    alloc: Global,
    len: usize,
    pool: &Pool,
    count: u16,
    bytes: &'a [u8],
) -> Result<(Seq<MemberInfo>, &'a [u8]), ClassFault>
    ensures { ReadsUnless fault.Memory (λ x. (x.0, x.1.now)) result (many (method_at len pool.now) count bytes.now) }
{
    let mut methods = Seq::new(alloc);
    match push_methods_at(alloc, len, pool, count, bytes, &mut methods) {
        Ok(rest) => Ok((methods, rest)),
        Err(fault) => Err(fault),
    }
}

#[tactic(auto, unfolding(crate::specs::Reading::magic_at))]
fn magic_at(len: usize, bytes: &[u8]) -> Result<(u32, &[u8]), ClassFault>
    ensures { Reads (λ x. (x.0, x.1.now)) result (magic_at len bytes.now) }
{
    match u32_at(ClassFault::Cut(len), bytes) {
        Ok((magic, rest)) => {
            if magic == 0xCAFE_BABE {
                Ok((magic, rest))
            } else {
                Err(ClassFault::Magic)
            }
        }
        Err(fault) => Err(fault),
    }
}

#[tactic(auto, unfolding(crate::specs::Reading::version_at))]
fn version_at(len: usize, bytes: &[u8]) -> Result<((u16, u16), &[u8]), ClassFault>
    ensures { Reads (λ x. (x.0, x.1.now)) result (version_at len bytes.now) }
{
    match u2_at(len, bytes) {
        Ok((minor, rest)) => {
            match u2_at(len, rest) {
                Ok((major, rest)) => {
                    if minor == 0 && major == 52 {
                        Ok(((minor, major), rest))
                    } else {
                        Err(ClassFault::Version(major, minor))
                    }
                }
                Err(fault) => Err(fault),
            }
        }
        Err(fault) => Err(fault),
    }
}

type Front = ((u32, (u16, u16)), Pool);

#[tactic(auto, unfolding(crate::specs::Reading::front_at))]
fn front_at(alloc: Global, len: usize, bytes: &[u8]) -> Result<(Front, &[u8]), ClassFault>
    ensures { ReadsUnless fault.Memory (λ x. (x.0, x.1.now)) result (front_at len bytes.now) }
{
    let (magic, rest) = match magic_at(len, bytes) {
        Ok(read) => read,
        Err(fault) => return Err(fault),
    };
    match version_at(len, rest) {
        Ok((version, rest)) => match Pool::read(alloc, rest) {
            Ok((pool, end)) => Ok((((magic, version), pool), rest.split_at(end).1)),
            Err(fault) => Err(pool_fault(len, fault)),
        },
        Err(fault) => Err(fault),
    }
}

// The flags, this class and its superclass.
type Names = (u16, (u16, u16));

#[tactic(auto, unfolding(crate::specs::Reading::names_at))]
fn names_at<'a>(len: usize, pool: &Pool, bytes: &'a [u8]) -> Result<(Names, &'a [u8]), ClassFault>
    ensures { Reads (λ x. (x.0, x.1.now)) result (names_at len pool.now bytes.now) }
{
    let (access_flags, rest) = match u2_at(len, bytes) {
        Ok(read) => read,
        Err(fault) => return Err(fault),
    };
    match class_index_at(len, pool, rest) {
        Ok((this_class, rest)) => match class_index_at(len, pool, rest) {
            Ok((super_class, rest)) => Ok(((access_flags, (this_class, super_class)), rest)),
            Err(fault) => Err(fault),
        },
        Err(fault) => Err(fault),
    }
}

// The interfaces.
fn classes_at<'a>(
    alloc: Global,
    len: usize,
    pool: &Pool,
    bytes: &'a [u8],
) -> Result<(Seq<u16>, &'a [u8]), ClassFault>
    ensures { ReadsUnless fault.Memory (λ x. (x.0, x.1.now)) result (list_at len (class_index_at len pool.now) bytes.now) }
{
    match u2_at(len, bytes) {
        Ok((count, rest)) => so_many_classes_at(alloc, len, pool, count, rest),
        Err(fault) => Err(fault),
    }
}

fn fields_at<'a>(
    alloc: Global,
    len: usize,
    pool: &Pool,
    bytes: &'a [u8],
) -> Result<(Seq<MemberInfo>, &'a [u8]), ClassFault>
    ensures { ReadsUnless fault.Memory (λ x. (x.0, x.1.now)) result (list_at len (field_at len pool.now) bytes.now) }
{
    match u2_at(len, bytes) {
        Ok((count, rest)) => so_many_fields_at(alloc, len, pool, count, rest),
        Err(fault) => Err(fault),
    }
}

fn methods_at<'a>(
    alloc: Global,
    len: usize,
    pool: &Pool,
    bytes: &'a [u8],
) -> Result<(Seq<MemberInfo>, &'a [u8]), ClassFault>
    ensures { ReadsUnless fault.Memory (λ x. (x.0, x.1.now)) result (list_at len (method_at len pool.now) bytes.now) }
{
    match u2_at(len, bytes) {
        Ok((count, rest)) => so_many_methods_at(alloc, len, pool, count, rest),
        Err(fault) => Err(fault),
    }
}

type InterfacesAndFields = (Seq<u16>, Seq<MemberInfo>);

type MethodsAndAttributes = (Seq<MemberInfo>, Seq<Attribute>);

type Lists = (InterfacesAndFields, MethodsAndAttributes);

fn interfaces_and_fields_at<'a>(
    alloc: Global,
    len: usize,
    pool: &Pool,
    bytes: &'a [u8],
) -> Result<(InterfacesAndFields, &'a [u8]), ClassFault>
    ensures { ReadsUnless fault.Memory (λ x. (x.0, x.1.now)) result (both (list_at len (class_index_at len pool.now)) (list_at len (field_at len pool.now)) bytes.now) }
{
    match classes_at(alloc, len, pool, bytes) {
        Ok((interfaces, rest)) => match fields_at(alloc, len, pool, rest) {
            Ok((fields, rest)) => Ok(((interfaces, fields), rest)),
            Err(fault) => Err(fault),
        },
        Err(fault) => Err(fault),
    }
}

fn methods_and_attributes_at<'a>(
    alloc: Global,
    len: usize,
    pool: &Pool,
    bytes: &'a [u8],
) -> Result<(MethodsAndAttributes, &'a [u8]), ClassFault>
    ensures { ReadsUnless fault.Memory (λ x. (x.0, x.1.now)) result (both (list_at len (method_at len pool.now)) (attributes_in len pool.now place.Class) bytes.now) }
{
    match methods_at(alloc, len, pool, bytes) {
        Ok((methods, rest)) => match attributes_in(alloc, len, pool, Place::Class, rest) {
            Ok((attributes, rest)) => Ok(((methods, attributes), rest)),
            Err(fault) => Err(fault),
        },
        Err(fault) => Err(fault),
    }
}

#[tactic(auto, unfolding(crate::specs::Reading::lists_at))]
fn lists_at<'a>(
    alloc: Global,
    len: usize,
    pool: &Pool,
    bytes: &'a [u8],
) -> Result<(Lists, &'a [u8]), ClassFault>
    ensures { ReadsUnless fault.Memory (λ x. (x.0, x.1.now)) result (lists_at len pool.now bytes.now) }
{
    match interfaces_and_fields_at(alloc, len, pool, bytes) {
        Ok((first, rest)) => match methods_and_attributes_at(alloc, len, pool, rest) {
            Ok((last, rest)) => Ok(((first, last), rest)),
            Err(fault) => Err(fault),
        },
        Err(fault) => Err(fault),
    }
}

// What stands behind the pool.
fn behind_pool_at<'a>(
    alloc: Global,
    len: usize,
    pool: &Pool,
    bytes: &'a [u8],
) -> Result<((Names, Lists), &'a [u8]), ClassFault>
    ensures { ReadsUnless fault.Memory (λ x. (x.0, x.1.now)) result (both (names_at len pool.now) (lists_at len pool.now) bytes.now) }
{
    match names_at(len, pool, bytes) {
        Ok((names, rest)) => match lists_at(alloc, len, pool, rest) {
            Ok((lists, rest)) => Ok(((names, lists), rest)),
            Err(fault) => Err(fault),
        },
        Err(fault) => Err(fault),
    }
}

#[tactic(auto, unfolding(crate::specs::Reading::class_at))]
fn class_at(alloc: Global, len: usize, bytes: &[u8]) -> Result<(ClassFile, &[u8]), ClassFault>
    ensures { ReadsUnless fault.Memory (λ x. (x.0, x.1.now)) result (class_at len bytes.now) }
{
    let (front, rest) = match front_at(alloc, len, bytes) {
        Ok(read) => read,
        Err(fault) => return Err(fault),
    };
    let ((_, version), pool) = front;
    match behind_pool_at(alloc, len, &pool, rest) {
        Ok((found, rest)) => {
            let (names, ((interfaces, fields), (methods, attributes))) = found;
            let file = ClassFile {
                minor_version: version.0,
                major_version: version.1,
                constant_pool: pool,
                access_flags: names.0,
                this_class: names.1.0,
                super_class: names.1.1,
                interfaces,
                fields,
                methods,
                attributes,
            };
            Ok((file, rest))
        }
        Err(fault) => {
            drop(pool);
            Err(fault)
        }
    }
}

#[tactic(auto, unfolding(crate::specs::Text::size_limit))]
fn size_limit() -> usize
    ensures { result ≡ size_limit }
{
    16_777_216
}

// A law: what is read as the parts of a file is spelled so, and what is spelled is read again.
fn parts_are_spelled()
    ensures { PartsAreSpelled }
{
    kilim_class_pool::pool_is_spelled();
    kilim_class_attributes::attributes_are_spelled();
}

// The class file that bytes are.
#[tactic(auto, unfolding(crate::specs::Reading::read_class))]
fn class_of(alloc: Global, bytes: &[u8]) -> Result<ClassFile, ClassFault>
    ensures { ReadsUnless fault.Memory (λ file. file) result (read_class bytes.now) }
{
    parts_are_spelled();
    if bytes.len() > size_limit() {
        return Err(ClassFault::TooLarge);
    }
    match class_at(alloc, bytes.len(), bytes) {
        Ok((file, rest)) => {
            if rest.is_empty() {
                Ok(file)
            } else {
                drop(file);
                Err(ClassFault::Extra(bytes.len() - rest.len()))
            }
        }
        Err(fault) => Err(fault),
    }
}

/// The class file that bytes are, all of the bytes (JVMS 4.1), in time linear in their number.
///
/// It answers `Ok` exactly where the bytes are the text of a class file: at most 16,777,216 bytes, version 52.0, and
/// nothing behind the last attribute. Else the fault is `TooLarge`, or that of the first part in file order that isn't
/// spelled. A part that the bytes end in is `Cut`, whatever it holds.
pub fn read(alloc: Global, bytes: &[u8]) -> Result<ClassFile, ClassFault>
    // What is read is spelled so.
    ensures found { IfOk result (λ file. (bytes.now ≡ class_text file) × ClassFits file) }

    // What is spelled so is read.
    ensures only { (file : ClassFile) → ClassFits file → bytes.now ≡ class_text file → MatchResult result (λ read. read ≡ file) (λ e. e ≡ fault.Memory) }

    // The answer is that of reading the parts in order; of no memory it says nothing.
    ensures reads { ReadsUnless fault.Memory (λ file. file) result (read_class bytes.now) }

    // What each fault says: `Cut` names the number of the bytes; `Extra` has the parts of a file in front of its place;
    // `Pool` and `Attribute` never hold a Cut or want of memory.
    ensures says { IfErr result (Says bytes.now) }
{
    class_file_is_spelled();
    faults_are_true();
    // With the bytes read, the proof knows that each is below 256.
    let _bytes = bytes.first();
    class_of(alloc, bytes)
}

/// A law, and no work: what is read as a class file is spelled so and has a text, and what is spelled is read again.
pub fn class_file_is_spelled()
    ensures { ClassFilesAreSpelled }
{
    kilim_class_pool::pool_is_spelled();
    kilim_class_attributes::attributes_are_spelled();
}

/// A law, and no work: what each fault of `read` says, by the bytes and by those that may follow. Each proper front of a
/// class file is `Cut`; a part that is broken can't be spelled, whatever follows; `Extra` and `TooLarge` come exactly
/// where bytes stand behind the parts of a file, and where there are too many.
pub fn faults_are_true()
    ensures { FaultsAreTrue }
{
    parts_are_spelled();
    kilim_class_pool::pool_is_cut_or_broken();
    kilim_class_attributes::attributes_are_cut_or_broken();
}
