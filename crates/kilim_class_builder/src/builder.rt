//! The builder.

ghost use Rattle.std.specs.Prelude.{◌≡◌, ◌↔◌, Err, Ok, IfOk, OnErr};
ghost use Rattle.kilim_class_file.specs.declared.class_file.ClassFile.{ClassFile};
ghost use Rattle.kilim_class_file.specs.Text.{ClassFits};
ghost use Rattle.kilim_class_pool.specs.Adding.{Adds, IsFull};
ghost use Rattle.kilim_class_pool.specs.declared.fault.AddFault.TheVariants as add;
ghost use Rattle.kilim_class_grammar.specs.Reader.{ReadsUnless};
ghost use Rattle.kilim_class_builder.specs.Adding.{class_added};
ghost use Rattle.kilim_class_builder.specs.Building.{Makes, begun, with_field, with_message, with_method};
ghost use Rattle.kilim_class_builder.specs.Members.{utf16_of};

use crate::adding::{add_ascii_class, add_class, one};
use crate::methods::{field, method};
use crate::names::utf16_of;
use crate::source::MethodSource;
use kilim_class_file::ClassFile;
use kilim_class_making::fits;
use kilim_class_pool::{AddFault, Entry, Pool};
use kilim_units::{NoMemory, Seq};
use std::alloc::Global;
use std::marker::Model;

/// ACC_SUPER (JVMS 4.1).
const SUPER: u16 = 0x20;

/// A class file that is built. Contracts see the file that the calls have made so far.
#[derive(Drop)]
pub struct ClassBuilder {
    file: ClassFile,
}

impl Model for ClassBuilder {
    ghost Value = { ClassFile };

    ghost view = { λ b. b.file };
}

// The index of the class of a name.
fn class_of(alloc: Global, pool: &mut Pool, name: &str) -> Result<u16, AddFault>
    ensures { ReadsUnless add.Memory (λ index. (index, pool.new)) result (class_added (utf16_of name.now) pool.old) }
{
    let units = utf16_of(alloc, name)?;
    add_class(pool, units)
}

// A file of version 52.0 without members.
#[tactic(auto, unfolding(crate::specs::Building::begun))]
fn begun(alloc: Global, name: &str, superclass: &str) -> Result<ClassFile, AddFault>
    ensures { ReadsUnless add.Memory (λ file. file) result (begun (utf16_of name.now) (utf16_of superclass.now)) }
{
    let mut pool = Pool::new(alloc);
    let this_class = class_of(alloc, &mut pool, name)?;
    let super_class = class_of(alloc, &mut pool, superclass)?;
    Ok(ClassFile {
        minor_version: 0,
        major_version: 52,
        constant_pool: pool,
        access_flags: SUPER,
        this_class,
        super_class,
        interfaces: Seq::new(alloc),
        fields: Seq::new(alloc),
        methods: Seq::new(alloc),
        attributes: Seq::new(alloc),
    })
}

#[tactic(auto, unfolding(crate::specs::Building::with_message))]
fn add_message(alloc: Global, file: &mut ClassFile) -> Result<(), AddFault>
    ensures made { Makes result file.new (with_message file.old) }
    ensures kept { OnErr result (file.new ≡ record file.old { constant_pool = file.new.constant_pool }) }
{
    let class = add_ascii_class(alloc, &mut file.constant_pool, b"kilim/Message")?;
    let interfaces = one(alloc, class)?;
    file.interfaces = interfaces;
    Ok(())
}

#[tactic(auto, unfolding(crate::specs::Building::with_field))]
fn add_field(
    alloc: Global,
    file: &mut ClassFile,
    name: &str,
    descriptor: &str,
) -> Result<(), AddFault>
    ensures made { Makes result file.new (with_field (utf16_of name.now) (utf16_of descriptor.now) file.old) }
    ensures kept { OnErr result (file.new ≡ record file.old { constant_pool = file.new.constant_pool }) }
{
    let found = field(alloc, &mut file.constant_pool, name, descriptor)?;
    file.fields.push(found)?;
    Ok(())
}

#[tactic(auto, unfolding(crate::specs::Building::with_method))]
fn add_method(alloc: Global, file: &mut ClassFile, source: MethodSource) -> Result<(), AddFault>
    ensures made { Makes result file.new (with_method source file.old) }
    ensures kept { OnErr result (file.new ≡ record file.old { constant_pool = file.new.constant_pool }) }
{
    let found = method(alloc, &mut file.constant_pool, source)?;
    file.methods.push(found)?;
    Ok(())
}

impl ClassBuilder {
    /// A class of this name with this superclass, which isn't private, final or abstract, and has no members. Names are in internal
    /// form, as `java/lang/Object`.
    pub fn new(alloc: Global, name: &str, superclass: &str) -> Result<ClassBuilder, NoMemory>
        ensures { IfOk result (λ file. begun (utf16_of name.now) (utf16_of superclass.now) ≡ Ok file) }
    {
        match begun(alloc, name, superclass) {
            Ok(file) => Ok(ClassBuilder { file }),
            Err(_) => Err(NoMemory),
        }
    }

    /// Makes the class implement `kilim/Message`.
    ///
    /// `Full` comes exactly where an entry that is needed isn't there and the count of indices would pass 65,535; so it does in
    /// `field` and `method`. After a fault the pool may have further entries, and all else stays.
    pub fn message(&mut self, alloc: Global) -> Result<(), AddFault>
        ensures made { Makes result self.new (with_message self.old) }
        ensures kept { OnErr result (self.new ≡ record self.old { constant_pool = self.new.constant_pool }) }
    {
        add_message(alloc, &mut self.file)
    }

    /// Adds a field that is neither private nor static.
    pub fn field(&mut self, alloc: Global, name: &str, descriptor: &str) -> Result<(), AddFault>
        ensures made { Makes result self.new (with_field (utf16_of name.now) (utf16_of descriptor.now) self.old) }
        ensures kept { OnErr result (self.new ≡ record self.old { constant_pool = self.new.constant_pool }) }
    {
        add_field(alloc, &mut self.file, name, descriptor)
    }

    /// Adds a method. One that can't have a text (an instruction whose operand has no room, code of more than 65,535 bytes, more than 255
    /// parameters with qualifiers, a place above 65,535) is answered as want of memory.
    pub fn method(&mut self, alloc: Global, source: MethodSource) -> Result<(), AddFault>
        ensures made { Makes result self.new (with_method source self.old) }
        ensures kept { OnErr result (self.new ≡ record self.old { constant_pool = self.new.constant_pool }) }
    {
        add_method(alloc, &mut self.file, source)
    }

    /// The index of an entry of the pool: see `Pool::add`.
    pub fn constant(&mut self, entry: Entry) -> Result<u16, AddFault>
        ensures added { IfOk result (λ index. Adds self.old.constant_pool entry self.new.constant_pool index) }
        ensures full { (result ≡ Err add.Full) ↔ IsFull self.old.constant_pool entry }
        ensures err { OnErr result (self.new ≡ self.old) }
        ensures kept { self.new ≡ record self.old { constant_pool = self.new.constant_pool } }
    {
        self.file.constant_pool.add(entry)
    }

    /// The file that the calls made. It has a text, so it can be written and is read again.
    ///
    /// A file without a text, as one with a name of more than 65,535 bytes, is answered as want of memory.
    pub fn finish(self, alloc: Global) -> Result<ClassFile, NoMemory>
        ensures built { IfOk result (λ file. file ≡ self) }
        ensures fits { IfOk result ClassFits }
    {
        let file = self.file;
        match fits(alloc, &file) {
            Ok(true) => Ok(file),
            _ => {
                drop(file);
                Err(NoMemory)
            }
        }
    }
}
