//! The woven class file.

ghost use Rattle.std.specs.Prelude.{◌≡◌, ◌<◌, ◌++◌, ◌∷◌, length, map, slice_get, Some, IfOk, OnOk};
ghost use Rattle.std.specs.List.{flat_map};
ghost use Rattle.kilim_class_attributes.specs.declared.attribute.Attribute.{Attribute};
ghost use Rattle.kilim_link_spec.specs.World.{member_descriptor};
ghost use Rattle.kilim_class_making.specs.declared.pool_needs.need.Need.TheVariants.{AText};
ghost use Rattle.kilim_class_making.specs.pool_needs.Adding.{with_needs};
ghost use Rattle.kilim_weave_file_spec.specs.Texts.{woven_descriptor};
ghost use Rattle.kilim_class_file.specs.Text.{ClassFits, class_text};
ghost use Rattle.kilim_weave_file_spec.specs.Sizes.{longest_text};
ghost use Rattle.kilim_weave_file_spec.specs.WovenFile.{info_needs, member_needs, pairs_of, woven_file, woven_member};
ghost use Rattle.kilim_weave_file.specs.Applied.{Applied, SizesFit};

use crate::fault::ApplyFault;
use crate::members::{member_text, rewritten};
use crate::needs::push_attributes;
use kilim_class_file::{ClassFile, MemberInfo, read, write};
use kilim_class_making::fits;
use kilim_class_making::pool_needs::{Need, with_needs};
use kilim_class_pool::Pool;
use kilim_program::{Method, Program};
use kilim_units::{NoMemory, Seq, unmet};
use kilim_weave_file_sizes::{added_entries, methods_bytes, plus, size_by};
use std::alloc::Global;
use std::mem::replace;

/// The most indices of a pool (JVMS 4.1).
const MOST_ENTRIES: u64 = 65_535;

/// The most bytes of a class file, in this profile.
const MOST_BYTES: u64 = 16_777_216;

// ---- what the file needs

fn push_pausing(
    alloc: Global,
    into: &mut Seq<Need>,
    program: &Program,
    file: &ClassFile,
    info: &MemberInfo,
    method: &Method,
    counted: &[bool],
) -> Result<(), NoMemory>
    ensures { OnOk result (into.new ≡ into.old ++ (AText (woven_descriptor (member_descriptor file.now info.now)) ∷ flat_map (λ (a : Attribute). info_needs program.now file.now.constant_pool method.now counted.now a.info) info.now.attributes)) }
{
    let Ok(text) = member_text(alloc, file, info) else {
        return Err(NoMemory);
    };
    let Ok(()) = into.push(Need::AText(text)) else {
        return Err(NoMemory);
    };
    let pool = &file.constant_pool;
    push_attributes(
        alloc,
        into,
        program,
        pool,
        method,
        counted,
        info.attributes.as_slice(),
    )
}

fn push_member(
    alloc: Global,
    into: &mut Seq<Need>,
    program: &Program,
    file: &ClassFile,
    info: &MemberInfo,
    plain: &Method,
    method: &Method,
    counted: &[bool],
) -> Result<(), NoMemory>
    ensures { OnOk result (into.new ≡ into.old ++ member_needs program.now file.now (record { info = info.now; plain = plain.now; method = method.now; counted = counted.now })) }
{
    if plain.pausable {
        let Ok(()) = push_pausing(alloc, into, program, file, info, method, counted) else {
            return Err(NoMemory);
        };
    }
    Ok(())
}

fn push_members(
    alloc: Global,
    into: &mut Seq<Need>,
    program: &Program,
    file: &ClassFile,
    plains: &[Method],
    wovens: &[Method],
    counted: &[Seq<bool>],
) -> Result<(), NoMemory>
    ensures { OnOk result (into.new ≡ into.old ++ flat_map (member_needs program.now file.now) (pairs_of file.now.methods plains.now wovens.now counted.now)) }
{
    let mut ps = plains;
    let mut ms = wovens;
    let mut cs = counted;
    for info in file.methods.as_slice() {
        let [plain, later_plains @ ..] = ps else {
            return Ok(());
        };
        let [method, later_wovens @ ..] = ms else {
            return Ok(());
        };
        let [marks, later_counted @ ..] = cs else {
            return Ok(());
        };
        ps = later_plains;
        ms = later_wovens;
        cs = later_counted;
        let Ok(()) = push_member(
            alloc,
            into,
            program,
            file,
            info,
            plain,
            method,
            marks.as_slice(),
        ) else {
            return Err(NoMemory);
        };
    }
    Ok(())
}

// ---- its methods

fn woven_member(
    alloc: Global,
    program: &Program,
    file: &ClassFile,
    pool: &Pool,
    info: MemberInfo,
    plain: &Method,
    method: &Method,
    counted: &[bool],
) -> Result<MemberInfo, NoMemory>
    ensures { IfOk result (λ i. i ≡ woven_member program.now file.now pool.now (record { info = info; plain = plain.now; method = method.now; counted = counted.now })) }
{
    if plain.pausable {
        rewritten(alloc, program, file, pool, method, counted, info)
    } else {
        Ok(info)
    }
}

fn method_get(methods: &[Method], at: usize) -> &Method
    requires { at < length methods.now }
    ensures { slice_get methods.now at ≡ Some result.now }
{
    &methods[at]
}

fn marks_get(counted: &[Seq<bool>], at: usize) -> &Seq<bool>
    requires { at < length counted.now }
    ensures { slice_get counted.now at ≡ Some result.now }
{
    &counted[at]
}

fn woven_members(
    alloc: Global,
    program: &Program,
    file: &ClassFile,
    pool: &Pool,
    infos: Seq<MemberInfo>,
    plains: &[Method],
    wovens: &[Method],
    counted: &[Seq<bool>],
) -> Result<Seq<MemberInfo>, NoMemory>
    requires plain { length infos ≡ length plains.now }
    requires woven { length infos ≡ length wovens.now }
    requires counted { length infos ≡ length counted.now }
    ensures { IfOk result (λ v. v ≡ map (woven_member program.now file.now pool.now) (pairs_of infos plains.now wovens.now counted.now)) }
{
    let mut all = Seq::new(alloc);
    let mut at = 0;
    for info in infos.into_vec() {
        let plain = method_get(plains, at);
        let method = method_get(wovens, at);
        let marks = marks_get(counted, at);
        let Ok(member) = woven_member(
            alloc,
            program,
            file,
            pool,
            info,
            plain,
            method,
            marks.as_slice(),
        ) else {
            return Err(NoMemory);
        };
        let Ok(()) = all.push(member) else {
            return Err(NoMemory);
        };
        at += 1;
    }
    Ok(all)
}

// ---- the file

// The file again, by its text.
fn copy(alloc: Global, file: &ClassFile, text: Vec<u8>) -> Result<ClassFile, NoMemory>
    requires fits { ClassFits file.now }
    requires text { text.items ≡ class_text file.now }
    ensures { IfOk result (λ f. f ≡ file.now) }
{
    let again = read(alloc, text.as_slice());
    drop(text);
    match again {
        Ok(found) => Ok(found),
        Err(_) => Err(NoMemory),
    }
}

// Adds what the methods of a file need to a pool.
fn push_needs(
    alloc: Global,
    program: &Program,
    file: &ClassFile,
    pool: &mut Pool,
    plains: &[Method],
    wovens: &[Method],
    counted: &[Seq<bool>],
) -> Result<(), NoMemory>
    ensures { OnOk result (pool.new ≡ with_needs pool.old (flat_map (member_needs program.now file.now) (pairs_of file.now.methods plains.now wovens.now counted.now))) }
{
    let mut needs = Seq::new(alloc);
    let Ok(()) = push_members(alloc, &mut needs, program, file, plains, wovens, counted) else {
        return Err(NoMemory);
    };
    with_needs(pool, needs.as_slice())
}

// Weaves the methods of a copy whose pool has what they need.
fn weave_methods(
    alloc: Global,
    program: &Program,
    file: &ClassFile,
    made: &mut ClassFile,
    plains: &[Method],
    wovens: &[Method],
    counted: &[Seq<bool>],
) -> Result<(), NoMemory>
    requires plain { length made.old.methods ≡ length plains.now }
    requires woven { length made.old.methods ≡ length wovens.now }
    requires counted { length made.old.methods ≡ length counted.now }
    ensures { OnOk result (made.new ≡ record made.old { methods = map (woven_member program.now file.now made.old.constant_pool) (pairs_of made.old.methods plains.now wovens.now counted.now) }) }
{
    let infos = replace(&mut made.methods, Seq::new(alloc));
    let pool = &made.constant_pool;
    let Ok(methods) = woven_members(alloc, program, file, pool, infos, plains, wovens, counted)
    else {
        return Err(NoMemory);
    };
    made.methods = methods;
    Ok(())
}

// Weaves a copy of the file.
fn weave(
    alloc: Global,
    program: &Program,
    file: &ClassFile,
    made: &mut ClassFile,
    plains: &[Method],
    wovens: &[Method],
    counted: &[Seq<bool>],
) -> Result<(), NoMemory>
    requires same { made.old ≡ file.now }
    requires plain { length file.now.methods ≡ length plains.now }
    requires woven { length file.now.methods ≡ length wovens.now }
    requires counted { length file.now.methods ≡ length counted.now }
    ensures { OnOk result (made.new ≡ woven_file program.now file.now (pairs_of file.now.methods plains.now wovens.now counted.now)) }
{
    let pool = &mut made.constant_pool;
    let Ok(()) = push_needs(alloc, program, file, pool, plains, wovens, counted) else {
        return Err(NoMemory);
    };
    let Ok(()) = weave_methods(alloc, program, file, made, plains, wovens, counted) else {
        return Err(NoMemory);
    };
    Ok(())
}

fn woven_file(
    alloc: Global,
    program: &Program,
    file: &ClassFile,
    copy: ClassFile,
    plains: &[Method],
    wovens: &[Method],
    counted: &[Seq<bool>],
) -> Result<ClassFile, NoMemory>
    requires same { copy ≡ file.now }
    requires plain { length file.now.methods ≡ length plains.now }
    requires woven { length file.now.methods ≡ length wovens.now }
    requires counted { length file.now.methods ≡ length counted.now }
    ensures { IfOk result (λ f. f ≡ woven_file program.now file.now (pairs_of file.now.methods plains.now wovens.now counted.now)) }
{
    let mut made = copy;
    match weave(alloc, program, file, &mut made, plains, wovens, counted) {
        Ok(()) => Ok(made),
        Err(fault) => {
            drop(made);
            Err(fault)
        }
    }
}

// The file, where it has a text. Each woven file within the bounds has one, where no method has too many arguments or too long a
// descriptor; another one is answered as want of memory.
fn fitting(alloc: Global, file: ClassFile) -> Result<ClassFile, NoMemory>
    ensures same { IfOk result (λ f. f ≡ file) }
    ensures fits { IfOk result ClassFits }
{
    match fits(alloc, &file) {
        Ok(true) => Ok(file),
        _ => {
            drop(file);
            // unmet: a woven file within its bounds has a text
            Err(unmet())
        }
    }
}

// The woven file, where it has a text, of a file with this text.
fn made(
    alloc: Global,
    program: &Program,
    file: &ClassFile,
    text: Vec<u8>,
    plains: &[Method],
    wovens: &[Method],
    counted: &[Seq<bool>],
) -> Result<ClassFile, NoMemory>
    requires fits { ClassFits file.now }
    requires text { text.items ≡ class_text file.now }
    requires plain { length file.now.methods ≡ length plains.now }
    requires woven { length file.now.methods ≡ length wovens.now }
    requires counted { length file.now.methods ≡ length counted.now }
    ensures made { IfOk result (λ f. f ≡ woven_file program.now file.now (pairs_of file.now.methods plains.now wovens.now counted.now)) }
    ensures fits { IfOk result ClassFits }
{
    let Ok(again) = copy(alloc, file, text) else {
        return Err(NoMemory);
    };
    let Ok(woven) = woven_file(alloc, program, file, again, plains, wovens, counted) else {
        return Err(NoMemory);
    };
    fitting(alloc, woven)
}

// Whether pool and text stay within their bounds, by the bound on each.
fn sizes_fit(
    program: &Program,
    file: &ClassFile,
    old: usize,
    longest: usize,
    plains: &[Method],
    wovens: &[Method],
    counted: &[Seq<bool>],
) -> Result<(), ApplyFault>
    requires old { old ≡ length (class_text file.now) }
    requires longest { longest ≡ longest_text program.now }
    ensures { SizesFit program.now file.now (pairs_of file.now.methods plains.now wovens.now counted.now) result }
{
    let infos = file.methods.as_slice();
    let Ok(added) = added_entries(program, infos, plains, wovens, counted) else {
        return Err(ApplyFault::Memory);
    };
    let Ok(sum) = plus(u64::from(file.constant_pool.count()), added) else {
        return Err(ApplyFault::Memory);
    };
    if sum > MOST_ENTRIES {
        return Err(ApplyFault::PoolFull(sum));
    }
    let Ok(methods) = methods_bytes(program, infos, plains, wovens, counted) else {
        return Err(ApplyFault::Memory);
    };
    let Ok(size) = size_by(old, added, longest, methods) else {
        return Err(ApplyFault::Memory);
    };
    if size > MOST_BYTES {
        return Err(ApplyFault::FileTooLarge(size));
    }
    Ok(())
}

/// The woven file of a class file (own): entries are added behind those of its pool, in the order of first need in the new text;
/// methods that pause are written anew, and all else stays.
///
/// It takes the plain program in which the file is a class, with the greatest length in bytes of its names and descriptors
/// (`longest_text`), and the woven one; of both programs the methods of the class, as many as the file has; and which of the
/// woven instructions count.
///
/// `PoolFull` comes exactly where the count of indices that the pool may reach is above 65,535; else `FileTooLarge` exactly where
/// the length that the text may reach is above 16,777,216. A woven file that had no text, since a descriptor got too long or a count of
/// parameters too high for its field, is answered as want of memory. Time is linear in the product of what is written and the pool's entries.
pub fn apply(
    alloc: Global,
    file: &ClassFile,
    plain: &Program,
    woven: &Program,
    longest: usize,
    plains: &[Method],
    wovens: &[Method],
    counted: &[Seq<bool>],
) -> Result<ClassFile, ApplyFault>
    requires fits { ClassFits file.now }
    requires longest { longest ≡ longest_text plain.now }
    requires plain { length file.now.methods ≡ length plains.now }
    requires woven { length file.now.methods ≡ length wovens.now }
    requires counted { length file.now.methods ≡ length counted.now }
    ensures applied { Applied plain.now woven.now file.now (pairs_of file.now.methods plains.now wovens.now counted.now) result }
    // It has a text: it can be written, and is read again.
    ensures fits { IfOk result ClassFits }
{
    let Ok(text) = write(alloc, file) else {
        return Err(ApplyFault::Memory);
    };
    match sizes_fit(plain, file, text.len(), longest, plains, wovens, counted) {
        Ok(()) => match made(alloc, woven, file, text, plains, wovens, counted) {
            Ok(made) => Ok(made),
            Err(_) => Err(ApplyFault::Memory),
        },
        Err(fault) => {
            drop(text);
            Err(fault)
        }
    }
}
