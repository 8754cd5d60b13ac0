//! The class files of a program are woven, one after the other.

ghost use Rattle.std.specs.Prelude.{◌≡◌, ◌≤◌, length, take, drop, [], None, IfOk, OnOk};
ghost use Rattle.std.specs.List.{AllByRecursion};
ghost use Rattle.kilim_class_file.specs.Text.{ClassFits};
ghost use Rattle.kilim_stages.specs.Parts.{IfReport};
ghost use Rattle.kilim_weave_file_spec.specs.Sizes.{longest_text};
ghost use Rattle.kilim_weave_file_spec.specs.WovenFile.{pairs_of, woven_file};
ghost use Rattle.kilim_weave_file_command.specs.woven_files.Parts.{HasEach, IsRefusedFor, IsSizeReportIn};
ghost use Rattle.kilim_weave_file_command.specs.woven_files.Sizes.{first_size_fault, size_fault};
ghost use Rattle.kilim_weave_file_command.specs.woven_files.WovenFiles.{woven_of};

use crate::woven_files::places::{class_at, file_at};
use crate::woven_files::refusals::size_refusal;
use kilim_class_file::ClassFile;
use kilim_program::{Class, Method, Program};
use kilim_stages::Refusal;
use kilim_units::Seq;
use kilim_weave::Woven;
use kilim_weave_file::{apply, longest_text};
use std::alloc::Global;

// One class file, with its class and the methods of that class.
fn woven_one(
    alloc: Global,
    file: &ClassFile,
    class: &Class,
    program: &Program,
    woven: &Program,
    longest: usize,
    plains: &[Method],
    wovens: &[Method],
    counted: &[Seq<bool>],
) -> Result<ClassFile, Refusal>
    requires fits { ClassFits file.now }
    requires longest { longest ≡ longest_text program.now }
    requires plain { length file.now.methods ≡ length plains.now }
    requires woven { length file.now.methods ≡ length wovens.now }
    requires counted { length file.now.methods ≡ length counted.now }
    ensures made { IfOk result (λ made. made ≡ woven_file woven.now file.now (pairs_of file.now.methods plains.now wovens.now counted.now)) }
    ensures fits { IfOk result ClassFits }
    ensures none { IfOk result (λ made. size_fault program.now file.now plains.now ≡ None) }
    ensures report { IfReport result (IsRefusedFor program.now file.now class.now.name plains.now) }
{
    match apply(
        alloc, file, program, woven, longest, plains, wovens, counted,
    ) {
        Ok(made) => Ok(made),
        Err(fault) => Err(size_refusal(alloc, &class.name, fault)),
    }
}

fn front<T>(all: &[T], count: usize) -> &[T]
    requires { count ≤ length all.now }
    ensures { result.now ≡ take count all.now }
{
    &all[..count]
}

fn behind<T>(all: &[T], count: usize) -> &[T]
    requires { count ≤ length all.now }
    ensures { result.now ≡ drop count all.now }
{
    &all[count..]
}

// One class file, with its class and the methods that are left.
fn woven_next(
    alloc: Global,
    file: &ClassFile,
    class: &Class,
    program: &Program,
    woven: &Program,
    longest: usize,
    plains: &[Method],
    wovens: &[Method],
    counted: &[Seq<bool>],
) -> Result<ClassFile, Refusal>
    requires fits { ClassFits file.now }
    requires longest { longest ≡ longest_text program.now }
    requires plain { length file.now.methods ≤ length plains.now }
    requires woven { length file.now.methods ≤ length wovens.now }
    requires counted { length file.now.methods ≤ length counted.now }
    ensures made { IfOk result (λ made. made ≡ woven_file woven.now file.now (pairs_of file.now.methods plains.now wovens.now counted.now)) }
    ensures fits { IfOk result ClassFits }
    ensures none { IfOk result (λ made. size_fault program.now file.now plains.now ≡ None) }
    ensures report { IfReport result (IsRefusedFor program.now file.now class.now.name plains.now) }
{
    let count = file.methods.len();
    let own_plains = front(plains, count);
    let own_wovens = front(wovens, count);
    let own_counted = front(counted, count);
    woven_one(
        alloc,
        file,
        class,
        program,
        woven,
        longest,
        own_plains,
        own_wovens,
        own_counted,
    )
}

// The woven class files, one after the other, into a list without any.
fn push_applied(
    alloc: Global,
    into: &mut Seq<ClassFile>,
    files: &[ClassFile],
    program: &Program,
    woven: &Woven,
    longest: usize,
) -> Result<(), Refusal>
    requires none { into.old ≡ [] }
    requires fit { AllByRecursion ClassFits files.now }
    requires each { HasEach program.now woven.now files.now }
    requires longest { longest ≡ longest_text program.now }
    ensures made { OnOk result (into.new ≡ woven_of program.now woven.now files.now) }
    ensures fit { OnOk result (AllByRecursion ClassFits into.new) }
    ensures none { OnOk result (first_size_fault program.now files.now ≡ None) }
    ensures report { IfReport result (IsSizeReportIn program.now files.now) }
{
    let mut ps = program.methods.as_slice();
    let mut ms = woven.program.methods.as_slice();
    let mut cs = woven.counted.as_slice();
    for at in 0..files.len() {
        let file = file_at(files, at);
        let class = class_at(program, at);
        let next = woven_next(
            alloc,
            file,
            class,
            program,
            &woven.program,
            longest,
            ps,
            ms,
            cs,
        );
        match next {
            Ok(one) => match into.push(one) {
                Ok(()) => {}
                Err(_) => return Err(Refusal::NoMemory),
            },
            Err(refusal) => return Err(refusal),
        }
        let count = file.methods.len();
        ps = behind(ps, count);
        ms = behind(ms, count);
        cs = behind(cs, count);
    }
    Ok(())
}

/// The woven class files, or the report of the first that may get too large.
pub fn applied(
    alloc: Global,
    files: &[ClassFile],
    program: &Program,
    woven: &Woven,
) -> Result<Seq<ClassFile>, Refusal>
    requires fit { AllByRecursion ClassFits files.now }
    requires each { HasEach program.now woven.now files.now }
    ensures made { IfOk result (λ made. made ≡ woven_of program.now woven.now files.now) }
    ensures fit { IfOk result (λ made. AllByRecursion ClassFits made) }
    ensures none { IfOk result (λ made. first_size_fault program.now files.now ≡ None) }
    ensures report { IfReport result (IsSizeReportIn program.now files.now) }
{
    let Ok(longest) = longest_text(alloc, program) else {
        return Err(Refusal::NoMemory);
    };
    let mut made = Seq::new(alloc);
    match push_applied(alloc, &mut made, files, program, woven, longest) {
        Ok(()) => Ok(made),
        Err(refusal) => Err(refusal),
    }
}
