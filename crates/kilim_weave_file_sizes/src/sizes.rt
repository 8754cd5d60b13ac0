//! How large a woven class file may become.

ghost use Rattle.std.specs.Prelude.{◌≡◌, ◌+◌, ◌*◌, ◌≤◌, length, sum_by, IfOk};
ghost use Rattle.kilim_program.specs.Names.{descriptor};
ghost use Rattle.kilim_link_spec.specs.World.{method_descriptor};
ghost use Rattle.kilim_weave_spec.specs.Weight.{calls_in, switch_bytes, switches_bytes, weight};
ghost use Rattle.kilim_weave_file_spec.specs.Sizes.{added_entries, class_longest, entries_at_call, entry_bytes, field_longest, frame_bytes, frames_number, larger, longest_text, method_bytes, method_entries, method_longest, spelled_length};
ghost use Rattle.kilim_weave_file_sizes.specs.Parts.{bytes_of, measured, product};
ghost use Rattle.kilim_weave_file_spec.specs.WovenFile.{MethodPair, pairs_of};

use crate::{is_pausable_call, type_descriptor};
use kilim_class_file::MemberInfo;
use kilim_class_mutf8::write;
use kilim_program::{Class, Field, Instr, Method, Program};
use kilim_reports::method_descriptor;
use kilim_units::{NoMemory, Seq, Units, no_room};
use std::alloc::Global;

// A sum that is no u64, which no program has, would be answered as want of memory.
pub fn plus(a: u64, b: u64) -> Result<u64, NoMemory>
    ensures { IfOk result (λ n. n ≡ a + b) }
{
    match a.checked_add(b) {
        Some(n) => Ok(n),
        // room: a size of 2^64
        None => Err(no_room()),
    }
}

fn times(a: u64, b: u64) -> Result<u64, NoMemory>
    ensures { IfOk result (λ n. n ≡ a * b) }
{
    match a.checked_mul(b) {
        Some(n) => Ok(n),
        // room: a size of 2^64
        None => Err(no_room()),
    }
}

fn sum_of(products: &[(u64, u64)]) -> Result<u64, NoMemory>
    ensures { IfOk result (λ n. n ≡ sum_by product products.now) }
{
    let mut sum = 0;
    for factors in products {
        let Ok(product) = times(factors.0, factors.1) else {
            return Err(NoMemory);
        };
        let Ok(more) = plus(sum, product) else {
            return Err(NoMemory);
        };
        sum = more;
    }
    Ok(sum)
}

// ---- entries

fn calls_in(program: &Program, code: &[(u32, Instr)]) -> usize
    ensures calls { result ≡ calls_in program.now code.now }
    ensures few { result ≤ length code.now }
{
    let mut count = 0;
    for entry in code {
        if is_pausable_call(program, &entry.1) {
            count += 1;
        }
    }
    count
}

fn entries_at_call(method: &Method) -> u64
    ensures { result ≡ entries_at_call method.now }
{
    8 + 2 * (u64::from(method.max_locals) + u64::from(method.max_stack))
}

fn method_entries(program: &Program, method: &Method) -> Result<u64, NoMemory>
    ensures { IfOk result (λ n. n ≡ method_entries program.now method.now) }
{
    if !method.pausable {
        return Ok(0);
    }
    let calls = plus(calls_in(program, method.code.as_slice()) as u64, 1)?;
    times(entries_at_call(method), calls)
}

// ---- bytes

fn spelled_length(alloc: Global, units: &Units) -> Result<usize, NoMemory>
    ensures { IfOk result (λ n. n ≡ spelled_length units.now) }
{
    let mut bytes = Vec::new(alloc);
    write(units, &mut bytes)?;
    Ok(bytes.len())
}

fn larger(a: usize, b: usize) -> usize
    ensures { result ≡ larger a b }
{
    if a < b { b } else { a }
}

fn class_longest(alloc: Global, classes: &[Class], least: usize) -> Result<usize, NoMemory>
    ensures { IfOk result (λ n. n ≡ class_longest classes.now least) }
{
    let mut longest = least;
    for class in classes {
        let Ok(length) = spelled_length(alloc, &class.name) else {
            return Err(NoMemory);
        };
        longest = larger(longest, length);
    }
    Ok(longest)
}

fn method_length(
    alloc: Global,
    program: &Program,
    method: &Method,
    least: usize,
) -> Result<usize, NoMemory>
    ensures { IfOk result (λ n. n ≡ larger (larger least (spelled_length method.now.name)) (spelled_length (method_descriptor program.now method.now))) }
{
    let Ok(name) = spelled_length(alloc, &method.name) else {
        return Err(NoMemory);
    };
    let Ok(text) = method_descriptor(alloc, program, method) else {
        return Err(NoMemory);
    };
    let Ok(length) = spelled_length(alloc, &text) else {
        return Err(NoMemory);
    };
    Ok(larger(larger(least, name), length))
}

fn method_longest(
    alloc: Global,
    program: &Program,
    methods: &[Method],
    least: usize,
) -> Result<usize, NoMemory>
    ensures { IfOk result (λ n. n ≡ method_longest program.now methods.now least) }
{
    let mut longest = least;
    for method in methods {
        let Ok(length) = method_length(alloc, program, method, longest) else {
            return Err(NoMemory);
        };
        longest = length;
    }
    Ok(longest)
}

fn field_length(
    alloc: Global,
    program: &Program,
    field: &Field,
    least: usize,
) -> Result<usize, NoMemory>
    ensures { IfOk result (λ n. n ≡ larger (larger least (spelled_length field.now.name)) (spelled_length (descriptor program.now field.now.ty))) }
{
    let Ok(name) = spelled_length(alloc, &field.name) else {
        return Err(NoMemory);
    };
    let Ok(text) = type_descriptor(alloc, program, field.ty) else {
        return Err(NoMemory);
    };
    let Ok(length) = spelled_length(alloc, &text) else {
        return Err(NoMemory);
    };
    Ok(larger(larger(least, name), length))
}

fn field_longest(
    alloc: Global,
    program: &Program,
    fields: &[Field],
    least: usize,
) -> Result<usize, NoMemory>
    ensures { IfOk result (λ n. n ≡ field_longest program.now fields.now least) }
{
    let mut longest = least;
    for field in fields {
        let Ok(length) = field_length(alloc, program, field, longest) else {
            return Err(NoMemory);
        };
        longest = length;
    }
    Ok(longest)
}

/// The greatest length in bytes of a class name, a member's name or a descriptor of a program, in modified UTF-8 (JVMS 4.4.7).
#[tactic(auto, unfolding(kilim_weave_file_spec::specs::Sizes::longest_text))]
pub fn longest_text(alloc: Global, program: &Program) -> Result<usize, NoMemory>
    ensures { IfOk result (λ n. n ≡ longest_text program.now) }
{
    let Ok(classes) = class_longest(alloc, program.classes.as_slice(), 0) else {
        return Err(NoMemory);
    };
    let Ok(methods) = method_longest(alloc, program, program.methods.as_slice(), classes) else {
        return Err(NoMemory);
    };
    field_longest(alloc, program, program.fields.as_slice(), methods)
}

fn switch_bytes(instr: &Instr) -> u64
    ensures { result ≡ switch_bytes instr.now }
{
    match instr {
        Instr::Tableswitch(_, _, _) | Instr::Lookupswitch(_, _) => 3,
        _ => 0,
    }
}

fn switches_bytes(code: &[(u32, Instr)]) -> Result<u64, NoMemory>
    ensures { IfOk result (λ n. n ≡ switches_bytes code.now) }
{
    let mut sum = 0;
    for entry in code {
        let Ok(more) = plus(sum, switch_bytes(&entry.1)) else {
            return Err(NoMemory);
        };
        sum = more;
    }
    Ok(sum)
}

// The greatest length of a method's woven code.
fn weight(program: &Program, method: &Method, calls: u64) -> Result<u64, NoMemory>
    requires { calls ≡ calls_in program.now method.now.code }
    ensures { IfOk result (λ n. n ≡ weight program.now method.now) }
{
    let words = u64::from(method.max_locals) + u64::from(method.max_stack);
    let length = u64::from(method.code_length);
    let switches = switches_bytes(method.code.as_slice())?;
    sum_of(&[
        (length, 1),
        (64, 1),
        (switches, 1),
        (calls, 56 + 28 * words),
    ])
}

fn frame_bytes(method: &Method) -> u64
    ensures { result ≡ frame_bytes method.now }
{
    28 + 3 * (u64::from(method.max_locals) + u64::from(method.max_stack))
}

fn frames_number(program: &Program, method: &Method, calls: u64) -> Result<u64, NoMemory>
    requires { calls ≡ calls_in program.now method.now.code }
    ensures { IfOk result (λ n. n ≡ frames_number program.now method.now) }
{
    sum_of(&[(method.frames.len() as u64, 1), (4, calls), (1, 1)])
}

// The bytes of a method that pauses, beside its own.
fn pausing_bytes(program: &Program, info: &MemberInfo, method: &Method) -> Result<u64, NoMemory>
    ensures { IfOk result (λ n. n ≡ weight program.now method.now + (64 + (8 * calls_in program.now method.now.code + (frames_number program.now method.now * frame_bytes method.now + 2 * length info.now.attributes)))) }
{
    let calls = calls_in(program, method.code.as_slice()) as u64;
    let Ok(number) = frames_number(program, method, calls) else {
        return Err(NoMemory);
    };
    let Ok(weight) = weight(program, method, calls) else {
        return Err(NoMemory);
    };
    let attributes = info.attributes.len() as u64;
    sum_of(&[
        (weight, 1),
        (64, 1),
        (8, calls),
        (number, frame_bytes(method)),
        (2, attributes),
    ])
}

fn method_bytes(program: &Program, info: &MemberInfo, method: &Method) -> Result<u64, NoMemory>
    ensures { IfOk result (λ n. n ≡ bytes_of program.now info.now method.now) }
{
    if method.pausable {
        pausing_bytes(program, info, method)
    } else {
        Ok(0)
    }
}

// ---- over the methods of a file

// What is summed over methods.
enum Measure {
    // The entries that a method may need more.
    Entries,
    // The bytes that it may become longer by.
    Bytes,
}

fn measured(
    program: &Program,
    info: &MemberInfo,
    method: &Method,
    measure: &Measure,
) -> Result<u64, NoMemory>
    ensures { IfOk result (λ n. n ≡ measured measure.now program.now info.now method.now) }
{
    match measure {
        Measure::Entries => method_entries(program, method),
        Measure::Bytes => method_bytes(program, info, method),
    }
}

fn sum_over(
    program: &Program,
    infos: &[MemberInfo],
    plains: &[Method],
    wovens: &[Method],
    counted: &[Seq<bool>],
    measure: &Measure,
) -> Result<u64, NoMemory>
    ensures { IfOk result (λ n. n ≡ sum_by (λ (x : MethodPair). measured measure.now program.now x.info x.plain) (pairs_of infos.now plains.now wovens.now counted.now)) }
{
    let mut sum = 0;
    let mut ps = plains;
    let mut ms = wovens;
    let mut cs = counted;
    for info in infos {
        let [plain, later_plains @ ..] = ps else {
            return Ok(sum);
        };
        let [_, later_wovens @ ..] = ms else {
            return Ok(sum);
        };
        let [_, later_counted @ ..] = cs else {
            return Ok(sum);
        };
        ps = later_plains;
        ms = later_wovens;
        cs = later_counted;
        let Ok(size) = measured(program, info, plain, measure) else {
            return Err(NoMemory);
        };
        let Ok(more) = plus(sum, size) else {
            return Err(NoMemory);
        };
        sum = more;
    }
    Ok(sum)
}

/// What the entries may be that weaving adds to a file's pool.
pub fn added_entries(
    program: &Program,
    infos: &[MemberInfo],
    plains: &[Method],
    wovens: &[Method],
    counted: &[Seq<bool>],
) -> Result<u64, NoMemory>
    ensures { IfOk result (λ n. n ≡ added_entries program.now (pairs_of infos.now plains.now wovens.now counted.now)) }
{
    let methods = sum_over(program, infos, plains, wovens, counted, &Measure::Entries)?;
    plus(64, methods)
}

/// The sum of `method_bytes` over the methods of a file.
pub fn methods_bytes(
    program: &Program,
    infos: &[MemberInfo],
    plains: &[Method],
    wovens: &[Method],
    counted: &[Seq<bool>],
) -> Result<u64, NoMemory>
    ensures { IfOk result (λ n. n ≡ sum_by (method_bytes program.now) (pairs_of infos.now plains.now wovens.now counted.now)) }
{
    sum_over(program, infos, plains, wovens, counted, &Measure::Bytes)
}

/// The length that a woven file may reach, by that of the file, what its pool may take more, and the longest text.
pub fn size_by(old: usize, added: u64, longest: usize, methods: u64) -> Result<u64, NoMemory>
    ensures { IfOk result (λ n. n ≡ old + (added * entry_bytes longest + methods)) }
{
    sum_of(&[
        (old as u64, 1),
        (added, longest as u64),
        (added, 280),
        (methods, 1),
    ])
}
