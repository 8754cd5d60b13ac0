//! The program of the demo, woven, with its main class.

ghost use Rattle.std.specs.Prelude.{◌≡◌, ◌≤◌, length, IfOk};
ghost use Rattle.kilim_stages.specs.Parts.{IfReport};
ghost use Rattle.kilim_stages.specs.woven_stage.Stage.{IsWithMain, IsWovenOf};
ghost use Rattle.kilim_top.specs.demo.Demo.{demo_limits, demo_texts, main_name, IsDemoReport};
ghost use Rattle.kilim_top.specs.Inside.Answer.{IsDemoReady};

use crate::answer::{Ready, refused};
use kilim_class_file::class_file_is_spelled;
use kilim_demo::{demo_fits, make_texts, no_names};
use kilim_image_command::woven_is_served;
use kilim_program::ClassId;
use kilim_run_state::Limits;
use kilim_stages::Refusal;
use kilim_stages::woven_stage::{WovenProgram, with_main, woven_program};
use kilim_units::{NoMemory, Seq, unmet};
use std::alloc::Global;

/// How many instructions each task may do.
const STEPS: u64 = 1_000_000;

/// The name of the main class.
const MAIN: [u16; 6] = [68, 47, 77, 97, 105, 110];

// The program to which the class files with these bytes link, with its woven form, or a report.
fn woven_texts(alloc: Global, number: u64, texts: &[Seq<u8>]) -> Result<WovenProgram, Refusal>
    requires { texts.now ≡ demo_texts number }
    ensures woven { IfOk result (λ w. IsWovenOf (demo_texts number) w.plain w.woven) }
    ensures report { IfReport result (IsDemoReport number) }
{
    demo_fits();
    class_file_is_spelled();
    let _number = number;
    let Ok(names) = no_names(alloc, texts.len()) else {
        return Err(Refusal::NoMemory);
    };
    woven_program(alloc, names.as_slice(), texts)
}

// The bytes of the class files of the demo of a number, in their order.
#[tactic(auto, unfolding(crate::specs::demo::Demo::demo_texts))]
fn demo_texts(alloc: Global, number: u64) -> Result<Seq<Seq<u8>>, NoMemory>
    ensures { IfOk result (λ texts. texts ≡ demo_texts number) }
{
    make_texts(alloc, number)
}

// The program of the demo of a number, with its woven form, or a report.
fn woven_demo(alloc: Global, number: u64) -> Result<WovenProgram, Refusal>
    ensures woven { IfOk result (λ w. IsWovenOf (demo_texts number) w.plain w.woven) }
    ensures report { IfReport result (IsDemoReport number) }
{
    let Ok(texts) = demo_texts(alloc, number) else {
        return Err(Refusal::NoMemory);
    };
    woven_texts(alloc, number, texts.as_slice())
}

// The program with the main class of the demo.
fn with_demo_main(program: WovenProgram) -> Result<Option<(WovenProgram, ClassId)>, NoMemory>
    ensures { IfOk result (IsWithMain program main_name) }
{
    with_main(program, &MAIN)
}

#[tactic(auto, unfolding(crate::specs::demo::Demo::demo_limits))]
fn limits(alloc: Global) -> Limits
    ensures { result ≡ demo_limits }
{
    Limits {
        steps: STEPS,
        args: Seq::new(alloc),
    }
}

/// What is to be done for the demo of a number: its class files are made, linked, checked and woven, and their program is to be run; or the
/// report of the first stage that has a fault is to be written. A program without the main class, which no number gives, is answered as want
/// of memory.
pub fn demo_ready(alloc: Global, number: u64) -> Result<Ready, NoMemory>
    ensures { IfOk result (IsDemoReady number) }
{
    woven_is_served();
    demo_fits();
    match woven_demo(alloc, number) {
        Ok(program) => match with_demo_main(program) {
            Ok(Some((found, main))) => {
                Ok(Ready::Run(found.plain, found.woven, main, limits(alloc)))
            }
            // unmet: the first class of the demo is fit to be the main class
            Ok(None) => Err(unmet()),
            Err(_) => Err(NoMemory),
        },
        Err(refusal) => refused(alloc, refusal),
    }
}
