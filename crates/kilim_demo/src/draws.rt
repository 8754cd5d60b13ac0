//! What a number draws.

ghost use Rattle.std.specs.Prelude.{◌≡◌, ◌≤◌, ◌<◌, length, IfOk};
ghost use Rattle.kilim_demo.specs.Plan.{drawn, operation_of, plan_from, plan_of, seeded, stage_drawn, stages_drawn};

use kilim_units::{NoMemory, Seq};
use rand_core::SeedableRng;
use rand_core::utils::NextWord;
use rand_pcg::Pcg32;
use std::alloc::Global;

/// What a stage does to each message, which is a list of nodes.
#[derive(Clone, Copy)]
pub enum Operation {
    /// Adds the stage's number to the value of the first node.
    Adds,
    /// Puts a node with the stage's number before the list.
    Prepends,
    /// Cuts the first node off where another one follows.
    Cuts,
}

/// A stage, which takes messages from one mailbox and puts them into the next.
#[derive(Clone, Copy)]
pub struct Stage {
    pub operation: Operation,
    /// 0 to 99.
    pub number: u8,
}

/// What is made.
#[derive(Drop)]
pub struct Plan {
    /// How many messages go through all stages, 1 to 1,000.
    pub messages: u16,
    /// 1 to 15 stages, in their order.
    pub stages: Seq<Stage>,
}

#[tactic(auto, unfolding(crate::specs::Plan::seeded))]
fn seeded(number: u64) -> Pcg32
    ensures { result ≡ seeded number }
{
    Pcg32::seed_from_u64(number)
}

// The next draw.
#[tactic(auto, unfolding(crate::specs::Plan::drawn))]
fn draw(generator: &mut Pcg32) -> u32
    ensures { (result, generator.new) ≡ drawn generator.old }
{
    generator.next_word()
}

fn operation_of(draw: u32) -> Operation
    ensures { result ≡ operation_of draw }
{
    match draw {
        0 => Operation::Adds,
        1 => Operation::Prepends,
        _ => Operation::Cuts,
    }
}

fn draw_stage(generator: &mut Pcg32) -> Stage
    ensures { (result, generator.new) ≡ stage_drawn generator.old }
{
    let first = draw(generator);
    let second = draw(generator);
    let operation = operation_of(first % 3);
    let number = (second % 100) as u8;
    Stage { operation, number }
}

fn draw_stages(alloc: Global, count: u32, generator: &mut Pcg32) -> Result<Seq<Stage>, NoMemory>
    ensures { IfOk result (λ stages. stages ≡ stages_drawn count generator.old) }
{
    let mut stages = Seq::new(alloc);
    for _ in 0..count {
        let Ok(()) = stages.push(draw_stage(generator)) else {
            return Err(NoMemory);
        };
    }
    Ok(stages)
}

fn draw_plan(alloc: Global, generator: &mut Pcg32) -> Result<Plan, NoMemory>
    ensures plan { IfOk result (λ plan. plan ≡ plan_from generator.old) }
    ensures few { IfOk result (λ plan. length plan.stages ≤ 15) }
{
    let first = draw(generator);
    let second = draw(generator);
    let messages = (1 + second % 1000) as u16;
    let stages = draw_stages(alloc, 1 + first % 15, generator)?;
    Ok(Plan { messages, stages })
}

/// What a number draws: so many stages, so many messages, and for each stage an operation with a number, each a word of the
/// generator `Lcg64Xsh32` of that seed. The error is want of memory.
#[tactic(auto, unfolding(crate::specs::Plan::plan_of))]
pub fn plan_of(alloc: Global, number: u64) -> Result<Plan, NoMemory>
    ensures plan { IfOk result (λ plan. plan ≡ plan_of number) }
    ensures few { IfOk result (λ plan. length plan.stages ≤ 15) }
{
    let mut generator = seeded(number);
    draw_plan(alloc, &mut generator)
}
