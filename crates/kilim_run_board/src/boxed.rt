//! Fibers in boxes: to move one is to move a pointer.

ghost use Rattle.std.specs.Prelude.{◌≡◌, IfOk};

use crate::fibers::{Answer, Fibers, Wants};
use kilim_program::ClassId;
use kilim_run_state::Limits;
use kilim_units::NoMemory;
use std::alloc::Global;
use std::marker::Model;

/// A fiber in a box. Contracts see the fiber.
#[derive(Drop)]
pub struct Boxed<F> {
    fiber: Box<F>,
    alloc: Global,
}

impl<F> Model for Boxed<F> {
    ghost Value = { F };

    ghost coded = { F.code };

    ghost view = { λ b. b.fiber.value };
}

// Puts a fiber into a box.
fn in_box<F: Drop>(alloc: Global, fiber: F) -> Result<Boxed<F>, NoMemory>
    ensures { IfOk result (λ b. b ≡ fiber) }
{
    match Box::new(alloc, fiber) {
        Ok(fiber) => Ok(Boxed { fiber, alloc }),
        Err(_) => Err(NoMemory),
    }
}

// What is wanted, with the fiber of a start in a box.
fn wants_in_box<F: Drop>(alloc: Global, wants: Wants<F>) -> Result<Wants<Boxed<F>>, NoMemory>
    ensures { IfOk result (λ w. w ≡ wants) }
{
    match wants {
        Wants::Put(mailbox, tree, shape) => Ok(Wants::Put(mailbox, tree, shape)),
        Wants::PutWait(mailbox, tree, shape) => Ok(Wants::PutWait(mailbox, tree, shape)),
        Wants::Bound(mailbox, most) => Ok(Wants::Bound(mailbox, most)),
        Wants::Take(mailbox) => Ok(Wants::Take(mailbox)),
        Wants::Probe(mailbox) => Ok(Wants::Probe(mailbox)),
        Wants::Start(fiber, shape) => match in_box(alloc, fiber) {
            Ok(fiber) => Ok(Wants::Start(fiber, shape)),
            Err(fault) => Err(fault),
        },
        Wants::Print(shape) => Ok(Wants::Print(shape)),
        Wants::Rest(waits) => Ok(Wants::Rest(waits)),
        Wants::End(cause) => Ok(Wants::End(cause)),
    }
}

impl<F: Fibers> Fibers for Boxed<F> {
    type Code = F::Code;

    ghost task_of = { F.task_of };

    ghost course_of = { F.course_of };

    ghost holds = { F.holds };

    ghost asked = { F.asked };

    ghost serves = { F.serves };

    ghost count_of = { F.count_of };

    ghost refused = { F.refused };

    ghost rests = { F.rests };

    fn boot(alloc: Global, code: &F::Code, main: ClassId) -> Result<Boxed<F>, NoMemory> {
        match F::boot(alloc, code, main) {
            Ok(fiber) => in_box(alloc, fiber),
            Err(fault) => Err(fault),
        }
    }

    fn resume(&mut self, code: &F::Code, limits: &Limits) -> Result<Wants<Boxed<F>>, NoMemory> {
        match self.fiber.resume(code, limits) {
            Ok(wants) => wants_in_box(self.alloc, wants),
            Err(fault) => Err(fault),
        }
    }

    fn answer(&mut self, code: &F::Code, answer: Answer) -> Result<(), NoMemory> {
        self.fiber.answer(code, answer)
    }

    fn number(&mut self, task: u32) {
        self.fiber.number(task);
    }

    fn task(&self) -> u32 {
        self.fiber.task()
    }

    fn records(&self) -> usize {
        self.fiber.records()
    }
}
