//! A fiber over records that meets the contract of fibers: its type names the woven program.

ghost use Rattle.std.specs.Prelude.{◌≡◌, IfOk, List, Bool, []};
ghost use Rattle.kilim_program.specs.Program.{Program};
ghost use Rattle.kilim_program.specs.declared.class.Form.TheVariants.{Plain};
ghost use Rattle.kilim_fiber.specs.Fiber.{task_of, course_of, AskedOf, HoldsFiber};
ghost use Rattle.kilim_fiber.specs.named.Named.{ServesNamed};

use crate::Fiber;
use kilim_fiber_body::Code;
use kilim_program::ClassId;
use kilim_run_board::fibers::{Answer, Fibers, Wants};
use kilim_run_state::Limits;
use kilim_units::NoMemory;
use std::alloc::Global;
use std::marker::{Brand, Model, PhantomData};

/// A woven program, and which of its instructions count.
pub trait Woven {
    ghost program: { Program };

    ghost counted: { List (List Bool) };
}

impl Woven for Brand {
    ghost program = { record { classes = []; methods = []; fields = []; form = Plain } };

    ghost counted = { [] };
}

/// A fiber that runs the woven program which `K` names. Contracts see the fiber.
#[derive(Drop)]
pub struct Named<K: Woven> {
    fiber: Fiber,
    of: PhantomData<K>,
}

impl<K: Woven> Model for Named<K> {
    ghost use Rattle.kilim_fiber.specs.declared.fiber.Fiber.{Fiber};
    ghost use Rattle.kilim_fiber.specs.contracts.fiber.Fiber as kept;

    ghost Value = { Fiber };

    ghost coded = { kept.the_row.coded };

    ghost view = { λ n. n.fiber };
}

// Names the program of a fiber.
fn name_program<K: Woven>(fiber: Fiber) -> Named<K>
    ensures { result ≡ fiber }
{
    Named {
        fiber,
        of: PhantomData,
    }
}

// The same of a fiber that is wanted to start.
fn with_program<K: Woven>(wants: Wants<Fiber>) -> Wants<Named<K>>
    ensures { result ≡ wants }
{
    match wants {
        Wants::Put(mailbox, tree, shape) => Wants::Put(mailbox, tree, shape),
        Wants::PutWait(mailbox, tree, shape) => Wants::PutWait(mailbox, tree, shape),
        Wants::Bound(mailbox, most) => Wants::Bound(mailbox, most),
        Wants::Take(mailbox) => Wants::Take(mailbox),
        Wants::Probe(mailbox) => Wants::Probe(mailbox),
        Wants::Start(fiber, shape) => Wants::Start(name_program::<K>(fiber), shape),
        Wants::Print(shape) => Wants::Print(shape),
        Wants::Rest(waits) => Wants::Rest(waits),
        Wants::End(cause) => Wants::End(cause),
    }
}

impl<K: Woven> Fibers for Named<K> {
    type Code = Code;

    ghost task_of = { task_of };

    ghost course_of = { course_of };

    ghost holds = { HoldsFiber K.program K.counted };

    ghost asked = { AskedOf K.program K.counted };

    ghost serves = { ServesNamed K.program K.counted };

    ghost count_of = { λ f. f.body.count };

    ghost refused = { λ f. f.refused };

    ghost rests = { λ f. f.rests };

    fn boot(alloc: Global, code: &Code, main: ClassId) -> Result<Named<K>, NoMemory> {
        let Ok(fiber) = Fiber::boot(alloc, code, main) else {
            return Err(NoMemory);
        };
        Ok(name_program::<K>(fiber))
    }

    fn resume(&mut self, code: &Code, limits: &Limits) -> Result<Wants<Named<K>>, NoMemory> {
        let Ok(wants) = self.fiber.resume(code, limits) else {
            return Err(NoMemory);
        };
        Ok(with_program::<K>(wants))
    }

    fn answer(&mut self, code: &Code, answer: Answer) -> Result<(), NoMemory> {
        self.fiber.answer(code, answer)
    }

    fn number(&mut self, task: u32) {
        self.fiber.number(task);
    }

    fn task(&self) -> u32 {
        self.fiber.task()
    }

    fn records(&self) -> usize {
        self.fiber.records()
    }
}
