//! A fiber.

ghost use Rattle.std.specs.Prelude.{◌≡◌, ◌<◌, ◌≤◌, ◌+◌, ◌^◌, true, false, Some, None, ℕ, IfOk, OnOk};
ghost use Rattle.kilim_program.specs.declared.value.Value.TheVariants as a_value;
ghost use Rattle.kilim_run_model.specs.State.{Setting};
ghost use Rattle.std.specs.Prelude.{List, [], Option};
ghost use Rattle.kilim_run_model.specs.declared.deed.Beginning.TheVariants.{Boot};
ghost use Rattle.kilim_run_model.specs.declared.deed.Deed.{Deed};
ghost use Rattle.kilim_run_board.specs.fibers.Fibers.{Asks, CanAnswer, CanRun, Fits, IsNewCourse, StandsFor};
ghost use Rattle.kilim_fiber_laws.specs.woven_kin.Nexts.{counted, taken_at, with_result};
ghost use Rattle.kilim_fiber_body.specs.Reach.{IsWanting};
ghost use Rattle.kilim_fiber_body.specs.Body.{behind_at, RoomyIn, RoomIn, HasFrames};
ghost use Rattle.std.specs.List.{AllByRecursion};
ghost use Rattle.kilim_run_board.specs.fibers.Wishes.{Wish};
ghost use Rattle.kilim_run_trees.specs.Shaping.{Suits};
ghost use Rattle.kilim_fiber.specs.Past.{deed_of};
ghost use Rattle.kilim_fiber.specs.Fiber.{task_of, course_of, HoldsFiber, AskedOf, ServesCode};
ghost use Rattle.kilim_fiber.specs.Records.{records_of};
ghost use Rattle.kilim_fiber.specs.Clauses.{Resumes, RestsInRecords, Went};
ghost use Rattle.kilim_fiber.specs.Calls.{IsNew, IsBegun, EndsIdle, RestsAt, HasWanted, MayAsk, asks_by, is_rest, IsAnswerTo, WantsBy, Passed, Taken, Found, Refused, Waiting, Answered, AnswerSuits, takes_value};

use crate::past::{Did, Past, begun, no_past, note};
use kilim_fiber_body::{
    Body, Came, Code, begun_body, done, first_body, found, found_none, pause, put_done, reach,
    take, wait,
};
use kilim_program::{BoxName, ClassId, Program};
use kilim_run_board::fibers::{Answer, Wants};
use kilim_run_model::{Beginning, Waits};
use kilim_run_state::{EndCause, Limits, Shape};
use kilim_run_trees::Tree;
use kilim_units::{NoMemory, unmet};
use std::alloc::Global;
use std::snapshot::Snapshot;

/// What waits for an answer.
#[derive(Drop)]
pub enum Asked {
    Nothing,
    Put(BoxName, Snapshot<Shape>),
    PutWait(BoxName, Snapshot<Shape>),
    Bound(BoxName, u32),
    Take(BoxName),
    Probe(BoxName),
    Start(Snapshot<Shape>),
    Print(Snapshot<Shape>),
}

/// A task that runs on a heap of its own. It keeps records while it rests.
#[derive(Drop)]
pub struct Fiber {
    alloc: Global,
    task: u32,
    main: ClassId,
    // what it began with, and what it did
    beginning: Snapshot<Beginning>,
    past: Snapshot<Past>,
    body: Body,
    // its `execute` is built in
    idle: bool,
    asked: Asked,
    // what it waits for: its take was just answered nothing, or its put that the mailbox is full
    refused: Option<Waits>,
    rests: bool,
}

// A fiber that has done nothing yet.
fn new_fiber(alloc: Global, main: ClassId, beginning: Snapshot<Beginning>, body: Body) -> Fiber
    ensures { IsNew main beginning.value body result }
{
    let idle = body.idle;
    Fiber {
        alloc,
        task: 0,
        main,
        beginning,
        past: no_past(),
        body,
        idle,
        asked: Asked::Nothing,
        refused: None,
        rests: true,
    }
}

// A fiber that begins on the tree of a task object, and the shape that the object has.
fn begun_fiber(
    alloc: Global,
    program: &Program,
    main: ClassId,
    tree: Tree,
    shape: Shape,
) -> Result<(Fiber, Shape), NoMemory>
    ensures fiber { IfOk result (λ both. IsBegun program.now main tree shape both.0) }
    ensures shape { IfOk result (λ both. both.1 ≡ shape) }
{
    let Ok(body) = begun_body(alloc, program, tree) else {
        return Err(NoMemory);
    };
    let (beginning, shape) = begun(shape);
    Ok((new_fiber(alloc, main, beginning, body), shape))
}

// What is wanted by what a body came to, and asked then: nothing where it rests or ends.
fn wanted(
    alloc: Global,
    program: &Program,
    main: ClassId,
    came: Came,
) -> Result<(Wants<Fiber>, Asked), NoMemory>
    requires { IsWanting came ≡ true }
    ensures { IfOk result (λ both. WantsBy program.now main came both.0 both.1) }
{
    match came {
        Came::On => unreachable!(),
        Came::Puts(mailbox, tree, shape) => {
            let kept = Snapshot::of(&shape);
            Ok((Wants::Put(mailbox, tree, shape), Asked::Put(mailbox, kept)))
        }
        Came::PutWaits(mailbox, tree, shape) => {
            let kept = Snapshot::of(&shape);
            Ok((
                Wants::PutWait(mailbox, tree, shape),
                Asked::PutWait(mailbox, kept),
            ))
        }
        Came::Bounds(mailbox, most) => {
            Ok((Wants::Bound(mailbox, most), Asked::Bound(mailbox, most)))
        }
        Came::Takes(mailbox) => Ok((Wants::Take(mailbox), Asked::Take(mailbox))),
        Came::Probes(mailbox) => Ok((Wants::Probe(mailbox), Asked::Probe(mailbox))),
        Came::Starts(tree, shape) => {
            let Ok((fiber, shape)) = begun_fiber(alloc, program, main, tree, shape) else {
                return Err(NoMemory);
            };
            let kept = Snapshot::of(&shape);
            Ok((Wants::Start(fiber, shape), Asked::Start(kept)))
        }
        Came::Prints(shape) => {
            let kept = Snapshot::of(&shape);
            Ok((Wants::Print(shape), Asked::Print(kept)))
        }
        Came::Rests => Ok((Wants::Rest(None), Asked::Nothing)),
        Came::Ends(cause) => Ok((Wants::End(cause), Asked::Nothing)),
    }
}

impl Fiber {
    // It goes on behind what it asked, and notes the deed.
    fn pass_on(&mut self, code: &Code, did: Did)
        requires frames { HasFrames self.old.body.frames }
        requires roomy { RoomyIn code.now.program self.old.body.frames }
        requires few { self.old.body.count + 1 < 2 ^ 64 }
        ensures { Passed code.now.program self.old self.new (deed_of did) (counted (behind_at 0 self.old.body)) }
    {
        done(&code.program, &mut self.body);
        note(&mut self.past, did);
    }

    // The same with null.
    fn pass_none(&mut self, code: &Code, did: Did)
        requires roomy { RoomyIn code.now.program self.old.body.frames }
        requires room { RoomIn code.now.program self.old.body.frames }
        requires few { self.old.body.count + 1 < 2 ^ 64 }
        ensures { Passed code.now.program self.old self.new (deed_of did) (with_result (Some a_value.Null) (counted (behind_at 0 self.old.body))) }
    {
        found_none(&code.program, &mut self.body);
        note(&mut self.past, did);
    }

    // A put that may wait is made, and it notes the deed.
    fn put_on(&mut self, code: &Code, did: Did)
        requires frames { HasFrames self.old.body.frames }
        requires roomy { RoomyIn code.now.program self.old.body.frames }
        requires few { self.old.body.count + 1 < 2 ^ 64 }
        ensures { Passed code.now.program self.old self.new (deed_of did) (taken_at (behind_at 0 self.old.body)) }
    {
        put_done(self.alloc, &code.program, &mut self.body);
        note(&mut self.past, did);
    }

    // A put is answered that its mailbox is full: it pauses, and its tree stands apart.
    fn wait_at(&mut self, code: &Code, mailbox: BoxName, tree: Tree, shape: Shape)
        requires frames { HasFrames self.old.body.frames }
        requires roomy { RoomyIn code.now.program self.old.body.frames }
        ensures { Waiting code.now.program self.old self.new mailbox tree shape }
    {
        wait(
            self.alloc,
            &code.program,
            mailbox,
            tree,
            shape,
            &mut self.body,
        );
        self.refused = Some(Waits::Put(mailbox));
    }

    // A message comes to a `get`.
    fn receive(
        &mut self,
        code: &Code,
        mailbox: BoxName,
        tree: Tree,
        number: u64,
    ) -> Result<(), NoMemory>
        requires suits { AllByRecursion (Suits code.now.plain) tree }
        requires roomy { RoomyIn code.now.program self.old.body.frames }
        requires room { RoomIn code.now.program self.old.body.frames }
        requires few { self.old.body.count + 1 < 2 ^ 64 }
        ensures { OnOk result (Taken code.now.plain code.now.program self.old self.new mailbox tree number) }
    {
        let Ok(shape) = take(self.alloc, &code.plain, &code.program, tree, &mut self.body) else {
            return Err(NoMemory);
        };
        note(
            &mut self.past,
            Did::Take(mailbox, number, Snapshot::of(&shape)),
        );
        Ok(())
    }

    // A message is there where it looked for one.
    fn find(
        &mut self,
        code: &Code,
        mailbox: BoxName,
        tree: Tree,
        number: u64,
    ) -> Result<(), NoMemory>
        requires suits { AllByRecursion (Suits code.now.plain) tree }
        requires roomy { RoomyIn code.now.program self.old.body.frames }
        requires room { RoomIn code.now.program self.old.body.frames }
        requires few { self.old.body.count + 1 < 2 ^ 64 }
        ensures { OnOk result (Found code.now.plain code.now.program self.old self.new mailbox tree number) }
    {
        let Ok(shape) = found(&code.plain, &code.program, tree, &mut self.body) else {
            return Err(NoMemory);
        };
        note(
            &mut self.past,
            Did::Take(mailbox, number, Snapshot::of(&shape)),
        );
        Ok(())
    }

    // A take is answered nothing: it pauses.
    fn refuse(&mut self, code: &Code, mailbox: BoxName)
        requires roomy { RoomyIn code.now.program self.old.body.frames }
        requires room { RoomIn code.now.program self.old.body.frames }
        ensures { Refused code.now.program self.old self.new mailbox }
    {
        pause(self.alloc, &code.program, mailbox, &mut self.body);
        self.refused = Some(Waits::Take(mailbox));
    }

    // The answer to what was asked.
    fn answered(&mut self, code: &Code, asked: Asked, answer: Answer) -> Result<(), NoMemory>
        requires frames { HasFrames self.old.body.frames }
        requires roomy { RoomyIn code.now.program self.old.body.frames }
        requires room { takes_value asked ≡ true → RoomIn code.now.program self.old.body.frames }
        requires suits { AnswerSuits code.now.plain answer }
        requires few { self.old.body.count + 1 < 2 ^ 64 }
        requires fits { IsAnswerTo asked answer }
        ensures { OnOk result (Answered code.now.plain code.now.program asked answer self.old self.new) }
    {
        match asked {
            Asked::Put(mailbox, shape) => match answer {
                Answer::Sent(number) => {
                    self.pass_on(code, Did::Put(mailbox, number, shape));
                    Ok(())
                }
                _ => unreachable!(),
            },
            Asked::PutWait(mailbox, shape) => match answer {
                Answer::Sent(number) => {
                    self.put_on(code, Did::Put(mailbox, number, shape));
                    Ok(())
                }
                Answer::Full(tree, same) => {
                    self.wait_at(code, mailbox, tree, same);
                    Ok(())
                }
                _ => unreachable!(),
            },
            Asked::Bound(mailbox, most) => match answer {
                Answer::Done => {
                    self.pass_on(code, Did::Bound(mailbox, most));
                    Ok(())
                }
                _ => unreachable!(),
            },
            Asked::Take(mailbox) => match answer {
                Answer::Message(tree, number) => self.receive(code, mailbox, tree, number),
                Answer::Nothing => {
                    self.refuse(code, mailbox);
                    Ok(())
                }
                _ => unreachable!(),
            },
            Asked::Probe(mailbox) => match answer {
                Answer::Message(tree, number) => self.find(code, mailbox, tree, number),
                Answer::Nothing => {
                    self.pass_none(code, Did::Empty(mailbox));
                    Ok(())
                }
                _ => unreachable!(),
            },
            Asked::Start(shape) => match answer {
                Answer::Started(number) => {
                    self.pass_on(code, Did::Start(number, shape));
                    Ok(())
                }
                _ => unreachable!(),
            },
            Asked::Print(shape) => match answer {
                Answer::Done => {
                    self.pass_on(code, Did::Print(shape));
                    Ok(())
                }
                _ => unreachable!(),
            },
            Asked::Nothing => unreachable!(),
        }
    }

    // Its `execute` is built in: its task is over at once.
    fn end_idle(&mut self, limits: &Limits) -> Wants<Fiber>
        requires none { self.old.refused ≡ None }
        requires most { self.old.body.count ≤ limits.now.steps }
        ensures { EndsIdle limits.now self.old self.new result }
    {
        self.rests = false;
        if limits.steps == 0 {
            Wants::End(EndCause::Spent)
        } else {
            Wants::End(EndCause::Done)
        }
    }

    // It was refused: it rests where it waits, and comes to nothing else.
    fn rest_at(&mut self, waits: Waits, came: Came) -> Result<Wants<Fiber>, NoMemory>
        ensures { IfOk result (λ w. RestsAt waits came self.old self.new w) }
    {
        match came {
            Came::Rests => {
                self.refused = None;
                self.rests = true;
                Ok(Wants::Rest(Some(waits)))
            }
            // unmet: a fiber that pauses goes on pausing, or rests
            _ => Err(unmet()),
        }
    }

    // What it wants then. Where it rests by itself it has counted an instruction; that it has isn't proved yet, so it is asked.
    fn want(
        &mut self,
        code: &Code,
        limits: &Limits,
        before: u64,
        came: Came,
    ) -> Result<Wants<Fiber>, NoMemory>
        requires wanting { IsWanting came ≡ true }
        requires may { asks_by came ≡ true → MayAsk limits.now self.old }
        ensures { IfOk result (λ w. HasWanted code.now.program limits.now before came self.old self.new w) }
    {
        let _ = limits;
        if !self.may_rest(before, &came) {
            drop(came);
            // unmet: where a fiber comes to pause by itself it has counted
            return Err(unmet());
        }
        self.rests = is_resting(&came);
        let Ok((wants, asked)) = wanted(self.alloc, &code.program, self.main, came) else {
            return Err(NoMemory);
        };
        self.asked = asked;
        Ok(wants)
    }

    /// The fiber of task 0: it begins with the constructor of the main class, on a new object.
    pub fn boot(alloc: Global, code: &Code, main: ClassId) -> Result<Fiber, NoMemory>
        ensures task { IfOk result (λ f. task_of f ≡ 0) }
        ensures course { IfOk result (λ f. course_of f ≡ record { beginning = Boot; deeds = [] }) }
        ensures rests { IfOk result (λ f. f.rests ≡ true) }
        ensures refused { IfOk result (λ f. f.refused ≡ None) }
        ensures stands { (set : Setting) → ServesCode set code.now → set.main ≡ main → IfOk result (λ f. StandsFor task_of course_of (HoldsFiber code.now.program code.now.counted) set f) }
    {
        let Ok(body) = first_body(alloc, &code.plain, &code.program, main) else {
            return Err(NoMemory);
        };
        if body.idle {
            drop(body);
            // unmet: the main class is a class of a file, and its constructor isn't built in
            return Err(unmet());
        }
        let boot = Beginning::Boot;
        Ok(new_fiber(alloc, main, Snapshot::of(&boot), body))
    }

    /// Runs up to the next thing that it wants. After want of memory it may only be dropped.
    pub fn resume(&mut self, code: &Code, limits: &Limits) -> Result<Wants<Fiber>, NoMemory>
        requires { CanRun task_of course_of (HoldsFiber code.now.program code.now.counted) ServesCode code.now limits.now self.old }
        ensures gives { IfOk result (λ w. Resumes code.now limits.now self.old self.new w) }
        ensures rests { IfOk result (λ w. RestsInRecords code.now limits.now self.old self.new w) }
    {
        if self.idle {
            return Ok(self.end_idle(limits));
        }
        let before = self.body.count;
        let Ok(came) = reach(
            self.alloc,
            code,
            limits,
            self.main,
            self.task,
            &mut self.body,
        ) else {
            return Err(NoMemory);
        };
        match self.refused {
            Some(waits) => self.rest_at(waits, came),
            None => self.want(code, limits, before, came),
        }
    }

    /// Answers what it wanted last. After want of memory it may only be dropped.
    pub fn answer(&mut self, code: &Code, answer: Answer) -> Result<(), NoMemory>
        requires { CanAnswer task_of course_of (AskedOf code.now.program code.now.counted) ServesCode code.now self.old answer }
        ensures task { OnOk result (task_of self.new ≡ task_of self.old) }
        ensures goes { (set : Setting) (wish : Wish) (deed : Option Deed) → ServesCode set code.now → Asks task_of course_of (AskedOf code.now.program code.now.counted) set self.old wish → Fits set.program wish answer deed →
            OnOk result (Went code.now set self.old wish deed self.new) }
    {
        self.refused = None;
        let asked = std::mem::replace(&mut self.asked, Asked::Nothing);
        self.answered(code, asked, answer)
    }

    /// Gives a newly begun fiber its task's number, which is 0 until then.
    pub fn number(&mut self, task: u32)
        requires course { IsNewCourse (course_of self.old) }
        requires none { self.old.body.count ≡ 0 }
        ensures same { self.new ≡ record self.old { task = task } }
    {
        self.task = task;
    }

    /// Its task's number.
    pub fn task(&self) -> u32
        ensures { result ≡ task_of self.now }
    {
        self.task
    }

    /// How many records it keeps while it rests: one for each frame, and the leaf's. 0 where it is newly begun, or runs.
    pub fn records(&self) -> usize
        ensures { result ≡ records_of self.now }
    {
        if self.body.frames.is_none() && !self.idle {
            1 + self.body.records.deeper()
        } else {
            0
        }
    }

    // Where it comes to rest it has counted an instruction.
    fn may_rest(&self, before: u64, came: &Came) -> bool
        ensures { result ≡ true → is_rest came.now ≡ true → before < self.now.body.count }
    {
        !is_resting(came) || self.body.count > before
    }
}

// Whether it rests.
fn is_resting(came: &Came) -> bool
    ensures { result ≡ is_rest came.now }
{
    match came {
        Came::Rests => true,
        _ => false,
    }
}
