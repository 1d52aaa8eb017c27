//! Commands of mutators, on a heap of its own or in the turn of a member.
ghost use Rattle.std.specs.Prelude.{◌≡◌, false};
ghost use Rattle.std.specs.Fn.{FnOnceReturns, FnOnceReturnsAtMut};
ghost use Rattle.graph_heap.specs.declared.command.Command.{Command};
ghost use Rattle.graph_heap.specs.declared.command.Command.TheVariants as commands;
ghost use Rattle.paced.specs.Pacing.{MakesNothing};
ghost use Rattle.heap_shared.specs.Methods.{IsMethodOf};
ghost use Rattle.metronome_c.specs.Asking.{told_by};
ghost use Rattle.metronome_c.specs.Opened.{held_in};
ghost use Rattle.metronome_c.specs.Status.{not_done_status};
ghost use Rattle.metronome_c.specs.Either.{holds_own};
ghost use Rattle.metronome_c.specs.Commands.{Answers, Describes};

use crate::answer::{Answer, MetronomeShape};
use crate::figures::found_in;
use crate::held::Held;
use crate::metronome::Metronome;
use crate::status::Status;
use graph_heap::{Command, Reply, Shape};
use heap_shared::NotDone;
use machine::Heap;

impl Metronome {
    /// Does a command of a mutator that makes no object, by the heap's method for it, and answers. The command is a closure, so
    /// that it is made for a shared heap alone, which logs it.
    #[inline(always)]
    pub(crate) fn answer<
        C: FnOnce() -> Command + Drop,
        F: FnOnce(&mut Heap) -> Reply + Drop,
        G: FnOnce(&mut Heap) -> Reply + Drop,
    >(&mut self, mutator: u32, command: C, own: F, shared: G) -> Answer
        requires command { C.IsAlwaysCallable command }
        requires own { F.IsAlwaysCallable own }
        requires shared { G.IsAlwaysCallable shared }
        requires does { (c : Command) → FnOnceReturns C.FnOnce command tt c
            → IsMethodOf mutator c (FnOnceReturnsAtMut F.FnOnce own) }
        requires does_shared { (c : Command) → FnOnceReturns C.FnOnce command tt c
            → IsMethodOf mutator c (FnOnceReturnsAtMut G.FnOnce shared) }
        requires nothing { (c : Command) → FnOnceReturns C.FnOnce command tt c → MakesNothing c }
        ensures { (c : Command) × FnOnceReturns C.FnOnce command tt c
            × Answers (held_in self.old) mutator c (held_in self.new) result }
    {
        if !self.is_own() {
            return self.answer_shared(mutator, command, shared);
        }
        let _command = command();
        match self.handle.lend() {
            Held::Own(heap) => Answer::from_outcome(Ok(own(&mut heap.heap))),
            Held::Shared(_) => unreachable!(),
        }
    }

    /// Does the same if it holds no heap of its own.
    #[inline(never)]
    fn answer_shared<C: FnOnce() -> Command + Drop, G: FnOnce(&mut Heap) -> Reply + Drop>(
        &mut self,
        mutator: u32,
        command: C,
        method: G,
    ) -> Answer
        requires command { C.IsAlwaysCallable command }
        requires callable { G.IsAlwaysCallable method }
        requires does { (c : Command) → FnOnceReturns C.FnOnce command tt c
            → IsMethodOf mutator c (FnOnceReturnsAtMut G.FnOnce method) }
        requires nothing { (c : Command) → FnOnceReturns C.FnOnce command tt c → MakesNothing c }
        requires other { holds_own self.old.handle.value ≡ false }
        ensures { (c : Command) × FnOnceReturns C.FnOnce command tt c
            × Answers (held_in self.old) mutator c (held_in self.new) result }
    {
        let command = command();
        if !self.is_shared() {
            return Answer::from_outcome(Err(self.why_empty()));
        }
        match self.handle.lend() {
            Held::Own(_) => unreachable!(),
            Held::Shared(seated) => match seated.member().call_by(mutator, command, method) {
                Ok(reply) => Answer::from_outcome(Ok(reply)),
                Err(why) => Answer::from_outcome(Err(Status::of_not_done(why))),
            },
        }
    }

    /// Makes an object of a shape for a mutator, and answers. If the heap keeps a plan, the object's words are paid for first.
    #[inline(always)]
    pub(crate) fn make(&mut self, mutator: u32, dst: u32, shape: Shape) -> Answer
        ensures { Answers (held_in self.old) mutator (commands.New dst shape) (held_in self.new) result }
    {
        if !self.is_own() {
            return self.make_shared(mutator, dst, shape);
        }
        match self.handle.lend() {
            Held::Own(heap) => Answer::from_outcome(heap.make(mutator, dst, shape)),
            Held::Shared(_) => unreachable!(),
        }
    }

    /// Does the same if it holds no heap of its own.
    #[inline(never)]
    fn make_shared(&mut self, mutator: u32, dst: u32, shape: Shape) -> Answer
        requires { holds_own self.old.handle.value ≡ false }
        ensures { Answers (held_in self.old) mutator (commands.New dst shape) (held_in self.new) result }
    {
        if !self.is_shared() {
            return Answer::from_outcome(Err(self.why_empty()));
        }
        match self.handle.lend() {
            Held::Own(_) => unreachable!(),
            Held::Shared(seated) => match seated.member().make(mutator, dst, shape) {
                Ok(reply) => Answer::from_outcome(Ok(reply)),
                Err(why) => Answer::from_outcome(Err(Status::of_not_done(why))),
            },
        }
    }

    /// Describes the object of slot a for a mutator, answers, and stores the shape that the answer tells.
    pub(crate) fn describe(&mut self, mutator: u32, a: u32, shape: &mut MetronomeShape) -> Answer
        ensures { Describes (held_in self.old) mutator (commands.Describe a) (held_in self.new) (shape.old, shape.new) result }
    {
        let command = Command::Describe { a };
        let found = self.ask(
            |own| own.describe(mutator, a),
            |member| told(member.call_by(mutator, command, |heap| heap.describe(mutator, a))),
        );
        let reply = found_in(found);
        *shape = shape.told_by(reply);
        Answer::from_outcome(reply)
    }
}

/// Returns what a member's command told, or the status of why it wasn't done.
pub(crate) fn told<T: Drop>(outcome: Result<T, NotDone>) -> Result<T, Status>
    ensures { result ≡ told_by not_done_status outcome }
{
    match outcome {
        Ok(value) => Ok(value),
        Err(why) => Err(Status::of_not_done(why)),
    }
}
