//! The law of bulk calls. The function does nothing: its contract is the law.
ghost use Rattle.std.specs.Prelude.{◌≡◌, ℕ, List, length};
ghost use Rattle.graph_heap.specs.declared.command.Command.{Command};
ghost use Rattle.graph_heap.specs.declared.command.Reply.{Reply};
ghost use Rattle.heap_model.specs.Event.{Course, IsCourse, Runs};
ghost use Rattle.heap_model.specs.State.{HeapState};
ghost use Rattle.bulk.specs.declared.progress.Progress.{Progress};
ghost use Rattle.bulk.specs.InOrder.{DoesWith, events_of, with_refusal, TellsAll};

/// A bulk call does a list of events to a heap, whatever history led to it. Each command comes with its reply, and last
/// the refused one, if one was refused. All commands were done exactly if none was refused.
pub fn bulk_calls_are_events()
    ensures events { (r : Course) (m : ℕ) (cs : List Command) (rs : List Reply) (p : Progress) (after : HeapState)
        → IsCourse r → DoesWith r.heap m cs rs p after
        → (new : Course) × (new.heap ≡ after) × Runs r (events_of m cs (with_refusal rs p.refused)) new }
    ensures all { (h : HeapState) (m : ℕ) (cs : List Command) (rs : List Reply) (p : Progress) (after : HeapState)
        → DoesWith h m cs rs p after → TellsAll (length cs) p }
{}
