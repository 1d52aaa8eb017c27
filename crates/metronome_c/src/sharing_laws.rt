//! The laws of shared heaps. Each function does nothing: its contract is the law.
ghost use Rattle.std.specs.Prelude.{◌≡◌, ℕ, Bool, Option, Result, Ok, Err, IfOk};
ghost use Rattle.graph_heap.specs.declared.command.Command.{Command};
ghost use Rattle.graph_heap.specs.declared.command.Reply.{Reply};
ghost use Rattle.size_classes.specs.declared.settings.Settings.{Settings};
ghost use Rattle.heap_model.specs.Event.{Event};
ghost use Rattle.heap_shared.specs.declared.fault.NoTurn.{NoTurn};
ghost use Rattle.heap_shared.specs.declared.fault.NotDone.{NotDone};
ghost use Rattle.heap_shared.specs.Members.{MemberView, Enters, Leaves, Places, Calls, DoesInTurn, Adds};
ghost use Rattle.metronome_c.specs.Opened.{held_in};
ghost use Rattle.metronome_c.specs.Planning.{SuitsSettings, TellsPlan};
ghost use Rattle.metronome_c.specs.Sharing.{CreatesKept, FindsRoomAt, IsAtHeapOf, KeepsPromises};
ghost use Rattle.metronome_c.specs.Status.{status_number};
ghost use Rattle.metronome_c.specs.declared.held.Held.{Held};
ghost use Rattle.metronome_c.specs.declared.planning.MetronomeFlow.{MetronomeFlow};
ghost use Rattle.metronome_c.specs.declared.status.Status.TheVariants.{Closed, Done};

use crate::metronome::Metronome;

/// All that is promised of a heap with its history holds of the shared heap that a handle has in its turn. The events that led
/// there are those of the log that its member has seen, by all members, and then its own.
pub fn members_keep_promises(heap: &mut Metronome)
    ensures same { held_in heap.new ≡ held_in heap.old }
    ensures promised { IfOk (held_in heap.old) KeepsPromises }
{
    let _asked = heap.ask(|_own| (), |member| member.promise());
}

/// If a shared heap was made with a plan of a closed handle, and a handle at it has the turn, no reply was the refusal for lack of
/// space. Its members may have done anything, in any threads. Live objects must have been within the plan whenever a cycle began,
/// by whichever member.
pub fn members_find_room(heap: &mut Metronome)
    ensures same { held_in heap.new ≡ held_in heap.old }
    ensures room { (s : Settings) (log status : ℕ) (flow : MetronomeFlow) (first : Held)
        → CreatesKept log flow (Err Closed) s (Ok first) status
        → IfOk (held_in heap.old) (FindsRoomAt s flow first) }
{
    members_keep_promises(heap);
}

/// A member stays at its heap, whatever is asked of it, and each member that it adds is at the same heap.
pub fn members_stay_at_their_heap()
    ensures entering { (old new : MemberView) (told : Result (Unit {0}) NoTurn) → Enters old told new → IsAtHeapOf old new }
    ensures leaving { (old new : MemberView) (had : Bool) → Leaves old had new → IsAtHeapOf old new }
    ensures looking { (old new : MemberView) (told : Option ℕ) → Places old told new → IsAtHeapOf old new }
    ensures calling { (old new : MemberView) (mutator : ℕ) (command : Command) (told : Result Reply NotDone)
        → Calls old mutator command told new → IsAtHeapOf old new }
    ensures collecting { (old new : MemberView) (done : Option Event) → DoesInTurn (λ e. e) old done new
        → IsAtHeapOf old new }
    ensures adding { (old made new : MemberView) (from : ℕ) → Adds old from (Ok made) new
        → IsAtHeapOf old new × IsAtHeapOf old made }
{}

/// A plan that C was told for settings suits them: a shared heap that is made of them keeps it.
pub fn plans_suit_settings()
    ensures { (s : Settings) (live largest told : ℕ) (before flow : MetronomeFlow)
        → TellsPlan s live largest before flow told
        → told ≡ status_number Done → SuitsSettings s flow }
{}
