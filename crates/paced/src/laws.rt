//! The laws of a heap that is paced. Each function does nothing: its contract is the law.
ghost use Rattle.std.specs.Prelude.{◌≡◌, ◌↔◌, ℕ, ◌*◌, ◌<◌, ◌≤◌, Bool, Result, Ok, List, [], ◌∷◌, ◌++◌, length};
ghost use Rattle.std.specs.List.{AllByRecursion};
ghost use Rattle.graph_heap.specs.declared.command.Command.{Command};
ghost use Rattle.graph_heap.specs.declared.command.Reply.{Reply};
ghost use Rattle.size_classes.specs.declared.config.Config.{Config};
ghost use Rattle.heap_model.specs.Event.{Course, Event, Command_done, IsCourse, Runs, quanta_in};
ghost use Rattle.heap_model.specs.State.{HeapState};
ghost use Rattle.fragmentation.specs.Configured.{MovesAll, FlowFitsIn};
ghost use Rattle.machine.specs.Plan.{Steps};
ghost use Rattle.paced.specs.declared.pacer.AbovePlan.{AbovePlan};
ghost use Rattle.paced.specs.declared.plan.Plan.{Plan};
ghost use Rattle.paced.specs.Pacing.{PacedState, PacedView, state_of, worked, Path, KeepsPlan, MakesNothing, MayAsk, WorksFor, Paced, Pays, Calls};
ghost use Rattle.paced.specs.Rooms.{planned_flow, flow_for, AsksOnly, IsJustPaced, FindsRoom};
ghost use Rattle.paced.specs.Planning.{HasPlanOn, IsResized, HasPlan};
ghost use Rattle.paced.specs.Bounds.{words_in, Deed, IsDone, AreDone, events_of, words_asked, AsksWithin, LastsWith, LiveWithinPlan, KeepsToWords, most_for_one, IsShort, BeginsNone, IsFree, pieces_left};

/// No command is refused for lack of space on a paced heap, if live objects were within the flow whenever a cycle began. The
/// configuration of the heap moves all, and the flow of the plan fits in it.
pub fn paced_heaps_find_room()
    ensures { (config : Config) (plan : Plan) (live : ℕ) (old new : PacedState) (es : List Event)
        → IsJustPaced config plan old → MovesAll config → FlowFitsIn config (planned_flow live plan)
        → Path KeepsPlan old es new → FindsRoom config (planned_flow live plan) old.heap new.heap es }
{}

/// The same for a program that asks for blocks of some classes alone. The flow need fit for these classes only.
pub fn heaps_of_some_classes_find_room()
    ensures { (config : Config) (plan : Plan) (live : ℕ) (makes : ℕ → Bool) (old new : PacedState) (es : List Event)
        → IsJustPaced config plan old → MovesAll config → FlowFitsIn config (flow_for makes live plan)
        → AllByRecursion (AsksOnly (flow_for makes live plan)) es
        → Path KeepsPlan old es new → FindsRoom config (flow_for makes live plan) old.heap new.heap es }
{}

/// Calls are paced one after the other if each is paced. It is paced if nothing is called.
pub fn paced_calls_add_up()
    ensures none { (v : PacedState) → Paced v v }
    ensures both { (old mid new : PacedState) → Paced old mid → Paced mid new → Paced old new }
{}

/// A command that makes no object keeps every plan, and its pacer has nothing to count. It may be done on the heap itself.
pub fn other_commands_need_no_pacer()
    ensures { (v : PacedState) (m : ℕ) (c : Command) (answer : Reply) (after : HeapState) → MakesNothing c
        → Steps v.heap m c answer after → Paced v (record v { heap = after }) }
{}

/// Events on a paced heap are events of a heap with its history, for each history that led to the heap.
pub fn paced_events_run()
    ensures { (r : Course) (old new : PacedState) (es : List Event) → IsCourse r → r.heap ≡ old.heap
        → Path KeepsPlan old es new → (k : Course) × (k.heap ≡ new.heap) × Runs r es k }
{}

/// There is a plan on a number of pages exactly if there is one for a configuration with that number. This holds for each set
/// of classes, and for each object for which the plan leaves room.
pub fn plans_need_pages()
    ensures { (makes : ℕ → Bool) (c resized : Config) (live largest : ℕ) → IsResized c resized
        → HasPlanOn makes c live largest resized.pages ↔ HasPlan makes resized live largest }
{}

/// In every stretch of a program's calls, after any others, the collector's work keeps to the words that are asked for in the
/// stretch. This holds if the plan lasts with room for the largest object of the stretch, and live objects keep to the plan
/// whenever a cycle begins. So one call that makes an object of w words costs at most one quantum for every `quantum_words` of
/// them, rounded up. It costs none if the program spent these quanta before.
pub fn work_keeps_to_words()
    ensures { (config : Config) (plan : Plan) (live largest : ℕ) (old mid new : PacedState) (es : List Event)
        (stretch : List Deed)
        → LastsWith config plan live largest → IsJustPaced config plan old → Path KeepsPlan old es mid
        → AreDone mid stretch new → AllByRecursion (AsksWithin largest) stretch
        → LiveWithinPlan config plan live (es ++ events_of stretch)
        → KeepsToWords plan (config.collector_ticks * config.rate) stretch }
{}

/// A command that is done once its words were paid for is paced. It is one deed, and the figures count the deed's work. A
/// command for words that may already be asked for has no work. Anything else that keeps the plan is a deed without work. The
/// collector works for no event that asks for no words.
pub fn calls_are_deeds()
    ensures paced { (old new : PacedView) (m : ℕ) (c : Command) (answer : Result Reply AbovePlan)
        → Calls old m c answer new → Paced (state_of old) (state_of new) }
    ensures call { (old new : PacedView) (m : ℕ) (c : Command) (answer : Reply) → Calls old m c (Ok answer) new
        → (work : List Event) × IsDone (state_of old) (record { work = work; event = Command_done m c answer }) (state_of new)
        × (new.pacer.figures ≡ worked old.pacer.figures work) }
    ensures alone { (old new : PacedState) (e : Event) → Path KeepsPlan old (e ∷ []) new
        → IsDone old (record { work = []; event = e }) new }
    ensures ahead { (old new : PacedView) (words : ℕ) (w : Pays old words new) → MayAsk (state_of old) words → w.work ≡ [] }
    ensures idle { (old new : PacedState) (d : Deed) → IsDone old d new → words_in d.event ≡ 0 → d.work ≡ [] }
{}

/// One object of any size costs at most `most_for_one` quanta in one call, if the plan lasts. So does each call of a stretch. An
/// object of at most `quantum_words` words costs at most one quantum.
pub fn objects_cost_few_quanta()
    ensures bound { (config : Config) (plan : Plan) (live largest words : ℕ) (old mid before : PacedState)
        (es work : List Event)
        → LastsWith config plan live largest → IsJustPaced config plan old → Path KeepsPlan old es mid
        → words ≤ plan.cycle_words → Path (WorksFor words) mid work before
        → LiveWithinPlan config plan live (es ++ work) → quanta_in work ≤ most_for_one plan largest words }
    ensures each { (config : Config) (plan : Plan) (live largest : ℕ) (old mid new : PacedState) (es : List Event)
        (stretch : List Deed)
        → LastsWith config plan live largest → IsJustPaced config plan old → Path KeepsPlan old es mid
        → AreDone mid stretch new → LiveWithinPlan config plan live (es ++ events_of stretch)
        → AllByRecursion (IsShort plan largest) stretch }
    ensures small { (plan : Plan) (largest words : ℕ) → 1 ≤ plan.quantum_words → words ≤ plan.quantum_words
        → most_for_one plan largest words ≤ 1 }
{}

/// Words that were paid for ahead are free. Once w words may be asked for, the collector does nothing for a stretch that asks
/// for no more in all. The program may do anything else in the stretch, except begin a cycle.
pub fn words_paid_ahead_are_free()
    ensures { (config : Config) (plan : Plan) (old mid new : PacedState) (es : List Event) (words : ℕ)
        (stretch : List Deed)
        → IsJustPaced config plan old → Path KeepsPlan old es mid → MayAsk mid words → AreDone mid stretch new
        → AllByRecursion BeginsNone stretch → words_asked stretch ≤ words → AllByRecursion IsFree stretch }
{}

/// No more pieces of work than `pieces_left` are done for words, if the plan lasts and leaves room for them. As long as they may
/// not be asked for, fewer were done.
pub fn pieces_left_suffice()
    ensures most { (config : Config) (plan : Plan) (live words : ℕ) (old mid before : PacedState) (es work : List Event)
        → LastsWith config plan live words → IsJustPaced config plan old → Path KeepsPlan old es mid
        → Path (WorksFor words) mid work before → LiveWithinPlan config plan live (es ++ work)
        → length work ≤ pieces_left mid words }
    ensures fewer { (config : Config) (plan : Plan) (live words : ℕ) (old mid before : PacedState) (es work : List Event)
        → LastsWith config plan live words → IsJustPaced config plan old → Path KeepsPlan old es mid
        → Path (WorksFor words) mid work before → LiveWithinPlan config plan live (es ++ work)
        → (MayAsk before words → ⊥) → length work < pieces_left mid words }
{}
