//! The laws of the library. Each function does nothing: its contract is the law.
ghost use Rattle.std.specs.Prelude.{◌≡◌, ◌*◌, ◌≤◌, ℕ, List, [], ◌∷◌, length, Result, Ok, Err};
ghost use Rattle.graph_heap.specs.declared.command.Refusal.TheVariants as refusals;
ghost use Rattle.size_classes.specs.declared.config.Config.{Config};
ghost use Rattle.size_classes.specs.declared.key.Key.TheVariants as keys;
ghost use Rattle.size_classes.specs.declared.settings.Settings.{Settings};
ghost use Rattle.heap_model.specs.Bound.{most_quanta};
ghost use Rattle.heap_model.specs.Opening.{IsOpening};
ghost use Rattle.heap_model.specs.Settings.{settings_of, settings_by};
ghost use Rattle.heap_model.specs.Spent.{cycle_limit};
ghost use Rattle.heap_model.specs.State.{HeapState};
ghost use Rattle.paced.specs.Bounds.{LastsWith};
ghost use Rattle.metronome_c.specs.Calls.{Call, Calls, AreEvents, IsPromised};
ghost use Rattle.metronome_c.specs.Costs.{KeepsCosts, AreFree, PrepareFor, EndsSoon};
ghost use Rattle.metronome_c.specs.Lifetime.{IsOwnOf, Creates};
ghost use Rattle.metronome_c.specs.Keeping.{CanKeep, KeepsOwn};
ghost use Rattle.metronome_c.specs.KeptCalls.{KeptCall, KeptCalls, KeepsRoom};
ghost use Rattle.metronome_c.specs.Limit.{limit_of};
ghost use Rattle.metronome_c.specs.Planning.{plan_in, TellsPlan};
ghost use Rattle.metronome_c.specs.Preparing.{PreparesOpen};
ghost use Rattle.metronome_c.specs.Status.{all_statuses, status_number};
ghost use Rattle.metronome_c.specs.Touching.{touched_heap, touched_held};
ghost use Rattle.metronome_c.specs.declared.held.Held.TheVariants as holds;
ghost use Rattle.metronome_c.specs.declared.own_heap.OwnHeap.{OwnHeap};
ghost use Rattle.metronome_c.specs.declared.planning.MetronomeFlow.{MetronomeFlow};
ghost use Rattle.metronome_c.specs.declared.metronome.TheConstants.{OWN_CHECK_WORD, SHARED_CHECK_WORD};
ghost use Rattle.metronome_c.specs.declared.status.Status.{Status};
ghost use Rattle.metronome_c.specs.declared.status.Status.TheVariants.{Done, Refused, NoMemory, Busy, BudgetOutOfRange, Closed, Open, ScheduleOutOfRange, BadHandle, SettingOutOfRange, OtherVersion, Taken, Inside, Outside, NotYours, NoPlan, AbovePlan, NoMutator, SlotsUsed, OtherMutator, NotShared, IsShared, InUse};

/// A program calls the library as it likes on a heap that was just made of a closed handle. Then the calls are events that the
/// heap does one after the other, with a history that only grows. Each call tells the outcome of its event. All that is
/// promised of a heap with its history (`machine::Recorded::run`) holds of it. This also holds if the program touched pages of
/// the heap first.
pub fn calls_are_events()
    ensures made { (s : Settings) (h : OwnHeap) (status : ℕ) → Creates IsOwnOf (Err Closed) s (Ok (holds.Own h)) status
        → IsPromised s h.heap }
    ensures calls { (s : Settings) (h : OwnHeap) (status : ℕ) (calls : List Call) (new : Result OwnHeap Status)
        → Creates IsOwnOf (Err Closed) s (Ok (holds.Own h)) status → Calls (Ok h) calls new → AreEvents h calls new }
    ensures touched { (s : Settings) (h : OwnHeap) (status pages : ℕ) → Creates IsOwnOf (Err Closed) s (Ok (holds.Own h)) status
        → IsPromised s (touched_heap h.heap pages) }
    ensures after { (s : Settings) (h : OwnHeap) (status pages : ℕ) (calls : List Call)
        (new : Result OwnHeap Status) → Creates IsOwnOf (Err Closed) s (Ok (holds.Own h)) status
        → Calls (Ok (touched_held h pages)) calls new → AreEvents (touched_held h pages) calls new }
{}

/// A heap that was just made of a closed handle keeps a plan, and a program calls the library as it likes. Then no reply is the
/// refusal for lack of space, if live objects are within the plan whenever a cycle begins, by the program or by the plan. This
/// also holds if the program touched pages of the heap first.
pub fn kept_heaps_find_room()
    ensures kept { (s : Settings) (h k : OwnHeap) (made status : ℕ) (flow : MetronomeFlow) (calls : List KeptCall)
        (new : Result OwnHeap Status) → Creates IsOwnOf (Err Closed) s (Ok (holds.Own h)) made → KeepsOwn (Ok h) flow (Ok k) status
        → status ≡ status_number Done → KeptCalls (Ok k) calls new → KeepsRoom h flow calls new }
    ensures touched { (s : Settings) (h k : OwnHeap) (made status pages : ℕ) (flow : MetronomeFlow) (calls : List KeptCall)
        (new : Result OwnHeap Status) → Creates IsOwnOf (Err Closed) s (Ok (holds.Own h)) made
        → KeepsOwn (Ok (touched_held h pages)) flow (Ok k) status → status ≡ status_number Done
        → KeptCalls (Ok k) calls new
        → KeepsRoom (touched_held h pages) flow calls new }
{}

/// A heap that was just made of a closed handle keeps a plan, and a program calls the library as it likes. Then any stretch of
/// calls costs few quanta, all its callers together, if live objects are within the plan whenever a cycle begins. The collector
/// works before new objects alone. If the plan leaves room for the largest object of a stretch for W words, the stretch costs
/// at most W / `quantum_words` quanta, rounded up. In any case one object costs at most 2q - 1 quanta, where q is its words by
/// `quantum_words`, rounded up. So it costs at most one if it has no more than `quantum_words`. This also holds if the program
/// touched pages of the heap first.
pub fn kept_heaps_cost_few_quanta()
    ensures kept { (s : Settings) (h k : OwnHeap) (made status : ℕ) (flow : MetronomeFlow) (before stretch : List KeptCall)
        (mid new : Result OwnHeap Status) → Creates IsOwnOf (Err Closed) s (Ok (holds.Own h)) made → KeepsOwn (Ok h) flow (Ok k) status
        → status ≡ status_number Done → KeptCalls (Ok k) before mid → KeptCalls mid stretch new
        → KeepsCosts h flow before stretch }
    ensures touched { (s : Settings) (h k : OwnHeap) (made status pages : ℕ) (flow : MetronomeFlow)
        (before stretch : List KeptCall) (mid new : Result OwnHeap Status) → Creates IsOwnOf (Err Closed) s (Ok (holds.Own h)) made
        → KeepsOwn (Ok (touched_held h pages)) flow (Ok k) status → status ≡ status_number Done
        → KeptCalls (Ok k) before mid → KeptCalls mid stretch new
        → KeepsCosts (touched_held h pages) flow before stretch }
{}

/// A heap keeps a plan as above, and a call that prepares for words told that none is left. Then a stretch of calls that asks
/// for no more words in all is free, until the program itself begins a cycle. If a call that prepares tells a number, this
/// number of further calls suffices. The plan must leave room for the words, and live objects must be within it whenever a
/// cycle begins.
pub fn prepared_words_are_free()
    ensures free { (s : Settings) (h k : OwnHeap) (made status : ℕ) (flow : MetronomeFlow) (before stretch : List KeptCall)
        (mid ready new : Result OwnHeap Status) (words was left told : ℕ) → Creates IsOwnOf (Err Closed) s (Ok (holds.Own h)) made
        → KeepsOwn (Ok h) flow (Ok k) status → status ≡ status_number Done → KeptCalls (Ok k) before mid
        → PreparesOpen mid words ready was left told → told ≡ status_number Done → left ≡ 0
        → KeptCalls ready stretch new → AreFree words stretch }
    ensures soon { (s : Settings) (h k : OwnHeap) (made status : ℕ) (flow : MetronomeFlow) (before row : List KeptCall)
        (mid ready new : Result OwnHeap Status) (words was left told : ℕ) → Creates IsOwnOf (Err Closed) s (Ok (holds.Own h)) made
        → KeepsOwn (Ok h) flow (Ok k) status → status ≡ status_number Done → KeptCalls (Ok k) before mid
        → PreparesOpen mid words ready was left told → told ≡ status_number Done → PrepareFor words row
        → left ≤ length row → KeptCalls ready row new → EndsSoon h flow before words left row }
    ensures free_touched { (s : Settings) (h k : OwnHeap) (made status pages : ℕ) (flow : MetronomeFlow)
        (before stretch : List KeptCall) (mid ready new : Result OwnHeap Status) (words was left told : ℕ)
        → Creates IsOwnOf (Err Closed) s (Ok (holds.Own h)) made → KeepsOwn (Ok (touched_held h pages)) flow (Ok k) status
        → status ≡ status_number Done → KeptCalls (Ok k) before mid → PreparesOpen mid words ready was left told
        → told ≡ status_number Done → left ≡ 0 → KeptCalls ready stretch new → AreFree words stretch }
    ensures soon_touched { (s : Settings) (h k : OwnHeap) (made status pages : ℕ) (flow : MetronomeFlow)
        (before row : List KeptCall) (mid ready new : Result OwnHeap Status) (words was left told : ℕ)
        → Creates IsOwnOf (Err Closed) s (Ok (holds.Own h)) made → KeepsOwn (Ok (touched_held h pages)) flow (Ok k) status
        → status ≡ status_number Done → KeptCalls (Ok k) before mid → PreparesOpen mid words ready was left told
        → told ≡ status_number Done → PrepareFor words row → left ≤ length row → KeptCalls ready row new
        → EndsSoon (touched_held h pages) flow before words left row }
{}

/// A plan that C was told for settings is kept by a heap that was just made of them, and by one that was touched since. The
/// plan lasts there with room for the object for which the program asked.
pub fn plans_are_kept()
    ensures kept { (s : Settings) (h : OwnHeap) (made told : ℕ) (live largest : ℕ) (before flow : MetronomeFlow)
        → TellsPlan s live largest before flow told → told ≡ status_number Done
        → Creates IsOwnOf (Err Closed) s (Ok (holds.Own h)) made → CanKeep h flow }
    ensures lasts { (s : Settings) (h : OwnHeap) (made told : ℕ) (live largest : ℕ) (before flow : MetronomeFlow)
        → TellsPlan s live largest before flow told → told ≡ status_number Done
        → Creates IsOwnOf (Err Closed) s (Ok (holds.Own h)) made → LastsWith h.config (plan_in flow) flow.live_words largest }
    ensures touched { (s : Settings) (h : OwnHeap) (made told pages : ℕ) (live largest : ℕ) (before flow : MetronomeFlow)
        → TellsPlan s live largest before flow told → told ≡ status_number Done
        → Creates IsOwnOf (Err Closed) s (Ok (holds.Own h)) made → CanKeep (touched_held h pages) flow }
{}

/// The limit of a configuration, which C is told, is that of a heap that was made of it. The units of a cycle are within it.
/// One of this number of quanta of the schedule ends the cycle.
pub fn limits_are_those_of_heaps()
    ensures units { (c : Config) (h : HeapState) → IsOpening h → settings_of h ≡ settings_by c
        → (limit_of c).units ≡ cycle_limit h }
    ensures quanta { (c : Config) (h : HeapState) → IsOpening h → settings_of h ≡ settings_by c
        → (limit_of c).quanta ≡ most_quanta h (c.collector_ticks * c.rate) }
{}

/// The order of the statuses. A number stands for the first status that has it.
pub fn statuses_are_in_order()
    ensures { all_statuses ≡ Done ∷ Refused refusals.BadSlot ∷ Refused refusals.NullSlot
        ∷ Refused refusals.BadIndex ∷ Refused refusals.WrongKind ∷ Refused refusals.TooLarge
        ∷ Refused refusals.IdentitiesSpent
        ∷ Refused refusals.NoSpace ∷ Refused refusals.BadStatic ∷ NoMemory ∷ Busy ∷ BudgetOutOfRange
        ∷ Refused refusals.NotLive ∷ Refused refusals.AlreadyLive ∷ Closed ∷ Open ∷ ScheduleOutOfRange ∷ BadHandle
        ∷ SettingOutOfRange keys.Pages ∷ SettingOutOfRange keys.Mutators ∷ SettingOutOfRange keys.Slots
        ∷ SettingOutOfRange keys.Statics ∷ SettingOutOfRange keys.Identities ∷ SettingOutOfRange keys.DefragBelow
        ∷ SettingOutOfRange keys.DefragPages ∷ SettingOutOfRange keys.CollectorTicks
        ∷ SettingOutOfRange keys.MutatorTicks ∷ SettingOutOfRange keys.Rate ∷ SettingOutOfRange keys.Live
        ∷ OtherVersion ∷ Taken ∷ Inside ∷ Outside ∷ NotYours ∷ NoPlan ∷ AbovePlan ∷ NoMutator ∷ SlotsUsed
        ∷ OtherMutator ∷ NotShared ∷ IsShared ∷ InUse ∷ [] }
{}

/// The check words of a handle that holds a heap of its own, and of one that holds a member of a shared heap. Memory that nothing
/// set hardly has them by chance.
pub fn the_check_words_are_fixed()
    ensures own { OWN_CHECK_WORD ≡ 5567949226808069965 }
    ensures shared { SHARED_CHECK_WORD ≡ 5567949226874585428 }
{}
