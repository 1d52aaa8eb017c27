//! The laws of the space bound. Each function does nothing: its contract is the law.
ghost use Rattle.std.specs.Prelude.{◌≡◌, ℕ, ◌+◌, ◌*◌, ◌<◌, ◌≤◌, List, length};
ghost use Rattle.graph_heap.specs.declared.command.Command.{Command};
ghost use Rattle.graph_heap.specs.Graph.{Graph};
ghost use Rattle.size_classes.specs.declared.config.Config.{Config};
ghost use Rattle.size_classes.specs.declared.config.TheConstants.{LEAST_BUDGET};
ghost use Rattle.heap_model.specs.State.{HeapState};
ghost use Rattle.heap_model.specs.Settings.{settings_of, settings_by};
ghost use Rattle.heap_model.specs.Opening.{IsOpening};
ghost use Rattle.heap_model.specs.Event.{Course, Event, Runs, HaveBudgets};
ghost use Rattle.heap_model.specs.ReachedFrom.{opened};
ghost use Rattle.space.specs.Demand.{Demand, asked_for};
ghost use Rattle.space.specs.Tally.{opening_tally, AllKeepTo, EveryNewFindsRoom};
ghost use Rattle.space.specs.Pace.{Pace, in_cycle, opening_beat, AllKeepPace, moved_quanta, unmoved_quanta, demand_of};
ghost use Rattle.space.specs.Space.{space_for, spare_of, below_of};
ghost use Rattle.heap_model.specs.Phases.{awaits_sweep_end};
ghost use Rattle.space.specs.Lasting.{LastsAtMost};
ghost use Rattle.space.specs.Fitting.{Fits, FitsIn, moved_quanta_at, unmoved_quanta_at};
ghost use Rattle.space.specs.Room.{asks, AllHaveRoom};

/// The space bound. If a run of events from an opening heap keeps to a demand, and there are as many pages as the
/// demand takes, then no new object is refused for lack of space.
pub fn space_suffices()
    ensures { (h : HeapState) (es : List Event) (new : Course) (d : Demand) → IsOpening h → 0 < length h.store.pages
        → Runs (opened h) es new → AllKeepTo d (opening_tally h.limits) es
        → space_for d (spare_of h) ≤ length h.store.pages → EveryNewFindsRoom es }
{}

/// The space bound without moving. No new object is refused either, if as many pages stay free besides those of the
/// demand as moving begins below: then no sweep is followed by moving, and no page is left sparse.
pub fn space_suffices_unmoved()
    ensures { (h : HeapState) (es : List Event) (new : Course) (d : Demand) → IsOpening h → 0 < length h.store.pages
        → Runs (opened h) es new → AllKeepTo d (opening_tally h.limits) es
        → space_for d 0 + below_of h ≤ length h.store.pages → EveryNewFindsRoom es }
{}

/// A run that keeps to a pace keeps to a demand. A cycle has a limited number of quanta, so the requested blocks add up
/// to at most those of two cycles' quanta, and of the time between two cycles.
pub fn paces_are_demands()
    ensures { (h : HeapState) (es : List Event) (new : Course) (p : Pace) (k : ℕ) → LEAST_BUDGET ≤ k → IsOpening h
        → 0 < length h.store.pages → Runs (opened h) es new → AllKeepPace p k (opening_beat h.limits) es
        → AllKeepTo (demand_of p (moved_quanta h k)) (opening_tally h.limits) es }
{}

/// So no new object is refused for lack of space in a run that keeps to a pace, if there are as many pages as the pace
/// takes.
pub fn space_suffices_at_a_pace()
    ensures { (h : HeapState) (es : List Event) (new : Course) (p : Pace) (k : ℕ) → LEAST_BUDGET ≤ k → IsOpening h
        → 0 < length h.store.pages → Runs (opened h) es new → AllKeepPace p k (opening_beat h.limits) es
        → space_for (demand_of p (moved_quanta h k)) (spare_of h) ≤ length h.store.pages → EveryNewFindsRoom es }
{}

/// If as many pages stay free besides those of a pace as moving begins below, no sweep is followed by moving. Then each
/// quantum that doesn't end its cycle spends its whole budget. So a run that keeps to the pace keeps to a smaller demand,
/// and no new object is refused for lack of space.
pub fn space_suffices_at_an_unmoved_pace()
    ensures demand { (h : HeapState) (es : List Event) (new : Course) (p : Pace) (k : ℕ) → LEAST_BUDGET ≤ k
        → IsOpening h → 0 < length h.store.pages → Runs (opened h) es new → AllKeepPace p k (opening_beat h.limits) es
        → space_for (demand_of p (unmoved_quanta h k)) 0 + below_of h ≤ length h.store.pages
        → AllKeepTo (demand_of p (unmoved_quanta h k)) (opening_tally h.limits) es }
    ensures room { (h : HeapState) (es : List Event) (new : Course) (p : Pace) (k : ℕ) → LEAST_BUDGET ≤ k
        → IsOpening h → 0 < length h.store.pages → Runs (opened h) es new → AllKeepPace p k (opening_beat h.limits) es
        → space_for (demand_of p (unmoved_quanta h k)) 0 + below_of h ≤ length h.store.pages
        → EveryNewFindsRoom es }
{}

/// A command requests no more blocks than its shape needs, and none if that is too large, whatever the heap is.
pub fn commands_ask_for_their_shapes()
    ensures { (g : Graph) (m : ℕ) (c : Command) (class : ℕ) → asked_for g m c class ≤ asks c class }
{}

/// Commands other than `New` are never refused for lack of space: if there is no `New`, no reply is that refusal.
pub fn only_new_needs_room()
    ensures { (r new : Course) (es : List Event) → Runs r es new → EveryNewFindsRoom es → AllHaveRoom es }
{}

/// In a heap of a configuration, no reply of a run is the refusal for lack of space, if the run keeps to a demand that
/// fits the configuration, or to a pace that fits in its pages.
pub fn configured_space_suffices()
    ensures demand { (config : Config) (h : HeapState) (es : List Event) (new : Course) (d : Demand) → 1 ≤ config.pages
        → IsOpening h → settings_of h ≡ settings_by config → Runs (opened h) es new
        → AllKeepTo d (opening_tally h.limits) es → Fits config d → AllHaveRoom es }
    ensures pace { (config : Config) (h : HeapState) (es : List Event) (new : Course) (p : Pace) → 1 ≤ config.pages
        → LEAST_BUDGET ≤ config.collector_ticks * config.rate → IsOpening h
        → settings_of h ≡ settings_by config → Runs (opened h) es new
        → AllKeepPace p (config.collector_ticks * config.rate) (opening_beat h.limits) es → FitsIn config p config.pages
        → AllHaveRoom es }
{}

/// In a heap of a configuration whose quanta have at least the schedule's budget, a cycle lasts `moved_quanta_at` quanta
/// at most, and `unmoved_quanta_at` up to its sweep's end.
pub fn cycles_end()
    ensures cycle { (config : Config) (h : HeapState) (es : List Event) (new : Course) → 1 ≤ config.pages
        → LEAST_BUDGET ≤ config.collector_ticks * config.rate → IsOpening h → settings_of h ≡ settings_by config
        → Runs (opened h) es new → HaveBudgets (config.collector_ticks * config.rate) es
        → LastsAtMost in_cycle (moved_quanta_at config config.pages config.defrag_pages) 0 es }
    ensures sweep { (config : Config) (h : HeapState) (es : List Event) (new : Course) → 1 ≤ config.pages
        → LEAST_BUDGET ≤ config.collector_ticks * config.rate → IsOpening h → settings_of h ≡ settings_by config
        → Runs (opened h) es new → HaveBudgets (config.collector_ticks * config.rate) es
        → LastsAtMost awaits_sweep_end (unmoved_quanta_at config config.pages) 0 es }
{}
