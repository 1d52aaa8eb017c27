//! How few pages each class has once blocks were moved: the laws. Each function does nothing: its contract is the law.
#![tactic(auto)]

ghost use Rattle.std.specs.Prelude.{◌≡◌, ℕ, ◌+◌, ◌*◌, ◌<◌, ◌≤◌, true, false, List, Option, Some, length};
ghost use Rattle.graph_heap.specs.declared.command.Change.{Change};
ghost use Rattle.graph_heap.specs.Graph.{Graph};
ghost use Rattle.size_classes.specs.declared.class.TheConstants.{CLASSES};
ghost use Rattle.size_classes.specs.Sizes.{size_of, blocks_in};
ghost use Rattle.size_classes.specs.declared.config.Config.{Config};
ghost use Rattle.size_classes.specs.declared.config.TheConstants.{LEAST_BUDGET};
ghost use Rattle.heap_model.specs.declared.phase.Phase.TheVariants as phases;
ghost use Rattle.heap_model.specs.declared.phase.Moving.TheVariants as moves;
ghost use Rattle.heap_model.specs.declared.phase.Candidate.{Candidate};
ghost use Rattle.heap_model.specs.Pages.{Page, ArePages, free_blocks, whole_pages};
ghost use Rattle.heap_model.specs.State.{HeapState};
ghost use Rattle.heap_model.specs.Action.{Action, is_chosen};
ghost use Rattle.heap_model.specs.Marks.{AreClosed};
ghost use Rattle.heap_model.specs.Change.{DoesChange};
ghost use Rattle.heap_model.specs.Represents.{is_sweeping};
ghost use Rattle.heap_model.specs.Settings.{settings_of, settings_by};
ghost use Rattle.heap_model.specs.Opening.{IsOpening};
ghost use Rattle.heap_model.specs.Event.{Course, Event, Runs, HaveBudgets};
ghost use Rattle.heap_model.specs.Phases.{awaits_sweep_end};
ghost use Rattle.heap_model.specs.ReachedFrom.{opened};
ghost use Rattle.space.specs.Counts.{main_blocks};
ghost use Rattle.space.specs.Tally.{EveryNewFindsRoom};
ghost use Rattle.space.specs.Room.{AllHaveRoom};
ghost use Rattle.space.specs.Lasting.{LastsAtMost};
ghost use Rattle.space.specs.Pace.{in_cycle};
ghost use Rattle.space.specs.Space.{pages_for, spare_of, below_of};
ghost use Rattle.fragmentation.specs.Tight.{IsTight, staying_pages};
ghost use Rattle.fragmentation.specs.Gathering.{IsGathering, AreTight};
ghost use Rattle.fragmentation.specs.Configured.{MovesAll, FitsTogether, FlowFitsIn};
ghost use Rattle.fragmentation.specs.Season.{Lives, opening_season, AllKeep};
ghost use Rattle.fragmentation.specs.declared.flow.TheConstants.{LEAST_PAGE_FILL};
ghost use Rattle.fragmentation.specs.Flow.{Flow, opening_meter, meter_after, KeepsFlow, AllMetered, FlowFits, traced_words, sweep_quanta, flow_quanta};
ghost use Rattle.fragmentation.specs.Suffice.{GathersAll, WithinPages, WithinBlocks, sparse_pages, pages_of, PageDemand, demand_pages, WithinPageDemand};

mod flow;

pub use flow::{LEAST_PAGE_FILL, PARTLY_FILLED_PAGES};

/// A tight class has as few pages that aren't evacuating as its allocated blocks on them need.
pub fn tight_pages_are_fewest()
    ensures { (pages : List (Option Page)) (class : ℕ) → class < CLASSES → ArePages pages → IsTight pages class
        → staying_pages pages class ≡ whole_pages class (main_blocks pages class) }
{}

/// A page is chosen only if as many blocks of its class are free as a page has.
pub fn chosen_has_a_page_free()
    ensures { (pages : List (Option Page)) (class : ℕ) (c : Candidate) → ArePages pages
        → is_chosen pages class (Some c) ≡ true → blocks_in class ≤ free_blocks pages class }
{}

/// Each action keeps how far a sweep, or moving, has come.
pub fn actions_gather()
    ensures { (h after : HeapState) (cost : ℕ) → ArePages h.store.pages → AreClosed h.store.pages h.phase
        → IsGathering h.store.pages (length h.store.pages) h.phase → Action h cost after
        → IsGathering after.store.pages (length after.store.pages) after.phase }
{}

/// So does each change that a command makes.
pub fn changes_gather()
    ensures { (h after : HeapState) (g : Graph) (c : Change) → ArePages h.store.pages
        → IsGathering h.store.pages (length h.store.pages) h.phase → DoesChange h g c after
        → IsGathering after.store.pages (length after.store.pages) after.phase }
{}

/// A tight class stays tight through each action outside a sweep, and through each change.
pub fn tight_classes_stay()
    ensures action { (h after : HeapState) (cost class : ℕ) → ArePages h.store.pages → is_sweeping h.phase ≡ false
        → Action h cost after → IsTight h.store.pages class → IsTight after.store.pages class }
    ensures change { (h after : HeapState) (g : Graph) (c : Change) (class : ℕ) → ArePages h.store.pages
        → DoesChange h g c after → IsTight h.store.pages class → IsTight after.store.pages class }
{}

/// When moving has gone over all classes, each is tight.
pub fn moving_ends_tight()
    ensures { (h : HeapState) (page chosen : ℕ) (best : Option Candidate)
        → IsGathering h.store.pages (length h.store.pages) h.phase
        → h.phase ≡ phases.Moving (moves.Pass CLASSES page best chosen) → AreTight h.store.pages CLASSES }
{}

/// The space bound for a demand that shifts. Take a run of events from an opening heap that moves after each sweep and
/// may empty as many pages as it has. If at each command there are as many pages as its season takes, no new object is
/// refused for lack of space. A season counts the need up to the last sweep's end since the cycle before began, and the
/// blocks made since.
pub fn moving_suffices()
    ensures { (h : HeapState) (es : List Event) (new : Course) (live : Lives) → IsOpening h → 0 < length h.store.pages
        → GathersAll h → Runs (opened h) es new
        → AllKeep (WithinPages (length h.store.pages)) live (opening_season h.limits) es → EveryNewFindsRoom es }
{}

/// The space bound for a demand in pages, in a heap that moves after each sweep and may empty as many pages as it has.
/// The demand limits two numbers of pages: those that live objects take whenever a cycle begins, and those of objects
/// made from then, or from the start, to the end of the next cycle's sweep, with the one requested. The pages of live
/// objects, twice those made, and one for each class suffice. Then no new object is refused for lack of space, whatever
/// the sizes of objects are, and however these change.
pub fn page_demand_suffices()
    ensures { (h : HeapState) (es : List Event) (new : Course) (b : PageDemand) (live : Lives) → IsOpening h
        → 0 < length h.store.pages → GathersAll h → Runs (opened h) es new
        → ((n : ℕ) → pages_of (live n) ≤ b.live) → AllKeep (WithinPageDemand b) live (opening_season h.limits) es
        → demand_pages b ≤ length h.store.pages → EveryNewFindsRoom es }
{}

/// The blocks of a page have at least `LEAST_PAGE_FILL` words, whatever its class; in one class they have exactly as
/// many.
pub fn pages_have_words()
    ensures least { (class : ℕ) → class < CLASSES → LEAST_PAGE_FILL ≤ size_of class * blocks_in class }
    ensures attained { (class : ℕ) × (class < CLASSES) × (size_of class * blocks_in class ≡ LEAST_PAGE_FILL) }
{}

/// In a heap that moves after each sweep and may empty as many pages as it has, no new object is refused for lack of
/// space in a run that keeps to a flow which fits. A flow limits three numbers of words, over all size classes together.
/// They are the words live whenever a cycle begins, those requested for each quantum of at least k units until a cycle's
/// sweep ends, and those requested from one cycle's beginning to the next. The sizes of objects may be any, and may
/// shift.
pub fn flow_suffices()
    ensures { (h : HeapState) (es : List Event) (new : Course) (f : Flow) (k : ℕ) → 0 < k → IsOpening h
        → 0 < length h.store.pages → GathersAll h → Runs (opened h) es new
        → AllMetered k (KeepsFlow f) (opening_meter h.limits) es → FlowFits f k h → EveryNewFindsRoom es }
{}

/// The most quanta of a cycle in a run that keeps to a flow, with quanta of at least k units. A cycle takes
/// `sweep_quanta` to its sweep's end. It takes `flow_quanta` as a whole, if it makes no more words to its sweep's end
/// than may be made until the next cycle. Marking and moving take no more words than live and made objects have, however
/// many pages there are. Moving spends on a page either a look at every page, if it is chosen, or the words that go
/// there. If smaller quanta are done as well, those of k units or more still keep to these numbers.
pub fn flow_cycles_end()
    ensures sweep { (h : HeapState) (es : List Event) (new : Course) (f : Flow) (k : ℕ) → LEAST_BUDGET ≤ k → IsOpening h
        → 0 < length h.store.pages → Runs (opened h) es new
        → AllMetered k (KeepsFlow f) (opening_meter h.limits) es → HaveBudgets k es
        → traced_words f (sweep_quanta f (length h.roots) (length h.store.pages) k) ≤ f.cycle_words
        → LastsAtMost awaits_sweep_end (sweep_quanta f (length h.roots) (length h.store.pages) k) 0 es }
    ensures cycle { (h : HeapState) (es : List Event) (new : Course) (f : Flow) (k : ℕ) → LEAST_BUDGET ≤ k → IsOpening h
        → 0 < length h.store.pages → Runs (opened h) es new
        → AllMetered k (KeepsFlow f) (opening_meter h.limits) es → HaveBudgets k es
        → traced_words f (sweep_quanta f (length h.roots) (length h.store.pages) k) ≤ f.cycle_words
        → LastsAtMost in_cycle (flow_quanta f (length h.roots) (length h.store.pages) k) 0 es }
    ensures counted { (h : HeapState) (es : List Event) (new : Course) (f : Flow) (k : ℕ) → LEAST_BUDGET ≤ k → IsOpening h
        → 0 < length h.store.pages → Runs (opened h) es new
        → AllMetered k (KeepsFlow f) (opening_meter h.limits) es
        → traced_words f (sweep_quanta f (length h.roots) (length h.store.pages) k) ≤ f.cycle_words
        → in_cycle new.heap.phase ≡ true → (meter_after k (opening_meter h.limits) es).quanta
        < flow_quanta f (length h.roots) (length h.store.pages) k }
{}

/// The space bound for a joint demand, whatever moves. At each command, the demand limits three kinds of blocks together
/// in each class: those that were live when the cycle began whose sweep ended last, those made since, and those
/// requested. If there are as many pages as these numbers take, no new object is refused for lack of space.
pub fn joint_suffices()
    ensures { (h : HeapState) (es : List Event) (new : Course) (blocks : ℕ → ℕ) (live : Lives) → IsOpening h
        → 0 < length h.store.pages → Runs (opened h) es new
        → AllKeep (WithinBlocks blocks live) live (opening_season h.limits) es
        → pages_for blocks (spare_of h) CLASSES ≤ length h.store.pages → EveryNewFindsRoom es }
{}

/// The same bound without moving: as many pages stay free besides those of the blocks as moving begins below. Then no
/// sweep is followed by moving, and no page is left sparse.
pub fn joint_suffices_unmoved()
    ensures { (h : HeapState) (es : List Event) (new : Course) (blocks : ℕ → ℕ) (live : Lives) → IsOpening h
        → 0 < length h.store.pages → Runs (opened h) es new
        → AllKeep (WithinBlocks blocks live) live (opening_season h.limits) es
        → pages_for blocks 0 CLASSES + below_of h ≤ length h.store.pages → EveryNewFindsRoom es }
{}

/// The same bound with fewer pages, however many a cycle may empty. Each class with a page's blocks or more takes one
/// page more than its blocks, and all classes together take as many more as a cycle may empty.
pub fn sparse_suffices()
    ensures { (h : HeapState) (es : List Event) (new : Course) (blocks : ℕ → ℕ) (live : Lives) → IsOpening h
        → 0 < length h.store.pages → Runs (opened h) es new
        → AllKeep (WithinBlocks blocks live) live (opening_season h.limits) es
        → sparse_pages blocks + spare_of h ≤ length h.store.pages → EveryNewFindsRoom es }
{}

/// In a heap of a configuration, no reply of a run is the refusal for lack of space if the run keeps to a joint demand
/// that fits. The same holds if each cycle gathers every class, and the run keeps within the configuration's pages, to a
/// demand in pages for which the configuration has enough, or to a flow that fits.
pub fn configured_pages_suffice()
    ensures joint { (config : Config) (h : HeapState) (es : List Event) (new : Course) (blocks : ℕ → ℕ) (live : Lives)
        → 1 ≤ config.pages → IsOpening h → settings_of h ≡ settings_by config → Runs (opened h) es new
        → AllKeep (WithinBlocks blocks live) live (opening_season h.limits) es → FitsTogether config blocks
        → AllHaveRoom es }
    ensures moving { (config : Config) (h : HeapState) (es : List Event) (new : Course) (live : Lives)
        → 1 ≤ config.pages → IsOpening h → settings_of h ≡ settings_by config → MovesAll config → Runs (opened h) es new
        → AllKeep (WithinPages config.pages) live (opening_season h.limits) es → AllHaveRoom es }
    ensures page_demand { (config : Config) (h : HeapState) (es : List Event) (new : Course) (b : PageDemand)
        (live : Lives)
        → 1 ≤ config.pages → IsOpening h → settings_of h ≡ settings_by config → MovesAll config → Runs (opened h) es new
        → ((n : ℕ) → pages_of (live n) ≤ b.live) → AllKeep (WithinPageDemand b) live (opening_season h.limits) es
        → demand_pages b ≤ config.pages → AllHaveRoom es }
    ensures flow { (config : Config) (h : HeapState) (es : List Event) (new : Course) (f : Flow) → 1 ≤ config.pages
        → LEAST_BUDGET ≤ config.collector_ticks * config.rate → IsOpening h → settings_of h ≡ settings_by config
        → MovesAll config → Runs (opened h) es new
        → AllMetered (config.collector_ticks * config.rate) (KeepsFlow f) (opening_meter h.limits) es
        → FlowFitsIn config f → AllHaveRoom es }
{}
