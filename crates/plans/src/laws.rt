//! Laws of a program's time under a plan. Each function does nothing: its contract is the law.
ghost use Rattle.std.specs.Prelude.{◌≡◌, ℕ, ◌≤◌, Bool, List, Some};
ghost use Rattle.std.specs.List.{AllByRecursion};
ghost use Rattle.size_classes.specs.declared.config.Config.{Config};
ghost use Rattle.size_classes.specs.declared.config.TheConstants.{MOST_HEAP_PAGES};
ghost use Rattle.paced.specs.declared.plan.Plan.{Plan};
ghost use Rattle.paced.specs.Bounds.{LastsWith};
ghost use Rattle.plans.specs.declared.needs.Needs.{Needs};
ghost use Rattle.plans.specs.Report.{FastestOn};
ghost use Rattle.plans.specs.Utilisation.{TimedDeed, TakesAtMost, Window, AsksAtMost, IsPaced, Share, IsAtMost, KeepsShare};
ghost use Rattle.plans.specs.Waits.{room_of, permille_of};

/// A program that asks for few words waits little. In a window in which it runs for T, it asks for at most a(T) words of
/// blocks. So it waits there for at most a(T) / `quantum_words` quanta, rounded up. It has at least T of T and the time of
/// these quanta. This holds for each window of a run on a paced heap, if the plan lasts with room for the largest object, and
/// live objects keep to the plan whenever a cycle begins.
pub fn programs_keep_their_share()
    ensures { (config : Config) (plan : Plan) (live largest longest : ℕ) (most : ℕ → ℕ) (run : List TimedDeed)
        → LastsWith config plan live largest → IsPaced config plan live largest run → AllByRecursion (TakesAtMost longest) run
        → AsksAtMost most run → (w : Window run) → KeepsShare plan (most w.own) longest w }
{}

/// Each plan of the report lasts with room for the largest object that its lines name, so that the law above holds under it. This
/// object is no smaller than the one for which the plan was to have room. A share in thousandths is no greater than the share.
pub fn told_shares_are_kept()
    ensures room { (makes : ℕ → Bool) (config : Config) (needs : Needs) (pages : ℕ)
        (of : FastestOn makes config needs pages) (plan : Plan) → pages ≤ MOST_HEAP_PAGES → of.plan ≡ Some plan
        → LastsWith of.on plan needs.live (room_of of.on needs.live plan)
        × (needs.largest ≤ room_of of.on needs.live plan) }
    ensures permille { (share : Share) → IsAtMost (record { own = permille_of share; all = 1000 }) share }
{}
