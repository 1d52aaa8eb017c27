//! The laws of logs that members share. Each function does nothing: its contract is the law.
ghost use Rattle.std.specs.Prelude.{◌≡◌, ◌%◌, ℕ, true, List, [], ◌∷◌, Some, Ok};
ghost use Rattle.std.specs.List.{All};
ghost use Rattle.graph_heap.specs.Merge.{IsMerge};
ghost use Rattle.atomic_table.specs.Table.{opening};
ghost use Rattle.heap_model.specs.Event.{Event};
ghost use Rattle.heap_shared.specs.declared.deed.Deed.{Deed};
ghost use Rattle.heap_shared.specs.declared.rule.Account.{Account};
ghost use Rattle.heap_shared.specs.declared.shared_heap.SharedConfig.{SharedConfig};
ghost use Rattle.heap_shared.specs.Accounts.{BearsOut, AreBelow, history_by};
ghost use Rattle.heap_shared.specs.Members.{MemberView, Enters, Leaves, Places, DoesInTurn};
ghost use Rattle.heap_shared.specs.Merged.{Covers, called_by, CoverAll, deeds_of, deeds_by};
ghost use Rattle.heap_shared.specs.Ring.{Ringed};
ghost use Rattle.heap_shared.specs.Turns.{Keeps, newcomer};

/// If a log bears out accounts, and each mutator belongs to one of them, the log's history is a merge of the commands that the
/// accounts have.
pub fn histories_merge()
    ensures { (mutators : ℕ) (log : List Deed) (accounts : List Account) → All (BearsOut log) accounts → AreBelow mutators log
        → Covers mutators accounts
        → IsMerge (history_by log) (called_by mutators accounts) }
{}

/// If a log bears out accounts, and each number belongs to one of them, the log is a merge of the deeds that the accounts have:
/// each member's deeds in it are those of its account, in their order.
pub fn logs_merge()
    ensures { (log : List Deed) (accounts : List Account) → All (BearsOut log) accounts → CoverAll accounts
        → (n : ℕ) → deeds_of n log ≡ deeds_by accounts n }
{}

/// If one account has all numbers, its member alone did deeds: the log is the part that it has seen.
pub fn nothing_is_done_between()
    ensures { (log : List Deed) (a : Account) → BearsOut log a → a.number ≡ 0 → a.step ≡ 1 → log ≡ a.seen }
{}

/// No event can be hidden. A member that does one as it enters or leaves contradicts the contract of that call. So does a member
/// that does one in a turn of its own before it enters or looks at the place, or in a heap that it just made. No event may come
/// before the rule of the word begins, either.
pub fn no_event_is_hidden()
    ensures entering { (event : Event) (old mid new : MemberView) → DoesInTurn (λ e. e) mid (Some event) new
        → Enters old (Ok tt) new → ⊥ }
    ensures leaving { (event : Event) (old mid new : MemberView) → DoesInTurn (λ e. e) old (Some event) mid
        → Leaves mid true new → Leaves old true new → ⊥ }
    ensures between { (event : Event) (old inside did left new : MemberView) → old.number % old.step ≡ old.number
        → Enters old (Ok tt) inside → DoesInTurn (λ e. e) inside (Some event) did → Leaves did true left
        → Enters left (Ok tt) new → Enters old (Ok tt) new → ⊥ }
    ensures looking { (event : Event) (old inside did left new : MemberView) (n : ℕ) → old.number % old.step ≡ old.number
        → Enters old (Ok tt) inside → DoesInTurn (λ e. e) inside (Some event) did → Leaves did true left
        → Places left (Some n) new → Places old (Some n) new → ⊥ }
    ensures made { (event : Event) (old inside did left : MemberView) → old.number % old.step ≡ old.number
        → Enters old (Ok tt) inside → DoesInTurn (λ e. e) inside (Some event) did → Leaves did true left
        → left.seen ≡ [] → ⊥ }
    ensures opening { (config : SharedConfig) (words : List ℕ) (heap : Ringed)
        → Keeps config (opening words (heap ∷ []) (newcomer config)) → heap.events ≡ [] }
{}
