//! Small histories that a pool may have (docs/MODEL.md, "The history of a pool").
ghost use Rattle.std.specs.Prelude.{◌≡◌, ℕ, ◌≤◌, Bool, true, false, List, [], ◌∷◌, ◌++◌};
ghost use Rattle.label_store.specs.declared.member.Member.{Member};
ghost use Rattle.sha2.specs.Sha256.{sha256};
ghost use Rattle.label_store.specs.declared.uberblock.Uberblock.{Uberblock};
ghost use Rattle.label_store.specs.Records.{AreUnhurt};
ghost use Rattle.label_store.specs.Rounds.{config_of};
ghost use Rattle.label_store.specs.Seats.{AreApart};
ghost use Rattle.txg_history.specs.Branches.{Branch, IsDay, day_until_round, stopped_day, stop_and_open, FindsJust};
ghost use Rattle.txg_history.specs.Calm.{stable_of};
ghost use Rattle.txg_history.specs.Premises.{AreOwnConfigs};
ghost use Rattle.txg_history.specs.Events.{Event, Draws};
ghost use Rattle.txg_history.specs.Moves.{MayFreeze, IsLeafOf, IsDrawnUp, Mays};
ghost use Rattle.txg_history.specs.Pages.{Codec};
ghost use Rattle.txg_history.specs.Pools.{Pool, drawn, seat, pool_after};
ghost use Rattle.txg_history.specs.Records.{Rec, Cells, IsIn, number_of};
ghost use Rattle.txg_history.specs.Rounds.{all_true, IsRoundEvents};
ghost use Rattle.txg_history.specs.Small.{numbered, small_codec, small_pool, small_second, small_history, small_stopped};
ghost use Rattle.txg_history.specs.Survival.{Survives};
ghost use Rattle.txg_history.specs.Turns.{AreJust, OnBoard};
ghost use Rattle.txg_history.specs.Weeks.{IsWeek, resilver, suspended};

/// Small histories are allowed, and end as they should. It computes nothing: its clauses are tests of the moves.
///
/// `week`: a leaf is away from the commit of a block, owes its group, comes back, and a resilver copies the block and the pages
/// above it and clears its log. `suspends`: a leaf fails in a group, a further number is drawn, and the group is suspended: each leaf's log is
/// as it was. `further`: a leaf fails in a round, a further number is drawn, and a round of the same keys follows over the
/// leaves that are left. `day`: a block is written and committed with a page above it on each level, the machine stops, and an
/// opening finds the record with the block. Its premises hold where no label sector of the leaf is damaged, no opening before missed a
/// record, and no configuration there has the sum of another. `whole`: such a day of a pool that was just made on one device of zeros, through
/// its first commit, with nothing assumed: each call, record, page and configuration of it is written down.
pub fn small_histories_are_allowed()
    ensures week { (c : Codec) (p : Pool) (a b : ℕ) (branch : Branch) (q : Rec) (vs : List Event) → IsWeek c p a b branch
        → IsDrawnUp c (pool_after (day_until_round a branch) p) q
        → IsLeafOf (pool_after (day_until_round a branch) p) q b
        → IsRoundEvents (pool_after (day_until_round a branch) p).size q (seat (pool_after (day_until_round a branch) p) a ∷ []) (true ∷ []) vs
        → Mays c p (day_until_round a branch ++ (vs ++ resilver b (number_of q) branch))
        × ((pool_after (day_until_round a branch ++ vs) p).owes b branch.birth ≡ true)
        × ((pool_after (day_until_round a branch ++ (vs ++ resilver b (number_of q) branch)) p).owes b branch.birth ≡ false) }
    ensures day { (c : Codec) (p : Pool) (a : ℕ) (b : Branch) (q : Rec) (vs : List Event) (size : ℕ → ℕ) → IsDay c p a b
        → IsDrawnUp c (pool_after (day_until_round a b) p) q
        → IsRoundEvents (pool_after (day_until_round a b) p).size q (seat (pool_after (day_until_round a b) p) a ∷ []) (true ∷ []) vs
        → Mays c p (day_until_round a b ++ (vs ++ stop_and_open q size (pool_after vs (pool_after (day_until_round a b) p))))
        × (p.missed ≡ [] → AreUnhurt ((stopped_day a b vs size p).size a) ((stopped_day a b vs size p).sectors a)
        → AreOwnConfigs c.head_of (stopped_day a b vs size p) (stable_of (stopped_day a b vs size p))
        → FindsJust c (stopped_day a b vs size p) q (b.bytes 0)) }
    ensures whole { Mays small_codec small_pool small_history × FindsJust small_codec small_stopped small_second (numbered 1) }
    ensures suspends { (c : Codec) (p : Pool) (cells : Cells) (board : ℕ → Bool) (d : ℕ) → Survives c p → MayFreeze c p cells board
        → Mays c p (suspended cells board d)
        × ((e g : ℕ) → p.member e ≡ true → 1 ≤ p.in_top e → (pool_after (suspended cells board d) p).owes e g ≡ p.owes e g) }
    ensures further { (c : Codec) (p : Pool) (q again : Rec) (members left : List Member) (results others : List Bool) (vs more : List Event)
        → Survives c p → IsDrawnUp c p q → AreJust p (OnBoard p) members → AreApart members
        → IsRoundEvents p.size q members results vs → all_true results ≡ false
        → IsDrawnUp c (pool_after (vs ++ Draws ∷ []) p) again → AreJust (pool_after (vs ++ Draws ∷ []) p)
        (OnBoard (pool_after (vs ++ Draws ∷ []) p)) left → AreApart left
        → IsRoundEvents (pool_after (vs ++ Draws ∷ []) p).size again left others more → Mays c p ((vs ++ Draws ∷ []) ++ more) }
{}
