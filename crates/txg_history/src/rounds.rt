//! Which rounds a pool may make, and what they leave (docs/MODEL.md, "The history of a pool").
ghost use Rattle.std.specs.Prelude.{◌≡◌, ℕ, Bool, List, Option};
ghost use Rattle.bank_core.specs.Disk.{Noted};
ghost use Rattle.label_store.specs.declared.member.Member.{Member};
ghost use Rattle.label_store.specs.Rounds.{IsRound};
ghost use Rattle.label_store.specs.Seats.{AreApart};
ghost use Rattle.txg_history.specs.Events.{Event, calls_of};
ghost use Rattle.txg_history.specs.Moves.{IsDrawnUp, Mays};
ghost use Rattle.txg_history.specs.Pages.{Codec};
ghost use Rattle.txg_history.specs.Pools.{Pool, pool_after};
ghost use Rattle.txg_history.specs.Records.{Rec};
ghost use Rattle.txg_history.specs.Rounds.{all_true, IsRoundEvents, RoundEnds};
ghost use Rattle.txg_history.specs.Survival.{Survives};
ghost use Rattle.txg_history.specs.Turns.{AreJust, OnBoard};

/// A round of a record that is drawn up is allowed at each of its moments, whichever of its calls fail and
/// whichever members leave it. It computes nothing: its clauses are the law.
///
/// `marked`: the calls of a round are the calls of a round's events, so its marks stand where they belong.
/// `allowed`: from a pool that keeps the invariant of all moments, each event of the round keeps it too, where
/// the round is over just the members on the board, each on a device of its own. That nobody else takes part in the
/// record follows. The list may have devices that the pool has lost as well. `ends`: what the events leave of the pool. The
/// record is acknowledged exactly where no member failed, else the members that failed leave the board; and it is
/// the only one that the round draws.
pub fn rounds_may_be_made()
    ensures marked { (size : ℕ → ℕ) (q : Rec) (members : List Member) (results : List Bool) (made : List Noted) → IsRound size q.commit members results made
        → (vs : List Event) × (calls_of vs ≡ made) × IsRoundEvents size q members results vs }
    ensures allowed { (c : Codec) (p : Pool) (q : Rec) (members : List Member) (results : List Bool) (vs : List Event)
        → Survives c p → IsDrawnUp c p q → AreJust p (OnBoard p) members → AreApart members → IsRoundEvents p.size q members results vs → Mays c p vs }
    ensures ends { (size : ℕ → ℕ) (p : Pool) (q : Rec) (members : List Member) (results : List Bool) (vs : List Event)
        → IsRoundEvents size q members results vs → RoundEnds p (pool_after vs p) q (all_true results) members results (calls_of vs) }
{}
