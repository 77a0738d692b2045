//! Laws of settled groups (docs/MODEL.md, "The history of a pool").
ghost use Rattle.std.specs.Prelude.{◌≡◌, ◌↔◌, ℕ, true, false, List, ◌∷◌, ◌++◌};
ghost use Rattle.std.specs.List.{AllByRecursion};
ghost use Rattle.mp_base.specs.declared.number.Guid.{Guid};
ghost use Rattle.txg_history.specs.Events.{Event, Begins, Acks, Opens, Joins};
ghost use Rattle.txg_history.specs.Moves.{Mays};
ghost use Rattle.txg_history.specs.Pages.{Codec};
ghost use Rattle.txg_history.specs.Pools.{Pool, after, pool_after};
ghost use Rattle.txg_history.specs.Records.{Rec, IsIn};
ghost use Rattle.txg_history.specs.Settled.{OwesThroughout, BeginsNone, AcksNone};
ghost use Rattle.txg_history.specs.Survival.{Survives};

/// A group is settled for a leaf exactly where the leaf's log had it at each moment since the round of the last acknowledged
/// record began, or since the leaf was brought in, if that was later. It computes nothing: its clauses are the law.
///
/// `since`: so it is behind an acknowledgement, if no other round began between that round's beginning and it, and the leaf wasn't
/// brought in nor a record opened since. `joined`: so it is of a leaf that was brought in since; behind its coming a round that
/// had begun before may be acknowledged, and others may begin. `opens`: behind an opening nothing is settled until a round is
/// acknowledged. `records`: each live record has a settled group in the member's log there.
pub fn settled_groups_were_owed_throughout()
    ensures since { (c : Codec) (p : Pool) (q : Rec) (d g : ℕ) (between later : List Event) → Mays c p (Begins q ∷ (between ++ (Acks q ∷ later)))
        → AllByRecursion (BeginsNone d) between → AllByRecursion (AcksNone d) later
        → ((pool_after (Begins q ∷ (between ++ (Acks q ∷ later))) p).settled d g ≡ true)
        ↔ OwesThroughout (after (Begins q) p) d g (between ++ (Acks q ∷ later)) }
    ensures joined { (c : Codec) (p : Pool) (d : ℕ) (m : Guid) (top g : ℕ) (first second : List Event) → Mays c p (Joins d m top ∷ (first ++ second))
        → AllByRecursion (BeginsNone d) first → AllByRecursion (AcksNone d) second
        → ((pool_after (Joins d m top ∷ (first ++ second)) p).settled d g ≡ true) ↔ OwesThroughout (after (Joins d m top) p) d g (first ++ second) }
    ensures opens { (c : Codec) (p : Pool) (r : Rec) (d g : ℕ) (vs : List Event) → Mays c p (Opens r ∷ vs) → AllByRecursion (AcksNone d) vs
        → (pool_after (Opens r ∷ vs) p).settled d g ≡ false }
    ensures records { (c : Codec) (p : Pool) (d g : ℕ) (r : Rec) → Survives c p → p.member d ≡ true → p.settled d g ≡ true → IsIn r p.live
        → r.owes (p.guid d) g ≡ true }
{}
