//! Laws of labels (docs/MODEL.md, "The history of a pool").
ghost use Rattle.std.specs.Prelude.{◌≡◌, ℕ, ◌+◌, ◌<◌, Bool, true, List, ◌∷◌, Option, Some, slice_get};
ghost use Rattle.label_store.specs.declared.member.Member.{Member};
ghost use Rattle.label_store.specs.Records.{AreUnhurt};
ghost use Rattle.txg_history.specs.Events.{Event, Known, Third, Acks, Ends};
ghost use Rattle.txg_history.specs.Labels.{Odd, Even};
ghost use Rattle.txg_history.specs.Moves.{May, Mays};
ghost use Rattle.txg_history.specs.Needs.{Held, Landed, InPart, odd_part};
ghost use Rattle.txg_history.specs.Openings.{IsReadWhole};
ghost use Rattle.txg_history.specs.Pages.{Codec};
ghost use Rattle.txg_history.specs.Pools.{Pool, seat, after, pool_after};
ghost use Rattle.txg_history.specs.Premises.{HoldsLabels, HasSoundLabels};
ghost use Rattle.txg_history.specs.Records.{Rec, IsIn, number_of, takes_part};
ghost use Rattle.txg_history.specs.Survival.{Survives};
ghost use Rattle.txg_history.specs.Turns.{IsFlushTurn};
ghost use Rattle.txg_history.specs.Tracking.{KeepsLabels, KeepsNear, HasPromise};

/// The labels of a member go on promising a record, by the events alone. It computes nothing: its clauses
/// are the law.
///
/// `KeepsLabels` says of the events: the device stays the member that it is; each round in which it takes part takes
/// another ring slot than the record which its labels hold; none of these begins while a third phase on the member
/// is unfinished; and it takes part in each round that is acknowledged. Other rounds, failed calls, openings and
/// stops may come anywhere. `stays` is the law from any moment at which the labels promise a record, and `since` from
/// the acknowledgement of a round on in which the member took part. `near`: the rule by numbers gives these slots. By
/// it each round in which the member takes part has a number less than 32 above the acknowledged one, and no
/// opening reads a record of a lower number than the one that the labels hold. `plain`: so a member that took part in an
/// acknowledged round and kept this rule since has sound labels at an opening, if none of their sectors is damaged and each was
/// read. `again` and `near_again`: both rules from a
/// third phase on, whatever the labels held before. So labels whose promise was lost, by a third phase that was cut and a round
/// behind it, are sound behind a later one that ended. `holds`: labels that promise a record
/// hold it. `mends`: where a third phase was cut and label 1 came to hold the configuration after all, it may be said to have
/// ended. `flushes`: so it is behind the next flush turn, where the configuration had been written to label 1 by calls that
/// answered Ok, and the member's flush answers Ok.
pub fn labels_stay_sound()
    ensures stays { (c : Codec) (p : Pool) (d : ℕ) (vs : List Event) → HasPromise p d → Mays c p vs → KeepsLabels p d vs → HasPromise (pool_after vs p) d }
    ensures since { (c : Codec) (p : Pool) (d : ℕ) (q : Rec) (vs : List Event) → p.member d ≡ true → takes_part q (p.guid d) ≡ true → Mays c p (Acks q ∷ vs)
        → KeepsLabels (after (Acks q) p) d vs → HasPromise (pool_after (Acks q ∷ vs) p) d }
    ensures near { (c : Codec) (p : Pool) (d : ℕ) (q : Rec) (vs : List Event) → Survives c p → p.member d ≡ true
        → takes_part q (p.guid d) ≡ true → Mays c p (Acks q ∷ vs)
        → KeepsNear d (p.guid d) q (Odd q) vs → KeepsLabels (after (Acks q) p) d vs }
    ensures plain { (c : Codec) (p : Pool) (d : ℕ) (q : Rec) (vs : List Event) (known : Known) → Survives c p → p.member d ≡ true
        → takes_part q (p.guid d) ≡ true → Mays c p (Acks q ∷ vs) → KeepsNear d (p.guid d) q (Odd q) vs
        → AreUnhurt ((pool_after (Acks q ∷ vs) p).size d) ((pool_after (Acks q ∷ vs) p).sectors d)
        → IsReadWhole ((pool_after (Acks q ∷ vs) p).size d) (known d) → HasSoundLabels (pool_after (Acks q ∷ vs) p) known d }
    ensures again { (c : Codec) (p : Pool) (d : ℕ) (q : Rec) (vs : List Event) → p.member d ≡ true → Mays c p (Third q d ∷ vs)
        → KeepsLabels (after (Third q d) p) d vs → HasPromise (pool_after (Third q d ∷ vs) p) d }
    ensures near_again { (c : Codec) (p : Pool) (d : ℕ) (q : Rec) (vs : List Event) → Survives c p → p.member d ≡ true → Mays c p (Third q d ∷ vs)
        → ((r : Rec) → IsIn r p.live → takes_part r (p.guid d) ≡ true → number_of r < number_of p.acked + 32)
        → KeepsNear d (p.guid d) p.acked (Even q) vs → KeepsLabels (after (Third q d) p) d vs }
    ensures holds { (c : Codec) (p : Pool) (d : ℕ) → Survives c p → (has : HasPromise p d) → HoldsLabels p d has.promised }
    ensures mends { (c : Codec) (p : Pool) (q : Rec) (d : ℕ) → Survives c p → p.status d ≡ Even q
        → ((s : ℕ) (bytes : List ℕ) → InPart odd_part q s bytes → Held (p.sectors d s) bytes) → May c p (Ends q d) }
    ensures flushes { (c : Codec) (p : Pool) (members : List Member) (results : List Bool) (vs : List Event) (i d : ℕ)
        (q : Rec) → IsFlushTurn members results vs
        → slice_get members i ≡ Some (seat p d) → slice_get results i ≡ Some true → p.status d ≡ Even q
        → ((s : ℕ) (bytes : List ℕ) → InPart odd_part q s bytes → Landed (p.sectors d s) bytes) → May c (pool_after vs p) (Ends q d) }
{}
