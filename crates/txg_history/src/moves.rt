//! Laws of a history's moves (docs/MODEL.md, "The history of a pool").
ghost use Rattle.std.specs.Prelude.{◌≡◌, ◌≤◌, ◌<◌, ℕ, Bool, List, [], Option, Some, None, slice_get, take};
ghost use Rattle.mp_base.specs.declared.number.Guid.{Guid};
ghost use Rattle.bank_core.specs.Asks.{IsPart};
ghost use Rattle.bank_core.specs.Disk.{Sectors, Noted, CrashImages, after_crash, run};
ghost use Rattle.label_store.specs.Plans.{stamp_plan};
ghost use Rattle.label_store.specs.Records.{place_at};
ghost use Rattle.txg_history.specs.Events.{Event, Calls};
ghost use Rattle.txg_history.specs.Moves.{AreUnforged, IsTrueTo, MayStop, Mays};
ghost use Rattle.txg_history.specs.Numbering.{renumbered, AreOnePool};
ghost use Rattle.txg_history.specs.Pages.{Codec};
ghost use Rattle.txg_history.specs.Pools.{Pool, pool_after, stamped};
ghost use Rattle.txg_history.specs.Premises.{HoldsLabels, HasGoodLeaf};
ghost use Rattle.txg_history.specs.Records.{Rec, Cell};
ghost use Rattle.txg_history.specs.Sound.{IsSound};
ghost use Rattle.txg_history.specs.Stamps.{IsBlank, AreStamped};
ghost use Rattle.txg_history.specs.Survival.{Survives};
ghost use Rattle.txg_history.specs.Tracking.{HasPromise};

/// A history keeps what a live record needs, at each of its moments, over any number of stops. It computes
/// nothing: its clauses are the law.
///
/// `throughout`: where each event was one that the pool may have, the invariant holds behind each front of the
/// list. A front may end anywhere: between two calls of a round, between two write turns, behind a failed call,
/// behind a stop. What the code has to show of its calls is thus `Mays` and no more. `sound`: with the invariant
/// the pool is sound, in five parts. Each leaf of a live record has each group that its log there lacks, and so it
/// has of the record that the pool reads, by the logs of now, but for damaged sectors. No place of a live record is
/// free. What a flush turn flushed is held until the group ends, and what a scan came past stands or was copied. `true_to`: a
/// call that writes at the place of a live record's key, on a leaf of its top, writes the key's bytes. `crash`: the
/// next run may begin with any images that a crash leaves.
pub fn histories_keep_their_records()
    ensures throughout { (c : Codec) (p : Pool) (vs : List Event) → Survives c p → Mays c p vs → (k : ℕ) → Survives c (pool_after (take k vs) p) }
    ensures sound { (c : Codec) (p : Pool) → Survives c p → IsSound p }
    ensures true_to { (c : Codec) (p : Pool) (vs : List Event) → Mays c p vs → (k : ℕ) (noted : Noted) → slice_get vs k ≡ Some (Calls noted)
        → IsTrueTo (pool_after (take k vs) p) noted.call }
    ensures crash { (p : Pool) (images : ℕ → ℕ → List ℕ) → CrashImages p.sectors images → AreUnforged p images → MayStop p (after_crash p.sectors images) }
{}

/// A pool that was just made has the invariant. It computes nothing: its clauses are the law.
///
/// `begins`: it holds where the rings of each member's device are as a stamp leaves them and nothing is on the
/// way there, whatever stands elsewhere. `stamps`: a stamp in which no call failed leaves each of the 128
/// places of a device so, whatever stood there before. The device has 320 sectors or more.
pub fn stamped_pools_survive()
    ensures begins { (c : Codec) (name : List ℕ) (pool : Guid) (member : ℕ → Bool) (guid : ℕ → Guid) (size room home : ℕ → ℕ) (sectors : Sectors)
        → AreStamped pool member guid size room home sectors → Survives c (stamped name pool member guid size room home sectors) }
    ensures stamps { (dev size : ℕ) (pool member : Guid) (made : List Noted) (sectors : Sectors) → 320 ≤ size → IsPart
        (stamp_plan dev size pool member) made None
        → (place : ℕ) → place < 128 → IsBlank (run made sectors dev (place_at size place)) pool member }
{}

/// A pool doesn't depend on the numbers of its devices. It computes nothing: its clauses are the law.
///
/// So the next run may have the devices under other numbers: device d then has what device `was d` had, by definition, as
/// its membership, its top and its log. `survives`: the invariant holds. `same`: all that isn't told by devices is as it was,
/// so the laws of what is live, of its contents and of strays go on from there. `promises` and `holds`: labels that promise a record, or
/// hold one, do so under the new number. `pages`: so does a good leaf of a page.
pub fn devices_may_be_numbered_anew()
    ensures survives { (c : Codec) (p : Pool) (was : ℕ → ℕ) → Survives c p → Survives c (renumbered was p) }
    ensures same { (p : Pool) (was : ℕ → ℕ) → AreOnePool p (renumbered was p) }
    ensures promises { (p : Pool) (was : ℕ → ℕ) (d : ℕ) → HasPromise p (was d) → HasPromise (renumbered was p) d }
    ensures holds { (p : Pool) (was : ℕ → ℕ) (d : ℕ) (r : Rec) → HoldsLabels p (was d) r → HoldsLabels (renumbered was p) d r }
    ensures pages { (p : Pool) (was : ℕ → ℕ) (r : Rec) (cell : Cell) (answering : ℕ → Bool) → (good : HasGoodLeaf p r cell answering)
        → (d : ℕ) → was d ≡ good.d → HasGoodLeaf (renumbered was p) r cell (λ e. answering (was e)) }
{}
