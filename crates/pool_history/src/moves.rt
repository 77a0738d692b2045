//! Laws of a history's moves (docs/MODEL.md, "Stops and openings").
ghost use Rattle.std.specs.Prelude.{◌≤◌, ◌<◌, ℕ, Bool, List, [], Option, None, take};
ghost use Rattle.mp_base.specs.declared.number.Guid.{Guid};
ghost use Rattle.bank_core.specs.Asks.{IsPart};
ghost use Rattle.bank_core.specs.Disk.{Sectors, Noted, CrashImages, after_crash, run};
ghost use Rattle.label_store.specs.declared.rule.Head.{Head};
ghost use Rattle.label_store.specs.Plans.{stamp_plan};
ghost use Rattle.label_store.specs.Records.{place_at};
ghost use Rattle.pool_history.specs.Events.{Event};
ghost use Rattle.pool_history.specs.Moves.{AreUnforged, MayStop, Mays};
ghost use Rattle.pool_history.specs.Pools.{Pool, pool_after, stamped};
ghost use Rattle.pool_history.specs.Sound.{IsSound};
ghost use Rattle.pool_history.specs.Stamps.{IsBlank, AreStamped};
ghost use Rattle.pool_history.specs.Survival.{Survives};

/// A history keeps what a live record needs, at each of its moments, over any number of stops. It computes
/// nothing: its clauses are the law.
///
/// `throughout`: where each event was one that the pool may have, the invariant holds behind each front of the
/// list. A front may end anywhere: between two calls of a round, behind a failed call, behind a stop. What
/// the code has to show of its calls is thus `Mays` and no more. `sound`: with the invariant every member
/// keeps of every live record, and of the one that the pool reads, each block that was born in a group which
/// its log in the record lacks, but for damaged sectors; and while neither a round nor an opening is under way
/// no place of theirs is free. `crash`: the next run may begin with any images that a crash leaves.
pub fn histories_keep_their_records()
    ensures throughout { (head_of : List ℕ → Option Head) (p : Pool) (vs : List Event) → Survives head_of p → Mays head_of p vs → (k : ℕ) → Survives head_of (pool_after (take k vs) p) }
    ensures sound { (head_of : List ℕ → Option Head) (p : Pool) → Survives head_of p → IsSound p }
    ensures crash { (p : Pool) (images : ℕ → ℕ → List ℕ) → CrashImages p.sectors images → AreUnforged p images → MayStop p (after_crash p.sectors images) }
{}

/// A pool that was just made has the invariant. It computes nothing: its clauses are the law.
///
/// `begins`: it holds where the rings of each member's device are as a stamp leaves them and nothing is on the
/// way there, whatever stands elsewhere. `stamps`: a stamp in which no call failed leaves each of the 128
/// places of a device so, whatever stood there before. The device has 320 sectors or more.
pub fn stamped_pools_survive()
    ensures begins { (head_of : List ℕ → Option Head) (name : List ℕ) (pool : Guid) (member : ℕ → Bool) (guid : ℕ → Guid) (size : ℕ → ℕ) (sectors : Sectors)
        → AreStamped pool member guid size sectors → Survives head_of (stamped name pool member guid size sectors (λ d s. [])) }
    ensures stamps { (dev size : ℕ) (pool member : Guid) (made : List Noted) (sectors : Sectors) → 320 ≤ size → IsPart (stamp_plan dev size pool member) made None
        → (place : ℕ) → place < 128 → IsBlank (run made sectors dev (place_at size place)) pool member }
{}
