//! Laws of a history's moments (docs/MODEL.md, "The history of a pool").
ghost use Rattle.std.specs.Prelude.{◌≡◌, ℕ, List, take};
ghost use Rattle.std.specs.List.{AllByRecursion};
ghost use Rattle.bank_core.specs.Disk.{run};
ghost use Rattle.txg_history.specs.Events.{Event, IsOneRun, TakesNone, calls_of};
ghost use Rattle.txg_history.specs.Pools.{Pool, pool_after};

/// The moments of the devices are fronts of the history. It computes nothing: its clauses are the law.
///
/// `fronts`: the first calls of some events, however many, are those of a front of the events. So what holds at each front
/// holds at each moment of the bank. `sectors`: within one run the devices are as these calls leave them, and `sizes`: none of them changes its
/// size. `members`: where no device is brought in or lost the members stay, each under its number.
pub fn moments_are_fronts()
    ensures fronts { (vs : List Event) (k : ℕ) → (j : ℕ) × (calls_of (take j vs) ≡ take k (calls_of vs)) }
    ensures sectors { (vs : List Event) (p : Pool) → IsOneRun vs → (pool_after vs p).sectors ≡ run (calls_of vs) p.sectors }
    ensures sizes { (vs : List Event) (p : Pool) → IsOneRun vs → (pool_after vs p).size ≡ p.size }
    ensures members { (vs : List Event) (p : Pool) → AllByRecursion TakesNone vs
        → ((pool_after vs p).member ≡ p.member) × ((pool_after vs p).guid ≡ p.guid) }
{}
