//! The laws of stops within a line (docs/MODEL.md, "Stops and openings").
ghost use Rattle.std.specs.Prelude.{◌≡◌, ◌≤◌, ℕ, List, take};
ghost use Rattle.bank_core.specs.Disk.{Noted};
ghost use Rattle.pool_history.specs.Pools.{Pool, pool_after, drawn};
ghost use Rattle.pool_history.specs.Premises.{AreGood};
ghost use Rattle.pool_history.specs.Records.{Rec, IsIn, number_of};
ghost use Rattle.pool_history.specs.Survival.{Survives};
ghost use Rattle.pool_core.specs.Heads.{head_of};
ghost use Rattle.host_machine.specs.Fitness.{IsFit};
ghost use Rattle.host_machine.specs.Machine.{HostState, Entry, started};
ghost use Rattle.host_machine.specs.Tracking.{Takes, Tracks, Follows, HasNoTwins};

/// A stop may come at any moment within a line: a pool that stood in the host before the line stands, as the
/// events so far leave it, in a closed host that knows the records of the line. From there
/// `stops_keep_each_pool` leads to the next run. It computes nothing: its clauses are the law.
///
/// `line` is for a pool of which a record was drawn before, which is each pool behind its `create`; `born` for a
/// new one within its `create`.
pub fn stops_may_come_within_a_line()
    ensures line { (p : Pool) (h : HostState) (entry : Entry) (made : List Noted) (next : HostState) (f : Follows p h (Takes p.name h entry.asked made) made next) → IsFit h
        → Tracks p h → HasNoTwins next.records → Survives head_of p → AreGood head_of p f.vs → (q : Rec) → IsIn q (drawn p) → 1 ≤ number_of q → (j : ℕ)
        → Tracks (pool_after (take j f.vs) p) (started next.table next.size next.records) }
    ensures born { (p : Pool) (h : HostState) (made : List Noted) (next : HostState) (f : Follows p h (λ cost. ⊥) made next) → Tracks p h → HasNoTwins next.records
        → Survives head_of p → AreGood head_of p f.vs → (j : ℕ) → Tracks (pool_after (take j f.vs) p) (started next.table next.size next.records) }
{}
