//! Which calls a pool may make before a round, and what they leave (docs/MODEL.md, "Stops and openings").
ghost use Rattle.std.specs.Prelude.{◌≡◌, ℕ, List, length, Option, None};
ghost use Rattle.bank_core.specs.declared.bank.Fault.{Fault};
ghost use Rattle.bank_core.specs.Asks.{Ask, IsPart};
ghost use Rattle.bank_core.specs.Disk.{Sectors, Noted, run};
ghost use Rattle.bank_core.specs.Standing.{Stands};
ghost use Rattle.label_store.specs.declared.rule.Head.{Head};
ghost use Rattle.pool_history.specs.Commits.{Brings};
ghost use Rattle.pool_history.specs.Events.{as_events};
ghost use Rattle.pool_history.specs.Moves.{AreSparing, Mays};
ghost use Rattle.pool_history.specs.Pools.{Pool};

/// The blocks of a commit go to the members before its round. It computes nothing: its clauses are the law.
///
/// `allowed`: a pool may make the calls of a plan whose asks spare what is needed, up to the first that fails.
/// `landed`: where none failed, each block that the plan brings to a sector stands there behind it. Such a plan
/// writes the block of 4,096 bytes there, and flushes the device behind the last write there.
pub fn commits_may_be_made()
    ensures allowed { (head_of : List ℕ → Option Head) (p : Pool) (plan : List Ask) (made : List Noted) (outcome : Option Fault)
        → AreSparing p plan → IsPart plan made outcome → Mays head_of p (as_events made) }
    ensures landed { (plan : List Ask) (dev at : ℕ) (block : List ℕ) (made : List Noted) (sectors : Sectors)
        → Brings plan dev at block → length block ≡ 4096 → IsPart plan made None → Stands (run made sectors dev at) block }
{}
