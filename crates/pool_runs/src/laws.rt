//! The laws of a host's runs (docs/MODEL.md, "The host and its runs").
ghost use Rattle.std.specs.Prelude.{◌≡◌, ◌≢◌, ℕ, false, List, [], ◌∷◌, length, None};
ghost use Rattle.txg_history.specs.Events.{Known};
ghost use Rattle.txg_history.specs.Moves.{ReadsTrue};
ghost use Rattle.txg_history.specs.Numbering.{renumbered};
ghost use Rattle.txg_history.specs.Openings.{IsReadWhole};
ghost use Rattle.txg_history.specs.Pages.{Codec};
ghost use Rattle.txg_history.specs.Premises.{Premises};
ghost use Rattle.pool_moves.specs.StampRow.{Created};
ghost use Rattle.pool_runs.specs.Acts.{Act, Bears, pool_along, born};
ghost use Rattle.pool_runs.specs.Committing.{FoundsPool};
ghost use Rattle.pool_runs.specs.Creating.{Creates, IsNew, new_birth, host_stamped, commit_acts};
ghost use Rattle.pool_runs.specs.Fairness.{AreFair};
ghost use Rattle.pool_runs.specs.Headline.{Headline};
ghost use Rattle.pool_runs.specs.HostRows.{IsRun};
ghost use Rattle.pool_runs.specs.Hosts.{Host, host_by, host_along};
ghost use Rattle.pool_runs.specs.Lines.{Reply, To_create, Entry};
ghost use Rattle.pool_runs.specs.Pasts.{Past, Born, pool_of, IsAllowed, BeginsRun, IsNext, AreNamed, in_size, next_past};
ghost use Rattle.pool_runs.specs.PlainPremises.{KeepsUp};
ghost use Rattle.pool_runs.specs.SmallRuns.{small_host, small_codec, small_create, small_later, small_born, small_rest, small_past, small_next, small_again};

/// A run keeps each pool that its devices had, and a stop at any moment of it leaves what a further run may begin with. It
/// computes nothing: its clauses are the law.
///
/// `first`: all that is said of a run, of a pool whose past the devices are left by when it begins, whatever lines it has, for this pool
/// and for others. `born`: the same of a pool that a create makes, from its stamps' end on, where its number is no open pool's. `made`: where the create
/// answers so, record 1 is acknowledged then, and the pool is open. `next`: behind a stop that left any images of the devices, the next run begins so, with its devices under any
/// numbers, further ones, or without some; a device whose number of sectors changed is the pool's no more. `strangers`: some number is no member's.
pub fn runs_keep_each_pool()
    ensures first { (c : Codec) (past : Past) (h : Host) (entries : List Entry) → BeginsRun c past h → IsRun c h entries → Headline c past h [] entries }
    ensures born { (c : Codec) (h : Host) (name : List ℕ) (blocks : ℕ) (tops : List (List (List ℕ))) (acts : List Act) (reply : Reply) (entries : List Entry)
        → (k : Creates c h name blocks tops acts reply) → IsNew h k.pool.0 → IsRun c (host_along acts h) entries
        → Headline c (Born (new_birth name k.pool blocks h.table tops) (host_stamped h k.pool.0 k.stamps).disk)
        (host_by (Bears (new_birth name k.pool blocks h.table tops)) (host_stamped h k.pool.0 k.stamps)) (commit_acts k.answer k.pool.0 k.moves) entries }
    ensures made { (c : Codec) (h : Host) (name : List ℕ) (blocks : ℕ) (tops : List (List (List ℕ))) (acts : List Act) (reply : Reply)
        → (k : Creates c h name blocks tops acts reply) → IsNew h k.pool.0 → reply ≡ To_create Created
        → FoundsPool (pool_along (commit_acts k.answer k.pool.0 k.moves) (born (new_birth name k.pool blocks h.table tops) (host_stamped h k.pool.0 k.stamps).disk))
        (host_along (commit_acts k.answer k.pool.0 k.moves) (host_by (Bears (new_birth name k.pool blocks h.table tops)) (host_stamped h k.pool.0 k.stamps))) name }
    ensures next { (c : Codec) (past : Past) (was : ℕ → ℕ) (called : ℕ → List ℕ) (images : ℕ → ℕ → List ℕ) (h : Host) (other : ℕ) → IsAllowed c past
        → AreNamed past was called h → (pool_of past).member other ≡ false → IsNext (renumbered (in_size past was other h) (pool_of past)) images h
        → BeginsRun c (next_past past (in_size past was other h) called images h) h }
    ensures strangers { (c : Codec) (past : Past) → IsAllowed c past → (other : ℕ) × ((pool_of past).member other ≡ false) }
{}

/// A small run is one: a pool is made on one device, a block is written, read and synced. It computes nothing: its clauses
/// are tests of the rows.
///
/// `run`: its four lines are rows. `fair`: nothing that is assumed of its acts fails, for the pool that it makes; so all that
/// `runs_keep_each_pool` says of that pool holds at each of its moments. `stops`: the machine stops behind it, and a further run may begin.
/// `keeps_up`: by the rule by numbers its device keeps up into that run. `premises`: those of an opening hold there, for whoever reads the
/// labels of this one device whole, as they stand, and nothing of another.
pub fn small_runs_are_runs()
    ensures run { (block : List ℕ) → length block ≡ 4096 → IsRun (small_codec block) small_host (small_create ∷ small_later block) }
    ensures fair { (block : List ℕ) → AreFair (small_codec block) (pool_of small_born) (small_rest block) }
    ensures stops { (block : List ℕ) (other : ℕ) → length block ≡ 4096 → (pool_of (small_past block)).member other ≡ false
        → BeginsRun (small_codec block) (small_again block other) (small_next block) }
    ensures keeps_up { (block : List ℕ) (other : ℕ) → KeepsUp (small_again block other) 0 }
    ensures premises { (block : List ℕ) (other : ℕ) (known : Known) → length block ≡ 4096 → (pool_of (small_past block)).member other ≡ false
        → ReadsTrue (pool_of (small_again block other)).sectors known → IsReadWhole 320 (known 0) → ((d s : ℕ) → d ≢ 0 → known d s ≡ None)
        → Premises (small_codec block).head_of (pool_of (small_again block other)) known }
{}
