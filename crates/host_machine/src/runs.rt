//! The laws of whole runs over the histories of pools (docs/MODEL.md, "Stops and openings").
ghost use Rattle.std.specs.Prelude.{◌≡◌, ◌≤◌, ◌++◌, ◌∷◌, true, ℕ, List, Some};
ghost use Rattle.bank_core.specs.Calls.{AllCaused};
ghost use Rattle.bank_core.specs.Disk.{Noted, Sectors, AllAnswer, run};
ghost use Rattle.pool_history.specs.Events.{Stops};
ghost use Rattle.pool_history.specs.Pools.{Pool, after};
ghost use Rattle.pool_history.specs.Records.{Rec, IsIn};
ghost use Rattle.host_machine.specs.declared.device.HostDevice.{HostDevice};
ghost use Rattle.host_machine.specs.Runs.{TakesIn, KeepsPools, IsEntryOf, EndByCounts};
ghost use Rattle.host_machine.specs.Devices.{number_in};
ghost use Rattle.host_machine.specs.Fitness.{IsFit, AreWhole};
ghost use Rattle.host_machine.specs.Machine.{HostState, Entry, Replay, started};
ghost use Rattle.host_machine.specs.Tracking.{Tracks, Follows};

use crate::answers::good_member_answers;
use crate::laws::{
    creates_begin_a_pool, hosts_stay_fit, imports_find_the_pool, lines_follow_each_pool,
};

/// A run keeps each pool that its devices had left: at each of its moments they are left by the pool's
/// history so far.
pub fn runs_keep_each_pool()
    ensures run { (h : HostState) (sectors : Sectors) (entries : List Entry) (calls : List Noted) (next : HostState) → AreWhole entries → IsFit h
        → AllAnswer sectors calls → (replay : Replay h entries calls next) → KeepsPools h sectors entries calls next replay }
    ensures counts { (h : HostState) (entries : List Entry) (calls : List Noted) (next : HostState) (start end : ℕ → ℕ) → Replay h entries calls next
        → AllCaused calls start end → EndByCounts h entries calls next start end }
    ensures entry { (h : HostState) (before : List Entry) (entry : Entry) (after : List Entry) (calls : List Noted) (next : HostState)
        → Replay h (before ++ entry ∷ after) calls next → IsEntryOf h before entry after calls next }
    ensures goes_on { (p : Pool) (old h : HostState) (made : List Noted) (entries : List Entry) (calls : List Noted) (next : HostState)
        (replay : Replay h entries calls next) → AreWhole entries → IsFit h → Follows p old (λ cost. ⊥) made h → AllAnswer (run made p.sectors) calls
        → Follows p old (TakesIn p.name h entries calls next replay) (made ++ calls) next }
{
    hosts_stay_fit();
    lines_follow_each_pool();
    imports_find_the_pool();
    creates_begin_a_pool();
    good_member_answers();
}

/// The next run may begin with what a stop left of the devices, whatever moment the stop came at; some devices may be
/// missing in it, and others may be new.
pub fn stops_keep_each_pool()
    ensures next_run { (p : Pool) (h : HostState) (sectors : Sectors) (table : List HostDevice) (size : ℕ → ℕ) (records : List Rec)
        → (tracks : Tracks p h) → ((d : ℕ) → p.member d ≡ true → 1 ≤ size d → size d ≡ p.size d) → ((r : Rec) → IsIn r h.records → IsIn r records)
        → ((d : ℕ) → number_in tracks.first.name table ≡ Some d → d ≡ tracks.first.dev) → ((d : ℕ) → number_in tracks.second.name table ≡ Some d → d ≡ tracks.second.dev)
        → Tracks (after (Stops sectors size) p) (started table size records) }
{}
