//! The laws of the machine's runs over the histories of pools (docs/MODEL.md, "Stops and openings").
ghost use Rattle.std.specs.Prelude.{◌≡◌, ◌⊎◌, IsTrue, false, ◌++◌, ◌∷◌, ℕ, List, None, Some};
ghost use Rattle.mp_base.specs.Name.{is_name};
ghost use Rattle.mp_base.specs.declared.number.Group.{Group};
ghost use Rattle.bank_core.specs.Disk.{Noted, Sectors, AllAnswer};
ghost use Rattle.pool_wire.specs.declared.reply.Reply.{Reply};
ghost use Rattle.pool_wire.specs.declared.request.Request.TheVariants as requests;
ghost use Rattle.pool_history.specs.Events.{Event, as_events, calls_of, Stops};
ghost use Rattle.pool_history.specs.Looks.{known_by};
ghost use Rattle.pool_history.specs.Pools.{Pool, after, pool_after};
ghost use Rattle.pool_history.specs.Premises.{Premises, AreGood};
ghost use Rattle.pool_history.specs.Records.{Rec, IsIn};
ghost use Rattle.pool_history.specs.Survival.{Survives};
ghost use Rattle.pool_core.specs.Heads.{head_of};
ghost use Rattle.pool_core.specs.State.{LeafState};
ghost use Rattle.host_machine.specs.Births.{IsBorn, StampFails, LeavesPool, LeavesThroughout};
ghost use Rattle.host_machine.specs.Devices.{all_handed};
ghost use Rattle.host_machine.specs.Fitness.{IsFit, IsWhole, AreWhole};
ghost use Rattle.host_machine.specs.Machine.{HostState, Entry, is_bad_size, new_seats, new_state, IsCreate, IsImport, Step, Replay};
ghost use Rattle.host_machine.specs.Tracking.{Takes, Tracks, Follows, FindsPool, HasNoTwins};

/// What holds of each host that a run reaches holds of the next.
pub fn hosts_stay_fit()
    ensures stays { (h : HostState) (entry : Entry) (made : List Noted) (next : HostState) → IsWhole entry.asked → IsFit h → Step h entry made next → IsFit next }
    ensures keeps { (h : HostState) (entry : Entry) (made : List Noted) (next : HostState) (r : Rec) → Step h entry made next → IsIn r h.records → IsIn r next.records }
{}

/// Each line's device calls are moves of each pool's history, and a pool loses no device but one that the line takes.
pub fn lines_follow_each_pool()
    ensures line { (p : Pool) (h : HostState) (entry : Entry) (made : List Noted) (next : HostState) → IsWhole entry.asked → IsFit h
        → AllAnswer p.sectors made → Step h entry made next → Follows p h (Takes p.name h entry.asked made) made next }
{}

/// An opening of a pool finds it.
pub fn imports_find_the_pool()
    ensures finds { (p : Pool) (h : HostState) (entry : Entry) (made : List Noted) (next : HostState) → IsFit h → Tracks p h → h.pool ≡ None
        → AllAnswer p.sectors made → (i : IsImport h p.name made next entry.reply) → HasNoTwins next.records → Survives head_of p
        → Premises head_of (pool_after (as_events i.reads) p) (known_by h.size (all_handed h.table) i.looks) → FindsPool p entry.reply next }
{}

/// A create whose devices are found begins a pool, or a stamp fails. It computes nothing: its clause is the law.
///
/// `begins`: behind the whole stamps of both leaves the new pool keeps the invariant of all moments, and its round of
/// record 1 is of its history, whichever of the round's calls fail. The line's three names are names.
pub fn creates_begin_a_pool()
    ensures begins { (h : HostState) (second : ℕ) (name : List ℕ) (blocks : ℕ) (first other : List ℕ) (seats : ℕ × ℕ) (made : List Noted) (next : HostState) (reply : Reply) (sectors : Sectors)
        → IsFit h → IsTrue (is_name name) → IsTrue (is_name first) → IsTrue (is_name other) → is_bad_size blocks ≡ false → new_seats h blocks first other ≡ Some seats
        → IsCreate h second name blocks first other made next reply
        → IsBorn h.size (new_state h second name blocks first other seats) seats sectors made next ⊎ StampFails h.size (new_state h second name blocks first other seats) seats made }
{}
