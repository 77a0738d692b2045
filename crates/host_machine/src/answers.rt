//! A good member always answers (docs/MODEL.md, "A good member answers").
ghost use Rattle.std.specs.Prelude.{◌≡◌, ◌⊎◌, ℕ, ◌<◌, true, false, List, Some};
ghost use Rattle.mp_base.specs.Outside.{Rose};
ghost use Rattle.mp_base.specs.declared.number.Group.{Group};
ghost use Rattle.mp_base.specs.declared.number.Guid.{Guid};
ghost use Rattle.mp_base.specs.declared.refusal.Refusal.TheVariants as refusals;
ghost use Rattle.bank_core.specs.Calls.{AllCaused};
ghost use Rattle.bank_core.specs.Disk.{Noted, Sectors, AllAnswer};
ghost use Rattle.pool_wire.specs.declared.reply.NamedLeaf.{NamedLeaf};
ghost use Rattle.pool_wire.specs.declared.reply.Reply.TheVariants as replies;
ghost use Rattle.pool_wire.specs.declared.request.Request.TheVariants as requests;
ghost use Rattle.pool_history.specs.Pools.{Pool};
ghost use Rattle.pool_history.specs.Survival.{Survives};
ghost use Rattle.pool_core.specs.Heads.{head_of};
ghost use Rattle.pool_core.specs.State.{PoolState, is_spent};
ghost use Rattle.host_machine.specs.Answering.{IsOpenIn, HasClash, IsExcused, IsLost, IsGoodMember, SomeRose, SuspendsByCounts, CommitsByCounts, CreatesByCounts, OnlinesByCounts, SomeFailed, FindsNone};
ghost use Rattle.host_machine.specs.Devices.{number_in};
ghost use Rattle.host_machine.specs.Fitness.{IsFit};
ghost use Rattle.host_machine.specs.Machine.{HostState, Entry, Step, named_pool, is_bad_size, new_seats};
ghost use Rattle.host_machine.specs.Tracking.{Tracks, is_ours};

/// A good member always answers: a read of an open pool is refused only where every leaf missed the block,
/// which is that its read failed, or found its sector damaged, or that the pool has lost its device. It
/// computes nothing: its clauses are the law.
///
/// `refuses`, `answers` and `good_member` are of one read of a pool that its devices keep, behind any history,
/// and `ours` says when it is the open one. `suspends`, `commits`, `creates`, `imports` and `onlines` are of the
/// counts of failed calls, over every bank: a sync, a create, an opening or an `online` is refused for a failed call
/// only where a count rose in that very line, and a sync or a create commits where none did. `finds` says that an opening which
/// finds no record of a name passed over none that it read, so that a read failed on each device whose clean
/// labels have one; and `causes` that its count rose then. The free end of a line is want of memory, and a read
/// has one more: wrong bytes with the sum of those that it wanted.
pub fn good_member_answers()
    ensures ours { (p : Pool) (h : HostState) (name : List ℕ) (s : PoolState) → Tracks p h → named_pool name h.pool ≡ Some s → is_ours p s ≡ true → IsOpenIn p h name s }
    ensures refuses { (p : Pool) (h : HostState) (entry : Entry) (made : List Noted) (next : HostState) (name : List ℕ) (s : PoolState) (a level index : ℕ) (named : List NamedLeaf)
        → IsOpenIn p h name s → Survives head_of p → AllAnswer p.sectors made → Step h entry made next → entry.asked ≡ Some (requests.Read name a)
        → entry.reply ≡ replies.Exhausted level index named → IsLost p s a made ⊎ HasClash h entry made }
    ensures answers { (p : Pool) (h : HostState) (entry : Entry) (made : List Noted) (next : HostState) (name : List ℕ) (s : PoolState) (a : ℕ)
        → IsOpenIn p h name s → Survives head_of p → AllAnswer p.sectors made → Step h entry made next → entry.asked ≡ Some (requests.Read name a)
        → a < s.blocks → (entry.reply ≡ replies.Data (p.written a)) ⊎ (IsLost p s a made ⊎ IsExcused h entry made) }
    ensures good_member { (p : Pool) (h : HostState) (entry : Entry) (made : List Noted) (next : HostState) (name : List ℕ) (s : PoolState) (a d : ℕ)
        → IsOpenIn p h name s → Survives head_of p → AllAnswer p.sectors made → Step h entry made next → entry.asked ≡ Some (requests.Read name a)
        → a < s.blocks → IsGoodMember p s a made d → (entry.reply ≡ replies.Data (p.written a)) ⊎ IsExcused h entry made }
    ensures suspends { (h : HostState) (entry : Entry) (made : List Noted) (next : HostState) (name : List ℕ) (s : PoolState) (before after : ℕ → ℕ) → Step h entry made next
        → entry.asked ≡ Some (requests.Sync name) → named_pool name h.pool ≡ Some s → is_spent s.number ≡ false → AllCaused made before after → SuspendsByCounts s before after entry.reply }
    ensures commits { (h : HostState) (entry : Entry) (made : List Noted) (next : HostState) (name : List ℕ) (s : PoolState) (before after : ℕ → ℕ) → Step h entry made next
        → entry.asked ≡ Some (requests.Sync name) → named_pool name h.pool ≡ Some s → is_spent s.number ≡ false → AllCaused made before after → CommitsByCounts s before after entry.reply }
    ensures creates { (h : HostState) (entry : Entry) (made : List Noted) (next : HostState) (name : List ℕ) (blocks : ℕ) (first second : List ℕ) (seats : ℕ × ℕ) (before after : ℕ → ℕ)
        → Step h entry made next → entry.asked ≡ Some (requests.Create name blocks first second) → is_bad_size blocks ≡ false → new_seats h blocks first second ≡ Some seats
        → AllCaused made before after → CreatesByCounts first second seats before after entry.reply }
    ensures imports { (h : HostState) (entry : Entry) (made : List Noted) (next : HostState) (name : List ℕ) (before after : ℕ → ℕ) (group : Group) (top : Guid) (faults : ℕ)
        → Step h entry made next → entry.asked ≡ Some (requests.Import name) → entry.reply ≡ replies.Refused (refusals.Suspended group top faults)
        → AllCaused made before after → (faults ≡ 0) ⊎ SomeRose before after }
    ensures onlines { (h : HostState) (entry : Entry) (made : List Noted) (next : HostState) (name device : List ℕ) (dev : ℕ) (before after : ℕ → ℕ) → Step h entry made next
        → entry.asked ≡ Some (requests.Online name device) → number_in device h.table ≡ Some dev → AllCaused made before after → OnlinesByCounts dev before after entry.reply }
    ensures finds { (sectors : Sectors) (h : HostState) (entry : Entry) (made : List Noted) (next : HostState) (name : List ℕ) → IsFit h → AllAnswer sectors made
        → Step h entry made next → entry.asked ≡ Some (requests.Import name) → entry.reply ≡ replies.Refused refusals.NoRecord → FindsNone h sectors name made }
    ensures causes { (made : List Noted) (d : ℕ) (before after : ℕ → ℕ) → SomeFailed d made → AllCaused made before after → Rose (before d) (after d) }
{}
