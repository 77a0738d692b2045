//! Which write turns and flush turns a frozen group may make, and what they leave (docs/MODEL.md, "The history of a pool").
ghost use Rattle.std.specs.Prelude.{◌≡◌, ℕ, Bool, true, false, cond, List, map, Option, Some, None, ◌≤◌};
ghost use Rattle.mp_base.specs.declared.place.Key.{Key};
ghost use Rattle.bank_core.specs.Disk.{Noted};
ghost use Rattle.label_store.specs.declared.member.Member.{Member};
ghost use Rattle.label_store.specs.Phases.{IsPhase};
ghost use Rattle.label_store.specs.Seats.{AreApart};
ghost use Rattle.txg_history.specs.Events.{Event, calls_of};
ghost use Rattle.txg_history.specs.Groups.{same_key};
ghost use Rattle.txg_history.specs.Moves.{MayFreeze, Mays};
ghost use Rattle.txg_history.specs.Pages.{Codec};
ghost use Rattle.txg_history.specs.Pools.{Pool, pool_after};
ghost use Rattle.txg_history.specs.Records.{Cell, block_at};
ghost use Rattle.txg_history.specs.Survival.{Survives};
ghost use Rattle.txg_history.specs.Turns.{AreJust, OnBoard, OnTop, write_plan, flush_plan, IsWriteTurn, IsFlushTurn, TurnEnds};

/// A write turn of a frozen group's key is allowed at each of its moments, whichever of its calls fail. It computes
/// nothing: its clauses are the law.
///
/// `marked`: the calls of a write turn, member by member, are the calls of its events. `allowed`: the turn may be made
/// where the group isn't flushed and the key's turn hasn't ended, over just the members on the board that stand
/// under the key's top, each on a device of its own. That no live record has a key at that place follows from the
/// invariant. `ends`: what its events leave of the pool.
pub fn write_turns_may_be_made()
    ensures marked { (k : Key) (cell : Cell) (members : List Member) (results : List Bool) (made : List Noted) → IsPhase
        (write_plan cell) members (map (λ m. true) members) results made
        → (vs : List Event) × (calls_of vs ≡ made) × IsWriteTurn k cell members results vs }
    ensures allowed { (c : Codec) (p : Pool) (k : Key) (cell : Cell) (members : List Member) (results : List Bool) (vs : List Event)
        → Survives c p → p.group.frozen ≡ true → p.group.flushed ≡ false → p.group.cells k ≡ Some cell → p.group.done k ≡ false
        → AreJust p (OnTop p cell.top) members → AreApart members → IsWriteTurn k cell members results vs → Mays c p vs }
    ensures ends { (p : Pool) (k : Key) (cell : Cell) (members : List Member) (results : List Bool) (vs : List Event) → IsWriteTurn k cell members results vs
        → TurnEnds p (pool_after vs p) members results (λ j. cond (same_key k j) true (p.group.done j)) p.group.flushed (calls_of vs) }
{}

/// The flush turn of a frozen group is allowed at each of its moments, whichever of its calls fail. It computes
/// nothing: its clauses are the law.
///
/// `marked`: the flushes, member by member, are the calls of its events. `allowed`: the turn may be made where each
/// key's write turn has ended, over just the members on the board, each on a device of its own. Behind it each key
/// is held on each leaf of its top that is still on the board. `ends`: what its events leave of the pool.
pub fn flush_turns_may_be_made()
    ensures marked { (members : List Member) (results : List Bool) (made : List Noted) → IsPhase flush_plan members (map (λ m. true) members) results made
        → (vs : List Event) × (calls_of vs ≡ made) × IsFlushTurn members results vs }
    ensures allowed { (c : Codec) (p : Pool) (members : List Member) (results : List Bool) (vs : List Event)
        → Survives c p → p.group.frozen ≡ true → ((k : Key) (cell : Cell) → p.group.cells k ≡ Some cell → p.group.done k ≡ true)
        → AreJust p (OnBoard p) members → AreApart members → IsFlushTurn members results vs → Mays c p vs }
    ensures ends { (p : Pool) (members : List Member) (results : List Bool) (vs : List Event) → IsFlushTurn members results vs
        → TurnEnds p (pool_after vs p) members results p.group.done true (calls_of vs) }
{}

/// A group without keys may be frozen where none is frozen and a read answers what the pool's record has, as at a create
/// and behind an opening. It computes nothing: its clause is the law.
pub fn empty_groups_may_be_frozen()
    ensures { (c : Codec) (p : Pool) (board : ℕ → Bool) → p.group.frozen ≡ false → ((a : ℕ) → block_at p.reads a ≡ p.written a)
        → ((d : ℕ) → p.member d ≡ true → board d ≡ true → 1 ≤ p.in_top d) → MayFreeze c p (λ k. None) board }
{}
