//! Laws of scans (docs/MODEL.md, "The history of a pool").
ghost use Rattle.std.specs.Prelude.{◌≡◌, ℕ, true, false, List, [], ◌∷◌, ◌++◌};
ghost use Rattle.txg_history.specs.Copies.{IsCopiedGroup, MayTakeGroup};
ghost use Rattle.txg_history.specs.Events.{Event, Clears};
ghost use Rattle.txg_history.specs.Moves.{May, Mays};
ghost use Rattle.txg_history.specs.Pages.{Codec};
ghost use Rattle.txg_history.specs.Pools.{Pool, after, pool_after};
ghost use Rattle.txg_history.specs.Survival.{Survives};

/// Scans clear only copied groups. It computes nothing: its clauses are the law.
///
/// `copied`: a group that a scan's end takes from a leaf's log was copied by this scan. Each of its keys on the leaf's top that
/// the pool still reads was passed, and then the leaf didn't owe it, or it was written there in that step by a call that answered
/// Ok; and the leaf has it now, or its sector is damaged. The history may begin anywhere where no scan runs. `only`: a
/// group leaves a leaf's log otherwise only where its number is burned, at an opening, or where another leaf comes in its place.
pub fn scans_clear_only_copied_groups()
    ensures copied { (c : Codec) (p : Pool) (vs : List Event) (d g : ℕ) → Survives c p → p.scan.running ≡ false → Mays c p (vs ++ Clears d ∷ [])
        → (pool_after vs p).member d ≡ true → (pool_after vs p).owes d g ≡ true → (pool_after (vs ++ Clears d ∷ []) p).owes d g ≡ false
        → IsCopiedGroup p vs d g }
    ensures only { (c : Codec) (p : Pool) (v : Event) (d g : ℕ) → May c p v → p.owes d g ≡ true → (after v p).owes d g ≡ false → MayTakeGroup p v d g }
{}
