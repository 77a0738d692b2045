//! Which moves a history refuses (docs/MODEL.md, "The history of a pool").
ghost use Rattle.std.specs.Prelude.{◌≡◌, ◌≢◌, ℕ, ◌+◌, ◌<◌, ◌≤◌, Bool, true, false, List, [], ◌∷◌, length, Option, Some, None};
ghost use Rattle.mp_base.specs.declared.place.Key.{Key};
ghost use Rattle.bank_core.specs.Disk.{Write, Noted};
ghost use Rattle.label_store.specs.Records.{place_at};
ghost use Rattle.label_store.specs.Uberblock.{IsInRange, uberblock_bytes};
ghost use Rattle.label_store.specs.declared.uberblock.Uberblock.{Uberblock};
ghost use Rattle.txg_history.specs.Events.{Calls, Freezes, Begins, Passes, Clears};
ghost use Rattle.txg_history.specs.Groups.{Logs};
ghost use Rattle.txg_history.specs.Moves.{Mays};
ghost use Rattle.txg_history.specs.Pages.{Codec};
ghost use Rattle.txg_history.specs.Pools.{Pool, drawn};
ghost use Rattle.txg_history.specs.Records.{Rec, Cell, Cells, IsIn, AreAtOne, number_of, data_start};
ghost use Rattle.txg_history.specs.Survival.{IsAmong, Survives};

/// Histories that would lose data are none. It computes nothing: its clauses are tests of what a history may be.
///
/// `reuse`: a freeze gives a key the place of a live record's key. `early_round`: a round begins before the flush turn has
/// ended. `empty_board`: a round begins where a top has no leaf on the board. `early_uberblock`: an uberblock with a
/// number of which no round began goes into a member's ring. `skipped`: a
/// scan comes past a key that an eligible leaf owes, which no call that answered Ok wrote there in this step, damaged or not, and
/// which isn't in the leaf's SCRUB log.
/// `early_clear`: a leaf's log is cleared right behind a copy, before the flush.
pub fn wrong_moves_are_refused()
    ensures reuse { (c : Codec) (p : Pool) (cells : Cells) (board : ℕ → Bool) (r : Rec) (j k : Key) (a b : Cell)
        → Survives c p → IsIn r p.live → r.cells j ≡ Some a → cells k ≡ Some b
        → AreAtOne a b → Mays c p (Freezes cells board ∷ []) → ⊥ }
    ensures early_round { (c : Codec) (p : Pool) (q : Rec) → p.group.flushed ≡ false → Mays c p (Begins q ∷ []) → ⊥ }
    ensures empty_board { (c : Codec) (p : Pool) (q : Rec) (d : ℕ) → p.member d ≡ true → 1 ≤ p.in_top d
        → ((e : ℕ) → p.member e ≡ true → p.in_top e ≡ p.in_top d → p.group.board e ≡ false) → Mays c p (Begins q ∷ []) → ⊥ }
    ensures early_uberblock { (c : Codec) (p : Pool) (d place : ℕ) (u : Uberblock) (noted : Noted) → p.member d ≡ true
        → place < 128 → IsInRange u → 1 ≤ u.number.0
        → ((r : Rec) → IsIn r (drawn p) → number_of r ≢ u.number.0) → noted.call ≡ Write d (place_at (p.size d) place)
        (uberblock_bytes u) None → Mays c p (Calls noted ∷ []) → ⊥ }
    ensures skipped { (c : Codec) (p : Pool) (k : Key) (cell : Cell) (scrub : Logs) (d : ℕ) → p.member d ≡ true
        → p.scan.eligible d ≡ true → p.reads.cells k ≡ Some cell
        → p.in_top d ≡ cell.top → p.owes d cell.birth ≡ true → scrub d cell.birth ≡ false
        → (IsAmong cell.block (p.copies d (data_start + cell.sector)) → ⊥)
        → Mays c p (Passes k scrub ∷ []) → ⊥ }
    ensures early_clear { (c : Codec) (p : Pool) (k : Key) (cell : Cell) (d : ℕ) (noted : Noted) → p.member d ≡ true
        → p.reads.cells k ≡ Some cell → p.in_top d ≡ cell.top
        → p.scan.passed k ≡ true → cell.birth ≤ p.scan.hi → p.scan.scrub d cell.birth ≡ false → length cell.block ≡ 4096
        → noted.call ≡ Write d (data_start + cell.sector) cell.block None → noted.damage d
        (data_start + cell.sector) ≡ false → (p.sectors d (data_start + cell.sector)).damaged ≡ false
        → Mays c p (Calls noted ∷ Clears d ∷ []) → ⊥ }
{}
