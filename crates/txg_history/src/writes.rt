//! Which calls a pool may make outside of a group's turns, and what reads show (docs/MODEL.md, "The history of a pool").
ghost use Rattle.std.specs.Prelude.{◌≡◌, ◌≢◌, ℕ, ◌+◌, ◌≤◌, true, false, List, [], ◌∷◌, length, Option, Some, None};
ghost use Rattle.mp_base.specs.declared.place.Key.{Key};
ghost use Rattle.bank_core.specs.declared.bank.Fault.{Fault};
ghost use Rattle.bank_core.specs.Asks.{Ask, IsPart};
ghost use Rattle.bank_core.specs.Disk.{Nothing, Sectors, Read, Write, Flush, Noted, Answers, as_found, run};
ghost use Rattle.bank_core.specs.Standing.{Untouched};
ghost use Rattle.txg_history.specs.Events.{Calls, Clears, as_events};
ghost use Rattle.txg_history.specs.Moves.{IsSparing, WasCopied, Mays};
ghost use Rattle.txg_history.specs.Needs.{NeedsScan};
ghost use Rattle.txg_history.specs.Pages.{Codec};
ghost use Rattle.txg_history.specs.Pools.{Pool, after, pool_after};
ghost use Rattle.txg_history.specs.Reads.{IsKeptAt, NoneHeals};
ghost use Rattle.txg_history.specs.Records.{Cell, data_start};
ghost use Rattle.txg_history.specs.Sparing.{AreSparing, AreElsewhere, WriteNothing};
ghost use Rattle.txg_history.specs.Survival.{Survives};

/// Calls that spare what is needed are allowed, whatever they answer. It computes nothing: its clauses are the law.
///
/// `allowed`: the calls of such a plan, up to the first that fails. `reading`: a plan that only reads and flushes is
/// one. `elsewhere`: so is a plan that aims at no member's device.
pub fn plans_may_be_made()
    ensures allowed { (c : Codec) (p : Pool) (plan : List Ask) (made : List Noted) (outcome : Option Fault)
        → AreSparing p plan → IsPart plan made outcome → Mays c p (as_events made) }
    ensures reading { (p : Pool) (plan : List Ask) → WriteNothing plan → AreSparing p plan }
    ensures elsewhere { (p : Pool) (plan : List Ask) → AreElsewhere p plan → AreSparing p plan }
{}

/// A key that the pool reads may be written again to a leaf of its top. It computes nothing: its clauses are the law.
///
/// `heals`: over a sector that is damaged. That the frozen group has no key there follows from the invariant. `copies`:
/// to a leaf for which the key's birth is settled, where no scan that runs has come past the key there. `copied`: a
/// write that answered Ok, and calls behind it that put nothing there, leave the copy of which a scan may come past.
/// `clears`: where a scan came past each key up to its last number, the flush of an eligible leaf that answered Ok lets
/// its log be cleared.
pub fn keys_may_be_written_again()
    ensures heals { (c : Codec) (p : Pool) (k : Key) (cell : Cell) (d : ℕ) (fault : Option Fault) → Survives c p → p.reads.cells k ≡ Some cell
        → (p.member d ≡ true → (p.in_top d ≡ cell.top) × ((p.sectors d (data_start + cell.sector)).damaged ≡ true))
        → IsSparing p (Write d (data_start + cell.sector) cell.block fault) }
    ensures copies { (c : Codec) (p : Pool) (k : Key) (cell : Cell) (d : ℕ) (fault : Option Fault) → Survives c p → p.reads.cells k ≡ Some cell
        → (p.member d ≡ true → (p.in_top d ≡ cell.top) × (p.settled d cell.birth ≡ true)
        × (NeedsScan p.scan p.reads p.in_top d (data_start + cell.sector) cell.block → ⊥))
        → IsSparing p (Write d (data_start + cell.sector) cell.block fault) }
    ensures copied { (p : Pool) (noted : Noted) (made : List Noted) (d : ℕ) (cell : Cell)
        → noted.call ≡ Write d (data_start + cell.sector) cell.block None → length cell.block ≡ 4096
        → Untouched made d (data_start + cell.sector) → WasCopied (pool_after (as_events (noted ∷ made)) p) d cell }
    ensures clears { (c : Codec) (p : Pool) (d : ℕ) (noted : Noted) → Survives c p → p.scan.running ≡ true → p.scan.eligible d ≡ true
        → ((k : Key) (cell : Cell) → p.reads.cells k ≡ Some cell → cell.birth ≤ p.scan.hi → p.scan.passed k ≡ true) → noted.call ≡ Flush d None
        → Mays c p (Calls noted ∷ Clears d ∷ []) }
{}

/// A read of a block that a leaf has to have shows it. It computes nothing: its clauses are the law.
///
/// The block is one of a live record or of the record that the pool reads, and the leaf's log lacks its birth.
/// `clean`: an undamaged sector has it, and nothing is on the way there. `right`: a read that answered, of a sector
/// that is undamaged behind it, gives it. `damage`: so a read that answered other bytes shows that the sector is
/// damaged. `stays`: it is so until a flush of the device.
pub fn reads_show_the_block()
    ensures clean { (c : Codec) (p : Pool) (d s : ℕ) (block : List ℕ) → Survives c p → p.member d ≡ true
        → IsKeptAt p d s block → (p.sectors d s).damaged ≡ false
        → ((p.sectors d s).stable ≡ block) × ((p.sectors d s).pending ≡ Nothing) }
    ensures right { (c : Codec) (p : Pool) (noted : Noted) (d s : ℕ) (bytes block : List ℕ) → Survives c p → p.member d ≡ true → IsKeptAt p d s block
        → noted.call ≡ Read d s bytes None → length bytes ≡ 4096 → Answers (as_found noted p.sectors) noted.call
        → ((after (Calls noted) p).sectors d s).damaged ≡ false → bytes ≡ block }
    ensures damage { (c : Codec) (p : Pool) (noted : Noted) (d s : ℕ) (bytes block : List ℕ) → Survives c p → p.member d ≡ true → IsKeptAt p d s block
        → noted.call ≡ Read d s bytes None → length bytes ≡ 4096 → Answers (as_found noted p.sectors) noted.call
        → bytes ≢ block → ((after (Calls noted) p).sectors d s).damaged ≡ true }
    ensures stays { (made : List Noted) (d s : ℕ) (sectors : Sectors) → NoneHeals made d → (sectors d s).damaged ≡ true
        → (run made sectors d s).damaged ≡ true }
{}
