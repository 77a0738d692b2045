//! Laws of map pages (docs/MODEL.md, "The history of a pool").
ghost use Rattle.std.specs.Prelude.{◌≡◌, ◌⊎◌, ℕ, ◌+◌, ◌<◌, ◌≤◌, Bool, List, Option, Some};
ghost use Rattle.sha2.specs.Sha256.{sha256};
ghost use Rattle.mp_base.specs.declared.place.Key.{Key};
ghost use Rattle.label_store.specs.Rounds.{config_of};
ghost use Rattle.txg_history.specs.Events.{Known};
ghost use Rattle.txg_history.specs.Moves.{ReadsTrue};
ghost use Rattle.txg_history.specs.Pages.{Sum, sum_of, Codec, IsTree, AreDirty, IsReadBack, width, ClashesAt};
ghost use Rattle.txg_history.specs.Pools.{Pool};
ghost use Rattle.txg_history.specs.Premises.{HasGoodLeaf, HasGoodPages, IsSearched};
ghost use Rattle.txg_history.specs.Reads.{IsKeptAt};
ghost use Rattle.txg_history.specs.Records.{Rec, Cell, Cells, IsIn, key, number_of, laid_over, data_start};
ghost use Rattle.txg_history.specs.Survival.{Fits, Survives};

/// The keys of each live record are a tree of pages, and an opening reads it back. It computes nothing: its clauses are
/// the law.
///
/// `freezes`: keys that a freeze lays over others keep the tree, where the page above each of them is among them. `back`:
/// what an opening reads back of a live record, from the root's pointer in its configuration on, are the record's
/// pointers, or it found bytes of a page that aren't the record's and have their sum. `config`: the configuration tells
/// the tops and the logs too. `good`: a leaf of the premise has to have its page, so that a read of it that
/// answers, where the sector is undamaged, gives the page. `found`: so where each page has a good leaf, each is found, by
/// bytes of its sum. Which leaves' reads answer may differ from page to page.
pub fn pages_are_read_back()
    ensures freezes { (c : Codec) (new old : Cells) → IsTree c old → AreDirty c new old → IsTree c (laid_over new old) }
    ensures back { (c : Codec) (p : Pool) (r : Rec) (config : List ℕ) (found : Key → Option (List ℕ))
        (got : Key → Option Sum) → Survives c p → IsIn r p.live → 1 ≤ number_of r
        → config ≡ config_of r.commit → IsReadBack c config found got
        → ((level index : ℕ) → level ≤ 3 → index < width level → got (key level index) ≡ sum_of (r.cells (key level index))) ⊎ ClashesAt r.cells found }
    ensures config { (c : Codec) (p : Pool) (r : Rec) → Survives c p → IsIn r p.live → 1 ≤ number_of r → Fits c p.name p.pool p.room r }
    ensures good { (p : Pool) (r : Rec) (k : Key) (cell : Cell) (answering : ℕ → Bool) → IsIn r p.live
        → r.cells k ≡ Some cell → (good : HasGoodLeaf p r cell answering)
        → IsKeptAt p good.d (data_start + cell.sector) cell.block }
    ensures found { (c : Codec) (p : Pool) (r : Rec) (answering : Key → ℕ → Bool) (known : Known) (found : Key → Option (List ℕ)) → Survives c p → IsIn r p.live
        → HasGoodPages p r answering → ReadsTrue p.sectors known → IsSearched p r answering known found
        → (level index : ℕ) (cell : Cell) → 1 ≤ level → level ≤ 3 → r.cells (key level index) ≡ Some cell
        → (bytes : List ℕ) × (found (key level index) ≡ Some bytes) × (sha256 bytes ≡ sha256 cell.block) }
{}
