//! Laws of contents and of members (docs/MODEL.md, "The history of a pool").
ghost use Rattle.std.specs.Prelude.{◌≡◌, ◌⊎◌, ℕ, true, List};
ghost use Rattle.txg_history.specs.Contents.{BegunAt};
ghost use Rattle.txg_history.specs.Events.{Event, BringsIn};
ghost use Rattle.txg_history.specs.Moves.{IsDrawnUp, Mays};
ghost use Rattle.txg_history.specs.Pages.{Codec};
ghost use Rattle.txg_history.specs.Pools.{Pool, pool_after};
ghost use Rattle.txg_history.specs.Records.{Rec, IsIn, block_at};
ghost use Rattle.txg_history.specs.Survival.{Survives};

/// A live record contains what a read answered at the last freeze before its round. It computes nothing: its clauses are
/// the law.
///
/// `drawn`: a record that is drawn up has what a read answered at the freeze of its group. `live`: what is live behind some
/// events was live before them, or its round began among them, and it has what was accepted before the last
/// freeze before that.
pub fn records_have_what_was_accepted()
    ensures drawn { (c : Codec) (p : Pool) (q : Rec) → Survives c p → IsDrawnUp c p q → (a : ℕ) → block_at q a ≡ p.group.content a }
    ensures live { (c : Codec) (vs : List Event) (p : Pool) (r : Rec) → Survives c p → Mays c p vs → IsIn r (pool_after vs p).live
        → IsIn r p.live ⊎ BegunAt p.written p.group.content vs r }
{}

/// A member was one before some events, or one of them brought it in. It computes nothing: its clause is the law.
pub fn members_are_brought_in()
    ensures { (vs : List Event) (p : Pool) (d : ℕ) → (pool_after vs p).member d ≡ true → (p.member d ≡ true) ⊎ BringsIn vs d }
{}
