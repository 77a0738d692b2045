//! Lines that change a tree, as rows (docs/MODEL.md, "Moves").
ghost use Rattle.std.specs.List.{AllByRecursion};
ghost use Rattle.std.specs.Prelude.{ℕ, List};
ghost use Rattle.txg_history.specs.Pages.{Codec};
ghost use Rattle.pool_moves.specs.Keeping.{Kept, Walks};
ghost use Rattle.pool_moves.specs.Leaves.{Seat};
ghost use Rattle.pool_moves.specs.LineRows.{IsSized};
ghost use Rattle.pool_moves.specs.Moves.{Move, steps};
ghost use Rattle.pool_moves.specs.States.{PoolState, Side};
ghost use Rattle.pool_moves.specs.TreeLeaves.{AreTreeLeaves, IsCalm};
ghost use Rattle.pool_moves.specs.TreeRows.{Graft, GraftReply, RowGraft, DetachReply, RowDetach, IsSeatOf};

/// Leaves may be brought in and taken out. It computes nothing: its clauses are the law.
///
/// `graft`: `attach` and `replace`, also while a group is frozen and a scan runs: the pool loses the device, stamps it, whichever
/// call fails, and the leaf comes in under the next member number, which no live record knows. `detach`: the leaf goes, the pool
/// commits without it, and its device is cleaned; or the group is suspended, and the leaf is back as it was. No code knows where the
/// history has the leaf, so the row is one for each seat, and its law is for the right one (`IsSeatOf`).
pub fn trees_may_be_changed()
    ensures graft { (c : Codec) (size : ℕ → ℕ) (graft : Graft) (s : PoolState) (t : Side) (name new : List ℕ) (d : ℕ) (vs : List Move) (reply : GraftReply)
        → Kept c s t → IsSized size t → RowGraft size graft s name new d vs reply → Walks c t vs }
    ensures detach { (c : Codec) (size : ℕ → ℕ) (s : PoolState) (t : Side) (name : List ℕ) (seat : Seat) (vs : List Move) (reply : DetachReply)
        → Kept c s t → IsSized size t → IsSeatOf s t name seat → RowDetach c size s name seat vs reply → Walks c t vs }
{}

/// The trees of a state, and its list of leaves, tell of the same leaves in the same order, behind lines that change them too. It
/// computes nothing: its clauses are the law.
///
/// `graft`: a leaf is put in behind the last one of its top, or behind the one that it takes over from. `detach`: one is taken out,
/// and a vdev that it leaves with one leaf becomes that leaf; or it is back. `others`: moves that bring no leaf, take none and
/// change no tree, as those of all other lines are.
pub fn trees_have_the_leaves()
    ensures graft { (c : Codec) (size : ℕ → ℕ) (graft : Graft) (s : PoolState) (t : Side) (name new : List ℕ) (d : ℕ) (vs : List Move) (reply : GraftReply)
        → Kept c s t → AreTreeLeaves s → RowGraft size graft s name new d vs reply → AreTreeLeaves (steps vs s) }
    ensures detach { (c : Codec) (size : ℕ → ℕ) (s : PoolState) (name : List ℕ) (seat : Seat) (vs : List Move) (reply : DetachReply)
        → AreTreeLeaves s → RowDetach c size s name seat vs reply → AreTreeLeaves (steps vs s) }
    ensures others { (vs : List Move) (s : PoolState) → AllByRecursion IsCalm vs → AreTreeLeaves s → AreTreeLeaves (steps vs s) }
{}
