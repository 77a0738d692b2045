//! The laws of all moves (docs/MODEL.md, "Moves").
ghost use Rattle.std.specs.Prelude.{◌≡◌, ℕ, List, take};
ghost use Rattle.txg_history.specs.Pages.{Codec};
ghost use Rattle.pool_moves.specs.Keeping.{Kept, Admits, Walks};
ghost use Rattle.pool_moves.specs.Moves.{Move, step, steps, after_move, after_moves};
ghost use Rattle.pool_moves.specs.States.{Side, seen, PoolState};

/// What is seen of a pool behind a move is the move's step from what was seen before it. It computes nothing: its clause
/// is the law.
///
/// So code that shows of its state that it took a move's step shows that its state is still what is seen of the history.
pub fn moves_step_what_is_seen()
    ensures { (c : Codec) (v : Move) (s : PoolState) (t : Side) → Kept c s t → Admits t v → seen (after_move v t) ≡ step v (seen t) }
{}

/// A state keeps what it kept behind each front of a walk: a list of moves each of which the history allows and the state
/// admits. It computes nothing: its clause is the law.
///
/// A front may end anywhere, between two device calls too, so a line that shows its walk has shown all that is said of its
/// moments.
pub fn walks_keep_the_state()
    ensures { (c : Codec) (vs : List Move) (s : PoolState) (t : Side) → Kept c s t → Walks c t vs → (i : ℕ) → Kept c (steps (take i vs) s) (after_moves (take i vs) t) }
{}
