//! Which moves the lines of a pool may make (docs/MODEL.md, "Moves").
ghost use Rattle.std.specs.Option.{is_some};
ghost use Rattle.std.specs.Prelude.{◌≡◌, ◌⊎◌, ◌≤◌, ℕ, Bool, List};
ghost use Rattle.bank_core.specs.Disk.{AllAnswer, run};
ghost use Rattle.txg_history.specs.Pages.{Codec, IsClash};
ghost use Rattle.txg_history.specs.Records.{Cells, key};
ghost use Rattle.pool_moves.specs.AwayRows.{WriteReply, RowWrite, OfflineReply, RowOffline};
ghost use Rattle.pool_moves.specs.CommitRows.{IsOpened, RowReopen, RowFound, NamedLog, RowLogs};
ghost use Rattle.pool_moves.specs.FreezeRow.{AreDirtyKeys, RowFreeze, RowEmptyFreeze};
ghost use Rattle.pool_moves.specs.Keeping.{Kept, Walks};
ghost use Rattle.pool_moves.specs.LineRows.{IsSized, TurnReply, RowTurn, FreezeReply, RowFreezeLine, SyncReply, RowSync};
ghost use Rattle.pool_moves.specs.Making.{IsMade};
ghost use Rattle.pool_moves.specs.Missing.{AllMissed};
ghost use Rattle.pool_moves.specs.Moves.{Move};
ghost use Rattle.pool_moves.specs.ReadRow.{ReadReply, Gives, Exhausted, RowRead, ClashesWith, made_in};
ghost use Rattle.pool_moves.specs.Refusing.{dirty_at, is_written};
ghost use Rattle.pool_moves.specs.Showing.{LeafShown};
ghost use Rattle.pool_moves.specs.States.{PoolState, Side};

/// A pool that was just made is kept by its state, so nothing that is said of kept states is empty. It computes nothing: its
/// clause is the law.
pub fn made_pools_are_kept()
    ensures { (c : Codec) (s : PoolState) (t : Side) → IsMade s t → Kept c s t }
{}

/// A pool whose opening has read a live record is kept by its state, and groups without keys may be committed. It computes
/// nothing: its clauses are the law.
///
/// `opened`: the state behind the labels' reads, before the commit. `reopen`: that commit, by a flush turn and rounds. `found`:
/// the commit of a create, by one round. `logs`: a line that makes no move.
pub fn pools_may_be_opened()
    ensures opened { (c : Codec) (s : PoolState) (t : Side) → IsOpened c s t → Kept c s t }
    ensures reopen { (c : Codec) (size : ℕ → ℕ) (s : PoolState) (t : Side) (vs : List Move) (reply : TurnReply) → Kept c s t → IsSized size t
        → RowReopen c size s vs reply → Walks c t vs }
    ensures found { (c : Codec) (size : ℕ → ℕ) (s : PoolState) (t : Side) (vs : List Move) (whole : Bool) → Kept c s t → IsSized size t
        → RowFound c size s vs whole → Walks c t vs }
    ensures logs { (c : Codec) (s : PoolState) (t : Side) (vs : List Move) (logs : List NamedLog) → RowLogs s vs logs → Walks c t vs }
{}

/// A freeze may be made. It computes nothing: its clauses are the law.
///
/// `dirty`: of the open writes and the pages above them, each at the least place that is left, over the readable leaves.
/// `line`: where no group is frozen and nothing refuses it, else none. `empty`: without keys, as at a create and
/// behind an opening. `keys`: the keys of a freeze are just those that its writes make dirty, which a refusal for want of room counts.
pub fn freezes_may_be_made()
    ensures dirty { (c : Codec) (s : PoolState) (t : Side) (vs : List Move) → Kept c s t → RowFreeze c s vs → Walks c t vs }
    ensures line { (c : Codec) (s : PoolState) (t : Side) (vs : List Move) (reply : FreezeReply) → Kept c s t → RowFreezeLine c s vs reply → Walks c t vs }
    ensures empty { (c : Codec) (s : PoolState) (t : Side) (vs : List Move) → Kept c s t → RowEmptyFreeze s vs → Walks c t vs }
    ensures keys { (c : Codec) (s : PoolState) (cells : Cells) (level index : ℕ) → AreDirtyKeys c s cells → level ≤ 3
        → is_some (cells (key level index)) ≡ dirty_at level (is_written s) index }
{}

/// A group's turns may be made, whichever of their calls fail. It computes nothing: its clauses are the law.
///
/// `turn`: a write turn, the flush turn or a round, with the leaves that leave the board, their counts, and what ends the
/// turn: a further number, an acknowledgement, or the group suspended. `sync`: a group ended by its turns, and a new one
/// frozen and ended. The run has the devices with the sectors that the history says (`IsSized`).
pub fn turns_may_be_made()
    ensures turn { (c : Codec) (size : ℕ → ℕ) (s : PoolState) (t : Side) (vs : List Move) (reply : TurnReply) → Kept c s t → IsSized size t
        → RowTurn c size s vs reply
        → Walks c t vs }
    ensures sync { (c : Codec) (size : ℕ → ℕ) (s : PoolState) (t : Side) (vs : List Move) (reply : SyncReply) → Kept c s t → IsSized size t
        → RowSync c size s vs reply
        → Walks c t vs }
{}

/// A write may be taken, and a leaf may go offline, also in the middle of a group. It computes nothing: its clauses are the
/// law.
pub fn leaves_may_go_offline()
    ensures write { (c : Codec) (s : PoolState) (t : Side) (a : ℕ) (block : List ℕ) (vs : List Move) (reply : WriteReply) → RowWrite s a block vs reply
        → Walks c t vs }
    ensures offline { (c : Codec) (s : PoolState) (t : Side) (name : List ℕ) (temporary : Bool) (vs : List Move) (reply : OfflineReply) → Kept c s t
        → RowOffline s name temporary vs reply → Walks c t vs }
{}

/// A read may be made and gives the block that was written last, but where that block and the bytes of this very reply are
/// two byte strings with one SHA-256 sum. It computes nothing: its clauses are the law.
///
/// `walk`: its reads, and the rewriting of copies that gave wrong bytes, on a bank whose calls answer as the disk model says.
/// `right`: what it gives, whichever copies fail or are damaged. `exhausted`: it is refused only where each readable leaf of the
/// block's top missed it: its log has the block's group, or in this line a read of its sector failed, or the sector is damaged.
pub fn reads_give_the_block()
    ensures walk { (c : Codec) (s : PoolState) (t : Side) (a : ℕ) (vs : List Move) (reply : ReadReply) → Kept c s t → AllAnswer t.pool.sectors (made_in vs)
        → RowRead s a vs reply → Walks c t vs ⊎ ClashesWith (t.pool.written a) reply }
    ensures right { (c : Codec) (s : PoolState) (t : Side) (a : ℕ) (vs : List Move) (bytes : List ℕ) → Kept c s t → RowRead s a vs (Gives bytes)
        → (bytes ≡ t.pool.written a) ⊎ IsClash (t.pool.written a) bytes }
    ensures exhausted { (c : Codec) (s : PoolState) (t : Side) (a : ℕ) (vs : List Move) (shown : List LeafShown) → Kept c s t → AllAnswer t.pool.sectors (made_in vs)
        → RowRead s a vs (Exhausted shown) → AllMissed (s.core.committed (key 0 a)) (made_in vs) (run (made_in vs) t.pool.sectors) s.core.leaves }
{}
