//! Scans as rows (docs/MODEL.md, "Moves").
ghost use Rattle.std.specs.Prelude.{◌⊎◌, List};
ghost use Rattle.bank_core.specs.Disk.{AllAnswer};
ghost use Rattle.txg_history.specs.Pages.{Codec};
ghost use Rattle.pool_moves.specs.Keeping.{Kept, Walks};
ghost use Rattle.pool_moves.specs.Moves.{Move};
ghost use Rattle.pool_moves.specs.ReadRow.{made_in};
ghost use Rattle.pool_moves.specs.ScanRows.{StepReply, RowStep, first_reads, FoundClash, ScrubReply, RowScrub, StopReply, RowStopScrub};
ghost use Rattle.pool_moves.specs.States.{PoolState, Side};

/// A scan's steps and its end may be made, also while a group is frozen, and so may the lines that start and stop a scrub. It
/// computes nothing: its clauses are the law.
///
/// `step`: the reads of the next key, the rewriting of copies that gave wrong bytes, the copies to leaves that owe it, and in a
/// scrub the further looks; or, where no key is left, the flush of each eligible leaf, behind which its log is cleared. It is so
/// on a bank whose calls answer as the disk model says, or the reads that came first gave bytes that aren't the block of a key and have its sum.
pub fn scans_may_be_made()
    ensures step { (c : Codec) (s : PoolState) (t : Side) (vs : List Move) (reply : StepReply) → Kept c s t → AllAnswer t.pool.sectors (made_in vs)
        → RowStep s vs reply → Walks c t vs ⊎ FoundClash t.pool (first_reads (made_in vs)) }
    ensures scrub { (c : Codec) (s : PoolState) (t : Side) (vs : List Move) (reply : ScrubReply) → Kept c s t → RowScrub s vs reply → Walks c t vs }
    ensures stop { (c : Codec) (s : PoolState) (t : Side) (vs : List Move) (reply : StopReply) → RowStopScrub s vs reply → Walks c t vs }
{}
