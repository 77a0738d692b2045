//! What openings find, read and commit, and leaves that come back (docs/MODEL.md, "Moves").
ghost use Rattle.std.specs.Prelude.{◌≡◌, ◌⊎◌, ℕ, Bool, true, false, List, map, Option, None};
ghost use Rattle.bank_core.specs.Disk.{Sectors, Noted, AllAnswer, run};
ghost use Rattle.label_store.specs.declared.found.Found.{Found};
ghost use Rattle.mp_base.specs.declared.number.Guid.{Guid};
ghost use Rattle.mp_base.specs.declared.place.Key.{Key};
ghost use Rattle.txg_history.specs.Events.{Event, Opens, as_events};
ghost use Rattle.txg_history.specs.Looks.{known_by};
ghost use Rattle.txg_history.specs.Losses.{LoseJust};
ghost use Rattle.txg_history.specs.Moves.{Mays};
ghost use Rattle.txg_history.specs.Numbering.{renumbered};
ghost use Rattle.txg_history.specs.Pages.{LeafKept, Codec, ClashesAt};
ghost use Rattle.txg_history.specs.Pools.{Pool, after, pool_after};
ghost use Rattle.txg_history.specs.Premises.{Premises, HasNoTwin};
ghost use Rattle.txg_history.specs.Records.{Rec};
ghost use Rattle.txg_history.specs.Survival.{Survives};
ghost use Rattle.pool_moves.specs.CommitRows.{IsOpened};
ghost use Rattle.pool_moves.specs.Keeping.{Kept, Walks};
ghost use Rattle.pool_moves.specs.LineRows.{IsSized, TurnReply};
ghost use Rattle.pool_moves.specs.Making.{IsMade};
ghost use Rattle.pool_moves.specs.Moves.{Move};
ghost use Rattle.pool_moves.specs.OnlineRow.{HostDevice, OnlineReply, RowOnline, FindMembers};
ghost use Rattle.pool_moves.specs.Opened.{opened_leaves, opened_side, claims_of};
ghost use Rattle.pool_moves.specs.OpeningRow.{SeekReply, RowSeek, HasSizes, IsLiveOne, SeeksLive, AreWholeReads, AreSought, OpenReply, Opens_state, NoPage, RowOpen, page_calls, MayTurns, IsLostPage, RowResume};
ghost use Rattle.pool_moves.specs.PageReads.{LeafShown, answers_in};
ghost use Rattle.pool_moves.specs.ReadRow.{made_in};
ghost use Rattle.pool_moves.specs.Resilvers.{Resilvers};
ghost use Rattle.pool_moves.specs.Rosters.{IsListed, IsRoster, roster_after, devices_of};
ghost use Rattle.pool_moves.specs.StampRow.{NewMember, NewLeaf, Stamp, calls_of_stamps, AreStamps, stamp_events, stamped_devices, new_side, new_state, CreateReply, RowCreate};
ghost use Rattle.pool_moves.specs.States.{PoolState, Side};
ghost use Rattle.pool_moves.specs.Walking.{as_moves};

/// The members of a pool stand on a list, and no two have one number. It computes nothing: its clauses are the law.
///
/// `begins`: the devices of a pool that was just made. `goes_on`: behind any events, with the devices that they brought in.
/// `anew`: where the devices get other numbers, and each member's new number is told by its old one.
pub fn members_stand_on_a_list()
    ensures begins { (s : PoolState) (t : Side) → IsMade s t → IsRoster t.pool (devices_of t.seats) }
    ensures goes_on { (vs : List Event) (p : Pool) (devs : List ℕ) → IsRoster p devs → IsRoster (pool_after vs p) (roster_after vs devs) }
    ensures anew { (p : Pool) (was now : ℕ → ℕ) (devs : List ℕ) → IsRoster p devs → ((d : ℕ) → p.member (was d) ≡ true → now (was d) ≡ d)
        → IsRoster (renumbered was p) (map now devs) }
{}

/// What an opening's looks at all labels come to, of a pool of the name that is asked: a live record, not below the
/// acknowledged one. It computes nothing: its clause is the law.
///
/// So it never answers that there is no record. The looks, what they showed and the reading of the record are events that the
/// pool's history may have.
pub fn openings_seek_a_live_record()
    ensures { (c : Codec) (size : ℕ → ℕ) (devs : List ℕ) (name : List ℕ) (made : List Noted) (p : Pool) (reply : SeekReply)
        → Survives c p → HasSizes size p → p.name ≡ name → AllAnswer p.sectors made → (row : RowSeek c size devs name made reply)
        → Premises c.head_of (pool_after (as_events made) p) (known_by size devs row.looks)
        → SeeksLive c p made (known_by size devs row.looks) reply }
{}

/// An opening reads the live record that it found: it comes to a state that is what the pool's history has, or the bytes of a
/// page that it read and the record's are two with one SHA-256 sum. It computes nothing: its clauses are the law.
///
/// `state`: the state to which the searches for the leaves' identities and the reading of the map come is what the history has
/// from the record's reading on, so it is kept at each of their calls. Each leaf is where the history has it: where it was found,
/// at the member of its number that this run didn't find, or at none. `calls`: the calls may be made, the rewriting of wrong
/// copies too, however they end. `turns`: so they may page by page, where only the bytes of the pages so far don't clash.
/// `pages`: a page that is told as lost is the record's, and no leaf that was found, is readable and whose reads didn't fail has
/// it undamaged. `no_twin`: there is no twin where no device that is no member is handed in under a
/// leaf's name with the leaf's identity, and no ring sector was torn into a correct uberblock.
pub fn openings_read_the_record()
    ensures state { (c : Codec) (size : ℕ → ℕ) (handed : List ℕ → Option ℕ) (name : List ℕ) (p : Pool) (r : Rec) (roster : List ℕ)
        (found : Found) (made : List Noted) (s : PoolState)
        → Survives c p → p.name ≡ name → IsLiveOne p found r → IsRoster p roster
        → (row : RowOpen c size handed name found made (Opens_state s)) → AllAnswer p.sectors made → HasNoTwin p r (claims_of (c.leaves found.blob.items) row.devs)
        → (IsOpened c s (opened_side p r roster (c.leaves found.blob.items) row.devs)
        × Walks c (opened_side p r roster (c.leaves found.blob.items) row.devs) (as_moves made)) ⊎ ClashesAt r.cells row.bytes }
    ensures calls { (c : Codec) (size : ℕ → ℕ) (handed : List ℕ → Option ℕ) (name : List ℕ) (p : Pool) (r : Rec)
        (found : Found) (made : List Noted) (reply : OpenReply)
        → Survives c p → p.name ≡ name → IsLiveOne p found r
        → (row : RowOpen c size handed name found made reply) → AllAnswer p.sectors made → HasNoTwin p r (claims_of (c.leaves found.blob.items) row.devs)
        → Mays c (after (Opens r) p) (as_events made) ⊎ ClashesAt r.cells row.bytes }
    ensures turns { (c : Codec) (size : ℕ → ℕ) (handed : List ℕ → Option ℕ) (name : List ℕ) (p : Pool) (r : Rec)
        (found : Found) (made : List Noted) (reply : OpenReply)
        → Survives c p → p.name ≡ name → IsLiveOne p found r
        → (row : RowOpen c size handed name found made reply) → AllAnswer p.sectors made → HasNoTwin p r (claims_of (c.leaves found.blob.items) row.devs)
        → MayTurns c (pool_after (as_events row.ids) (after (Opens r) p)) r.cells row.bytes row.turns row.last }
    ensures pages { (c : Codec) (size : ℕ → ℕ) (handed : List ℕ → Option ℕ) (name : List ℕ) (p : Pool) (r : Rec)
        (found : Found) (made : List Noted) (page : Key) (shown : List LeafShown)
        → Survives c p → p.name ≡ name → IsLiveOne p found r
        → (row : RowOpen c size handed name found made (NoPage page shown)) → AllAnswer p.sectors made
        → HasNoTwin p r (claims_of (c.leaves found.blob.items) row.devs)
        → IsLostPage (pool_after (as_events made) (after (Opens r) p)) r page (answers_in (opened_leaves (c.leaves found.blob.items) row.devs) (page_calls row))
        ⊎ ClashesAt r.cells row.bytes }
    ensures no_twin { (c : Codec) (size : ℕ → ℕ) (handed : List ℕ → Option ℕ) (name : List ℕ) (p : Pool) (r : Rec)
        (found : Found) (made : List Noted) (reply : OpenReply)
        → Survives c p → HasSizes size p → IsLiveOne p found r → (row : RowOpen c size handed name found made reply) → AreWholeReads p row.ids
        → ((d : ℕ) (m : Guid) → claims_of (c.leaves found.blob.items) row.devs d m ≡ true → p.member d ≡ true)
        → HasNoTwin p r (claims_of (c.leaves found.blob.items) row.devs) }
{}

/// An opening may be committed, and a resilver may start behind it. It computes nothing: its clauses are the law.
///
/// `commit`: the record again, under the next number; where a top has no readable leaf nothing is drawn. `resilver`: behind an
/// acknowledgement, where a readable leaf owes a group.
pub fn openings_may_be_committed()
    ensures commit { (c : Codec) (size : ℕ → ℕ) (s : PoolState) (t : Side) (vs : List Move) (reply : TurnReply)
        → Kept c s t → IsSized size t → RowResume c size s vs reply → Walks c t vs }
    ensures resilver { (c : Codec) (s : PoolState) (t : Side) (vs : List Move) → Kept c s t → Resilvers s.core vs → Walks c t vs }
{}

/// A leaf may come online, also in the middle of a group, and where nothing is to be done. It computes nothing: its clause is
/// the law.
///
/// It is assumed that no ring sector that was read is torn into a correct uberblock, and that a device which has the leaf's
/// identity, and is handed in under its name, is a member. That it is the leaf's own device follows.
pub fn leaves_may_come_online()
    ensures { (c : Codec) (size : ℕ → ℕ) (s : PoolState) (t : Side) (name : List ℕ) (listed : Bool) (device : HostDevice)
        (vs : List Move) (reply : OnlineReply)
        → Kept c s t → IsSized size t → RowOnline size s name listed device vs reply → AreWholeReads t.pool (made_in vs) → FindMembers t.pool vs
        → Walks c t vs }
{}

/// A create whose stamps all answered makes a pool, and its first commit may be made; and what its stamps cost other pools. It
/// computes nothing: its clauses are the law.
///
/// `made`: each device of the tree was wiped and has its leaf's identity, whatever stood there before. `allowed`: the stamps,
/// whichever of their calls fail, are events that any other pool's history may have, where it loses each device as a stamp begins
/// there; and these are places where a history may say so. `lost`: it loses these, also where the create failed. `spared`: and no others.
pub fn creates_make_a_pool()
    ensures made { (c : Codec) (size : ℕ → ℕ) (name : List ℕ) (pool : Guid) (blocks : ℕ) (tops : List (List NewMember)) (stamps : List Stamp)
        (vs : List Move) (reply : CreateReply) (sectors : Sectors)
        → (row : RowCreate c size name pool blocks tops stamps vs reply) → row.failed ≡ None
        → IsMade (new_state size name pool blocks tops) (new_side size name pool tops (run (calls_of_stamps stamps) sectors))
        × Walks c (new_side size name pool tops (run (calls_of_stamps stamps) sectors)) vs }
    ensures allowed { (c : Codec) (p : Pool) (size : ℕ → ℕ) (pool : Guid) (leaves : List NewLeaf) (stamps : List Stamp) (failed : Option NewLeaf)
        → AreStamps size pool leaves stamps failed → Mays c p (stamp_events stamps) × LoseJust (stamp_events stamps) }
    ensures lost { (stamps : List Stamp) (p : Pool) (d : ℕ) → IsListed d (stamped_devices stamps)
        → (pool_after (stamp_events stamps) p).member d ≡ false }
    ensures spared { (stamps : List Stamp) (p : Pool) (d : ℕ) → (IsListed d (stamped_devices stamps) → ⊥)
        → (pool_after (stamp_events stamps) p).member d ≡ p.member d }
{}
