//! Laws of openings (docs/MODEL.md, "The history of a pool").
ghost use Rattle.std.specs.Prelude.{◌≡◌, ◌⊎◌, ℕ, ◌*◌, ◌<◌, ◌≤◌, Bool, true, false, List, [], ◌∷◌, ◌++◌, length, Option, Some, None, slice_get, take};
ghost use Rattle.std.specs.List.{AllByRecursion};
ghost use Rattle.sha2.specs.Sha256.{sha256};
ghost use Rattle.bank_core.specs.Disk.{Sectors, Noted, AllAnswer, run};
ghost use Rattle.label_store.specs.Newest.{Parts, IsLook, IsBest};
ghost use Rattle.label_store.specs.Records.{AreUnhurt, place_at};
ghost use Rattle.label_store.specs.Rounds.{config_of};
ghost use Rattle.label_store.specs.Uberblock.{IsUberblock};
ghost use Rattle.label_store.specs.declared.found.Found.{Found};
ghost use Rattle.label_store.specs.declared.rule.Head.{Head};
ghost use Rattle.label_store.specs.declared.uberblock.Uberblock.{Uberblock};
ghost use Rattle.mp_base.specs.declared.number.Guid.{Guid};
ghost use Rattle.txg_history.specs.Calm.{stable_of};
ghost use Rattle.txg_history.specs.Contents.{BegunAt};
ghost use Rattle.txg_history.specs.Events.{Event, Known, Begins, Acks, Looks};
ghost use Rattle.txg_history.specs.Imports.{IsPast, DrawsPast, DrawsJust};
ghost use Rattle.txg_history.specs.Looks.{known_by, AreDistinct, HaveRoom, NoneFailed};
ghost use Rattle.txg_history.specs.Moves.{Mays, ReadsTrue};
ghost use Rattle.txg_history.specs.Openings.{IsVerifiedOn, IsYield, IsReadWhole, IsDrawnRecord, Finds, FindsLive};
ghost use Rattle.txg_history.specs.Pages.{Codec};
ghost use Rattle.txg_history.specs.Pools.{Pool, drawn, after, pool_after};
ghost use Rattle.txg_history.specs.Premises.{AreOurs, AreClaims, AreGood, AreNamesKept, AreTwins, HasNoClash, AreNotTorn, AreOwnConfigs};
ghost use Rattle.txg_history.specs.Premises.{AreThere, HasNoTwin, HasSoundLabels, HasNoStray, HasTwin, HoldsLabels, Premises, WasAcked, WasMissed};
ghost use Rattle.txg_history.specs.Records.{Rec, IsIn, number_of};
ghost use Rattle.txg_history.specs.Survival.{IsAmong, Survives};

/// An opening finds the last acknowledged record or a later live one, whatever crash came before it. It
/// computes nothing: its clauses are the law.
///
/// `Survives` is what holds at each moment of a pool's history, and `Premises` are what is assumed of this
/// opening: no clash, no stray, and a member with sound labels. By what it read of the labels, `some` says
/// that a record of the name is verified, and `each` that whatever it may take is live, with its bytes and
/// its number, and not below the acknowledged one. `along`: so does each opening of a history at whose looks the premises
/// hold. `contents` says of events before the opening that what it
/// finds was live before them, or its round began among them and it has what was accepted before the last freeze
/// before that: a suspended group's record may be one of these.
pub fn openings_find_a_live_record()
    ensures some { (c : Codec) (p : Pool) (known : Known) → Survives c p → ReadsTrue p.sectors known → Premises c.head_of p known
        → (d : ℕ) × (u : Uberblock) × (config : List ℕ) × IsVerifiedOn c.head_of p.size known p.name d u config }
    ensures each { (c : Codec) (p : Pool) (known : Known) (u : Uberblock) (config : List ℕ) → Survives c p
        → ReadsTrue p.sectors known → Premises c.head_of p known
        → IsYield c.head_of p.size known p.name u config → FindsLive p u config }
    ensures along { (c : Codec) (p : Pool) (vs : List Event) (k : ℕ) (known : Known) → Survives c p → Mays c p vs → AreGood c.head_of p vs
        → slice_get vs k ≡ Some (Looks known) → Finds c (pool_after (take k vs) p) known }
    ensures contents { (c : Codec) (p : Pool) (vs : List Event) (known : Known) (u : Uberblock) (config : List ℕ) → Survives c p → Mays c p vs
        → ReadsTrue (pool_after vs p).sectors known → Premises c.head_of (pool_after vs p) known
        → IsYield c.head_of (pool_after vs p).size known (pool_after vs p).name u config
        → (f : FindsLive (pool_after vs p) u config) × (IsIn f.found p.live ⊎ BegunAt p.written p.group.content vs f.found) }
{}

/// What a search for the newest record says of the parts that it read is so of the labels' sectors. It
/// computes nothing: its clauses are the law.
///
/// `found` says that the record which the search gives is one that an opening may take, and `none` that
/// where it gives none no record of the name is verified. `true_to` says that what was read of a sector is
/// what stands there, where it is clean behind the reads, and `whole` that a device was read whole where
/// none of its reads failed. The devices differ, and each has the room of four labels, of 320 sectors.
pub fn looks_show_the_labels()
    ensures found { (head_of : List ℕ → Option Head) (size : ℕ → ℕ) (devs : List ℕ) (looks : List Parts)
        (made : List Noted) (sectors : Sectors) (name : List ℕ) (found : Found)
        → IsLook size devs looks made → AreDistinct devs → HaveRoom size devs → AllAnswer sectors made
        → IsBest head_of looks name (128 * length devs) (Some found)
        → (u : Uberblock) × (found.number ≡ u.number) × (found.pool ≡ u.pool) × IsYield head_of size (known_by size devs looks) name u found.blob.items }
    ensures none { (head_of : List ℕ → Option Head) (size : ℕ → ℕ) (devs : List ℕ) (looks : List Parts) (made : List Noted) (sectors : Sectors) (name : List ℕ)
        → IsLook size devs looks made → HaveRoom size devs → AllAnswer sectors made → IsBest head_of looks name (128 * length devs) None
        → (d : ℕ) (u : Uberblock) (config : List ℕ) → IsVerifiedOn head_of size (known_by size devs looks) name d u config → ⊥ }
    ensures true_to { (size : ℕ → ℕ) (devs : List ℕ) (looks : List Parts) (made : List Noted) (sectors : Sectors)
        → IsLook size devs looks made → AllAnswer sectors made
        → ReadsTrue (run made sectors) (known_by size devs looks) }
    ensures whole { (size : ℕ → ℕ) (devs : List ℕ) (looks : List Parts) (made : List Noted) (i d : ℕ)
        → IsLook size devs looks made → slice_get devs i ≡ Some d → 320 ≤ size d
        → NoneFailed d made → IsReadWhole (size d) (known_by size devs looks d) }
{}

/// The premises of an opening can be met. It computes nothing: its clauses are the law.
///
/// `calm`: they hold where each read of a member gives what stands there, some member's labels hold a record
/// and none of their sectors is damaged, no opening ever missed a record, and no configuration that is
/// verified has the sum of another drawn one. `sound`: labels that hold a record are sound where none of their sectors is damaged
/// and each was read, though the premise asks this only of the sectors of one uberblock and of one configuration. `true_to`: so
/// read, each clean sector shows what stands there. `no_clash`: there is none
/// where no two different byte strings of those that are there have one sum, and no ring sector is torn into a correct
/// uberblock.
pub fn premises_can_be_met()
    ensures calm { (c : Codec) (p : Pool) (d : ℕ) (r : Rec) → Survives c p → HoldsLabels p d r → p.member d ≡ true
        → AreUnhurt (p.size d) (p.sectors d) → p.missed ≡ []
        → AreOwnConfigs c.head_of p (stable_of p)
        → Premises c.head_of p (stable_of p) }
    ensures sound { (c : Codec) (p : Pool) (known : Known) (d : ℕ) (r : Rec) → Survives c p → p.member d ≡ true → HoldsLabels p d r
        → AreUnhurt (p.size d) (p.sectors d) → IsReadWhole (p.size d) (known d) → HasSoundLabels p known d }
    ensures true_to { (p : Pool) → ReadsTrue p.sectors (stable_of p) }
    ensures no_clash { (head_of : List ℕ → Option Head) (p : Pool) (known : Known) (strings : List (List ℕ))
        → ((a b : List ℕ) → IsAmong a strings → IsAmong b strings → sha256 a ≡ sha256 b → a ≡ b) → AreThere head_of p known strings → AreNotTorn p known
        → HasNoClash head_of p known }
{}

/// A stray is a record that was never acknowledged, and was live when an opening read a lower one, on whatever device it
/// was. It computes nothing: its clauses are the law.
///
/// `missed`: a record counts as missed only where an opening read a record of a lower number while it was live. `acked`: one
/// that was acknowledged, told by its bytes, is below the acknowledged record, or a live one is the very same;
/// so it is no stray. `premise`: the premise of openings holds where no other pool's record of the name is found, and each
/// missed record that is found, and isn't below the acknowledged one, was acknowledged. `again`: a record that is drawn
/// a second time, the very same, is live from its round's beginning on. So
/// an opening that is stopped before any of its uberblocks, and is followed by one that draws the same record, leaves no stray.
/// `past`: a record is past where it was acknowledged, told by its bytes, or is below the acknowledged one. There is no stray
/// behind events where the record of each of their rounds is past at their end, and so is what was missed before them, and what was
/// live then above the acknowledged record.
/// `imports`: so behind a create any number of imports that draw the very same record leave none to the next, once that record was
/// acknowledged. Each may be stopped anywhere in its round or before it, whatever it reads, rewrites and flushes, and whichever
/// leaves leave its board.
pub fn strays_were_never_acknowledged()
    ensures missed { (vs : List Event) (p : Pool) (r : Rec) → IsIn r (pool_after vs p).missed → IsIn r p.missed ⊎ WasMissed p vs r }
    ensures acked { (c : Codec) (p : Pool) (r : Rec) → Survives c p → WasAcked p r → (number_of r < number_of p.acked) ⊎ HasTwin p r }
    ensures premise { (c : Codec) (p : Pool) (known : Known) → Survives c p
        → AreOurs c p known
        → ((d : ℕ) (u : Uberblock) (config : List ℕ) (r : Rec) → IsVerifiedOn c.head_of p.size known p.name d u config
        → IsDrawnRecord p u config r → IsIn r p.missed
        → number_of p.acked ≤ number_of r → WasAcked p r)
        → HasNoStray c.head_of p known }
    ensures past { (c : Codec) (p : Pool) (vs : List Event) (known : Known) → Survives c p → Mays c p vs
        → ((r : Rec) → IsIn r p.live → number_of p.acked < number_of r → IsPast (pool_after vs p) r)
        → ((r : Rec) → IsIn r p.missed → IsPast (pool_after vs p) r) → AllByRecursion (DrawsPast (pool_after vs p)) vs
        → AreOurs c (pool_after vs p) known → HasNoStray c.head_of (pool_after vs p) known }
    ensures imports { (c : Codec) (p : Pool) (r q : Rec) (vs : List Event) (known : Known) → Survives c p → p.live ≡ r ∷ [] → p.missed ≡ []
        → AllByRecursion (DrawsJust q) vs → Mays c p vs → IsIn q (pool_after vs p).acks
        → AreOurs c (pool_after vs p) known → HasNoStray c.head_of (pool_after vs p) known }
    ensures again { (p : Pool) (q r : Rec) → AreTwins r q → HasTwin (after (Begins q) p) r × HasTwin (after (Acks q) p) r }
{}

/// A correct uberblock on a member's rings gives the member's identity, whatever its number. It computes nothing: its
/// clauses are the law.
///
/// `identity`: so it is. `no_twin`: so there is no twin where each device that is handed in under a leaf's name, with the
/// leaf's identity on it, is some member's. That it is the very leaf's follows.
pub fn identities_are_the_members()
    ensures no_twin { (c : Codec) (p : Pool) (r : Rec) (known : Known) (under claims : ℕ → Guid → Bool) → Survives c p → HasNoClash c.head_of p known
        → AreNamesKept p r known under → AreClaims p known under claims → HasNoTwin p r claims }
    ensures identity { (c : Codec) (p : Pool) (known : Known) (d place : ℕ) (u : Uberblock) (bytes : List ℕ)
        → Survives c p → HasNoClash c.head_of p known → p.member d ≡ true → place < 128
        → known d (place_at (p.size d) place) ≡ Some bytes → IsUberblock u bytes → (u.pool ≡ p.pool) × (u.member ≡ p.guid d) }
{}
