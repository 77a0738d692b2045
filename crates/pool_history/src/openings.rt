//! Laws of openings (docs/MODEL.md, "Stops and openings").
ghost use Rattle.std.specs.Prelude.{◌≡◌, ℕ, ◌*◌, ◌≤◌, true, List, [], ◌∷◌, length, Option, Some, None, slice_get};
ghost use Rattle.sha2.specs.Sha256.{sha256};
ghost use Rattle.bank_core.specs.Disk.{Sectors, Noted, AllAnswer, run};
ghost use Rattle.label_store.specs.Newest.{Parts, IsLook, IsBest};
ghost use Rattle.label_store.specs.Records.{AreUnhurt};
ghost use Rattle.label_store.specs.Rounds.{config_of};
ghost use Rattle.label_store.specs.declared.found.Found.{Found};
ghost use Rattle.label_store.specs.declared.rule.Head.{Head};
ghost use Rattle.label_store.specs.declared.uberblock.Uberblock.{Uberblock};
ghost use Rattle.pool_history.specs.Calm.{stable_of};
ghost use Rattle.pool_history.specs.Events.{Event, Known, Acks};
ghost use Rattle.pool_history.specs.Looks.{known_by, AreDistinct, HaveRoom, NoneFailed};
ghost use Rattle.pool_history.specs.Moves.{Mays, ReadsTrue};
ghost use Rattle.pool_history.specs.Openings.{IsVerifiedOn, IsYield, IsReadWhole, FindsLive};
ghost use Rattle.pool_history.specs.Pools.{Pool, drawn, after, pool_after};
ghost use Rattle.pool_history.specs.Premises.{Premises};
ghost use Rattle.pool_history.specs.Records.{Rec, IsIn, takes_part};
ghost use Rattle.pool_history.specs.Survival.{Survives};
ghost use Rattle.pool_history.specs.Tracking.{KeepsLabels, AreNear, HasPromise};

/// An opening finds the last acknowledged record or a later live one, whatever crash came before it. It
/// computes nothing: its clauses are the law.
///
/// `Survives` is what holds at each moment of a pool's history, and `Premises` are what is assumed of this
/// opening: no clash, no stray, and a member with sound labels. By what it read of the labels, `some` says
/// that a record of the name is verified, and `each` that whatever it may take is live, with its bytes and
/// its number, and not below the acknowledged one.
pub fn openings_find_a_live_record()
    ensures some { (head_of : List ℕ → Option Head) (p : Pool) (known : Known) → Survives head_of p → ReadsTrue p.sectors known → Premises head_of p known
        → (d : ℕ) × (u : Uberblock) × (config : List ℕ) × IsVerifiedOn head_of p.size known p.name d u config }
    ensures each { (head_of : List ℕ → Option Head) (p : Pool) (known : Known) (u : Uberblock) (config : List ℕ) → Survives head_of p → ReadsTrue p.sectors known → Premises head_of p known
        → IsYield head_of p.size known p.name u config → FindsLive p u config }
{}

/// What a search for the newest record says of the parts that it read is so of the labels' sectors. It
/// computes nothing: its clauses are the law.
///
/// `found` says that the record which the search gives is one that an opening may take, and `none` that
/// where it gives none no record of the name is verified. `true_to` says that what was read of a sector is
/// what stands there, where it is clean behind the reads, and `whole` that a device was read whole where
/// none of its reads failed. The devices differ, and each has the room of four labels, of 320 sectors.
pub fn looks_show_the_labels()
    ensures found { (head_of : List ℕ → Option Head) (size : ℕ → ℕ) (devs : List ℕ) (looks : List Parts) (made : List Noted) (sectors : Sectors) (name : List ℕ) (found : Found)
        → IsLook size devs looks made → AreDistinct devs → HaveRoom size devs → AllAnswer sectors made → IsBest head_of looks name (128 * length devs) (Some found)
        → (u : Uberblock) × (found.number ≡ u.number) × (found.pool ≡ u.pool) × IsYield head_of size (known_by size devs looks) name u found.blob.items }
    ensures none { (head_of : List ℕ → Option Head) (size : ℕ → ℕ) (devs : List ℕ) (looks : List Parts) (made : List Noted) (sectors : Sectors) (name : List ℕ)
        → IsLook size devs looks made → HaveRoom size devs → AllAnswer sectors made → IsBest head_of looks name (128 * length devs) None
        → (d : ℕ) (u : Uberblock) (config : List ℕ) → IsVerifiedOn head_of size (known_by size devs looks) name d u config → ⊥ }
    ensures true_to { (size : ℕ → ℕ) (devs : List ℕ) (looks : List Parts) (made : List Noted) (sectors : Sectors) → IsLook size devs looks made → AllAnswer sectors made
        → ReadsTrue (run made sectors) (known_by size devs looks) }
    ensures whole { (size : ℕ → ℕ) (devs : List ℕ) (looks : List Parts) (made : List Noted) (i d : ℕ) → IsLook size devs looks made → slice_get devs i ≡ Some d → 320 ≤ size d
        → NoneFailed d made → IsReadWhole (size d) (known_by size devs looks d) }
{}

/// The labels of a member go on promising a record, by the events alone. It computes nothing: its clauses
/// are the law.
///
/// `KeepsLabels` says of the events behind an acknowledgement: the member stays one; each round in which it
/// takes part begins with a number less than 32 above the acknowledged one and other than that of the record
/// which the member's labels hold; none of these begins while a third phase on the member is unfinished; and it
/// takes part in each round that is acknowledged. Other rounds, failed calls, openings and stops may come
/// anywhere. With a further acknowledgement the count begins anew. `since` is the law from the acknowledgement
/// of a round on in which the member took part, and `stays` from any moment at which the labels hold a record.
pub fn labels_stay_sound()
    ensures stays { (head_of : List ℕ → Option Head) (p : Pool) (d : ℕ) (vs : List Event) → Survives head_of p → AreNear p → HasPromise p d → Mays head_of p vs
        → KeepsLabels p d vs → HasPromise (pool_after vs p) d }
    ensures since { (head_of : List ℕ → Option Head) (p : Pool) (d : ℕ) (q : Rec) (vs : List Event) → p.member d ≡ true → takes_part q (p.guid d) ≡ true → Mays head_of p (Acks q ∷ vs)
        → KeepsLabels (after (Acks q) p) d vs → HasPromise (pool_after (Acks q ∷ vs) p) d }
{}

/// The premises of an opening can be met. It computes nothing: its clauses are the law.
///
/// `calm`: they hold where each read of a member gives what stands there, some member's labels hold a record
/// and none of their sectors is damaged, no opening ever missed a record, and no configuration that is
/// verified has the sum of another drawn one. `true_to`: so read, each clean sector shows what stands there.
pub fn premises_can_be_met()
    ensures calm { (head_of : List ℕ → Option Head) (p : Pool) (d : ℕ) → HasPromise p d → AreUnhurt (p.size d) (p.sectors d) → p.missed ≡ []
        → ((r : Rec) (e : ℕ) (u : Uberblock) (config : List ℕ) → IsIn r (drawn p) → IsVerifiedOn head_of p.size (stable_of p) p.name e u config
        → sha256 config ≡ sha256 (config_of r.commit) → config ≡ config_of r.commit)
        → Premises head_of p (stable_of p) }
    ensures true_to { (p : Pool) → ReadsTrue p.sectors (stable_of p) }
{}
