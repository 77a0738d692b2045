//! What a stamp, a mark and a wipe leave of a device's records.
ghost use Rattle.std.specs.Prelude.{◌≡◌, ◌⊎◌, ℕ, ◌+◌, ◌*◌, ◌/◌, ◌^◌, ◌<◌, ◌≤◌, true, false, List, take, Option, Some, None, Ok, slice_get, slice_index};
ghost use Rattle.mp_base.specs.declared.number.Guid.{Guid};
ghost use Rattle.bank_core.specs.declared.bank.Fault.{Fault};
ghost use Rattle.bank_core.specs.Asks.{IsPart};
ghost use Rattle.bank_core.specs.Disk.{Sector, Sectors, Noted, run, sectors_in, sector_of, AllAnswer, IsImage, ShowsStable};
ghost use Rattle.bank_core.specs.Memory.{zero_sector};
ghost use Rattle.bank_core.specs.Standing.{Untouched};
ghost use Rattle.label_store.specs.declared.rule.Head.{Head};
ghost use Rattle.label_store.specs.declared.uberblock.Uberblock.{Uberblock};
ghost use Rattle.label_store.specs.Clearing.{IsBare, RingsHold, IsOffRings, IsHeld, IsUnforged, IsReadUnforged};
ghost use Rattle.label_store.specs.Clearing.{AreUnforged, ShowsOnly, AreConfigsUnhurt, MayShow, stamp_sector};
ghost use Rattle.label_store.specs.Identities.{HasIdentity, IsSearch};
ghost use Rattle.label_store.specs.Layout.{labels_of, config_sectors};
ghost use Rattle.label_store.specs.Newest.{Parts, IsVerifiedBy, IsCandidate, IsLook};
ghost use Rattle.label_store.specs.Plans.{blank_uberblock, stamp_plan, wipe_plan};
ghost use Rattle.label_store.specs.Records.{AreUnhurt, IsVerified, config_at, place_at};
ghost use Rattle.label_store.specs.Uberblock.{IsUberblock};

/// What the calls of a wipe, and of a stamp, leave of a device of 320 sectors or more. A mark of a spare is
/// the stamp of pool 0 and member 0. It computes nothing: its clauses are the law.
///
/// `wiped`, `stamped`: where no call failed, each of the 128 places of uberblocks holds zeros, and behind a stamp
/// the first one of each ring the uberblock of its identity, flushed. `stays`: further calls that put nothing
/// there leave it so. `elsewhere_wiped`, `elsewhere_stamped`: however far they came, they put nothing on another
/// sector: the configurations (`configs`), what lies between the labels (`between`) and the other devices are as they
/// were.
pub fn cleared_rings_hold()
    ensures wiped { (dev size : ℕ) (made : List Noted) (sectors : Sectors) → 320 ≤ size → IsPart (wipe_plan dev size) made None
        → RingsHold size (run made sectors dev) (λ slot. zero_sector) }
    ensures stamped { (dev size : ℕ) (pool member : Guid) (made : List Noted) (sectors : Sectors) → 320 ≤ size
        → IsPart (stamp_plan dev size pool member) made None → RingsHold size (run made sectors dev) (stamp_sector pool member) }
    ensures stays { (dev size : ℕ) (sectors : Sectors) (bytes : ℕ → List ℕ) (more : List Noted) → RingsHold size (sectors dev) bytes
        → ((label slot : ℕ) → label < 4 → slot < 32 → Untouched more dev (slice_index (labels_of size) label + (32 + slot)))
        → RingsHold size (run more sectors dev) bytes }
    ensures elsewhere_wiped { (dev size : ℕ) (made : List Noted) (outcome : Option Fault) (d s : ℕ) → (d ≡ dev → IsOffRings size s)
        → IsPart (wipe_plan dev size) made outcome → Untouched made d s }
    ensures elsewhere_stamped { (dev size : ℕ) (pool member : Guid) (made : List Noted) (outcome : Option Fault) (d s : ℕ)
        → (d ≡ dev → IsOffRings size s) → IsPart (stamp_plan dev size pool member) made outcome → Untouched made d s }
    ensures configs { (size label i : ℕ) → 320 ≤ size → label < 4 → i < config_sectors → IsOffRings size (config_at size label + i) }
    ensures between { (size s : ℕ) → 128 ≤ s → s + 128 < size → IsOffRings size s }
{}

/// On a device whose rings hold zeros, or what a stamp brought, no record is found. It computes nothing: its
/// clauses are the law.
///
/// `zeros`, `blank`: neither is an uberblock of a record. `image`: so nothing that a crash may leave verifies a
/// record, as long as no damaged sector happens to show a correct uberblock, which none does where no label
/// sector is damaged (`unhurt`). `read`, `only`, `looked`: nor does an opening that reads the rings. A read shows
/// what stands in each undamaged slot, and, unforged, no other uberblock, whatever is damaged.
pub fn cleared_rings_show_no_record()
    ensures zeros { IsBare zero_sector }
    ensures blank { (pool member : Guid) (slot : ℕ) → pool.0 < 2 ^ 64 → member.0 < 2 ^ 64 → IsBare (stamp_sector pool member slot) }
    ensures image { (head_of : List ℕ → Option Head) (size : ℕ) (sectors : ℕ → Sector) (image : ℕ → List ℕ) (bytes : ℕ → List ℕ)
        → ((slot : ℕ) → slot < 32 → IsBare (bytes slot)) → RingsHold size sectors bytes
        → IsUnforged 1 size sectors image
        → (place : ℕ) (u : Uberblock) (config : List ℕ) → ¬ (IsVerified head_of size (λ s. Some (image s)) place u config) }
    ensures unhurt { (least size : ℕ) (sectors : ℕ → Sector) (image : ℕ → List ℕ) (bytes : ℕ → List ℕ)
        → RingsHold size sectors bytes
        → AreUnhurt size sectors → IsImage sectors image → IsUnforged least size sectors image }
    ensures read { (size : ℕ) (sectors : ℕ → Sector) (bytes : ℕ → List ℕ) (label slot : ℕ) (ring : List ℕ) → label < 4
        → slot < 32
        → RingsHold size sectors bytes → (sectors (slice_index (labels_of size) label + (32 + slot))).damaged ≡ false
        → slot < sectors_in ring
        → ShowsStable sectors (slice_index (labels_of size) label + 32) ring → sector_of slot ring ≡ bytes slot }
    ensures only { (least size : ℕ) (sectors : ℕ → Sector) (bytes : ℕ → List ℕ) (label : ℕ) (ring : List ℕ) → label < 4
        → RingsHold size sectors bytes → IsReadUnforged least sectors (slice_index (labels_of size) label + 32) ring
        → ShowsOnly least ring bytes }
    ensures looked { (head_of : List ℕ → Option Head) (parts : Parts) (name : List ℕ) (bytes : ℕ → List ℕ)
        → ((slot : ℕ) → slot < 32 → IsBare (bytes slot))
        → ((label : ℕ) (ring : List ℕ) → label < 4 → slice_get parts (2 * label) ≡ Some (Some ring)
        → ShowsOnly 1 ring bytes)
        → (place : ℕ) (u : Uberblock) (config : List ℕ) → place < 128 → ¬ (IsVerifiedBy head_of parts name place u config) }
{}

/// The identity that such a ring gives, where its read forged no uberblock: none behind a wipe, and behind a
/// stamp the one of the stamp, by its first slot, and no other. It computes nothing: its clauses are the law.
pub fn cleared_rings_give_one_identity()
    ensures wiped { (pool member : Guid) (ring : List ℕ) → ShowsOnly 0 ring (λ slot. zero_sector)
        → ¬ (HasIdentity pool member ring) }
    ensures stamped { (pool member : Guid) (ring : List ℕ) → pool.0 < 2 ^ 64 → member.0 < 2 ^ 64
        → sector_of 0 ring ≡ stamp_sector pool member 0 → HasIdentity pool member ring }
    ensures no_other { (pool member : Guid) (ring : List ℕ) (pool' member' : Guid) → pool.0 < 2 ^ 64 → member.0 < 2 ^ 64
        → ShowsOnly 0 ring (stamp_sector pool member) → HasIdentity pool' member' ring
        → (pool' ≡ pool) × (member' ≡ member) }
{}

/// Openings and searches pass a device whose rings hold zeros, or what a stamp brought. It computes nothing: its
/// clauses are the law.
///
/// `records`: a look at any devices finds no record of any name on this one. `wiped`: no search gives a wiped device
/// an identity. `stamped`: one gives a stamped device no other than the stamp's. `own`: one that reads each ring gives
/// it this one, unless the first slot of each ring is damaged. `records`, `wiped` and `stamped` hold as long as no
/// damaged slot happens to show a correct uberblock, which none does where none is damaged (`unhurt`).
pub fn openings_pass_cleared_rings()
    ensures records { (head_of : List ℕ → Option Head) (size : ℕ → ℕ) (devs : List ℕ) (looks : List Parts)
        (made : List Noted) (sectors : Sectors) (bytes : ℕ → List ℕ) (dev : ℕ)
        → ((slot : ℕ) → slot < 32 → IsBare (bytes slot)) → RingsHold (size dev) (sectors dev) bytes
        → IsLook size devs looks made → AllAnswer sectors made → AreUnforged 1 dev (size dev) sectors made
        → (name : List ℕ) (n : ℕ) (u : Uberblock) (config : List ℕ) → slice_get devs (n / 128) ≡ Some dev
        → ¬ (IsCandidate head_of looks name n u config) }
    ensures wiped { (pool member : Guid) (dev size : ℕ) (made : List Noted) (sectors : Sectors)
        → RingsHold size (sectors dev) (λ slot. zero_sector) → AllAnswer sectors made
        → AreUnforged 0 dev size sectors made → ¬ (IsSearch pool member dev size made (Ok true)) }
    ensures stamped { (pool member : Guid) (dev size : ℕ) (made : List Noted) (sectors : Sectors) (pool' member' : Guid)
        → pool.0 < 2 ^ 64 → member.0 < 2 ^ 64 → RingsHold size (sectors dev) (stamp_sector pool member)
        → IsSearch pool' member' dev size made (Ok true) → AllAnswer sectors made → AreUnforged 0 dev size sectors made
        → (pool' ≡ pool) × (member' ≡ member) }
    ensures own { (pool member : Guid) (dev size : ℕ) (made : List Noted) (sectors : Sectors) (label : ℕ)
        → pool.0 < 2 ^ 64 → member.0 < 2 ^ 64 → RingsHold size (sectors dev) (stamp_sector pool member)
        → IsSearch pool member dev size made (Ok false) → AllAnswer sectors made → label < 4
        → (run made sectors dev (slice_index (labels_of size) label + 32)).damaged ≡ true }
    ensures unhurt { (least dev size : ℕ) (made : List Noted) (sectors : Sectors)
        → AreUnhurt size (run made sectors dev) → AreUnforged least dev size sectors made }
{}

/// A stop in the middle of a wipe or a stamp, also behind a failed call, leaves no record and no identity that a stop
/// just before it couldn't have left, but the identity of the stamp: on each image of that moment that forges no
/// uberblock, whatever was on its way to the labels before. It computes nothing: its clauses are the law.
///
/// `wiped_held`, `stamped_held`: an uberblock that is shown at a place, of a record or of an identity alone, stood
/// there before, or was on the way, or is the stamp's. `wiped`, `stamped`: of a record that is verified, an image of
/// the moment before would have verified it too, by the uberblock at the same place, where no sector of the
/// configurations was damaged in between.
pub fn half_cleared_rings_show_old_records()
    ensures wiped_held { (least dev size : ℕ) (made : List Noted) (outcome : Option Fault) (sectors : Sectors) (k : ℕ)
        (image : ℕ → List ℕ) → IsPart (wipe_plan dev size) made outcome
        → IsUnforged least size (run (take k made) sectors dev) image
        → (place : ℕ) (u : Uberblock) → place < 128 → IsUberblock u (image (place_at size place)) → least ≤ u.number.0
        → IsHeld (sectors dev (place_at size place)) (image (place_at size place)) }
    ensures stamped_held { (least dev size : ℕ) (pool member : Guid) (made : List Noted) (outcome : Option Fault)
        (sectors : Sectors) (k : ℕ) (image : ℕ → List ℕ) → pool.0 < 2 ^ 64 → member.0 < 2 ^ 64
        → IsPart (stamp_plan dev size pool member) made outcome
        → IsUnforged least size (run (take k made) sectors dev) image
        → (place : ℕ) (u : Uberblock) → place < 128 → IsUberblock u (image (place_at size place)) → least ≤ u.number.0
        → IsHeld (sectors dev (place_at size place)) (image (place_at size place)) ⊎ (u ≡ blank_uberblock pool member) }
    ensures wiped { (head_of : List ℕ → Option Head) (dev size : ℕ) (made : List Noted) (outcome : Option Fault)
        (sectors : Sectors) (k : ℕ) (image : ℕ → List ℕ) → 320 ≤ size → IsPart (wipe_plan dev size) made outcome
        → AreConfigsUnhurt size (sectors dev) (run (take k made) sectors dev)
        → IsImage (run (take k made) sectors dev) image → IsUnforged 1 size (run (take k made) sectors dev) image
        → (place : ℕ) (u : Uberblock) (config : List ℕ) → IsVerified head_of size (λ s. Some (image s)) place u config
        → MayShow head_of size (sectors dev) place u config }
    ensures stamped { (head_of : List ℕ → Option Head) (dev size : ℕ) (pool member : Guid) (made : List Noted)
        (outcome : Option Fault) (sectors : Sectors) (k : ℕ) (image : ℕ → List ℕ) → 320 ≤ size
        → pool.0 < 2 ^ 64 → member.0 < 2 ^ 64 → IsPart (stamp_plan dev size pool member) made outcome
        → AreConfigsUnhurt size (sectors dev) (run (take k made) sectors dev)
        → IsImage (run (take k made) sectors dev) image → IsUnforged 1 size (run (take k made) sectors dev) image
        → (place : ℕ) (u : Uberblock) (config : List ℕ) → IsVerified head_of size (λ s. Some (image s)) place u config
        → MayShow head_of size (sectors dev) place u config }
{}
