//! Laws of devices that a pool loses (docs/MODEL.md, "The history of a pool").
ghost use Rattle.std.specs.Prelude.{◌≡◌, ◌≢◌, ◌⊎◌, ℕ, true, false, List, [], ◌∷◌, Option};
ghost use Rattle.bank_core.specs.declared.bank.Fault.{Fault};
ghost use Rattle.bank_core.specs.Asks.{Ask, IsPart};
ghost use Rattle.bank_core.specs.Disk.{Noted};
ghost use Rattle.mp_base.specs.declared.number.Guid.{Guid};
ghost use Rattle.txg_history.specs.Events.{Event, Calls, Joins, Loses, as_events};
ghost use Rattle.txg_history.specs.Losses.{IsStampCall, LoseJust, IsStampPlan, IsLostBy, IsLostAmong, IsStampedAmong, IsReplacedAmong};
ghost use Rattle.txg_history.specs.Moves.{Mays};
ghost use Rattle.txg_history.specs.Pages.{Codec};
ghost use Rattle.txg_history.specs.Pools.{Pool, after, pool_after};
ghost use Rattle.txg_history.specs.Survival.{Survives};
ghost use Rattle.txg_history.specs.Tracking.{HasPromise};

/// A pool loses a member's device where its history says so, and where another device is brought in under its number. It computes
/// nothing: its clauses are the law.
///
/// A history may say anywhere that a device is lost; from there on nothing is promised of what stands on it. `only`: a device that
/// was a member and is none was lost by one of the events. `does`: such an event takes it. `just`: in a history that says it only
/// where a stamp, a wipe or a spare's mark begins with the next event, one of these began on the device, or another device was
/// brought in under its number. `joins`: a device that is brought in is a member, and of the others those with another number
/// alone. `stamps`: the calls of a stamp, a wipe or a mark are allowed, whichever of them fails, where the device is lost before the
/// first of them; and that is such a history. `needed`: without that, none begins on a member whose labels promise a record.
pub fn devices_are_lost_by_stamps()
    ensures only { (vs : List Event) (p : Pool) (d : ℕ) → p.member d ≡ true → (pool_after vs p).member d ≡ false → IsLostAmong p vs d }
    ensures does { (v : Event) (p : Pool) (d : ℕ) → IsLostBy p v d → (after v p).member d ≡ false }
    ensures just { (vs : List Event) (p : Pool) (d : ℕ) → LoseJust vs → p.member d ≡ true → (pool_after vs p).member d ≡ false
        → IsStampedAmong vs d ⊎ IsReplacedAmong p vs d }
    ensures joins { (p : Pool) (e d : ℕ) (m : Guid) (top : ℕ) → (after (Joins e m top) p).member d ≡ true
        → (e ≡ d) ⊎ ((p.member d ≡ true) × ((p.guid d).0 ≢ m.0)) }
    ensures stamps { (c : Codec) (p : Pool) (d size : ℕ) (plan : List Ask) (made : List Noted) (outcome : Option Fault) → IsStampPlan d size plan
        → IsPart plan made outcome → Mays c p (Loses d ∷ as_events made) × LoseJust (Loses d ∷ as_events made) }
    ensures needed { (c : Codec) (p : Pool) (d : ℕ) (noted : Noted) → Survives c p → HasPromise p d → IsStampCall d noted.call
        → Mays c p (Calls noted ∷ []) → ⊥ }
{}
