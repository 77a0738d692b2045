//! Leaves that are taken offline by a line.
ghost use Rattle.std.specs.Prelude.{◌≡◌, ◌==◌, ◌∷◌, [], ◌<◌, true, false, map, Some, Err, length, IfSome, slice_get};
ghost use Rattle.std.specs.List.{list_any, AllByRecursion, AllZip};
ghost use Rattle.std.specs.Str.{bytes_eq};
ghost use Rattle.txg_engine.specs.Boards.{AreServed, as_taken, on_board, without};
ghost use Rattle.pool_moves.specs.AwayRows.{RowOffline, is_offline, unnamed};
ghost use Rattle.pool_moves.specs.Leaves.{OwnLeaf};
ghost use Rattle.pool_moves.specs.Moves.{Sets, steps};
ghost use Rattle.pool_moves.specs.States.{PoolState};
ghost use Rattle.open_pool.specs.Form.{all_leaves};
ghost use Rattle.open_pool.specs.Offline.{IsNamedOwn, IsStillIt, LeavesBoard, numbers_under, offline_says};
ghost use Rattle.open_pool.specs.Parts.{TopParts};
ghost use Rattle.open_pool.specs.Scanning.{dropped_from};

use crate::Pool;
use crate::named::find_leaf;
use crate::scan::drop_from;
use crate::spares::{is_listed, is_spare_leaf};
use dtl_rules::required;
use mp_base::{Group, Guid, Name, PlaceRule};
use vdev_tree::State;

/// Why a leaf isn't taken offline.
#[derive(Clone, Copy, Debug, PartialEq, Eq)]
pub enum OfflineFault {
    /// No leaf has the name.
    NoVdev,
    /// It is a listed spare, or a spare leaf that stands in.
    Misplaced { rule: PlaceRule },
    /// Without it this group, the least such one, could be read from no leaf of its top.
    Required { group: Group },
}

impl Pool {
    ghost use Rattle.open_pool.specs.Answering.{Answers};
    ghost use Rattle.open_pool.specs.State.{Stands, seats_in};

    /// Takes the leaf on the device of this name offline, with `temporary` only until the next opening. It leaves the board of a
    /// frozen group, whose numbers it then owes, and the running scan. At `Err` nothing has changed.
    pub fn offline(&mut self, name: &Name, temporary: bool) -> Result<(), OfflineFault>
        ensures row { (s : PoolState) → Stands self.old s → Answers (RowOffline s name.now temporary) offline_says result s self.new }
    {
        self.keeps_its_form();
        let Some(found) = find_leaf(&self.tops, name) else {
            return Err(self.why_unnamed(name));
        };
        let top = &self.tops[found.top];
        if is_spare_leaf(top, found.guid) {
            let rule = PlaceRule::Spare;
            return Err(OfflineFault::Misplaced { rule });
        }
        if is_offline(found.state) {
            self.set_offline(found.top, found.guid, temporary);
            return Ok(());
        }
        if let Some(group) = required(top, found.guid) {
            return Err(OfflineFault::Required { group });
        }
        self.drop_from_scan(found.dev);
        self.leave_board(found.guid);
        self.set_offline(found.top, found.guid, temporary);
        Ok(())
    }

    // Why a name that is no leaf's is refused.
    fn why_unnamed(&self, name: &Name) -> OfflineFault
        ensures { offline_says (unnamed (list_any (λ spare. bytes_eq spare name.now) self.now.spares)) ≡ Err result }
    {
        if is_listed(&self.spares, name) {
            let rule = PlaceRule::Spare;
            return OfflineFault::Misplaced { rule };
        }
        OfflineFault::NoVdev
    }

    // The leaf on this device, if it has one, is no longer eligible in the running scan.
    fn drop_from_scan(&mut self, dev: Option<u32>)
        ensures { self.new ≡ record self.old { scan = dropped_from dev self.old.scan } }
    {
        drop_from(&mut self.scan, dev);
    }

    // The leaf of this number leaves the board of the frozen group, where it is on it. Its top keeps somebody there, or had a
    // failed call.
    fn leave_board(&mut self, at: Guid)
        requires kept { IfSome self.old.frozen (λ group. on_board group.board at ≡ true → AreServed (map (without at) (map (as_taken at) group.board))) }
        ensures left { (s : PoolState) → Stands self.old s → LeavesBoard at self.old s self.new }
        ensures off { on_board (seats_in self.new.frozen) at ≡ false }
        ensures still { AllZip (IsStillIt (seats_in self.old.frozen) (seats_in self.new.frozen)) (all_leaves self.old) (all_leaves self.new) }
        ensures tops { numbers_under self.new.tops ≡ numbers_under self.old.tops }
    {
        if let Some(frozen) = &mut self.frozen {
            frozen.keeps_its_form();
            frozen.leave(&mut self.tops, at);
        }
    }

    // The leaf of this number, which is under this top and on no board, is OFFLINE.
    fn set_offline(&mut self, top: usize, at: Guid, temporary: bool)
        requires inside { top < length self.old.tops }
        requires there { (under : TopParts) → slice_get self.old.tops top ≡ Some under → list_any (λ leaf. leaf.guid.0 == at.0) under.leaves ≡ true }
        requires off { on_board (seats_in self.old.frozen) at ≡ false }
        ensures set { (s : PoolState) (own : OwnLeaf) → Stands self.old s → AllByRecursion (IsNamedOwn (seats_in self.old.frozen) at temporary own) (all_leaves self.old)
            → Stands self.new (steps (Sets at own ∷ []) s) }
    {
        self.tops[top].set_state(at, State::Offline, temporary);
    }
}

fn is_offline(state: State) -> bool
    ensures { result ≡ is_offline state }
{
    matches!(state, State::Offline)
}
