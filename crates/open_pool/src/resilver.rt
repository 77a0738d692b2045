//! Resilvers that start by themselves.
ghost use Rattle.std.specs.Prelude.{◌≡◌, ◌≤◌, true, false, List, length, All};
ghost use Rattle.vdev_tree.specs.Tree.{leaves};
ghost use Rattle.dtl_rules.specs.Widening.{leaves_of};
ghost use Rattle.open_pool.specs.Scanning.{IsOwing, HasOwing};

use crate::Pool;
use crate::scan::Scan;
use txg_engine::MOST_LEAVES;
use vdev_tree::{LeafVdev, Top};

impl Pool {
    ghost use Rattle.pool_moves.specs.Moves.{Move, steps};
    ghost use Rattle.pool_moves.specs.Resilvers.{Resilvers};
    ghost use Rattle.pool_moves.specs.States.{PoolState};
    ghost use Rattle.open_pool.specs.State.{Stands};

    /// Where a readable leaf owes a group, a scan that runs ends, and a resilver starts: over the keys of the record that the pool
    /// reads, for its readable leaves. It takes no memory.
    pub(crate) fn start_resilver(&mut self)
        ensures row { (s : PoolState) → Stands self.old s → (vs : List Move) × Resilvers s.core vs × Stands self.new (steps vs s) }
        ensures tops { self.new.tops ≡ self.old.tops }
        ensures read { self.new.read ≡ self.old.read }
    {
        self.keeps_its_form();
        if has_owing(&self.tops) {
            self.scan = Some(Scan::start(self.read, &self.tops));
        }
    }
}

// Whether a readable leaf owes a group.
fn has_owing(tops: &[Top]) -> bool
    requires { length (leaves_of tops.now) ≤ 32 }
    ensures owing { result ≡ true → HasOwing (leaves_of tops.now) }
    ensures none { result ≡ false → HasOwing (leaves_of tops.now) → ⊥ }
{
    for i in 0..tops.len() {
        if owes_under(&tops[i]) {
            return true;
        }
    }
    false
}

fn owes_under(top: &Top) -> bool
    requires { length (leaves top.now.mirror) ≤ 32 }
    ensures owing { result ≡ true → HasOwing (leaves top.now.mirror) }
    ensures none { result ≡ false → HasOwing (leaves top.now.mirror) → ⊥ }
{
    for place in 0..MOST_LEAVES {
        let Some(leaf) = top.leaf_at(place) else {
            return false;
        };
        if owes(leaf) {
            return true;
        }
    }
    false
}

fn owes(leaf: &LeafVdev) -> bool
    ensures owing { result ≡ true → IsOwing leaf.now }
    ensures none { result ≡ false → IsOwing leaf.now → ⊥ }
{
    leaf.state.is_up() && leaf.log.least().is_some()
}
