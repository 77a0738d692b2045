//! The leaves of a record are put on the devices where they were found.
ghost use Rattle.std.specs.Prelude.{◌≡◌, ◌≢◌, ◌+◌, ◌*◌, ◌^◌, ◌≤◌, ◌==◌, cond, true, ℕ, length, drop, All, AllPairs};
ghost use Rattle.group_set.specs.Groups.{holds};
ghost use Rattle.vdev_tree.specs.Tree.{leaves, marks};
ghost use Rattle.dtl_rules.specs.Widening.{leaves_of, marks_of, sectors_of};
ghost use Rattle.pool_codec.specs.Tops.{LiesWithin};
ghost use Rattle.open_pool.specs.Opening.{placed, all_placed};

use mp_base::{Group, Guid};
use txg_engine::MOST_LEAVES;
use vdev_tree::{LeafChange, LeafVdev, State, Top};

/// Puts the leaf of this number on the device where it was found; one that wasn't found is UNAVAIL.
#[derive(Drop)]
struct PutOn {
    at: Guid,
    dev: Option<u32>,
}

impl LeafChange for PutOn {
    ghost may = { λ c leaf. Unit {0} };

    ghost changes = { λ c old new. new ≡ cond (old.guid.0 == c.at.0) (placed c.dev old) old };

    fn change(&self, leaf: &mut LeafVdev) {
        if leaf.guid == self.at {
            leaf.dev = self.dev;
            if self.dev.is_none() {
                leaf.state = State::Unavail;
            }
        }
    }
}

/// Puts each leaf under the tops on its device, in tree order. That their logs have groups that a record can have is a fact for the
/// callers' proofs.
pub(crate) fn place_leaves(tops: &mut [Top], devs: &[Option<u32>])
    requires few { length (leaves_of tops.old) ≤ 32 }
    requires numbered { AllPairs (λ a b. a.guid.0 ≢ b.guid.0) (leaves_of tops.old) }
    requires paired { length devs.now ≡ length (leaves_of tops.old) }
    ensures leaves { leaves_of tops.new ≡ all_placed devs.now (leaves_of tops.old) }
    ensures built { marks_of tops.new ≡ marks_of tops.old }
    ensures sectors { sectors_of tops.new ≡ sectors_of tops.old }
    ensures lie { All (λ leaf. LiesWithin leaf.log) (leaves_of tops.old) }
{
    let mut at = 0;
    for i in 0..tops.len() {
        let top = &mut tops[i];
        at = place_under(top, devs, at);
    }
}

// Puts the leaves of one top on their devices, which stand in the list from this place on, and gives the place behind them.
fn place_under(top: &mut Top, devs: &[Option<u32>], at: usize) -> usize
    requires few { length (leaves top.old.mirror) ≤ 32 }
    requires numbered { AllPairs (λ a b. a.guid.0 ≢ b.guid.0) (leaves top.old.mirror) }
    requires paired { at + length (leaves top.old.mirror) ≤ length devs.now }
    ensures behind { result ≡ at + length (leaves top.old.mirror) }
    ensures leaves { leaves top.new.mirror ≡ all_placed (drop at devs.now) (leaves top.old.mirror) }
    ensures built { marks top.new.mirror ≡ marks top.old.mirror }
    ensures sectors { top.new.sectors ≡ top.old.sectors }
    ensures lie { All (λ leaf. LiesWithin leaf.log) (leaves top.old.mirror) }
{
    for place in 0..MOST_LEAVES {
        let Some(leaf) = top.leaf_at(place) else {
            return at + place;
        };
        lies_within(leaf);
        let put = PutOn {
            at: leaf.guid,
            dev: devs[at + place],
        };
        top.change(&put);
    }
    at + MOST_LEAVES
}

// The groups of a log lie from 1 to 2^62, as a fact for the callers' proofs: what is looked up says so.
fn lies_within(leaf: &LeafVdev)
    ensures { LiesWithin leaf.now.log }
{
    let _least = leaf.log.least();
    let _none = leaf.log.next_group(Group((1 << 62) + 1));
}
