//! Changes of each leaf of a pool.
ghost use Rattle.std.specs.Prelude.{◌≡◌, All};
ghost use Rattle.std.specs.List.{AllZip};
ghost use Rattle.dtl_rules.specs.Widening.{leaves_of, marks_of, sectors_of};

use vdev_tree::{LeafChange, Top};

/// Does this to each leaf of each top.
pub fn change_tops<C: LeafChange>(tops: &mut [Top], change: &C)
    requires { All (C.may change.now) (leaves_of tops.old) }
    ensures leaves { AllZip (C.changes change.now) (leaves_of tops.old) (leaves_of tops.new) }
    ensures built { marks_of tops.new ≡ marks_of tops.old }
    ensures sectors { sectors_of tops.new ≡ sectors_of tops.old }
{
    for i in 0..tops.len() {
        let top = &mut tops[i];
        top.change(change);
    }
}
