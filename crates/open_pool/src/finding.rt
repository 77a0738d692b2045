//! The leaves of a record that an opening takes are looked for on the devices that are handed in under their names.
ghost use Rattle.std.specs.Prelude.{◌≡◌, ◌≤◌, ◌+◌, ◌++◌, ℕ, [], List, Option, All, length, map};
ghost use Rattle.bank_core.specs.BankView.{BankView};
ghost use Rattle.vdev_tree.specs.Tree.{leaves};
ghost use Rattle.dtl_rules.specs.Widening.{leaves_of, sectors_of};
ghost use Rattle.pool_config.specs.Validity.{IsIn};
ghost use Rattle.txg_history.specs.Pages.{LeafKept};
ghost use Rattle.pool_codec.specs.Tops.{room_of, kept_of, kept_leaves_from};
ghost use Rattle.open_pool.specs.Finding.{FindsDevice, FindsLeaves, handed_to};

use bank_core::Bank;
use label_store::identity;
use mp_base::Guid;
use txg_engine::MOST_LEAVES;
use vdev_tree::Top;

/// Two labels stand before the data sectors of a leaf, and two behind them.
const LABEL_SECTORS: u64 = 256;

/// Looks for all leaves under the tops of a record, in tree order. The list has the devices that are handed in under their names,
/// and then those on which they were found.
pub(crate) fn find_leaves<B: Bank>(bank: &mut B, pool: Guid, tops: &[Top], devs: &mut [Option<u32>])
    requires sectors { All (IsIn 64 1048320) (sectors_of tops.now) }
    requires few { length (leaves_of tops.now) ≤ 32 }
    requires paired { length devs.old ≡ length (leaves_of tops.now) }
    ensures found { (handed : List ℕ → Option ℕ) → handed_to handed (leaves_of tops.now) ≡ devs.old
        → FindsLeaves pool (room_of (sectors_of tops.now)) handed (kept_leaves_from 1 tops.now) [] devs.new (B.view bank.old) (B.view bank.new) }
    ensures paired { length devs.new ≡ length devs.old }
{
    let mut at = 0;
    for i in 0..tops.len() {
        at = find_under(bank, pool, &tops[i], devs, at);
    }
}

// Looks for the leaves of one top, whose devices stand in the list from this place on, and gives the place behind them.
fn find_under<B: Bank>(
    bank: &mut B,
    pool: Guid,
    top: &Top,
    devs: &mut [Option<u32>],
    at: usize,
) -> usize
    requires sectors { IsIn 64 1048320 top.now.sectors }
    requires few { length (leaves top.now.mirror) ≤ 32 }
    requires paired { at + length (leaves top.now.mirror) ≤ length devs.old }
    ensures behind { result ≡ at + length (leaves top.now.mirror) }
    ensures paired { length devs.new ≡ length devs.old }
    ensures on { (room : ℕ → ℕ) (handed : List ℕ → Option ℕ) (number : ℕ) (done : List LeafKept) (left : List (Option ℕ)) (start : BankView)
        → room number ≡ top.now.sectors → length done ≡ at
        → FindsLeaves pool room handed done (handed_to handed (leaves top.now.mirror) ++ left) devs.old start (B.view bank.old)
        → FindsLeaves pool room handed (done ++ map (kept_of number) (leaves top.now.mirror)) left devs.new start (B.view bank.new) }
{
    for place in 0..MOST_LEAVES {
        let Some(leaf) = top.leaf_at(place) else {
            return at + place;
        };
        let dev = devs[at + place];
        devs[at + place] = find_device(bank, pool, leaf.guid, top.sectors, dev);
    }
    at + MOST_LEAVES
}

// Looks for the leaf of this number, under a top of so many sectors, on the device that is handed in under its name. It is found
// where the device has the room and one of its rings the identity.
fn find_device<B: Bank>(
    bank: &mut B,
    pool: Guid,
    member: Guid,
    sectors: u64,
    handed: Option<u32>,
) -> Option<u32>
    requires some { 64 ≤ sectors }
    requires most { sectors ≤ 1048320 }
    ensures { FindsDevice pool member sectors handed result (B.view bank.old) (B.view bank.new) }
{
    let dev = handed?;
    if bank.sectors(dev) < sectors + LABEL_SECTORS {
        return None;
    }
    match identity(bank, dev, pool, member) {
        Ok(true) => Some(dev),
        _ => None,
    }
}
