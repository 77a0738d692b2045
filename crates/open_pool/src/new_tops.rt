//! The tops of a new pool.
ghost use Rattle.std.specs.Prelude.{◌≡◌, ◌+◌, ◌^◌, ◌≤◌, Some, length, All, IfOk};
ghost use Rattle.pool_moves.specs.StampRow.{next_from};
ghost use Rattle.open_pool.specs.Creating.{AreNewTops, IsMade, IsMirror, IsNewTop, least_room, member_of, members_in, members_of};

use bank_core::Bank;
use group_set::GroupSet;
use mp_base::{Guid, MemFault, Name};
use std::alloc::Global;
use vdev_tree::{Counts, InnerVdev, Kind, LeafVdev, State, Top, Vdev};

/// The sectors of a device that hold no data: its four labels stand there.
const LABEL_SECTORS: u64 = 256;

/// A leaf that a new pool is to have: its name, and its device.
#[derive(Drop)]
pub struct NewLeaf {
    pub name: Name,
    pub dev: u32,
}

/// The tops of a new pool, and the member number that is drawn next.
#[derive(Drop)]
pub(crate) struct NewTops {
    pub(crate) tops: Vec<Top>,
    pub(crate) next: u64,
}

/// Tops over these leaves. Their numbers are given from 1 on in tree order: a top's mirror, and then its leaves.
pub(crate) fn new_tops<B: Bank>(
    alloc: Global,
    bank: &B,
    tops: &[Vec<NewLeaf>],
) -> Result<NewTops, MemFault>
    requires few { length tops.now ≤ 8 }
    requires members { All (λ leaves. (1 ≤ length leaves.items) × (length leaves.items ≤ 8)) tops.now }
    requires big { All (λ leaves. All (λ leaf. 256 ≤ (B.view bank.now).size leaf.dev) leaves.items) tops.now }
    ensures tops { IfOk result (λ new. AreNewTops (B.view bank.now).size 1 (members_of tops.now) new.tops.items) }
    ensures next { IfOk result (λ new. new.next ≡ next_from 1 (members_of tops.now)) }
{
    let mut new = Vec::with_capacity(alloc, tops.len())?;
    let mut next = 1;
    for i in 0..tops.len() {
        new.push(new_top(alloc, bank, next, &tops[i])?)?;
        next += 1 + tops[i].len() as u64;
    }
    Ok(NewTops { tops: new, next })
}

// A top over these leaves. It has as many data sectors as its smallest one.
fn new_top<B: Bank>(alloc: Global, bank: &B, next: u64, leaves: &[NewLeaf]) -> Result<Top, MemFault>
    requires some { 1 ≤ length leaves.now }
    requires few { length leaves.now ≤ 8 }
    requires room { next + 9 ≤ 2 ^ 62 }
    requires big { All (λ leaf. 256 ≤ (B.view bank.now).size leaf.dev) leaves.now }
    ensures { IfOk result (IsNewTop (B.view bank.now).size next (members_in leaves.now)) }
{
    let mirror = new_mirror(alloc, next, leaves)?;
    let sectors = least_sectors(bank, leaves);
    match Top::new(mirror, sectors) {
        Some(top) => Ok(top),
        None => unreachable!(),
    }
}

// As many data sectors as the smallest of these leaves has.
fn least_sectors<B: Bank>(bank: &B, leaves: &[NewLeaf]) -> u64
    requires some { 1 ≤ length leaves.now }
    requires big { All (λ leaf. 256 ≤ (B.view bank.now).size leaf.dev) leaves.now }
    ensures { least_room (B.view bank.now).size (members_in leaves.now) ≡ Some result }
{
    let mut least = data_sectors(bank, &leaves[0]);
    for i in 1..leaves.len() {
        least = least.min(data_sectors(bank, &leaves[i]));
    }
    least
}

fn data_sectors<B: Bank>(bank: &B, leaf: &NewLeaf) -> u64
    requires { 256 ≤ (B.view bank.now).size leaf.now.dev }
    ensures { result + 256 ≡ (B.view bank.now).size leaf.now.dev }
{
    bank.sectors(leaf.dev) - LABEL_SECTORS
}

// A mirror over these leaves.
fn new_mirror(alloc: Global, next: u64, leaves: &[NewLeaf]) -> Result<Vdev, MemFault>
    requires some { 1 ≤ length leaves.now }
    requires few { length leaves.now ≤ 8 }
    requires room { next + 9 ≤ 2 ^ 62 }
    ensures { IfOk result (IsMirror next (members_in leaves.now)) }
{
    let mut children = Vec::with_capacity(alloc, leaves.len())?;
    for i in 0..leaves.len() {
        let guid = Guid(next + 1 + i as u64);
        children.push(Vdev::Leaf(new_leaf(alloc, guid, &leaves[i])?))?;
    }
    Ok(Vdev::Inner(InnerVdev {
        guid: Guid(next),
        kind: Kind::Mirror,
        children,
    }))
}

fn new_leaf(alloc: Global, guid: Guid, leaf: &NewLeaf) -> Result<LeafVdev, MemFault>
    ensures { IfOk result (IsMade guid (member_of leaf.now)) }
{
    let name = leaf.name.copy(alloc)?;
    name.spells_a_name();
    Ok(LeafVdev {
        guid,
        name,
        dev: Some(leaf.dev),
        state: State::Online,
        log: GroupSet::new(alloc),
        settled: GroupSet::new(alloc),
        marked: false,
        temporary: false,
        counts: Counts {
            reads: 0,
            writes: 0,
            mismatches: 0,
        },
    })
}
